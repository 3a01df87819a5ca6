//! The lexer with allocations that fail.

use bc_lex::{LexError, Source, lex};
use bc_library::LIBHDR;
use std::alloc::Global;

/// The number of tokens of a small program that gets the library's declarations.
fn small_program(alloc: Global) -> Result<usize, LexError> {
    let sources = [
        Source {
            name: b"MAIN",
            text: b"GET \"LIBHDR\"\nLET START() BE WRCH('A')",
        },
        Source {
            name: b"LIBHDR",
            text: LIBHDR.as_bytes(),
        },
    ];
    Ok(lex(alloc, &sources, 0)?.len())
}

#[test]
fn growth_is_given(rt: HostRuntime) {
    assert_eq!(rt; small_program(rt.alloc()), Ok(76));
}

/// Under `tests/stress/failed-allocations` each allocation fails in turn. The result must be right, or a failed allocation.
#[test]
fn refused_growth_is_memory(rt: HostRuntime) {
    let got = small_program(rt.alloc());
    assert!(rt; got == Ok(76) || got == Err(LexError::Memory), "{got:?}");
}
