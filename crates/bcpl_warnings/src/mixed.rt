//! Warnings: a file that gets LIBHDR and uses streams, in a program of which another file gets EXTHDR.

use crate::declared::{Declarations, Meaning};
use crate::tokens::name_at;
use bc_lex_tokens::Token;

/// The routines of LIBHDR that EXTHDR's replace because those remember something.
const REPLACED: [&[u8]; 6] = [
    b"RDCH",
    b"FINDINPUT",
    b"SELECTINPUT",
    b"SELECTOUTPUT",
    b"ENDREAD",
    b"ENDWRITE",
];

/// The first number of EXTHDR: those of LIBHDR are below it.
const FIRST_NUMBER: u16 = 30;

/// The number of EXTHDR's SELECTINPUT.
const FURTHER_NUMBER: u16 = 41;

/// Whether these are the declarations of a main that gets EXTHDR.
pub fn gets_further(declarations: &Declarations<'_>) -> bool {
    declarations
        .all
        .iter()
        .any(|declared| match declared.meaning {
            Meaning::Global(Some(number)) => {
                number == FURTHER_NUMBER && declared.name == b"SELECTINPUT".as_slice()
            }
            _ => false,
        })
}

/// The index of the first call of a routine of LIBHDR that EXTHDR's replaces; `None` if there is none.
fn first_replaced(declarations: &Declarations<'_>) -> Option<usize> {
    let mut first: Option<usize> = None;
    for name in REPLACED {
        if let Some((number, call)) = declarations.called_global(name)
            && number < FIRST_NUMBER
        {
            first = match first {
                Some(earlier) if earlier < call => Some(earlier),
                _ => Some(call),
            };
        }
    }
    first
}

/// Whether the token with this index is the first call, in a main that doesn't get EXTHDR, of a routine that EXTHDR's
/// replaces, while another main of the program gets EXTHDR.
pub fn is_mixed(
    tokens: &[Token<'_>],
    declarations: &Declarations<'_>,
    others_get_further: bool,
    index: usize,
) -> bool {
    let Some(name) = name_at(tokens, index) else {
        return false;
    };
    others_get_further
        && REPLACED.contains(&name)
        && first_replaced(declarations) == Some(index)
        && !gets_further(declarations)
}
