//! The speller with allocations that fail.

use crate::compiling::sections::{Answer, Asked, answered};
use bc_parse_tree::{Section, render, spell};
use bc_word::Memory;
use std::alloc::Global;

/// A routine with one command.
const TEXT: &[u8] = b"LET S() BE BREAK";

/// Whether the spelling of a section has eight tokens, and 24 bytes as text.
pub fn is_right(alloc: Global, section: &Section<'_>) -> Result<bool, Memory> {
    let kinds = spell(alloc, section)?;
    let text = render(alloc, kinds.as_slice())?;
    Ok(kinds.len() == 8 && text.len() == 24)
}

#[test]
fn growth_is_given(rt: HostRuntime) {
    assert_eq!(rt; answered(rt.alloc(), Asked::Spelling, TEXT), Answer::Right);
}

/// Under `tests/stress/failed-allocations` each allocation fails in turn. The result must be right, or a failed allocation.
#[test]
fn refused_growth_is_memory(rt: HostRuntime) {
    assert!(rt; answered(rt.alloc(), Asked::Spelling, TEXT).is_lawful());
}
