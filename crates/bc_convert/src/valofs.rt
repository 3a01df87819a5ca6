//! Jumps out of a VALOF, which this dialect doesn't have.

use crate::complaint::Fault;
use crate::kind::Kind;
use crate::notes::Notes;
use crate::source::TokenizedText;
use bc_word::Memory;
use std::alloc::Global;

/// Whether the token at an index is the section bracket of a VALOF.
fn opens_valof(source: TokenizedText<'_>, index: usize) -> bool {
    index > 0 && source.kind(index) == Kind::OpenSection && source.kind(index - 1) == Kind::Valof
}

/// The innermost VALOF around an index: the first one from `valof` outwards that isn't closed before it. `outer` has the
/// VALOF around each one.
fn still_open(source: TokenizedText<'_>, outer: &[usize], valof: usize, index: usize) -> usize {
    let mut valof = valof;
    for _ in 0..outer.len() {
        if valof >= outer.len() || source.partner(valof) > index {
            break;
        }
        valof = outer.get(valof).copied().unwrap_or(outer.len());
    }
    valof
}

/// For each token the index of the bracket of the innermost VALOF around it, or the number of tokens.
fn innermost_valofs(alloc: Global, source: TokenizedText<'_>) -> Result<Vec<usize>, Memory> {
    let count = source.tokens.len();
    let mut outer = vec![in alloc; count; count]?;
    let mut innermost = Vec::new(alloc);
    let mut valof = count;
    for index in 0..count {
        valof = still_open(source, outer.as_slice(), valof, index);
        if opens_valof(source, index) && index < outer.len() {
            outer[index] = valof;
            valof = index;
        }
        innermost.push(valof)?;
    }
    Ok(innermost)
}

/// Whether the GOTO with its destination at an index is in a VALOF and its label isn't in the same one.
fn leaves_valof(
    source: TokenizedText<'_>,
    notes: &Notes,
    innermost: &[usize],
    destination: usize,
) -> bool {
    let valof = innermost.get(destination).copied();
    if valof == Some(source.tokens.len()) {
        return false;
    }
    let mut has_label = false;
    for label in notes.labels_like(source, destination) {
        has_label = true;
        if innermost.get(*label).copied() == valof {
            return false;
        }
    }
    has_label
}

/// Reports each GOTO that leaves a VALOF.
pub fn find_valof_jumps(source: TokenizedText<'_>, notes: &mut Notes) {
    if notes.destinations().is_empty() {
        return;
    }
    let innermost = innermost_valofs(notes.alloc(), source);
    let Some(innermost) = notes.made(innermost) else {
        return;
    };
    for number in 0..notes.destinations().len() {
        if let Some(destination) = notes.destinations().get(number).copied()
            && leaves_valof(source, notes, innermost.as_slice(), destination)
        {
            notes.complain(source, destination, Fault::JumpOutOfValof);
        }
    }
}
