//! Why the address of a cell doesn't pass. No contract speaks of it.

use crate::at::At;
use crate::bounds::{content_of, offsets_at};
use crate::held::Held;
use crate::knows::held_at;
use crate::lookup::{label_of, words_of};
use crate::not_tame::Cause;
use bc_core::CoreExp;

/// Whether an expression has the address of a vector or table that is known.
fn is_known(at: At<'_>, e: &CoreExp) -> bool {
    if let Some(label) = label_of(e) {
        return words_of(at.around.places, label) > 0;
    }
    match content_of(e) {
        Some(offset) => matches!(held_at(at, offset), Held::VectorOf(_) | Held::TableAt(_)),
        None => false,
    }
}

/// Why a cell at this address can't be read or written.
pub(crate) fn why_not(at: At<'_>, address: &CoreExp) -> Cause {
    if let Ok(Some(_)) = offsets_at(at, address) {
        return Cause::Unset;
    }
    match address {
        CoreExp::Bin(_, left, right) if is_known(at, left) || is_known(at, right) => Cause::Index,
        _ => Cause::Indirection,
    }
}
