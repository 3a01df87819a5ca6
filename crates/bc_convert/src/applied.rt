//! The public call `apply`.

ghost use Rattle.std.specs.Prelude.{◌≡◌, ◌++◌, length, IfOk, OnOk};
ghost use Rattle.bc_convert.specs.Converted.{converted, RiseWithin};

use crate::replacement::Replacement;
use bc_word::Memory;
use std::alloc::Global;

/// The text with each span replaced. The spans must rise, not overlap, and lie within the text.
///
/// # Errors
///
/// `Memory` if an allocation failed.
pub fn apply(alloc: Global, text: &[u8], replacements: &[Replacement]) -> Result<Vec<u8>, Memory>
    requires { RiseWithin 0 (length text.now) replacements.now }
    ensures { IfOk result (λ whole. whole.items ≡ converted text.now replacements.now) }
{
    let mut whole = Vec::new(alloc);
    let mut at = 0;
    for replacement in replacements {
        whole.extend_from_slice(&text[at..replacement.start])?;
        whole.extend_from_slice(replacement.text.as_slice())?;
        at = replacement.end;
    }
    whole.extend_from_slice(&text[at..])?;
    Ok(whole)
}
