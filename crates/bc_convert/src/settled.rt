//! The public call `settle`.

ghost use Rattle.std.specs.Prelude.{◌≡◌, ◌≤◌, length, IfOk};
ghost use Rattle.bc_convert.specs.Converted.{RiseWithin, ChangesText};
ghost use Rattle.bc_convert.specs.Settled.{changes as changes_of, fits as fits_of, settled, IsSublist};

use crate::replacement::Replacement;
use bc_word::Memory;
use std::alloc::Global;

/// Whether a replacement changes its span.
fn changes(text: &[u8], replacement: &Replacement) -> bool
    requires rises { replacement.now.start ≤ replacement.now.end }
    requires within { replacement.now.end ≤ length text.now }
    ensures { result ≡ changes_of text.now replacement.now }
{
    let span = &text[replacement.start..replacement.end];
    span != replacement.text.as_slice()
}

/// Whether a candidate begins at `at` or after it, ends within the text and changes its span.
fn fits(at: usize, text: &[u8], candidate: &Replacement) -> bool
    ensures { result ≡ fits_of at text.now candidate.now }
{
    at <= candidate.start
        && candidate.start <= candidate.end
        && candidate.end <= text.len()
        && changes(text, candidate)
}

/// Those candidates, in order, that begin at or after the end of the last one taken, lie within the text and change it.
///
/// # Errors
///
/// `Memory` if an allocation failed.
pub fn settle(
    alloc: Global,
    text: &[u8],
    candidates: Vec<Replacement>,
) -> Result<Vec<Replacement>, Memory>
    // Exactly the candidates that fit, each after those taken before it.
    ensures exact { IfOk result (λ taken. taken.items ≡ settled text.now candidates.items) }

    // So they are candidates in their order, which rise, don't overlap, and change the text.
    ensures candidates { IfOk result (λ taken. IsSublist taken.items candidates.items) }
    ensures rise { IfOk result (λ taken. RiseWithin 0 (length text.now) taken.items) }
    ensures change { IfOk result (λ taken. ChangesText text.now taken.items) }

    // They are all candidates, if these rise, don't overlap, and each changes the text.
    ensures all { RiseWithin 0 (length text.now) candidates.items → ChangesText text.now candidates.items →
        IfOk result (λ taken. taken.items ≡ candidates.items) }
{
    let mut taken = Vec::new(alloc);
    let mut at = 0;
    for candidate in candidates {
        if fits(at, text, &candidate) {
            let end = candidate.end;
            taken.push(candidate)?;
            at = end;
        }
    }
    Ok(taken)
}
