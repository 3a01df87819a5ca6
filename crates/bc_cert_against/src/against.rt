//! Whether the code of a verdict's entries is in segments.

ghost use Rattle.std.specs.Prelude.{◌≡◌, ◌<◌, ◌≤◌, ◌⊎◌, ◌↔◌, IsTrue, MatchResult, MatchOption};
ghost use Rattle.bc_text_items.specs.declared.item.Item.{Item};
ghost use Rattle.std.specs.Prelude.{List, length, drop};
ghost use Rattle.bc_rules_defs.specs.declared.piece.Piece.TheVariants as pieces;
ghost use Rattle.bc_cert_defs.specs.Against.{Fit, Misfit, IsAfter, LiesIn, StandsIn, Stands, Passes, taken, extent};
ghost use Rattle.bc_cert_defs.specs.View.{judged as judged_of, verdict as verdict_of};

use bc_cert_defs::{Judged, Mismatch, Verdict};
use bc_rules_defs::Piece;
use bc_text_items::{Item, Segment};

/// Checks that the code of the verdict's entries is in the segments, each at the segment and item that the entry states.
///
/// Returns `Order` if an entry's place is before that of the preceding entry, `OutsideText` if its segment doesn't exist or its items
/// aren't all within it, and `CodeDiffers` if these items aren't its code; the items of a VALOF's body are skipped. The error has the
/// number of the first entry at fault, counted from 0. If several things are wrong with that entry, the first in this order is
/// returned. Nothing is allocated.
pub fn check_against(verdict: &Verdict, segments: &[Segment]) -> Result<(), Mismatch>
    ensures { MatchResult result (λ done. Fit segments.now 0 0 (verdict_of verdict.now).entries)
        (λ fault. Misfit segments.now 0 0 0 (verdict_of verdict.now).entries fault) }
{
    let mut segment = 0;
    let mut item = 0;
    for (entry, judged) in verdict.entries.iter().enumerate() {
        if !is_after(judged, segment, item) {
            return Err(Mismatch::Order(entry as u64));
        }
        if !lies_in(judged, segments) {
            return Err(Mismatch::OutsideText(entry as u64));
        }
        if !stands_in(judged, segments) {
            return Err(Mismatch::CodeDiffers(entry as u64));
        }
        segment = judged.segment;
        item = judged.item;
    }
    Ok(())
}

/// Whether the entry's place is this segment and item, or a later one.
fn is_after(judged: &Judged, segment: u64, item: u64) -> bool
    ensures { IsTrue result ↔ IsAfter segment item (judged_of judged.now) }
{
    segment < judged.segment || segment == judged.segment && item <= judged.item
}

/// Whether the entry's segment exists and all of the entry's items are within it.
fn lies_in(judged: &Judged, segments: &[Segment]) -> bool
    ensures { IsTrue result ↔ LiesIn segments.now (judged_of judged.now) }
{
    if judged.segment >= segments.len() as u64 {
        return false;
    }
    let items = segments[judged.segment as usize].items();
    judged.item <= items.len() as u64
        && has_room(judged.code.as_slice(), items.len() as u64 - judged.item)
}

/// Whether code has at most this number of items.
fn has_room(code: &[Piece], items: u64) -> bool
    ensures { IsTrue result ↔ (extent code.now ≤ items) }
{
    let mut left = items;
    for piece in code {
        let count = items_taken(piece);
        if count > left {
            return false;
        }
        left -= count;
    }
    true
}

/// The number of items of a piece.
fn items_taken(piece: &Piece) -> u64
    ensures { result ≡ taken piece.now }
{
    match piece {
        Piece::Item(_) => 1,
        Piece::Body(count) => *count,
    }
}

/// Whether the entry's code is at its place. The entry's items must be within the segments.
fn stands_in(judged: &Judged, segments: &[Segment]) -> bool
    requires { LiesIn segments.now (judged_of judged.now) }
    ensures { IsTrue result ↔ StandsIn segments.now (judged_of judged.now) }
{
    let items = segments[judged.segment as usize].items();
    is_there(judged.code.as_slice(), after(items, judged.item as usize))
}

/// Whether the items begin with this code.
fn is_there(code: &[Piece], items: &[Item]) -> bool
    ensures { IsTrue result ↔ Stands code.now items.now }
{
    let mut rest = items;
    for piece in code {
        match following(piece, rest) {
            Some(more) => rest = more,
            None => return false,
        }
    }
    true
}

/// The items after this piece. None if the items don't begin with it.
fn following<'s>(piece: &Piece, items: &'s [Item]) -> Option<&'s [Item]>
    ensures { MatchOption result ((more : List Item) → Passes piece.now items.now more → ⊥) (λ more. Passes piece.now items.now more.now) }
{
    match piece {
        Piece::Item(item) => {
            if begins_with(items, *item) {
                Some(after(items, 1))
            } else {
                None
            }
        }
        Piece::Body(count) => {
            if *count <= items.len() as u64 {
                Some(after(items, *count as usize))
            } else {
                None
            }
        }
    }
}

/// Whether this is the first of the items.
fn begins_with(items: &[Item], item: Item) -> bool
    ensures { IsTrue result ↔ Passes (pieces.Item item) items.now (drop 1 items.now) }
{
    !items.is_empty() && is_same(items[0], item)
}

/// Whether two items are equal.
fn is_same(item: Item, other: Item) -> bool
    ensures same { IsTrue result → item ≡ other }
    ensures only { item ≡ other → IsTrue result }
{
    item == other
}

/// The items from this index on.
fn after(items: &[Item], place: usize) -> &[Item]
    requires { place ≤ length items.now }
    ensures { result.now ≡ drop place items.now }
{
    &items[place..]
}
