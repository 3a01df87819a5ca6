//! The words that pieces of code take.

ghost use Rattle.std.specs.Prelude.{◌≡◌};
ghost use Rattle.bc_text_items.specs.Sizes.{size};
ghost use Rattle.bc_rules_defs.specs.Piece.{words as words_of};
ghost use Rattle.bc_rules.specs.Words.{added_words, half_left};

use bc_rules_defs::Piece;
use bc_text_items::{Base, Item};

/// The words of a single item.
fn item_words(item: &Item) -> u64
    ensures exact { result ≡ size item.now }
{
    match item {
        Item::Label(_) | Item::Global { .. } => 0,
        Item::Data(_) | Item::DataLabel(_) | Item::Byte(_) => 1,
        Item::Operation { base, number, .. } => match base {
            Base::Label => 2,
            Base::Number | Base::P | Base::G => { if number.get() <= 511 { 1 } else { 2 } }
        },
    }
}

/// The words that a piece adds to those before it. `half` says whether the last word before it has room for one more byte.
fn added(half: bool, piece: &Piece) -> u64
    ensures { result ≡ added_words half piece.now }
{
    match piece {
        Piece::Item(Item::Byte(_)) => { if half { 0 } else { 1 } }
        Piece::Item(item) => item_words(item),
        Piece::Body(_) => 0,
    }
}

/// Whether there is room for one more byte in the last word after this piece.
fn leaves_half(half: bool, piece: &Piece) -> bool
    ensures { result ≡ half_left half piece.now }
{
    match piece {
        Piece::Item(Item::Byte(_)) => !half,
        _ => false,
    }
}

/// The number of words that pieces of code take. An operation takes one, or two in its long form; data takes one;
/// adjacent bytes share a word in pairs; labels, settings of globals and bodies of VALOFs take none.
#[tactic(auto, using(crate::proofs::Bytes::words_next, crate::proofs::Bytes::added_small))]
pub fn words(pieces: &[Piece]) -> u64
    ensures { result ≡ words_of pieces.now }
{
    let mut total = 0;
    let mut half = false;
    for piece in pieces {
        total += added(half, piece);
        half = leaves_half(half, piece);
    }
    total
}
