//! The sizes of code, in words.
use bc_rules::words;
use bc_rules_defs::Piece;
use bc_text_items::Item;
use bc_word::Memory;
use std::alloc::Global;

/// The size of these pieces, in words.
pub fn words_of_pieces(pieces: &[Piece]) -> u64 {
    if pieces.len() < 1 << 32 {
        words(pieces)
    } else {
        0
    }
}

/// The size of these items, in words. Fails only if an allocation fails.
pub fn words_of_items(alloc: Global, items: &[Item]) -> Result<u64, Memory> {
    let mut pieces = Vec::new(alloc);
    for item in items {
        pieces.push(Piece::Item(*item))?;
    }
    Ok(words_of_pieces(pieces.as_slice()))
}
