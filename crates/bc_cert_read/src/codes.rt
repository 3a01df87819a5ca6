//! Code lines, the only lines whose reading allocates.

ghost use Rattle.std.specs.Prelude.{◌≡◌, ◌++◌, ◌∷◌, [], IfOk, OnOk};
ghost use Rattle.bc_cert_read.specs.Lines.{code_of_line, piece as piece_of, pieces_after, Adds};
ghost use Rattle.bc_cert_read.specs.Fields.{fields};
ghost use Rattle.bc_cert_read.specs.View.{code};
ghost use Rattle.bc_rules_defs.specs.declared.piece.Piece.TheVariants as forms;

use crate::fields::{cut, following, number};
use crate::items::item;
use bc_rules_defs::Piece;
use bc_text_items::Item;
use bc_word::Memory;
use std::alloc::Global;

/// The pieces of a code line, which comes without its LF. None if it isn't one. Returns `Memory` if an allocation fails.
pub fn code_line(alloc: Global, line: &[u8]) -> Result<Option<Vec<Piece>>, Memory>
    ensures { IfOk result (λ found. code found ≡ code_of_line line.now) }
{
    match line {
        [letter] => {
            if *letter == b'C' {
                Ok(Some(Vec::new(alloc)))
            } else {
                Ok(None)
            }
        }
        _ => match following(line, b'C') {
            Some(text) => pieces(alloc, text),
            None => Ok(None),
        },
    }
}

/// The pieces of a text of fields.
fn pieces(alloc: Global, text: &[u8]) -> Result<Option<Vec<Piece>>, Memory>
    ensures { IfOk result (λ found. code found ≡ pieces_after [] (fields 32 text.now)) }
{
    let mut pieces = Vec::new(alloc);
    let mut rest = text;
    for turn in 0..text.len() + 1 {
        let (first, following) = cut(rest, b' ');
        if !add_piece(&mut pieces, first)? {
            return Ok(None);
        }
        match following {
            Some(following) => rest = following,
            None => return Ok(Some(pieces)),
        }
    }
    Ok(None)
}

/// Appends the piece that the field describes. Returns false if the field describes none.
fn add_piece(pieces: &mut Vec<Piece>, field: &[u8]) -> Result<bool, Memory>
    ensures { IfOk result (λ added. Adds added (piece_of field.now) pieces.old.items pieces.new.items) }
{
    match field {
        [letter, digits @ ..] => {
            if *letter == b'?' {
                match number(digits) {
                    Some(count) => {
                        pieces.push(Piece::Body(count))?;
                        Ok(true)
                    }
                    None => Ok(false),
                }
            } else {
                match item(field) {
                    Some(item) => {
                        add_item(pieces, item)?;
                        Ok(true)
                    }
                    None => Ok(false),
                }
            }
        }
        [] => Ok(false),
    }
}

/// Appends an item as a piece.
fn add_item(pieces: &mut Vec<Piece>, item: Item) -> Result<(), Memory>
    ensures { OnOk result (pieces.new.items ≡ pieces.old.items ++ forms.Item item ∷ []) }
{
    pieces.push(Piece::Item(item))?;
    Ok(())
}
