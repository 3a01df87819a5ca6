//! Fields of a certificate's lines.

use crate::placed::{Stretch, is_byte};
use crate::report::Fill;
use bc_rules_defs::Piece;

/// The stretch of the field with this index in a line whose fields are separated by a space. If there is no such field,
/// the byte after the line.
pub fn field_of(bytes: &[u8], line: Stretch, index: usize) -> Stretch {
    let mut left = index;
    let mut start = line.start;
    for at in line.start..line.end {
        if is_byte(bytes, at, b' ') {
            if left == 0 {
                return Stretch { start, end: at };
            }
            left -= 1;
            start = at.saturating_add(1);
        }
    }
    if left == 0 {
        Stretch {
            start,
            end: line.end,
        }
    } else {
        Stretch {
            start: line.end,
            end: line.end.saturating_add(1),
        }
    }
}

/// A piece as a certificate writes it; a body is written `?`.
pub fn piece_text(piece: &Piece) -> Fill<'_> {
    match piece {
        Piece::Item(item) => Fill::Item(item),
        Piece::Body(_) => Fill::Text("?"),
    }
}
