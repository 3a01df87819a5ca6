//! Items of INTCODE and pieces of code as text.

use bc_rules_defs::Piece;
use bc_text_items::{Base, Function, Item};
use std::fmt;

/// Prints an item as in an INTCODE text.
#[derive(Drop)]
pub struct ShownItem<'i>(pub &'i Item);

impl fmt::Display for ShownItem<'_> {
    fn fmt<W: fmt::Write>(&self, f: &mut fmt::Formatter<W>) -> fmt::Result {
        match self.0 {
            Item::Label(label) => {
                let label = label.get();
                write!(f, "{label}")
            }
            Item::Data(word) => {
                let word = word.get();
                write!(f, "D{word}")
            }
            Item::DataLabel(label) => {
                let label = label.get();
                write!(f, "DL{label}")
            }
            Item::Byte(byte) => write!(f, "C{byte}"),
            Item::Operation {
                function,
                indirect,
                base,
                number,
            } => {
                f.write_char(function_letter(*function))?;
                if *indirect {
                    f.write_char('I')?;
                }
                f.write_str(base_letter(*base))?;
                let number = number.get();
                write!(f, "{number}")
            }
            Item::Global { number, label } => {
                let number = number.get();
                let label = label.get();
                write!(f, "G{number}L{label}")
            }
        }
    }
}

/// The letters of the functions, in the order of the enum.
const FUNCTIONS: [char; 8] = ['L', 'S', 'A', 'J', 'T', 'F', 'K', 'X'];

/// The letter of a function.
fn function_letter(function: Function) -> char {
    FUNCTIONS.get(function as usize).copied().unwrap_or('X')
}

/// The letter of a base, which is empty for a plain number.
fn base_letter(base: Base) -> &'static str {
    match base {
        Base::Number => "",
        Base::P => "P",
        Base::G => "G",
        Base::Label => "L",
    }
}

/// Prints a piece of a root's code: an item, or `?` and the number of a VALOF's body.
#[derive(Drop)]
pub struct ShownPiece<'p>(pub &'p Piece);

impl fmt::Display for ShownPiece<'_> {
    fn fmt<W: fmt::Write>(&self, f: &mut fmt::Formatter<W>) -> fmt::Result {
        match self.0 {
            Piece::Item(item) => {
                let item = ShownItem(item);
                write!(f, "{item}")
            }
            Piece::Body(number) => write!(f, "?{number}"),
        }
    }
}
