//! Items of INTCODE in a code line, written as in a text. Every reader returns None if the text isn't of its form.

ghost use Rattle.std.specs.Prelude.{◌≡◌};
ghost use Rattle.bc_cert_read.specs.Items.{item as item_of, label_of, data_of, plain_data_of, byte_of, global_of, function_of, operation_of, addressed_of, numbered_of};
ghost use Rattle.bc_cert_read.specs.Fields.{small as small_of};

use crate::fields::{cut, small};
use bc_text_items::{Base, Function, GlobalNumber, Item};
use bc_word::Word;

/// A word: a number up to 65,535.
fn word(text: &[u8]) -> Option<Word>
    ensures { result ≡ small_of text.now }
{
    match small(text) {
        Some(number) => Some(Word::new(number)),
        None => None,
    }
}

/// An item as it is printed in a text of INTCODE.
pub fn item(text: &[u8]) -> Option<Item>
    ensures { result ≡ item_of text.now }
{
    match text {
        [letter, rest @ ..] => {
            if *letter >= b'0' && *letter <= b'9' {
                label(text)
            } else if *letter == b'D' {
                data(rest)
            } else if *letter == b'C' {
                byte(rest)
            } else if *letter == b'G' {
                global(rest)
            } else {
                match function(*letter) {
                    Some(function) => operation(function, rest),
                    None => None,
                }
            }
        }
        [] => None,
    }
}

/// A label: its number.
fn label(text: &[u8]) -> Option<Item>
    ensures { result ≡ label_of (small_of text.now) }
{
    match word(text) {
        Some(number) => Some(Item::Label(number)),
        None => None,
    }
}

/// What follows the `D` of data: a number, or `L` and a label.
fn data(text: &[u8]) -> Option<Item>
    ensures { result ≡ data_of text.now }
{
    match text {
        [letter, digits @ ..] => {
            if *letter == b'L' {
                match word(digits) {
                    Some(label) => Some(Item::DataLabel(label)),
                    None => None,
                }
            } else {
                plain_data(text)
            }
        }
        [] => plain_data(text),
    }
}

/// Data that is a number.
fn plain_data(text: &[u8]) -> Option<Item>
    ensures { result ≡ plain_data_of (small_of text.now) }
{
    match word(text) {
        Some(number) => Some(Item::Data(number)),
        None => None,
    }
}

/// What follows the `C` of a byte: a number up to 255.
fn byte(text: &[u8]) -> Option<Item>
    ensures { result ≡ byte_of (small_of text.now) }
{
    match small(text) {
        Some(byte) => {
            if byte <= 255 {
                Some(Item::Byte(byte as u8))
            } else {
                None
            }
        }
        None => None,
    }
}

/// What follows the `G` that sets a global: its number, `L`, and a label.
fn global(text: &[u8]) -> Option<Item>
    ensures { result ≡ global_of text.now }
{
    match cut(text, b'L') {
        (first, Some(rest)) => match (small(first), word(rest)) {
            (Some(number), Some(label)) => match GlobalNumber::new(number) {
                Some(number) => Some(Item::Global { number, label }),
                None => None,
            },
            (Some(_), None) | (None, _) => None,
        },
        (_, None) => None,
    }
}

/// The function with this letter.
fn function(letter: u8) -> Option<Function>
    ensures { result ≡ function_of letter }
{
    if letter == b'L' {
        Some(Function::Load)
    } else if letter == b'S' {
        Some(Function::Store)
    } else if letter == b'A' {
        Some(Function::Add)
    } else if letter == b'J' {
        Some(Function::Jump)
    } else if letter == b'T' {
        Some(Function::JumpIfTrue)
    } else if letter == b'F' {
        Some(Function::JumpIfFalse)
    } else if letter == b'K' {
        Some(Function::Call)
    } else if letter == b'X' {
        Some(Function::Execute)
    } else {
        None
    }
}

/// What follows the letter of an operation: `I` if it is indirect, then its base and number.
fn operation(function: Function, text: &[u8]) -> Option<Item>
    ensures { result ≡ operation_of function text.now }
{
    match text {
        [letter, rest @ ..] => {
            if *letter == b'I' {
                addressed(function, true, rest)
            } else {
                addressed(function, false, text)
            }
        }
        [] => None,
    }
}

/// What follows in an operation after `I` or its absence: `P`, `G`, `L` or no base, and the number.
fn addressed(function: Function, indirect: bool, text: &[u8]) -> Option<Item>
    ensures { result ≡ addressed_of function indirect text.now }
{
    match text {
        [letter, rest @ ..] => {
            if *letter == b'P' {
                numbered(function, indirect, Base::P, rest)
            } else if *letter == b'G' {
                numbered(function, indirect, Base::G, rest)
            } else if *letter == b'L' {
                numbered(function, indirect, Base::Label, rest)
            } else {
                numbered(function, indirect, Base::Number, text)
            }
        }
        [] => None,
    }
}

/// An operation with this number.
fn numbered(function: Function, indirect: bool, base: Base, digits: &[u8]) -> Option<Item>
    ensures { result ≡ numbered_of function indirect base (small_of digits.now) }
{
    match word(digits) {
        Some(number) => Some(Item::Operation {
            function,
            indirect,
            base,
            number,
        }),
        None => None,
    }
}
