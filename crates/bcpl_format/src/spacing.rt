//! Whether there is a blank between two atoms of a line.

use crate::atom::{Atom, Shape};
use crate::context::Context;
use bc_lex::Symbol;

/// Whether the byte may be in a name or a number.
fn is_name_byte(byte: u8) -> bool {
    byte.is_ascii_alphanumeric() || byte == b'.'
}

/// Whether two bytes side by side may be read as one token or as a comment.
fn is_joined(left: u8, right: u8) -> bool {
    match left {
        b':' | b'~' => right == b'=',
        b'<' => matches!(right, b'=' | b'<'),
        b'>' => matches!(right, b'=' | b'>'),
        b'-' => right == b'>',
        b'$' => matches!(right, b'(' | b')'),
        b'/' => matches!(right, b'/' | b'*' | b'\\'),
        b'\\' => right == b'/',
        b'|' => right == b'|',
        _ => is_name_byte(left) && is_name_byte(right),
    }
}

/// Whether two atoms need a blank between them so that they stay two atoms.
fn is_needed(source: &[u8], left: Atom, right: Atom) -> bool {
    let is_bracket = matches!(
        left.shape,
        Shape::Symbol(Symbol::OpenSection | Symbol::CloseSection)
    );
    match (left.text(source).last(), right.text(source).first()) {
        (Some(last), Some(first)) => {
            is_joined(*last, *first) || (is_bracket && is_name_byte(*first))
        }
        _ => true,
    }
}

/// Whether the style has a blank after a sign, whatever comes next.
fn is_wanted_after(context: &Context, source: &[u8], left: Atom) -> bool {
    match left.shape {
        Shape::Symbol(symbol) => match symbol {
            Symbol::OpenBracket | Symbol::AddressOf | Symbol::Indirection => false,
            Symbol::Minus => !context.is_after_prefix(),
            Symbol::Not => left.text(source) != b"~".as_slice(),
            _ => true,
        },
        Shape::Operand | Shape::Comment => true,
    }
}

/// Whether the style has a blank before `right`, after an atom that takes one.
fn is_wanted_before(left: Shape, right: Shape) -> bool {
    match right {
        Shape::Symbol(symbol) => match symbol {
            Symbol::Comma | Symbol::Semicolon | Symbol::CloseBracket | Symbol::Colon => false,
            Symbol::Indirection => !left.is_operand_end(),
            Symbol::OpenBracket => {
                let is_block = matches!(left, Shape::Symbol(Symbol::CloseSection));
                is_block || !left.is_operand_end()
            }
            _ => true,
        },
        Shape::Operand | Shape::Comment => true,
    }
}

/// Whether there is a blank between two atoms that are side by side in a line. `context` is that after the left one.
pub fn has_blank(context: &Context, source: &[u8], left: Atom, right: Atom) -> bool {
    if left.is_comment() || right.is_comment() {
        return true;
    }
    let is_wanted = is_wanted_after(context, source, left)
        && is_wanted_before(left.shape, right.shape);
    is_wanted || is_needed(source, left, right)
}
