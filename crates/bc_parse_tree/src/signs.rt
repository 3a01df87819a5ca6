//! The symbols that operators and declarations are written with.
ghost use Rattle.std.specs.Prelude.{◌≡◌};
ghost use Rattle.bc_parse_tree.specs.Canonical.{entry_sign};
ghost use Rattle.bc_parse_tree.specs.Operators.{binary_sign, unary_sign, storage_sign};

use crate::{BinaryOp, Storage, UnaryOp};
use bc_lex_tokens::Symbol;

/// The sign of an operator with two operands.
pub(crate) fn binary(operator: BinaryOp) -> Symbol
    ensures { result ≡ binary_sign operator }
{
    match operator {
        BinaryOp::Equivalent => Symbol::Equivalent,
        BinaryOp::NotEquivalent => Symbol::NotEquivalent,
        BinaryOp::Or => Symbol::LogicalOr,
        BinaryOp::And => Symbol::LogicalAnd,
        BinaryOp::ShiftLeft => Symbol::ShiftLeft,
        BinaryOp::ShiftRight => Symbol::ShiftRight,
        BinaryOp::Equal => Symbol::Equal,
        BinaryOp::NotEqual => Symbol::NotEqual,
        BinaryOp::Less => Symbol::Less,
        BinaryOp::GreaterEqual => Symbol::GreaterEqual,
        BinaryOp::Greater => Symbol::Greater,
        BinaryOp::LessEqual => Symbol::LessEqual,
        BinaryOp::Add => Symbol::Plus,
        BinaryOp::Subtract => Symbol::Minus,
        BinaryOp::Multiply => Symbol::Multiply,
        BinaryOp::Divide => Symbol::Divide,
        BinaryOp::Remainder => Symbol::Remainder,
        BinaryOp::Index => Symbol::Indirection,
    }
}

/// The sign of an operator with one operand.
pub(crate) fn unary(operator: UnaryOp) -> Symbol
    ensures { result ≡ unary_sign operator }
{
    match operator {
        UnaryOp::Not => Symbol::Not,
        UnaryOp::Neg => Symbol::Minus,
        UnaryOp::Load => Symbol::Indirection,
        UnaryOp::Address => Symbol::AddressOf,
    }
}

/// The reserved word that begins a list of constants.
pub(crate) fn storage(storage: Storage) -> Symbol
    ensures { result ≡ storage_sign storage }
{
    match storage {
        Storage::Manifest => Symbol::Manifest,
        Storage::Static => Symbol::Static,
        Storage::Global => Symbol::Global,
    }
}

/// The sign between a constant's name and its value.
pub(crate) fn entry(storage: Storage) -> Symbol
    ensures { result ≡ entry_sign storage }
{
    match storage {
        Storage::Manifest | Storage::Static => Symbol::Equal,
        Storage::Global => Symbol::Colon,
    }
}
