//! The level at which each pair of an assignment is computed, which depends on the form of the address on the left.
ghost use Rattle.std.specs.Prelude.{◌≡◌, IfOk};
ghost use Rattle.bc_parse_tree.specs.View.{exp_view, exps_view};
ghost use Rattle.bc_scope_defs.specs.Sides.{kind_of_content, kind_of_sum, kinds_of_cell, kinds_of_plain, kinds_of_name, kinds_of_unary, kinds_of_binary, kinds, is_operand_kind, side_levels};
ghost use Rattle.bc_scope_names.specs.View.{meant_view, scope_view};
ghost use Rattle.bc_scope_names.specs.Kinds.{kind_view, kinds_view};

use crate::numbers::sum;
use crate::scope::{Meant, Scope};
use bc_parse_tree::{BinaryOp, Exp, UnaryOp};
use bc_word::Memory;
use std::alloc::Global;

/// The form of an expression, as far as one instruction can take it as its operand.
#[derive(Clone, Copy, Debug, PartialEq, Eq)]
pub enum OperandKind {
    /// A constant.
    Number,
    /// The address of a variable or a global.
    Cell,
    /// The address of a place: a routine, static, table or string.
    Place,
    /// The sum of a cell's address and a number.
    Sum,
    /// The content of the cell at one of these.
    Content,
    /// No operand: the expression needs its own code.
    NoOperand,
}

/// Both kinds of an expression.
#[derive(Clone, Copy, Debug, PartialEq, Eq)]
pub struct Kinds {
    /// The kind of the address of its cell; of its value, if it has no cell.
    pub address: OperandKind,
    /// The kind of its value.
    pub content: OperandKind,
}

/// The kind of a cell's content, by the kind of the cell's address.
fn kind_of_content(address: OperandKind) -> OperandKind
    ensures { kind_view result ≡ kind_of_content (kind_view address) }
{
    match address {
        OperandKind::Content | OperandKind::NoOperand => OperandKind::NoOperand,
        OperandKind::Number | OperandKind::Cell | OperandKind::Place | OperandKind::Sum =>
            OperandKind::Content,
    }
}

/// The kind of a sum: one instruction can only add a number to a cell's address.
fn kind_of_sum(left: OperandKind, right: OperandKind) -> OperandKind
    ensures { kind_view result ≡ kind_of_sum (kind_view left) (kind_view right) }
{
    match (left, right) {
        (OperandKind::Cell, OperandKind::Number) | (OperandKind::Number, OperandKind::Cell) =>
            OperandKind::Sum,
        _ => OperandKind::NoOperand,
    }
}

/// The kinds of an expression with a cell, by the kind of the cell's address.
fn kinds_of_cell(address: OperandKind) -> Kinds
    ensures { kinds_view result ≡ kinds_of_cell (kind_view address) }
{
    Kinds {
        address,
        content: kind_of_content(address),
    }
}

/// The kinds of an expression without a cell, by the kind of its value.
fn kinds_of_plain(value: OperandKind) -> Kinds
    ensures { kinds_view result ≡ kinds_of_plain (kind_view value) }
{
    Kinds {
        address: value,
        content: value,
    }
}

/// The kinds of a name. A name that is at fault counts as a number.
fn kinds_of_name(meant: Meant) -> Kinds
    ensures { kinds_view result ≡ kinds_of_name (meant_view meant) }
{
    match meant {
        Meant::Static(_) => kinds_of_cell(OperandKind::Place),
        Meant::Global(_) | Meant::Variable(_) => kinds_of_cell(OperandKind::Cell),
        Meant::Routine(_) => kinds_of_plain(OperandKind::Place),
        Meant::Constant(_)
        | Meant::Pending
        | Meant::Label(_)
        | Meant::OuterVariable
        | Meant::StrayVariable
        | Meant::StrayLabel
        | Meant::OuterLabel
        | Meant::LabelOutside
        | Meant::Undeclared => kinds_of_plain(OperandKind::Number),
    }
}

/// The kinds of a unary operator's result, by the kinds of its operand.
fn kinds_of_unary(sign: UnaryOp, operand: Kinds) -> Kinds
    ensures { kinds_view result ≡ kinds_of_unary sign (kinds_view operand) }
{
    match sign {
        UnaryOp::Load => kinds_of_cell(operand.content),
        UnaryOp::Address => kinds_of_plain(operand.address),
        UnaryOp::Not | UnaryOp::Neg => kinds_of_plain(OperandKind::NoOperand),
    }
}

/// The kinds of a binary operator's result, by the kinds of its operands' values.
fn kinds_of_binary(sign: BinaryOp, left: OperandKind, right: OperandKind) -> Kinds
    ensures { kinds_view result ≡ kinds_of_binary sign (kind_view left) (kind_view right) }
{
    match sign {
        BinaryOp::Index => kinds_of_cell(kind_of_sum(left, right)),
        BinaryOp::Add => kinds_of_plain(kind_of_sum(left, right)),
        _ => kinds_of_plain(OperandKind::NoOperand),
    }
}

/// The kinds of an expression.
fn make_kinds(scope: &Scope<'_>, e: &Exp<'_>) -> Kinds
    ensures { kinds_view result ≡ kinds (scope_view scope.now) (exp_view e.now) }
{
    match e {
        Exp::Name(name) => kinds_of_name(scope.meant_by(name)),
        Exp::Num(_) | Exp::Character(_) | Exp::True | Exp::False => {
            kinds_of_plain(OperandKind::Number)
        }
        Exp::String(_) | Exp::Table(_) => kinds_of_plain(OperandKind::Place),
        Exp::Unary(sign, operand) => kinds_of_unary(*sign, make_kinds(scope, operand)),
        Exp::Bin(sign, left, right) => {
            let left = make_kinds(scope, left);
            let right = make_kinds(scope, right);
            kinds_of_binary(*sign, left.content, right.content)
        }
        Exp::Valof(_) | Exp::Cond { .. } | Exp::Call(_, _) => {
            kinds_of_plain(OperandKind::NoOperand)
        }
    }
}

/// Whether one instruction can take the address of an expression as its operand.
pub fn is_operand(scope: &Scope<'_>, e: &Exp<'_>) -> bool
    ensures { result ≡ is_operand_kind (kinds (scope_view scope.now) (exp_view e.now)).address }
{
    match make_kinds(scope, e).address {
        OperandKind::NoOperand => false,
        OperandKind::Number
        | OperandKind::Cell
        | OperandKind::Place
        | OperandKind::Sum
        | OperandKind::Content => true,
    }
}

/// For each address on the left of an assignment, the level of its pair: `level`, or one more where the address is no operand
/// and so takes a cell. Fails with `Memory` when an allocation fails or a level exceeds 64 bits.
pub fn side_levels(
    alloc: Global,
    scope: &Scope<'_>,
    places: &[Exp<'_>],
    level: u64,
) -> Result<Vec<u64>, Memory>
    ensures { IfOk result (λ ss. ss.items ≡ side_levels (scope_view scope.now) (exps_view places.now) level) }
{
    let mut levels = Vec::new(alloc);
    for place in places {
        let above = sum(level, 1)?;
        levels.push(if is_operand(scope, place) {
            level
        } else {
            above
        })?;
    }
    Ok(levels)
}
