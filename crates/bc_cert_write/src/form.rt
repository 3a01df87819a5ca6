//! The form of a node, which is all that its line shows of the expression.

ghost use Rattle.std.specs.Prelude.{◌≡◌};
ghost use Rattle.bc_core.specs.View.{exp};
ghost use Rattle.bc_cert_write.specs.Walked.{form_of};

use bc_core::CoreExp;
use bc_word::Word;

/// What a node is, without its parts. A number is the field's number, as docs/certificate.md has it.
#[derive(Clone, Copy)]
pub enum Form {
    /// A number.
    Num(u16),
    /// The address of the frame's cell with this offset.
    Frame(u16),
    /// The address of the global with this number.
    Glob(u16),
    /// The address of the place with this label.
    Place(u16),
    /// The content of a cell.
    Load,
    /// The negative.
    Neg,
    /// NOT.
    Not,
    /// The dyadic operator with this number.
    Operator(u16),
    /// `condition -> this, that`.
    Cond,
    /// A call with this number of arguments.
    Call(u64),
    /// The VALOF with this number.
    Valof(u16),
}

/// The form of an expression.
#[tactic(auto, using(bc_core::proofs::Rows::call_view, bc_select::proofs::Wholes::args_count))]
pub fn without_parts(e: &CoreExp) -> Form
    ensures { result ≡ form_of (exp e.now) }
{
    match e {
        CoreExp::Num(number) => Form::Num(number.get()),
        CoreExp::Frame(offset) => Form::Frame(*offset),
        CoreExp::Glob(number) => Form::Glob(*number),
        CoreExp::Place(label) => Form::Place(*label),
        CoreExp::Load(_) => Form::Load,
        CoreExp::Neg(_) => Form::Neg,
        CoreExp::Not(_) => Form::Not,
        CoreExp::Bin(op, _, _) => Form::Operator(Word::from(*op).get()),
        CoreExp::Cond(_, _, _) => Form::Cond,
        CoreExp::Call(arguments, _) => Form::Call(arguments.len() as u64),
        CoreExp::Valof(number) => Form::Valof(*number),
    }
}
