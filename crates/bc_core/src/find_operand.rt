//! Which expressions one instruction can take as its operand.
ghost use Rattle.std.specs.Prelude.{◌≡◌};
ghost use Rattle.bc_core.specs.View.{exp};
ghost use Rattle.bc_core.specs.Operand.{operand_of, constant_of, moved as moved_of, sum_operand, content_of, direct as direct_of};

use crate::expression::CoreExp;
use crate::operands::Operand;
use bc_text_items::Base;
use bc_word::{Op, Word};

/// The operand that is a number or an address itself.
fn direct(base: Base, n: Word) -> Operand
    ensures { result ≡ direct_of base n }
{
    Operand {
        direct: true,
        base,
        n,
    }
}

/// The number, if the expression is one.
pub fn constant(e: &CoreExp) -> Option<Word>
    ensures { result ≡ constant_of (exp e.now) }
{
    match e {
        CoreExp::Num(n) => Some(*n),
        CoreExp::Frame(_)
        | CoreExp::Glob(_)
        | CoreExp::Place(_)
        | CoreExp::Load(_)
        | CoreExp::Neg(_)
        | CoreExp::Not(_)
        | CoreExp::Bin(_, _, _)
        | CoreExp::Cond(_, _, _)
        | CoreExp::Call(_, _)
        | CoreExp::Valof(_) => None,
    }
}

/// The address of a variable plus a number, if `e` is such an address and `by` a number.
fn moved(e: &CoreExp, by: Option<Word>) -> Option<Operand>
    ensures { result ≡ moved_of (exp e.now) by }
{
    let by = by?;
    match e {
        CoreExp::Frame(k) => Some(direct(Base::P, Word::new(k.wrapping_add(by.get())))),
        CoreExp::Glob(n) => Some(direct(Base::G, Word::new(n.wrapping_add(by.get())))),
        CoreExp::Num(_)
        | CoreExp::Place(_)
        | CoreExp::Load(_)
        | CoreExp::Neg(_)
        | CoreExp::Not(_)
        | CoreExp::Bin(_, _, _)
        | CoreExp::Cond(_, _, _)
        | CoreExp::Call(_, _)
        | CoreExp::Valof(_) => None,
    }
}

/// The address of a variable plus a number, with the operands in either order.
fn sum(left: &CoreExp, right: &CoreExp) -> Option<Operand>
    ensures { result ≡ sum_operand (exp left.now) (exp right.now) }
{
    match moved(left, constant(right)) {
        Some(operand) => Some(operand),
        None => moved(right, constant(left)),
    }
}

/// The content of the cell at an operand, if one instruction can take that.
pub fn content(operand: Option<Operand>) -> Option<Operand>
    ensures { result ≡ content_of operand }
{
    let operand = operand?;
    if operand.direct {
        Some(Operand {
            direct: false,
            base: operand.base,
            n: operand.n,
        })
    } else {
        None
    }
}

/// The operand that one instruction can take for an expression, if there is one. That is a number; the address of a
/// variable of the frame or of a global, also with a number added; the address of a place; or the content of the cell
/// at one of these.
pub fn operand(e: &CoreExp) -> Option<Operand>
    ensures { result ≡ operand_of (exp e.now) }
{
    match e {
        CoreExp::Num(n) => Some(direct(Base::Number, *n)),
        CoreExp::Frame(offset) => Some(direct(Base::P, Word::new(*offset))),
        CoreExp::Glob(n) => Some(direct(Base::G, Word::new(*n))),
        CoreExp::Place(label) => Some(direct(Base::Label, Word::new(*label))),
        CoreExp::Load(e) => content(operand(e)),
        CoreExp::Bin(Op::Add, left, right) => sum(left, right),
        CoreExp::Bin(_, _, _)
        | CoreExp::Neg(_)
        | CoreExp::Not(_)
        | CoreExp::Cond(_, _, _)
        | CoreExp::Call(_, _)
        | CoreExp::Valof(_) => None,
    }
}
