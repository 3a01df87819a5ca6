//! How a translated expression is represented, and the translation of names and operators by their translated operands.
ghost use Rattle.std.specs.Prelude.{◌≡◌, IfOk};
ghost use Rattle.bc_core.specs.View.{exp, command as command_of, block_of as core_block_of};
ghost use Rattle.bc_scope_defs.specs.Translation.{form_of_name, opposite, negation, form_of_unary, form_of_binary, block_of};
ghost use Rattle.bc_scope_names.specs.View.{meant_view};
ghost use Rattle.bc_scope_translate.specs.Seen.{formed_view};

use bc_core::{Block as CoreBlock, Command, CoreExp, ListItem};
use bc_parse_tree::UnaryOp;
use bc_scope_names::{Meant, short};
use bc_word::{Memory, Op, Word};
use std::alloc::Global;

/// A translated expression.
#[derive(Debug, Drop)]
pub enum Formed {
    /// An expression with a cell: the content of the cell at this address.
    Cell(CoreExp),
    /// An expression without a cell: its value.
    Plain(CoreExp),
}

impl Formed {
    /// The address of the expression's cell; its value if it has no cell.
    pub fn address(self) -> CoreExp
        ensures { exp result ≡ (formed_view self).address }
    {
        match self {
            Formed::Cell(address) => address,
            Formed::Plain(value) => value,
        }
    }

    /// The value of the expression. Fails with `Memory` when an allocation fails.
    pub fn content(self, alloc: Global) -> Result<CoreExp, Memory>
        ensures { IfOk result (λ e. exp e ≡ (formed_view self).content) }
    {
        match self {
            Formed::Cell(address) => Ok(CoreExp::Load(Box::new(alloc, address)?)),
            Formed::Plain(value) => Ok(value),
        }
    }
}

/// Translates a name with this meaning. A meaning that is a fault in an expression becomes 0. Fails with `Memory` if a label or
/// offset exceeds 65,535, which can't happen in a section without fault.
pub fn of_name(meant: Meant) -> Result<Formed, Memory>
    ensures { IfOk result (λ f. formed_view f ≡ form_of_name (meant_view meant)) }
{
    match meant {
        Meant::Constant(value) => Ok(Formed::Plain(CoreExp::Num(Word::new(value)))),
        Meant::Static(label) => Ok(Formed::Cell(CoreExp::Place(short(label)?))),
        Meant::Global(number) => Ok(Formed::Cell(CoreExp::Glob(number))),
        Meant::Routine(label) => Ok(Formed::Plain(CoreExp::Place(short(label)?))),
        Meant::Variable(offset) => Ok(Formed::Cell(CoreExp::Frame(short(offset)?))),
        Meant::Pending
        | Meant::Label(_)
        | Meant::OuterVariable
        | Meant::StrayVariable
        | Meant::StrayLabel
        | Meant::OuterLabel
        | Meant::LabelOutside
        | Meant::Undeclared => Ok(Formed::Plain(CoreExp::Num(Word::new(0)))),
    }
}

/// The relation that holds exactly where `op` doesn't; `None` if `op` isn't a relation.
fn opposite(op: Op) -> Option<Op>
    ensures { result ≡ opposite op }
{
    match op {
        Op::Equal => Some(Op::NotEqual),
        Op::NotEqual => Some(Op::Equal),
        Op::Less => Some(Op::GreaterEqual),
        Op::GreaterEqual => Some(Op::Less),
        Op::Greater => Some(Op::LessEqual),
        Op::LessEqual => Some(Op::Greater),
        _ => None,
    }
}

/// NOT of an expression. NOT of a relation is the opposite relation.
fn negation(alloc: Global, e: CoreExp) -> Result<CoreExp, Memory>
    ensures { IfOk result (λ n. exp n ≡ negation (exp e)) }
{
    match e {
        CoreExp::Bin(op, left, right) => match opposite(op) {
            Some(opposite) => Ok(CoreExp::Bin(opposite, left, right)),
            None => Ok(CoreExp::Not(Box::new(alloc, CoreExp::Bin(op, left, right))?)),
        },
        other => Ok(CoreExp::Not(Box::new(alloc, other)?)),
    }
}

/// Translates a unary operator with its translated operand. Fails with `Memory` when an allocation fails.
pub fn of_unary(alloc: Global, sign: UnaryOp, operand: Formed) -> Result<Formed, Memory>
    ensures { IfOk result (λ f. formed_view f ≡ form_of_unary sign (formed_view operand)) }
{
    match sign {
        UnaryOp::Load => Ok(Formed::Cell(operand.content(alloc)?)),
        UnaryOp::Address => Ok(Formed::Plain(operand.address())),
        UnaryOp::Not => Ok(Formed::Plain(negation(alloc, operand.content(alloc)?)?)),
        UnaryOp::Neg => {
            let value = operand.content(alloc)?;
            Ok(Formed::Plain(CoreExp::Neg(Box::new(alloc, value)?)))
        }
    }
}

/// Translates a binary operator with its translated operands. Without `op` it is `left!right`, whose address is the sum.
pub fn of_binary(op: Option<Op>, left: Box<CoreExp>, right: Box<CoreExp>) -> Formed
    ensures { formed_view result ≡ form_of_binary op (exp left.value) (exp right.value) }
{
    match op {
        None => Formed::Cell(CoreExp::Bin(Op::Add, left, right)),
        Some(op) => Formed::Plain(CoreExp::Bin(op, left, right)),
    }
}

/// A block of one command. Fails with `Memory` when an allocation fails.
pub fn block_of(alloc: Global, command: Command) -> Result<CoreBlock, Memory>
    ensures { IfOk result (λ b. core_block_of b ≡ block_of (command_of command)) }
{
    let mut list = Vec::new(alloc);
    list.push(ListItem::Command(command))?;
    Ok(CoreBlock {
        declarations: Vec::new(alloc),
        list,
    })
}
