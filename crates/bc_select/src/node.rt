//! A node of the table, and the operand that an expression is.
//!
//! A node holds no operand, because the prover failed where such a struct of another crate was moved through a cycle of calls.
//! Operands are computed again where they are needed, in constant time.

ghost use Rattle.std.specs.Prelude.{◌≡◌};
ghost use Rattle.bc_core.specs.View.{exp};
ghost use Rattle.bc_core.specs.Operand.{operand_of, content_of};

use bc_core::{CoreExp, Operand, content, operand};
use bc_select_defs::Choices;

/// The facts about a node that the enclosing expression needs.
#[derive(Clone, Copy)]
pub struct PartNode {
    /// Its least words and rules.
    pub choices: Choices,
    /// Whether it contains a call or a VALOF.
    pub calls: bool,
    /// The number of its nodes, itself included.
    pub nodes: usize,
}

/// The operand that is the content of the cell at this address, if one instruction can take it. An address that is itself a content is
/// rejected at once, so a chain of contents takes linear time.
#[tactic(auto, using(crate::proofs::Operands::content_twice))]
pub fn cell_operand(address: &CoreExp) -> Option<Operand>
    ensures { result ≡ content_of (operand_of (exp address.now)) }
{
    match address {
        CoreExp::Load(_) => None,
        CoreExp::Num(_)
        | CoreExp::Frame(_)
        | CoreExp::Glob(_)
        | CoreExp::Place(_)
        | CoreExp::Neg(_)
        | CoreExp::Not(_)
        | CoreExp::Bin(_, _, _)
        | CoreExp::Cond(_, _, _)
        | CoreExp::Call(_, _)
        | CoreExp::Valof(_) => content(operand(address)),
    }
}

/// The operand that an expression is, or None.
pub fn own_operand(e: &CoreExp) -> Option<Operand>
    ensures { result ≡ operand_of (exp e.now) }
{
    match e {
        CoreExp::Load(address) => cell_operand(address),
        CoreExp::Num(_)
        | CoreExp::Frame(_)
        | CoreExp::Glob(_)
        | CoreExp::Place(_)
        | CoreExp::Neg(_)
        | CoreExp::Not(_)
        | CoreExp::Bin(_, _, _)
        | CoreExp::Cond(_, _, _)
        | CoreExp::Call(_, _)
        | CoreExp::Valof(_) => operand(e),
    }
}
