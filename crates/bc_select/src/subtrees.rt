//! Splits the nodes of an expression at those of its parts.

ghost use Rattle.std.specs.Prelude.{◌≡◌, ℕ, List, ◌++◌};
ghost use Rattle.bc_core.specs.Tree.{Exp};
ghost use Rattle.bc_select_defs.specs.Choices.{choice_for as choice_of};
ghost use Rattle.bc_select.specs.Vector.{node, vector};
ghost use Rattle.bc_select.specs.Cut.{IsCut};

use crate::node::PartNode;
use crate::table::Nodes;
use bc_rules_defs::{Aim, Mode};
use bc_select_defs::{Choice, Choices};

/// The choice for this aim.
pub fn choice_for(choices: &Choices, aim: Aim) -> Option<Choice>
    ensures { result ≡ choice_of aim choices.now }
{
    match aim {
        Aim::Gets(Mode::Any) => choices.any,
        Aim::Gets(Mode::Push) => choices.push,
        Aim::Jumps(false) => choices.on_false,
        Aim::Jumps(true) => choices.on_true,
    }
}

/// Splits off the nodes of the last part: returns the nodes before them, and them.
pub fn cut<'a>(nodes: &Nodes<'a>) -> (Nodes<'a>, Nodes<'a>)
    ensures { (xs : List PartNode) (e : Exp) (s : ℕ) → nodes.now ≡ xs ++ vector e s → IsCut result.0 result.1 xs (vector e s) }
{
    let count = nodes.last_count();
    nodes.split_at(nodes.len().saturating_sub(count))
}

/// The last node.
#[inline(always)]
pub fn last(nodes: &Nodes) -> PartNode
    ensures { (xs : List PartNode) (e : Exp) (s : ℕ) → nodes.now ≡ xs ++ vector e s → result ≡ node e s }
{
    nodes.last()
}
