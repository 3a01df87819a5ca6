//! The public call `candidates`.

ghost use Rattle.std.specs.Prelude.{◌≡◌, ◌++◌, IfOk, OnOk};
ghost use Rattle.std.specs.List.{AllZip};
ghost use Rattle.bc_core.specs.View.{exp, root as root_of};
ghost use Rattle.bc_core.specs.Level.{side_level as level_of_sides};
ghost use Rattle.bc_select_defs.specs.Nodes.{in_order, root_in_order};
ghost use Rattle.bc_candidates.specs.Aims.{AreCandidatesOf};
ghost use Rattle.bc_candidates.specs.Below.{Adds};

use crate::candidate::Candidates;
use crate::nodes::Gathered;
use crate::sums::add;
use bc_core::{CoreExp, Root, operand};
use bc_word::Memory;
use std::alloc::Global;

/// The level of both sides of an assignment: that of the assignment if the address is an operand, else one higher.
fn side_level(address: &CoreExp, level: u64) -> Result<u64, Memory>
    ensures { IfOk result (λ side. side ≡ level_of_sides (exp address.now) level) }
{
    match operand(address) {
        Some(_) => Ok(level),
        None => add(level, 1),
    }
}

/// Appends the candidates of both sides of an assignment.
#[tactic(auto, using(crate::proofs::Below::both_added))]
fn gather_sides(
    gathered: &mut Gathered,
    value: &CoreExp,
    address: &CoreExp,
    level: u64,
) -> Result<(), Memory>
    ensures { OnOk result (Adds gathered.old.found.items gathered.new.found.items (in_order (exp value.now) (level_of_sides (exp address.now) level)
        ++ in_order (exp address.now) (level_of_sides (exp address.now) level))) }
{
    let side = side_level(address, level)?;
    gathered.gather(value, side)?;
    gathered.gather(address, side)?;
    Ok(())
}

/// Appends the candidates of a root's nodes.
fn gather_root(gathered: &mut Gathered, root: &Root) -> Result<(), Memory>
    ensures { OnOk result (Adds gathered.old.found.items gathered.new.found.items (root_in_order (root_of root.now))) }
{
    match root {
        Root::Value { level, expression } => gathered.gather(expression, u64::from(*level)),
        Root::Test {
            level,
            expression,
            ..
        } => gathered.gather(expression, u64::from(*level)),
        Root::Assign {
            level,
            value,
            address,
        } => gather_sides(gathered, value, address, u64::from(*level)),
    }
}

/// For each node of a root, in the order of `bc_select::rows`: the rules of table 2 with which a derivation of it can begin, for each aim,
/// with the least words of the derivations that begin with them. The least of these words are those of the node's row.
///
/// Returns `Memory` if an allocation failed, or if a number of words would not fit into 64 bits. The latter can't happen for a root that
/// fits into memory.
#[tactic(auto, using(crate::proofs::Together::all_found))]
pub fn candidates(alloc: Global, root: &Root) -> Result<Vec<Candidates>, Memory>
    ensures { IfOk result (λ v. AllZip AreCandidatesOf (root_in_order (root_of root.now)) v.items) }
{
    let mut gathered = Gathered {
        alloc,
        found: Vec::new(alloc),
    };
    gather_root(&mut gathered, root)?;
    let Gathered { found, .. } = gathered;
    Ok(found)
}
