//! The number of nodes of a root. Counts saturate, so they can't overflow.

ghost use Rattle.std.specs.Prelude.{◌≡◌, ◌≤◌, ◌<◌, ◌+◌, ◌^◌, ◌↔◌, IsTrue};
ghost use Rattle.bc_core.specs.View.{exp, args, root as root_of};
ghost use Rattle.bc_core.specs.WellFormed.{nodes as nodes_in, nodes_of_args};
ghost use Rattle.bc_select_defs.specs.Nodes.{root_nodes};
ghost use Rattle.bc_select.specs.Counted.{Counts};

use bc_core::{CoreExp, Root};

/// Whether a root has at most 2^32 nodes, which `select` and `rows` require. Recurses over the root.
pub fn is_selectable(root: &Root) -> bool
    ensures { IsTrue result ↔ (root_nodes (root_of root.now) ≤ 2 ^ 32) }
{
    root_count(root) <= 1 << 32
}

/// The number of a root's nodes, saturating.
fn root_count(root: &Root) -> u64
    ensures { Counts result (root_nodes (root_of root.now)) }
{
    match root {
        Root::Value { expression, .. } | Root::Test { expression, .. } => count(expression),
        Root::Assign { value, address, .. } => count(value).saturating_add(count(address)),
    }
}

/// The number of an expression's nodes, saturating.
#[cycle(counting)]
#[tactic(auto, using(bc_core::proofs::Rows::call_view))]
fn count(e: &CoreExp) -> u64
    ensures { Counts result (nodes_in (exp e.now)) }
{
    match e {
        CoreExp::Num(_)
        | CoreExp::Frame(_)
        | CoreExp::Glob(_)
        | CoreExp::Place(_)
        | CoreExp::Valof(_) => 1,
        CoreExp::Load(e) | CoreExp::Neg(e) | CoreExp::Not(e) => count(e).saturating_add(1),
        CoreExp::Bin(_, left, right) => {
            let both = count(left).saturating_add(count(right));
            both.saturating_add(1)
        }
        CoreExp::Cond(condition, this, that) => {
            let both = count(this).saturating_add(count(that));
            let all = count(condition).saturating_add(both);
            all.saturating_add(1)
        }
        CoreExp::Call(arguments, routine) => {
            let all = count_all(arguments).saturating_add(count(routine));
            all.saturating_add(1)
        }
    }
}

/// The number of nodes of all arguments, saturating.
#[cycle(counting)]
fn count_all(arguments: &[CoreExp]) -> u64
    ensures { Counts result (nodes_of_args (args arguments.now)) }
{
    let mut all = 0u64;
    for argument in arguments {
        all = all.saturating_add(count(argument));
    }
    all
}
