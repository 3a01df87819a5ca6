//! Reads the derivations of expressions off a table of nodes, by two loops.
//!
//! The first loop lists the rules, wholes before parts and the last part first. The second builds the trees from the end of that
//! list. Neither uses stack in proportion to the depth of the tree.

ghost use Rattle.std.specs.Prelude.{◌≡◌, IfOk, OnOk};
ghost use Rattle.bc_rules_defs.specs.View.{derivations};
ghost use Rattle.bc_rules_defs.specs.Rules.{Trees};
ghost use Rattle.bc_select.specs.Marks.{marks_of_all, close as closed};
ghost use Rattle.bc_select.specs.Waiting.{AreReady, trees_of};

use crate::pending::Waiting;
use crate::pending_parts::parts;
use crate::table::Nodes;
use crate::tree::tree;
use bc_rules_defs::{Derivation, Rule};
use bc_word::Memory;
use std::alloc::Global;

/// A rule of a derivation with the number of its parts.
#[derive(Clone, Copy)]
pub struct RuleMark {
    /// The rule.
    pub rule: Rule,
    /// How many parts it has.
    pub parts: u32,
}

/// Lists the rules of the derivations of the waiting expressions, wholes before parts and the last part first. `room` is the initial
/// capacity of the list.
fn listed(
    alloc: Global,
    room: usize,
    nodes: &Nodes,
    mut waiting: Vec<Waiting>,
) -> Result<Vec<RuleMark>, Memory>
    requires { AreReady nodes.now waiting.items }
    ensures { IfOk result (λ marks. marks.items ≡ marks_of_all (trees_of waiting.entry.items)) }
{
    let mut marks = Vec::with_capacity(alloc, room)?;
    while let Some(next) = waiting.pop() {
        let Waiting { e, step } = next;
        let before = waiting.len();
        parts(e, nodes, step, &mut waiting)?;
        match u32::try_from(waiting.len().saturating_sub(before)) {
            Ok(parts) => marks.push(RuleMark {
                rule: step.rule,
                parts,
            })?,
            Err(_) => return Err(Memory),
        }
    }
    Ok(marks)
}

/// Replaces the last trees, as many as the mark has parts, by the tree of the mark's rule over them.
fn close(mark: RuleMark, trees: &mut Vec<Derivation>) -> Result<(), Memory>
    ensures { OnOk result (derivations trees.new.items ≡ closed mark (derivations trees.old.items)) }
{
    let first = trees.len().saturating_sub(mark.parts as usize);
    let parts = trees.split_off(first)?;
    trees.push(tree(mark.rule, parts))?;
    Ok(())
}

/// Builds the derivations from the list of their rules.
fn built(alloc: Global, mut marks: Vec<RuleMark>) -> Result<Vec<Derivation>, Memory>
    ensures { (ts : Trees) → marks.items ≡ marks_of_all ts → IfOk result (λ v. derivations v.items ≡ ts) }
{
    let mut trees = Vec::new(alloc);
    while let Some(mark) = marks.pop() {
        close(mark, &mut trees)?;
    }
    Ok(trees)
}

/// Reads the derivations of the waiting expressions off these nodes. Returns `Memory` if an allocation failed.
///
/// The list of rules starts with room for twice the number of nodes, so it is rarely copied.
pub fn read(alloc: Global, nodes: &Nodes, waiting: Vec<Waiting>) -> Result<Vec<Derivation>, Memory>
    requires { AreReady nodes.now waiting.items }
    ensures { IfOk result (λ v. derivations v.items ≡ trees_of waiting.entry.items) }
{
    let marks = listed(alloc, nodes.len().saturating_mul(2), nodes, waiting)?;
    built(alloc, marks)
}
