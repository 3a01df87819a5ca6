//! Expressions that wait until their derivations are read off the table.

ghost use Rattle.std.specs.Prelude.{◌≡◌, ◌≤◌, ◌+◌, ◌*◌, ◌^◌, OnOk};
ghost use Rattle.bc_core.specs.View.{exp};
ghost use Rattle.bc_core.specs.WellFormed.{nodes as nodes_in};
ghost use Rattle.bc_rules_defs.specs.declared.rule.Table.TheVariants.{Two};
ghost use Rattle.bc_rules_defs.specs.Rules.{one as one_tree};
ghost use Rattle.bc_select_defs.specs.Readings.{tree_for, readings};
ghost use Rattle.bc_select.specs.Ends.{EndsAt};
ghost use Rattle.bc_select.specs.Vector.{vector};
ghost use Rattle.bc_select.specs.Waiting.{Added};

use crate::table::Nodes;
use bc_core::CoreExp;
use bc_rules_defs::{Aim, Rule};
use bc_word::Memory;

/// The position of an expression.
#[derive(Clone, Copy)]
pub struct Site {
    /// Its level.
    pub level: u64,
    /// The index after its last node in the table.
    pub end: usize,
}

/// The rule that was chosen for an expression and an aim.
#[derive(Clone, Copy)]
pub struct Step {
    /// The position of the expression.
    pub place: Site,
    /// The aim.
    pub aim: Aim,
    /// The rule.
    pub rule: Rule,
}

/// An expression whose derivation has still to be read.
#[derive(Clone, Copy)]
pub struct Waiting<'a> {
    /// The expression.
    pub e: &'a CoreExp,
    /// Its position, aim and rule.
    pub step: Step,
}

/// Appends an expression to those that wait, with the rule that its node has for the aim. Returns `Memory` if an allocation failed.
#[inline(always)]
pub fn wait<'a>(
    e: &'a CoreExp,
    place: Site,
    aim: Aim,
    nodes: &Nodes,
    waiting: &mut Vec<Waiting<'a>>,
) -> Result<(), Memory>
    requires fits { place.level + 2 * nodes_in (exp e.now) ≤ 2 ^ 40 }
    requires nodes { EndsAt nodes.now place.end (vector (exp e.now) place.level) }
    ensures { OnOk result (Added nodes.now waiting.old.items waiting.new.items (one_tree (tree_for aim (readings Two (exp e.now) place.level)))) }
{
    let rule = nodes.rule_at(place.end, aim);
    let step = Step { place, aim, rule };
    waiting.push(Waiting { e, step })?;
    Ok(())
}
