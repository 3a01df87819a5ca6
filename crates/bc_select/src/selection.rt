//! The public calls `select` and `rows`.

ghost use Rattle.std.specs.Prelude.{◌≡◌, ◌≤◌, ◌+◌, ◌*◌, ◌^◌, ◌++◌, IfOk, OnOk};
ghost use Rattle.std.specs.List.{AllZip};
ghost use Rattle.bc_core.specs.Tree as tree;
ghost use Rattle.bc_core.specs.Level.{side_level as level_of_sides};
ghost use Rattle.bc_core.specs.View.{exp, root as root_of};
ghost use Rattle.bc_core.specs.WellFormed.{nodes as nodes_in};
ghost use Rattle.bc_rules_defs.specs.declared.rule.Table.TheVariants.{Two};
ghost use Rattle.bc_rules_defs.specs.View.{derivation as derivation_of};
ghost use Rattle.bc_rules_defs.specs.Rules.{root_shape};
ghost use Rattle.bc_rules_defs.specs.Code.{root_cost};
ghost use Rattle.bc_select_defs.specs.Chosen.{chosen, root_choice, root_reading};
ghost use Rattle.bc_select_defs.specs.Nodes.{root_nodes, root_in_order};
ghost use Rattle.bc_select.specs.Rows.{IsRowOf};
ghost use Rattle.bc_select.specs.Selection.{root_vector, words_or_none};
ghost use Rattle.bc_select.specs.Order.{AreOf};
ghost use Rattle.bc_select.specs.Vector.{vector};
ghost use Rattle.bc_select_defs.specs.Readings.{tree_for, readings};
ghost use Rattle.bc_select_defs.specs.Choices.{choice_for as choice_of, choices};

use crate::binary_choices::assign_choice;
use crate::derivations::read;
use crate::layout::{AtLevel, ROOM, at_level, lay_out};
use crate::node::own_operand;
use crate::node_of_parts::operand_node;
use crate::pending::{Site, Step};
use crate::pending_parts::{ANY, parts, sides_read};
use crate::row::{Row, rule_or_v1};
use crate::subtrees::{choice_for, cut, last};
use crate::table::{Nodes, Table};
use crate::tree::tree;
use bc_core::{CoreExp, Root};
use bc_rules_defs::{Aim, Derivation, Rule};
use bc_select_defs::Choice;
use bc_word::Memory;
use std::alloc::Global;

/// The result of `select`.
#[derive(Debug, Drop, PartialEq, Eq)]
pub struct Selected {
    /// The root's derivation with the fewest words.
    pub derivation: Derivation,
    /// The words of its code.
    pub words: u64,
    /// A row for each node, parts before wholes.
    pub table: Vec<Row>,
}

/// A root's derivation with the fewest words, and their number.
#[derive(Drop)]
struct Reading {
    derivation: Derivation,
    words: u64,
}

/// The expression of a root at its level; of an assignment the value and the address.
fn expressions(alloc: Global, root: &Root) -> Result<Vec<AtLevel<'_>>, Memory>
    requires { root_nodes (root_of root.now) ≤ 2 ^ 32 }
    ensures { IfOk result (λ found. AreOf found.items (root_of root.now)) }
{
    let mut found = Vec::with_capacity(alloc, ROOM)?;
    match root {
        Root::Value {
            level,
            expression: e,
        }
        | Root::Test {
            level,
            expression: e,
            ..
        } => found.push(at_level(e, u64::from(*level)))?,
        Root::Assign {
            level,
            value,
            address,
        } => {
            let side = side_level(address, u64::from(*level));
            found.push(at_level(value, side))?;
            found.push(at_level(address, side))?;
        }
    }
    Ok(found)
}

/// Lays out the nodes of a root.
fn lay_out_root(alloc: Global, root: &Root) -> Result<Table, Memory>
    requires { root_nodes (root_of root.now) ≤ 2 ^ 32 }
    ensures { IfOk result (λ nodes. nodes ≡ root_vector (root_of root.now)) }
{
    let found = expressions(alloc, root)?;
    lay_out(alloc, found)
}

/// Reads the derivation of an expression for an aim.
fn expression(
    alloc: Global,
    e: &CoreExp,
    level: u64,
    aim: Aim,
    nodes: &Nodes,
) -> Result<Reading, Memory>
    requires fits { level + 2 * nodes_in (exp e.now) ≤ 2 ^ 40 }
    requires nodes { nodes.now ≡ vector (exp e.now) level }
    ensures derivation { IfOk result (λ r. derivation_of r.derivation ≡ tree_for aim (readings Two (exp e.now) level)) }
    ensures words { IfOk result (λ r. r.words ≡ words_or_none (choice_of aim (choices Two (exp e.now) level))) }
{
    let place = Site {
        level,
        end: nodes.len(),
    };
    let rule = nodes.rule_at(place.end, aim);
    let mut waiting = Vec::new(alloc);
    parts(e, nodes, Step { place, aim, rule }, &mut waiting)?;
    let trees = read(alloc, nodes, waiting)?;
    Ok(Reading {
        derivation: tree(rule, trees),
        words: count(choice_for(&last(nodes).choices, aim)),
    })
}

/// The words of a choice; 0 if there is none.
fn count(choice: Option<Choice>) -> u64
    ensures { result ≡ words_or_none choice }
{
    match choice {
        Some(choice) => choice.words,
        None => 0,
    }
}

/// The level of both sides of an assignment: that of the assignment if the address is an operand, else one higher.
fn side_level(address: &CoreExp, level: u64) -> u64
    requires { level ≤ 65535 }
    ensures { result ≡ level_of_sides (exp address.now) level }
{
    match own_operand(address) {
        Some(_) => level,
        None => level + 1,
    }
}

/// Reads the derivation of an assignment.
fn assignment(
    alloc: Global,
    value: &CoreExp,
    address: &CoreExp,
    level: u64,
    nodes: &Nodes,
) -> Result<Reading, Memory>
    requires level { level ≤ 65535 }
    requires fits { nodes_in (exp value.now) + nodes_in (exp address.now) ≤ 2 ^ 32 }
    requires nodes { nodes.now ≡ vector (exp value.now) (level_of_sides (exp address.now) level) ++ vector (exp address.now) (level_of_sides (exp address.now) level) }
    ensures derivation { IfOk result (λ r. derivation_of r.derivation ≡ root_reading Two (tree.Assign level (exp value.now) (exp address.now))) }
    ensures words { IfOk result (λ r. r.words ≡ words_or_none (root_choice Two (tree.Assign level (exp value.now) (exp address.now)))) }
{
    let side = side_level(address, level);
    let (front, _) = cut(nodes);
    let first = operand_node(value, &last(&front));
    let second = operand_node(address, &last(nodes));
    let choice = assign_choice(own_operand(address), &first, &second, level);
    let rule = rule_or_v1(choice);
    let place = Site {
        level: side,
        end: nodes.len(),
    };
    let step = Step {
        place,
        aim: ANY,
        rule,
    };
    let mut waiting = Vec::new(alloc);
    sides_read(value, address, nodes, step, &mut waiting)?;
    let trees = read(alloc, nodes, waiting)?;
    Ok(Reading {
        derivation: tree(rule, trees),
        words: count(choice),
    })
}

/// Reads the derivation of a root off its nodes.
fn read_root(alloc: Global, root: &Root, nodes: &Nodes) -> Result<Reading, Memory>
    requires fits { root_nodes (root_of root.now) ≤ 2 ^ 32 }
    requires nodes { nodes.now ≡ root_vector (root_of root.now) }
    ensures derivation { IfOk result (λ r. derivation_of r.derivation ≡ root_reading Two (root_of root.now)) }
    ensures words { IfOk result (λ r. r.words ≡ words_or_none (root_choice Two (root_of root.now))) }
{
    match root {
        Root::Value {
            level,
            expression: e,
        } => expression(alloc, e, u64::from(*level), ANY, nodes),
        Root::Test {
            level,
            sense,
            expression: e,
        } => expression(alloc, e, u64::from(*level), Aim::Jumps(*sense), nodes),
        Root::Assign {
            level,
            value,
            address,
        } => assignment(alloc, value, address, u64::from(*level), nodes),
    }
}

/// Finds the derivation of a root with the fewest words, by rule table 2. Returns the derivation, its number of words, and a row for
/// each node, parts before wholes: a call's arguments before its routine, an assignment's value before its address. Of several
/// derivations with the fewest words it is the one that begins with the rule of the lowest number, at each step.
///
/// The root must have at most 2^32 nodes, which `is_selectable` decides. Returns `Memory` if an allocation failed.
pub fn select(alloc: Global, root: &Root) -> Result<Selected, Memory>
    requires { root_nodes (root_of root.now) ≤ 2 ^ 32 }
    ensures derivation { IfOk result (λ s. derivation_of s.derivation ≡ root_shape (chosen Two (root_of root.now))) }
    ensures words { IfOk result (λ s. s.words ≡ root_cost (chosen Two (root_of root.now))) }
    ensures table { IfOk result (λ s. AllZip IsRowOf (root_in_order (root_of root.now)) s.table.items) }
{
    let table = lay_out_root(alloc, root)?;
    let Reading { derivation, words } = read_root(alloc, root, &table.nodes())?;
    Ok(Selected {
        derivation,
        words,
        table: table.into_rows(),
    })
}

/// The rows of a root's nodes, as `select` returns them, without the derivation. The root must have at most 2^32 nodes. Returns
/// `Memory` if an allocation failed.
pub fn rows(alloc: Global, root: &Root) -> Result<Vec<Row>, Memory>
    requires { root_nodes (root_of root.now) ≤ 2 ^ 32 }
    ensures { IfOk result (λ v. AllZip IsRowOf (root_in_order (root_of root.now)) v.items) }
{
    let table = lay_out_root(alloc, root)?;
    Ok(table.into_rows())
}
