//! The least words of a certificate's node, computed from the lines before it.

use bc_cert_read::{Facts, Form, LeastWords, Node, NodeLine, words_as_operand};
use bc_core::CoreExp;
use bc_rules_defs::Table;
use bc_word::{Memory, Op};
use std::alloc::Global;

/// The expression of a node without parts. For any other node it is a VALOF, which can't be an operand either.
fn leaf(form: Form) -> CoreExp {
    match form {
        Form::Num(n) => CoreExp::Num(n),
        Form::Frame(offset) => CoreExp::Frame(offset),
        Form::Glob(n) => CoreExp::Glob(n),
        Form::Place(label) => CoreExp::Place(label),
        _ => CoreExp::Valof(0),
    }
}

/// The same in a box.
fn boxed(alloc: Global, form: Form) -> Result<Box<CoreExp>, Memory> {
    Ok(Box::new(alloc, leaf(form))?)
}

/// The sum of two nodes without parts.
fn sum(alloc: Global, left: Form, right: Form) -> Result<CoreExp, Memory> {
    let left = boxed(alloc, left)?;
    Ok(CoreExp::Bin(Op::Add, left, boxed(alloc, right)?))
}

/// The expression of the last of these nodes, as far as the form of an address depends on it: a sum with its sides, if
/// these have no parts.
fn address(alloc: Global, nodes: &[NodeLine]) -> Result<CoreExp, Memory> {
    match nodes {
        [.., left, right, node] if matches!(node.form, Form::Bin(Op::Add)) => {
            sum(alloc, left.form, right.form)
        }
        [.., node] => Ok(leaf(node.form)),
        [] => Ok(CoreExp::Valof(0)),
    }
}

/// The expression of the last of these nodes, as far as the form of an operand depends on it: a load has an address.
fn operand(alloc: Global, nodes: &[NodeLine]) -> Result<CoreExp, Memory> {
    match nodes {
        [before @ .., load] if matches!(load.form, Form::Load) => {
            Ok(CoreExp::Load(Box::new(alloc, address(alloc, before)?)?))
        }
        _ => address(alloc, nodes),
    }
}

/// Whether a part contains a call or a VALOF.
fn calls(parts: &[Facts]) -> bool {
    for part in parts {
        if part.calls {
            return true;
        }
    }
    false
}

/// The index at which the facts of a node's parts begin, among those that belong to no larger node yet. `None` if there
/// are too few.
fn parts_from(facts: &[Facts], node: &NodeLine) -> Option<usize> {
    facts.len().checked_sub(node.form.parts())
}

/// The facts about the last of these nodes, which has these parts.
fn known(
    alloc: Global,
    nodes: &[NodeLine],
    line: &NodeLine,
    parts: &[Facts],
) -> Result<Facts, Memory> {
    let expression = operand(alloc, nodes)?;
    let calls = line.form.calls() || calls(parts);
    Ok(Facts::of(&expression, calls, line.costs))
}

/// The least words of the last of these nodes. Its facts replace those of its parts. `None` if there are too few parts.
fn take(
    facts: &mut Vec<Facts>,
    alloc: Global,
    table: Table,
    nodes: &[NodeLine],
) -> Result<Option<LeastWords>, Memory> {
    let Some(line) = nodes.last() else {
        return Ok(None)
    };
    let Some(from) = parts_from(facts.as_slice(), line) else {
        return Ok(None)
    };
    let parts = facts.as_slice().get(from..).unwrap_or(&[]);
    let known = known(alloc, nodes, line, parts)?;
    let node = Node {
        table,
        level: line.level,
        form: line.form,
        operand: known.operand,
        parts,
    };
    let least = node.least_words();
    facts.truncate(from);
    facts.push(known)?;
    Ok(Some(least))
}

/// The least words of the derivations of the last of these nodes, by the numbers of the nodes before it. `None` if the
/// nodes aren't trees. Returns `Memory` if an allocation fails.
pub fn least_of(
    alloc: Global,
    table: Table,
    nodes: &[NodeLine],
) -> Result<Option<LeastWords>, Memory> {
    let mut facts = Vec::new(alloc);
    let mut least = None;
    for index in 0..nodes.len() {
        let front = nodes.get(..index.saturating_add(1)).unwrap_or(&[]);
        least = take(&mut facts, alloc, table, front)?;
        if least.is_none() {
            break;
        }
    }
    Ok(least)
}
