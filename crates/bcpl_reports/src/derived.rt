//! Runs the checker's stack of trees over the nodes of one entry, to try other rules and roots.

ghost use Rattle.std.specs.Prelude.{OnOk};
ghost use Rattle.bc_cert_read.specs.Stacks.{AreParallel};
ghost use Rattle.bc_cert_read.specs.TreeView.{stack};

use bc_cert_defs::CheckFault;
use bc_cert_read::{NodeLine, Position, RootLine, Rooted, Stack};
use bc_rules_defs::Table;
use bc_word::Memory;
use std::alloc::Global;

/// The position for faults that are not reported.
const NOWHERE: Position = Position {
    line: 0,
    entry: 0,
    node: 0,
};

/// Replaces all trees by those of these nodes, as the checker judges them.
fn trees_of(
    trees: &mut Stack,
    alloc: Global,
    table: Table,
    nodes: &[NodeLine],
) -> Result<(), CheckFault>
    ensures { OnOk result (AreParallel (stack trees.new)) }
{
    trees.clear();
    for node in nodes {
        trees.node(alloc, table, node, NOWHERE)?;
    }
    Ok(())
}

/// The checker's judgement of a node after these.
fn judged(
    trees: &mut Stack,
    alloc: Global,
    table: Table,
    nodes: &[NodeLine],
    last: &NodeLine,
) -> Result<(), CheckFault> {
    trees_of(trees, alloc, table, nodes)?;
    trees.node(alloc, table, last, NOWHERE)
}

/// Whether the checker accepts a node after these. Returns `Memory` if an allocation fails.
pub fn takes(
    trees: &mut Stack,
    alloc: Global,
    table: Table,
    nodes: &[NodeLine],
    last: &NodeLine,
) -> Result<bool, Memory> {
    match judged(trees, alloc, table, nodes, last) {
        Ok(()) => Ok(true),
        Err(CheckFault::Memory) => Err(Memory),
        Err(_) => Ok(false),
    }
}

/// The checker's judgement of a root over these nodes.
fn judged_root(
    trees: &mut Stack,
    alloc: Global,
    table: Table,
    nodes: &[NodeLine],
    root: RootLine,
) -> Result<Rooted, CheckFault> {
    trees_of(trees, alloc, table, nodes)?;
    trees.root(alloc, root, NOWHERE)
}

/// The root of these nodes, if the checker accepts it. Returns `Memory` if an allocation fails.
pub fn rooted_of(
    trees: &mut Stack,
    alloc: Global,
    table: Table,
    nodes: &[NodeLine],
    root: RootLine,
) -> Result<Option<Box<Rooted>>, Memory> {
    match judged_root(trees, alloc, table, nodes, root) {
        Ok(rooted) => Ok(Some(Box::new(alloc, rooted)?)),
        Err(CheckFault::Memory) => Err(Memory),
        Err(_) => Ok(None),
    }
}
