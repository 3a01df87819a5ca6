//! Explains a node of a certificate whose least words are wrong.

use crate::certificate::Entry;
use crate::least::least_of;
use crate::report::{Fill, Report};
use bc_cert_read::{LeastWords, NodeLine};
use bc_word::Memory;

/// What the numbers of a node line are for, in their order.
const NUMBERS: [&str; 4] = [
    "for the value",
    "for the value with A's old value left in B",
    "for a test that jumps on false",
    "for a test that jumps on true",
];

/// A number of a node line: its index among the four, the right number, and the written one.
#[derive(Clone, Copy)]
struct NodeNumber {
    index: usize,
    right: Option<u128>,
    written: Option<u128>,
}

/// The number of a node line with this index.
fn number(index: usize, right: Option<u128>, written: Option<u64>) -> NodeNumber {
    let written = match written {
        Some(words) => Some(u128::from(words)),
        None => None,
    };
    NodeNumber {
        index,
        right,
        written,
    }
}

/// The first number of a node line that is not the least.
fn wrong_number(least: &LeastWords, line: &NodeLine) -> Option<NodeNumber> {
    let costs = line.costs;
    let numbers = [
        number(0, least.any, Some(costs.any)),
        number(1, least.push, costs.push),
        number(2, least.on_false, Some(costs.on_false)),
        number(3, least.on_true, Some(costs.on_true)),
    ];
    for number in &numbers {
        if number.right != number.written {
            return Some(*number);
        }
    }
    None
}

/// A number of words; `-` where the node has none.
fn words(number: Option<u128>) -> Fill<'static> {
    match number {
        Some(number) => Fill::Number(number),
        None => Fill::Text("-"),
    }
}

/// Adds the sentence on a wrong number of a node.
fn add_wrong(
    report: &mut Report,
    entry: &Entry<'_>,
    node: usize,
    wrong: NodeNumber,
) -> Result<(), Memory> {
    let sentence = if wrong.right.is_some() {
        "the least words {} are {} according to its parts, but {} is written here"
    } else {
        "no code {} can be made from the parts, so this must be {}, but {} is written here"
    };
    let what = NUMBERS.get(wrong.index).copied().unwrap_or("");
    let field = wrong.index.saturating_add(2);
    report.place(
        entry.lined.field(entry.line(node), field),
        sentence,
        &[Fill::Text(what), words(wrong.right), words(wrong.written)],
    )
}

/// The first wrong number of a node; `None` if it can't be computed.
fn wrong_at(report: &Report, entry: &Entry<'_>, node: usize) -> Result<Option<NodeNumber>, Memory> {
    let nodes = entry.nodes.get(..node.saturating_add(1)).unwrap_or(&[]);
    let least = least_of(report.alloc(), entry.table, nodes)?;
    Ok(match (least, nodes.last()) {
        (Some(least), Some(line)) => wrong_number(&least, line),
        _ => None,
    })
}

/// Adds the sentence on a wrong number of a node. Returns `Memory` if an allocation fails.
pub fn wrong_cost(report: &mut Report, entry: &Entry<'_>, node: usize) -> Result<(), Memory> {
    match wrong_at(report, entry, node)? {
        Some(wrong) => add_wrong(report, entry, node, wrong),
        None => Ok(()),
    }
}
