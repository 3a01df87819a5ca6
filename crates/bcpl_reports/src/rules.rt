//! Explains rules of a certificate that don't derive their node or root. It tries all rules, and lists those that the
//! checker would accept.

use crate::certificate::Entry;
use crate::derived::{rooted_of, takes};
use crate::report::{Fill, Report};
use bc_cert_read::{NodeLine, RootLine, Stack, node_line};
use bc_rules_defs::{Rule, Table};
use bc_word::Memory;
use std::alloc::Global;

/// The rules of values and tests that are tried instead of a wrong one.
const NAMES: [&str; 29] = [
    "V1", "V2", "V3", "V4", "V6", "V7", "V8", "V9", "V10", "V11", "V12", "V13", "V14", "V15",
    "V16", "V17", "V18", "V19", "V20", "V21", "V22", "J1", "J2", "J3", "J4", "J5", "J7", "J8",
    "J9",
];

/// What may precede a rule of values at its node.
const FRONTS: [&str; 4] = ["", "V0.", "J6.", "J6.V0."];

/// At most this many rules are listed.
const MOST: usize = 4;

/// Rules are tried only in an entry of at most this many nodes.
const MOST_NODES: usize = 400;

/// The rules of a node, or a root line, as a certificate writes them, in two parts.
#[derive(Clone, Copy)]
struct Name {
    front: &'static str,
    following: Fill<'static>,
}

/// The node line with this beginning and these rules; `None` if it would be malformed.
fn with_rules(
    alloc: Global,
    front: &[u8],
    before: &str,
    name: &str,
) -> Result<Option<NodeLine>, Memory> {
    let mut line = Vec::from_slice(alloc, front)?;
    line.extend_from_slice(before.as_bytes())?;
    line.extend_from_slice(name.as_bytes())?;
    Ok(node_line(line.as_slice()))
}

/// The nodes of an entry after which rules are tried.
#[derive(Clone, Copy)]
struct Trial<'a> {
    alloc: Global,
    table: Table,
    nodes: &'a [NodeLine],
    /// The bytes of the next node's line before its rules.
    front: &'a [u8],
}

impl<'a> Trial<'a> {
    /// Whether the checker accepts the next node with these rules.
    fn takes(&self, trees: &mut Stack, before: &str, name: &str) -> Result<bool, Memory> {
        match with_rules(self.alloc, self.front, before, name)? {
            Some(node) => takes(trees, self.alloc, self.table, self.nodes, &node),
            None => Ok(false),
        }
    }

    /// Adds rules to the list if the checker accepts the next node with them.
    fn add_if_taken(
        &self,
        trees: &mut Stack,
        before: &'static str,
        name: &'static str,
        right: &mut Vec<Name>,
    ) -> Result<(), Memory> {
        if self.takes(trees, before, name)? {
            right.push(Name {
                front: before,
                following: Fill::Text(name),
            })?;
        }
        Ok(())
    }

    /// Adds to the list all rules with this prefix that the checker accepts, while fewer than `MOST` are listed.
    fn add_taken(
        &self,
        trees: &mut Stack,
        before: &'static str,
        right: &mut Vec<Name>,
    ) -> Result<(), Memory> {
        for name in NAMES.iter() {
            if right.len() < MOST {
                self.add_if_taken(trees, before, *name, right)?;
            }
        }
        Ok(())
    }

    /// The rules that the checker accepts, as the next node's line would name them.
    fn right(&self, trees: &mut Stack) -> Result<Vec<Name>, Memory> {
        let mut right = Vec::new(self.alloc);
        for before in FRONTS.iter() {
            self.add_taken(trees, *before, &mut right)?;
        }
        Ok(right)
    }
}

/// The rules that the checker would accept at a node, as its line would name them.
fn right_rules(
    trees: &mut Stack,
    alloc: Global,
    entry: &Entry<'_>,
    node: usize,
) -> Result<Vec<Name>, Memory> {
    let nodes = entry.nodes.get(..node).unwrap_or(&[]);
    if nodes.len() > MOST_NODES {
        return Ok(Vec::new(alloc));
    }
    let trial = Trial {
        alloc,
        table: entry.table,
        nodes,
        front: entry.lined.front(entry.line(node), 6),
    };
    trial.right(trees)
}

/// The root lines that may be right instead of this one.
fn roots_like(root: RootLine) -> [RootLine; 3] {
    match root {
        RootLine::Value | RootLine::Test(_) => [
            RootLine::Value,
            RootLine::Test(false),
            RootLine::Test(true),
        ],
        RootLine::Assign(_, level) => [
            RootLine::Assign(Rule::A1, level),
            RootLine::Assign(Rule::A2, level),
            RootLine::Assign(Rule::A3, level),
        ],
    }
}

/// What precedes the level in the root line of an assignment.
fn assignment(rule: Rule) -> &'static str {
    match rule {
        Rule::A1 => "R A1 ",
        Rule::A2 => "R A2 ",
        _ => "R A3 ",
    }
}

/// A root line as a certificate writes it.
fn root_name(root: RootLine) -> Name {
    let (front, following) = match root {
        RootLine::Value => ("R V", Fill::Text("")),
        RootLine::Test(false) => ("R F", Fill::Text("")),
        RootLine::Test(true) => ("R T", Fill::Text("")),
        RootLine::Assign(rule, level) => (assignment(rule), Fill::Number(u128::from(level))),
    };
    Name { front, following }
}

/// The sentence on a root line that doesn't fit its trees.
fn root_sentence(root: RootLine) -> &'static str {
    match root {
        RootLine::Value => "the rules of the tree before it are not those of a value",
        RootLine::Test(false) => {
            "the rules of the tree before it are not those of a test that jumps on false"
        }
        RootLine::Test(true) => {
            "the rules of the tree before it are not those of a test that jumps on true"
        }
        RootLine::Assign(..) => {
            "this assignment rule doesn't fit the trees before it, or takes more words than another one"
        }
    }
}

/// Whether the checker accepts this root line after the nodes of an entry.
fn takes_root(
    trees: &mut Stack,
    alloc: Global,
    entry: &Entry<'_>,
    root: RootLine,
) -> Result<bool, Memory> {
    let rooted = rooted_of(trees, alloc, entry.table, entry.nodes, root)?;
    Ok(rooted.is_some())
}

/// The root lines that the checker would accept after the nodes of an entry, instead of this one.
fn right_roots(
    trees: &mut Stack,
    alloc: Global,
    entry: &Entry<'_>,
    root: RootLine,
) -> Result<Vec<Name>, Memory> {
    let candidates = roots_like(root);
    let mut right = Vec::new(alloc);
    for candidate in &candidates {
        if takes_root(trees, alloc, entry, *candidate)? {
            right.push(root_name(*candidate))?;
        }
    }
    Ok(right)
}

/// What separates the element with this index of a list of `count` elements from the one before it.
fn between(index: usize, count: usize) -> &'static str {
    if index == 0 {
        ""
    } else if index.saturating_add(1) == count {
        " or "
    } else {
        ", "
    }
}

/// Adds the list of rules or root lines that would be right.
fn add_right(report: &mut Report, right: &[Name]) -> Result<(), Memory> {
    let count = right.len();
    let does = if count == 1 {
        "this is right"
    } else {
        "these are right"
    };
    report.say(
        "  help: according to the lines of its parts, {}: ",
        &[Fill::Text(does)],
    )?;
    for (index, name) in right.iter().enumerate() {
        let between = Fill::Text(between(index, count));
        report.say("{}{}{}", &[between, Fill::Text(name.front), name.following])?;
    }
    report.text("\n")
}

/// Adds the root lines that would be right, if there are any.
fn add_roots(report: &mut Report, right: &[Name]) -> Result<(), Memory> {
    if right.is_empty() {
        return Ok(());
    }
    add_right(report, right)
}

/// Adds the rules that would be right, or that there are none.
fn add_rules(report: &mut Report, right: &[Name]) -> Result<(), Memory> {
    if right.is_empty() {
        return report.help("according to the lines of its parts, no rules are right");
    }
    add_right(report, right)
}

/// Describes a root line that doesn't fit its trees.
fn wrong_root(
    report: &mut Report,
    trees: &mut Stack,
    entry: &Entry<'_>,
    root: RootLine,
) -> Result<(), Memory> {
    let placed = entry.lined.place(entry.root_index());
    report.place(placed, root_sentence(root), &[])?;
    let right = right_roots(trees, report.alloc(), entry, root)?;
    add_roots(report, right.as_slice())
}

/// Describes rules that don't derive their node.
fn wrong_node(
    report: &mut Report,
    trees: &mut Stack,
    entry: &Entry<'_>,
    node: usize,
) -> Result<(), Memory> {
    let placed = entry.lined.field(entry.line(node), 6);
    let sentence = "these rules don't derive this node in the given number of words";
    report.place(placed, sentence, &[])?;
    let right = right_rules(trees, report.alloc(), entry, node)?;
    add_rules(report, right.as_slice())
}

/// Describes rules that don't derive their node, or a root line that doesn't fit its trees. Returns `Memory` if an
/// allocation fails.
pub fn wrong_rule(
    report: &mut Report,
    trees: &mut Stack,
    entry: &Entry<'_>,
    node: usize,
) -> Result<(), Memory> {
    if node < entry.nodes.len() {
        return wrong_node(report, trees, entry, node);
    }
    match entry.root() {
        Some(root) => wrong_root(report, trees, entry, root),
        None => Ok(()),
    }
}
