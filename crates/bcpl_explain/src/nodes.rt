//! The nodes of a root as a line of text, for the script of the page.
//!
//! A node has its sign and its candidates as `SIGN|any|push|false|true,`. A candidate is `number:words`. The parts of a
//! node come before it, as in a certificate.

use crate::html::{Fragment, Html};
use bc_candidates::{Beginning, Candidates};
use bc_core::{CoreExp, Root};
use bc_rules_defs::Derivation;
use bc_word::Op;

/// Adds a letter and a number.
fn add_numbered(html: &mut Html, letter: &str, number: u64) {
    html.all(&[Fragment::Mark(letter), Fragment::Number(number)]);
}

/// Adds the sign of a node, as in a certificate: a leaf has its letter and number, an operator the number of its
/// instruction, and a call the number of its arguments.
fn add_sign(html: &mut Html, e: &CoreExp) {
    match e {
        CoreExp::Num(number) => add_numbered(html, "N", u64::from(number.get())),
        CoreExp::Frame(offset) => add_numbered(html, "P", u64::from(*offset)),
        CoreExp::Glob(number) => add_numbered(html, "G", u64::from(*number)),
        CoreExp::Place(label) => add_numbered(html, "L", u64::from(*label)),
        CoreExp::Valof(number) => add_numbered(html, "V", u64::from(*number)),
        CoreExp::Load(_) => html.mark("!"),
        CoreExp::Neg(_) => html.mark("M"),
        CoreExp::Not(_) => html.mark("~"),
        CoreExp::Bin(op, _, _) => add_numbered(html, "X", op_number(*op)),
        CoreExp::Cond(_, _, _) => html.mark("?"),
        CoreExp::Call(arguments, _) => add_numbered(html, "K", arguments.len() as u64),
    }
}

/// The number of an operator's instruction: X5 is the first operator's.
fn op_number(op: Op) -> u64 {
    let index = op as usize;
    (index as u64).saturating_add(5)
}

/// Adds the candidates of a node for one aim.
fn add_beginnings(html: &mut Html, list: &[Beginning]) {
    html.mark("|");
    for (index, beginning) in list.iter().enumerate() {
        if index > 0 {
            html.mark(" ");
        }
        html.all(&[
            Fragment::Number(u64::from(beginning.rule.number())),
            Fragment::Mark(":"),
            Fragment::Number(beginning.words),
        ]);
    }
}

/// Nodes while they are written.
#[derive(Drop)]
struct Writing<'k> {
    /// The candidates of all nodes, in order.
    candidates: &'k [Candidates],
    /// The index of the next node.
    next: usize,
}

impl Writing<'_> {
    /// Adds a node, whose parts were added.
    fn node(&mut self, html: &mut Html, e: &CoreExp) {
        add_sign(html, e);
        if let Some(of_node) = self.candidates.get(self.next) {
            add_beginnings(html, of_node.any.as_slice());
            add_beginnings(html, of_node.push.as_slice());
            add_beginnings(html, of_node.on_false.as_slice());
            add_beginnings(html, of_node.on_true.as_slice());
        }
        html.mark(",");
        self.next = self.next.saturating_add(1);
    }

    /// Adds the nodes of an expression, its parts before itself.
    #[cycle(walking)]
    fn nodes(&mut self, html: &mut Html, e: &CoreExp) {
        match e {
            CoreExp::Load(part) | CoreExp::Neg(part) | CoreExp::Not(part) => self.nodes(html, part),
            CoreExp::Bin(_, left, right) => {
                self.nodes(html, left);
                self.nodes(html, right);
            }
            CoreExp::Cond(condition, this, that) => {
                self.nodes(html, condition);
                self.nodes(html, this);
                self.nodes(html, that);
            }
            CoreExp::Call(arguments, routine) => {
                self.all_nodes(html, arguments);
                self.nodes(html, routine);
            }
            _ => {}
        }
        self.node(html, e);
    }

    /// Adds the nodes of several expressions.
    #[cycle(walking)]
    fn all_nodes(&mut self, html: &mut Html, list: &[CoreExp]) {
        for e in list {
            self.nodes(html, e);
        }
    }
}

/// Adds the nodes of a root as a JSON string. `candidates` has the rules that apply at each node, in order.
pub fn add_nodes(html: &mut Html, root: &Root, candidates: &[Candidates]) {
    let mut writing = Writing {
        candidates,
        next: 0,
    };
    html.mark("\"");
    match root {
        Root::Value { expression, .. } | Root::Test { expression, .. } => {
            writing.nodes(html, expression)
        }
        Root::Assign { value, address, .. } => {
            writing.nodes(html, value);
            writing.nodes(html, address);
        }
    }
    html.mark("\"");
}

/// Adds a derivation: the name of its rule, followed by the parts in parentheses if there are any.
pub fn add_derivation(html: &mut Html, derivation: &Derivation) {
    html.all(&[Fragment::Rule(derivation.rule)]);
    if derivation.parts.is_empty() {
        return;
    }
    html.mark("(");
    for part in &derivation.parts {
        add_derivation(html, part);
    }
    html.mark(")");
}
