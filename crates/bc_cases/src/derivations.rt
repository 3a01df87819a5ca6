//! Reads derivations in the form in which `bcpl_show` writes them, such as `(V12 (V0 V1) V1)`.

use crate::growth::Growth;
use crate::number::short;
use bc_rules_defs::{Derivation, Rule};
use std::alloc::Global;

/// An open parenthesis: its rule, and the number of derivations that were complete before it.
#[derive(Clone, Copy)]
struct Open {
    rule: Rule,
    first: usize,
}

/// The rule with this name, or V0.
fn rule_of(name: &str) -> Rule {
    for (letter, byte) in [('V', b'V'), ('J', b'J'), ('A', b'A')] {
        if let Some(text) = name.strip_prefix(letter) {
            return Rule::named(byte, short(text)).unwrap_or(Rule::V0);
        }
    }
    Rule::V0
}

/// A rule without parts.
fn leaf(alloc: Global, rule: Rule) -> Derivation {
    Derivation {
        rule,
        parts: Vec::new(alloc),
    }
}

/// Makes one derivation of those that were completed since a parenthesis was opened.
fn join(growth: &mut Growth, done: &mut Vec<Derivation>, open: Open) {
    let parts = growth.following(done, open.first);
    growth.push(
        done,
        Derivation {
            rule: open.rule,
            parts,
        },
    );
}

/// Closes the innermost parenthesis.
fn close(growth: &mut Growth, done: &mut Vec<Derivation>, open: &mut Vec<Open>) {
    if let Some(open) = open.pop() {
        join(growth, done, open);
    }
}

/// Opens a parenthesis, or appends a rule without parts.
fn begin(growth: &mut Growth, done: &mut Vec<Derivation>, open: &mut Vec<Open>, body: &str) {
    let first = done.len();
    match body.strip_prefix('(') {
        Some(name) => growth.push(
            open,
            Open {
                rule: rule_of(name),
                first,
            },
        ),
        None => add_leaf(growth, done, rule_of(body)),
    }
}

/// Appends a rule without parts.
fn add_leaf(growth: &mut Growth, done: &mut Vec<Derivation>, rule: Rule) {
    let leaf = leaf(growth.alloc(), rule);
    growth.push(done, leaf);
}

/// Takes a word with the parentheses that it opens and closes.
fn add_word(growth: &mut Growth, done: &mut Vec<Derivation>, open: &mut Vec<Open>, word: &str) {
    let body = word.trim_end_matches(')');
    begin(growth, done, open, body);
    for _ in body.len()..word.len() {
        close(growth, done, open);
    }
}

/// Appends the derivations of a text, which are separated by blanks.
pub fn read_derivations(growth: &mut Growth, done: &mut Vec<Derivation>, text: &str) {
    let mut open = Vec::new(growth.alloc());
    for word in text.split_whitespace() {
        add_word(growth, done, &mut open, word);
    }
}

/// Removes and returns the last derivation, or V0 without parts if there is none.
pub fn last_derivation(alloc: Global, done: &mut Vec<Derivation>) -> Derivation {
    match done.pop() {
        Some(derivation) => derivation,
        None => leaf(alloc, Rule::V0),
    }
}

/// The last derivation of a text, boxed. None if an allocation fails.
pub fn derivation_of(growth: &mut Growth, text: &str) -> Option<Box<Derivation>> {
    let mut done = Vec::new(growth.alloc());
    read_derivations(growth, &mut done, text);
    let last = last_derivation(growth.alloc(), &mut done);
    growth.boxed(last)
}
