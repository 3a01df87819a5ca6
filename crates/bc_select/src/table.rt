//! The table of nodes, stored as two parallel vectors: the rows, which `select` returns, and the spans, which only this crate uses.

ghost use Rattle.std.specs.Prelude.{◌≡◌, ◌≤◌, ◌+◌, ◌++◌, ◌∷◌, [], List, IfOk, OnOk, length, map, take, drop};
ghost use Rattle.bc_select_defs.specs.Choices.{choice_for as choice_of};
ghost use Rattle.bc_select.specs.Reads.{rule_or_v1};
ghost use Rattle.bc_select.specs.Row.{row_of_part};

use crate::node::PartNode;
use crate::row::{Row, last_choices, row_from, rule_for, rules_from};
use bc_rules_defs::{Aim, Rule};
use bc_word::Memory;
use std::alloc::Global;
use std::marker::Model;

/// The facts about a node that are needed besides its row. The rules are stored again here, so that reading a derivation doesn't touch
/// the rows. The fields are in the order that takes the least memory: 16 bytes.
#[derive(Clone, Copy)]
pub struct Span {
    /// The number of the node's nodes, itself included.
    pub nodes: usize,
    /// The chosen rules, in the order of a row, with V1 where there is none.
    pub rules: [Rule; 4],
    /// Whether the node contains a call or a VALOF.
    pub calls: bool,
}

/// The span returned if there is no node.
const NO_SPAN: Span = Span {
    nodes: 0,
    rules: [Rule::V1; 4],
    calls: false,
};

/// The last span, or `NO_SPAN`.
#[inline(always)]
fn last_span(spans: &[Span]) -> Span
    ensures { (xs : List Span) (p : Span) → spans.now ≡ xs ++ (p ∷ []) → result ≡ p }
{
    match spans.last() {
        Some(span) => *span,
        None => NO_SPAN,
    }
}

/// The span before the index `end`, or `NO_SPAN`.
#[inline(always)]
fn span_at(spans: &[Span], end: usize) -> Span
    ensures { (xs ys : List Span) (p : Span) → spans.now ≡ (xs ++ (p ∷ [])) ++ ys → end ≡ length xs + 1 → result ≡ p }
{
    match spans.get(end.saturating_sub(1)) {
        Some(span) => *span,
        None => NO_SPAN,
    }
}

/// The nodes of expressions, parts before wholes. Its view in contracts is a list of `PartNode`.
#[derive(Drop)]
pub struct Table {
    rows: Vec<Row>,
    spans: Vec<Span>,
}

impl Model for Table {
    ghost use Rattle.std.specs.Prelude.{List};
    ghost use Rattle.bc_select.specs.declared.node.PartNode.{PartNode};
    ghost use Rattle.bc_select.specs.Row.{parts_in, AreParts};

    ghost Value = { List PartNode };

    ghost view = { λ t. parts_in t.rows.items t.spans.items };

    ghost invariant = { λ t. AreParts t.rows.items t.spans.items };
}

/// A contiguous range of a table's nodes. Its view in contracts is a list of `PartNode`.
#[derive(Drop)]
pub struct Nodes<'a> {
    rows: &'a [Row],
    spans: &'a [Span],
}

impl<'a> Model for Nodes<'a> {
    ghost use Rattle.std.specs.Prelude.{List};
    ghost use Rattle.bc_select.specs.declared.node.PartNode.{PartNode};
    ghost use Rattle.bc_select.specs.Row.{parts_in, AreParts};

    ghost Value = { List PartNode };

    ghost view = { λ n. parts_in n.rows.now n.spans.now };

    ghost invariant = { λ n. AreParts n.rows.now n.spans.now };
}

impl Table {
    /// An empty table with capacity for `count` nodes. Returns `Memory` if an allocation failed.
    pub fn with_capacity(alloc: Global, count: usize) -> Result<Table, Memory>
        ensures { IfOk result (λ nodes. nodes ≡ []) }
    {
        let rows = Vec::with_capacity(alloc, count)?;
        let spans = Vec::with_capacity(alloc, count)?;
        Ok(Table { rows, spans })
    }

    /// All nodes of the table.
    pub fn nodes(&self) -> Nodes<'_>
        ensures { result ≡ self.now }
    {
        Nodes {
            rows: &self.rows,
            spans: &self.spans,
        }
    }

    /// Appends a node. Returns `Memory` if a vector could not grow; the table is then unchanged.
    pub fn push(&mut self, node: &PartNode) -> Result<(), Memory>
        ensures { OnOk result (self.new ≡ self.old ++ (node.now ∷ [])) }
    {
        let rules = rules_from(&node.choices);
        let span = Span {
            nodes: node.nodes,
            rules,
            calls: node.calls,
        };
        self.rows.push(row_from(&node.choices))?;
        match self.spans.push(span) {
            Ok(()) => Ok(()),
            Err(_) => {
                self.rows.pop();
                Err(Memory)
            }
        }
    }

    /// The rows of all nodes.
    pub fn into_rows(self) -> Vec<Row>
        ensures { result.items ≡ map row_of_part self }
    {
        let Table { rows, .. } = self;
        rows
    }
}

impl<'a> Nodes<'a> {
    /// The number of nodes.
    pub fn len(&self) -> usize
        ensures { result ≡ length self.now }
    {
        self.spans.len()
    }

    /// The first `count` nodes, and the others.
    pub fn split_at(&self, count: usize) -> (Nodes<'a>, Nodes<'a>)
        requires { count ≤ length self.now }
        ensures front { result.0 ≡ take count self.now }
        ensures back { result.1 ≡ drop count self.now }
    {
        let (front_rows, back_rows) = self.rows.split_at(count);
        let (front_spans, back_spans) = self.spans.split_at(count);
        let front = Nodes {
            rows: front_rows,
            spans: front_spans,
        };
        let back = Nodes {
            rows: back_rows,
            spans: back_spans,
        };
        (front, back)
    }

    /// The last node.
    #[inline(always)]
    pub fn last(&self) -> PartNode
        ensures { (xs : List PartNode) (p : PartNode) → self.now ≡ xs ++ (p ∷ []) → result ≡ p }
    {
        let span = last_span(self.spans);
        PartNode {
            choices: last_choices(self.rows),
            calls: span.calls,
            nodes: span.nodes,
        }
    }

    /// The number of nodes of the last node, itself included.
    pub fn last_count(&self) -> usize
        ensures { (xs : List PartNode) (p : PartNode) → self.now ≡ xs ++ (p ∷ []) → result ≡ p.nodes }
    {
        last_span(self.spans).nodes
    }

    /// The number of nodes, itself included, of the node before the index `end`.
    #[inline(always)]
    pub fn count_at(&self, end: usize) -> usize
        ensures { (xs ys : List PartNode) (p : PartNode) → self.now ≡ (xs ++ (p ∷ [])) ++ ys → end ≡ length xs + 1 → result ≡ p.nodes }
    {
        span_at(self.spans, end).nodes
    }

    /// The rule chosen for an aim at the node before the index `end`; V1 if there is none.
    #[inline(always)]
    pub fn rule_at(&self, end: usize, aim: Aim) -> Rule
        ensures { (xs ys : List PartNode) (p : PartNode) → self.now ≡ (xs ++ (p ∷ [])) ++ ys → end ≡ length xs + 1 → result ≡ rule_or_v1 (choice_of aim p.choices) }
    {
        rule_for(&span_at(self.spans, end).rules, aim)
    }
}
