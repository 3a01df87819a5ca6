//! Which rules apply to an expression or assignment, and which parts they have there.
//!
//! Each function tests a rule's conditions; the parts then come from the table `Rule::takes`. Whether operands are free and
//! whether a rule table has the rule is decided in `check.rt`.

ghost use Rattle.std.specs.Prelude.{◌≡◌};
ghost use Rattle.bc_core.specs.View.{exp};
ghost use Rattle.bc_rules_defs.specs.Free.{is_plain, beside_zero, without_zero as without_zero_of};
ghost use Rattle.bc_rules_defs.specs.Parts.{parts_of as parts_by, node_parts as node_parts_of, operator_parts, value_parts as value_parts_of, test_parts as test_parts_of, assignment_parts as assignment_parts_of, in_any as in_any_of, where_true};
ghost use Rattle.bc_rules_defs.specs.Takes.{of_one as one_taken, of_two as two_taken, of_choice as choice_taken};
ghost use Rattle.bc_rules.specs.View.{parts, expression};

use crate::parts::{Part, Parts};
use bc_core::{CoreExp, constant, operand};
use bc_rules_defs::{Aim, Mode, Rule, Takes, is_plain_operator, is_zero};
use bc_word::{Op, mirror};

/// Whether a test of an expression may test its value (rule J6): neither NOT nor `&` nor `|` is on top.
fn plain(e: &CoreExp) -> bool
    ensures { result ≡ is_plain (exp e.now) }
{
    match e {
        CoreExp::Not(_) => false,
        CoreExp::Bin(op, _, _) => is_plain_operator(*op),
        CoreExp::Num(_)
        | CoreExp::Frame(_)
        | CoreExp::Glob(_)
        | CoreExp::Place(_)
        | CoreExp::Load(_)
        | CoreExp::Neg(_)
        | CoreExp::Cond(_, _, _)
        | CoreExp::Call(_, _)
        | CoreExp::Valof(_) => true,
    }
}

/// The other operand, if one of the two is 0. Of two zeros the right one is dropped.
fn beside<'a>(a: &'a CoreExp, b: &'a CoreExp) -> Option<&'a CoreExp>
    ensures { expression result ≡ beside_zero (exp a.now) (exp b.now) }
{
    if is_zero(b) {
        Some(a)
    } else if is_zero(a) {
        Some(b)
    } else {
        None
    }
}

/// The operand to which `a + 0`, `0 + a` or `a - 0` reduces (rule V8).
fn without_zero<'a>(op: Op, a: &'a CoreExp, b: &'a CoreExp) -> Option<&'a CoreExp>
    ensures { expression result ≡ without_zero_of op (exp a.now) (exp b.now) }
{
    match op {
        Op::Add => beside(a, b),
        Op::Subtract => { if is_zero(b) { Some(a) } else { None } }
        _ => None,
    }
}

/// A part with its aim.
fn part<'a>(aim: Aim, of: &'a CoreExp) -> Part<'a>
    ensures which { result.aim ≡ aim }
    ensures whose { exp result.of.now ≡ exp of.now }
{
    Part { aim, of }
}

/// The part of a node with one part, if the rule takes it.
fn of_one<'a>(takes: Takes, a: &'a CoreExp) -> Parts<'a>
    ensures { parts result ≡ one_taken takes (exp a.now) }
{
    match takes {
        Takes::First(aim) => Parts::Single(part(aim, a)),
        Takes::Nothing
        | Takes::Second(_)
        | Takes::InOrder(_, _)
        | Takes::Turned(_, _)
        | Takes::Choice(_)
        | Takes::Call => Parts::Leaf(false),
    }
}

/// The parts that the rule takes of a node with two parts, in the order of the code.
fn of_two<'a>(takes: Takes, a: &'a CoreExp, b: &'a CoreExp) -> Parts<'a>
    ensures { parts result ≡ two_taken takes (exp a.now) (exp b.now) }
{
    match takes {
        Takes::First(aim) => Parts::Single(part(aim, a)),
        Takes::Second(aim) => Parts::Single(part(aim, b)),
        Takes::InOrder(x, y) => Parts::Pair(part(x, a), part(y, b)),
        Takes::Turned(x, y) => Parts::Pair(part(y, b), part(x, a)),
        Takes::Nothing | Takes::Choice(_) | Takes::Call => Parts::Leaf(false),
    }
}

/// The condition and the two values of `c -> x, y`, in the order of the code.
fn of_choice<'a>(takes: Takes, c: &'a CoreExp, x: &'a CoreExp, y: &'a CoreExp) -> Parts<'a>
    ensures { parts result ≡ choice_taken takes (exp c.now) (exp x.now) (exp y.now) }
{
    let any = Aim::Gets(Mode::Any);
    match takes {
        Takes::Choice(false) => {
            Parts::Triple(part(Aim::Jumps(false), c), part(any, x), part(any, y))
        }
        Takes::Choice(true) => {
            Parts::Triple(part(Aim::Jumps(true), c), part(any, y), part(any, x))
        }
        Takes::Nothing
        | Takes::First(_)
        | Takes::Second(_)
        | Takes::InOrder(_, _)
        | Takes::Turned(_, _)
        | Takes::Call => Parts::Leaf(false),
    }
}

/// The parts of a rule at an expression, for this aim. Whether operands are free and whether a table
/// has the rule isn't decided here.
pub fn parts_of<'a>(rule: Rule, aim: Aim, e: &'a CoreExp) -> Parts<'a>
    ensures { parts result ≡ parts_by rule aim (exp e.now) }
{
    match rule {
        Rule::V0 => match aim {
            Aim::Gets(Mode::Any) => Parts::Single(part(Aim::Gets(Mode::Push), e)),
            _ => Parts::NoRule,
        },
        Rule::V1 => match (aim, operand(e)) {
            (Aim::Gets(Mode::Push), Some(_)) => Parts::Leaf(false),
            _ => Parts::NoRule,
        },
        Rule::J6 => match aim {
            Aim::Jumps(_) => {
                if plain(e) {
                    Parts::Single(part(Aim::Gets(Mode::Any), e))
                } else {
                    Parts::NoRule
                }
            }
            Aim::Gets(_) => Parts::NoRule,
        },
        _ => node_parts(rule, aim, e),
    }
}

/// The parts of a rule other than V0, V1 and J6, by the form of the expression.
#[tactic(auto, using(crate::proofs::Trees::call_parts_seen))]
fn node_parts<'a>(rule: Rule, aim: Aim, e: &'a CoreExp) -> Parts<'a>
    ensures { parts result ≡ node_parts_of rule aim (exp e.now) }
{
    let takes = rule.takes(aim, false);
    match e {
        CoreExp::Num(_) => match (rule, aim) {
            (Rule::J7, Aim::Jumps(_)) => Parts::Leaf(false),
            _ => Parts::NoRule,
        },
        CoreExp::Frame(_) | CoreExp::Glob(_) | CoreExp::Place(_) => Parts::NoRule,
        CoreExp::Load(a) => match (rule, aim) {
            (Rule::V2, Aim::Gets(_)) => of_one(takes, a),
            _ => Parts::NoRule,
        },
        CoreExp::Neg(a) => match (rule, aim) {
            (Rule::V3, Aim::Gets(_)) => of_one(takes, a),
            _ => Parts::NoRule,
        },
        CoreExp::Not(a) => match (rule, aim) {
            (Rule::V4, Aim::Gets(_)) => of_one(takes, a),
            (Rule::J1, Aim::Jumps(_)) => of_one(takes, a),
            _ => Parts::NoRule,
        },
        CoreExp::Bin(op, a, b) => match aim {
            Aim::Gets(mode) => value_parts(rule, mode, *op, a, b),
            Aim::Jumps(sense) => test_parts(rule, sense, *op, a, b),
        },
        CoreExp::Cond(c, x, y) => match (rule, aim) {
            (Rule::V20, Aim::Gets(Mode::Any)) => of_choice(takes, c, x, y),
            (Rule::V21, Aim::Gets(Mode::Any)) => of_choice(takes, c, x, y),
            _ => Parts::NoRule,
        },
        CoreExp::Call(arguments, routine) => match (rule, aim) {
            (Rule::V22, Aim::Gets(Mode::Any)) => Parts::Call(arguments, routine),
            _ => Parts::NoRule,
        },
        CoreExp::Valof(_) => match (rule, aim) {
            (Rule::V22, Aim::Gets(Mode::Any)) => Parts::Leaf(true),
            _ => Parts::NoRule,
        },
    }
}

/// These parts in mode Any; in mode Push the rule doesn't apply.
fn in_any<'a>(mode: Mode, found: Parts<'a>) -> Parts<'a>
    ensures { parts result ≡ in_any_of mode (parts found.entry) }
{
    match mode {
        Mode::Any => found,
        Mode::Push => Parts::NoRule,
    }
}

/// These parts if the condition holds; otherwise the rule doesn't apply.
fn given<'a>(holds: bool, found: Parts<'a>) -> Parts<'a>
    ensures { parts result ≡ where_true holds (parts found.entry) }
{
    if holds { found } else { Parts::NoRule }
}

/// The parts of a rule for the value of an operator.
#[tactic(auto, using(crate::proofs::Trees::without_taken))]
fn value_parts<'a>(rule: Rule, mode: Mode, op: Op, a: &'a CoreExp, b: &'a CoreExp) -> Parts<'a>
    ensures { parts result ≡ value_parts_of rule mode op (exp a.now) (exp b.now) }
{
    let takes = rule.takes(Aim::Gets(mode), is_zero(b));
    let found = of_two(takes, a, b);
    match rule {
        Rule::V6 => match (op, operand(b)) {
            (Op::Add, Some(_)) => found,
            _ => Parts::NoRule,
        },
        Rule::V7 => match (op, operand(a)) {
            (Op::Add, Some(_)) => found,
            _ => Parts::NoRule,
        },
        Rule::V8 => match without_zero(op, a, b) {
            Some(_) => found,
            None => Parts::NoRule,
        },
        Rule::V9 => match (op, constant(b)) {
            (Op::Subtract, Some(_)) => found,
            _ => Parts::NoRule,
        },
        Rule::V10 => match (op, operand(b)) {
            (Op::Subtract, Some(_)) => found,
            _ => Parts::NoRule,
        },
        Rule::V11 => match (op, operand(a)) {
            (Op::Subtract, Some(_)) => found,
            _ => Parts::NoRule,
        },
        Rule::V12 | Rule::V16 | Rule::V17 => in_any(mode, found),
        Rule::V13 | Rule::V15 => match mirror(op) {
            Some(_) => in_any(mode, found),
            None => Parts::NoRule,
        },
        Rule::V14 | Rule::V19 => match op {
            Op::Subtract => in_any(mode, found),
            _ => Parts::NoRule,
        },
        Rule::V18 => match op {
            Op::Add => in_any(mode, found),
            _ => Parts::NoRule,
        },
        _ => Parts::NoRule,
    }
}

/// The parts of a rule for a test of an operator.
#[tactic(auto, using(crate::proofs::Trees::beside_taken))]
fn test_parts<'a>(rule: Rule, sense: bool, op: Op, a: &'a CoreExp, b: &'a CoreExp) -> Parts<'a>
    ensures { parts result ≡ test_parts_of rule sense op (exp a.now) (exp b.now) }
{
    let takes = rule.takes(Aim::Jumps(sense), is_zero(b));
    let found = of_two(takes, a, b);
    match (rule, op) {
        (Rule::J2, Op::And) | (Rule::J5, Op::Or) => given(!sense, found),
        (Rule::J3, Op::And) | (Rule::J4, Op::Or) => given(sense, found),
        (Rule::J8, Op::Equal) | (Rule::J9, Op::NotEqual) => match beside(a, b) {
            Some(_) => found,
            None => Parts::NoRule,
        },
        _ => Parts::NoRule,
    }
}

/// The parts of a rule at an assignment.
pub fn assignment_parts<'a>(rule: Rule, value: &'a CoreExp, address: &'a CoreExp) -> Parts<'a>
    ensures { parts result ≡ assignment_parts_of rule (exp value.now) (exp address.now) }
{
    let takes = rule.takes(Aim::Gets(Mode::Any), false);
    match (rule, operand(address)) {
        (Rule::A1, Some(_)) => of_two(takes, value, address),
        (Rule::A2 | Rule::A3, None) => of_two(takes, value, address),
        _ => Parts::NoRule,
    }
}
