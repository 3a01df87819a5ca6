//! The recursive check that trees of rule names are derivations.

ghost use Rattle.std.specs.Prelude.{◌≡◌, ◌||◌, true};
ghost use Rattle.bc_core.specs.View.{exp, args};
ghost use Rattle.bc_core.specs.Value.{has_call};
ghost use Rattle.bc_rules_defs.specs.View.{derivation, derivations};
ghost use Rattle.bc_rules_defs.specs.Parts.{single as single_part, pair as two_parts, triple as three_parts, called};
ghost use Rattle.bc_rules.specs.View.{parts};
ghost use Rattle.bc_rules.specs.Fits.{in_table as in_table_of, turns as turns_of, turns_freely as turns_freely_of, has_direct_side, fits, parts_fit, parts_call, found};

use crate::applying::parts_of;
use crate::exchange::direct;
use crate::parts::{Part, Parts};
use bc_core::CoreExp;
use bc_rules_defs::{Aim, Derivation, Mode, Rule, Table};

/// Whether the table has this rule.
fn in_table(table: Table, rule: Rule) -> bool
    ensures { result ≡ in_table_of table rule }
{
    match rule {
        Rule::J8 | Rule::J9 => match table {
            Table::One => false,
            Table::Two => true,
        },
        _ => true,
    }
}

/// Whether the code of a rule evaluates the right operand first, or the address of an assignment before its value.
pub fn turns(rule: Rule) -> bool
    ensures { result ≡ turns_of rule }
{
    match rule {
        Rule::V7 | Rule::V11 | Rule::V13 | Rule::V14 | Rule::V16 | Rule::A2 => true,
        _ => false,
    }
}

/// Whether an operator has a direct operand.
fn direct_side(e: &CoreExp) -> bool
    ensures { result ≡ has_direct_side (exp e.now) }
{
    match e {
        CoreExp::Bin(_, a, b) => direct(a) || direct(b),
        CoreExp::Num(_)
        | CoreExp::Frame(_)
        | CoreExp::Glob(_)
        | CoreExp::Place(_)
        | CoreExp::Load(_)
        | CoreExp::Neg(_)
        | CoreExp::Not(_)
        | CoreExp::Cond(_, _, _)
        | CoreExp::Call(_, _)
        | CoreExp::Valof(_) => false,
    }
}

/// Whether the rule's order of evaluation is allowed: it keeps the order of the operands, or they are free. `calls` says whether
/// the parts contain a call or a VALOF.
fn turns_freely(rule: Rule, calls: bool, e: &CoreExp) -> bool
    ensures { result ≡ turns_freely_of rule calls (exp e.now) }
{
    !(turns(rule) && calls) || direct_side(e)
}

/// Checks that this is a derivation of the expression for the aim, by the table. Returns None if it isn't, else whether the
/// expression contains a call or a VALOF.
///
/// Returning this saves a second walk over the operands to see whether they are free.
#[cycle(deriving)]
#[tactic(auto, using(crate::proofs::Fitting::no_table, crate::proofs::Fitting::no_parts, crate::proofs::Fitting::not_free, crate::proofs::Fitting::derives_it))]
pub fn derives(table: Table, d: &Derivation, aim: Aim, e: &CoreExp) -> Option<bool>
    ensures { result ≡ found (fits table (derivation d.now) aim (exp e.now)) (has_call (exp e.now)) }
{
    if !in_table(table, d.rule) {
        return None;
    }
    let calls = parts_derive(table, &d.parts, parts_of(d.rule, aim, e))?;
    if turns_freely(d.rule, calls, e) {
        Some(calls)
    } else {
        None
    }
}

/// Checks that these are derivations of the parts. Returns None if they aren't, else whether a part contains a call or a VALOF.
#[cycle(deriving)]
#[tactic(auto, using(crate::proofs::Fitting::leaf_misfit))]
pub fn parts_derive(table: Table, trees: &[Derivation], of: Parts) -> Option<bool>
    ensures { result ≡ found (parts_fit table (parts of.entry) (derivations trees.now)) (parts_call (parts of.entry)) }
{
    match of {
        Parts::NoRule => None,
        Parts::Leaf(valof) => { if trees.is_empty() { Some(valof) } else { None } }
        Parts::Single(a) => single(table, trees, a),
        Parts::Pair(a, b) => pair(table, trees, a, b),
        Parts::Triple(a, b, c) => triple(table, trees, a, b, c),
        Parts::Call(arguments, routine) => call(table, trees, arguments, routine),
    }
}

/// Whether `a` or `b` holds. It is a call so that its callers have no branch.
fn either(a: bool, b: bool) -> bool
    ensures { result ≡ (a || b) }
{
    a || b
}

/// Checks one part.
#[cycle(deriving)]
fn part(table: Table, d: &Derivation, a: Part) -> Option<bool>
    ensures { result ≡ found (fits table (derivation d.now) a.entry.aim (exp a.entry.of.now)) (has_call (exp a.entry.of.now)) }
{
    derives(table, d, a.aim, a.of)
}

/// Checks the part of a rule with one part.
#[cycle(deriving)]
#[tactic(auto, using(crate::proofs::Fitting::misfit_one, crate::proofs::Fitting::fit_one))]
fn single(table: Table, trees: &[Derivation], a: Part) -> Option<bool>
    ensures { result ≡ found (parts_fit table (single_part a.entry.aim (exp a.entry.of.now)) (derivations trees.now)) (has_call (exp a.entry.of.now)) }
{
    if trees.len() != 1 {
        return None;
    }
    part(table, &trees[0], a)
}

/// Checks the parts of a rule with two parts.
#[cycle(deriving)]
#[tactic(auto, using(crate::proofs::Fitting::misfit_two, crate::proofs::Fitting::pair_no_first, crate::proofs::Fitting::pair_no_second, crate::proofs::Fitting::pair_both))]
fn pair(table: Table, trees: &[Derivation], a: Part, b: Part) -> Option<bool>
    ensures { result ≡ found (parts_fit table (two_parts a.entry.aim (exp a.entry.of.now) b.entry.aim (exp b.entry.of.now)) (derivations trees.now))
        (parts_call (two_parts a.entry.aim (exp a.entry.of.now) b.entry.aim (exp b.entry.of.now))) }
{
    if trees.len() != 2 {
        return None;
    }
    let first = part(table, &trees[0], a)?;
    let second = part(table, &trees[1], b)?;
    Some(either(first, second))
}

/// Checks the parts of a rule with three parts.
#[cycle(deriving)]
#[tactic(auto, using(crate::proofs::Fitting::misfit_three, crate::proofs::Fitting::triple_no_first, crate::proofs::Fitting::triple_no_second, crate::proofs::Fitting::triple_no_third, crate::proofs::Fitting::triple_all))]
fn triple(table: Table, trees: &[Derivation], a: Part, b: Part, c: Part) -> Option<bool>
    ensures { result ≡ found (parts_fit table (three_parts a.entry.aim (exp a.entry.of.now) b.entry.aim (exp b.entry.of.now) c.entry.aim
        (exp c.entry.of.now)) (derivations trees.now))
        (parts_call (three_parts a.entry.aim (exp a.entry.of.now) b.entry.aim (exp b.entry.of.now) c.entry.aim (exp c.entry.of.now))) }
{
    if trees.len() != 3 {
        return None;
    }
    let first = part(table, &trees[0], a)?;
    let second = part(table, &trees[1], b)?;
    let third = part(table, &trees[2], c)?;
    Some(either(either(first, second), third))
}

/// Checks the arguments and the routine of a call.
#[cycle(deriving)]
#[tactic(auto, using(crate::proofs::Fitting::call_next, crate::proofs::Fitting::call_stops, crate::proofs::Fitting::call_short))]
fn call(
    table: Table,
    trees: &[Derivation],
    arguments: &[CoreExp],
    routine: &CoreExp,
) -> Option<bool>
    ensures { result ≡ found (parts_fit table (called 0 (args arguments.now) (exp routine.now)) (derivations trees.now)) true }
{
    let any = Aim::Gets(Mode::Any);
    for (i, argument) in arguments.iter().enumerate() {
        if i >= trees.len() {
            return None;
        }
        let _calls = derives(table, &trees[i], any, argument)?;
    }
    let n = arguments.len();
    if trees.len() <= n || trees.len() - n != 1 {
        return None;
    }
    let _calls = derives(table, &trees[n], any, routine)?;
    Some(true)
}
