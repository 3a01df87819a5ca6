//! Appends the parts of a rule to the expressions that wait to be read, in the order of the rule's code.

ghost use Rattle.std.specs.Prelude.{◌≡◌, ℕ, List, ◌≤◌, ◌+◌, ◌*◌, ◌^◌, ◌++◌, OnOk};
ghost use Rattle.bc_core.specs.Tree as tree;
ghost use Rattle.bc_core.specs.View.{exp, args};
ghost use Rattle.bc_core.specs.WellFormed.{nodes as nodes_in, nodes_of_args};
ghost use Rattle.bc_rules_defs.specs.declared.rule.Table.TheVariants.{Two};
ghost use Rattle.bc_rules_defs.specs.Rules.{end_with};
ghost use Rattle.bc_select_defs.specs.Readings.{readings, readings_of_all, two_taken, part_parts, pair_parts, cond_parts};
ghost use Rattle.bc_core.specs.Tree.{Exp, count};
ghost use Rattle.bc_select_defs.specs.Choices.{zero_number};
ghost use Rattle.bc_core.specs.Operand.{constant_of};
ghost use Rattle.bc_select_defs.specs.Chosen.{assign_parts};
ghost use Rattle.bc_select.specs.Ends.{EndsAt};
ghost use Rattle.bc_select.specs.Waiting.{Added};
ghost use Rattle.bc_select.specs.declared.node.PartNode.{PartNode};
ghost use Rattle.bc_select.specs.Vector.{vector, before, before_all};
ghost use Rattle.bc_select.specs.Reads.{own_parts, parts_for};

use crate::pending::{Site, Step, Waiting, wait};
use crate::table::Nodes;
use bc_core::{CoreExp, constant};
use bc_rules_defs::{Aim, Mode, Rule, Takes};
use bc_select_defs::is_zero_number;
use bc_word::Memory;

/// The aim of a value in mode Any.
pub const ANY: Aim = Aim::Gets(Mode::Any);

/// The position at which the nodes of an expression's parts end: just before its own node.
fn below(place: Site) -> Site
    ensures level { result.level ≡ place.level }
    ensures end { (nodes : List PartNode) (e : Exp) (s : ℕ) → EndsAt nodes place.end (vector e s) → EndsAt nodes result.end (before e s) }
{
    Site {
        level: place.level,
        end: place.end.saturating_sub(1),
    }
}

/// The index of the first node of the part whose nodes end at `end`.
#[inline(always)]
fn start(nodes: &Nodes, end: usize) -> usize
    ensures { (xs : List PartNode) (e : Exp) (s : ℕ) → EndsAt nodes.now end (xs ++ vector e s) → EndsAt nodes.now result xs }
{
    end.saturating_sub(nodes.count_at(end))
}

/// Appends the parts of a step to the waiting expressions. This and the functions below return `Memory` if an allocation failed.
#[tactic(auto, using(crate::proofs::Waits::added_nothing))]
pub fn parts<'a>(
    e: &'a CoreExp,
    nodes: &Nodes,
    step: Step,
    waiting: &mut Vec<Waiting<'a>>,
) -> Result<(), Memory>
    requires fits { step.place.level + 2 * nodes_in (exp e.now) ≤ 2 ^ 40 }
    requires nodes { EndsAt nodes.now step.place.end (vector (exp e.now) step.place.level) }
    ensures { OnOk result (Added nodes.now waiting.old.items waiting.new.items (parts_for (exp e.now) step.place.level step.aim step.rule)) }
{
    match (step.aim, step.rule) {
        (Aim::Gets(Mode::Any), Rule::V0) => {
            wait(e, step.place, Aim::Gets(Mode::Push), nodes, waiting)
        }
        (Aim::Jumps(_), Rule::J6) => wait(e, step.place, ANY, nodes, waiting),
        (Aim::Gets(Mode::Push), Rule::V1) | (Aim::Jumps(_), Rule::J7) => Ok(()),
        _ => own(e, nodes, step, waiting),
    }
}

/// The parts for the rules other than V0, V1, J6 and J7, by the form of the expression.
#[tactic(auto, using(bc_core::proofs::Rows::call_view, crate::proofs::Waits::added_nothing))]
fn own<'a>(
    e: &'a CoreExp,
    nodes: &Nodes,
    step: Step,
    waiting: &mut Vec<Waiting<'a>>,
) -> Result<(), Memory>
    requires fits { step.place.level + 2 * nodes_in (exp e.now) ≤ 2 ^ 40 }
    requires nodes { EndsAt nodes.now step.place.end (vector (exp e.now) step.place.level) }
    ensures { OnOk result (Added nodes.now waiting.old.items waiting.new.items (own_parts (exp e.now) step.place.level step.aim step.rule)) }
{
    let step = Step {
        place: below(step.place),
        ..step
    };
    match e {
        CoreExp::Num(_)
        | CoreExp::Frame(_)
        | CoreExp::Glob(_)
        | CoreExp::Place(_)
        | CoreExp::Valof(_) => Ok(()),
        CoreExp::Load(part) => one_read(part, nodes, step, waiting),
        CoreExp::Neg(part) => one_read(part, nodes, step, waiting),
        CoreExp::Not(part) => one_read(part, nodes, step, waiting),
        CoreExp::Bin(_, left, right) => pair_read(left, right, nodes, step, waiting),
        CoreExp::Cond(condition, this, that) => {
            cond_read(condition, Branches { this, that }, nodes, step, waiting)
        }
        CoreExp::Call(arguments, routine) => {
            call_read(arguments, routine, nodes, step.place, waiting)
        }
    }
}

/// The part of a form with one part. Its nodes end at the step's place.
#[tactic(auto, using(crate::proofs::Waits::added_nothing))]
fn one_read<'a>(
    part: &'a CoreExp,
    nodes: &Nodes,
    step: Step,
    waiting: &mut Vec<Waiting<'a>>,
) -> Result<(), Memory>
    requires fits { step.place.level + 2 * nodes_in (exp part.now) ≤ 2 ^ 40 }
    requires nodes { EndsAt nodes.now step.place.end (vector (exp part.now) step.place.level) }
    ensures { OnOk result (Added nodes.now waiting.old.items waiting.new.items (part_parts (readings Two (exp part.now) step.place.level) step.aim step.rule)) }
{
    match step.rule.takes(step.aim, false) {
        Takes::First(aim) => wait(part, step.place, aim, nodes, waiting),
        Takes::Nothing
        | Takes::Second(_)
        | Takes::InOrder(_, _)
        | Takes::Turned(_, _)
        | Takes::Choice(_)
        | Takes::Call => Ok(()),
    }
}

/// Which of two parts a rule takes, and the place at which the nodes of both end.
#[derive(Clone, Copy)]
struct Taken {
    takes: Takes,
    place: Site,
}

/// Two parts at the same level.
#[tactic(auto, using(crate::proofs::Ends::last_part, crate::proofs::Waits::added_nothing, crate::proofs::Waits::added_two))]
fn two_read<'a>(
    first: &'a CoreExp,
    second: &'a CoreExp,
    nodes: &Nodes,
    taken: Taken,
    waiting: &mut Vec<Waiting<'a>>,
) -> Result<(), Memory>
    requires fits { taken.place.level + 2 * (nodes_in (exp first.now) + nodes_in (exp second.now)) ≤ 2 ^ 40 }
    requires nodes { EndsAt nodes.now taken.place.end (vector (exp first.now) taken.place.level ++ vector (exp second.now) taken.place.level) }
    ensures { OnOk result (Added nodes.now waiting.old.items waiting.new.items (two_taken taken.takes (readings Two (exp first.now) taken.place.level) (readings Two (exp second.now) taken.place.level))) }
{
    let following = taken.place;
    let front = Site {
        level: following.level,
        end: start(nodes, following.end),
    };
    match taken.takes {
        Takes::Nothing | Takes::Choice(_) | Takes::Call => (),
        Takes::First(aim) => wait(first, front, aim, nodes, waiting)?,
        Takes::Second(aim) => wait(second, following, aim, nodes, waiting)?,
        Takes::InOrder(x, y) => {
            wait(first, front, x, nodes, waiting)?;
            wait(second, following, y, nodes, waiting)?;
        }
        Takes::Turned(x, y) => {
            wait(second, following, y, nodes, waiting)?;
            wait(first, front, x, nodes, waiting)?;
        }
    }
    Ok(())
}

/// The parts of a binary operator. Their nodes end at the step's place.
fn pair_read<'a>(
    left: &'a CoreExp,
    right: &'a CoreExp,
    nodes: &Nodes,
    step: Step,
    waiting: &mut Vec<Waiting<'a>>,
) -> Result<(), Memory>
    requires fits { step.place.level + 2 * (1 + nodes_in (exp left.now) + nodes_in (exp right.now)) ≤ 2 ^ 40 }
    requires nodes { EndsAt nodes.now step.place.end (vector (exp left.now) (step.place.level + 1) ++ vector (exp right.now) (step.place.level + 1)) }
    ensures { OnOk result (Added nodes.now waiting.old.items waiting.new.items (pair_parts (zero_number (constant_of (exp right.now))) (readings Two (exp left.now) (step.place.level + 1)) (readings Two (exp right.now) (step.place.level + 1)) step.aim step.rule)) }
{
    let taken = Taken {
        takes: step.rule.takes(step.aim, is_zero_number(constant(right))),
        place: Site {
            level: step.place.level + 1,
            end: step.place.end,
        },
    };
    two_read(left, right, nodes, taken, waiting)
}

/// The two values of `condition -> this, that`.
#[derive(Clone, Copy)]
struct Branches<'a> {
    this: &'a CoreExp,
    that: &'a CoreExp,
}

/// The parts of `condition -> this, that`. Their nodes end at the step's place.
#[tactic(auto, using(crate::proofs::Ends::last_part, crate::proofs::Waits::added_nothing, crate::proofs::Waits::added_three))]
fn cond_read<'a>(
    condition: &'a CoreExp,
    branches: Branches<'a>,
    nodes: &Nodes,
    step: Step,
    waiting: &mut Vec<Waiting<'a>>,
) -> Result<(), Memory>
    requires fits { step.place.level + 2 * (1 + nodes_in (exp condition.now) + nodes_in (exp branches.this.now) + nodes_in (exp branches.that.now)) ≤ 2 ^ 40 }
    requires nodes { EndsAt nodes.now step.place.end ((vector (exp condition.now) step.place.level ++ vector (exp branches.this.now) step.place.level) ++ vector (exp branches.that.now) step.place.level) }
    ensures { OnOk result (Added nodes.now waiting.old.items waiting.new.items (cond_parts (readings Two (exp condition.now) step.place.level) (readings Two (exp branches.entry.this.now) step.place.level) (readings Two (exp branches.entry.that.now) step.place.level) step.aim step.rule)) }
{
    let level = step.place.level;
    let that = step.place;
    let this = Site {
        level,
        end: start(nodes, that.end),
    };
    let test = Site {
        level,
        end: start(nodes, this.end),
    };
    match step.rule.takes(step.aim, false) {
        Takes::Choice(false) => {
            wait(condition, test, Aim::Jumps(false), nodes, waiting)?;
            wait(branches.this, this, ANY, nodes, waiting)?;
            wait(branches.that, that, ANY, nodes, waiting)?;
        }
        Takes::Choice(true) => {
            wait(condition, test, Aim::Jumps(true), nodes, waiting)?;
            wait(branches.that, that, ANY, nodes, waiting)?;
            wait(branches.this, this, ANY, nodes, waiting)?;
        }
        Takes::Nothing
        | Takes::First(_)
        | Takes::Second(_)
        | Takes::InOrder(_, _)
        | Takes::Turned(_, _)
        | Takes::Call => (),
    }
    Ok(())
}

/// The parts of a call. Their nodes end at this place, which has the level of the call.
fn call_read<'a>(
    arguments: &'a [CoreExp],
    routine: &'a CoreExp,
    nodes: &Nodes,
    place: Site,
    waiting: &mut Vec<Waiting<'a>>,
) -> Result<(), Memory>
    requires fits { place.level + 2 * nodes_in (tree.Call (args arguments.now) (exp routine.now)) ≤ 2 ^ 40 }
    requires nodes { EndsAt nodes.now place.end (before (tree.Call (args arguments.now) (exp routine.now)) place.level) }
    ensures { OnOk result (Added nodes.now waiting.old.items waiting.new.items (end_with (readings_of_all Two (args arguments.now) (place.level + 2)) (readings Two (exp routine.now) (place.level + 2 + count (args arguments.now))).any)) }
{
    let level = place.level + 2;
    let following = Site {
        level: level + arguments.len() as u64,
        end: place.end,
    };
    let front = Site {
        level,
        end: start(nodes, place.end),
    };
    all_read(arguments, nodes, front, waiting)?;
    wait(routine, following, ANY, nodes, waiting)
}

/// The arguments of a call. Their nodes end at this place, which has the level of the first.
#[tactic(auto, using(crate::proofs::Waits::added_nothing))]
fn all_read<'a>(
    arguments: &'a [CoreExp],
    nodes: &Nodes,
    place: Site,
    waiting: &mut Vec<Waiting<'a>>,
) -> Result<(), Memory>
    requires fits { place.level + 2 * nodes_of_args (args arguments.now) ≤ 2 ^ 40 }
    requires nodes { EndsAt nodes.now place.end (before_all (args arguments.now) place.level) }
    ensures { OnOk result (Added nodes.now waiting.old.items waiting.new.items (readings_of_all Two (args arguments.now) place.level)) }
{
    let Some((last, others)) = arguments.split_last() else {
        return Ok(());
    };
    let following = Site {
        level: place.level + others.len() as u64,
        end: place.end,
    };
    let front = Site {
        level: place.level,
        end: start(nodes, place.end),
    };
    all_read(others, nodes, front, waiting)?;
    wait(last, following, ANY, nodes, waiting)
}

/// The parts of an assignment. Both sides are at the step's level.
pub fn sides_read<'a>(
    value: &'a CoreExp,
    address: &'a CoreExp,
    nodes: &Nodes,
    step: Step,
    waiting: &mut Vec<Waiting<'a>>,
) -> Result<(), Memory>
    requires fits { step.place.level + 2 * (nodes_in (exp value.now) + nodes_in (exp address.now)) ≤ 2 ^ 40 }
    requires nodes { EndsAt nodes.now step.place.end (vector (exp value.now) step.place.level ++ vector (exp address.now) step.place.level) }
    ensures { OnOk result (Added nodes.now waiting.old.items waiting.new.items (assign_parts (readings Two (exp value.now) step.place.level) (readings Two (exp address.now) step.place.level) step.rule)) }
{
    let taken = Taken {
        takes: step.rule.takes(ANY, false),
        place: step.place,
    };
    two_read(value, address, nodes, taken, waiting)
}
