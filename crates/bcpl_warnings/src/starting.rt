//! Warnings on what is wrong from the start: a loop whose condition ends it before its first round, and parameters of START.

use crate::arithmetic::signed;
use crate::found::Found;
use crate::hiding::is_read_from;
use crate::kinds::{is_relation, value_of};
use crate::known::Known;
use bc_parse_tree::BinaryOp;
use bc_word::Word;
use bcpl_catalogue::ids::{FALSE_FROM_START, PASSED_LIMIT, START_PARAMETER, TRUE_FROM_START};
use bcpl_index::{Form, Sort};

/// How many nodes between a declaration and a loop are searched.
const MOST: usize = 2000;

/// Whether something between a declaration and a loop, which has this index, may change the variable.
fn may_change(known: &Known<'_, '_>, from: usize, to: usize, index: usize) -> bool {
    let tree = known.tree;
    for at in from..to {
        let is_assigned = matches!(tree.form_of_parent(at), Form::Places)
            && known.kinds.names.index_at(at) == Some(index);
        if is_assigned || matches!(tree.form(at), Form::Label) {
            return true;
        }
    }
    false
}

/// The value that a variable named at a node has before the first round of a loop of the same block.
fn first_value(known: &Known<'_, '_>, at: usize, around: usize) -> Option<Word> {
    let tree = known.tree;
    let index = known.kinds.names.index_at(at)?;
    let declared = known.kinds.names.get(index)?;
    let block = tree.parent(tree.parent(around));
    let is_near = declared.sort == Sort::Variable
        && !declared.is_addressed
        && matches!(tree.form_of_parent(around), Form::Item)
        && matches!(tree.form(block), Form::Block)
        && tree.parent(tree.parent(tree.parent(declared.node))) == block
        && around.saturating_sub(declared.node) < MOST;
    if is_near && !may_change(known, declared.node, around, index) {
        declared.first.value()
    } else {
        None
    }
}

/// The value of an operand of a condition before the first round of a loop.
fn operand_value(known: &Known<'_, '_>, at: usize, around: usize) -> Option<Word> {
    if known.is_constant(at) {
        known.kinds.value(at)
    } else if matches!(known.tree.form(at), Form::Name) {
        first_value(known, at, around)
    } else {
        None
    }
}

/// The value of the condition of a WHILE or UNTIL before the first round, if it compares a variable and that is known.
fn first_condition(known: &Known<'_, '_>, at: usize) -> Option<bool> {
    let tree = known.tree;
    let condition = tree.first(at);
    let sign = match tree.form(condition) {
        Form::Bin(sign) if is_relation(sign) => sign,
        _ => return None,
    };
    if known.is_constant(condition) {
        return None;
    }
    let left = operand_value(known, tree.first(condition), at);
    let right = operand_value(known, tree.second(condition), at);
    let value = value_of(sign, left, right)?;
    Some(value.get() != 0)
}

/// A WHILE or UNTIL that has no round.
pub fn check_no_round(known: &Known<'_, '_>, at: usize) -> Option<Found> {
    let is_until = matches!(known.form(at), Form::Until);
    let is_true = first_condition(known, at)?;
    if is_true != is_until {
        return None;
    }
    let id = if is_until {
        TRUE_FROM_START
    } else {
        FALSE_FROM_START
    };
    Some(Found::new(id, known.tree.first(at)))
}

/// The step of the only assignment in a loop to the variable with this index, if that adds a number to it.
fn only_step(known: &Known<'_, '_>, at: usize, index: usize) -> Option<u16> {
    let tree = known.tree;
    let mut step = None;
    for node in at..tree.end(at) {
        let is_place = matches!(tree.form_of_parent(node), Form::Places)
            && known.kinds.names.index_at(node) == Some(index);
        if is_place && step.is_some() {
            return None;
        }
        if is_place {
            step = Some(added_at(known, tree.parent(tree.parent(node)), index)?);
        }
    }
    step
}

/// The number that an assignment adds to the variable with this index, if it does nothing else.
fn added_at(known: &Known<'_, '_>, assign: usize, index: usize) -> Option<u16> {
    let tree = known.tree;
    let (place, value) = (
        tree.first(tree.first(assign)),
        tree.first(tree.second(assign)),
    );
    let is_sum = tree.end(place) == tree.second(assign)
        && matches!(tree.form(value), Form::Bin(BinaryOp::Add))
        && known.kinds.names.index_at(tree.first(value)) == Some(index);
    match tree.form(tree.second(value)) {
        Form::Number(word) if is_sum && word.get() > 1 && word.get() <= 32767 => {
            Some(word.get())
        }
        _ => None,
    }
}

/// Whether the sign of a condition is the one by which a loop ends at a single value.
fn ends_at_value(known: &Known<'_, '_>, at: usize) -> bool {
    match (known.tree.form(at), known.tree.form(known.tree.first(at))) {
        (Form::Until, Form::Bin(BinaryOp::Equal)) => true,
        (Form::While, Form::Bin(BinaryOp::NotEqual)) => true,
        _ => false,
    }
}

/// The step with which the variable of a loop's condition passes the only value that ends the loop.
fn passing_step(known: &Known<'_, '_>, at: usize) -> Option<u16> {
    let tree = known.tree;
    let condition = tree.first(at);
    let (left, right) = (tree.first(condition), tree.second(condition));
    if !ends_at_value(known, at) || !known.is_written(right) {
        return None;
    }
    let index = known.kinds.names.index_at(left)?;
    let first = first_value(known, left, at)?;
    let limit = known.kinds.value(right)?;
    let step = only_step(known, tree.second(at), index)?;
    let distance = limit.get().wrapping_add(first.negated().get());
    if step != 0 && distance % step != 0 && signed(limit) > signed(first) {
        Some(step)
    } else {
        None
    }
}

/// A loop that ends at a value which its variable steps over.
pub fn check_passing(known: &Known<'_, '_>, at: usize) -> Option<Found> {
    let step = passing_step(known, at)?;
    if known.flow.has_jump(known.tree, at) {
        return None;
    }
    let condition = known.tree.first(at);
    let (left, right) = known.sides(condition);
    let found = Found::new(PASSED_LIMIT, condition).with(left, right);
    Some(found.counting(u64::from(step), 0))
}

/// Whether the section calls the routine with this index.
fn is_called(known: &Known<'_, '_>, index: usize) -> bool {
    let tree = known.tree;
    for call in &tree.marks().calls {
        if known.kinds.names.index_at(tree.first(*call)) == Some(index) {
            return true;
        }
    }
    false
}

/// The first parameter of the routine `at` that is read in it.
fn read_parameter(known: &Known<'_, '_>, at: usize) -> Option<usize> {
    let tree = known.tree;
    for node in tree.first(at)..tree.end(at) {
        if !matches!(tree.form(node), Form::Parameter) {
            return None;
        }
        let index = known.kinds.names.index_at(node)?;
        if is_read_from(known, tree.end(node), index, tree.end(at)) {
            return Some(node);
        }
    }
    None
}

/// Whether the routine `at`, which has this index, is the START of the program.
fn is_start(known: &Known<'_, '_>, at: usize, index: usize) -> bool {
    match known.kinds.names.get(index) {
        Some(declared) => declared.sets_global && known.tree.text(at) == b"START".as_slice(),
        None => false,
    }
}

/// A parameter of START that is read.
pub fn check_start(known: &Known<'_, '_>, at: usize) -> Option<Found> {
    let index = known.kinds.names.index_at(at)?;
    if !is_start(known, at, index) {
        return None;
    }
    let parameter = read_parameter(known, at)?;
    if is_called(known, index) {
        return None;
    }
    Some(Found::new(START_PARAMETER, parameter))
}
