//! Warnings on reading: a loop that waits for a character that may not come, the end of the input that is written as a
//! character, and a choice that reads another character in each condition.

use crate::enclosing::condition_of;
use crate::found::Found;
use crate::habits::{is_library_call, reads_character};
use crate::known::Known;
use bc_parse_tree::BinaryOp;
use bcpl_catalogue::ids::{SECOND_READ, UNENDED_UNTIL, UNENDED_WHILE, WRITTEN_END};
use bcpl_index::{Form, Tree};

/// The name of what RDCH returns at the end of the input.
const END: &[u8] = b"ENDSTREAMCH";

/// Whether a loop goes on until its condition is true, rather than while it is.
fn is_until(tree: &Tree<'_>, at: usize) -> bool {
    matches!(tree.form(at), Form::Until | Form::RepeatUntil)
}

/// The sign by which a condition compares what ends the loop.
fn ending_sign(is_until: bool) -> BinaryOp {
    if is_until {
        BinaryOp::Equal
    } else {
        BinaryOp::NotEqual
    }
}

/// Whether a node compares a variable with a character that is written out.
fn is_character_test(known: &Known<'_, '_>, at: usize) -> bool {
    let (left, right) = known.sides(at);
    matches!(known.form(left), Form::Name)
        && known.kind(left).is_plain()
        && matches!(known.form(right), Form::Character(_))
}

/// Whether a node of a condition is one of those that wait for characters, and for nothing else.
fn is_waiting_part(known: &Known<'_, '_>, at: usize, is_until: bool) -> bool {
    let joining = if is_until {
        BinaryOp::Or
    } else {
        BinaryOp::And
    };
    match known.tree.form(at) {
        Form::Bin(sign) if sign == joining => true,
        Form::Bin(sign) if sign == ending_sign(is_until) => is_character_test(known, at),
        // only the operands of these
        Form::Name | Form::Character(_) => {
            matches!(known.tree.form_of_parent(at), Form::Bin(sign) if sign != joining)
        }
        _ => false,
    }
}

/// The variable that a loop compares with characters, if it ends only when one of these is read.
fn waiting_variable(known: &Known<'_, '_>, condition: usize, is_until: bool) -> Option<usize> {
    let tree = known.tree;
    let mut variable = None;
    for node in condition..tree.end(condition) {
        if !is_waiting_part(known, node, is_until) {
            return None;
        }
        if matches!(tree.form(node), Form::Name) {
            variable = Some(node);
        }
    }
    variable
}

/// Whether a name in a node is ENDSTREAMCH.
fn has_end(tree: &Tree<'_>, at: usize) -> bool {
    for node in at..tree.end(at) {
        if matches!(tree.form(node), Form::Name) && tree.text(node) == END {
            return true;
        }
    }
    false
}

/// Whether an item is `CH := RDCH()`, where CH is the variable with this index.
fn is_read_item(known: &Known<'_, '_>, item: usize, index: usize) -> bool {
    let tree = known.tree;
    let assign = tree.first(item);
    let (place, value) = (
        tree.first(tree.first(assign)),
        tree.first(tree.second(assign)),
    );
    matches!(tree.form(item), Form::Item)
        && matches!(tree.form(assign), Form::Assign)
        && matches!(tree.form(place), Form::Name)
        && known.kinds.names.index_at(place) == Some(index)
        && matches!(tree.form(value), Form::Call)
        && is_library_call(known, value, b"RDCH".as_slice())
}

/// Whether an item in a loop is `CH := RDCH()`, where CH is the variable with this index.
fn has_read_item(known: &Known<'_, '_>, at: usize, index: usize) -> bool {
    for node in at..known.tree.end(at) {
        if is_read_item(known, node, index) {
            return true;
        }
    }
    false
}

/// A loop that reads until a certain character comes, and doesn't end at the end of the input.
fn check_waiting(known: &Known<'_, '_>, at: usize) -> Option<Found> {
    let tree = known.tree;
    let condition = condition_of(tree, at)?;
    let is_until = is_until(tree, at);
    let variable = waiting_variable(known, condition, is_until)?;
    let index = known.kinds.names.index_at(variable)?;
    if known.flow.has_jump(tree, at)
        || known.kinds.names.has_finish
        || has_end(tree, at)
        || !has_read_item(known, at, index)
    {
        return None;
    }
    let id = if is_until {
        UNENDED_UNTIL
    } else {
        UNENDED_WHILE
    };
    Some(Found::new(id, condition).of(variable))
}

/// The variable that a loop compares with ENDSTREAMCH, if that is all of its condition.
fn ended_variable(known: &Known<'_, '_>, at: usize) -> Option<usize> {
    let tree = known.tree;
    let condition = condition_of(tree, at)?;
    let is_ending = match tree.form(condition) {
        Form::Bin(sign) => sign == ending_sign(is_until(tree, at)),
        _ => false,
    };
    let (left, right) = (tree.first(condition), tree.second(condition));
    if is_ending && matches!(tree.form(left), Form::Name) && has_end(tree, right) {
        known.kinds.names.index_at(left)
    } else {
        None
    }
}

/// The argument of an item that is `WRCH(CH)`, where CH is the variable with this index.
fn written_at(known: &Known<'_, '_>, item: usize, index: usize) -> Option<usize> {
    let tree = known.tree;
    let command = tree.first(item);
    let call = tree.first(command);
    let argument = tree.second(call);
    let is_written = matches!(tree.form(item), Form::Item)
        && matches!(tree.form(command), Form::Do)
        && is_library_call(known, call, b"WRCH".as_slice())
        && argument < tree.end(call)
        && matches!(tree.form(argument), Form::Name)
        && known.kinds.names.index_at(argument) == Some(index);
    if is_written { Some(argument) } else { None }
}

/// The argument of the WRCH in this block that writes what its first item reads into the variable with this index.
fn written_after_read(known: &Known<'_, '_>, block: usize, index: usize) -> Option<usize> {
    let tree = known.tree;
    let end = tree.end(block);
    let first = tree.first(block);
    if !matches!(tree.form(block), Form::Block) || !is_read_item(known, first, index) {
        return None;
    }
    let mut item = tree.end(first);
    for _ in first..end {
        if item >= end || has_read_item(known, item, index) {
            break;
        }
        if let Some(argument) = written_at(known, item, index) {
            return Some(argument);
        }
        item = tree.end(item);
    }
    None
}

/// A loop whose last round writes ENDSTREAMCH.
fn check_written_end(known: &Known<'_, '_>, at: usize) -> Option<Found> {
    let tree = known.tree;
    let body = match tree.form(at) {
        Form::While | Form::Until => tree.second(at),
        _ => tree.first(at),
    };
    let index = ended_variable(known, at)?;
    let argument = written_after_read(known, body, index)?;
    if known.flow.has_jump(tree, at) {
        return None;
    }
    Some(Found::new(WRITTEN_END, argument))
}

/// A loop that reads and doesn't heed the end of the input.
pub fn check_end_of_input(known: &Known<'_, '_>, at: usize) -> Option<Found> {
    if !reads_character(known, at) {
        return None;
    }
    if let Some(found) = check_waiting(known, at) {
        return Some(found);
    }
    check_written_end(known, at)
}

/// Whether a node compares a character that it reads with one that is written out.
fn is_reading_test(known: &Known<'_, '_>, at: usize) -> bool {
    let (left, right) = known.sides(at);
    matches!(known.form(at), Form::Bin(BinaryOp::Equal))
        && matches!(known.form(left), Form::Call)
        && is_library_call(known, left, b"RDCH".as_slice())
        && matches!(known.form(right), Form::Character(_))
}

/// `TEST RDCH() = 'A' THEN .. ELSE IF RDCH() = 'B'`: each condition reads another character.
pub fn check_second_read(known: &Known<'_, '_>, at: usize) -> Option<Found> {
    let tree = known.tree;
    let choice = tree.first(tree.first(tree.third(at)));
    let test = tree.first(choice);
    let is_choice = matches!(tree.form(choice), Form::Test | Form::If)
        && matches!(tree.form_of_parent(choice), Form::Item);
    if !is_choice || !is_reading_test(known, tree.first(at)) || !is_reading_test(known, test) {
        return None;
    }
    Some(Found::new(SECOND_READ, test))
}
