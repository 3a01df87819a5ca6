//! The warnings on the mains of an accepted program: those that the tokens show, and those on how values are used.

use crate::addresses::{check_assignment, check_result};
use crate::arithmetic::{
    check_compared_digit, check_digit, check_digit_cases, check_fraction, check_product,
    check_total,
};
use crate::calls::check_call;
use crate::conditions::{check_dyadic, check_load, check_name, check_not, is_not};
use crate::counts::check_lost_count;
use crate::crossing::check_crossing;
use crate::endless::warns_of_endless;
use crate::finishing::check_finish;
use crate::format_arguments::check_format;
use crate::found::{Found, says};
use crate::habits::{
    check_breaks, check_character_test, check_first_byte, check_lost_vector, check_two_reads,
    check_unused_value,
};
use crate::hiding::{check_copies, check_hiding, check_same_counter};
use crate::known::Known;
use crate::lengths::check_length;
use crate::lists::{check_cases, check_valof};
use crate::loops::check_for;
use crate::operands::{check_counted_truth, check_shifted_relation};
use crate::own_values::check_own_value;
use crate::packing::check_unpacked;
use crate::passed::{check_called_variable, check_passed_address};
use crate::reading::{check_end_of_input, check_second_read};
use crate::recursions::check_recursion;
use crate::rounds::check_one_round;
use crate::starting::{check_no_round, check_passing, check_start};
use crate::streams::check_stream;
use crate::subscripts::{check_divisor, check_index, check_shift};
use crate::swaps::check_swap;
use crate::warning::warnings;
use bc_build::Parsed;
use bc_lex::Source;
use bc_parse_tree::{BinaryOp, UnaryOp};
use bc_word::Memory;
use bcpl_index::Form;
use bcpl_messages::{Draft, Message, Named, message_lines};
use indexmap::IndexSet;
use std::alloc::Global;

/// At most this many warnings are printed.
const MOST: usize = 10;

/// A sum.
fn check_sum(known: &Known<'_, '_>, at: usize) -> Option<Found> {
    if let Some(found) = check_digit(known, at) {
        return Some(found);
    }
    if let Some(found) = check_total(known, at) {
        return Some(found);
    }
    check_counted_truth(known, at)
}

/// A quotient or remainder.
fn check_division(known: &Known<'_, '_>, at: usize, sign: BinaryOp) -> Option<Found> {
    if let Some(found) = check_divisor(known, at) {
        return Some(found);
    }
    if sign == BinaryOp::Divide {
        check_fraction(known, at)
    } else {
        None
    }
}

/// A product, or a shift, of which an operand may be a relation.
fn check_scaling(known: &Known<'_, '_>, at: usize, sign: BinaryOp) -> Option<Found> {
    if sign == BinaryOp::Multiply {
        return match check_product(known, at) {
            Some(found) => Some(found),
            None => check_counted_truth(known, at),
        };
    }
    match check_shifted_relation(known, at) {
        Some(found) => Some(found),
        None => check_shift(known, at),
    }
}

/// An operator with two operands.
fn check_operator(known: &Known<'_, '_>, at: usize, sign: BinaryOp) -> Option<Found> {
    if let Some(found) = check_dyadic(known, at, sign) {
        return Some(found);
    }
    if let Some(found) = check_compared_digit(known, at, sign) {
        return Some(found);
    }
    match sign {
        BinaryOp::Multiply | BinaryOp::ShiftLeft | BinaryOp::ShiftRight => {
            check_scaling(known, at, sign)
        }
        BinaryOp::Add => check_sum(known, at),
        BinaryOp::Index => check_index(known, at),
        BinaryOp::Divide | BinaryOp::Remainder => check_division(known, at, sign),
        _ => None,
    }
}

/// A call, for the vectors that it passes, its name, and the routine that it is in.
fn check_further_call(known: &Known<'_, '_>, at: usize) -> Option<Found> {
    if let Some(found) = check_first_byte(known, at) {
        return Some(found);
    }
    if let Some(found) = check_unpacked(known, at) {
        return Some(found);
    }
    if let Some(found) = check_passed_address(known, at) {
        return Some(found);
    }
    if let Some(found) = check_called_variable(known, at) {
        return Some(found);
    }
    if let Some(found) = check_length(known, at) {
        return Some(found);
    }
    check_recursion(known, at)
}

/// A call. `draft` remembers a failed allocation.
fn check_any_call(draft: &mut Draft, known: &Known<'_, '_>, at: usize) -> Option<Found> {
    if let Some(found) = check_call(known, at) {
        return Some(found);
    }
    if let Some(found) = check_format(draft, known, at) {
        return Some(found);
    }
    check_further_call(known, at)
}

/// How often a WHILE or UNTIL comes to its body.
fn check_rounds(known: &Known<'_, '_>, at: usize) -> Option<Found> {
    if let Some(found) = check_no_round(known, at) {
        return Some(found);
    }
    if let Some(found) = check_one_round(known, at) {
        return Some(found);
    }
    check_passing(known, at)
}

/// What a WHILE or UNTIL reads.
fn check_reads(known: &Known<'_, '_>, at: usize) -> Option<Found> {
    match check_two_reads(known, at) {
        Some(found) => Some(found),
        None => check_end_of_input(known, at),
    }
}

/// Adds a warning on a WHILE or UNTIL.
fn warn_of_loop(draft: &mut Draft, known: &Known<'_, '_>, at: usize) {
    if !says(draft, known, check_rounds(known, at)) && !warns_of_endless(draft, known, at) {
        says(draft, known, check_reads(known, at));
    }
}

/// Adds a warning on a REPEATWHILE or REPEATUNTIL.
fn warn_of_repeat(draft: &mut Draft, known: &Known<'_, '_>, at: usize) {
    if !warns_of_endless(draft, known, at) {
        says(draft, known, check_end_of_input(known, at));
    }
}

/// A SWITCHON.
fn check_switch(known: &Known<'_, '_>, at: usize) -> Option<Found> {
    if let Some(found) = check_breaks(known, at) {
        return Some(found);
    }
    if let Some(found) = check_digit_cases(known, at) {
        return Some(found);
    }
    check_cases(known, at)
}

/// A definition of variables.
fn check_variables(known: &Known<'_, '_>, at: usize) -> Option<Found> {
    if let Some(found) = check_own_value(known, at) {
        return Some(found);
    }
    if let Some(found) = check_stream(known, at) {
        return Some(found);
    }
    check_lost_count(known, at)
}

/// A FOR.
fn check_counting(known: &Known<'_, '_>, at: usize) -> Option<Found> {
    if let Some(found) = check_for(known, at) {
        return Some(found);
    }
    if let Some(found) = check_one_round(known, at) {
        return Some(found);
    }
    check_same_counter(known, at)
}

/// An assignment.
fn check_assigned(known: &Known<'_, '_>, at: usize) -> Option<Found> {
    if let Some(found) = check_assignment(known, at) {
        return Some(found);
    }
    if let Some(found) = check_crossing(known, at) {
        return Some(found);
    }
    check_lost_vector(known, at)
}

/// A command or a declaration.
fn check_command(known: &Known<'_, '_>, at: usize, form: Form) -> Option<Found> {
    match form {
        Form::If => check_swap(known, at),
        Form::Test => check_second_read(known, at),
        Form::SwitchOn => check_switch(known, at),
        Form::Do => match check_unused_value(known, at) {
            Some(found) => Some(found),
            None => check_finish(known, at),
        },
        Form::For => check_counting(known, at),
        Form::Assign => check_assigned(known, at),
        Form::ResultIs => check_result(known, at),
        Form::Variable => check_hiding(known, at),
        Form::Variables => check_variables(known, at),
        Form::Routine => match check_copies(known, at) {
            Some(found) => Some(found),
            None => check_start(known, at),
        },
        _ => None,
    }
}

/// An expression other than a call.
fn check_expression(known: &Known<'_, '_>, at: usize, form: Form) -> Option<Found> {
    match form {
        Form::Bin(sign) => check_operator(known, at, sign),
        Form::Unary(sign) if is_not(sign) => check_not(known, at),
        Form::Unary(UnaryOp::Load) => check_load(known, at),
        Form::Name => match check_name(known, at) {
            Some(found) => Some(found),
            None => check_character_test(known, at),
        },
        Form::Valof => check_valof(known, at),
        _ => check_command(known, at, form),
    }
}

/// Whether there may be a warning on a node of this form. Most nodes have one of those that are listed here.
pub(crate) fn may_be_warned_of(form: Form) -> bool {
    !matches!(
        form,
        Form::Number(_)
            | Form::Character(_)
            | Form::String
            | Form::Places
            | Form::Values
            | Form::Block
            | Form::Item
            | Form::Case
            | Form::Let
            | Form::Cond
            | Form::EndCase
    )
}

/// Adds the first warning that applies to a node, which has this form.
pub(crate) fn warn_of_use(draft: &mut Draft, known: &Known<'_, '_>, at: usize, form: Form) {
    let found = match form {
        Form::While | Form::Until => return warn_of_loop(draft, known, at),
        Form::RepeatWhile | Form::RepeatUntil => return warn_of_repeat(draft, known, at),
        Form::Call => check_any_call(draft, known, at),
        _ => check_expression(known, at, form),
    };
    says(draft, known, found);
}

/// The warnings on the mains of an accepted program, in text order. `parsed` is what the mains were parsed to, in their
/// order. The first `library` sources are the library's, and get no warnings. Returns `Memory` if an allocation fails.
pub fn all_warnings<'s>(
    alloc: Global,
    sources: &[Source<'s>],
    library: usize,
    mains: &[usize],
    parsed: &[Parsed<'s>],
) -> Result<Vec<Message>, Memory> {
    let mut messages = warnings(alloc, sources, library, mains, parsed)?;
    messages.sort_by_key(|message| place_of(message))?;
    Ok(messages)
}

/// Where a message is: its file, and the first and the last byte.
fn place_of(message: &Message) -> (usize, usize, usize) {
    match message.span {
        Some(span) => (span.file, span.start, span.end),
        None => (0, 0, 0),
    }
}

/// The lines of these warnings: ten at most, followed by their number if there are more. Those at the place of an
/// earlier one are left out. Returns `Memory` if an allocation fails.
pub fn warning_lines(
    alloc: Global,
    named: Named<'_, '_>,
    messages: &[Message],
) -> Result<String, Memory> {
    let mut places: IndexSet<(usize, usize, usize)> = IndexSet::new(alloc);
    let mut lines = String::new(alloc);
    for message in messages {
        if places.insert(place_of(message))? && places.len() <= MOST {
            let text = message_lines(alloc, named, message)?;
            lines.push_str(text.as_str())?;
        }
    }
    let count = places.len();
    if count > MOST {
        writeln!(lines, "{count} warnings")?;
    }
    Ok(lines)
}
