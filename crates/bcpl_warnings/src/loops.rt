//! Warnings on FOR loops that do nothing or never end, and the numbers that one counts through.

use crate::calls::{check_large, is_negative};
use crate::found::Found;
use crate::habits::is_library_call;
use crate::known::Known;
use bc_word::Word;
use bcpl_catalogue::ids::{
    EMPTY_COUNT_DOWN, EMPTY_COUNT_UP, ENDLESS_COUNT_DOWN, ENDLESS_COUNT_UP, READ_LIMIT, STEP_ZERO,
};
use bcpl_index::{Form, Kind, Sort};

/// The numbers of a FOR.
#[derive(Clone, Copy)]
pub struct Counting {
    /// The node of the start.
    start_at: usize,
    /// The node of the limit.
    limit_at: usize,
    /// The node of the step, or of the limit if there is none.
    last_at: usize,
    start: Option<Word>,
    limit: Option<Word>,
    /// The step, 1 if there is none.
    step: Option<Word>,
}

/// The greatest number.
const MOST: u16 = 32767;

/// The least number.
const LEAST: u16 = 32768;

/// The word -1.
const MINUS_ONE: u16 = 65535;

/// The rank of a word among the signed numbers.
fn rank(word: Word) -> u16 {
    word.get().wrapping_add(LEAST)
}

/// The numbers of a FOR.
pub fn counting_of(known: &Known<'_, '_>, at: usize) -> Counting {
    let tree = known.tree;
    let start_at = tree.second(at);
    let limit_at = tree.third(at);
    let step_at = tree.end(limit_at);
    let has_step = !matches!(tree.form(step_at), Form::Block);
    Counting {
        start_at,
        limit_at,
        last_at: if has_step { step_at } else { limit_at },
        start: known.value(start_at),
        limit: known.value(limit_at),
        step: if has_step {
            known.value(step_at)
        } else {
            Some(Word::new(1))
        },
    }
}

impl Counting {
    /// The least and the greatest number that is counted, if the FOR has a round, all is constant, and the step is 1
    /// or -1.
    pub fn range(&self) -> Option<(Word, Word)> {
        let (start, limit, step) = (self.start?, self.limit?, self.step?);
        if step.get() == 1 && rank(start) <= rank(limit) {
            Some((start, limit))
        } else if step.get() == MINUS_ONE && rank(limit) <= rank(start) {
            Some((limit, start))
        } else {
            None
        }
    }

    /// Whether it counts up from a number greater than 0.
    pub fn is_above_zero(&self) -> bool {
        match (self.start, self.step) {
            (Some(start), Some(step)) => rank(start) > LEAST && rank(step) > LEAST,
            _ => false,
        }
    }

    /// Whether the start and the limit are written out, without names.
    fn is_literal(&self, known: &Known<'_, '_>) -> bool {
        for node in self.start_at..known.tree.end(self.limit_at) {
            if matches!(known.tree.form(node), Form::Name) {
                return false;
            }
        }
        true
    }

    /// Whether the start is a variable that always has the same value, the limit is written out, and each call of the
    /// routine comes to the FOR.
    fn starts_at_variable(&self, known: &Known<'_, '_>) -> bool {
        let is_variable = match known.kinds.names.at(self.start_at) {
            Some(declared) => declared.sort == Sort::Variable,
            None => false,
        };
        if !is_variable || !known.is_written(self.limit_at) {
            return false;
        }
        match known.routine_of(self.start_at) {
            Some(routine) => known.is_in_each_round(routine, known.tree.parent(self.start_at)),
            None => false,
        }
    }
}

/// `FOR I = 10 TO 1`: a FOR without a round.
fn check_nothing(known: &Known<'_, '_>, counting: &Counting) -> Option<Found> {
    let (start, limit, step) = (counting.start?, counting.limit?, counting.step?);
    let is_literal = counting.is_literal(known);
    if !is_literal && !counting.starts_at_variable(known) {
        return None;
    }
    let is_up = !is_negative(step) && step.get() != 0 && rank(start) > rank(limit);
    let is_down = is_negative(step) && rank(start) < rank(limit) && is_literal;
    if !is_up && !is_down {
        return None;
    }
    if let Some(found) = check_large(known, counting.limit_at) {
        return Some(found);
    }
    if let Some(found) = check_large(known, counting.start_at) {
        return Some(found);
    }
    let id = if is_up {
        EMPTY_COUNT_UP
    } else {
        EMPTY_COUNT_DOWN
    };
    let found = Found::new(id, counting.start_at).of(counting.limit_at);
    Some(found.to(counting.last_at))
}

/// The id of the finding that a FOR doesn't end.
fn endless(counting: &Counting) -> Option<u16> {
    let step = counting.step?;
    if step.get() == 0 {
        return Some(STEP_ZERO);
    }
    let limit = counting.limit?;
    if !is_negative(step) && limit.get() == MOST {
        Some(ENDLESS_COUNT_UP)
    } else if is_negative(step) && limit.get() == LEAST {
        Some(ENDLESS_COUNT_DOWN)
    } else {
        None
    }
}

/// Whether a node is a variable whose only value is a character that RDCH returned.
pub fn is_read_once(known: &Known<'_, '_>, at: usize) -> bool {
    let tree = known.tree;
    let Some(declared) = known.kinds.names.at(at) else {
        return false;
    };
    let definition = tree.parent(declared.node);
    let value = tree.second(definition);
    declared.sort == Sort::Variable
        && !declared.is_assigned
        && !declared.is_addressed
        && matches!(tree.form(value), Form::Call)
        && is_library_call(known, value, b"RDCH".as_slice())
}

/// `FOR I = 1 TO CH`: a FOR counts from a number to a character that was read.
fn check_read_limit(known: &Known<'_, '_>, counting: &Counting) -> Option<Found> {
    let limit = counting.limit_at;
    if known.is(counting.start_at, Kind::Number) && is_read_once(known, limit) {
        Some(Found::new(READ_LIMIT, limit))
    } else {
        None
    }
}

/// What is wrong with the numbers of a FOR.
pub fn check_for(known: &Known<'_, '_>, at: usize) -> Option<Found> {
    let counting = counting_of(known, at);
    if let Some(found) = check_nothing(known, &counting) {
        return Some(found);
    }
    if let Some(found) = check_read_limit(known, &counting) {
        return Some(found);
    }
    let id = endless(&counting)?;
    if known.flow.has_jump(known.tree, at) {
        return None;
    }
    Some(Found::new(id, counting.start_at).to(counting.last_at))
}
