//! Warnings on formats of WRITEF: arguments of another kind than a letter writes, too many of them, and a percent sign
//! that is lost.

use crate::calls::{arguments, found_other, is_other, name_of};
use crate::found::Found;
use crate::known::Known;
use bc_word::Memory;
use bcpl_catalogue::ids::{
    FORMAT_OF_MANY, FORMAT_OF_OTHER_KIND, LOST_PERCENT, MISPLACED_WIDTH, SURPLUS_ARGUMENT,
    SURPLUS_ARGUMENTS,
};
use bcpl_index::{Form, Sort, Wanted};
use bcpl_messages::Draft;
use std::alloc::Global;

/// The number of EXTHDR's WRITEF.
const FURTHER_NUMBER: u16 = 30;

/// The letters of LIBHDR's WRITEF.
const BASIC: &[u8] = b"NSC";

/// The letters of EXTHDR's WRITEF that a width follows.
const WITH_WIDTH: &[u8] = b"IUOXT";

/// The state of a scan of a format.
#[derive(Clone, Copy)]
enum Reading {
    Plain,
    /// After the `*` of an escape.
    Escape,
    /// After a `%`.
    Percent,
    /// After a letter that a width follows.
    Width,
}

/// What a format does.
#[derive(Drop)]
struct Format {
    /// The letters that write an argument each, in upper case.
    letters: Vec<u8>,
    /// The first sign after a `%` that isn't written as the author may think.
    lost: Option<u8>,
    /// Whether some letter isn't known, or takes arguments in another order.
    is_other: bool,
    /// Whether it is one of EXTHDR's WRITEF.
    is_further: bool,
}

impl Format {
    /// The format that a string spells. Returns `Memory` if an allocation fails.
    fn of(alloc: Global, text: &[u8], is_further: bool) -> Result<Format, Memory> {
        let mut format = Format {
            letters: Vec::new(alloc),
            lost: None,
            is_other: false,
            is_further,
        };
        let mut reading = Reading::Plain;
        let inside = match text.get(1..text.len().saturating_sub(1)) {
            Some(inside) => inside,
            None => b"",
        };
        for byte in inside {
            reading = match (reading, *byte) {
                (Reading::Escape, _) => Reading::Plain,
                (Reading::Percent, sign) => format.sign(sign, is_further)?,
                (_, b'*') => Reading::Escape,
                (Reading::Plain, b'%') => Reading::Percent,
                (Reading::Plain | Reading::Width, _) => Reading::Plain,
            };
        }
        Ok(format)
    }

    /// Adds the sign after a `%`.
    fn sign(&mut self, sign: u8, is_further: bool) -> Result<Reading, Memory> {
        let capital = sign.to_ascii_uppercase();
        let has_width = is_further && WITH_WIDTH.contains(&capital);
        let letter = if is_further { capital } else { sign };
        if has_width || BASIC.contains(&letter) {
            self.letters.push(capital)?;
        } else if sign.is_ascii_alphabetic() || is_further && (sign == b'+' || sign == b'-') {
            self.is_other = true;
        } else if sign != b'%' && self.lost.is_none() {
            self.lost = Some(sign);
        }
        Ok(match sign {
            _ if has_width => Reading::Width,
            b'*' => Reading::Escape,
            _ => Reading::Plain,
        })
    }
}

/// What a letter writes.
fn wanted_by(letter: u8) -> Wanted {
    match letter {
        b'S' | b'T' => Wanted::String,
        b'C' => Wanted::Character,
        b'N' | b'I' | b'U' => Wanted::Number,
        _ => Wanted::Anything,
    }
}

/// The format of a call of the library's WRITEF; `None` if the call is of something else, or memory ran out.
fn format_of(draft: &mut Draft, known: &Known<'_, '_>, at: usize) -> Option<Format> {
    let tree = known.tree;
    let Some(declared) = known.kinds.names.at(tree.first(at)) else {
        return None;
    };
    if declared.sort != Sort::Global
        || tree.text(declared.node) != b"WRITEF".as_slice()
        || declared.is_assigned
        || tree.file(declared.node) >= known.library
        || tree.second(at) >= tree.end(at)
    {
        return None;
    }
    let Form::String = tree.form(tree.second(at)) else {
        return None;
    };
    let text = tree.text(tree.second(at));
    let is_further = declared.number == Some(FURTHER_NUMBER);
    match Format::of(draft.alloc(), text, is_further) {
        Ok(format) => Some(format),
        Err(_) => {
            draft.refuse();
            None
        }
    }
}

/// An argument that a format's letter writes as something else.
fn check_letters(known: &Known<'_, '_>, at: usize, letters: &[u8]) -> Option<Found> {
    let end = known.tree.end(at);
    let mut argument = known.tree.end(known.tree.second(at));
    for letter in letters {
        if argument >= end {
            return None;
        }
        let wanted = wanted_by(*letter);
        if is_other(wanted, &known.kinds.fact(argument)) {
            let found = found_other(known, FORMAT_OF_OTHER_KIND, argument, wanted);
            let found = found.saying(name_of(wanted));
            return Some(found.counting(u64::from(*letter), 0));
        }
        argument = known.tree.end(argument);
    }
    None
}

/// Arguments that a format doesn't write.
fn check_surplus(known: &Known<'_, '_>, at: usize, taken: usize) -> Option<Found> {
    let given = arguments(known, at).saturating_sub(1);
    if given <= taken {
        return None;
    }
    let id = if given == 1 {
        SURPLUS_ARGUMENT
    } else {
        SURPLUS_ARGUMENTS
    };
    let found = Found::new(id, known.tree.second(at));
    Some(found.counting(taken as u64, given as u64))
}

/// How many arguments LIBHDR's WRITEF passes to a format.
const MOST: usize = 4;

/// How many EXTHDR's WRITEF passes.
const FURTHER_MOST: usize = 11;

/// A format that takes more arguments than WRITEF has.
fn check_many(known: &Known<'_, '_>, at: usize, format: &Format) -> Option<Found> {
    let taken = format.letters.len();
    let most = if format.is_further {
        FURTHER_MOST
    } else {
        MOST
    };
    if taken <= most {
        return None;
    }
    let found = Found::new(FORMAT_OF_MANY, known.tree.second(at));
    Some(found.counting(taken as u64, most as u64))
}

/// A width before a letter, as in %5N, if an argument isn't written because of it.
fn check_width(known: &Known<'_, '_>, at: usize, format: &Format) -> Option<Found> {
    let digit = format.lost?;
    let given = arguments(known, at).saturating_sub(1);
    if !digit.is_ascii_digit() || given <= format.letters.len() {
        return None;
    }
    let found = Found::new(MISPLACED_WIDTH, known.tree.second(at));
    Some(found.counting(u64::from(digit), 0))
}

/// A percent sign that is lost.
fn check_lost(known: &Known<'_, '_>, at: usize, format: &Format) -> Option<Found> {
    let lost = u64::from(format.lost?);
    Some(Found::new(LOST_PERCENT, known.tree.second(at)).counting(lost, 0))
}

/// The format of a call. `draft` remembers a failed allocation.
pub fn check_format(draft: &mut Draft, known: &Known<'_, '_>, at: usize) -> Option<Found> {
    let format = format_of(draft, known, at)?;
    if format.is_other {
        return None;
    }
    if let Some(found) = check_letters(known, at, format.letters.as_slice()) {
        return Some(found);
    }
    if let Some(found) = check_many(known, at, &format) {
        return Some(found);
    }
    if let Some(found) = check_width(known, at, &format) {
        return Some(found);
    }
    if let Some(found) = check_surplus(known, at, format.letters.len()) {
        return Some(found);
    }
    check_lost(known, at, &format)
}
