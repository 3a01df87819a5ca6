//! Finds the texts of a finding.

use crate::calls::CALLS;
use crate::commands::COMMANDS;
use crate::values::VALUES;

/// What is said of a finding. `^` is on both sides of each hole.
#[derive(Clone, Copy)]
pub struct Texts {
    /// What is wrong.
    pub says: &'static str,
    /// What to do about it.
    pub help: &'static str,
    /// What is at the related place, the node that fills hole 2; empty if there is none.
    pub note: &'static str,
}

/// What separates the texts of a row.
const BETWEEN: &str = "@@";

/// The line with this number of a text, counted from 0 after the first one, which is empty; empty if there is none.
fn line_of(text: &'static str, number: u16) -> &'static str {
    let mut left = number.saturating_add(1);
    for line in text.split("\n") {
        if left == 0 {
            return line;
        }
        left = left.saturating_sub(1);
    }
    ""
}

/// The texts of an area. Its ids begin at a multiple of 100.
fn area_of(id: u16) -> &'static str {
    match id / 100 {
        0 => VALUES,
        1 => CALLS,
        _ => COMMANDS,
    }
}

/// The texts of the finding with this id; empty ones if there is none.
pub fn texts_of(id: u16) -> Texts {
    let mut texts = Texts {
        says: "",
        help: "",
        note: "",
    };
    let mut at: usize = 0;
    for part in line_of(area_of(id), id % 100).split(BETWEEN) {
        match at {
            0 => texts.says = part,
            1 => texts.help = part,
            _ => texts.note = part,
        }
        at = at.saturating_add(1);
    }
    texts
}
