//! A line of a source with a mark below a part of it.

use crate::line::Line;
use crate::signs::{Sign, signs_of};
use bc_word::Memory;
use std::alloc::Global;
use std::fmt;

/// The most columns of a line that are shown.
const MOST: usize = 88;

/// How many characters before the mark are shown of a line that is too long.
const IN_FRONT: usize = 40;

/// How many bytes of a line around the beginning of the mark are read at most, on each side. They have more characters than
/// are shown.
const NEAR: usize = 400;

/// A line of a source with a mark below a stretch of it, displayed as two lines of text. A line that is too long is cut
/// off around the stretch.
#[derive(Drop)]
pub struct Excerpt {
    number: usize,
    /// What is shown of the line.
    shown: Vec<Sign>,
    /// Whether characters before these are omitted.
    is_cut_before: bool,
    /// Whether characters after these are omitted.
    is_cut_after: bool,
    /// How many columns of the shown part come before the mark.
    before: usize,
    /// How many columns the mark takes.
    marked: usize,
}

/// How many columns these characters take.
fn width_of(signs: &[Sign]) -> usize {
    let mut width: usize = 0;
    for sign in signs {
        width = width.saturating_add(sign.width);
    }
    width
}

/// How many of these characters begin before this offset.
fn count_before(signs: &[Sign], at: usize) -> usize {
    signs.iter().filter(|sign| sign.at < at).count()
}

impl Excerpt {
    /// The excerpt of a line of the text, with a mark from the offset `start` up to `end`. If that stretch has nothing
    /// on the line, the mark is one column wide. Returns `Memory` if an allocation fails.
    pub fn new(
        alloc: Global,
        text: &[u8],
        line: Line,
        start: usize,
        end: usize,
    ) -> Result<Excerpt, Memory> {
        let line_end = line.end.min(text.len()).min(start.saturating_add(NEAR));
        let line_start = line.start.max(start.saturating_sub(NEAR)).min(line_end);
        let is_read_from_start = line_start <= line.start;
        let is_read_to_end = line_end >= line.end.min(text.len());
        let signs = signs_of(alloc, &text[line_start..line_end])?;
        let first = count_before(signs.as_slice(), start.saturating_sub(line_start));
        let following = count_before(signs.as_slice(), end.saturating_sub(line_start)).max(first);
        let is_whole = is_read_from_start && is_read_to_end;
        let is_long = !is_whole || width_of(signs.as_slice()) > MOST;
        let from = if is_long {
            first.saturating_sub(IN_FRONT)
        } else {
            0
        };
        let to = if is_long {
            from.saturating_add(MOST).min(signs.len())
        } else {
            signs.len()
        };
        let from = from.min(to);
        let first = first.min(to).max(from);
        let following = following.min(to).max(first);
        Ok(Excerpt {
            number: line.number,
            shown: Vec::from_slice(alloc, &signs.as_slice()[from..to])?,
            is_cut_before: from > 0 || !is_read_from_start,
            is_cut_after: to < signs.len() || !is_read_to_end,
            before: width_of(&signs.as_slice()[from..first]),
            marked: width_of(&signs.as_slice()[first..following]).max(1),
        })
    }
}

/// Writes this character `count` times.
fn repeat<W: fmt::Write>(f: &mut fmt::Formatter<W>, character: char, count: usize) -> fmt::Result {
    for _ in 0..count {
        f.write_char(character)?;
    }
    Ok(())
}

/// How many columns a line number takes, at least three.
fn margin(number: usize) -> usize {
    let digits = match number.checked_ilog10() {
        Some(power) => power as usize,
        None => 0,
    };
    digits.saturating_add(1).max(3)
}

impl fmt::Display for Excerpt {
    fn fmt<W: fmt::Write>(&self, f: &mut fmt::Formatter<W>) -> fmt::Result {
        let number = self.number;
        write!(f, "{number:>3} | ")?;
        if self.is_cut_before {
            f.write_char('…')?;
        }
        for sign in &self.shown {
            f.write_char(sign.shown)?;
        }
        if self.is_cut_after {
            f.write_char('…')?;
        }
        f.write_char('\n')?;
        repeat(f, ' ', margin(number))?;
        write!(f, " | ")?;
        repeat(
            f,
            ' ',
            self.before.saturating_add(usize::from(self.is_cut_before)),
        )?;
        repeat(f, '^', self.marked)
    }
}
