//! Lines that are laid out, and the text that they make. Comments after commands in adjacent lines are aligned.

use crate::atom::Atom;
use crate::comments::{add_blanks, add_comment};
use bc_word::Memory;
use std::alloc::Global;

/// How many blanks are before a comment after commands, at least.
const APART: usize = 2;
/// A comment is aligned with those of adjacent lines unless its commands end after this column.
const LONG: usize = 72;

/// What comes in a line after its commands.
#[derive(Clone, Copy)]
pub enum Remark {
    /// Nothing.
    None,
    /// This comment, aligned with those of adjacent lines.
    Aligned(Atom),
    /// This comment, by itself.
    Apart(Atom),
    /// The line has only this comment, which goes on with that of the line before, in the same column.
    Below(Atom),
}

/// A line that is laid out.
#[derive(Clone, Copy)]
pub struct Line {
    /// The number of line breaks before it in the source.
    pub breaks: usize,
    /// The column in which it begins.
    pub column: usize,
    /// Where its commands are in the text of the layout.
    pub start: usize,
    /// Where they end there.
    pub end: usize,
    /// The column after them.
    pub after: usize,
    pub remark: Remark,
}

impl Line {
    /// The column of the line's comment if that is aligned with others; `None` if it isn't.
    fn aligned_column(&self) -> Option<usize> {
        match self.remark {
            Remark::Aligned(_) if self.after <= LONG => Some(self.after.saturating_add(APART)),
            _ => None,
        }
    }

    /// Whether the line's comment is aligned with that of the line before it.
    fn is_aligned(&self) -> bool {
        matches!(self.remark, Remark::Aligned(_))
    }

    /// How many blank lines come before the line: one at most, or two between things that are in no section.
    fn blank_lines(&self) -> usize {
        let most = if self.column == 0 { 2 } else { 1 };
        self.breaks.saturating_sub(1).min(most)
    }
}

/// Adjacent lines whose comments are aligned.
#[derive(Clone, Copy)]
struct Run {
    /// The number of lines.
    count: usize,
    /// The column of the comments.
    column: usize,
}

/// The run that begins with the first of these lines.
fn run_of(lines: &[Line]) -> Run {
    let mut run = Run {
        count: 0,
        column: 0,
    };
    for line in lines {
        if run.count > 0 && !(line.is_aligned() && line.breaks == 1) {
            break;
        }
        run.count = run.count.saturating_add(1);
        run.column = run.column.max(line.aligned_column().unwrap_or(0));
        if !line.is_aligned() {
            break;
        }
    }
    run
}

/// Appends a comment in this column, or two columns after the commands before it. Returns its column.
fn add_remark(
    out: &mut Vec<u8>,
    source: &[u8],
    atom: Atom,
    after: usize,
    column: usize,
) -> Result<usize, Memory> {
    let column = column.max(after.saturating_add(APART));
    add_blanks(out, column.saturating_sub(after))?;
    add_comment(out, source, atom, column)?;
    Ok(column)
}

/// Appends a line. `column` is that of aligned comments, `above` that of the comment in the line before it. Returns the
/// column of its comment.
fn add_line(
    out: &mut Vec<u8>,
    source: &[u8],
    text: &[u8],
    line: &Line,
    columns: (usize, usize),
) -> Result<usize, Memory> {
    let (column, above) = columns;
    if let Remark::Below(atom) = line.remark {
        add_blanks(out, above)?;
        add_comment(out, source, atom, above)?;
        out.push(b'\n')?;
        return Ok(above);
    }
    add_blanks(out, line.column)?;
    out.extend_from_slice(text.get(line.start..line.end).unwrap_or(&[]))?;
    let column = match line.remark {
        Remark::Aligned(atom) => {
            let column = if line.after <= LONG { column } else { 0 };
            add_remark(out, source, atom, line.after, column)?
        }
        Remark::Apart(atom) => add_remark(out, source, atom, line.after, 0)?,
        Remark::None | Remark::Below(_) => 0,
    };
    out.push(b'\n')?;
    Ok(column)
}

/// The text of the lines. `text` has their commands.
///
/// # Errors
///
/// `Memory` if an allocation failed.
pub fn joined_lines(
    alloc: Global,
    source: &[u8],
    text: &[u8],
    lines: &[Line],
) -> Result<Vec<u8>, Memory> {
    let mut out = Vec::new(alloc);
    let mut run = Run {
        count: 0,
        column: 0,
    };
    let mut above = 0;
    for (index, line) in lines.iter().enumerate() {
        if run.count == 0 {
            run = run_of(lines.get(index..).unwrap_or(&[]));
        }
        run.count = run.count.saturating_sub(1);
        if index > 0 {
            for _ in 0..line.blank_lines() {
                out.push(b'\n')?;
            }
        }
        above = add_line(&mut out, source, text, line, (run.column, above))?;
    }
    Ok(out)
}
