//! Lays out atoms line by line.

use crate::atom::{Atom, Shape};
use crate::comments::{add_comment, source_column, width_of};
use crate::context::{Context, Spot};
use crate::line::{Line, Remark, joined_lines};
use crate::spacing::has_blank;
use crate::style::Style;
use bc_lex::Symbol;
use bc_word::Memory;
use std::alloc::Global;

/// The greatest indentation. What is deeper begins in this column, so that hostile sources don't grow beyond reason.
const DEEPEST: usize = 200;
/// How many columns a line has after its indentation, however narrow lines should be.
const NARROW: usize = 40;

/// A layout in the making.
#[derive(Drop)]
struct Layout {
    context: Context,
    /// The text of the lines, without indentation and without the comments after their commands.
    text: Vec<u8>,
    lines: Vec<Line>,
    /// The column in the source of the comment with which the last line ended, if it ended with one.
    remark: Option<usize>,
    /// The last place where the line may be broken.
    place: Option<Place>,
    /// How many columns a line should have at most.
    width: usize,
    alloc: Global,
}

/// A place where a line may be broken.
#[derive(Drop)]
struct Place {
    /// The number of the atom before which it is.
    index: usize,
    /// The column after the atom before it.
    column: usize,
    /// Where the text ends there.
    end: usize,
    /// The context there.
    context: Context,
}

/// How much of a line was put.
#[derive(Clone, Copy)]
struct Put {
    /// The number of atoms.
    count: usize,
    /// The column after them.
    column: usize,
}

/// Whether a line begins with `$)`.
fn is_closing(first: Atom) -> bool {
    matches!(first.shape, Shape::Symbol(Symbol::CloseSection))
}

/// The column after a text that begins in this column and may have line breaks.
fn column_after(column: usize, text: &[u8]) -> usize {
    match text.iter().rev().position(|byte| *byte == b'\n') {
        Some(count) => width_of(text.get(text.len().saturating_sub(count)..).unwrap_or(&[])),
        None => column.saturating_add(width_of(text)),
    }
}

/// The number of atoms in the line with which these begin.
fn line_length(atoms: &[Atom]) -> usize {
    let further = atoms.iter().skip(1).take_while(|atom| atom.breaks == 0);
    further.count().saturating_add(1)
}

/// The comment with which a line ends after other atoms, and those.
fn split_remark(atoms: &[Atom]) -> (&[Atom], Option<Atom>) {
    match atoms.split_last() {
        Some((last, others)) if last.is_comment() && !others.is_empty() => (others, Some(*last)),
        _ => (atoms, None),
    }
}

/// The first atom that is no comment.
fn first_token(atoms: &[Atom]) -> Option<Atom> {
    atoms.iter().find(|atom| !atom.is_comment()).copied()
}

/// How many atoms there are up to the last one that is no comment.
fn count_to_last_token(atoms: &[Atom]) -> usize {
    match atoms.iter().rposition(|atom| !atom.is_comment()) {
        Some(last) => last.saturating_add(1),
        None => 0,
    }
}

/// The number of line breaks before a line.
fn breaks_before(atoms: &[Atom]) -> usize {
    match atoms.first() {
        Some(atom) => atom.breaks,
        None => 0,
    }
}

impl Layout {
    /// Appends an atom to the text, in this column. Returns the column after it.
    fn put(&mut self, source: &[u8], atom: Atom, column: usize) -> Result<usize, Memory> {
        let start = self.text.len();
        if atom.is_comment() {
            add_comment(&mut self.text, source, atom, column)?;
        } else {
            self.text.extend_from_slice(atom.text(source))?;
        }
        let put = self.text.as_slice().get(start..).unwrap_or(&[]);
        Ok(column_after(column, put))
    }

    /// Where atom number `index` of a line is. After `tokens` atoms only comments follow.
    fn spot(tokens: usize, index: usize, column: usize) -> Spot {
        Spot {
            column,
            is_first: index == 0,
            is_followed: index.saturating_add(1) < tokens,
        }
    }

    /// Puts a blank before an atom if one is wanted between it and the atom before it. Returns the column after it.
    fn put_blank(
        &mut self,
        source: &[u8],
        left: Atom,
        atom: Atom,
        column: usize,
    ) -> Result<usize, Memory> {
        if has_blank(&self.context, source, left, atom) {
            self.text.push(b' ')?;
            return Ok(column.saturating_add(1));
        }
        Ok(column)
    }

    /// Whether a line may be broken between these two atoms. It isn't broken beside a comment, which would then be laid out
    /// in another way.
    fn may_break(&self, before: Option<Atom>, atom: Atom) -> bool {
        match before {
            Some(left) => {
                let is_place = self.context.is_breakable()
                    || self.context.is_between_labels(atom.shape);
                is_place && !left.is_comment() && !atom.is_comment()
            }
            None => false,
        }
    }

    /// Keeps a place where the line may be broken: before atom number `index`.
    fn keep_break(&mut self, index: usize, column: usize) -> Result<(), Memory> {
        let context = self.context.copy(self.alloc)?;
        self.place = Some(Place {
            index,
            column,
            end: self.text.len(),
            context,
        });
        Ok(())
    }

    /// Goes back to the place where the line is to be broken.
    fn go_back(&mut self, place: Place) -> Put {
        self.text.truncate(place.end);
        self.context = place.context;
        Put {
            count: place.index,
            column: place.column,
        }
    }

    /// Appends the atoms of a line but for a comment at its end. If the line becomes too long, only those up to the last
    /// place where it may be broken.
    fn put_all(&mut self, source: &[u8], atoms: &[Atom], column: usize) -> Result<Put, Memory> {
        let most = self.width.max(column.saturating_add(NARROW));
        let mut at = column;
        let mut before: Option<Atom> = None;
        let tokens = count_to_last_token(atoms);
        self.place = None;
        for (index, atom) in atoms.iter().enumerate() {
            if self.may_break(before, *atom) {
                if at > most {
                    return Ok(Put {
                        count: index,
                        column: at,
                    });
                }
                self.keep_break(index, at)?;
            }
            if let Some(left) = before {
                at = self.put_blank(source, left, *atom, at)?;
            }
            self.context
                .pass(source, *atom, Layout::spot(tokens, index, at))?;
            at = self.put(source, *atom, at)?;
            if at > most
                && let Some(place) = self.place.take()
            {
                return Ok(self.go_back(place));
            }
            before = Some(*atom);
        }
        Ok(Put {
            count: atoms.len(),
            column: at,
        })
    }

    /// Appends a line that begins in this column, or if it is too long, its beginning. Returns the number of atoms put.
    fn add_line(
        &mut self,
        source: &[u8],
        atoms: &[Atom],
        column: usize,
        breaks: usize,
    ) -> Result<usize, Memory> {
        let column = column.min(DEEPEST);
        let start = self.text.len();
        let (others, comment) = split_remark(atoms);
        let put = self.put_all(source, others, column)?;
        let end = self.text.len();
        let text = self.text.as_slice().get(start..end).unwrap_or(&[]);
        let is_whole = put.count >= others.len();
        let remark = match comment {
            Some(atom) if is_whole && text.contains(&b'\n') => Remark::Apart(atom),
            Some(atom) if is_whole => Remark::Aligned(atom),
            _ => Remark::None,
        };
        self.remark = match remark {
            Remark::Aligned(atom) | Remark::Apart(atom) => Some(source_column(source, atom.start)),
            Remark::None | Remark::Below(_) => None,
        };
        self.lines.push(Line {
            breaks,
            column,
            start,
            end,
            after: put.column,
            remark,
        })?;
        if is_whole {
            return Ok(atoms.len());
        }
        Ok(put.count)
    }

    /// Whether a line of comments goes on with the comment of the line before it: they are in the same column.
    fn is_below(&self, source: &[u8], atoms: &[Atom]) -> bool {
        match (self.remark, atoms) {
            (Some(column), [atom]) => {
                atom.breaks == 1 && source_column(source, atom.start) == column
            }
            _ => false,
        }
    }

    /// Appends a line that has only a comment, which goes on with that of the line before it.
    fn add_below(&mut self, atom: Atom) -> Result<(), Memory> {
        self.lines.push(Line {
            breaks: 1,
            column: 0,
            start: 0,
            end: 0,
            after: 0,
            remark: Remark::Below(atom),
        })?;
        Ok(())
    }

    /// Appends lines of comments.
    fn add_comments(&mut self, source: &[u8], atoms: &[Atom], column: usize) -> Result<(), Memory> {
        let mut rest = atoms;
        for _ in 0..atoms.len() {
            if rest.is_empty() {
                break;
            }
            let (line, further) = rest.split_at(line_length(rest).min(rest.len()));
            self.add_line(source, line, column, breaks_before(line))?;
            rest = further;
        }
        Ok(())
    }

    /// Appends a line with other atoms than comments, and before it the lines of comments that waited for it.
    fn add_commands(
        &mut self,
        source: &[u8],
        waiting: &[Atom],
        atoms: &[Atom],
        first: Atom,
    ) -> Result<(), Memory> {
        let before = self.context.command_column();
        let column = self
            .context
            .begin_line(source, first, atoms.get(1).copied());
        let of_comments = if is_closing(first) { before } else { column };
        self.add_comments(source, waiting, of_comments)?;
        let count = self.add_line(source, atoms, column, breaks_before(atoms))?;
        self.add_broken(source, atoms.get(count..).unwrap_or(&[]))
    }

    /// Appends what is left of a line that was too long, as further lines.
    fn add_broken(&mut self, source: &[u8], atoms: &[Atom]) -> Result<(), Memory> {
        let mut rest = atoms;
        for _ in 0..atoms.len() {
            let Some(first) = first_token(rest) else {
                break;
            };
            let column = self.context.begin_line(source, first, rest.get(1).copied());
            let count = self.add_line(source, rest, column, 1)?;
            rest = rest.get(count..).unwrap_or(&[]);
        }
        Ok(())
    }
}

/// The text of a source with these atoms, laid out.
///
/// # Errors
///
/// `Memory` if an allocation failed.
pub fn laid_out(
    alloc: Global,
    source: &[u8],
    atoms: &[Atom],
    style: Style,
) -> Result<Vec<u8>, Memory> {
    let mut layout = Layout {
        context: Context::new(alloc),
        text: Vec::new(alloc),
        lines: Vec::new(alloc),
        remark: None,
        place: None,
        width: style.width,
        alloc,
    };
    let mut at: usize = 0;
    let mut waiting: usize = 0;
    for _ in 0..atoms.len() {
        let rest = atoms.get(at..).unwrap_or(&[]);
        if rest.is_empty() {
            break;
        }
        let end = at.saturating_add(line_length(rest));
        let line = atoms.get(at..end).unwrap_or(&[]);
        let waiters = atoms.get(waiting..at).unwrap_or(&[]);
        match first_token(line) {
            Some(first) => {
                layout.add_commands(source, waiters, line, first)?;
                waiting = end;
            }
            None if waiters.is_empty() && layout.is_below(source, line) => {
                if let Some(atom) = line.first() {
                    layout.add_below(*atom)?;
                }
                waiting = end;
            }
            None => {}
        }
        at = end;
    }
    let column = layout.context.command_column();
    layout.add_comments(source, atoms.get(waiting..).unwrap_or(&[]), column)?;
    joined_lines(
        alloc,
        source,
        layout.text.as_slice(),
        layout.lines.as_slice(),
    )
}
