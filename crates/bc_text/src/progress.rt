//! The state of a reader after the bytes that it has read, and how one more byte changes it.

ghost use Rattle.std.specs.Prelude.{◌≡◌, ◌⊎◌, Ok, Err, MatchResult, IfOk, IsTrue};
ghost use Rattle.bc_text.specs.Steps.{is_in_range, start, step, run, finished, begun, closed, placed_at, after_number};

use crate::head::{Ended, Position};
use crate::place::{after_global, after_head, after_minus, between, ended_number, with_digit};
use crate::text_error::TextError;
use bc_text_items::{Item, Segment};
use std::alloc::Global;
use std::mem;

/// The state of a reader: complete segments, the items after them, the state between two bytes, and the number of bytes read.
#[derive(Drop)]
pub struct Progress {
    /// The complete segments.
    segments: Vec<Segment>,
    /// The items after the last complete segment.
    items: Vec<Item>,
    /// The state between two bytes.
    place: Position,
    /// The number of bytes read; saturates at 2^64 - 1.
    at: u64,
    alloc: Global,
    ghost in_range: { IsTrue (is_in_range place) },
}

impl Progress {
    ghost use Rattle.bc_text.specs.Reached.{progress_of, Reaches, GivesProgress, GivesSegments};

    /// The state before the first byte.
    pub fn new(alloc: Global) -> Progress
        ensures { progress_of result ≡ start }
    {
        Progress {
            segments: Vec::new(alloc),
            items: Vec::new(alloc),
            place: Position::Between,
            at: 0,
            alloc,
        }
    }

    /// Ends a segment, at a `Z`. `Memory` if an allocation fails.
    fn end_segment(&mut self) -> Result<(), TextError>
        ensures { Reaches result (progress_of self.new) (Ok (closed (progress_of self.old))) }
    {
        let items = mem::replace(&mut self.items, Vec::new(self.alloc));
        self.segments.push(Segment::new(items))?;
        self.place = Position::Between;
        Ok(())
    }

    /// Goes to the next place, or returns the fault.
    #[inline]
    fn go_to(&mut self, place: Result<Position, TextError>) -> Result<(), TextError>
        requires { IfOk place (λ place. IsTrue (is_in_range place)) }
        ensures { Reaches result (progress_of self.new) (placed_at (progress_of self.old) place) }
    {
        match place {
            Ok(place) => {
                self.place = place;
                Ok(())
            }
            Err(fault) => Err(fault),
        }
    }

    /// Takes a byte at which an item may begin.
    #[inline]
    fn begin(&mut self, byte: u8, at: u64) -> Result<(), TextError>
        ensures { Reaches result (progress_of self.new) (begun (progress_of self.old) byte at) }
    {
        if byte == b'Z' {
            self.end_segment()
        } else {
            self.go_to(between(byte, at))
        }
    }

    /// Takes the byte after a number's digits, which completed `ended`.
    #[inline]
    fn end_number(&mut self, ended: Ended, byte: u8, at: u64) -> Result<(), TextError>
        ensures { Reaches result (progress_of self.new) (after_number (progress_of self.old) ended byte at) }
    {
        match ended {
            Ended::Item(item) => {
                self.items.push(item)?;
                self.begin(byte, at)
            }
            Ended::Global(number) => self.go_to(after_global(number, byte, at)),
        }
    }

    /// Takes one more byte. The error is the fault that the byte makes, or `Memory`.
    #[inline]
    #[tactic(auto, unfolding(crate::specs::Steps::step))]
    fn take(&mut self, byte: u8) -> Result<(), TextError>
        ensures { Reaches result (progress_of self.new) (step (progress_of self.old) byte) }
    {
        let at = self.at;
        self.at = at.saturating_add(1);
        match self.place {
            Position::Between => self.begin(byte, at),
            Position::Comment => {
                if byte == b'\n' {
                    self.place = Position::Between;
                }
                Ok(())
            }
            Position::Head(head) => self.go_to(after_head(&head, byte, at)),
            Position::Minus { head, from } => self.go_to(after_minus(&head, from, byte, at)),
            Position::Digits {
                head,
                from,
                negative,
                value,
            } => {
                if byte.is_ascii_digit() {
                    self.go_to(with_digit(&head, from, negative, value, byte))
                } else {
                    self.end_number(ended_number(&head, negative, value), byte, at)
                }
            }
        }
    }

    /// Takes the bytes of a piece, up to the first error.
    pub fn fed(mut self, piece: &[u8]) -> Result<Progress, TextError>
        ensures { GivesProgress result (run piece.now (progress_of self)) }
    {
        for byte in piece {
            self.take(*byte)?;
        }
        Ok(self)
    }

    /// The segments, at the end of the text. `Unended` if an item is incomplete, or if items follow the last `Z`.
    pub fn finished(self) -> Result<Vec<Segment>, TextError>
        ensures { GivesSegments result (finished (progress_of self)) }
    {
        let between = matches!(self.place, Position::Between | Position::Comment);
        if between && self.items.is_empty() {
            Ok(self.segments)
        } else {
            Err(TextError::Unended)
        }
    }
}
