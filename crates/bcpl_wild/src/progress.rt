//! The line at a terminal that shows that a run still goes on. Is removed before the program reads or writes anything, and is
//! shown only where the program hasn't begun a line of the terminal.

use bc_interpret::{Observer, Stacks};
use bc_interpret_steps::{Primitive, Progress};
use bc_interpret_store::{Cell, Store};
use bc_word::Memory;
use std::io::Write;

/// The number of steps after which the line is shown, and shown again. A usual machine takes a second or two for them.
const STRETCH: u64 = 10_000_000;

/// How many million steps a stretch is.
const MILLIONS: u64 = 10;

/// What removes the line.
const BLANKS: &[u8] = b"\r                                                  \r";

/// A line that shows how far a run has come.
#[derive(Drop)]
pub struct ProgressLine<'e, E: Write> {
    err: &'e mut E,
    /// Whether the program writes to the same terminal.
    is_shared: bool,
    /// Whether a line of the program has been begun there, or that isn't known.
    is_begun: bool,
    /// Whether the line is shown.
    is_shown: bool,
    /// The steps until it is shown again.
    left: u64,
    /// How many million steps the run has taken.
    millions: u64,
}

impl<'e, E: Write> ProgressLine<'e, E> {
    /// Nothing is shown yet. `err` is the terminal; `is_shared` says whether the program writes to the same one.
    pub fn new(err: &'e mut E, is_shared: bool) -> ProgressLine<'e, E> {
        ProgressLine {
            err,
            is_shared,
            is_begun: false,
            is_shown: false,
            left: STRETCH,
            millions: 0,
        }
    }

    /// Removes the line, if it is shown. Errors are ignored: there is nowhere to report them.
    pub fn remove(&mut self) {
        if self.is_shown {
            self.is_shown = false;
            let _ = self.err.write_all(BLANKS);
            let _ = self.err.flush();
        }
    }

    /// Shows the line, unless it would be mixed with what the program wrote.
    fn show(&mut self) {
        self.left = STRETCH;
        self.millions = self.millions.saturating_add(MILLIONS);
        if self.is_begun {
            return;
        }
        let millions = self.millions;
        self.is_shown = true;
        let _ = write!(
            self.err,
            "\rrunning: {millions} million steps; Ctrl-C stops it"
        );
        let _ = self.err.flush();
    }

    /// Makes way for a primitive. One that writes has its argument two cells after the beginning of its frame.
    fn make_way(&mut self, primitive: Primitive, frame: u32, store: &Store) {
        self.remove();
        if !self.is_shared {
            return;
        }
        match primitive {
            Primitive::WriteByte => {
                let address = u16::try_from(frame.saturating_add(2)).unwrap_or(0);
                self.is_begun = store.at(address) != Cell::Set(u16::from(b'\n'));
            }
            // What is written next may go elsewhere.
            Primitive::Select(_) | Primitive::Find(_) | Primitive::EndStream(_) => {
                self.is_begun = true;
                self.is_shared = false;
            }
            Primitive::ReadByte => {}
        }
    }
}

impl<E: Write> Observer for ProgressLine<'_, E> {
    fn before(&mut self, _stacks: &Stacks<'_>, _store: &mut Store) -> Result<(), Memory> {
        Ok(())
    }

    fn after(&mut self, stacks: &Stacks<'_>, store: &mut Store) -> Result<(), Memory> {
        if let Progress::Serve(primitive, call) = stacks.next {
            self.make_way(primitive, call.frame, store);
        }
        self.left = self.left.saturating_sub(1);
        if self.left == 0 {
            self.show();
        }
        Ok(())
    }

    fn over(&mut self, _store: &mut Store) {
        self.remove();
    }
}
