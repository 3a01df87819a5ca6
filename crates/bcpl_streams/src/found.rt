//! Streams of which some are found in a folder while the run goes on.

use crate::closable::ClosableStreams;
use crate::folder::Folder;
use bc_machine::{DeviceFault, Streams};
use bc_machine_defs::Side;
use bc_word::{Memory, Word};
use std::alloc::Global;
use std::cell::Cell;
use std::rt::Files;

/// Some streams, and the files of a folder, which are opened when they are found.
///
/// What these streams hold is not known before the run: in contracts their content is never known.
pub struct FoundStreams<'r, 'p, F: Files, S> {
    given: S,
    /// The numbers of the first input and of the first output in the folder.
    first: (usize, usize),
    /// There is always one, except while a stream is found.
    folder: Cell<Option<Folder<'r, 'p, F>>>,
    /// The places in the folder of the selected input and output; `None` if they are given streams.
    input: Option<usize>,
    output: Option<usize>,
    failures: u64,
}

impl<F: Files, S: Drop> Drop for FoundStreams<'_, '_, F, S> {
    fn drop(self) {
        let FoundStreams {
            given: _,
            first: _,
            folder,
            input: _,
            output: _,
            failures: _,
        } = self;
        let _folder = folder.into_inner();
    }
}

impl<'r, 'p, F: Files, S> FoundStreams<'r, 'p, F, S> {
    /// These streams, which are so many inputs and outputs, and those that are found in the folder.
    pub fn new(
        given: S,
        counts: (usize, usize),
        folder: Folder<'r, 'p, F>,
    ) -> FoundStreams<'r, 'p, F, S> {
        FoundStreams {
            given,
            first: (counts.0.saturating_add(1), counts.1.saturating_add(1)),
            folder: Cell::new(Some(folder)),
            input: None,
            output: None,
            failures: 0,
        }
    }

    /// The number of the first stream of the folder on this side.
    fn first_number(&self, side: Side) -> usize {
        match side {
            Side::Input => self.first.0,
            Side::Output => self.first.1,
        }
    }

    /// The number of the stream at this place of the folder, or 0 if there is none or it doesn't fit into a word.
    fn number_at(&self, side: Side, place: Option<usize>) -> Word {
        match place {
            Some(place) => {
                let number = self.first_number(side).saturating_add(place);
                Word::new(u16::try_from(number).unwrap_or(0))
            }
            None => Word::new(0),
        }
    }

    /// Finds a name in the folder.
    fn find_file(&self, side: Side, name: &[u8]) -> Word {
        let Some(mut folder) = self.folder.replace(None) else {
            return Word::new(0);
        };
        let place = folder.find(side, name);
        self.folder.set(Some(folder));
        self.number_at(side, place)
    }
}

impl<'r, 'p, F: Files, S: ClosableStreams> ClosableStreams for FoundStreams<'r, 'p, F, S> {
    fn close(&mut self) -> Result<(), DeviceFault> {
        let given = self.given.close();
        if let Some(folder) = self.folder.get_mut() {
            folder.close()?;
        }
        given
    }

    fn lost_lines(&self, alloc: Global) -> Result<String, Memory> {
        self.given.lost_lines(alloc)
    }
}

impl<'r, 'p, F: Files, S: Streams> Streams for FoundStreams<'r, 'p, F, S> {
    ghost content = { λ s. S.content s.given };

    ghost known = { λ _. ⊥ };

    ghost failures = { λ s. s.failures };

    ghost holds_bytes = { λ _ known. absurd known };

    fn find(&self, side: Side, name: &[u8]) -> Word {
        let number = self.given.find(side, name);
        if number.get() > 0 {
            return number;
        }
        self.find_file(side, name)
    }

    fn select(&mut self, side: Side, number: Word) {
        self.given.select(side, number);
        let place = usize::from(number.get()).checked_sub(self.first_number(side));
        match side {
            Side::Input => self.input = place,
            Side::Output => self.output = place,
        }
    }

    #[tactic(auto, unfolding(bc_machine::specs::Rose::Rose))]
    fn read(&mut self) -> Result<Option<u8>, DeviceFault> {
        let read = match (self.input, self.folder.get_mut()) {
            (Some(place), Some(folder)) => folder.read(place),
            _ => self.given.read(),
        };
        if read.is_err() {
            self.failures = self.failures.saturating_add(1);
        }
        read
    }

    #[tactic(auto, unfolding(bc_machine::specs::Rose::Rose))]
    fn write(&mut self, byte: u8) -> Result<(), DeviceFault> {
        let written = match (self.output, self.folder.get_mut()) {
            (Some(place), Some(folder)) => folder.write(place, byte),
            _ => self.given.write(byte),
        };
        if written.is_err() {
            self.failures = self.failures.saturating_add(1);
        }
        written
    }

    #[tactic(auto, unfolding(bc_machine::specs::Rose::Rose))]
    fn end(&mut self, side: Side) -> Result<(), DeviceFault> {
        let place = match side {
            Side::Input => self.input,
            Side::Output => self.output,
        };
        let ended = match (place, self.folder.get_mut()) {
            (Some(place), Some(folder)) => folder.end(side, place),
            _ => self.given.end(side),
        };
        if ended.is_err() {
            self.failures = self.failures.saturating_add(1);
            return ended;
        }
        match side {
            Side::Input => self.input = None,
            Side::Output => self.output = None,
        }
        ended
    }
}
