//! The reader: a text of INTCODE that comes in pieces.

ghost use Rattle.std.specs.Prelude.{◌≡◌, [], ◌++◌, OnOk, OnErr, List, ℕ};
ghost use Rattle.bc_text.specs.Reading.{HasRead, HasFailed, IsAnswer, IsAnswerAtEnd, Feeds, Finishes, bytes_of, IsWholeAnswer, IsOnly, IsRefused};

use crate::progress::Progress;
use crate::text_error::TextError;
use bc_text_items::Segment;
use std::alloc::Global;
use std::marker::Model;

/// Reads a text of INTCODE that comes in pieces.
///
/// It keeps the items read and its state within an item, a number or a comment, but none of the bytes. So a fault is reported by the very
/// call that passes the byte at which it is known, and how the bytes are split into pieces makes no difference.
#[derive(Drop)]
pub struct Reader {
    /// `None` after an error.
    progress: Option<Progress>,
}

impl Model for Reader {
    ghost use Rattle.std.specs.Prelude.{Option};
    ghost use Rattle.std.specs.Option.{option_map};
    ghost use Rattle.bc_text.specs.Steps as steps;
    ghost use Rattle.bc_text.specs.Reached.{progress_of};

    ghost Value = { Option steps.Progress };

    ghost view = { λ r. option_map progress_of r.progress };
}

impl Reader {
    /// A reader before the first byte. Allocates nothing.
    pub fn new(alloc: Global) -> Reader
        ensures { HasRead result [] }
    {
        Reader {
            progress: Some(Progress::new(alloc)),
        }
    }

    /// Takes a piece; the reader fails on the first error.
    fn advance(&mut self, piece: &[u8]) -> Result<(), TextError>
        ensures { Feeds self.old piece.now result self.new }
    {
        match self.progress.take() {
            None => Err(TextError::Failed),
            Some(progress) => {
                self.progress = Some(progress.fed(piece)?);
                Ok(())
            }
        }
    }

    /// Takes the next piece of the text.
    ///
    /// The error is the first fault of the bytes up to here. It is reported by the call that passes the byte at which it is known.
    /// `Memory` if an allocation fails. After an error, each further call returns `Failed`.
    pub fn feed(&mut self, piece: &[u8]) -> Result<(), TextError>
        // Ok exactly if the bytes up to here can be continued to a text, else their first fault (or Memory).
        ensures answer { (bytes : List ℕ) → HasRead self.old bytes → IsAnswer (bytes ++ piece.now) result }
        ensures read { (bytes : List ℕ) → HasRead self.old bytes → OnOk result (HasRead self.new (bytes ++ piece.now)) }
        ensures failed { OnErr result (HasFailed self.new) }
        ensures again { HasFailed self.old → result ≡ Err TextError.Failed }
    {
        self.advance(piece)
    }

    /// The segments, at the end of the text. Allocates nothing.
    ///
    /// `Unended` if the text ends in an item or has items after the last `Z`, and `Failed` if a call of `feed` has returned an error.
    pub fn finish(self) -> Result<Vec<Segment>, TextError>
        // The segments of which the bytes are a text, or the fault of the bytes.
        ensures answer { (bytes : List ℕ) → HasRead self bytes → IsAnswerAtEnd bytes result }
        ensures again { HasFailed self → result ≡ Err TextError.Failed }
    {
        self.close()
    }

    /// The segments of what was read, or the error.
    fn close(self) -> Result<Vec<Segment>, TextError>
        ensures { Finishes self result }
    {
        match self.progress {
            None => Err(TextError::Failed),
            Some(progress) => progress.finished(),
        }
    }
}

/// The segments of the text that consists of these pieces.
///
/// The error is the fault of the text, or `Memory` if an allocation fails.
pub fn read_all(alloc: Global, pieces: &[&[u8]]) -> Result<Vec<Segment>, TextError>
    ensures answer { IsWholeAnswer (bytes_of pieces.now) result }
    ensures only { IsOnly (bytes_of pieces.now) result }
    ensures refused { IsRefused (bytes_of pieces.now) result }
{
    let mut reader = Reader::new(alloc);
    for piece in pieces {
        reader.feed(piece)?;
    }
    reader.finish()
}
