//! Running an INTCODE text: reading, linking and running it in one call.

ghost use Rattle.std.specs.Prelude.{◌≡◌, IfOk, IfErr, OnErr};
ghost use Rattle.bc_run.specs.Runs.{IsTextOf, IsTextFault, IsRunFault, IsRunOf, with_primitives};

use crate::primitive::primitives;
use bc_link::{LinkError, link};
use bc_machine::{Machine, Streams};
use bc_machine_defs::End;
use bc_text::{Reader, TextError};
use bc_text_items::Segment;
use bc_word::Memory;
use std::alloc::Global;
use std::io::Read;
use thiserror::Error;

/// Why a text wasn't run.
#[derive(Clone, Copy, Debug, PartialEq, Eq, Error)]
pub enum RunFault {
    /// The text has a fault, or memory ran out in reading it.
    #[error("the text was refused: {0}")]
    Text(TextError),
    /// The segments can't be linked.
    #[error("the text was not linked: {0}")]
    Link(LinkError),
    /// The reader failed, or returned more than 16,777,216 bytes.
    #[error("the text could not be read")]
    Read,
    /// An allocation failed.
    #[error("out of memory")]
    Memory,
}

impl From<Memory> for RunFault {
    ghost use Rattle.std.specs.Prelude.{◌≡◌};
    ghost use Rattle.bc_run.specs.declared.running.RunFault.TheVariants as faults;

    ghost from_gives = { λ _ e. e ≡ faults.Memory };

    fn from(_refused: Memory) -> RunFault {
        RunFault::Memory
    }
}

impl From<LinkError> for RunFault {
    ghost use Rattle.std.specs.Prelude.{◌≡◌};
    ghost use Rattle.bc_run.specs.declared.running.RunFault.TheVariants as faults;

    ghost from_gives = { λ fault e. e ≡ faults.Link fault };

    fn from(fault: LinkError) -> RunFault {
        RunFault::Link(fault)
    }
}

/// The greatest length of a text, in bytes.
const TEXT_LIMIT: usize = 16_777_216;

/// Reads a text to its end, in pieces. `Text` for a fault of the text, `Read` if the reader fails or the text is too long.
fn read_text<R: Read + Drop>(alloc: Global, mut text: R) -> Result<Vec<Segment>, RunFault>
    ensures read { IfOk result (λ v. IsTextOf (R.Read.remaining text) v.items) }
    ensures fault { IfErr result (IsRunFault (R.Read.remaining text)) }
{
    let mut reader = Reader::new(alloc);
    let mut piece = [0u8; 4096];
    let mut left = TEXT_LIMIT;
    for _ in 0..=TEXT_LIMIT {
        let Ok(count) = text.read(&mut piece) else {
            return Err(RunFault::Read);
        };
        if count == 0 {
            return match reader.finish() {
                Ok(segments) => Ok(segments),
                Err(fault) => Err(RunFault::Text(fault)),
            };
        }
        let kept = count.min(left);
        if let Err(fault) = reader.feed(&piece[..kept]) {
            return Err(RunFault::Text(fault));
        }
        if kept < count {
            return Err(RunFault::Read);
        }
        left -= kept;
    }
    Err(RunFault::Read)
}

/// The segments, preceded by the primitives. `Memory` if an allocation fails.
pub fn after_primitives(alloc: Global, mut segments: Vec<Segment>) -> Result<Vec<Segment>, Memory>
    ensures { IfOk result (λ all. all.items ≡ with_primitives segments.items) }
{
    segments.insert(0, primitives(alloc)?)?;
    Ok(segments)
}

/// Reads a text of INTCODE to its end, links its segments after the primitives, and runs the image for at most `steps` instructions over
/// the streams.
///
/// `Text` is the fault of the text, which takes precedence over a later failure of the reader; `Link` is the error of the linker. `Read`
/// if the reader fails or returns more than 16,777,216 bytes. `Memory` if an allocation fails. After an error the streams are as they were.
/// A text that is longer is never linked or run, and isn't reported as unended.
pub fn run_text<R: Read + Drop, S: Streams>(
    alloc: Global,
    text: R,
    streams: &mut S,
    steps: u64,
) -> Result<End, RunFault>
    ensures run { IfOk result (IsRunOf (R.Read.remaining text) steps (S.known streams.old) (S.known streams.new) (S.content streams.old)
        (S.content streams.new) (S.failures streams.old) (S.failures streams.new)) }
    ensures fault { IfErr result (IsRunFault (R.Read.remaining text)) }
    ensures untouched { OnErr result (streams.new ≡ streams.old) }
{
    let segments = after_primitives(alloc, read_text(alloc, text)?)?;
    let image = link(alloc, segments.as_slice())?;
    let mut machine = Machine::new(alloc, &image)?;
    Ok(machine.run(streams, steps))
}
