//! The run of an image, which `run`, `go` and the program without arguments share.

ghost use Rattle.std.specs.Prelude.{IfOk};
ghost use Rattle.bc_machine.specs.Ran.{Ran, held_state};
ghost use Rattle.bc_machine_defs.specs.State.{start};

use bc_machine::{Machine, Streams};
use bc_machine_defs::{End, Image};
use bc_word::Memory;
use std::alloc::Global;

/// Runs an image for at most `steps` instructions over the streams. Returns the machine as it is after the run, and how
/// the run ended. `Memory` if the allocation of the store fails; then the streams are as they were.
pub fn run_image<S: Streams>(
    alloc: Global,
    image: &Image,
    streams: &mut S,
    steps: u64,
) -> Result<(Machine, End), Memory>
    ensures { IfOk result (λ ran. Ran (S.known streams.old) (S.known streams.new) steps
        (start image.now.words image.now.stack_base (S.content streams.old)) (held_state ran.0 (S.content streams.new)) ran.1
        (S.failures streams.old) (S.failures streams.new)) }
{
    let mut machine = Machine::new(alloc, image)?;
    let end = machine.run(streams, steps);
    Ok((machine, end))
}
