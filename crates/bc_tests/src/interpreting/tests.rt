//! Runs by their meaning: each way to end, a device that fails, and allocations that fail.

use bc_build::{BuildError, GenError, LexError, LinkError, ParseError, ScopeFault, build};
use bc_interpret_sources::{BuiltProgram, Cause, Ending, Outcome, Source, interpret};
use bc_machine::{MemoryStreams, Named, StreamsError};
use bc_word::Memory;
use std::alloc::Global;
use std::test::Fail;

/// Writes A, and then reads a cell of a vector that was never set.
const LETTER: &[u8] = b"GLOBAL $( START:1; WRCH:14; FINDOUTPUT:16; SELECTOUTPUT:12 $)
LET START() BE
$( LET F(X) = X + 1
   LET V = VEC 1
   SELECTOUTPUT(FINDOUTPUT(\"SYSPRINT\"))
   WRCH(F(64))
   WRCH(V!1)
$)
";

/// What happened to a source: the outcome of its run, a failed allocation, or any other error.
#[derive(Drop)]
enum Came {
    /// The run had this outcome.
    To(Outcome),
    /// An allocation failed.
    Memory,
    /// Any other error.
    Other,
}

/// Streams with one output that has room for this number of bytes.
fn streams(alloc: Global, room: usize) -> Result<MemoryStreams, StreamsError> {
    let mut outputs = Vec::new(alloc);
    outputs
        .push(Vec::from_slice(alloc, b"SYSPRINT").map_err(Memory::from)?)
        .map_err(Memory::from)?;
    MemoryStreams::new(alloc, Vec::new(alloc), outputs, room)
}

/// Whether an allocation failed.
fn is_memory(fault: &BuildError) -> bool {
    matches!(
        fault,
        BuildError::Memory
            | BuildError::Lex(_, LexError::Memory)
            | BuildError::Parse(_, ParseError::Memory)
            | BuildError::Scope(_, ScopeFault::Memory)
            | BuildError::Gen(_, GenError::Memory)
            | BuildError::Link(LinkError::Memory)
    )
}

/// Builds the source and runs it by its meaning.
#[tactic(auto, using(bc_interpret_sources::proofs::Resolved::built_is_image))]
fn outcome_of(alloc: Global, text: &[u8], room: usize, turns: u64) -> Came {
    let sources = [Source { name: b"F", text }];
    let mains = [0usize];
    let built = match build(alloc, &sources, &mains) {
        Ok(built) => built,
        Err(fault) if is_memory(&fault) => return Came::Memory,
        Err(_) => return Came::Other,
    };
    let mut streams = match streams(alloc, room) {
        Ok(streams) => streams,
        Err(StreamsError::Memory) => return Came::Memory,
        Err(_) => return Came::Other,
    };
    let program = BuiltProgram {
        sources: &sources,
        mains: &mains,
        image: &built.image,
    };
    match interpret(alloc, &program, &mut streams, turns) {
        Ok(found) => Came::To(found.outcome),
        Err(Memory) => Came::Memory,
    }
}

/// A run finishes, divides by zero, uses up its turns, meets a full output, or is wild.
#[test]
fn runs_come_to_what_they_mean(rt: HostRuntime) -> Result<(), Fail> {
    let finish = b"GLOBAL $( START:1 $)\nLET START() BE FINISH".as_slice();
    let on = b"GLOBAL $( START:1 $)\nLET START() BE $( $) REPEAT".as_slice();
    let by_zero = b"GLOBAL $( START:1 $)\nLET START(X) BE X := 1/0".as_slice();
    let cases = [
        (finish, 100usize, Outcome::Ended(Ending::Finished)),
        (by_zero, 100, Outcome::Ended(Ending::ZeroDivide)),
        (on, 100, Outcome::Going),
        (LETTER, 0, Outcome::Device),
    ];
    for (text, room, outcome) in cases {
        let is_so =
            matches!(outcome_of(rt.alloc(), text, room, 1000), Came::To(found) if found == outcome);
        assert!(rt; is_so);
    }
    let wild = outcome_of(rt.alloc(), LETTER, 100, 1000);
    assert!(rt; matches!(wild, Came::To(Outcome::Wild(Cause::Unset(_)))));
    Ok(())
}

/// Builds and runs `LETTER`. The first result is whether it was wild as expected; the second also allows a failed allocation.
fn grown(alloc: Global) -> (bool, bool) {
    match outcome_of(alloc, LETTER, 100, 1000) {
        Came::To(Outcome::Wild(Cause::Unset(_))) => (true, true),
        Came::To(_) | Came::Other => (false, false),
        Came::Memory => (false, true),
    }
}

#[test]
fn growth_is_given(rt: HostRuntime) {
    let (given, _) = grown(rt.alloc());
    assert!(rt; given);
}

/// Under `tests/stress/failed-allocations` each allocation fails in turn. The result must be right, or a failed allocation.
#[test]
fn refused_growth_is_memory(rt: HostRuntime) {
    let (_, lawful) = grown(rt.alloc());
    assert!(rt; lawful);
}
