//! `run_text` with a reader that is slow or fails, and with allocations that fail.

use crate::running::devices::{Source, memory};
use bc_link::LinkError;
use bc_machine::MemoryStreams;
use bc_machine_defs::End;
use bc_run::{RunFault, primitives, run_text};
use bc_text::TextError;
use std::alloc::Global;
use std::io::ErrorKind;

/// A program that writes A.
const HELLO: &[u8] = b"1 L65 SP4 LIG14 K2 X4 G1L1 Z";

/// Whether exactly these bytes were written.
fn has_written(streams: &MemoryStreams, bytes: &[u8]) -> bool {
    let written = streams.written();
    written.len() == bytes.len() && written.iter().zip(bytes).all(|(one, byte)| one.1 == *byte)
}

/// The expected result and output of a text.
#[derive(Clone, Copy)]
struct Wanted {
    answer: Result<End, RunFault>,
    output: &'static [u8],
}

/// Whether running a text has the expected result and output. It is read one byte at a time, and the reader fails after `left` calls.
fn is_answered(alloc: Global, bytes: &[u8], left: usize, wanted: &Wanted) -> Option<bool> {
    let mut streams = memory(alloc, b"", 1000).ok()?;
    let text = Source {
        bytes,
        left,
        failure: ErrorKind::Interrupted,
    };
    let answer = run_text(alloc, text, &mut streams, 1000);
    Some(answer == wanted.answer && has_written(&streams, wanted.output))
}

/// The first number of calls after which a reader of `HELLO` fails and the result isn't `Read` with nothing written.
fn other_answer(alloc: Global) -> Option<usize> {
    let wanted = Wanted {
        answer: Err(RunFault::Read),
        output: b"",
    };
    (0..=HELLO.len()).find(|left| is_answered(alloc, HELLO, *left, &wanted) != Some(true))
}

/// If the reader fails, at whichever call, the result is `Read`.
#[test]
fn readers_fail(rt: HostRuntime) {
    assert_eq!(rt; other_answer(rt.alloc()), None);
}

/// A reader of one byte at a time makes no difference.
#[test]
fn slow_readers_change_nothing(rt: HostRuntime) {
    let wanted = Wanted {
        answer: Ok(End::Finished),
        output: b"A",
    };
    assert_eq!(rt; is_answered(rt.alloc(), HELLO, 1000, &wanted), Some(true));
}

/// A fault of the text takes precedence over a later failure of the reader.
#[test]
fn refusals_come_before_failures(rt: HostRuntime) {
    let wanted = Wanted {
        answer: Err(RunFault::Text(TextError::BadCharacter(0))),
        output: b"",
    };
    assert_eq!(rt; is_answered(rt.alloc(), b"Q", 1, &wanted), Some(true));
}

/// The result of the calls that allocate.
#[derive(Clone, Copy, Debug, PartialEq)]
enum Growth {
    /// As expected.
    Given,
    /// An allocation failed.
    Refused,
    /// Anything else.
    Other,
}

/// Whether a result is the expected end or a failed allocation.
fn came_to(answer: Result<End, RunFault>, end: End) -> Growth {
    match answer {
        Ok(found) if found == end => Growth::Given,
        Err(RunFault::Memory)
        | Err(RunFault::Text(TextError::Memory))
        | Err(RunFault::Link(LinkError::Memory)) => Growth::Refused,
        _ => Growth::Other,
    }
}

/// Runs a text, which is expected to end so.
fn grown_by(alloc: Global, text: &[u8], end: End) -> Growth {
    match memory(alloc, b"", 1000) {
        Ok(mut streams) => came_to(run_text(alloc, text, &mut streams, 12), end),
        Err(_) => Growth::Refused,
    }
}

/// Makes the calls that allocate: the first result that isn't `Given`.
fn grown(alloc: Global) -> Growth {
    if primitives(alloc).is_err() {
        return Growth::Refused;
    }
    match grown_by(alloc, HELLO, End::Finished) {
        Growth::Given => grown_by(alloc, b"1 LL1 Z", End::BudgetSpent),
        other => other,
    }
}

#[test]
fn growth_is_given(rt: HostRuntime) {
    assert_eq!(rt; grown(rt.alloc()), Growth::Given);
}

/// Under `tests/stress/failed-allocations` each allocation fails in turn. The result must be right, or a failed allocation.
#[test]
fn refused_growth_is_memory(rt: HostRuntime) {
    assert!(rt; grown(rt.alloc()) != Growth::Other);
}
