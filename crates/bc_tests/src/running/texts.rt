//! The reader and the writer of INTCODE texts, with writers and allocations that fail.

use crate::running::devices::Sink;
use bc_text::{Reader, TextError, print, read_all};
use bc_text_items::{Base, Function, GlobalNumber, Item, Segment};
use bc_word::Word;
use std::alloc::Global;
use std::io::ErrorKind;

/// A program that writes A.
const PROGRAM: &[u8] = b"1 L65 SP4 LIG14 K2 X4 G1L1 Z";

/// An operation of INTCODE.
fn op(function: Function, indirect: bool, base: Base, number: u16) -> Item {
    Item::Operation {
        function,
        indirect,
        base,
        number: Word::new(number),
    }
}

/// `G1L1`.
fn start() -> Option<Item> {
    Some(Item::Global {
        number: GlobalNumber::new(1)?,
        label: Word::new(1),
    })
}

/// The items of `PROGRAM` except the last one.
fn program() -> [Item; 6] {
    [
        Item::Label(Word::new(1)),
        op(Function::Load, false, Base::Number, 65),
        op(Function::Store, false, Base::P, 4),
        op(Function::Load, true, Base::G, 14),
        op(Function::Call, false, Base::Number, 2),
        op(Function::Execute, false, Base::Number, 4),
    ]
}

/// Whether these are the items of `PROGRAM`.
fn is_program(segment: &Segment) -> bool {
    match segment.items() {
        [front @ .., last] => front == program().as_slice() && Some(*last) == start(),
        [] => false,
    }
}

/// Whether exactly one segment was read, and it is `PROGRAM`.
fn is_read(segments: &[Segment]) -> bool {
    match segments {
        [segment] => is_program(segment),
        _ => false,
    }
}

/// Whether a reader that returned an error returns `Failed` from then on.
fn has_failed(mut reader: Reader) -> bool {
    reader.feed(b" Z") == Err(TextError::Failed)
        && reader.feed(b"") == Err(TextError::Failed)
        && reader.finish().err() == Some(TextError::Failed)
}

/// Whether reading `PROGRAM` gives its items. Returns the error if there is one and the reader returns `Failed` after it.
fn read_program(alloc: Global) -> Result<bool, TextError> {
    let mut reader = Reader::new(alloc);
    match reader.feed(PROGRAM) {
        Ok(()) => Ok(is_read(reader.finish()?.as_slice())),
        Err(fault) => {
            if has_failed(reader) {
                Err(fault)
            } else {
                Ok(false)
            }
        }
    }
}

#[test]
fn growth_is_given(rt: HostRuntime) {
    assert_eq!(rt; read_program(rt.alloc()), Ok(true));
}

/// Under `tests/stress/failed-allocations` each allocation fails in turn. The result must be right, or a failed allocation.
#[test]
fn refused_growth_is_memory(rt: HostRuntime) {
    let got = read_program(rt.alloc());
    assert!(rt; got == Ok(true) || got == Err(TextError::Memory));
}

#[test]
fn answers_failed_after_a_refusal(rt: HostRuntime) {
    let mut reader = Reader::new(rt.alloc());
    let is_refused = reader.feed(b"Q") == Err(TextError::BadCharacter(0));
    assert!(rt; is_refused && has_failed(reader));
}

/// A text with an item of each kind.
const ITEMS: &[u8] = b"L5 X22 A-1 SIP512 G511L65535 D-1 DL7 C255 0 Z";

/// How it is printed.
const PRINTED: &[u8] = b"L5\nX22\nA65535\nSIP512\nG511L65535\nD65535\nDL7\nC255\n0\nZ\n";

/// Whether printing to this writer returns the expected result and the writer took the right bytes.
fn is_answered(segment: &Segment, mut out: Sink, wanted: Result<(), TextError>) -> bool {
    print(segment, &mut out) == wanted
        && PRINTED.starts_with(out.taken.as_slice())
        && (wanted.is_err() || out.taken.len() == PRINTED.len())
}

/// How a writer gets stuck: it takes nothing (None), or it returns an error.
const FAILURES: [Option<ErrorKind>; 4] = [
    None,
    Some(ErrorKind::Other),
    Some(ErrorKind::Interrupted),
    Some(ErrorKind::BrokenPipe),
];

/// How many bytes a writer takes at a call, and how many calls the text needs then.
#[derive(Clone, Copy)]
struct Way {
    most: usize,
    calls: u32,
}

/// One byte at a call, and a whole item at a call.
const WAYS: [Way; 2] = [
    Way { most: 1, calls: 52 },
    Way {
        most: 64,
        calls: 10,
    },
];

impl Way {
    /// A writer that gets stuck in this way at the call with this number.
    fn writer(self, alloc: Global, failure: Option<ErrorKind>, fails: u32) -> Sink {
        let mut out = Sink::new(alloc);
        out.most = self.most;
        out.fails = fails;
        out.failure = failure;
        out
    }

    /// The expected result if the writer would get stuck at the call with this number. There is no call after the last one.
    fn wanted(self, fails: u32) -> Result<(), TextError> {
        if fails > 0 && fails <= self.calls {
            Err(TextError::Write)
        } else {
            Ok(())
        }
    }

    /// Whether printing returns the expected result if no call fails, if each call fails in turn, and if the one after the last would fail.
    fn is_lawful(self, alloc: Global, segment: &Segment, failure: Option<ErrorKind>) -> bool {
        for fails in 0..=self.calls.saturating_add(1) {
            let out = self.writer(alloc, failure, fails);
            if !is_answered(segment, out, self.wanted(fails)) {
                return false;
            }
        }
        true
    }
}

/// The same, for all numbers of bytes at a call and all ways to get stuck.
fn is_printed(alloc: Global, segment: &Segment) -> bool {
    for way in WAYS {
        for failure in FAILURES {
            if !way.is_lawful(alloc, segment, failure) {
                return false;
            }
        }
    }
    true
}

/// Whether the segment of `ITEMS` is printed correctly to all these writers.
fn prints(alloc: Global) -> Option<bool> {
    let segments = read_all(alloc, &[ITEMS]).ok()?;
    match segments.as_slice() {
        [segment] => Some(is_printed(alloc, segment)),
        _ => None,
    }
}

#[test]
fn prints_to_any_writer(rt: HostRuntime) {
    assert_eq!(rt; prints(rt.alloc()), Some(true));
}
