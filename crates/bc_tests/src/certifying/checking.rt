//! The checker with a reader of one byte at a time, with a reader that fails, and with allocations that fail.

use bc_cert::{CheckFault, check, check_sums};
use std::alloc::Global;
use std::io;
use std::io::{ErrorKind, Read};

/// The certificate of `WRCH('A')` by table 1.
const SAMPLE: &[u8] =
    b"BCPLCERT 1\nE 0 1 0 2 4\n4 N65 1 1 0 2 V0.V1\n5 G14 1 1 3 3 -\n5 ! 1 1 3 3 V0.V1\n2 K1 4 - 6 6 V22\nR V\nC L65 SP4 LIG14 K2\nZ 1\n";

/// A reader that returns one byte for each call, and after the last one fails if `fails` is set.
#[derive(Drop)]
struct Slow<'b> {
    bytes: &'b [u8],
    fails: bool,
}

impl<'b> Read for Slow<'b> {
    fn read(&mut self, buf: &mut [u8]) -> io::Result<usize> {
        if buf.is_empty() {
            return Ok(0);
        }
        match self.bytes {
            [first, rest @ ..] => {
                buf[0] = *first;
                self.bytes = rest;
                Ok(1)
            }
            [] => {
                if self.fails {
                    Err(io::Error::from(ErrorKind::Other))
                } else {
                    Ok(0)
                }
            }
        }
    }
}

/// The number of entries of a certificate that comes from such a reader.
fn given_slowly(alloc: Global, bytes: &[u8], fails: bool) -> Result<usize, CheckFault> {
    Ok(check(alloc, Slow { bytes, fails })?.entries.len())
}

#[test]
fn whole_lines_come_before_a_failure(rt: HostRuntime) {
    let alloc = rt.alloc();
    assert_eq!(rt; given_slowly(alloc, SAMPLE, false), Ok(1));
    assert_eq!(rt;
        given_slowly(alloc, b"BCPLCERT 1\nQ\n", true),
        Err(CheckFault::Line(2))
    );
    for cut in 0..SAMPLE.len() + 1 {
        assert_eq!(rt;
            given_slowly(alloc, &SAMPLE[..cut], true),
            Err(CheckFault::Read),
            "{cut}"
        );
    }
}

/// The number of the sample's entries by `check`, and their number and words by `check_sums`.
fn entries(alloc: Global) -> Result<(usize, u64, u64), CheckFault> {
    let verdict = check(alloc, SAMPLE)?;
    let sums = check_sums(
        alloc,
        Slow {
            bytes: SAMPLE,
            fails: false,
        },
    )?;
    Ok((verdict.entries.len(), sums.entries, sums.words))
}

#[test]
fn growth_is_given(rt: HostRuntime) {
    assert_eq!(rt; entries(rt.alloc()), Ok((1, 1, 4)));
}

/// Under `tests/stress/failed-allocations` each allocation fails in turn. The result must be right, or a failed allocation.
#[test]
fn refused_growth_is_memory(rt: HostRuntime) {
    let got = entries(rt.alloc());
    assert!(rt;
        got == Ok((1, 1, 4)) || got == Err(CheckFault::Memory),
        "{got:?}"
    );
}
