//! The writer of certificates: its text for two kinds of roots, a writer that fails, and allocations that fail.

use bc_cert_write::{CertFault, Entry, write_cert};
use bc_core::{CoreExp, Root};
use bc_rules_defs::{Derivation, Rule};
use bc_word::{Memory, Op, Word};
use std::alloc::Global;
use std::io;
use std::io::{ErrorKind, Write};

/// The certificate without entries.
const NONE: &[u8] = b"BCPLCERT 2\nZ 0\n";

/// The certificate of a test and of an assignment whose segment has the greatest number.
const TWO: &[u8] =
    b"BCPLCERT 2\nE 0 1 9 10 3\n4 P2 1 1 3 3 -\n4 ! 1 1 3 3 V0.V1\n4 N0 1 1 2 0 -\n3 X10 3 - 3 3 J8\nR F\nC LIP2 TL9\n\
    E 18446744073709551615 7 0 20 1\n5 V3 0 - 2 2 V22\n5 P2 1 1 3 3 -\n5 ! 1 1 3 3 -\nR A1 5\nC ?12 20 SIP2\nZ 2\n";

/// The certificate of the sample below.
const SAMPLE: &[u8] =
    b"BCPLCERT 2\nE 0 1 0 2 4\n4 N65 1 1 0 2 V0.V1\n5 G14 1 1 3 3 -\n5 ! 1 1 3 3 V0.V1\n2 K1 4 - 6 6 V22\nR V\nC L65 SP4 LIG14 K2\nZ 1\n";

/// A derivation by one rule without parts.
fn leaf(alloc: Global, rule: Rule) -> Derivation {
    Derivation {
        rule,
        parts: Vec::new(alloc),
    }
}

/// A derivation by a rule with one part.
fn over(alloc: Global, rule: Rule, part: Derivation) -> Result<Derivation, Memory> {
    let mut parts = Vec::new(alloc);
    parts.push(part)?;
    Ok(Derivation { rule, parts })
}

/// The derivation `(V0 V1)`.
fn pushed(alloc: Global) -> Result<Derivation, Memory> {
    over(alloc, Rule::V0, leaf(alloc, Rule::V1))
}

/// The derivation `(V22 (V0 V1) (V0 V1))`.
fn derivation(alloc: Global) -> Result<Derivation, Memory> {
    let mut parts = Vec::new(alloc);
    for _ in 0..2 {
        parts.push(pushed(alloc)?)?;
    }
    Ok(Derivation {
        rule: Rule::V22,
        parts,
    })
}

/// The content of global 14.
fn routine(alloc: Global) -> Result<Box<CoreExp>, Memory> {
    let global = Box::new(alloc, CoreExp::Glob(14))?;
    Ok(Box::new(alloc, CoreExp::Load(global))?)
}

/// A call of it with the argument 65.
fn call(alloc: Global) -> Result<CoreExp, Memory> {
    let mut arguments = Vec::new(alloc);
    arguments.push(CoreExp::Num(Word::new(65)))?;
    Ok(CoreExp::Call(arguments, routine(alloc)?))
}

/// An entry of a value at level 2 with this derivation.
fn entry(alloc: Global, expression: CoreExp, derivation: Derivation) -> Entry {
    Entry {
        segment: 0,
        item: 1,
        target: 0,
        first: 2,
        root: Root::Value {
            level: 2,
            expression,
        },
        derivation,
        bodies: Vec::new(alloc),
    }
}

/// The entries of the sample, which is `WRCH('A')`.
fn sample(alloc: Global) -> Result<Vec<Entry>, Memory> {
    let mut entries = Vec::new(alloc);
    let derivation = derivation(alloc)?;
    entries.push(entry(alloc, call(alloc)?, derivation))?;
    Ok(entries)
}

/// The certificate of these entries. Its memory is allocated before it is written, since a vector that can't grow is a writer that fails.
fn written(alloc: Global, entries: &[Entry]) -> Result<Vec<u8>, CertFault> {
    let mut text = Vec::with_capacity(alloc, 512)?;
    write_cert(alloc, entries, &mut text)?;
    Ok(text)
}

/// The variable at offset 2.
fn variable(alloc: Global) -> Result<CoreExp, Memory> {
    let cell = Box::new(alloc, CoreExp::Frame(2))?;
    Ok(CoreExp::Load(cell))
}

/// The comparison of that variable with 0.
fn comparison(alloc: Global) -> Result<CoreExp, Memory> {
    let variable = Box::new(alloc, variable(alloc)?)?;
    let zero = Box::new(alloc, CoreExp::Num(Word::new(0)))?;
    Ok(CoreExp::Bin(Op::Equal, variable, zero))
}

/// The entry of a test of that comparison by the rule J8.
fn test(alloc: Global) -> Result<Entry, Memory> {
    Ok(Entry {
        segment: 0,
        item: 1,
        target: 9,
        first: 10,
        root: Root::Test {
            level: 3,
            sense: false,
            expression: comparison(alloc)?,
        },
        derivation: over(alloc, Rule::J8, pushed(alloc)?)?,
        bodies: Vec::new(alloc),
    })
}

/// The entry of an assignment of a VALOF, whose body has 12 items, to the variable.
fn assignment(alloc: Global) -> Result<Entry, Memory> {
    let mut bodies = Vec::new(alloc);
    bodies.push(12)?;
    Ok(Entry {
        segment: u64::MAX,
        item: 7,
        target: 0,
        first: 20,
        root: Root::Assign {
            level: 5,
            value: CoreExp::Valof(3),
            address: variable(alloc)?,
        },
        derivation: over(alloc, Rule::A1, leaf(alloc, Rule::V22))?,
        bodies,
    })
}

/// Whether the certificate of both is right.
fn has_two(alloc: Global) -> Result<bool, CertFault> {
    let mut entries = Vec::new(alloc);
    entries.push(test(alloc)?)?;
    entries.push(assignment(alloc)?)?;
    Ok(written(alloc, entries.as_slice())?.as_slice() == TWO)
}

/// Whether the certificate without entries is right.
fn has_none(alloc: Global) -> Result<bool, CertFault> {
    Ok(written(alloc, &[])?.as_slice() == NONE)
}

#[test]
fn writes_a_test_and_an_assignment(rt: HostRuntime) {
    assert_eq!(rt; has_two(rt.alloc()), Ok(true));
    assert_eq!(rt; has_none(rt.alloc()), Ok(true));
}

/// A writer that takes `left` bytes, and then fails or takes nothing.
#[derive(Drop)]
struct Stuck {
    left: usize,
    fails: bool,
}

impl Write for Stuck {
    fn write(&mut self, buf: &[u8]) -> io::Result<usize> {
        if self.left == 0 && self.fails {
            return Err(io::Error::from(ErrorKind::Other));
        }
        let taken = self.left.min(buf.len());
        self.left -= taken;
        Ok(taken)
    }

    fn flush(&mut self) -> io::Result<()> {
        Ok(())
    }
}

/// Whether `write_cert` returns `Write` with such a writer.
fn is_answered(alloc: Global, entries: &[Entry], left: usize, fails: bool) -> bool {
    let mut out = Stuck { left, fails };
    write_cert(alloc, entries, &mut out) == Err(CertFault::Write)
}

/// The first number of bytes after which a writer gets stuck and the result isn't `Write`.
fn otherwise(alloc: Global, entries: &[Entry]) -> Option<usize> {
    for left in 0..SAMPLE.len() {
        for fails in [true, false] {
            if !is_answered(alloc, entries, left, fails) {
                return Some(left);
            }
        }
    }
    None
}

/// The same for the sample.
fn otherwise_of_sample(alloc: Global) -> Result<Option<usize>, Memory> {
    let entries = sample(alloc)?;
    Ok(otherwise(alloc, entries.as_slice()))
}

#[test]
fn a_failing_writer_is_answered(rt: HostRuntime) {
    assert_eq!(rt; otherwise_of_sample(rt.alloc()), Ok(None));
}

/// Whether the sample is written, or `Memory` is returned where that is allowed.
fn calls(alloc: Global, may_refuse: bool) -> bool {
    match sample_text(alloc) {
        Ok(text) => text.as_slice() == SAMPLE,
        Err(fault) => may_refuse && fault == CertFault::Memory,
    }
}

/// The certificate of the sample.
fn sample_text(alloc: Global) -> Result<Vec<u8>, CertFault> {
    let entries = sample(alloc)?;
    written(alloc, entries.as_slice())
}

#[test]
fn growth_is_given(rt: HostRuntime) {
    assert!(rt; calls(rt.alloc(), false));
}

/// Under `tests/stress/failed-allocations` each allocation fails in turn. The result must be right, or a failed allocation.
#[test]
fn refused_growth_is_memory(rt: HostRuntime) {
    assert!(rt; calls(rt.alloc(), true));
}
