//! The command `check`.

use bc_cert::{CheckFault, Judged, Mismatch, Verdict, check, check_against, check_sums};
use bc_text_items::Segment;
use bc_word::Memory;
use bcpl_cli::{Cause, CheckOrder, Failure, shown_path};
use bcpl_reports::{Text, against_lines, check_lines};
use bcpl_sources::{of_output, read_texts, readable, segments_of, texts_of, with_explanation};
use std::alloc::Global;
use std::io::{BufReader, Read, Write};
use std::rt::Files;
use std::{fs, io};

/// The explanation of a fault in a certificate, which is read again for it. `Memory` if an allocation fails or the
/// file can't be read.
fn lines_on<F: Files>(
    rt: &F,
    alloc: Global,
    path: &str,
    fault: CheckFault,
) -> Result<String, Memory> {
    match readable(rt, alloc, path) {
        Some(bytes) => {
            let shown = shown_path(alloc, path)?;
            let text = Text {
                path: shown.as_str(),
                bytes: bytes.as_slice(),
            };
            check_lines(alloc, text, fault)
        }
        None => Err(Memory),
    }
}

/// The explanation if a certificate can be opened but not read to its end.
const NOT_READ: &str =
    "reading failed before the end of the file, or the file is larger than 1073741824 bytes";

/// The refusal of a certificate that can be opened but not read to its end.
fn not_read(alloc: Global, path: &str) -> Failure {
    let mut shown = Failure::file_since(alloc, path, NOT_READ);
    shown.cause = Cause::Check(CheckFault::Read);
    shown
}

/// The failure of a certificate that can't be read to its end: that of the file if not even its first byte can be
/// read, and otherwise a refusal.
fn unread<F: Files>(rt: &F, alloc: Global, path: &str) -> Failure {
    let mut first = [0u8; 1];
    let read = match fs::open(rt, path) {
        Ok(mut file) => file.read(&mut first),
        Err(error) => Err(error),
    };
    match read {
        Ok(_) => not_read(alloc, path),
        Err(error) => Failure::io(alloc, &error, path),
    }
}

/// The failure for a fault in the certificate with this path, with an explanation if `explains`.
fn refused<F: Files>(
    rt: &F,
    alloc: Global,
    path: &str,
    fault: CheckFault,
    explains: bool,
) -> Failure {
    match fault {
        CheckFault::Read => unread(rt, alloc, path),
        fault => {
            let failure = Failure::new(Cause::Check(fault));
            if explains {
                with_explanation(alloc, failure, lines_on(rt, alloc, path, fault))
            } else {
                failure
            }
        }
    }
}

/// Opens the certificate with this path.
fn opened<F: Files>(rt: &F, alloc: Global, path: &str) -> Result<BufReader<F::File>, Failure> {
    let file = match fs::open(rt, path) {
        Ok(file) => file,
        Err(error) => return Err(Failure::io(alloc, &error, path)),
    };
    match BufReader::new(alloc, file) {
        Ok(reader) => Ok(reader),
        Err(error) => Err(Failure::io(alloc, &error, path)),
    }
}

/// Checks the certificate with this path and returns what it says. If `explains`, explains a refusal.
pub fn verdict_of<F: Files>(
    rt: &F,
    alloc: Global,
    path: &str,
    explains: bool,
) -> Result<Verdict, Failure> {
    match check(alloc, opened(rt, alloc, path)?) {
        Ok(verdict) => Ok(verdict),
        Err(fault) => Err(refused(rt, alloc, path, fault, explains)),
    }
}

/// Checks the certificate with this path, without keeping its entries. Returns the number of entries and the sum of
/// their words.
fn sums_of<F: Files>(
    rt: &F,
    alloc: Global,
    path: &str,
    explains: bool,
) -> Result<(u64, u64), Failure> {
    match check_sums(alloc, opened(rt, alloc, path)?) {
        Ok(sums) => Ok((sums.entries, sums.words)),
        Err(fault) => Err(refused(rt, alloc, path, fault, explains)),
    }
}

/// The number of these entries and the sum of their words.
fn sums_in(entries: &[Judged]) -> (u64, u64) {
    let mut words: u64 = 0;
    for entry in entries {
        words = words.saturating_add(entry.words);
    }
    (entries.len() as u64, words)
}

/// Checks a certificate and compares it with texts. Returns the number of entries and the sum of their words.
fn sums_against<F: Files>(
    rt: &F,
    alloc: Global,
    order: &CheckOrder<'_>,
    explains: bool,
) -> Result<(u64, u64), Failure> {
    let verdict = verdict_of(rt, alloc, order.certificate, explains)?;
    match compare(rt, alloc, order, &verdict, explains) {
        Ok(()) => Ok(sums_in(verdict.entries.as_slice())),
        Err(failure) => Err(failure),
    }
}

/// What a certificate says, and the texts and segments to compare it with.
#[derive(Clone, Copy)]
struct Compared<'c> {
    verdict: &'c Verdict,
    texts: &'c [Text<'c>],
    segments: &'c [Segment],
}

/// The explanation if the texts do not have the certified code. The certificate is read again for it. `Memory` if an
/// allocation fails or the file can't be read.
fn lines_against<F: Files>(
    rt: &F,
    alloc: Global,
    path: &str,
    compared: Compared<'_>,
    mismatch: Mismatch,
) -> Result<String, Memory> {
    match readable(rt, alloc, path) {
        Some(bytes) => {
            let shown = shown_path(alloc, path)?;
            let certificate = Text {
                path: shown.as_str(),
                bytes: bytes.as_slice(),
            };
            let with = (compared.texts, compared.segments);
            against_lines(alloc, certificate, compared.verdict, with, mismatch)
        }
        None => Err(Memory),
    }
}

/// Compares a certificate with the segments. The failure for a mismatch has an explanation if `explains`.
fn judged<F: Files>(
    rt: &F,
    alloc: Global,
    path: &str,
    compared: Compared<'_>,
    explains: bool,
) -> Result<(), Failure> {
    match check_against(compared.verdict, compared.segments) {
        Ok(()) => Ok(()),
        Err(mismatch) => {
            let failure = Failure::new(Cause::Against(mismatch));
            Err(if explains {
                with_explanation(
                    alloc,
                    failure,
                    lines_against(rt, alloc, path, compared, mismatch),
                )
            } else {
                failure
            })
        }
    }
}

/// Reads the texts and compares the certificate with them.
fn compare<F: Files>(
    rt: &F,
    alloc: Global,
    order: &CheckOrder<'_>,
    verdict: &Verdict,
    explains: bool,
) -> Result<(), Failure> {
    let files = read_texts(rt, alloc, order.texts.as_slice())?;
    let texts = texts_of(alloc, files.as_slice())?;
    let segments = segments_of(alloc, texts.as_slice(), explains)?;
    let compared = Compared {
        verdict,
        texts: texts.as_slice(),
        segments: segments.as_slice(),
    };
    judged(rt, alloc, order.certificate, compared, explains)
}

/// Prints the result of `check`.
fn print_result<O: Write + Drop>(entries: u64, words: u64, out: &mut O) -> io::Result<()> {
    writeln!(out, "ok {entries} {words}")?;
    out.flush()
}

/// The number of entries and the sum of their words, if the certificate and the texts, if any, are accepted.
fn sums_asked<F: Files>(
    rt: &F,
    alloc: Global,
    order: &CheckOrder<'_>,
    explains: bool,
) -> Result<(u64, u64), Failure> {
    if order.texts.is_empty() {
        sums_of(rt, alloc, order.certificate, explains)
    } else {
        sums_against(rt, alloc, order, explains)
    }
}

/// Runs `check`: checks a certificate and, if texts are named, whether they have its code. If `explains`, explains a
/// refusal.
pub fn check_certificate<F: Files, O: Write + Drop>(
    rt: &F,
    alloc: Global,
    order: &CheckOrder<'_>,
    explains: bool,
    out: &mut O,
) -> Result<(), Failure> {
    let (entries, words) = sums_asked(rt, alloc, order, explains)?;
    of_output(alloc, print_result(entries, words, out))
}
