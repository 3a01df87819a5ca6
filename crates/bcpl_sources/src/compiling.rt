//! The command `build`.

ghost use Rattle.std.specs.Prelude.{◌≡◌, ◌<◌, All, IfOk, length, map};
ghost use Rattle.std.specs.List.{AllZip};
ghost use Rattle.bc_rules_defs.specs.View.{entry as entry_view};
ghost use Rattle.bc_cert_write.specs.Workings.{WorkedOut};
ghost use Rattle.bcpl_cli.specs.declared.failure.Cause.TheVariants as causes;

use crate::diagnostics::{Accepted, Program, explanation_of, part_warnings, warnings_of};
use crate::output::{of_listing, of_output};
use crate::source_files::{Gathered, lean_texts};
use crate::standard::Console;
use crate::taming::room_of_built;
use crate::unused_gets::ignored_gets;
use bc_build::{BuildError, Built, Parsed, build, build_keeping};
use bc_cert::{CertFault, write_worked};
use bc_text::{TextError, print};
use bc_text_items::Segment;
use bc_word::Memory;
use bcpl_cli::{
    AtomicFile, BuildOrder, Cause, Failure, FilePair, LinkedLibrary, Links, LoadedSource, Sources,
    is_regular, is_standard_output, load_sources,
};
use std::alloc::{AllocError, Global};
use std::io;
use std::io::{BufWriter, Read, Write};
use std::mem::forget;
use std::rt::Files;

/// The failure of a refused build. If `explains`, it explains the refusal, and those of later mains.
pub fn refused(
    alloc: Global,
    program: &Program<'_, '_>,
    fault: BuildError,
    explains: bool,
) -> Failure
    ensures { result.cause ≡ causes.Build fault }
{
    let explanation = if explains {
        explanation_of(alloc, program, &fault).ok()
    } else {
        None
    };
    Failure {
        cause: Cause::Build(fault),
        explanation,
    }
}

/// Builds a program. If `warns`, appends to `parsed` what its mains were parsed to, which its warnings need.
fn build_and_keep<'s>(
    alloc: Global,
    program: &Program<'_, 's>,
    warns: bool,
    parsed: &mut Vec<Parsed<'s>>,
) -> Result<Built, BuildError>
    requires { All (λ main. main < length program.now.named.sources.now) program.now.mains.now }
    ensures { IfOk result (λ built. AllZip WorkedOut (map entry_view built.entries.items) built.workings.items) }
{
    if warns {
        build_keeping(alloc, program.named.sources, program.mains, parsed)
    } else {
        build(alloc, program.named.sources, program.mains)
    }
}

/// The warnings about the sources of a program that was built to this. Without the library they are a part of a program.
fn source_warnings<'s>(
    alloc: Global,
    given: &Sources<'_>,
    gathered: &Gathered<'_, 's>,
    accepted: &Accepted<'_, 's>,
) -> Result<String, Memory> {
    let program = gathered.program();
    if given.linked == LinkedLibrary::Nothing {
        part_warnings(alloc, gathered.library, &program, accepted.parsed)
    } else {
        warnings_of(alloc, gathered.library, &program, accepted)
    }
}

/// The warnings about a program that was built to this.
pub fn warnings_on<'s>(
    alloc: Global,
    given: &Sources<'_>,
    gathered: &Gathered<'_, 's>,
    accepted: &Accepted<'_, 's>,
) -> Result<String, Memory> {
    let mut warnings = ignored_gets(alloc, given)?;
    let further = source_warnings(alloc, given, gathered, accepted)?;
    warnings.push_str(further.as_str())?;
    Ok(warnings)
}

/// The warnings, if there are to be any.
fn warnings_wanted<'s>(
    alloc: Global,
    order: &BuildOrder<'_>,
    gathered: &Gathered<'_, 's>,
    accepted: &Accepted<'_, 's>,
    warns: bool,
) -> Result<String, Memory> {
    if warns {
        warnings_on(alloc, &order.sources, gathered, accepted)
    } else {
        Ok(String::new(alloc))
    }
}

/// Builds a program and collects its warnings. If `explains`, explains refusals and collects warnings.
fn built_of(
    alloc: Global,
    order: &BuildOrder<'_>,
    gathered: &Gathered<'_, '_>,
    explains: bool,
) -> Result<(Built, String), Failure>
    ensures { IfOk result (λ found. AllZip WorkedOut (map entry_view found.0.entries.items) found.0.workings.items) }
{
    let program = gathered.program();
    let warns = order.warns && explains;
    let mut parsed = Vec::new(alloc);
    match build_and_keep(alloc, &program, warns, &mut parsed) {
        Ok(built) => {
            let accepted = Accepted {
                segments: built.segments.as_slice(),
                parsed: parsed.as_slice(),
            };
            let found = warnings_wanted(alloc, order, gathered, &accepted, warns);
            // The process is about to end, and the system frees all its memory at once.
            forget(parsed);
            match found {
                Ok(warnings) => Ok((built, warnings)),
                Err(_) => Err(Failure::new(Cause::Memory)),
            }
        }
        Err(fault) => Err(refused(alloc, &program, fault, explains)),
    }
}

/// Fails unless the program is tame, if that is ordered.
fn check_tame(
    alloc: Global,
    order: &BuildOrder<'_>,
    gathered: &Gathered<'_, '_>,
    built: &Built,
) -> Result<(), Failure> {
    if order.only_tame {
        let _room = room_of_built(alloc, gathered, built)?;
    }
    Ok(())
}

/// Like `built_of`. If that is ordered, fails unless the program is tame.
fn built_as_ordered(
    alloc: Global,
    order: &BuildOrder<'_>,
    gathered: &Gathered<'_, '_>,
    explains: bool,
) -> Result<(Built, String), Failure>
    ensures { IfOk result (λ found. AllZip WorkedOut (map entry_view found.0.entries.items) found.0.workings.items) }
{
    let (built, warnings) = built_of(alloc, order, gathered, explains)?;
    check_tame(alloc, order, gathered, &built)?;
    Ok((built, warnings))
}

/// Builds the program of the library and these files, and collects its warnings.
fn built_from(
    alloc: Global,
    order: &BuildOrder<'_>,
    files: &[LoadedSource],
    explains: bool,
) -> Result<(Built, String), Failure>
    ensures { IfOk result (λ found. AllZip WorkedOut (map entry_view found.0.entries.items) found.0.workings.items) }
{
    let lean = lean_texts(alloc, &order.sources, files)?;
    let gathered = Gathered::with_lean_library(alloc, &order.sources, files, lean.as_slice())?;
    built_as_ordered(alloc, order, &gathered, explains)
}

/// Reads the files, builds the program of the library and the files, and collects its warnings. If that is ordered, fails
/// unless the program is tame.
fn built<F: Files>(
    rt: &F,
    alloc: Global,
    order: &BuildOrder<'_>,
    explains: bool,
) -> Result<(Built, String), Failure>
    ensures { IfOk result (λ found. AllZip WorkedOut (map entry_view found.0.entries.items) found.0.workings.items) }
{
    let files = load_sources(rt, alloc, &order.sources)?;
    order.protect_files(rt, alloc, files.as_slice())?;
    built_from(alloc, order, files.as_slice(), explains)
}

/// Prints these segments as INTCODE text.
fn print_all<W: Write>(segments: &[Segment], out: &mut W) -> Result<(), TextError> {
    for segment in segments {
        print(segment, out)?;
    }
    Ok(())
}

/// Prints these segments to the file with this path. Fails if they can't be printed or written.
fn fill_text<W: Write + Drop>(
    alloc: Global,
    path: &str,
    segments: &[Segment],
    written: &mut AtomicFile<W>,
) -> Result<(), Failure> {
    match print_all(segments, written.out()) {
        Ok(()) => Ok(()),
        Err(TextError::Write) => Err(written.failure(alloc, path)),
        Err(fault) => Err(Failure::from(fault)),
    }
}

/// Writes these segments to the file with this path, as `AtomicFile` does.
fn write_segments<F: Files>(
    rt: &F,
    alloc: Global,
    path: &str,
    links: Links,
    segments: &[Segment],
) -> Result<(), Failure> {
    let mut written = AtomicFile::begin(rt, alloc, path, links)?;
    match fill_text(alloc, path, segments, &mut written) {
        Ok(()) => written.finish(rt, alloc, path),
        Err(failure) => {
            written.abandon(rt);
            Err(failure)
        }
    }
}

/// Prints these segments on standard output. If its reader closed it, that is no failure.
fn print_segments<O: Write + Drop>(
    alloc: Global,
    segments: &[Segment],
    out: &mut O,
) -> Result<(), Failure> {
    let mut out = match BufWriter::new(alloc, out) {
        Ok(out) => out,
        Err(error) => return Err(Failure::io(alloc, &error, "SYSPRINT")),
    };
    let printed = print_all(segments, &mut out);
    match (printed, out.flush()) {
        (Ok(()), flushed) => of_listing(alloc, flushed),
        (Err(TextError::Write), Ok(())) => Err(Failure::file(alloc, "SYSPRINT")),
        (Err(TextError::Write), flushed) => of_listing(alloc, flushed),
        (Err(fault), _) => Err(Failure::from(fault)),
    }
}

/// Writes these segments to the file of the text, or prints them if that is standard output.
fn write_text<F: Files, O: Write + Drop>(
    rt: &F,
    alloc: Global,
    order: &BuildOrder<'_>,
    segments: &[Segment],
    out: &mut O,
) -> Result<(), Failure> {
    if is_standard_output(order.out) {
        print_segments(alloc, segments, out)
    } else {
        write_segments(rt, alloc, order.out, order.links, segments)
    }
}

/// Prints the certificate of a program to the file with this path. Fails if it can't be printed or written.
fn fill_certificate<W: Write + Drop>(
    alloc: Global,
    path: &str,
    built: &Built,
    written: &mut AtomicFile<W>,
) -> Result<(), Failure>
    requires { AllZip WorkedOut (map entry_view built.now.entries.items) built.now.workings.items }
{
    let entries = built.entries.as_slice();
    match write_worked(alloc, entries, built.workings.as_slice(), written.out()) {
        Ok(()) => Ok(()),
        Err(CertFault::Write) => Err(written.failure(alloc, path)),
        Err(CertFault::Memory) => Err(Failure::new(Cause::Certificate)),
    }
}

/// Writes the certificate of a program to the file with this path, as `AtomicFile` does.
fn write_certificate<F: Files>(
    rt: &F,
    alloc: Global,
    path: &str,
    links: Links,
    built: &Built,
) -> Result<(), Failure>
    requires { AllZip WorkedOut (map entry_view built.now.entries.items) built.now.workings.items }
{
    let mut written = AtomicFile::begin(rt, alloc, path, links)?;
    match fill_certificate(alloc, path, built, &mut written) {
        Ok(()) => written.finish(rt, alloc, path),
        Err(failure) => {
            written.abandon(rt);
            Err(failure)
        }
    }
}

/// Prints the text and the certificate of a program to these two files, whose paths are given. Fails if one of them can't
/// be printed or written.
fn fill_pair<W: Write + Drop>(
    alloc: Global,
    paths: (&str, &str),
    built: &Built,
    pair: &mut FilePair<'_, W>,
) -> Result<(), Failure>
    requires { AllZip WorkedOut (map entry_view built.now.entries.items) built.now.workings.items }
{
    fill_text(alloc, paths.0, built.segments.as_slice(), &mut pair.first)?;
    fill_certificate(alloc, paths.1, built, &mut pair.second)
}

/// Writes the text and the certificate of a program to the files with these paths, as `FilePair` does.
fn write_pair<'p, F: Files>(
    rt: &F,
    alloc: Global,
    paths: (&'p str, &'p str),
    links: Links,
    built: &Built,
) -> Result<(), Failure>
    requires { AllZip WorkedOut (map entry_view built.now.entries.items) built.now.workings.items }
{
    let mut pair = FilePair::begin(rt, alloc, paths, links)?;
    match fill_pair(alloc, paths, built, &mut pair) {
        Ok(()) => pair.finish(rt, alloc),
        Err(failure) => {
            pair.abandon(rt);
            Err(failure)
        }
    }
}

/// Writes the text and the certificate, if one is ordered. An old text is replaced together with its certificate. If
/// there is none, the text is written completely before the certificate is begun; so is what goes to standard output, a
/// device or a pipe, which can't be taken back.
fn write_files<F: Files, O: Write + Drop>(
    rt: &F,
    alloc: Global,
    order: &BuildOrder<'_>,
    built: &Built,
    out: &mut O,
) -> Result<(), Failure>
    requires { AllZip WorkedOut (map entry_view built.now.entries.items) built.now.workings.items }
{
    let segments = built.segments.as_slice();
    let Some(certificate) = order.certificate else {
        return write_text(rt, alloc, order, segments, out);
    };
    if !is_standard_output(order.out) && is_regular(rt, order.out) {
        write_pair(rt, alloc, (order.out, certificate), order.links, built)
    } else {
        write_text(rt, alloc, order, segments, out)?;
        write_certificate(rt, alloc, certificate, order.links, built)
    }
}

/// Prints the result of `build`.
fn print_result<O: Write + Drop>(built: &Built, out: &mut O) -> io::Result<()> {
    let segments = built.segments.len();
    let entries = built.entries.len();
    let stack_base = built.image.stack_base.get();
    writeln!(out, "ok {segments} {entries} {stack_base}")?;
    out.flush()
}

/// The size of the block that `make_room` allocates, in bytes: more than any vector of a build, and small enough for
/// the C library to keep the block instead of mapping it separately.
const ROOM: usize = 24 << 20;

/// Allocates a large block and frees it untouched. From then on the C library keeps large freed vectors, so memory
/// used for reading the sources is reused for their code, and the system is asked for fewer pages.
fn make_room(alloc: Global) {
    let _room: Result<Vec<u8>, AllocError> = Vec::with_capacity(alloc, ROOM);
}

/// Prints the result of `build`: on standard error, if standard output has the text.
fn report<R: Read + Drop, O: Write + Drop, E: Write + Drop>(
    alloc: Global,
    order: &BuildOrder<'_>,
    built: &Built,
    console: &mut Console<R, O, E>,
) -> Result<(), Failure> {
    if is_standard_output(order.out) {
        let _ = print_result(built, &mut console.err);
        Ok(())
    } else {
        of_output(alloc, print_result(built, &mut console.out))
    }
}

/// Writes the files of a program and prints the result.
fn write_and_report<F: Files, R: Read + Drop, O: Write + Drop, E: Write + Drop>(
    rt: &F,
    alloc: Global,
    order: &BuildOrder<'_>,
    built: &Built,
    console: &mut Console<R, O, E>,
) -> Result<(), Failure>
    requires { AllZip WorkedOut (map entry_view built.now.entries.items) built.now.workings.items }
{
    match write_files(rt, alloc, order, built, &mut console.out) {
        Ok(()) => report(alloc, order, built, console),
        Err(failure) => Err(failure),
    }
}

/// Runs `build`: builds a program, writes its text and certificate, and prints the result. Returns the warnings. If
/// `console.explains`, explains refusals and collects warnings.
pub fn compile<F: Files, R: Read + Drop, O: Write + Drop, E: Write + Drop>(
    rt: &F,
    alloc: Global,
    order: &BuildOrder<'_>,
    console: &mut Console<R, O, E>,
) -> Result<String, Failure> {
    make_room(alloc);
    let (program, warnings) = built(rt, alloc, order, console.explains)?;
    let done = write_and_report(rt, alloc, order, &program, console);
    // The process is about to end, and the system frees all its memory at once.
    forget(program);
    match done {
        Ok(()) => Ok(warnings),
        Err(failure) => Err(failure),
    }
}
