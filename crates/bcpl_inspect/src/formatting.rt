//! The command `format`.

use bc_build::BuildError;
use bc_lex::{LexError, Source};
use bc_library_ext::EXTHDR;
use bc_run::LIBHDR;
use bc_word::Memory;
use bcpl_cli::{AtomicFile, Cause, Failure, FormatOrder, FormatTo, Places, contents};
use bcpl_format::{FormatError, Style, formatted};
use bcpl_messages::Named;
use bcpl_sources::{Growing, Program, refused};
use std::alloc::Global;
use std::io::Write;
use std::rt::Files;
use std::{fs, str};

/// The greatest number of further sources that GETs of a source may name.
const MOST_HEADERS: usize = 200;

/// The index of the source among those that `sources_for` returns, as in a build.
const MAIN: usize = 2;

/// What is said of a source whose layout would have other tokens.
const CHANGED: &str =
    "the layout would change what this source says, which is a mistake of bcpl; nothing was written";

/// A source that GETs name.
#[derive(Drop)]
struct Header {
    name: Vec<u8>,
    text: Vec<u8>,
}

/// A source that is to be laid out, and those that its GETs may name.
#[derive(Clone, Copy)]
struct Given<'g> {
    path: &'g str,
    text: &'g [u8],
    headers: &'g [Header],
}

/// A source and its layout.
#[derive(Drop)]
struct Job<'a> {
    path: &'a str,
    old: Vec<u8>,
    new: Vec<u8>,
}

/// What came of an attempt to lay out a source.
#[derive(Drop)]
enum Attempt {
    /// Its layout.
    Done(Vec<u8>),
    /// The GET at this offset of this source names none of the sources.
    Missing(usize, usize),
    /// There is no layout.
    Failed(FormatError),
}

/// What comes next in laying out a source.
#[derive(Drop)]
enum LayoutStep {
    /// Nothing: this is its layout.
    Done(Vec<u8>),
    /// Another attempt with this source, which it gets.
    Further(Header),
    /// Nothing: there is no layout.
    Failed(FormatError),
}

/// The folder of a file, with the slash at its end, or an empty text.
fn folder_of(path: &str) -> &str {
    let name = path.rsplit('/').next().unwrap_or(path);
    path.get(..path.len().saturating_sub(name.len()))
        .unwrap_or("")
}

/// The content of the plain file with this path; empty if there is none, or if it can't be read.
fn plain_content<F: Files>(rt: &F, alloc: Global, path: &str) -> Vec<u8> {
    let found = match fs::metadata(rt, path) {
        Ok(found) if found.is_file() => contents(rt, alloc, path).ok(),
        _ => None,
    };
    match found {
        Some(text) => text,
        None => Vec::new(alloc),
    }
}

/// The text of the plain file with this name in the folder of another one; empty if there is none.
fn text_beside<F: Files>(
    rt: &F,
    alloc: Global,
    path: &str,
    name: &[u8],
) -> Result<Vec<u8>, Memory> {
    match str::from_utf8(name) {
        Ok(name) if !name.is_empty() && !name.contains('/') => {
            let folder = folder_of(path);
            let beside = format!(in alloc; "{folder}{name}")?;
            Ok(plain_content(rt, alloc, beside.as_str()))
        }
        _ => Ok(Vec::new(alloc)),
    }
}

/// The name in quotes that the GET at an offset of a text has; `None` if it has none that is kept as it is spelled.
fn got_name(text: &[u8], offset: usize) -> Option<&[u8]> {
    let mut parts = text.get(offset..)?.split(|byte| *byte == b'"');
    let before = parts.next()?;
    let name = parts.next()?;
    let is_string_next = before.iter().skip(3).all(|byte| byte.is_ascii_whitespace());
    if is_string_next && !name.contains(&b'*') && !name.contains(&b'\n') {
        Some(name)
    } else {
        None
    }
}

/// The source, and those that its GETs may name.
fn sources_for<'g>(alloc: Global, given: &Given<'g>) -> Result<Vec<Source<'g>>, Memory> {
    let mut sources = Growing::new(alloc);
    sources.add(Source {
        name: b"LIBHDR",
        text: LIBHDR.as_bytes(),
    });
    sources.add(Source {
        name: b"EXTHDR",
        text: EXTHDR.as_bytes(),
    });
    sources.add(Source {
        name: given.path.as_bytes(),
        text: given.text,
    });
    for header in given.headers {
        sources.add(Source {
            name: header.name.as_slice(),
            text: header.text.as_slice(),
        });
    }
    sources.whole()
}

/// Lays out a source in lines of this width.
fn attempt_at(alloc: Global, given: &Given<'_>, width: usize) -> Result<Attempt, Memory> {
    let sources = sources_for(alloc, given)?;
    if sources.len() <= MAIN {
        return Ok(Attempt::Failed(FormatError::Memory));
    }
    match formatted(alloc, sources.as_slice(), MAIN, Style { width }) {
        Ok(laid) => Ok(Attempt::Done(laid)),
        Err(FormatError::Lex(LexError::GetMissing(file, offset))) => {
            Ok(Attempt::Missing(file, offset))
        }
        Err(error) => Ok(Attempt::Failed(error)),
    }
}

/// The failure of a source that the lexer refuses.
fn lexical_failure(
    alloc: Global,
    order: &FormatOrder<'_>,
    given: &Given<'_>,
    fault: LexError,
    explains: bool,
) -> Result<Failure, Memory> {
    let sources = sources_for(alloc, given)?;
    let mut paths = Growing::new(alloc);
    for source in &sources {
        paths.add(str::from_utf8(source.name).unwrap_or(given.path));
    }
    let paths = paths.whole()?;
    let program = Program {
        named: Named {
            sources: sources.as_slice(),
            paths: paths.as_slice(),
        },
        mains: &[],
        is_json: matches!(order.places, Places::Json),
        explains_all: false,
    };
    Ok(refused(alloc, &program, BuildError::Lex(MAIN, fault), explains))
}

/// The failure of a source that has no layout.
fn failure_of(
    alloc: Global,
    order: &FormatOrder<'_>,
    given: &Given<'_>,
    error: FormatError,
    explains: bool,
) -> Failure {
    match error {
        FormatError::Lex(fault) => {
            match lexical_failure(alloc, order, given, fault, explains) {
                Ok(failure) => failure,
                Err(_) => Failure::new(Cause::Memory),
            }
        }
        FormatError::Changed => Failure::file_since(alloc, given.path, CHANGED),
        FormatError::Memory => Failure::new(Cause::Memory),
    }
}

/// The text of the source with this index.
fn text_at<'s>(text: &'s [u8], headers: &'s [Header], file: usize) -> &'s [u8] {
    match file.checked_sub(MAIN.saturating_add(1)) {
        None => text,
        Some(number) => match headers.get(number) {
            Some(header) => header.text.as_slice(),
            None => text,
        },
    }
}

/// The source that the GET at an offset of this source names, from the folder of the one that is laid out; `None` if the GET has
/// no name that is kept as it is spelled.
fn header_got<F: Files>(
    rt: &F,
    alloc: Global,
    given: &Given<'_>,
    file: usize,
    offset: usize,
) -> Result<Option<Header>, Memory> {
    match got_name(text_at(given.text, given.headers, file), offset) {
        Some(name) => Ok(Some(Header {
            name: Vec::from_slice(alloc, name)?,
            text: text_beside(rt, alloc, given.path, name)?,
        })),
        None => Ok(None),
    }
}

/// Lays out a source in lines of this width, or finds the next source that it gets.
fn step<F: Files>(
    rt: &F,
    alloc: Global,
    given: &Given<'_>,
    width: usize,
) -> Result<LayoutStep, Memory> {
    match attempt_at(alloc, given, width)? {
        Attempt::Done(laid) => Ok(LayoutStep::Done(laid)),
        Attempt::Failed(error) => Ok(LayoutStep::Failed(error)),
        Attempt::Missing(file, offset) => match header_got(rt, alloc, given, file, offset)? {
            Some(header) => Ok(LayoutStep::Further(header)),
            None => Ok(LayoutStep::Failed(FormatError::Lex(LexError::GetMissing(file, offset)))),
        },
    }
}

/// The layout of a text. Sources that it gets are looked for in its folder; one that isn't there counts as empty.
fn layout_of<F: Files>(
    rt: &F,
    alloc: Global,
    order: &FormatOrder<'_>,
    source: (&str, &[u8]),
    explains: bool,
) -> Result<Vec<u8>, Failure> {
    let (path, text) = source;
    let mut headers: Vec<Header> = Vec::new(alloc);
    for _ in 0..MOST_HEADERS {
        let given = Given {
            path,
            text,
            headers: headers.as_slice(),
        };
        match step(rt, alloc, &given, order.width)? {
            LayoutStep::Done(laid) => return Ok(laid),
            LayoutStep::Further(header) => headers.push(header)?,
            LayoutStep::Failed(error) => return Err(failure_of(
                alloc, order, &given, error, explains,
            )),
        }
    }
    Err(Failure::file_since(alloc, path, "this source gets more than 200 others"))
}

/// Reads the sources and lays them out.
fn jobs_of<'a, F: Files>(
    rt: &F,
    alloc: Global,
    order: &FormatOrder<'a>,
    explains: bool,
) -> Result<Vec<Job<'a>>, Failure> {
    let mut jobs = Vec::new(alloc);
    for path in &order.files {
        let old = order.standard.contents(rt, alloc, path)?;
        let path = order.standard.name_of(path);
        let new = layout_of(rt, alloc, order, (path, old.as_slice()), explains)?;
        jobs.push(Job { path, old, new })?;
    }
    Ok(jobs)
}

/// Writes to standard output.
fn print<O: Write + Drop>(alloc: Global, bytes: &[u8], out: &mut O) -> Result<(), Failure> {
    if out.write_all(bytes).is_ok() && out.flush().is_ok() {
        Ok(())
    } else {
        Err(Failure::file(alloc, "SYSPRINT"))
    }
}

/// Overwrites a source with its layout, unless that is the same.
fn write_source<F: Files>(
    rt: &F,
    alloc: Global,
    order: &FormatOrder<'_>,
    job: &Job<'_>,
) -> Result<(), Failure> {
    if job.old.as_slice() == job.new.as_slice() {
        return Ok(());
    }
    let mut written = AtomicFile::begin(rt, alloc, job.path, order.links)?;
    match written.out().write_all(job.new.as_slice()) {
        Ok(()) => written.finish(rt, alloc, job.path),
        Err(error) => {
            written.abandon(rt);
            Err(Failure::io(alloc, &error, job.path))
        }
    }
}

/// Refuses to lay out in place what is no plain file.
fn refuse_device<F: Files>(rt: &F, alloc: Global, path: &str) -> Result<(), Failure> {
    match fs::metadata(rt, path) {
        Ok(found) if !found.is_file() => {
            let reason = "this isn't a plain file and can't be laid out in place";
            Err(Failure::file_since(alloc, path, reason))
        }
        _ => Ok(()),
    }
}

/// Prints the paths of the sources that aren't laid out. Fails if there are any.
fn check_jobs<O: Write + Drop>(
    alloc: Global,
    jobs: &[Job<'_>],
    out: &mut O,
) -> Result<(), Failure> {
    let mut count: usize = 0;
    for job in jobs {
        if job.old.as_slice() != job.new.as_slice() {
            let path = job.path;
            let line = format!(in alloc; "{path}\n")?;
            print(alloc, line.as_bytes(), out)?;
            count = count.saturating_add(1);
        }
    }
    if count == 0 {
        Ok(())
    } else {
        Err(Failure::new(Cause::NotLaidOut(count)))
    }
}

/// Refuses to lay out in place what is no plain file, if the sources are laid out in place.
fn refuse_devices<F: Files>(rt: &F, alloc: Global, order: &FormatOrder<'_>) -> Result<(), Failure> {
    if order.to == FormatTo::Source {
        order.standard.refuse_place(
            alloc,
            "this isn't a plain file and can't be laid out in place",
        )?;
        for path in &order.files {
            refuse_device(rt, alloc, path)?;
        }
    }
    Ok(())
}

/// Prints the layouts.
fn print_jobs<O: Write + Drop>(
    alloc: Global,
    jobs: &[Job<'_>],
    out: &mut O,
) -> Result<(), Failure> {
    for job in jobs {
        print(alloc, job.new.as_slice(), out)?;
    }
    Ok(())
}

/// Overwrites the sources with their layouts.
fn write_sources<F: Files>(
    rt: &F,
    alloc: Global,
    order: &FormatOrder<'_>,
    jobs: &[Job<'_>],
) -> Result<(), Failure> {
    for job in jobs {
        write_source(rt, alloc, order, job)?;
    }
    Ok(())
}

/// Lays out sources. All are read and laid out before the first one is written.
///
/// # Errors
///
/// The failure of a file that can't be read or written, or of a source without tokens; `NotLaidOut` if a source that is
/// checked isn't laid out; `Memory` if an allocation failed.
pub fn format_files<F: Files, O: Write + Drop>(
    rt: &F,
    alloc: Global,
    order: &FormatOrder<'_>,
    explains: bool,
    out: &mut O,
) -> Result<(), Failure> {
    refuse_devices(rt, alloc, order)?;
    let jobs = jobs_of(rt, alloc, order, explains)?;
    let jobs = jobs.as_slice();
    match order.to {
        FormatTo::Check => check_jobs(alloc, jobs, out),
        FormatTo::Standard => print_jobs(alloc, jobs, out),
        FormatTo::Source => write_sources(rt, alloc, order, jobs),
    }
}
