//! The command `explain`.

ghost use Rattle.std.specs.Prelude.{◌≤◌, length, IfOk};
ghost use Rattle.bc_lex_tokens.specs.Token.{lexemes_of};

use crate::compiling::refused;
use crate::output::{of_listing, print_all};
use crate::source_files::Gathered;
use crate::texts::or_memory_failure;
use bc_build::{Built, build};
use bc_cert::{check_sums, write_cert};
use bc_lex::{Source, Token, lex};
use bc_parse::{Section, parse};
use bc_rules_defs::Entry;
use bc_scope::{Core, resolve};
use bc_word::Memory;
use bcpl_cli::{AtomicFile, Cause, ExplainOrder, Failure, Links, Sources, load_sources};
use bcpl_explain::{Checked, explanation};
use bcpl_show::Files;
use std::alloc::Global;
use std::io::Write;
use std::mem::forget;
use std::rt::Files as Access;

/// What the compiler knows of a main: its source and segment indexes, and its trees. It is never dropped, because the
/// process is about to end.
pub struct Front<'s> {
    main: usize,
    /// The index of its segment.
    pub segment: usize,
    /// Its tokens.
    pub tokens: Vec<Token<'s>>,
    /// Its syntax tree.
    pub section: Section<'s>,
    /// Its core form.
    pub core: Core,
}

impl Drop for Front<'_> {
    fn drop(self) {
        let Front {
            main: _,
            segment: _,
            tokens: _,
            section: _,
            core: _,
        } = self;
    }
}

/// The tokens of a main. The program was built before, so only `Memory` can be the failure.
fn tokens_of<'s>(
    alloc: Global,
    sources: &[Source<'s>],
    main: usize,
) -> Result<Vec<Token<'s>>, Failure>
    ensures { IfOk result (λ tokens. length (lexemes_of tokens.items) ≤ 60000) }
{
    if main >= sources.len() {
        return Err(Failure::new(Cause::Memory));
    }
    match lex(alloc, sources, main) {
        Ok(tokens) => Ok(tokens),
        Err(_) => Err(Failure::new(Cause::Memory)),
    }
}

/// Adds a value. If memory runs out, the value is forgotten instead of dropped.
fn keep<T: Drop>(all: &mut Vec<T>, value: T) -> Result<(), Failure> {
    match all.push(value) {
        Ok(()) => Ok(()),
        Err(refused) => {
            forget(refused);
            Err(Failure::new(Cause::Memory))
        }
    }
}

/// Adds what the compiler knows of a main. The program was built before, so only `Memory` can be the failure.
fn add_front<'s>(
    alloc: Global,
    fronts: &mut Vec<Front<'s>>,
    sources: &[Source<'s>],
    main: usize,
    segment: usize,
) -> Result<(), Failure> {
    let tokens = tokens_of(alloc, sources, main)?;
    match parse(alloc, tokens.as_slice()) {
        Ok(section) => match resolve(alloc, &section) {
            Ok(core) => keep(
                fronts,
                Front {
                    main,
                    segment,
                    tokens,
                    section,
                    core,
                },
            ),
            Err(_) => {
                forget(section);
                Err(Failure::new(Cause::Memory))
            }
        },
        Err(_) => Err(Failure::new(Cause::Memory)),
    }
}

/// The entries of the segment with this index. `entries` is sorted by segment.
pub fn entries_of_segment(entries: &[Entry], segment: usize) -> &[Entry] {
    let wanted = segment as u64;
    let from = entries.partition_point(|entry| entry.segment < wanted);
    let to = entries.partition_point(|entry| entry.segment <= wanted);
    entries.get(from..to).unwrap_or(&[])
}

/// Writes the certificate of a program to memory and checks it.
fn judged(alloc: Global, built: &Built) -> Result<Checked, Failure> {
    let mut certificate = Vec::new(alloc);
    if write_cert(alloc, built.entries.as_slice(), &mut certificate).is_err() {
        return Err(Failure::new(Cause::Certificate));
    }
    match check_sums(alloc, certificate.as_slice()) {
        Ok(sums) => Ok(Checked {
            entries: sums.entries,
            words: sums.words,
        }),
        Err(fault) => Err(Failure::new(Cause::Check(fault))),
    }
}

/// A main of the program with what the compiler knows of it.
fn program_of<'p, 's>(
    files: Files<'p, 's>,
    front: &'p Front<'s>,
    built: &'p Built,
) -> bcpl_show::CodeListing<'p, 's> {
    let items = match built.segments.as_slice().get(front.segment) {
        Some(segment) => segment.items(),
        None => &[],
    };
    bcpl_show::CodeListing {
        files,
        main: front.main,
        tokens: front.tokens.as_slice(),
        section: &front.section,
        core: &front.core,
        items,
        entries: entries_of_segment(built.entries.as_slice(), front.segment),
        first: [0, 0, 0],
    }
}

/// The mains of the program with what the compiler knows of each.
fn programs_of<'p, 's>(
    alloc: Global,
    files: Files<'p, 's>,
    fronts: &'p [Front<'s>],
    built: &'p Built,
) -> Result<Vec<bcpl_show::CodeListing<'p, 's>>, Memory> {
    let mut programs = Vec::new(alloc);
    for front in fronts {
        programs.push(program_of(files, front, built))?;
    }
    Ok(programs)
}

/// Adds what the compiler knows of each main whose source index is at least `following`.
pub fn add_fronts<'s>(
    alloc: Global,
    fronts: &mut Vec<Front<'s>>,
    sources: &[Source<'s>],
    mains: &[usize],
    following: usize,
) -> Result<(), Failure> {
    for (segment, main) in mains.iter().enumerate() {
        if *main >= following {
            add_front(alloc, fronts, sources, *main, segment)?;
        }
    }
    Ok(())
}

/// The report on these mains.
fn report_of<'p, 's>(
    alloc: Global,
    files: Files<'p, 's>,
    fronts: &'p [Front<'s>],
    built: &'p Built,
) -> Result<Vec<u8>, Failure> {
    let programs = programs_of(alloc, files, fronts, built)?;
    let checked = judged(alloc, built)?;
    or_memory_failure(explanation(alloc, programs.as_slice(), checked))
}

/// The report on a program that was built from these sources.
fn report_on(
    alloc: Global,
    gathered: &Gathered<'_, '_>,
    given: &Sources<'_>,
    built: &Built,
) -> Result<Vec<u8>, Failure> {
    let program = gathered.program();
    let files = Files {
        sources: program.named.sources,
        paths: program.named.paths,
        library: gathered.library,
    };
    let following = gathered.library.saturating_add(given.gets.len());
    let mut fronts = Vec::new(alloc);
    let report = match add_fronts(alloc, &mut fronts, files.sources, program.mains, following) {
        Ok(()) => report_of(alloc, files, fronts.as_slice(), built),
        Err(failure) => Err(failure),
    };
    // The process is about to end, and the system frees all its memory at once.
    forget(fronts);
    report
}

/// Builds the program and returns the report on it. If `explains`, explains a refusal.
fn built_report(
    alloc: Global,
    gathered: &Gathered<'_, '_>,
    given: &Sources<'_>,
    explains: bool,
) -> Result<Vec<u8>, Failure> {
    let program = gathered.program();
    match build(alloc, program.named.sources, program.mains) {
        Ok(built) => report_on(alloc, gathered, given, &built),
        Err(fault) => Err(refused(alloc, &program, fault, explains)),
    }
}

/// Reads the files and returns the report on their program.
fn reported<F: Access>(
    rt: &F,
    alloc: Global,
    order: &ExplainOrder<'_>,
    explains: bool,
) -> Result<Vec<u8>, Failure> {
    let given = &order.sources;
    let loaded = load_sources(rt, alloc, given)?;
    order.protect_files(rt, alloc, loaded.as_slice())?;
    let gathered = Gathered::new(alloc, given, loaded.as_slice())?;
    built_report(alloc, &gathered, given, explains)
}

/// Writes a report to the file with this path, which is written completely or stays as it was.
pub fn write_report<F: Access>(
    rt: &F,
    alloc: Global,
    path: &str,
    report: &[u8],
) -> Result<(), Failure> {
    let mut written = AtomicFile::begin(rt, alloc, path, Links::Apart)?;
    match written.out().write_all(report) {
        Ok(()) => written.finish(rt, alloc, path),
        Err(error) => {
            written.abandon(rt);
            Err(Failure::io(alloc, &error, path))
        }
    }
}

/// Runs `explain`. If `explains`, explains a refusal.
pub fn explain<F: Access, O: Write + Drop>(
    rt: &F,
    alloc: Global,
    order: &ExplainOrder<'_>,
    explains: bool,
    out: &mut O,
) -> Result<(), Failure> {
    let report = reported(rt, alloc, order, explains)?;
    match order.out {
        Some(path) => write_report(rt, alloc, path, report.as_slice()),
        None => of_listing(alloc, print_all(report.as_slice(), out)),
    }
}
