//! The public call: runs sections by their meaning, and stops at a mistake.

ghost use Rattle.std.specs.Prelude.{◌≡◌, None, IfOk};
ghost use Rattle.bc_interpret_steps.specs.Sections.{program_of};
ghost use Rattle.bc_interpret.specs.Moving.{RunOn};

use crate::copying::{CopiedSection, Copier};
use crate::objects::{Mistake, Objects};
use crate::watcher::Watcher;
use bc_core::{Core, Place};
use bc_interpret::{Outcome, Section, Trail, after_first, all_addresses, observe};
use bc_machine::{Image, Streams};
use bc_word::Memory;
use std::alloc::Global;

/// A program that is run strictly.
#[derive(Clone, Copy)]
pub struct StrictProgram<'p> {
    /// Its sections.
    pub cores: &'p [Core],
    /// Its image, from which the addresses of routines and data are taken.
    pub image: &'p Image,
    /// For each global whether a source names it.
    pub named: &'p [bool],
}

/// A strict run.
#[derive(Debug, Drop)]
pub struct StrictRun {
    /// The outcome of the run; `Going` if a mistake ended it.
    pub outcome: Outcome,
    /// The mistake that ended it, if one did.
    pub mistake: Option<Mistake>,
    /// Where the run was.
    pub trail: Trail,
    /// The number of turns that it took. Only tested: it is the least limit with which a mistake that ended the run is found.
    pub turns: u64,
}

/// Sections that are run.
#[derive(Clone, Copy)]
struct Watchable<'c> {
    sections: &'c [Section<'c>],
    /// The address at which the stack begins.
    stack_base: u16,
    /// The number of turns after which the run is cut off.
    turns: u64,
}

/// Copies of all sections.
fn copied(
    alloc: Global,
    cores: &[Core],
    copier: &mut Copier,
) -> Result<Vec<CopiedSection>, Memory> {
    for core in cores {
        copier.note_routines(core.places());
    }
    let mut sections = Vec::new(alloc);
    for core in cores {
        sections.push(copier.section(core.places(), core.valofs())?)?;
    }
    Ok(sections)
}

/// Adds a place to the objects, if it is a table or a string.
fn add_place(place: &Place, address: u16, objects: &mut Objects) {
    match place {
        Place::Table(words) => objects.add_table(address, words.len()),
        Place::Text(bytes) => objects.add_text(address, (bytes.len() / 2).saturating_add(1)),
        Place::Routine(_) | Place::Static(_) => {}
    }
}

/// The tables and strings of a program, and the globals that its routines set.
fn objects_of(
    alloc: Global,
    program: &StrictProgram<'_>,
    addresses: &[Vec<u16>],
    routines: &[bool],
) -> Result<Objects, Memory> {
    let mut named = Vec::new(alloc);
    named.extend_from_slice(program.named)?;
    let mut objects = Objects::new(alloc, named)?;
    for (number, is_routine) in (0..512u16).zip(routines.iter()) {
        if *is_routine {
            objects.set(number);
        }
    }
    for (core, labels) in program.cores.iter().zip(addresses.iter()) {
        for (place, address) in core.places().iter().zip(labels.iter().skip(1)) {
            add_place(place, *address, &mut objects);
        }
    }
    Ok(objects)
}

/// The copied sections with their addresses.
fn sections_of<'c>(
    alloc: Global,
    copies: &'c [CopiedSection],
    addresses: &'c [Vec<u16>],
) -> Result<Vec<Section<'c>>, Memory> {
    let mut sections = Vec::new(alloc);
    for (section, labels) in copies.iter().zip(addresses.iter()) {
        sections.push(Section {
            places: section.places.as_slice(),
            valofs: section.valofs.as_slice(),
            addresses: labels.as_slice(),
        })?;
    }
    Ok(sections)
}

/// Runs sections that are watched. If no mistake ends the run, it comes to what the sections mean: the watcher changes nothing.
///
/// `Memory` if an allocation fails.
fn watched_run<S: Streams>(
    alloc: Global,
    watchable: Watchable<'_>,
    streams: &mut S,
    watcher: &mut Watcher,
) -> Result<StrictRun, Memory>
    ensures { IfOk result (λ run. run.mistake ≡ None → RunOn S.known S.content S.failures (program_of watchable.entry.sections.now)
        watchable.entry.stack_base watchable.entry.turns streams.old streams.new (record { outcome = run.outcome; trail = run.trail })) }
{
    let Watchable {
        sections,
        stack_base,
        turns,
    } = watchable;
    match observe(alloc, sections, stack_base, streams, turns, watcher) {
        Ok(interpreted) => Ok(StrictRun {
            outcome: interpreted.outcome,
            mistake: None,
            trail: interpreted.trail,
            turns: watcher.turns,
        }),
        Err(refused) => match watcher.found.take() {
            Some(found) => Ok(StrictRun {
                outcome: Outcome::Going,
                mistake: Some(found.mistake),
                trail: found.trail,
                turns: watcher.turns,
            }),
            None => Err(refused),
        },
    }
}

/// Runs a program by its meaning for at most `turns` turns, and stops at a mistake: an access that is lawful, and nearly always wrong. Its
/// places have the addresses that they have in the image, whose first segment must be that of the primitives.
///
/// `Memory` if an allocation fails.
pub fn strict_run<S: Streams>(
    alloc: Global,
    program: &StrictProgram<'_>,
    streams: &mut S,
    turns: u64,
) -> Result<StrictRun, Memory> {
    let mut copier = Copier::new(alloc)?;
    let copies = copied(alloc, program.cores, &mut copier)?;
    let addresses = all_addresses(alloc, after_first(program.image.places.as_slice()))?;
    let (tags, routines) = copier.into_parts();
    let objects = objects_of(alloc, program, addresses.as_slice(), routines.as_slice())?;
    let sections = sections_of(alloc, copies.as_slice(), addresses.as_slice())?;
    let mut watcher = Watcher::new(alloc, objects, tags);
    let watchable = Watchable {
        sections: sections.as_slice(),
        stack_base: program.image.stack_base.get(),
        turns,
    };
    watched_run(alloc, watchable, streams, &mut watcher)
}
