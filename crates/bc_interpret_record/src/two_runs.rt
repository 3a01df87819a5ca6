//! The public call: runs sections by their meaning, and records a second run of them.

ghost use Rattle.std.specs.Prelude.{◌≡◌, map, IfOk};
ghost use Rattle.bc_core.specs.View.{section as section_view};
ghost use Rattle.bc_machine.specs.MemoryContent.{memory_content, memory_failures, IsKnown};
ghost use Rattle.bc_interpret.specs.Interpreted.{InterpretedOn};
ghost use Rattle.bc_interpret_record.specs.Replay.{IsReplayable};

use crate::recorder::{Bounds, Recorder};
use crate::recording::Recording;
use crate::site::{InBody, StopKind, StopSite};
use crate::tagging::{TaggedSection, Tagger};
use bc_core::Core;
use bc_interpret::{Interpreted, Outcome, Section, after_first, all_addresses, interpret, observe};
use bc_machine::{Image, MemoryStreams};
use bc_word::Memory;
use std::alloc::Global;

/// A program that is to be recorded.
#[derive(Clone, Copy)]
pub struct Recordable<'p> {
    /// Its sections.
    pub cores: &'p [Core],
    /// Its image, from which the addresses of routines and data are taken.
    pub image: &'p Image,
}

/// How far a run goes, and how much of it is kept.
#[derive(Clone, Copy)]
pub struct RecordLimits {
    /// The number of turns after which the run is cut off.
    pub turns: u64,
    /// How much is kept.
    pub bounds: Bounds,
}

/// Why there is no recording.
#[derive(Clone, Copy, Debug)]
pub enum RecordError {
    /// An allocation failed.
    Memory,
    /// The recorded run had another outcome or output than the run by the meaning, which is a mistake of the recorder.
    Differs,
}

impl From<Memory> for RecordError {
    fn from(_refused: Memory) -> RecordError {
        RecordError::Memory
    }
}

/// A run by the meaning, and its recording.
#[derive(Drop)]
pub struct Recorded {
    /// The outcome of the run, and where it was then.
    pub interpreted: Interpreted,
    /// Its recording.
    pub recording: Recording,
}

/// The sections with tags, and the sites of their commands.
fn tagged(
    alloc: Global,
    cores: &[Core],
    sites: &mut Vec<StopSite>,
) -> Result<Vec<TaggedSection>, Memory> {
    let mut tagger = Tagger::new(alloc);
    let mut sections = Vec::new(alloc);
    for (index, core) in cores.iter().enumerate() {
        sections.push(tagger.section(index, core.places(), core.valofs())?)?;
    }
    sites.extend_from_slice(&tagger.sites)?;
    Ok(sections)
}

/// For each address the number of the site of the expression that is the body of the routine there, plus 1.
fn bodies_of(
    alloc: Global,
    sites: &[StopSite],
    addresses: &[Vec<u16>],
) -> Result<Vec<u32>, Memory> {
    let mut bodies = Vec::new(alloc);
    bodies.resize(65536, 0u32)?;
    let mut number = 1u32;
    for site in sites {
        if let (StopKind::Body, InBody::Routine(label)) = (site.kind, site.body)
            && let Some(labels) = addresses.get(site.section)
            && let Some(address) = labels.get(label as usize)
            && let Some(body) = bodies.get_mut(usize::from(*address))
        {
            *body = number;
        }
        number = number.saturating_add(1);
    }
    Ok(bodies)
}

/// The tagged sections with their addresses.
fn sections_of<'c>(
    alloc: Global,
    tagged: &'c [TaggedSection],
    addresses: &'c [Vec<u16>],
) -> Result<Vec<Section<'c>>, Memory> {
    let mut sections = Vec::new(alloc);
    for (section, labels) in tagged.iter().zip(addresses.iter()) {
        sections.push(Section {
            places: section.places.as_slice(),
            valofs: section.valofs.as_slice(),
            addresses: labels.as_slice(),
        })?;
    }
    Ok(sections)
}

/// A recording, and the outcome of the run that was recorded.
#[derive(Drop)]
struct Observed {
    recording: Recording,
    outcome: Outcome,
}

/// Records a run of the sections with tags.
fn second_run(
    alloc: Global,
    program: Recordable<'_>,
    streams: &mut MemoryStreams,
    limits: RecordLimits,
) -> Result<Observed, Memory>
    ensures { IfOk result (λ observed. IsReplayable observed.recording) }
{
    let mut sites = Vec::new(alloc);
    let tagged = tagged(alloc, program.cores, &mut sites)?;
    let addresses = all_addresses(alloc, after_first(program.image.places.as_slice()))?;
    let sections = sections_of(alloc, tagged.as_slice(), addresses.as_slice())?;
    let bodies = bodies_of(alloc, sites.as_slice(), addresses.as_slice())?;
    let mut recorder = Recorder::new(alloc, limits.bounds, bodies);
    recorder.recording.sites = sites;
    let interpreted = observe(
        alloc,
        sections.as_slice(),
        program.image.stack_base.get(),
        streams,
        limits.turns,
        &mut recorder,
    )?;
    Ok(Observed {
        recording: recorder.into_recording(),
        outcome: interpreted.outcome,
    })
}

/// Whether two outputs are the same.
fn is_same_output(streams: &MemoryStreams, again: &MemoryStreams) -> bool {
    streams.written() == again.written()
}

/// Runs sections by their meaning, and records a second run. `again` must have the same streams as `streams` when the call begins.
///
/// The answer is that of `interpret`: the outcome and the output are what the sections mean. The recording is of a run with the same outcome
/// and the same output. Each of its changes finds its old cell, so that `Moment` can go through it forwards and backwards.
///
/// `Differs` if the second run had another outcome or output; `Memory` if an allocation fails.
pub fn record_run(
    alloc: Global,
    program: Recordable<'_>,
    streams: &mut MemoryStreams,
    again: &mut MemoryStreams,
    limits: RecordLimits,
) -> Result<Recorded, RecordError>
    ensures interpreted { IfOk result (λ r. InterpretedOn IsKnown memory_content memory_failures (map section_view program.entry.cores.now)
        program.entry.image.now limits.turns streams.old streams.new r.interpreted) }
    ensures replayable { IfOk result (λ r. IsReplayable r.recording) }
{
    let interpreted = interpret(alloc, program.cores, program.image, streams, limits.turns)?;
    let observed = second_run(alloc, program, again, limits)?;
    if observed.outcome != interpreted.outcome || !is_same_output(streams, again) {
        return Err(RecordError::Differs);
    }
    Ok(Recorded {
        interpreted,
        recording: observed.recording,
    })
}
