//! Runs that are recorded strictly: the mistake that ends one, and the recording up to the command that makes it.

use crate::places::{SitePlace, is_rooted};
use crate::program::{DebugProgram, wild_program};
use crate::session::{RecordedRun, SessionError, SessionLimits};
use crate::streams::{RunInput, streams_of};
use bc_interpret_record::{Move, Recording, Stop, StopKind};
use bc_interpret_strict::{Mistake, StrictProgram, StrictRun, strict_run};
use bc_word::Memory;
use bcpl_messages::message_lines;
use bcpl_wild::{RootOf, Stand, named_globals, root_of, strict_message};
use std::alloc::Global;

/// A run that a mistake ended.
#[derive(Drop)]
pub(crate) struct StrictEnd {
    mistake: Mistake,
    run: StrictRun,
}

impl StrictEnd {
    /// The number of turns before the mistake.
    pub fn turns(&self) -> u64 {
        self.run.turns
    }
}

/// Runs a program with this input strictly. `None` if that isn't asked for, or if no mistake ended the run.
pub(crate) fn strict_end_of(
    alloc: Global,
    program: &DebugProgram<'_, '_>,
    input: &RunInput,
    limits: SessionLimits,
) -> Result<Option<StrictEnd>, SessionError> {
    if !limits.is_strict {
        return Ok(None);
    }
    let mut streams = streams_of(alloc, input)?;
    let named = named_globals(alloc, &wild_program(program))?;
    let strict = StrictProgram {
        cores: program.cores,
        image: program.image,
        named: named.as_slice(),
    };
    let run = strict_run(alloc, &strict, &mut streams, limits.turns)?;
    Ok(match run.mistake {
        Some(mistake) => Some(StrictEnd { mistake, run }),
        None => None,
    })
}

/// The number of the site of the command that a root belongs to: its first root is this one, or it is a FOR or LET and has further ones.
fn site_of(places: &[SitePlace], at: RootOf) -> Option<u32> {
    let mut found = None;
    let mut nearest = 0usize;
    let mut number = 0u32;
    for place in places {
        let is_before = place.section == at.segment && place.root <= at.root;
        let has_more = matches!(place.kind, StopKind::For | StopKind::Let);
        let is_its = place.root == at.root || has_more;
        if is_before && is_its && is_rooted(place.kind) && nearest <= place.root {
            found = Some(number);
            nearest = place.root;
        }
        number = number.saturating_add(1);
    }
    found
}

/// The number of calls after a move.
fn moved(calls: usize, step: &Move) -> usize {
    match step {
        Move::Enter(_) => calls.saturating_add(1),
        Move::Leave(_) => calls.saturating_sub(1),
    }
}

/// For each stop the number of calls that the run is in.
fn calls_at(alloc: Global, recording: &Recording) -> Result<Vec<usize>, Memory> {
    let mut counts = Vec::new(alloc);
    let mut calls = recording.frames.len();
    for at in 0..recording.stops.len() {
        for step in recording.moves_of(at) {
            calls = moved(calls, step);
        }
        counts.push(calls)?;
    }
    Ok(counts)
}

/// The index after the last stop before a mistake at this site, with so many calls. In the turn of the mistake the run is at a command once in
/// each call, and then only in calls that are older or that this command made.
fn end_of(stops: &[Stop], counts: &[usize], site: u32, calls: usize) -> Option<usize> {
    let mut end = None;
    let mut index = 0usize;
    for (stop, count) in stops.iter().zip(counts.iter()) {
        if stop.site == site && *count == calls && !stop.is_end {
            end = Some(index.saturating_add(1));
        } else if end == Some(index) && *count > calls {
            end = Some(index.saturating_add(1));
        }
        index = index.saturating_add(1);
    }
    end
}

/// The number of moves after which a run that has made `made`, and is in `count` calls, is in only so many calls.
fn moves_until(moves: &[Move], made: usize, count: usize, calls: usize) -> usize {
    let mut made = made;
    let mut count = count;
    for step in moves.iter().skip(made) {
        if count > calls {
            count = moved(count, step);
            made = made.saturating_add(1);
        }
    }
    made
}

/// Cuts a recording off where a mistake is made at this site, with so many calls. One without such a stop is kept as it is.
fn cut(alloc: Global, recording: &mut Recording, site: u32, calls: usize) -> Result<(), Memory> {
    let counts = calls_at(alloc, recording)?;
    let Some(end) = end_of(recording.stops.as_slice(), counts.as_slice(), site, calls) else {
        return Ok(());
    };
    let last = end.saturating_sub(1);
    let (Some(stop), Some(count)) = (recording.stops.get(last).copied(), counts.get(last)) else {
        return Ok(());
    };
    let moves = moves_until(recording.moves.as_slice(), stop.moves, *count, calls);
    recording.stops.truncate(end);
    recording.stops.push(Stop {
        site,
        is_end: true,
        moves,
        ..stop
    })?;
    Ok(())
}

/// Ends a recorded run where the mistake was made.
pub(crate) fn end_strictly(
    alloc: Global,
    program: &DebugProgram<'_, '_>,
    end: &StrictEnd,
    recorded: &mut RecordedRun<'_>,
) -> Result<(), Memory> {
    let wild = wild_program(program);
    let trail = &end.run.trail;
    let stand = Stand {
        standings: trail.standings.as_slice(),
        calls: trail.calls,
    };
    let message = strict_message(alloc, &wild, stand, end.mistake)?;
    recorded.end_lines = message_lines(alloc, program.named, &message)?;
    recorded.mistake = Some(end.mistake);
    let Some(standing) = trail.standings.first() else {
        return Ok(());
    };
    let Some(root) = root_of(alloc, &wild, standing) else {
        return Ok(());
    };
    match site_of(recorded.names.places.as_slice(), root) {
        Some(site) => cut(alloc, &mut recorded.recording, site, trail.calls),
        None => Ok(()),
    }
}
