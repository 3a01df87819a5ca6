//! The state of a recorded run at one of its stops, and how it goes to the next stop and back.

ghost use Rattle.std.specs.Prelude.{◌≡◌, ◌+◌, slice_index_or, if◌then◌else◌, IfOk, OnOk};
ghost use Rattle.bc_interpret_store.specs.declared.cell.Cell.TheVariants.{Dead};
ghost use Rattle.bc_interpret_record.specs.Replay.{IsReplayable, IsAt};

use crate::recording::{Frame, Move, NO_SITE, Recording};
use bc_interpret_store::{Cell, cell_at, copy_of};
use bc_word::Memory;
use std::alloc::Global;

/// The state of a recorded run at one of its stops.
#[derive(Drop)]
pub struct Moment {
    /// The index of the stop.
    pub at: usize,
    /// The cells, by address.
    pub cells: Vec<Cell>,
    /// The calls that the run is in, the newest one last.
    pub frames: Vec<Frame>,
    /// The number of changes that are made in the cells.
    made: usize,
}

/// Enters a call, from the command that made it.
fn enter(frames: &mut Vec<Frame>, frame: Frame) -> Result<(), Memory> {
    if let Some(caller) = frames.last_mut() {
        caller.site = frame.caller;
    }
    frames.push(frame)?;
    Ok(())
}

/// Makes these moves.
///
/// `Memory` if an allocation fails.
pub(crate) fn make_moves(frames: &mut Vec<Frame>, moves: &[Move]) -> Result<(), Memory> {
    for step in moves {
        match step {
            Move::Enter(frame) => enter(frames, *frame)?,
            Move::Leave(_) => {
                let _left = frames.pop();
            }
        }
    }
    Ok(())
}

/// Takes these moves back.
fn take_back_moves(frames: &mut Vec<Frame>, moves: &[Move]) -> Result<(), Memory> {
    for step in moves.iter().rev() {
        match step {
            Move::Enter(_) => {
                let _entered = frames.pop();
            }
            Move::Leave(frame) => enter(frames, *frame)?,
        }
    }
    Ok(())
}

/// Makes the calls those at the stop with index `to`, given those at the one with index `from`.
fn follow_calls(
    frames: &mut Vec<Frame>,
    recording: &Recording,
    from: usize,
    to: usize,
) -> Result<(), Memory> {
    if from <= to {
        return make_moves(frames, recording.moves_between(from, to));
    }
    take_back_moves(frames, recording.moves_between(to, from))
}

/// Notes the site of a stop in the newest call.
pub(crate) fn settle(frames: &mut Vec<Frame>, site: u32) {
    if let Some(frame) = frames.last_mut() {
        frame.site = site;
    }
}

impl Moment {
    /// The state at the first stop of a recording. `Memory` if an allocation fails.
    pub fn first(alloc: Global, recording: &Recording) -> Result<Moment, Memory>
        ensures at { IfOk result (λ moment. moment.at ≡ 0) }
        ensures cells { IfOk result (λ moment. IsReplayable recording.now → IsAt recording.now moment) }
    {
        let mut cells = copy_of(alloc, &recording.first)?;
        let mut frames = Vec::new(alloc);
        frames.extend_from_slice(&recording.frames)?;
        let made = recording.changes_until(0);
        recording.walk(&mut cells, 0, made);
        Ok(Moment {
            at: 0,
            cells,
            frames,
            made,
        })
    }

    /// The cell at this address; `Dead` past the last one.
    pub fn cell(&self, address: u16) -> Cell
        ensures { result ≡ slice_index_or self.now.cells.items address Dead }
    {
        cell_at(&self.cells, address)
    }

    /// The site of this stop.
    pub fn site(&self, recording: &Recording) -> u32 {
        recording
            .stops
            .get(self.at)
            .map_or(NO_SITE, |stop| stop.site)
    }

    /// Makes the cells those at this stop.
    fn go_to(&mut self, recording: &Recording, stop: usize)
        ensures at { self.new.at ≡ stop }
        ensures cells { IsReplayable recording.now → IsAt recording.now self.old → IsAt recording.now self.new }
    {
        let to = recording.changes_until(stop);
        recording.walk(&mut self.cells, self.made, to);
        self.made = to;
        self.at = stop;
    }

    /// Notes the site of this stop in the newest call.
    fn settle(&mut self, recording: &Recording)
        ensures at { self.new.at ≡ self.old.at }
        ensures cells { IsAt recording.now self.old → IsAt recording.now self.new }
    {
        let site = self.site(recording);
        settle(&mut self.frames, site);
    }

    /// Goes to the next stop and returns true; returns false at the last one. `Memory` if an allocation fails.
    pub fn forward(&mut self, recording: &Recording) -> Result<bool, Memory>
        ensures at { IfOk result (λ went. self.new.at ≡ (if went then self.old.at + 1 else self.old.at)) }
        ensures cells { OnOk result (IsReplayable recording.now → IsAt recording.now self.old → IsAt recording.now self.new) }
    {
        let Some(next) = self.at.checked_add(1) else {
            return Ok(false);
        };
        if next >= recording.stops.len() {
            return Ok(false);
        }
        make_moves(&mut self.frames, recording.moves_of(next))?;
        self.go_to(recording, next);
        self.settle(recording);
        Ok(true)
    }

    /// Goes to the stop before and returns true; returns false at the first one. `Memory` if an allocation fails.
    pub fn back(&mut self, recording: &Recording) -> Result<bool, Memory>
        ensures at { IfOk result (λ went. self.old.at ≡ (if went then self.new.at + 1 else self.new.at)) }
        ensures cells { OnOk result (IsReplayable recording.now → IsAt recording.now self.old → IsAt recording.now self.new) }
    {
        let Some(before) = self.at.checked_sub(1) else {
            return Ok(false);
        };
        take_back_moves(&mut self.frames, recording.moves_of(self.at))?;
        self.go_to(recording, before);
        self.settle(recording);
        Ok(true)
    }

    /// Goes to the stop with this index, forward or back, and returns true; returns false if there is none. `Memory` if an allocation fails.
    pub fn jump(&mut self, recording: &Recording, stop: usize) -> Result<bool, Memory>
        ensures at { IfOk result (λ went. self.new.at ≡ (if went then stop else self.old.at)) }
        ensures cells { OnOk result (IsReplayable recording.now → IsAt recording.now self.old → IsAt recording.now self.new) }
    {
        if stop >= recording.stops.len() {
            return Ok(false);
        }
        follow_calls(&mut self.frames, recording, self.at, stop)?;
        self.go_to(recording, stop);
        self.settle(recording);
        Ok(true)
    }
}
