//! A recorded run: its stops, and what changed from each to the next.

ghost use Rattle.std.specs.Prelude.{◌≡◌, slice_range};
ghost use Rattle.bc_interpret_store.specs.Changes.{Walks};
ghost use Rattle.bc_interpret_record.specs.Stops.{changes_until, changes_before};

use crate::moment::{make_moves, settle};
use crate::site::StopSite;
use bc_interpret::{Ending, Outcome};
use bc_interpret_store::{Cell, Change, between, walk};
use bc_word::Memory;
use std::alloc::Global;

/// A call that the run is in.
#[derive(Clone, Copy)]
pub struct Frame {
    /// The address of the routine.
    pub routine: u16,
    /// The address of its frame.
    pub base: u32,
    /// The number of the site of its last stop, or of the command that makes the next newer call.
    pub site: u32,
    /// The number of the site of the command that made it, in the next older call.
    pub caller: u32,
}

/// A change of the calls that the run is in.
#[derive(Clone, Copy)]
pub enum Move {
    /// A routine was called.
    Enter(Frame),
    /// The newest call was left.
    Leave(Frame),
}

/// A stop. The numbers say how much of the recording's lists belongs to it and the stops before it: what comes after the numbers of the
/// stop before happened between the two.
#[derive(Clone, Copy)]
pub struct Stop {
    /// The number of its site.
    pub site: u32,
    /// Whether this is the end of the run.
    pub is_end: bool,
    /// The number of changes.
    pub changes: usize,
    /// The number of moves.
    pub moves: usize,
    /// The number of bytes of output.
    pub output: usize,
    /// The number of bytes of input that were taken.
    pub taken: usize,
}

/// A site's number where the place isn't known.
pub const NO_SITE: u32 = u32::MAX;

/// A recorded run.
pub struct Recording {
    /// Where the run could stop.
    pub sites: Vec<StopSite>,
    /// The cells at the first stop that is kept.
    pub first: Vec<Cell>,
    /// The calls at the first stop that is kept, the newest one last.
    pub frames: Vec<Frame>,
    /// The stops that are kept.
    pub stops: Vec<Stop>,
    /// How many stops came before them.
    pub dropped: usize,
    /// The changes of cells.
    pub changes: Vec<Change>,
    /// The changes of calls.
    pub moves: Vec<Move>,
    /// The output of the whole run.
    pub output: Vec<u8>,
}

impl Drop for Recording {
    fn drop(self) {
        let Recording {
            sites: _,
            first: _,
            frames: _,
            stops: _,
            dropped: _,
            changes: _,
            moves: _,
            output: _,
        } = self;
    }
}

/// A copy of the items after the first `count`.
fn after<T: Copy + Drop>(alloc: Global, items: &[T], count: usize) -> Result<Vec<T>, Memory> {
    let mut copy = Vec::new(alloc);
    for item in items.iter().skip(count) {
        copy.push(*item)?;
    }
    Ok(copy)
}

impl Recording {
    /// A recording without stops.
    pub(crate) fn new(alloc: Global) -> Recording {
        Recording {
            sites: Vec::new(alloc),
            first: Vec::new(alloc),
            frames: Vec::new(alloc),
            stops: Vec::new(alloc),
            dropped: 0,
            changes: Vec::new(alloc),
            moves: Vec::new(alloc),
            output: Vec::new(alloc),
        }
    }

    /// Drops the stops, frames and moves before the stop `first`, which is the one with index `count`. `Memory` if an allocation fails.
    pub(crate) fn drop_stops(
        &mut self,
        alloc: Global,
        count: usize,
        first: Stop,
    ) -> Result<(), Memory> {
        make_moves(
            &mut self.frames,
            self.moves.get(..first.moves).unwrap_or(&[]),
        )?;
        settle(&mut self.frames, first.site);
        self.moves = after(alloc, &self.moves, first.moves)?;
        let mut stops = after(alloc, &self.stops, count)?;
        for stop in stops.iter_mut() {
            stop.changes = stop.changes.saturating_sub(first.changes);
            stop.moves = stop.moves.saturating_sub(first.moves);
        }
        self.stops = stops;
        self.dropped = self.dropped.saturating_add(count);
        Ok(())
    }

    /// The number of changes up to the stop with this index; 0 if there is no such stop.
    #[tactic(auto, using(crate::proofs::Stops::until_found, crate::proofs::Stops::until_none))]
    pub(crate) fn changes_until(&self, stop: usize) -> usize
        ensures { result ≡ changes_until self.now.stops.items stop }
    {
        match self.stops.get(stop) {
            Some(stop) => stop.changes,
            None => 0,
        }
    }

    /// The number of changes up to the stop before the one with this index.
    #[tactic(auto, using(crate::proofs::Stops::none_before, crate::proofs::Stops::before_is))]
    fn changes_before(&self, stop: usize) -> usize
        ensures { result ≡ changes_before self.now.stops.items stop }
    {
        if stop > 0 {
            self.changes_until(stop - 1)
        } else {
            0
        }
    }

    /// The changes that happened between the stop with this index and the one before it.
    pub fn changes_of(&self, stop: usize) -> &[Change]
        ensures { let stops = self.now.stops.items in
            result.now ≡ slice_range self.now.changes.items (changes_before stops stop) (changes_until stops stop) }
    {
        let from = self.changes_before(stop);
        let to = self.changes_until(stop);
        between(self.changes.as_slice(), from, to)
    }

    /// Makes changes in these cells, or takes them back, so that the first `to` are made instead of the first `from`.
    pub(crate) fn walk(&self, cells: &mut Vec<Cell>, from: usize, to: usize)
        ensures { Walks self.now.changes.items from to cells.old.items cells.new.items }
    {
        walk(cells, self.changes.as_slice(), from, to);
    }

    /// The moves that happened between the stop with this index and the one before it.
    pub fn moves_of(&self, stop: usize) -> &[Move] {
        let from = match stop.checked_sub(1) {
            Some(before) => moves_until(&self.stops, before),
            None => 0,
        };
        let to = moves_until(&self.stops, stop);
        self.moves.get(from..to).unwrap_or(&[])
    }

    /// The moves that happened between two stops, of which the first has this index and the second one that isn't smaller.
    pub(crate) fn moves_between(&self, from: usize, to: usize) -> &[Move] {
        let from = moves_until(&self.stops, from);
        let to = moves_until(&self.stops, to);
        self.moves.get(from..to).unwrap_or(&[])
    }
}

/// How many moves belong to a stop and the stops before it; 0 if there is no such stop.
fn moves_until(stops: &[Stop], stop: usize) -> usize {
    stops.get(stop).map_or(0, |stop| stop.moves)
}

/// Whether a run finished by itself.
pub fn is_finished(outcome: Outcome) -> bool {
    matches!(outcome, Outcome::Ended(Ending::Finished))
}
