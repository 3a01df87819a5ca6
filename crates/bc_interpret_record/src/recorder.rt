//! The observer that records a run.

ghost use Rattle.std.specs.Prelude.{◌≡◌};
ghost use Rattle.bc_interpret_store.specs.Changes.{Fits};
ghost use Rattle.bc_interpret_record.specs.Replay.{IsReplayable};

use crate::recording::{Frame, Move, NO_SITE, Recording, Stop};
use crate::site::StopKind;
use crate::tagging::{site_begun, site_next};
use bc_interpret::{Observer, Stacks};
use bc_interpret_steps::{Entry, Primitive, Progress, Rest, TruthRest, Work};
use bc_interpret_store::{Cell, History, Past, Store};
use bc_machine_defs::Side;
use bc_word::Memory;
use std::alloc::Global;

/// A call, and the least number of continuations while the run is in it.
#[derive(Clone, Copy)]
struct Call {
    least: usize,
    frame: Frame,
}

/// A command that was begun, and the least number of continuations while the run is in it.
#[derive(Clone, Copy)]
struct Mark {
    least: usize,
    site: u32,
    /// Whether it is a FOR that has begun its first round.
    is_begun: bool,
}

/// How much is kept.
#[derive(Clone, Copy)]
pub struct Bounds {
    /// The greatest number of stops.
    pub stops: usize,
    /// The greatest number of changes of cells.
    pub changes: usize,
}

/// Records a run.
#[derive(Drop)]
pub(crate) struct Recorder {
    alloc: Global,
    /// What has been recorded, without the cells.
    pub recording: Recording,
    /// The cells at the first stop and their changes, once the run is over.
    history: History,
    bounds: Bounds,
    calls: Vec<Call>,
    marks: Vec<Mark>,
    /// The `least` of the newest call or mark; 0 if there is none.
    least: usize,
    /// For each address the number of the site of the expression that is the body of a routine there, plus 1.
    bodies: Vec<u32>,
    /// Whether the output that is selected is the first one.
    writes: bool,
    /// Whether a byte is being read.
    reads: bool,
    taken: usize,
    /// The number of changes when they were last counted.
    changes: usize,
}

impl Recorder {
    /// A recorder of a run that hasn't begun. `bodies` has for each address the number of the site of the expression that is the body of the
    /// routine there, plus 1.
    pub fn new(alloc: Global, bounds: Bounds, bodies: Vec<u32>) -> Recorder {
        Recorder {
            alloc,
            recording: Recording::new(alloc),
            history: History::new(alloc),
            bounds,
            calls: Vec::new(alloc),
            marks: Vec::new(alloc),
            least: 0,
            bodies,
            writes: true,
            reads: false,
            taken: 0,
            changes: 0,
        }
    }

    /// Leaves the commands and calls that are over, given the number of continuations.
    fn leave(&mut self, depth: usize) -> Result<(), Memory> {
        self.leave_commands(depth);
        self.leave_calls(depth)?;
        let command = self.marks.last().map_or(0, |mark| mark.least);
        let call = self.calls.last().map_or(0, |call| call.least);
        self.least = command.max(call);
        Ok(())
    }

    /// Leaves the calls that are over, given the number of continuations.
    fn leave_calls(&mut self, depth: usize) -> Result<(), Memory> {
        for _each in 0..self.calls.len() {
            match self.calls.last().copied() {
                Some(call) if call.least > depth => {
                    self.recording.moves.push(Move::Leave(call.frame))?;
                    let _over = self.calls.pop();
                }
                _ => return Ok(()),
            }
        }
        Ok(())
    }

    /// Leaves the commands that are over, given the number of continuations.
    fn leave_commands(&mut self, depth: usize) {
        for _each in 0..self.marks.len() {
            if self.marks.last().map_or(0, |mark| mark.least) <= depth {
                return;
            }
            let _over = self.marks.pop();
        }
    }

    /// Notes that a command is begun.
    fn begin(&mut self, depth: usize, site: u32) -> Result<(), Memory> {
        self.leave_commands(depth.saturating_sub(1));
        self.marks.push(Mark {
            least: depth,
            site,
            is_begun: false,
        })?;
        self.least = depth;
        Ok(())
    }

    /// The site of the expression that is the body of the newest call.
    fn body(&self) -> Option<u32> {
        let call = self.calls.last()?;
        let site = self.bodies.get(usize::from(call.frame.routine))?;
        site.checked_sub(1)
    }

    /// The site of the innermost command that was begun, or of the newest call's expression.
    fn innermost(&self) -> u32 {
        let depth = self.calls.last().map_or(0, |call| call.least);
        match self.marks.last() {
            Some(mark) if mark.least >= depth => mark.site,
            _ => self.body().unwrap_or(NO_SITE),
        }
    }

    /// The calls at the first stop.
    fn copy_frames(&mut self) -> Result<(), Memory> {
        for call in &self.calls {
            self.recording.frames.push(call.frame)?;
        }
        self.recording.moves.clear();
        Ok(())
    }

    /// Counts the changes up to here. The first stop begins to keep the past.
    fn count(&mut self, store: &mut Store) -> Result<(), Memory>
        ensures { store.new ≡ store.old }
    {
        if self.recording.stops.is_empty() {
            store.watch(self.alloc)?;
            self.copy_frames()?;
            self.changes = 0;
            return Ok(());
        }
        self.changes = store.follow()?;
        Ok(())
    }

    /// Notes the site at which the newest call is.
    fn settle(&mut self, site: u32) {
        if let Some(call) = self.calls.last_mut() {
            call.frame.site = site;
        }
    }

    /// Stops before what is at this site.
    fn stop(&mut self, site: u32, is_end: bool, store: &mut Store) -> Result<(), Memory>
        ensures { store.new ≡ store.old }
    {
        self.settle(site);
        self.count(store)?;
        self.add(site, is_end, store)
    }

    /// Adds a stop where the changes were last counted.
    fn add(&mut self, site: u32, is_end: bool, store: &mut Store) -> Result<(), Memory>
        ensures { store.new ≡ store.old }
    {
        let changes = self.changes;
        self.recording.stops.push(Stop {
            site,
            is_end,
            changes,
            moves: self.recording.moves.len(),
            output: self.recording.output.len(),
            taken: self.taken,
        })?;
        if self.recording.stops.len() > self.bounds.stops || changes > self.bounds.changes {
            return self.drop_half(store);
        }
        Ok(())
    }

    /// Drops the first half of the stops.
    fn drop_half(&mut self, store: &mut Store) -> Result<(), Memory>
        ensures { store.new ≡ store.old }
    {
        let count = self.recording.stops.len() / 2;
        let Some(first) = self.recording.stops.get(count).copied() else {
            return Ok(());
        };
        store.drop_changes(self.alloc, first.changes)?;
        self.changes = self.changes.saturating_sub(first.changes);
        self.recording.drop_stops(self.alloc, count, first)
    }

    /// Stops at a test of the loop that is the innermost command.
    fn stop_again(&mut self, store: &mut Store) -> Result<(), Memory>
        ensures { store.new ≡ store.old }
    {
        let site = self.innermost();
        self.stop(site, false, store)
    }

    /// Begins a round of a FOR. The first one belongs to its start.
    fn round(&mut self, store: &mut Store) -> Result<(), Memory>
        ensures { store.new ≡ store.old }
    {
        let was_begun = match self.marks.last_mut() {
            Some(mark) => {
                let was = mark.is_begun;
                mark.is_begun = true;
                was
            }
            None => false,
        };
        if was_begun {
            return self.stop_again(store);
        }
        Ok(())
    }

    /// Sees the work of a step.
    fn see(&mut self, work: &Work<'_>, stacks: &Stacks<'_>, store: &mut Store) -> Result<(), Memory>
        ensures { store.new ≡ store.old }
    {
        match work {
            Work::Perform(_, _) => self.perform(stacks, store),
            Work::Listing(_, items, Entry::Beginning) => match site_next(items) {
                Some(site) => self.reach(stacks.rests.len().saturating_add(1), site, store),
                None => Ok(()),
            },
            Work::While(_, _, _) => self.stop_again(store),
            Work::Round(_, _) => self.round(store),
            Work::Decide(_, _) => match stacks.rests.last() {
                Some(Rest::Truth(TruthRest::RepeatWhiles(_, _, _))) => self.stop_again(store),
                _ => Ok(()),
            },
            Work::Number(value) => {
                if self.reads && *value != u16::MAX {
                    self.taken = self.taken.saturating_add(1);
                }
                self.reads = false;
                Ok(())
            }
            _ => Ok(()),
        }
    }

    /// Sees that a command is about to be performed.
    fn perform(&mut self, stacks: &Stacks<'_>, store: &mut Store) -> Result<(), Memory>
        ensures { store.new ≡ store.old }
    {
        let rests = stacks.rests.as_slice();
        let depth = rests.len();
        if depth < 2 {
            return Ok(());
        }
        match site_begun(&rests[depth - 1], &rests[depth - 2]) {
            Some(site) => self.reach(depth, site, store),
            None => Ok(()),
        }
    }

    /// Begins the command at this site, if it is one, and stops there unless it is a loop that tests after its body.
    fn reach(&mut self, depth: usize, site: u32, store: &mut Store) -> Result<(), Memory>
        ensures { store.new ≡ store.old }
    {
        let is_looped = match self.recording.sites.get(site as usize) {
            Some(found) => matches!(found.kind, StopKind::Repeat),
            None => return Ok(()),
        };
        self.begin(depth, site)?;
        if is_looped {
            return Ok(());
        }
        self.stop(site, false, store)
    }

    /// Sees a call of a primitive.
    fn serve(&mut self, primitive: Primitive, frame: u32, store: &Store) -> Result<(), Memory> {
        let argument = match u16::try_from(frame.saturating_add(2)) {
            Ok(address) => store.at(address),
            Err(_) => Cell::Dead,
        };
        match (primitive, argument) {
            (Primitive::WriteByte, Cell::Set(word)) => {
                if self.writes {
                    self.recording.output.push((word % 256) as u8)?;
                }
            }
            (Primitive::ReadByte, _) => self.reads = true,
            (Primitive::Select(Side::Output), Cell::Set(word)) => self.writes = word == 1,
            (Primitive::EndStream(Side::Output), _) => self.writes = false,
            _ => {}
        }
        Ok(())
    }

    /// Sees a call of a routine, and stops if its body is an expression.
    fn enter(&mut self, stacks: &Stacks<'_>, store: &mut Store) -> Result<(), Memory>
        ensures { store.new ≡ store.old }
    {
        let called = stacks.called;
        if self.least >= called.least {
            self.leave(called.least.saturating_sub(1))?;
        }
        let frame = Frame {
            routine: called.routine,
            base: called.frame,
            site: NO_SITE,
            caller: self.innermost(),
        };
        self.calls.push(Call {
            least: called.least,
            frame,
        })?;
        self.least = called.least;
        self.recording.moves.push(Move::Enter(frame))?;
        if let Progress::On(Work::Evaluate(_, _)) = &stacks.next
            && let Some(site) = self.body()
        {
            return self.stop(site, false, store);
        }
        Ok(())
    }

    /// Stops at the end of the run.
    fn end(&mut self, store: &mut Store) -> Result<(), Memory>
        ensures { store.new ≡ store.old }
    {
        let site = self.innermost();
        self.stop(site, true, store)
    }

    /// What was recorded.
    pub fn into_recording(self) -> Recording
        ensures { IsReplayable result }
    {
        let Recorder {
            recording,
            history,
            ..
        } = self;
        with_past(recording, history.into_past())
    }

    /// Stops at the end of a run whose end was not seen, as its last stop.
    fn finish(&mut self) {
        let moves = self.recording.moves.len();
        let output = self.recording.output.len();
        if let Some(stop) = self.recording.stops.last_mut() {
            if !stop.is_end {
                stop.is_end = true;
                stop.moves = moves;
                stop.output = output;
            }
        }
    }
}

/// This recording with the first cells and the changes of a past.
fn with_past(recording: Recording, past: Past) -> Recording
    requires { Fits past.changes.items past.first.items }
    ensures { IsReplayable result }
{
    let Past { first, changes } = past;
    let mut whole = recording;
    whole.first = first;
    whole.changes = changes;
    whole
}

impl Observer for Recorder {
    fn before(&mut self, stacks: &Stacks<'_>, store: &mut Store) -> Result<(), Memory> {
        let depth = stacks.rests.len();
        if self.least > depth {
            self.leave(depth)?;
        }
        match &stacks.next {
            Progress::On(work) => self.see(work, stacks, store),
            _ => Ok(()),
        }
    }

    fn after(&mut self, stacks: &Stacks<'_>, store: &mut Store) -> Result<(), Memory> {
        match stacks.next {
            Progress::On(_) => {
                if stacks.called.least == 0 {
                    Ok(())
                } else {
                    self.enter(stacks, store)
                }
            }
            Progress::Serve(primitive, call) => self.serve(primitive, call.frame, store),
            Progress::Answered | Progress::Ended(_) | Progress::Going | Progress::Wild(_) => {
                self.end(store)
            }
        }
    }

    fn over(&mut self, store: &mut Store) {
        if let Some(past) = store.take_past() {
            self.history = past;
        }
        self.finish();
    }
}
