//! Moving through the recorded run, forwards and backwards.

use crate::breakpoints::{Breakpoint, Target};
use crate::evaluate::value_of;
use crate::session::Session;
use bc_interpret_record::{Frame, Move};
use bc_word::Memory;

/// Which way to move.
#[derive(Clone, Copy, Debug, PartialEq, Eq)]
pub(crate) enum Way {
    Forward,
    Back,
}

/// Where a move ends, unless a breakpoint ends it before.
#[derive(Clone, Copy)]
pub(crate) enum Aim {
    /// At the next stop that is shown.
    Any,
    /// At the next stop that is shown with at most this many calls.
    Within(usize),
    /// At a breakpoint only.
    Breakpoint,
    /// At one of the sites of the breakpoint with this index.
    Site(usize),
}

/// What ended a move.
#[derive(Clone, Copy)]
pub(crate) enum Halt {
    /// Its aim.
    Aim,
    /// The breakpoint with this index.
    Breakpoint(usize),
    /// The start or the end of the recording.
    Edge,
}

impl Session<'_, '_> {
    /// The index of the stop whose changes are made or taken back when the stop with this index is reached from the one next to it.
    fn changed_stop(at: usize, way: Way) -> usize {
        match way {
            Way::Forward => at,
            Way::Back => at.saturating_add(1),
        }
    }

    /// The call that was entered right before the stop with this index, if one was.
    fn entered(&self, at: usize) -> Option<Frame> {
        let recording = &self.run.recording;
        if at == 0 && recording.dropped > 0 {
            return None;
        }
        if at == 0 {
            return recording.frames.last().copied();
        }
        match recording.moves_of(at).last() {
            Some(Move::Enter(frame)) => Some(*frame),
            _ => None,
        }
    }

    /// Whether this cell is changed on the way to the stop with this index.
    fn is_changed(&self, address: u16, at: usize, way: Way) -> bool {
        self.run
            .recording
            .changes_of(Self::changed_stop(at, way))
            .iter()
            .any(|change| change.address == address)
    }

    /// Whether the run is in a call of the same routine with the same frame, if one is asked for.
    fn is_in_call(&self, owner: Option<Frame>) -> bool {
        match owner {
            Some(owner) => self.moment.frames.iter().any(|frame| frame.routine == owner.routine
                && frame.base == owner.base),
            None => true,
        }
    }

    /// Whether a breakpoint can stop at the stop with this index, which depends on its condition and on the calls besides.
    fn is_near(&self, breakpoint: &Breakpoint, at: usize, way: Way) -> bool {
        match &breakpoint.target {
            Target::Line { sites, .. } => match self.run.recording.stops.get(at) {
                Some(stop) => !stop.is_end && sites.contains(&stop.site),
                None => false,
            },
            Target::Routine(address) => match self.entered(at) {
                Some(frame) => frame.routine == *address,
                None => false,
            },
            Target::Cell { address, .. } => self.is_changed(*address, at, way),
        }
    }

    /// Whether the session is where a breakpoint stops, apart from its condition.
    fn is_at(&self, breakpoint: &Breakpoint, way: Way) -> bool {
        let is_in_call = match &breakpoint.target {
            Target::Cell { owner, .. } => self.is_in_call(*owner),
            _ => true,
        };
        is_in_call && self.is_near(breakpoint, self.moment.at, way)
    }

    /// Whether the condition of a breakpoint is true; one that has no value counts as true.
    fn is_met(&self, condition: &str) -> bool {
        if condition.is_empty() {
            return true;
        }
        match value_of(self.alloc, &self.scope_of(0), condition) {
            Ok(value) => value != 0,
            Err(_) => true,
        }
    }

    /// The index of the breakpoint that stops here, if one does.
    pub(crate) fn hit(&self, way: Way) -> Option<usize> {
        for (index, breakpoint) in self.breakpoints.iter().enumerate() {
            if self.is_at(breakpoint, way) && self.is_met(breakpoint.condition.as_str()) {
                return Some(index);
            }
        }
        None
    }

    /// Whether the aim can be reached at the stop with this index, which depends on the calls besides.
    fn is_aim(&self, aim: Aim, at: usize, enters_library: bool) -> bool {
        match aim {
            Aim::Any | Aim::Within(_) => match self.run.recording.stops.get(at) {
                Some(stop) => stop.is_end || self.is_shown(stop.site, enters_library),
                None => true,
            },
            Aim::Breakpoint => false,
            Aim::Site(index) => match self.breakpoints.get(index) {
                Some(breakpoint) => self.is_near(breakpoint, at, Way::Forward),
                None => false,
            },
        }
    }

    /// Whether the session is where a move is to end.
    fn is_reached(&self, aim: Aim, enters_library: bool) -> bool {
        if !self.is_aim(aim, self.moment.at, enters_library) {
            return false;
        }
        match aim {
            Aim::Within(depth) => self.depth() <= depth,
            Aim::Site(index) => match self.breakpoints.get(index) {
                Some(breakpoint) => self.is_at(breakpoint, Way::Forward),
                None => false,
            },
            Aim::Any | Aim::Breakpoint => true,
        }
    }

    /// Whether a move can end at the stop with this index.
    fn is_candidate(&self, at: usize, way: Way, aim: Aim, enters_library: bool) -> bool {
        self.is_aim(aim, at, enters_library)
            || self
                .breakpoints
                .iter()
                .any(|breakpoint| self.is_near(breakpoint, at, way))
    }

    /// The next stop this way at which a move can end, if there is one.
    fn candidate(&self, way: Way, aim: Aim, enters_library: bool) -> Option<usize> {
        let here = self.moment.at;
        match way {
            Way::Forward => {
                for at in here.saturating_add(1)..self.run.recording.stops.len() {
                    if self.is_candidate(at, way, aim, enters_library) {
                        return Some(at);
                    }
                }
            }
            Way::Back => {
                for at in (0..here).rev() {
                    if self.is_candidate(at, way, aim, enters_library) {
                        return Some(at);
                    }
                }
            }
        }
        None
    }

    /// Goes to the last stop this way.
    fn go_to_edge(&mut self, way: Way) -> Result<(), Memory> {
        let edge = match way {
            Way::Forward => self.run.recording.stops.len().saturating_sub(1),
            Way::Back => 0,
        };
        let _went = self.moment.jump(&self.run.recording, edge)?;
        Ok(())
    }

    /// Moves until the aim or a breakpoint is reached.
    pub(crate) fn travel(&mut self, way: Way, aim: Aim) -> Result<Halt, Memory> {
        self.selected = 0;
        let enters_library = self.goes_through_library();
        for _each in 0..self.run.recording.stops.len() {
            let Some(at) = self.candidate(way, aim, enters_library) else {
                self.go_to_edge(way)?;
                return Ok(Halt::Edge);
            };
            let _went = self.moment.jump(&self.run.recording, at)?;
            if let Some(index) = self.hit(way) {
                return Ok(Halt::Breakpoint(index));
            }
            if self.is_reached(aim, enters_library) {
                return Ok(Halt::Aim);
            }
        }
        Ok(Halt::Edge)
    }

    /// Goes to the stop with this index, or to the last one if there are fewer.
    pub(crate) fn go_to(&mut self, at: usize) -> Result<(), Memory> {
        self.selected = 0;
        self.listed = 0;
        let last = self.run.recording.stops.len().saturating_sub(1);
        let _went = self.moment.jump(&self.run.recording, at.min(last))?;
        Ok(())
    }
}
