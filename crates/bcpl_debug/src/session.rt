//! A debugging session: the recorded run, where one is in it, and the breakpoints.

use crate::breakpoints::Breakpoint;
use crate::ending::end_lines;
use crate::names::Names;
use crate::places::SitePlace;
use crate::program::DebugProgram;
use crate::scope::DebugScope;
use crate::streams::{RunInput, further_outputs, streams_of};
use crate::strict::{end_strictly, strict_end_of};
use bc_interpret_record::{
    Bounds, Frame, Interpreted, Moment, RecordError, RecordLimits, Recordable, Recorded, Recording,
    Stop, record_run,
};
use bc_machine::{MemoryStreams, StreamsError};
use bc_word::Memory;
use bcpl_wild::Mistake;
use std::alloc::Global;

/// How far a run goes, and how much of it is kept.
#[derive(Clone, Copy)]
pub struct SessionLimits {
    /// The number of turns after which the run is cut off.
    pub turns: u64,
    /// The greatest number of stops that are kept.
    pub stops: usize,
    /// Whether lawful accesses that are probably mistakes end the run.
    pub is_strict: bool,
}

/// A run that was recorded, with its names and its end.
pub struct RecordedRun<'s> {
    /// The outcome of the run, and where it was then.
    pub interpreted: Interpreted,
    /// Its recording.
    pub recording: Recording,
    /// The names of the program.
    pub names: Names<'s>,
    /// What is printed about its end; empty if it finished.
    pub end_lines: String,
    /// What it wrote to each of its further outputs.
    pub outputs: Vec<Vec<u8>>,
    /// The mistake at which the recording of a strict run ends.
    pub mistake: Option<Mistake>,
}

impl Drop for RecordedRun<'_> {
    fn drop(self) {
        let RecordedRun {
            interpreted: _,
            recording: _,
            names: _,
            end_lines: _,
            outputs: _,
            mistake: _,
        } = self;
    }
}

/// Why there is no session.
#[derive(Clone, Copy, Debug)]
pub enum SessionError {
    /// An allocation failed.
    Memory,
    /// The recorded run wasn't the run by the meaning, which is a mistake in bcpl.
    Differs,
    /// The names of the streams can't be those of streams.
    Streams(StreamsError),
}

impl From<Memory> for SessionError {
    fn from(_refused: Memory) -> SessionError {
        SessionError::Memory
    }
}

impl From<StreamsError> for SessionError {
    fn from(fault: StreamsError) -> SessionError {
        match fault {
            StreamsError::Memory => SessionError::Memory,
            fault => SessionError::Streams(fault),
        }
    }
}

impl From<RecordError> for SessionError {
    fn from(error: RecordError) -> SessionError {
        match error {
            RecordError::Memory => SessionError::Memory,
            RecordError::Differs => SessionError::Differs,
        }
    }
}

/// Two runs of a program by its meaning, the second of which is recorded.
fn run_twice(
    alloc: Global,
    program: &DebugProgram<'_, '_>,
    streams: (&mut MemoryStreams, &mut MemoryStreams),
    limits: SessionLimits,
) -> Result<Recorded, RecordError> {
    let recordable = Recordable {
        cores: program.cores,
        image: program.image,
    };
    let limits = RecordLimits {
        turns: limits.turns,
        bounds: Bounds {
            stops: limits.stops,
            changes: limits.stops.saturating_mul(4),
        },
    };
    let (first, second) = streams;
    record_run(alloc, recordable, first, second, limits)
}

/// A recorded run with the names of its program and its end.
fn with_names<'s>(
    alloc: Global,
    program: &DebugProgram<'_, 's>,
    recorded: Recorded,
    outputs: Vec<Vec<u8>>,
) -> Result<RecordedRun<'s>, Memory> {
    let names = Names::new(alloc, program, &recorded.recording.sites)?;
    let end_lines = end_lines(alloc, program, &recorded.interpreted)?;
    Ok(RecordedRun {
        interpreted: recorded.interpreted,
        recording: recorded.recording,
        names,
        end_lines,
        outputs,
        mistake: None,
    })
}

/// Runs a program with this input by its meaning, and records the run. The errors are those of `recorded`.
fn run_recorded<'s>(
    alloc: Global,
    program: &DebugProgram<'_, 's>,
    input: &RunInput,
    limits: SessionLimits,
) -> Result<RecordedRun<'s>, SessionError> {
    let mut streams = streams_of(alloc, input)?;
    let mut again = streams_of(alloc, input)?;
    let recorded = run_twice(alloc, program, (&mut streams, &mut again), limits)?;
    let outputs = further_outputs(alloc, input, &streams)?;
    Ok(with_names(alloc, program, recorded, outputs)?)
}

/// Runs a program with this input, and records the run, of a strict one what comes before a mistake.
///
/// `Memory` if an allocation fails, `Streams` if two streams have one name or a name is too long, and `Differs` if the recorder made a mistake.
pub fn recorded<'s>(
    alloc: Global,
    program: &DebugProgram<'_, 's>,
    input: &RunInput,
    limits: SessionLimits,
) -> Result<RecordedRun<'s>, SessionError> {
    let end = strict_end_of(alloc, program, input, limits)?;
    let turns = match &end {
        Some(end) => end.turns(),
        None => limits.turns,
    };
    let limits = SessionLimits { turns, ..limits };
    let mut run = run_recorded(alloc, program, input, limits)?;
    if let Some(end) = &end {
        end_strictly(alloc, program, end, &mut run)?;
    }
    Ok(run)
}

/// A debugging session.
pub struct Session<'p, 's> {
    pub(crate) alloc: Global,
    pub(crate) program: DebugProgram<'p, 's>,
    pub(crate) run: RecordedRun<'s>,
    pub(crate) moment: Moment,
    pub(crate) breakpoints: Vec<Breakpoint>,
    /// The number of the next breakpoint.
    pub(crate) next_number: usize,
    /// The selected call, counted from the newest one.
    pub(crate) selected: usize,
    /// The command before, which an empty line repeats.
    pub(crate) repeated: String,
    /// The line after the last one that was listed; 0 if none was.
    pub(crate) listed: usize,
    /// The file of that line.
    pub(crate) listed_file: usize,
    /// What the program reads.
    pub(crate) input: RunInput,
    pub(crate) limits: SessionLimits,
    /// Whether the input changed since the run was recorded.
    pub(crate) is_stale: bool,
    /// Whether stepping goes into the library's routines.
    pub(crate) enters_library: bool,
}

impl Drop for Session<'_, '_> {
    fn drop(self) {
        let Session {
            alloc: _,
            program: _,
            run: _,
            moment: _,
            breakpoints: _,
            next_number: _,
            selected: _,
            repeated: _,
            listed: _,
            listed_file: _,
            input: _,
            limits: _,
            is_stale: _,
            enters_library: _,
        } = self;
    }
}

impl<'p, 's> Session<'p, 's> {
    /// Begins a session with a recorded run.
    ///
    /// The errors are those of `recorded`.
    pub fn new(
        alloc: Global,
        program: DebugProgram<'p, 's>,
        input: RunInput,
        limits: SessionLimits,
    ) -> Result<Session<'p, 's>, SessionError> {
        let run = recorded(alloc, &program, &input, limits)?;
        let moment = Moment::first(alloc, &run.recording)?;
        Ok(Session {
            alloc,
            program,
            run,
            moment,
            breakpoints: Vec::new(alloc),
            next_number: 1,
            selected: 0,
            repeated: String::new(alloc),
            listed: 0,
            listed_file: 0,
            input,
            limits,
            is_stale: false,
            enters_library: false,
        })
    }

    /// Goes to the first stop, and records the run again if the input changed.
    pub(crate) fn restart(&mut self) -> Result<(), SessionError> {
        if self.is_stale {
            self.run = recorded(self.alloc, &self.program, &self.input, self.limits)?;
            self.is_stale = false;
        }
        self.moment = Moment::first(self.alloc, &self.run.recording)?;
        self.selected = 0;
        Ok(())
    }

    /// The stop at which the session is.
    pub(crate) fn stop(&self) -> Option<Stop> {
        self.run.recording.stops.get(self.moment.at).copied()
    }

    /// Whether the session is at the end of the run.
    pub(crate) fn is_at_end(&self) -> bool {
        match self.stop() {
            Some(stop) => stop.is_end,
            None => true,
        }
    }

    /// The place of a site.
    pub(crate) fn place(&self, site: u32) -> Option<SitePlace> {
        self.run.names.place(site)
    }

    /// Whether stepping stops at a site: its place is known, and it isn't in the library or `enters_library`.
    pub(crate) fn is_shown(&self, site: u32, enters_library: bool) -> bool {
        match self.place(site) {
            Some(place) => {
                place.span.is_some() && (enters_library || !self.program.is_library(place.section))
            }
            None => false,
        }
    }

    /// Whether stepping from here goes through the library: that was asked for, or the session is in it.
    pub(crate) fn goes_through_library(&self) -> bool {
        let place = match self.stop() {
            Some(stop) if !stop.is_end => self.place(stop.site),
            _ => None,
        };
        self.enters_library || place.is_some_and(|place| self.program.is_library(place.section))
    }

    /// What the recorded run wrote to each of its further outputs, in their order.
    pub fn outputs(&self) -> &[Vec<u8>] {
        self.run.outputs.as_slice()
    }

    /// The number of calls that the run is in.
    pub(crate) fn depth(&self) -> usize {
        self.moment.frames.len()
    }

    /// The call with this number, counted from the newest one.
    pub(crate) fn frame(&self, number: usize) -> Option<Frame> {
        let index = self.depth().checked_sub(number.saturating_add(1))?;
        self.moment.frames.get(index).copied()
    }

    /// The names at the stop in the selected call.
    pub(crate) fn scope(&self) -> DebugScope<'_, 's> {
        self.scope_of(self.selected)
    }

    /// The names at the stop in the call with this number, counted from the newest one.
    pub(crate) fn scope_of(&self, number: usize) -> DebugScope<'_, 's> {
        DebugScope {
            program: &self.program,
            names: &self.run.names,
            moment: &self.moment,
            frame: self.frame(number),
        }
    }
}
