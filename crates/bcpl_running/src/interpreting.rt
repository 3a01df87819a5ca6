//! The command `interpret`.

ghost use Rattle.std.specs.Prelude.{◌<◌, length, All, IfOk};
ghost use Rattle.bc_lex.specs.Files.{files_of};
ghost use Rattle.bc_interpret_sources.specs.Programs.{IsImageOf};

use crate::running::{DeviceStreams, Ran, lost_in, streams_of};
use crate::strict::interpret_strictly;
use bc_build::{Built, build_keeping};
use bc_interpret_sources::{
    BuiltProgram as Sections, Cause as Access, Ending, Interpreted, Outcome, interpret,
    interpret_observed,
};
use bc_machine::Streams;
use bc_machine_defs::End;
use bc_word::Memory;
use bcpl_cli::{Cause, Clean, Failure, InterpretOrder, ProgramOrder, Wild, load_sources};
use bcpl_messages::{Message, Note};
use bcpl_places::Span;
use bcpl_sources::{
    Accepted, Gathered, Program, RunConsole, RunStreams, error_lines, print_messages, refused,
    unfinished, warnings_on,
};
use bcpl_streams::ClosableStreams;
use bcpl_warnings::loop_around;
use bcpl_wild::{Met, ProgressLine, Stand, placed_message, wild_message};
use std::alloc::Global;
use std::io::{Read, Write};
use std::rt::Files;

/// Runs `interpret`. Refusals are explained and warnings printed if `streams.explains`; an abnormal end of the run is
/// always explained. Fails if nothing was run.
pub fn interpret_files<F: Files, R: Read + Drop, O: Write + Drop, E: Write + Drop>(
    rt: &F,
    alloc: Global,
    order: &InterpretOrder<'_>,
    streams: RunStreams<R, O>,
    err: &mut Clean<E>,
) -> Result<Ran, Failure> {
    let files = load_sources(rt, alloc, &order.program.sources)?;
    order.program.protect_files(rt, alloc, files.as_slice())?;
    let gathered = Gathered::new(alloc, &order.program.sources, files.as_slice())?;
    let console = RunConsole { streams, err };
    if order.is_strict {
        return interpret_strictly(rt, alloc, order, &gathered, console);
    }
    let (run, lost) = interpretation_of(rt, alloc, order, &gathered, console)?;
    Ok(Ran {
        done: result_of(alloc, &gathered.program(), &run, gathered.library),
        used: String::new(alloc),
        lost,
    })
}

/// Prints the warnings about a program that was built to this, unless they are suppressed.
fn print_warnings<'s, E: Write + Drop>(
    alloc: Global,
    order: &ProgramOrder<'_>,
    gathered: &Gathered<'_, 's>,
    accepted: &Accepted<'_, 's>,
    err: &mut Clean<E>,
) -> Result<(), Memory> {
    if order.warns {
        let warnings = warnings_on(alloc, &order.sources, gathered, accepted)?;
        print_messages(warnings.as_str(), err);
    }
    Ok(())
}

/// A program that was built, and run by its meaning.
pub struct Interpretation {
    pub built: Built,
    /// The result of the run.
    pub interpreted: Interpreted,
    /// Whether its streams were closed without error.
    pub is_closed: bool,
}

impl Drop for Interpretation {
    fn drop(self) {
        let Interpretation {
            built: _,
            interpreted: _,
            is_closed: _,
        } = self;
    }
}

/// Builds a program of these files, and prints its warnings. The second part of the console says whether a refusal is explained.
#[tactic(auto, using(bc_interpret_sources::proofs::Resolved::built_is_image))]
pub fn built_with_warnings<'s, E: Write + Drop>(
    alloc: Global,
    program: &Program<'_, 's>,
    gathered: &Gathered<'_, 's>,
    order: &ProgramOrder<'_>,
    console: (&mut Clean<E>, bool),
) -> Result<Built, Failure>
    requires mains { All (λ main. main < length program.now.named.sources.now) program.now.mains.now }
    ensures image { IfOk result (λ built. IsImageOf (files_of program.now.named.sources.now) program.now.mains.now built.image) }
{
    let (err, explains) = console;
    let mut parsed = Vec::new(alloc);
    let built = match build_keeping(alloc, program.named.sources, program.mains, &mut parsed) {
        Ok(built) => built,
        Err(fault) => return Err(refused(alloc, program, fault, explains)),
    };
    if explains {
        let accepted = Accepted {
            segments: built.segments.as_slice(),
            parsed: parsed.as_slice(),
        };
        print_warnings(alloc, order, gathered, &accepted, err)?;
    }
    Ok(built)
}

/// Runs a program by its meaning. On a terminal that shows messages a line shows how far it is; `is_shared` says that the program
/// writes to that terminal too.
fn interpreted_on<S: Streams, E: Write + Drop>(
    alloc: Global,
    run: &Sections<'_>,
    streams: &mut S,
    turns: u64,
    terminal: (&mut Clean<E>, bool),
) -> Result<Interpreted, Memory>
    requires mains { All (λ main. main < length run.now.sources.now) run.now.mains.now }
    requires built { IsImageOf (files_of run.now.sources.now) run.now.mains.now run.now.image.now }
{
    let (err, is_shared) = terminal;
    if !err.is_terminal() {
        return interpret(alloc, run, streams, turns);
    }
    let mut line = ProgressLine::new(err.inner(), is_shared);
    let interpreted = interpret_observed(alloc, run, streams, turns, &mut line);
    line.remove();
    interpreted
}

/// Builds a program, prints its warnings, and runs it by its meaning. Also gives what the run lost, as lines.
fn interpretation_of<F: Files, R: Read + Drop, O: Write + Drop, E: Write + Drop>(
    rt: &F,
    alloc: Global,
    order: &InterpretOrder<'_>,
    gathered: &Gathered<'_, '_>,
    console: RunConsole<'_, R, O, E>,
) -> Result<(Interpretation, String), Failure> {
    let RunConsole { streams, err } = console;
    let warns = streams.explains && order.program.warns;
    let is_shared = streams.is_terminal;
    let program = gathered.program();
    let shown = (&mut *err, streams.explains);
    let built = built_with_warnings(alloc, &program, gathered, &order.program, shown)?;
    let mut streams = program_streams(rt, alloc, &order.program, streams)?;
    let run = Sections {
        sources: program.named.sources,
        mains: program.mains,
        image: &built.image,
    };
    let interpreted = interpreted_on(alloc, &run, &mut streams, order.turns, (err, is_shared))?;
    let is_closed = streams.close().is_ok();
    let lost = lost_in(alloc, &streams, warns);
    let run = Interpretation {
        built,
        interpreted,
        is_closed,
    };
    Ok((run, lost))
}

/// The streams of a run, in the order of the arguments.
pub fn program_streams<F: Files, R: Read + Drop, O: Write + Drop>(
    rt: &F,
    alloc: Global,
    order: &ProgramOrder<'_>,
    streams: RunStreams<R, O>,
) -> Result<DeviceStreams<R, O, F::File>, Failure> {
    let (inputs, outputs) = (order.inputs.as_slice(), order.outputs.as_slice());
    streams_of(rt, alloc, streams.on_source(), inputs, outputs)
}

/// The failure of a run that finished while one of its outputs could not be written to its end.
fn unclosed(alloc: Global) -> Failure {
    unfinished(alloc, Failure::new(Cause::Ended(End::Device)))
}

/// The result of a run as the result of the command. The first `library` sources are the library's.
pub fn result_of(
    alloc: Global,
    program: &Program<'_, '_>,
    run: &Interpretation,
    library: usize,
) -> Result<(), Failure> {
    match run.interpreted.outcome {
        Outcome::Ended(Ending::Finished) if run.is_closed => Ok(()),
        Outcome::Ended(Ending::Finished) => Err(unclosed(alloc)),
        Outcome::Device => Err(device_failure(alloc, program, run)),
        Outcome::Ended(Ending::ZeroDivide) => Err(zero_divide_failure(alloc, program, run)),
        Outcome::Going => Err(turns_spent_failure(alloc, program, run, library)),
        Outcome::Wild(access) => Err(wild_failure(alloc, program, run, access)),
    }
}

/// The lines of this message on a failure, if there was memory for it.
fn lines_of(
    alloc: Global,
    program: &Program<'_, '_>,
    failure: &Failure,
    message: Result<Message, Memory>,
) -> Result<String, Memory> {
    let code = format!(in alloc; "{failure}")?;
    error_lines(alloc, program, code.as_str(), message?)
}

/// A failure with this explanation, or one of `Memory` if there was no memory for it.
pub fn explained_failure(
    alloc: Global,
    program: &Program<'_, '_>,
    cause: Cause,
    message: Result<Message, Memory>,
) -> Failure {
    let failure = Failure::new(cause);
    match lines_of(alloc, program, &failure, message) {
        Ok(lines) => failure.with(lines),
        Err(_) => Failure::new(Cause::Memory),
    }
}

/// The failure of a run whose stream failed.
fn device_failure(alloc: Global, program: &Program<'_, '_>, run: &Interpretation) -> Failure {
    let message = end_message(alloc, program, run, "a stream failed here");
    explained_failure(alloc, program, Cause::Ended(End::Device), message)
}

/// The failure of a run that divided by zero.
fn zero_divide_failure(alloc: Global, program: &Program<'_, '_>, run: &Interpretation) -> Failure {
    let message = end_message(alloc, program, run, "this divides by 0");
    explained_failure(alloc, program, Cause::Ended(End::ZeroDivide), message)
}

/// The loop around a place that isn't in the library, if there is one.
fn loop_at(
    alloc: Global,
    program: &Program<'_, '_>,
    library: usize,
    place: Span,
) -> Result<Option<Note>, Memory> {
    if place.file < library {
        return Ok(None);
    }
    for main in program.mains {
        let found = loop_around(alloc, program.named.sources, *main, place)?;
        if found.is_some() {
            return Ok(found);
        }
    }
    Ok(None)
}

/// The loop that a run was in, in the newest of its calls that is in one.
fn loop_of(
    alloc: Global,
    program: &Program<'_, '_>,
    library: usize,
    message: &Message,
) -> Result<Option<Note>, Memory> {
    if let Some(place) = message.span {
        let found = loop_at(alloc, program, library, place)?;
        if found.is_some() {
            return Ok(found);
        }
    }
    for call in &message.notes {
        let found = loop_at(alloc, program, library, call.span)?;
        if found.is_some() {
            return Ok(found);
        }
    }
    Ok(None)
}

/// The help for a run that used up its turns.
const TURNS_SPENT: &str =
    "--turns N allows more; make sure that the loop or the recursion ends; bcpl debug FILE.. shows the values";

/// The explanation of a run that used up its turns: where it was, the calls that led there, and the loop that it was in.
fn turns_spent_message(
    alloc: Global,
    program: &Program<'_, '_>,
    run: &Interpretation,
    library: usize,
) -> Result<Message, Memory> {
    let sentence = "the run was here when it used up its turns";
    let mut message = end_message(alloc, program, run, sentence)?;
    let note = loop_of(alloc, program, library, &message)?;
    if let Some(note) = note {
        message.notes.push(note)?;
    }
    message.helped(alloc, Some(TURNS_SPENT))
}

/// The failure of a run that used up its turns.
fn turns_spent_failure(
    alloc: Global,
    program: &Program<'_, '_>,
    run: &Interpretation,
    library: usize,
) -> Failure {
    explained_failure(
        alloc,
        program,
        Cause::TurnsSpent,
        turns_spent_message(alloc, program, run, library),
    )
}

/// The failure of a run that met a wild cell.
fn wild_failure(
    alloc: Global,
    program: &Program<'_, '_>,
    run: &Interpretation,
    access: Access,
) -> Failure {
    let message = wild_access_message(alloc, program, run, access);
    explained_failure(alloc, program, Cause::Wild(wild_of(access)), message)
}

/// The wild access, as a cause of a failure.
fn wild_of(access: Access) -> Wild {
    match access {
        Access::Unset(address) => Wild::Unset(address),
        Access::Dead(address) => Wild::Dead(address),
        Access::NoCell(address) => Wild::NoCell(address),
        Access::NotRoutine(value) => Wild::NotRoutine(value),
        Access::FrameTooLarge(cell) => Wild::FrameTooLarge(cell as u64),
        Access::Malformed => Wild::FrameTooLarge(0),
    }
}

/// A program as `bcpl_wild` takes it.
fn program_of<'p, 's>(
    program: &Program<'p, 's>,
    run: &'p Interpretation,
) -> bcpl_wild::WildProgram<'p, 's> {
    bcpl_wild::WildProgram {
        sources: program.named.sources,
        mains: program.mains,
        image: &run.built.image,
    }
}

/// The explanation of a wild access: where it happened, whose cell it met, and the calls that led there.
fn wild_access_message(
    alloc: Global,
    program: &Program<'_, '_>,
    run: &Interpretation,
    access: Access,
) -> Result<Message, Memory> {
    let met = Met {
        cause: access,
        standings: run.interpreted.trail.standings.as_slice(),
        calls: run.interpreted.trail.calls,
    };
    wild_message(alloc, &program_of(program, run), &met)
}

/// The explanation of another end of a run: this sentence, where the run was, and the calls that led there.
fn end_message(
    alloc: Global,
    program: &Program<'_, '_>,
    run: &Interpretation,
    sentence: &str,
) -> Result<Message, Memory> {
    let stand = Stand {
        standings: run.interpreted.trail.standings.as_slice(),
        calls: run.interpreted.trail.calls,
    };
    let sentence = String::from_str(alloc, sentence)?;
    placed_message(alloc, &program_of(program, run), stand, sentence)
}
