//! The command `interpret --strict`: a run by the meaning that also stops at lawful accesses that are nearly always mistakes.

use crate::interpreting::{
    Interpretation, built_with_warnings, explained_failure, program_streams, result_of,
};
use crate::running::{Ran, lost_in};
use bc_build::Built;
use bc_interpret_sources::Interpreted;
use bc_interpret_strict::{Mistake, StrictProgram, StrictRun, strict_run};
use bc_machine::Streams;
use bcpl_cli::{Cause, Failure, InterpretOrder, Strict};
use bcpl_debug::all_resolved;
use bcpl_sources::{Gathered, RunConsole};
use bcpl_streams::ClosableStreams;
use bcpl_wild::{Stand, WildProgram, named_globals, strict_message};
use std::alloc::Global;
use std::io::{Read, Write};
use std::rt::Files;

/// The mistake, as a cause of a failure.
fn strict_of(mistake: Mistake) -> Strict {
    match mistake {
        Mistake::Outside(outside) => Strict::Outside(outside.start.wrapping_add(outside.index)),
        Mistake::NoGlobal(number) => Strict::NoGlobal(number),
        Mistake::Constant(address) => Strict::Constant(address),
        Mistake::UnsetGlobal(number) => Strict::UnsetGlobal(number),
    }
}

/// The failure of a strict run that a mistake ended.
fn strict_failure(
    alloc: Global,
    gathered: &Gathered<'_, '_>,
    built: &Built,
    run: &StrictRun,
    mistake: Mistake,
) -> Failure {
    let program = gathered.program();
    let wild = WildProgram {
        sources: program.named.sources,
        mains: program.mains,
        image: &built.image,
    };
    let stand = Stand {
        standings: run.trail.standings.as_slice(),
        calls: run.trail.calls,
    };
    let message = strict_message(alloc, &wild, stand, mistake);
    explained_failure(alloc, &program, Cause::Strict(strict_of(mistake)), message)
}

/// Runs a program that was built, strictly.
fn run_built<S: Streams>(
    alloc: Global,
    gathered: &Gathered<'_, '_>,
    built: &Built,
    streams: &mut S,
    turns: u64,
) -> Result<StrictRun, Failure> {
    let program = gathered.program();
    let wild = WildProgram {
        sources: program.named.sources,
        mains: program.mains,
        image: &built.image,
    };
    let named = named_globals(alloc, &wild)?;
    let cores = all_resolved(alloc, program.named.sources, program.mains)?;
    let strict = StrictProgram {
        cores: cores.as_slice(),
        image: &built.image,
        named: named.as_slice(),
    };
    Ok(strict_run(alloc, &strict, streams, turns)?)
}

/// The result of a strict run as the result of the command. `is_closed` says whether its streams were closed without error.
fn strict_result(
    alloc: Global,
    gathered: &Gathered<'_, '_>,
    built: Built,
    run: StrictRun,
    is_closed: bool,
) -> Result<(), Failure> {
    if let Some(mistake) = run.mistake {
        return Err(strict_failure(alloc, gathered, &built, &run, mistake));
    }
    let StrictRun { outcome, trail, .. } = run;
    let whole = Interpretation {
        built,
        interpreted: Interpreted { outcome, trail },
        is_closed,
    };
    result_of(alloc, &gathered.program(), &whole, gathered.library)
}

/// Builds a program, prints its warnings, and runs it strictly. Fails if nothing was run.
pub fn interpret_strictly<F: Files, R: Read + Drop, O: Write + Drop, E: Write + Drop>(
    rt: &F,
    alloc: Global,
    order: &InterpretOrder<'_>,
    gathered: &Gathered<'_, '_>,
    console: RunConsole<'_, R, O, E>,
) -> Result<Ran, Failure> {
    let RunConsole { streams, err } = console;
    let warns = streams.explains && order.program.warns;
    let program = gathered.program();
    let shown = (err, streams.explains);
    let built = built_with_warnings(alloc, &program, gathered, &order.program, shown)?;
    let mut streams = program_streams(rt, alloc, &order.program, streams)?;
    let run = run_built(alloc, gathered, &built, &mut streams, order.turns)?;
    let is_closed = streams.close().is_ok();
    let lost = lost_in(alloc, &streams, warns);
    Ok(Ran {
        done: strict_result(alloc, gathered, built, run, is_closed),
        used: String::new(alloc),
        lost,
    })
}
