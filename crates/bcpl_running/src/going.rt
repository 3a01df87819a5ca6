//! The command `go`.

use crate::interpret_line::with_interpret_line;
use crate::interpreting::{built_with_warnings, program_streams};
use crate::running::{Ran, closed, lost_in};
use bc_machine_defs::{End, Image};
use bcpl_cli::{Clean, Failure, GoOrder, load_sources};
use bcpl_sources::{Gathered, RunStreams, unfinished};
use bcpl_trace::run_image;
use std::alloc::Global;
use std::io::{Read, Write};
use std::rt::Files;

/// Runs an image over the streams of the order, and closes them.
fn run_built<F: Files, R: Read + Drop, O: Write + Drop>(
    rt: &F,
    alloc: Global,
    order: &GoOrder<'_>,
    image: &Image,
    streams: RunStreams<R, O>,
) -> Result<Ran, Failure> {
    let warns = streams.explains && order.program.warns;
    let mut streams = program_streams(rt, alloc, &order.program, streams)?;
    let (_machine, end) = run_image(alloc, image, &mut streams, order.steps)?;
    let done = match closed(&mut streams, end) {
        Ok(()) => Ok(()),
        Err(failure) if end == End::Finished => Err(unfinished(alloc, failure)),
        Err(failure) => Err(with_interpret_line(alloc, failure, order)),
    };
    Ok(Ran {
        done,
        used: String::new(alloc),
        lost: lost_in(alloc, &streams, warns),
    })
}

/// Runs `go`: builds a program, prints its warnings, and runs it. Refusals are explained and warnings printed if
/// `streams.explains`; a run that doesn't finish gets the command that shows where. Fails if nothing was run.
pub fn go<F: Files, R: Read + Drop, O: Write + Drop, E: Write + Drop>(
    rt: &F,
    alloc: Global,
    order: &GoOrder<'_>,
    streams: RunStreams<R, O>,
    err: &mut Clean<E>,
) -> Result<Ran, Failure> {
    let given = &order.program.sources;
    let files = load_sources(rt, alloc, given)?;
    order.program.protect_files(rt, alloc, files.as_slice())?;
    let gathered = Gathered::new(alloc, given, files.as_slice())?;
    let program = gathered.program();
    let shown = (err, streams.explains);
    let built = built_with_warnings(alloc, &program, &gathered, &order.program, shown)?;
    run_built(rt, alloc, order, &built.image, streams)
}
