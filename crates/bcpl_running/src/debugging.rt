//! The command `debug`: a session at the terminal, or a page with the recorded run.

use bc_build::{Built, build};
use bc_core::Core;
use bc_machine::Named;
use bc_machine_defs::Image;
use bc_word::Memory;
use bcpl_cli::{Binding, Cause, DebugOrder, Failure, contents, load_sources};
use bcpl_debug::{
    DebugProgram, Flow, PageOf, RunInput, Session, SessionError, SessionLimits, all_resolved,
    page_of, recorded,
};
use bcpl_sources::{
    Console, Gathered, Terminals, is_tame_built, print_lines, refused, write_report,
};
use std::alloc::Global;
use std::io::{BufRead, BufReader, Read, Write};
use std::rt::Files;

/// The prompt at a terminal, and what precedes a command that doesn't come from one.
const PROMPT: &str = "(bcpl) ";

/// The bounds of a session.
fn limits_of(order: &DebugOrder<'_>) -> SessionLimits {
    SessionLimits {
        turns: order.turns,
        stops: usize::try_from(order.record).unwrap_or(usize::MAX).max(2),
        is_strict: order.is_strict,
    }
}

/// The failure of a recording.
fn failure_of(error: SessionError) -> Failure {
    match error {
        SessionError::Memory | SessionError::Differs => Failure::new(Cause::Memory),
        SessionError::Streams(fault) => Failure::from(fault),
    }
}

/// The bytes that the program reads from SYSIN.
fn standard_of<F: Files>(
    rt: &F,
    alloc: Global,
    order: &DebugOrder<'_>,
) -> Result<Vec<u8>, Failure> {
    match order.input {
        Some(path) => contents(rt, alloc, path),
        None => Ok(Vec::new(alloc)),
    }
}

/// An input stream with the bytes of its file.
fn stream_of<F: Files>(
    rt: &F,
    alloc: Global,
    binding: &Binding<'_>,
) -> Result<Named<Vec<u8>>, Failure> {
    Ok(Named {
        name: Vec::from_slice(alloc, binding.name.as_bytes())?,
        device: contents(rt, alloc, binding.path)?,
    })
}

/// What the program reads, and the names of its outputs.
fn input_of<F: Files>(rt: &F, alloc: Global, order: &DebugOrder<'_>) -> Result<RunInput, Failure> {
    let standard = standard_of(rt, alloc, order)?;
    let mut inputs = Vec::new(alloc);
    for binding in &order.inputs {
        inputs.push(stream_of(rt, alloc, binding)?)?;
    }
    let mut outputs = Vec::new(alloc);
    for binding in &order.outputs {
        outputs.push(Vec::from_slice(alloc, binding.name.as_bytes())?)?;
    }
    Ok(RunInput {
        standard,
        inputs,
        outputs,
    })
}

/// Writes what the run wrote to its further outputs to their files.
fn write_outputs<F: Files>(
    rt: &F,
    alloc: Global,
    order: &DebugOrder<'_>,
    outputs: &[Vec<u8>],
) -> Result<(), Failure> {
    for (binding, bytes) in order.outputs.iter().zip(outputs.iter()) {
        write_report(rt, alloc, binding.path, bytes.as_slice())?;
    }
    Ok(())
}

/// Writes the page of a run to its file.
fn write_page<F: Files>(
    rt: &F,
    alloc: Global,
    program: &DebugProgram<'_, '_>,
    order: &DebugOrder<'_>,
    path: &str,
) -> Result<(), Failure> {
    let input = input_of(rt, alloc, order)?;
    let run = match recorded(alloc, program, &input, limits_of(order)) {
        Ok(run) => run,
        Err(error) => return Err(failure_of(error)),
    };
    let page = PageOf {
        program,
        run: &run,
        input: input.standard.as_slice(),
    };
    let text = page_of(alloc, &page)?;
    write_outputs(rt, alloc, order, run.outputs.as_slice())?;
    write_report(rt, alloc, path, text.as_bytes())
}

/// A command as it is printed; empty if it isn't.
fn echoed(alloc: Global, line: &str, echoes: bool) -> Result<String, Memory> {
    let mut text = String::new(alloc);
    if echoes {
        text.push_str(PROMPT)?;
        text.push_str(line)?;
        text.push_str("\n")?;
    }
    Ok(text)
}

/// Runs one command, after printing it if it doesn't come from a terminal.
fn run_line<O: Write + Drop>(
    alloc: Global,
    session: &mut Session<'_, '_>,
    line: &str,
    echoes: bool,
    out: &mut O,
) -> Result<Flow, Failure> {
    let line = line.trim();
    let mut text = echoed(alloc, line, echoes)?;
    let flow = session.command(line, &mut text)?;
    print_lines(text.as_str(), out);
    Ok(flow)
}

/// Runs the commands in a text, which are printed too.
fn run_script<O: Write + Drop>(
    alloc: Global,
    session: &mut Session<'_, '_>,
    script: &str,
    out: &mut O,
) -> Result<Flow, Failure> {
    for line in script.lines() {
        if run_line(alloc, session, line, true, out)? == Flow::Quit {
            return Ok(Flow::Quit);
        }
    }
    Ok(Flow::On)
}

/// Runs the commands of the file that the order names.
fn run_script_file<F: Files, O: Write + Drop>(
    rt: &F,
    alloc: Global,
    session: &mut Session<'_, '_>,
    order: &DebugOrder<'_>,
    out: &mut O,
) -> Result<Flow, Failure> {
    let Some(path) = order.script else {
        return Ok(Flow::On);
    };
    let bytes = contents(rt, alloc, path)?;
    match std::str::from_utf8(bytes.as_slice()) {
        Ok(script) => {
            let flow = run_script(alloc, session, script, out)?;
            Ok(if order.is_batch { Flow::Quit } else { flow })
        }
        Err(_) => Err(Failure::file_since(alloc, path, "the file is not valid UTF-8")),
    }
}

/// Runs the commands that come from standard input, to its end or `quit`.
fn run_input<R: Read + Drop, O: Write + Drop>(
    alloc: Global,
    session: &mut Session<'_, '_>,
    input: R,
    terminals: Terminals,
    out: &mut O,
) -> Result<(), Failure> {
    let Ok(mut reader) = BufReader::new(alloc, input) else {
        return Err(Failure::new(Cause::Memory));
    };
    let mut line = String::new(alloc);
    for _each in 0..u64::MAX {
        if terminals.input {
            print_lines(PROMPT, out);
        }
        line.clear();
        match reader.read_line(&mut line) {
            Ok(0) | Err(_) => {
                if terminals.input {
                    print_lines("\n", out);
                }
                return Ok(());
            }
            Ok(_) => {}
        }
        let flow = run_line(alloc, session, line.as_str(), !terminals.input, out)?;
        if flow == Flow::Quit {
            return Ok(());
        }
    }
    Ok(())
}

/// Runs a session.
fn run_session<F: Files, R: Read + Drop, O: Write + Drop>(
    rt: &F,
    alloc: Global,
    session: &mut Session<'_, '_>,
    order: &DebugOrder<'_>,
    streams: (R, Terminals, &mut O),
) -> Result<(), Failure> {
    let (input, terminals, out) = streams;
    let flow = run_script_file(rt, alloc, session, order, out)?;
    if flow == Flow::Quit {
        return Ok(());
    }
    if terminals.input && order.script.is_none() {
        let mut greeting = String::new(alloc);
        session.greet(&mut greeting)?;
        print_lines(greeting.as_str(), out);
    }
    run_input(alloc, session, input, terminals, out)
}

/// Debugs a program that was built.
fn debug_built<F: Files, R: Read + Drop, O: Write + Drop>(
    rt: &F,
    alloc: Global,
    order: &DebugOrder<'_>,
    program: DebugProgram<'_, '_>,
    streams: (R, Terminals, &mut O),
) -> Result<(), Failure> {
    if let Some(path) = order.out {
        return write_page(rt, alloc, &program, order, path);
    }
    let input = input_of(rt, alloc, order)?;
    let mut session = match Session::new(alloc, program, input, limits_of(order)) {
        Ok(session) => session,
        Err(error) => return Err(failure_of(error)),
    };
    run_session(rt, alloc, &mut session, order, streams)?;
    write_outputs(rt, alloc, order, session.outputs())
}

/// The program that is debugged.
fn program_of<'p, 's>(
    gathered: &'p Gathered<'p, 's>,
    cores: &'p [Core],
    image: &'p Image,
    is_tame: bool,
) -> DebugProgram<'p, 's> {
    let program = gathered.program();
    DebugProgram {
        named: program.named,
        mains: program.mains,
        library: gathered.library,
        cores,
        image,
        is_tame,
    }
}

/// Debugs a program of the files of the first part, which were resolved to the second and built to the third.
fn debug_resolved<'p, 's, F: Files, R: Read + Drop, O: Write + Drop>(
    rt: &F,
    alloc: Global,
    order: &DebugOrder<'_>,
    parts: (&'p Gathered<'p, 's>, &'p [Core], &'p Built),
    streams: (R, Terminals, &mut O),
) -> Result<(), Failure> {
    let (gathered, cores, built) = parts;
    let is_tame = order.out.is_some() && is_tame_built(alloc, gathered, built)?;
    debug_built(
        rt,
        alloc,
        order,
        program_of(gathered, cores, &built.image, is_tame),
        streams,
    )
}

/// Builds the program. If `explains`, explains a refusal.
fn built_of(alloc: Global, gathered: &Gathered<'_, '_>, explains: bool) -> Result<Built, Failure> {
    let program = gathered.program();
    match build(alloc, program.named.sources, program.mains) {
        Ok(built) => Ok(built),
        Err(fault) => Err(refused(alloc, &program, fault, explains)),
    }
}

/// Debugs the program of these files. If the second part is true, explains a refusal.
fn debug_gathered<F: Files, R: Read + Drop, O: Write + Drop>(
    rt: &F,
    alloc: Global,
    order: &DebugOrder<'_>,
    parts: (&Gathered<'_, '_>, bool),
    streams: (R, Terminals, &mut O),
) -> Result<(), Failure> {
    let (gathered, explains) = parts;
    let built = built_of(alloc, gathered, explains)?;
    let program = gathered.program();
    let cores = all_resolved(alloc, program.named.sources, program.mains)?;
    let parts = (&*gathered, cores.as_slice(), &built);
    debug_resolved(rt, alloc, order, parts, streams)
}

/// Runs `debug`. If `explains`, explains a refusal.
pub fn debug<F: Files, R: Read + Drop, O: Write + Drop>(
    rt: &F,
    alloc: Global,
    order: &DebugOrder<'_>,
    explains: bool,
    streams: (R, Terminals, &mut O),
) -> Result<(), Failure> {
    let files = load_sources(rt, alloc, &order.sources)?;
    order.protect_files(rt, alloc, files.as_slice())?;
    let gathered = Gathered::new(alloc, &order.sources, files.as_slice())?;
    debug_gathered(rt, alloc, order, (&gathered, explains), streams)
}
