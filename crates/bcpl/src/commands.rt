//! Runs one command each: calls it, prints its failure and hints, and returns the exit status.

ghost use Rattle.std.specs.Prelude.{◌≤◌};

use crate::failures::{argument_status, piped_status, status};
use crate::hints::{ExpectedFiles, help_on_arguments, with_hints};
use crate::noted_output::NotedOutput;
use bcpl_cli::{
    ArgumentError, AssembleOrder, BuildOrder, CheckOrder, Clean, ConvertOrder, DebugOrder,
    Expected, ExplainOrder, Failure, FormatOrder, GoOrder, InterpretOrder, ListOrder, Order,
    Places, RunOrder, ServeOrder, ShowOrder, TameOrder, check_stack, parse_arguments, places_in,
};
use bcpl_convert::convert_file;
use bcpl_inspect::{Served, check_certificate, format_files, list, serve, show};
use bcpl_project::convert_project;
use bcpl_running::{Ran, assemble, debug, go, interpret_files, print_lost, run, run_input};
use bcpl_sources::{
    Console, RunOutput, RunStreams, Standard, Terminals, compile, explain, explains_at,
    print_lines, print_messages, tame,
};
use std::alloc::Global;
use std::io::{Read, Write};
use std::rt::Files;

/// Whether to print the explanation of a command's failure. One that is half of the answer is printed on a terminal or
/// not, unless `--places never` is given.
fn explains_answer(done: &Result<(), Failure>, places: Places, is_terminal: bool) -> bool {
    let is_answer = match done {
        Ok(()) => false,
        Err(failure) => failure.is_always_explained(),
    };
    explains_at(places, is_terminal || is_answer)
}

/// The exit status of a command whose explanation may be half of the answer. Prints its failure.
fn answer_status<E: Write + Drop>(
    done: Result<(), Failure>,
    places: Places,
    is_terminal: bool,
    err: &mut Clean<E>,
) -> u8
    ensures { result ≤ 3 }
{
    let explains = explains_answer(&done, places, is_terminal);
    status(done, explains, err)
}

/// The exit status of a command on files. Prints its failure, and hints about the files.
fn finish<F: Files, R: Read + Drop, O: Write + Drop, E: Write + Drop>(
    rt: &F,
    alloc: Global,
    done: Result<(), Failure>,
    files: ExpectedFiles<'_>,
    console: &mut Console<R, O, E>,
) -> u8
    ensures { result ≤ 3 }
{
    status(
        with_hints(rt, alloc, done, files),
        files.explains,
        &mut console.err,
    )
}

/// What is printed if the program, run without arguments, waits for a terminal.
const WAITING: &str =
    "bcpl: waiting for INTCODE text on standard input, to the end of input (Ctrl-D); what you may have meant:
  bcpl go hello.bcpl                       builds a program and runs it
  bcpl interpret hello.bcpl                runs it and stops at the first cell that it reads before setting it
  bcpl build --out hello.int hello.bcpl    compiles it to INTCODE text
  bcpl < hello.int                         runs INTCODE text; in a clone, type ./bcpl instead of bcpl
  bcpl --help                              lists the commands
";

/// Runs the text on standard input.
fn run_input_command<F: Files, R: Read + Drop, O: Write + Drop, E: Write + Drop>(
    rt: &F,
    alloc: Global,
    console: Console<R, O, E>,
) -> u8
    ensures { result ≤ 3 }
{
    let waits = console.terminals.input && console.terminals.err;
    let is_terminal = console.terminals.out;
    let explains = console.explains;
    let (input, mut out, mut err) = console.split();
    if waits {
        print_lines(WAITING, &mut err);
    }
    let streams = RunStreams {
        input,
        out: &mut out,
        is_terminal,
        explains,
    };
    let done = run_input(rt, alloc, streams);
    out.end_line(done.is_err(), &mut err);
    status(done, explains, &mut err)
}

/// Whether something is printed about a run.
fn has_message(ran: &Result<Ran, Failure>) -> bool {
    match ran {
        Ok(ran) => ran.done.is_err() || !ran.used.is_empty() || !ran.lost.is_empty(),
        Err(_) => true,
    }
}

/// Reports what a run lost and how much of the store it used, if that was recorded, and returns the run's result.
fn with_reports<E: Write + Drop>(
    alloc: Global,
    ran: Result<Ran, Failure>,
    err: &mut Clean<E>,
) -> Result<(), Failure> {
    let Ran { done, used, lost } = ran?;
    print_lost(alloc, lost.as_str(), err);
    print_lines(used.as_str(), err);
    done
}

/// The result of a run, with hints on the files of its command. Prints the reports on the run, after its last line.
fn reported<F: Files, O: Write + Drop, E: Write + Drop>(
    rt: &F,
    alloc: Global,
    ran: Result<Ran, Failure>,
    files: ExpectedFiles<'_>,
    streams: (&RunOutput<O>, &mut Clean<E>),
) -> Result<(), Failure> {
    let (out, err) = streams;
    out.end_line(has_message(&ran), err);
    let done = with_reports(alloc, ran, err);
    with_hints(rt, alloc, done, files)
}

/// Runs `run`.
fn run_command<F: Files, R: Read + Drop, O: Write + Drop, E: Write + Drop>(
    rt: &F,
    alloc: Global,
    order: &RunOrder<'_>,
    console: Console<R, O, E>,
) -> u8
    ensures { result ≤ 3 }
{
    let is_terminal = console.terminals.out;
    let explains = console.explains;
    let files = ExpectedFiles::new(Expected::Text, order.texts.as_slice(), explains);
    let (input, mut out, mut err) = console.split();
    let streams = RunStreams {
        input,
        out: &mut out,
        is_terminal,
        explains,
    };
    let ran = run(rt, alloc, order, streams);
    let done = reported(rt, alloc, ran, files, (&out, &mut err));
    status(done, files.explains, &mut err)
}

/// Runs `go`.
fn go_command<F: Files, R: Read + Drop, O: Write + Drop, E: Write + Drop>(
    rt: &F,
    alloc: Global,
    order: &GoOrder<'_>,
    console: Console<R, O, E>,
) -> u8
    ensures { result ≤ 3 }
{
    let is_terminal = console.terminals.out;
    let explains = console.explains;
    let sources = order.program.sources.files.as_slice();
    let files = ExpectedFiles::new(Expected::Source, sources, explains);
    let (input, out, mut err) = console.split();
    let mut out = NotedOutput::new(out);
    let streams = RunStreams {
        input,
        out: &mut out,
        is_terminal,
        explains,
    };
    let ran = go(rt, alloc, order, streams, &mut err);
    let done = reported(rt, alloc, ran, files, (out.inner(), &mut err));
    let explains = explains_answer(&done, order.program.places, err.is_terminal());
    piped_status(done, explains, out.has_reader(), &mut err)
}

/// Runs `interpret`.
fn interpret_command<F: Files, R: Read + Drop, O: Write + Drop, E: Write + Drop>(
    rt: &F,
    alloc: Global,
    order: &InterpretOrder<'_>,
    console: Console<R, O, E>,
) -> u8
    ensures { result ≤ 3 }
{
    let is_terminal = console.terminals.out;
    let explains = console.explains;
    let sources = order.program.sources.files.as_slice();
    let files = ExpectedFiles::new(Expected::Source, sources, explains);
    let (input, out, mut err) = console.split();
    let mut out = NotedOutput::new(out);
    let streams = RunStreams {
        input,
        out: &mut out,
        is_terminal,
        explains,
    };
    let ran = interpret_files(rt, alloc, order, streams, &mut err);
    let done = reported(rt, alloc, ran, files, (out.inner(), &mut err));
    let explains = explains_answer(&done, order.program.places, err.is_terminal());
    piped_status(done, explains, out.has_reader(), &mut err)
}

/// Runs `debug`. The page is written to a file only.
fn debug_command<F: Files, R: Read + Drop, O: Write + Drop, E: Write + Drop>(
    rt: &F,
    alloc: Global,
    order: &DebugOrder<'_>,
    console: Console<R, O, E>,
) -> u8
    ensures { result ≤ 3 }
{
    let sources = order.sources.files.as_slice();
    let files = ExpectedFiles::new(Expected::Source, sources, console.explains);
    let terminals = console.terminals;
    let (input, out, mut err) = console.streams();
    let mut out = NotedOutput::new(Clean::new(out, terminals.out));
    let done = debug(
        rt,
        alloc,
        order,
        files.explains,
        (input, terminals, &mut out),
    );
    let done = with_hints(rt, alloc, out.checked(alloc, done), files);
    status(done, files.explains, &mut err)
}

/// What is printed if a language server is started at a terminal.
const SERVING: &str =
    "bcpl: lsp reads messages of the Language Server Protocol: an editor starts it, as docs/editors.md says\n";

/// Runs `lsp`.
fn serve_command<F: Files, R: Read + Drop, O: Write + Drop, E: Write + Drop>(
    rt: &F,
    alloc: Global,
    order: &ServeOrder<'_>,
    console: Console<R, O, E>,
) -> u8
    ensures { result ≤ 3 }
{
    let (terminals, explains) = (console.terminals, console.explains);
    let (input, out, mut err) = console.streams();
    if terminals.input && terminals.err {
        print_lines(SERVING, &mut err);
    }
    let mut out = NotedOutput::new(out);
    match serve(rt, alloc, order, input, &mut out) {
        Ok(Served::Properly) => 0,
        Ok(Served::CutOff) => match out.checked(alloc, Ok(())) {
            Ok(()) => 1,
            failed => status(failed, explains, &mut err),
        },
        Err(failure) => status(Err(failure), explains, &mut err),
    }
}

/// Runs `asm`.
fn assemble_command<F: Files, R: Read + Drop, O: Write + Drop, E: Write + Drop>(
    rt: &F,
    alloc: Global,
    order: &AssembleOrder<'_>,
    console: &mut Console<R, O, E>,
) -> u8
    ensures { result ≤ 3 }
{
    let files = ExpectedFiles::new(Expected::Text, order.texts.as_slice(), console.explains);
    let done = assemble(rt, alloc, order, files.explains, &mut console.out);
    finish(rt, alloc, done, files, console)
}

/// Runs `build` and prints its warnings.
fn build_command<F: Files, R: Read + Drop, O: Write + Drop, E: Write + Drop>(
    rt: &F,
    alloc: Global,
    order: &BuildOrder<'_>,
    console: &mut Console<R, O, E>,
) -> u8
    ensures { result ≤ 3 }
{
    let sources = order.sources.files.as_slice();
    let files = ExpectedFiles::new(Expected::Source, sources, console.explains);
    let done = compile(rt, alloc, order, console);
    match with_hints(rt, alloc, done, files) {
        Ok(warnings) => {
            print_messages(warnings.as_str(), &mut console.err);
            0
        }
        Err(failure) => {
            let is_terminal = console.terminals.err;
            answer_status(Err(failure), order.places, is_terminal, &mut console.err)
        }
    }
}

/// Runs `convert`.
fn convert_command<F: Files, R: Read + Drop, O: Write + Drop, E: Write + Drop>(
    rt: &F,
    alloc: Global,
    order: &ConvertOrder<'_>,
    console: &mut Console<R, O, E>,
) -> u8
    ensures { result ≤ 3 }
{
    let is_terminal = console.terminals.out;
    let mut out = NotedOutput::new(Clean::new(&mut console.out, is_terminal));
    let done = if order.is_project {
        convert_project(rt, alloc, order, &mut out)
    } else {
        convert_file(rt, alloc, order, (&mut out, is_terminal))
    };
    let has_reader = out.has_reader();
    // Why a project is refused is never plain from the first line.
    let is_terminal = console.terminals.err || order.is_project;
    let explains = explains_answer(&done, order.places, is_terminal);
    piped_status(done, explains, has_reader, &mut console.err)
}

/// Runs `format`.
fn format_command<F: Files, R: Read + Drop, O: Write + Drop, E: Write + Drop>(
    rt: &F,
    alloc: Global,
    order: &FormatOrder<'_>,
    console: &mut Console<R, O, E>,
) -> u8
    ensures { result ≤ 3 }
{
    let sources = order.files.as_slice();
    let files = ExpectedFiles::new(Expected::Source, sources, console.explains);
    let mut out = NotedOutput::new(Clean::new(&mut console.out, console.terminals.out));
    let done = format_files(rt, alloc, order, files.explains, &mut out);
    let has_reader = out.has_reader();
    let done = with_hints(rt, alloc, done, files);
    piped_status(done, files.explains, has_reader, &mut console.err)
}

/// Runs `show`.
fn show_command<F: Files, R: Read + Drop, O: Write + Drop, E: Write + Drop>(
    rt: &F,
    alloc: Global,
    order: &ShowOrder<'_>,
    console: &mut Console<R, O, E>,
) -> u8
    ensures { result ≤ 3 }
{
    let sources = order.sources.files.as_slice();
    let files = ExpectedFiles::new(Expected::Source, sources, console.explains);
    let mut out = Clean::new(&mut console.out, console.terminals.out);
    let done = show(rt, alloc, order, files.explains, &mut out);
    finish(rt, alloc, done, files, console)
}

/// Runs `list`.
fn list_command<F: Files, R: Read + Drop, O: Write + Drop, E: Write + Drop>(
    rt: &F,
    alloc: Global,
    order: &ListOrder<'_>,
    console: &mut Console<R, O, E>,
) -> u8
    ensures { result ≤ 3 }
{
    let files = ExpectedFiles::new(Expected::Text, order.texts.as_slice(), console.explains);
    let mut out = Clean::new(&mut console.out, console.terminals.out);
    let done = list(rt, alloc, order, files.explains, &mut out);
    finish(rt, alloc, done, files, console)
}

/// What is printed if the page of `explain` would go to a terminal.
const PAGE: &str =
    "bcpl: the page is for a browser: name a file with --out, as in `bcpl explain --out hello.html hello.bcpl`\n";

/// Runs `explain`. The page is not written to a terminal.
fn explain_command<F: Files, R: Read + Drop, O: Write + Drop, E: Write + Drop>(
    rt: &F,
    alloc: Global,
    order: &ExplainOrder<'_>,
    console: &mut Console<R, O, E>,
) -> u8
    ensures { result ≤ 3 }
{
    if order.out.is_none() && console.terminals.out {
        print_lines(PAGE, &mut console.err);
        return 3;
    }
    let sources = order.sources.files.as_slice();
    let files = ExpectedFiles::new(Expected::Source, sources, console.explains);
    let done = explain(rt, alloc, order, files.explains, &mut console.out);
    finish(rt, alloc, done, files, console)
}

/// Runs `check`.
fn check_command<F: Files, R: Read + Drop, O: Write + Drop, E: Write + Drop>(
    rt: &F,
    alloc: Global,
    order: &CheckOrder<'_>,
    console: &mut Console<R, O, E>,
) -> u8
    ensures { result ≤ 3 }
{
    let certificate = [order.certificate];
    let texts = ExpectedFiles::new(Expected::Text, order.texts.as_slice(), console.explains);
    let files = ExpectedFiles::new(Expected::Certificate, &certificate, console.explains);
    let done = check_certificate(rt, alloc, order, files.explains, &mut console.out);
    let done = with_hints(rt, alloc, done, texts);
    finish(rt, alloc, done, files, console)
}

/// Runs `tame`.
fn tame_command<F: Files, R: Read + Drop, O: Write + Drop, E: Write + Drop>(
    rt: &F,
    alloc: Global,
    order: &TameOrder<'_>,
    console: &mut Console<R, O, E>,
) -> u8
    ensures { result ≤ 3 }
{
    let sources = order.sources.files.as_slice();
    let files = ExpectedFiles::new(Expected::Source, sources, console.explains);
    let done = tame(rt, alloc, order, files.explains, &mut console.out);
    let done = with_hints(rt, alloc, done, files);
    let is_terminal = console.terminals.err;
    answer_status(done, order.places, is_terminal, &mut console.err)
}

/// Runs the command of this order.
fn follow<F: Files, R: Read + Drop, O: Write + Drop, E: Write + Drop>(
    rt: &F,
    alloc: Global,
    order: &Order<'_>,
    mut console: Console<R, O, E>,
) -> u8
    ensures { result ≤ 3 }
{
    match order {
        Order::RunInput(_) => run_input_command(rt, alloc, console),
        Order::Run(order) => run_command(rt, alloc, order, console),
        Order::Go(order) => go_command(rt, alloc, order, console),
        Order::Interpret(order) => interpret_command(rt, alloc, order, console),
        Order::Debug(order) => debug_command(rt, alloc, order, console),
        Order::Tame(order) => tame_command(rt, alloc, order, &mut console),
        Order::Serve(order) => serve_command(rt, alloc, order, console),
        Order::Assemble(order) => assemble_command(rt, alloc, order, &mut console),
        Order::Build(order) => build_command(rt, alloc, order, &mut console),
        Order::Convert(order) => convert_command(rt, alloc, order, &mut console),
        Order::Format(order) => format_command(rt, alloc, order, &mut console),
        Order::Show(order) => show_command(rt, alloc, order, &mut console),
        Order::List(order) => list_command(rt, alloc, order, &mut console),
        Order::Explain(order) => explain_command(rt, alloc, order, &mut console),
        Order::Check(order) => check_command(rt, alloc, order, &mut console),
    }
}

/// Runs the command of this order, unless the stack is too small or standard input, if it is among the files, can't be
/// read.
fn follow_if_possible<F: Files, R: Read + Drop, O: Write + Drop, E: Write + Drop>(
    rt: &F,
    alloc: Global,
    mut order: Order<'_>,
    mut console: Console<R, O, E>,
) -> u8
    ensures { result ≤ 3 }
{
    let ready = match check_stack(rt, alloc, order.stack()) {
        Ok(()) => order.read_standard_input(alloc, &mut console.input),
        Err(failure) => Err(failure),
    };
    match ready {
        Ok(()) => follow(rt, alloc, &order, console),
        Err(failure) => status(Err(failure), console.explains, &mut console.err),
    }
}

/// Reports an invalid command line, with a guess at what was meant, and returns the exit status.
fn refuse<F: Files, R: Read + Drop, O: Write + Drop, E: Write + Drop>(
    rt: &F,
    alloc: Global,
    words: &[&str],
    error: &ArgumentError<'_>,
    mut console: Console<R, O, E>,
) -> u8
    ensures { result ≤ 3 }
{
    let status = argument_status(alloc, error, &mut console.out, &mut console.err);
    if console.explains
        && let Ok(help) = help_on_arguments(rt, alloc, words, error)
    {
        print_messages(help.as_str(), &mut console.err);
    }
    status
}

/// Runs the command line `words`, without the program's name, and returns the exit status: 0 on success, 1 if
/// something was refused, 2 if a run ended in another way than by finishing, 3 for invalid arguments. Failures are
/// printed on standard error, with explanations as `--places` or `BCPL_PLACES` says, or as JSON objects.
pub fn command_on<'a, F: Files, R: Read + Drop, O: Write + Drop, E: Write + Drop>(
    rt: &F,
    alloc: Global,
    words: &'a [&'a str],
    standard: Standard<'a, R, O, E>,
) -> u8
    ensures { result ≤ 3 }
{
    let setting = standard.setting;
    match parse_arguments(alloc, words, setting) {
        Ok(order) => {
            let console = Console::new(alloc, standard, order.places());
            follow_if_possible(rt, alloc, order, console)
        }
        Err(error) => {
            let places = places_in(words, setting);
            refuse(
                rt,
                alloc,
                words,
                &error,
                Console::new(alloc, standard, places),
            )
        }
    }
}

/// Runs a command line like `command_on`, with no stream being a terminal and `BCPL_PLACES` not set.
pub fn command<'a, F: Files, R: Read + Drop, O: Write + Drop, E: Write + Drop>(
    rt: &F,
    alloc: Global,
    words: &'a [&'a str],
    input: R,
    out: O,
    err: E,
) -> u8
    ensures { result ≤ 3 }
{
    let terminals = Terminals {
        input: false,
        out: false,
        err: false,
        colours: false,
    };
    let standard = Standard {
        input,
        out,
        err,
        terminals,
        setting: None,
    };
    command_on(rt, alloc, words, standard)
}
