//! The command `run`, and the streams of a run.

ghost use Rattle.std.specs.Prelude.{◌≡◌, ◌≢◌, Err, IfOk, IfErr, None};
ghost use Rattle.bc_machine_defs.specs.declared.state.End.TheVariants.{Finished, Device};
ghost use Rattle.bcpl_cli.specs.Statuses.{unexplained};
ghost use Rattle.bcpl_cli.specs.declared.failure.Cause.TheVariants as causes;

use crate::watched_run::{RecordFiles, Records, is_watched, used_by, window_of};
use bc_machine::{Machine, Named, Streams, StreamsError};
use bc_machine_defs::End;
use bc_word::{Memory, Word};
use bcpl_cli::{AtomicFile, Binding, Cause, Failure, RunOrder, WatchOrder, is_folder};
use bcpl_reports::{Stop, Text, ended_lines, stream_lines};
use bcpl_sources::{
    LinkedProgram, Remark, RunStreams, Sink, Source, TextFile, add_unless_failed, linked_program,
    named_routines, program_of, read_texts, routines_at, standard_text, texts_of, unfinished,
    with_explanation,
};
use bcpl_streams::{ClosableStreams, Folder, FoundStreams, NotedStreams};
use bcpl_trace::{Nowhere, ProfiledProgram, Watch, profile, run_image, run_watched};
use std::alloc::Global;
use std::fs;
use std::io::{BufReader, BufWriter, Read, Write};
use std::rt::Files;

/// The largest number of instructions of a run without arguments.
const DEFAULT_STEPS: u64 = 1_000_000;

/// A device with the name of its stream.
fn named<T: Drop>(
    alloc: Global,
    name: &str,
    device: Result<T, Failure>,
) -> Result<Named<T>, Failure> {
    let device = device?;
    let name = Vec::from_slice(alloc, name.as_bytes())?;
    Ok(Named { name, device })
}

/// An input of a run.
type Input<R, F> = Named<BufReader<Source<R, F>>>;

/// An output of a run.
type Output<O, F> = Named<BufWriter<Sink<O, F>>>;

/// Opens an input from a file.
fn file_input<F: Files, R: Read + Drop>(
    rt: &F,
    alloc: Global,
    binding: &Binding<'_>,
) -> Result<Input<R, F::File>, Failure> {
    match fs::open(rt, binding.path) {
        Ok(file) => {
            let source = Source::File(file);
            named(alloc, binding.name, source.buffered(alloc, binding.path))
        }
        Err(error) => Err(Failure::io(alloc, &error, binding.path)),
    }
}

/// The inputs of a run: `first` as SYSIN, and the files.
fn inputs<F: Files, R: Read + Drop>(
    rt: &F,
    alloc: Global,
    first: Source<R, F::File>,
    bindings: &[Binding<'_>],
) -> Result<Vec<Input<R, F::File>>, Failure> {
    let mut inputs = Vec::new(alloc);
    add_unless_failed(
        &mut inputs,
        named(alloc, "SYSIN", first.buffered(alloc, "SYSIN")),
    )?;
    for binding in bindings {
        add_unless_failed(&mut inputs, file_input(rt, alloc, binding))?;
    }
    Ok(inputs)
}

/// The stream SYSPRINT. On a terminal it is unbuffered, so that a prompt appears before the program waits for input.
fn standard_output<O: Write + Drop, F: Write + Drop>(
    alloc: Global,
    out: O,
    is_terminal: bool,
) -> Result<Output<O, F>, Failure> {
    let sink = Sink::Standard(out);
    let device = if is_terminal {
        sink.direct(alloc, "SYSPRINT")
    } else {
        sink.buffered(alloc, "SYSPRINT")
    };
    named(alloc, "SYSPRINT", device)
}

/// Opens an output to a file.
fn file_output<F: Files, O: Write + Drop>(
    rt: &F,
    alloc: Global,
    binding: &Binding<'_>,
) -> Result<Output<O, F::File>, Failure> {
    match fs::create(rt, binding.path) {
        Ok(file) => {
            let sink = Sink::File(file);
            named(alloc, binding.name, sink.buffered(alloc, binding.path))
        }
        Err(error) => Err(Failure::io(alloc, &error, binding.path)),
    }
}

/// The outputs of a run: SYSPRINT and the files.
fn outputs<F: Files, O: Write + Drop>(
    rt: &F,
    alloc: Global,
    out: O,
    is_terminal: bool,
    bindings: &[Binding<'_>],
) -> Result<Vec<Output<O, F::File>>, Failure> {
    let mut outputs = Vec::new(alloc);
    add_unless_failed(&mut outputs, standard_output(alloc, out, is_terminal))?;
    for binding in bindings {
        add_unless_failed(&mut outputs, file_output(rt, alloc, binding))?;
    }
    Ok(outputs)
}

/// The result of a run after its streams are closed. If it finished but an output can't be flushed, that is a device
/// failure.
pub fn closed<S: ClosableStreams>(streams: &mut S, end: End) -> Result<(), Failure>
    ensures finished { IfOk result (λ _. end ≡ Finished) }
    ensures ended { end ≢ Finished → result ≡ Err (unexplained (causes.Ended end)) }
    ensures device { IfErr result (λ f. end ≡ Finished → f ≡ unexplained (causes.Ended Device)) }
{
    let closed = streams.close();
    match end {
        End::Finished if closed.is_ok() => Ok(()),
        End::Finished => Err(Failure::new(Cause::Ended(End::Device))),
        end => Err(Failure::new(Cause::Ended(end))),
    }
}

/// Where and how a machine stopped.
fn stop_of(machine: &Machine, end: End, steps: u64) -> Stop {
    let address = machine.address();
    let following = Word::new(address.get().wrapping_add(1));
    Stop {
        end,
        address: address.get(),
        words: (machine.word(address).get(), machine.word(following).get()),
        steps,
    }
}

/// What to run: the texts, the program linked from them, the notes on its routines, the limit on instructions, and
/// whether a failure is explained.
#[derive(Drop)]
struct RunSetup<'t, 'p> {
    texts: &'t [Text<'t>],
    program: &'p LinkedProgram,
    routines: &'p [Remark],
    steps: u64,
    explains: bool,
}

/// Explains why a run stopped.
fn explain_stop(alloc: Global, setup: &RunSetup<'_, '_>, stop: &Stop, failure: Failure) -> Failure {
    let lines = ended_lines(
        alloc,
        setup.texts,
        setup.program.segments.as_slice(),
        &setup.program.image,
        stop,
    );
    with_explanation(alloc, failure, lines)
}

/// Explains the end of a run, or the failure of its outputs after it, if explanations are printed.
fn explain_end(
    alloc: Global,
    setup: &RunSetup<'_, '_>,
    machine: &Machine,
    end: &End,
    failure: Failure,
) -> Failure {
    if !setup.explains {
        failure
    } else if *end == End::Finished {
        unfinished(alloc, failure)
    } else {
        explain_stop(alloc, setup, &stop_of(machine, *end, setup.steps), failure)
    }
}

/// The result of a run, whose streams it closes.
fn result_of<S: ClosableStreams>(
    alloc: Global,
    setup: &RunSetup<'_, '_>,
    machine: &Machine,
    streams: &mut S,
    end: &End,
) -> Result<(), Failure> {
    match closed(streams, *end) {
        Ok(()) => Ok(()),
        Err(failure) => Err(explain_end(alloc, setup, machine, end, failure)),
    }
}

/// Runs a program over these streams, and closes them.
fn run_linked<S: Streams + ClosableStreams>(
    alloc: Global,
    setup: &RunSetup<'_, '_>,
    streams: &mut S,
) -> Result<(), Failure> {
    let (machine, end) = run_image(alloc, &setup.program.image, streams, setup.steps)?;
    result_of(alloc, setup, &machine, streams, &end)
}

/// A run that took place: its result and, as lines, how much of the store it used, if that is reported, and what it lost.
#[derive(Drop)]
pub struct Ran {
    pub done: Result<(), Failure>,
    pub used: String,
    pub lost: String,
}

/// What a run over these streams lost, as lines; empty if warnings aren't printed, or if memory runs out.
pub fn lost_in<S: ClosableStreams>(alloc: Global, streams: &S, warns: bool) -> String {
    if !warns {
        return String::new(alloc);
    }
    match streams.lost_lines(alloc) {
        Ok(lines) => lines,
        Err(_) => String::new(alloc),
    }
}

/// Runs a machine from its start and records what it does. The trace, if any, goes to its file.
fn run_recorded<S: Streams, T: Write + Drop>(
    machine: &mut Machine,
    watch: &mut Watch,
    streams: &mut S,
    steps: u64,
    trace: &mut Option<AtomicFile<T>>,
) -> End
    requires { machine.old.ended ≡ None }
{
    match trace {
        Some(trace) => run_watched(machine, streams, steps, watch, trace.out()),
        None => run_watched(machine, streams, steps, watch, &mut Nowhere),
    }
}

/// A recorded run.
#[derive(Clone, Copy)]
struct RecordedRun<'n> {
    watch: &'n Watch,
    machine: &'n Machine,
    program: &'n LinkedProgram,
    routines: &'n [Remark],
}

/// The profile of a recorded run. `Memory` if an allocation fails.
fn written_profile(alloc: Global, noted: RecordedRun<'_>) -> Result<String, Memory> {
    let routines = routines_at(alloc, noted.program, noted.routines)?;
    let program = ProfiledProgram {
        image: &noted.program.image,
        routines: routines.as_slice(),
    };
    profile(alloc, noted.watch, noted.machine, program)
}

/// The text of the profile, if one is ordered.
fn profile_of(
    alloc: Global,
    order: &WatchOrder<'_>,
    noted: RecordedRun<'_>,
) -> Result<String, Memory> {
    match order.profile {
        Some(_) => written_profile(alloc, noted),
        None => Ok(String::new(alloc)),
    }
}

/// Completes the trace and the profile. The inner result is a failure of a file; the outer one is `Memory` if an
/// allocation fails.
fn finish_records<W: Write + Drop, F: Files<File = W>>(
    rt: &F,
    alloc: Global,
    order: &WatchOrder<'_>,
    notes: RecordFiles<W>,
    noted: RecordedRun<'_>,
) -> Result<Result<(), Failure>, Memory> {
    match profile_of(alloc, order, noted) {
        Ok(text) => {
            let last = Records {
                is_whole: noted.watch.is_whole(),
                profile: text.as_str(),
            };
            Ok(notes.finish(rt, alloc, order, last))
        }
        Err(memory) => Err(memory),
    }
}

/// The failure of the run or, if there is none, that of its trace and profile. `Memory` comes first.
fn first_failure(
    done: Result<(), Failure>,
    ended: Result<Result<(), Failure>, Memory>,
) -> Result<(), Failure> {
    match ended {
        Ok(ended) => match done {
            Ok(()) => ended,
            Err(failure) => Err(failure),
        },
        Err(_) => Err(Failure::new(Cause::Memory)),
    }
}

/// Like `run_linked`, and records what the run does. Fails if nothing was run.
fn watch_linked<F: Files, S: Streams + ClosableStreams>(
    rt: &F,
    alloc: Global,
    setup: &RunSetup<'_, '_>,
    order: &WatchOrder<'_>,
    streams: &mut S,
) -> Result<Ran, Failure> {
    let image = &setup.program.image;
    let mut watch = Watch::new(alloc, window_of(order))?;
    let mut machine = Machine::new(alloc, image)?;
    let mut notes: RecordFiles<F::File> = RecordFiles::begin(rt, alloc, order)?;
    let end = run_recorded(
        &mut machine,
        &mut watch,
        streams,
        setup.steps,
        &mut notes.trace,
    );
    let done = result_of(alloc, setup, &machine, streams, &end);
    let ran = RecordedRun {
        watch: &watch,
        machine: &machine,
        program: setup.program,
        routines: setup.routines,
    };
    Ok(Ran {
        done: first_failure(done, finish_records(rt, alloc, order, notes, ran)),
        used: used_by(alloc, order, &watch, image.stack_base.get()),
        lost: lost_in(alloc, streams, setup.explains),
    })
}

/// The streams of a run over devices.
pub type DeviceStreams<R, O, F> = NotedStreams<BufReader<Source<R, F>>, BufWriter<Sink<O, F>>>;

/// The streams of a run over this input and output and these files.
pub fn streams_of<F: Files, R: Read + Drop, O: Write + Drop>(
    rt: &F,
    alloc: Global,
    streams: RunStreams<Source<R, F::File>, O>,
    inputs_of: &[Binding<'_>],
    outputs_of: &[Binding<'_>],
) -> Result<DeviceStreams<R, O, F::File>, Failure> {
    let is_terminal = streams.is_terminal;
    let (input, out) = streams.split();
    let inputs = inputs(rt, alloc, input, inputs_of)?;
    let outputs = outputs(rt, alloc, out, is_terminal, outputs_of)?;
    match NotedStreams::new(alloc, inputs, outputs) {
        Ok(streams) => Ok(streams),
        Err(fault) => Err(Failure::from(fault)),
    }
}

/// Runs a program with an empty input.
fn run_alone<F: Files, O: Write + Drop>(
    rt: &F,
    alloc: Global,
    setup: &RunSetup<'_, '_>,
    out: O,
    is_terminal: bool,
) -> Result<(), Failure> {
    let input: Source<F::File, F::File> = Source::Empty;
    let streams = RunStreams {
        input,
        out,
        is_terminal,
        explains: setup.explains,
    };
    let mut streams = streams_of(rt, alloc, streams, &[], &[])?;
    run_linked(alloc, setup, &mut streams)
}

/// Runs the text on standard input, with an empty input.
pub fn run_input<F: Files, R: Read + Drop, O: Write + Drop>(
    rt: &F,
    alloc: Global,
    streams: RunStreams<R, O>,
) -> Result<(), Failure> {
    let (is_terminal, explains) = (streams.is_terminal, streams.explains);
    let (input, out) = streams.split();
    let bytes = standard_text(alloc, input)?;
    let texts = [Text {
        path: "SYSIN",
        bytes: bytes.as_slice(),
    }];
    let program = linked_program(alloc, &texts, explains)?;
    let setup = RunSetup {
        texts: &texts,
        program: &program,
        routines: &[],
        steps: DEFAULT_STEPS,
        explains,
    };
    run_alone(rt, alloc, &setup, out, is_terminal)
}

/// The names of streams: this one, then those of the arguments.
fn names_of<'a>(
    alloc: Global,
    first: &'a str,
    bindings: &[Binding<'a>],
) -> Result<Vec<&'a str>, Memory> {
    let mut names = Vec::new(alloc);
    names.push(first)?;
    for binding in bindings {
        names.push(binding.name)?;
    }
    Ok(names)
}

/// The explanation of streams with invalid names.
fn lines_of_streams(alloc: Global, order: &RunOrder<'_>) -> Result<String, Memory> {
    let inputs = names_of(alloc, "SYSIN", order.inputs.as_slice())?;
    let outputs = names_of(alloc, "SYSPRINT", order.outputs.as_slice())?;
    stream_lines(alloc, inputs.as_slice(), outputs.as_slice())
}

/// Explains a failure of the streams if it is about their names.
fn explain_streams(
    alloc: Global,
    order: &RunOrder<'_>,
    failure: Failure,
    explains: bool,
) -> Failure {
    let is_name = match &failure.cause {
        Cause::Streams(fault) => !matches!(fault, StreamsError::Memory),
        _ => false,
    };
    if explains && is_name {
        with_explanation(alloc, failure, lines_of_streams(alloc, order))
    } else {
        failure
    }
}

/// The texts of a run, the program linked from them, and the notes on its routines.
struct LoadedTexts {
    files: Vec<TextFile>,
    program: LinkedProgram,
    routines: Vec<Remark>,
}

impl Drop for LoadedTexts {
    fn drop(self) {
        let LoadedTexts {
            files: _,
            program: _,
            routines: _,
        } = self;
    }
}

/// Reads and links the texts of a run, and names its routines if their sources are given. If `explains`, explains a
/// refusal.
fn loaded<F: Files>(
    rt: &F,
    alloc: Global,
    order: &RunOrder<'_>,
    explains: bool,
) -> Result<LoadedTexts, Failure> {
    let files = read_texts(rt, alloc, order.texts.as_slice())?;
    let program = program_of(alloc, files.as_slice(), explains)?;
    let routines = named_routines(rt, alloc, &order.sources, &program, explains)?;
    Ok(LoadedTexts {
        files,
        program,
        routines,
    })
}

/// Runs `run`. Fails if nothing was run.
pub fn run<F: Files, R: Read + Drop, O: Write + Drop>(
    rt: &F,
    alloc: Global,
    order: &RunOrder<'_>,
    streams: RunStreams<R, O>,
) -> Result<Ran, Failure> {
    let explains = streams.explains;
    order.protect_files(rt, alloc)?;
    let loaded = match loaded(rt, alloc, order, explains) {
        Ok(loaded) => loaded,
        Err(failure) => return Err(failure),
    };
    match texts_of(alloc, loaded.files.as_slice()) {
        Ok(texts) => {
            let setup = RunSetup {
                texts: texts.as_slice(),
                program: &loaded.program,
                routines: loaded.routines.as_slice(),
                steps: order.steps,
                explains,
            };
            run_program(rt, alloc, order, &setup, streams)
        }
        Err(_) => Err(Failure::new(Cause::Memory)),
    }
}

/// Fails if the folder of `--files` isn't there.
fn check_folder<F: Files>(rt: &F, alloc: Global, order: &RunOrder<'_>) -> Result<(), Failure> {
    match order.folder {
        Some(folder) if !is_folder(rt, folder) => {
            let reason = "--files names this folder, but there is no such folder";
            Err(Failure::file_since(alloc, folder, reason))
        }
        _ => Ok(()),
    }
}

/// Opens the streams of a run.
fn run_streams<F: Files, R: Read + Drop, O: Write + Drop>(
    rt: &F,
    alloc: Global,
    order: &RunOrder<'_>,
    streams: RunStreams<R, O>,
) -> Result<DeviceStreams<R, O, F::File>, Failure> {
    check_folder(rt, alloc, order)?;
    let (inputs, outputs) = (order.inputs.as_slice(), order.outputs.as_slice());
    streams_of(rt, alloc, streams.on_source(), inputs, outputs)
}

/// Runs a linked program over these streams. Fails if nothing was run.
fn run_over<F: Files, S: Streams + ClosableStreams>(
    rt: &F,
    alloc: Global,
    order: &RunOrder<'_>,
    setup: &RunSetup<'_, '_>,
    streams: &mut S,
) -> Result<Ran, Failure> {
    if is_watched(&order.watch) {
        return watch_linked(rt, alloc, setup, &order.watch, streams);
    }
    let done = run_linked(alloc, setup, streams);
    Ok(Ran {
        done,
        used: String::new(alloc),
        lost: lost_in(alloc, streams, setup.explains),
    })
}

/// Runs a linked program over these streams and the files of the folder that is ordered, if any. Fails if nothing was run.
fn run_on<F: Files, S: Streams + ClosableStreams + Drop>(
    rt: &F,
    alloc: Global,
    order: &RunOrder<'_>,
    setup: &RunSetup<'_, '_>,
    streams: S,
) -> Result<Ran, Failure> {
    let mut streams = streams;
    let Some(path) = order.folder else {
        return run_over(rt, alloc, order, setup, &mut streams);
    };
    let inputs = order.inputs.len().saturating_add(1);
    let outputs = order.outputs.len().saturating_add(1);
    let folder = Folder::new(rt, alloc, path);
    let mut streams = FoundStreams::new(streams, (inputs, outputs), folder);
    run_over(rt, alloc, order, setup, &mut streams)
}

/// Runs a linked program.
fn run_program<F: Files, R: Read + Drop, O: Write + Drop>(
    rt: &F,
    alloc: Global,
    order: &RunOrder<'_>,
    setup: &RunSetup<'_, '_>,
    streams: RunStreams<R, O>,
) -> Result<Ran, Failure> {
    match run_streams(rt, alloc, order, streams) {
        Ok(streams) => run_on(rt, alloc, order, setup, streams),
        Err(failure) => Err(explain_streams(alloc, order, failure, setup.explains)),
    }
}
