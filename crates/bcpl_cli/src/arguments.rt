//! The orders that a command line can give, and `parse_arguments`, which reads one.

ghost use Rattle.std.specs.Prelude.{◌≡◌};
ghost use Rattle.bcpl_cli.specs.declared.arguments.ArgumentError.TheVariants as argument_errors;

use crate::argument_reader::ArgumentReader;
use crate::atomic_file::Links;
use crate::commands::program;
use crate::converting::{ConvertOrder, convert_order};
use crate::failure::Failure;
use crate::formatting::{FormatOrder, format_order};
use crate::grammar::Numbers;
use crate::guessing::invalid_number;
use crate::serving::{ServeOrder, serve_order};
use crate::standard_input::StandardInput;
use clap::error::ErrorKind;
use clap::{ArgMatches, Error};
use std::alloc::{AllocError, Global};
use std::io::Read;

/// A stream or a GET name, with the path of its file.
#[derive(Clone, Copy)]
pub struct Binding<'a> {
    pub name: &'a str,
    pub path: &'a str,
}

/// What `run` records about a run.
#[derive(Clone, Copy)]
pub struct WatchOrder<'a> {
    /// The file for the trace, if any.
    pub trace: Option<&'a str>,
    /// The first instruction of the trace, counted from 1.
    pub from: u64,
    /// The number of instructions to trace.
    pub count: u64,
    /// The file for the profile, if any.
    pub profile: Option<&'a str>,
    /// Whether to report how much of the store the run uses.
    pub high: bool,
}

/// The arguments of `run`.
#[derive(Drop)]
pub struct RunOrder<'a> {
    /// The limit on instructions.
    pub steps: u64,
    pub watch: WatchOrder<'a>,
    pub inputs: Vec<Binding<'a>>,
    pub outputs: Vec<Binding<'a>>,
    /// The folder whose files the run opens by name, if any.
    pub folder: Option<&'a str>,
    pub texts: Vec<&'a str>,
    /// The sources that the texts were built from, if the profile is to name their routines.
    pub sources: Sources<'a>,
    pub places: Places,
}

/// How `asm` prints an image.
#[derive(Clone, Copy, PartialEq, Eq)]
pub enum ImageFormat {
    /// Each word in decimal, on a line of its own.
    Words,
    /// The base of the stack, then each word, in hexadecimal on a line of its own.
    Hex,
    /// The base of the stack, then each word, low byte first.
    LittleEndian,
    /// The base of the stack, then each word, high byte first.
    BigEndian,
    /// Intel HEX records.
    IntelHex,
    /// C source with an array.
    CSource,
    /// Motorola S-records.
    Srec,
}

/// The arguments of `asm`.
#[derive(Drop)]
pub struct AssembleOrder<'a> {
    pub format: ImageFormat,
    /// Whether to print the segments only.
    pub only_segments: bool,
    pub texts: Vec<&'a str>,
    pub places: Places,
}

/// When a refusal is explained after its first line.
#[derive(Clone, Copy)]
pub enum Places {
    /// Always.
    Always,
    /// If standard error is a terminal.
    OnTerminal,
    /// Never.
    Never,
    /// Always, and all messages are JSON objects.
    Json,
}

/// Which library precedes the files of a program.
#[derive(Clone, Copy)]
pub enum Library {
    /// LIBHDR and BLIB.
    Basic,
    /// EXTHDR and EXTLIB as well.
    Further,
}

impl Library {
    /// Whether this name always means a source of the library.
    pub fn has_source(self, name: &str) -> bool {
        match name {
            "LIBHDR" | "BLIB" => true,
            "EXTHDR" | "EXTLIB" => matches!(self, Library::Further),
            _ => false,
        }
    }
}

/// What of the library is linked.
#[derive(Clone, Copy, PartialEq, Eq)]
pub enum LinkedLibrary {
    /// All of it.
    Whole,
    /// The definitions that the sources can reach by name.
    Lean,
    /// Nothing. Its headers can be got all the same.
    Nothing,
}

/// The sources of a program.
#[derive(Drop)]
pub struct Sources<'a> {
    pub library: Library,
    /// Whether messages are JSON objects.
    pub is_json: bool,
    /// Whether all errors of a file are explained, and not only the first ones.
    pub explains_all: bool,
    pub linked: LinkedLibrary,
    /// The files for GET, by name.
    pub gets: Vec<Binding<'a>>,
    /// The folders in which a file for GET is looked for if no source has its name.
    pub includes: Vec<&'a str>,
    /// The sources, each of which becomes a segment.
    pub files: Vec<&'a str>,
    /// What is read for `-`, which in some commands is the name of a file.
    pub standard: StandardInput,
}

impl Sources<'_> {
    /// Reads standard input if one of the sources is `-`. Fails like `StandardInput::of`.
    fn read_standard_input<R: Read + Drop>(
        &mut self,
        alloc: Global,
        input: R,
    ) -> Result<(), Failure> {
        self.standard = StandardInput::of(alloc, self.files.as_slice(), input)?;
        Ok(())
    }
}

/// The arguments of `build`.
#[derive(Drop)]
pub struct BuildOrder<'a> {
    /// The file for the text of the segments.
    pub out: &'a str,
    /// The file for the certificate, if any.
    pub certificate: Option<&'a str>,
    /// What happens to further names of these files.
    pub links: Links,
    pub sources: Sources<'a>,
    pub places: Places,
    /// Whether to refuse a program that is not known to be tame.
    pub only_tame: bool,
    /// Whether to warn about valid code that is probably a mistake.
    pub warns: bool,
}

/// A program that is run from its sources, with its streams.
#[derive(Drop)]
pub struct ProgramOrder<'a> {
    pub sources: Sources<'a>,
    pub inputs: Vec<Binding<'a>>,
    pub outputs: Vec<Binding<'a>>,
    pub places: Places,
    /// Whether to warn about valid code that is probably a mistake.
    pub warns: bool,
}

/// The arguments of `go`.
#[derive(Drop)]
pub struct GoOrder<'a> {
    /// The limit on instructions.
    pub steps: u64,
    pub program: ProgramOrder<'a>,
}

/// The arguments of `interpret`.
#[derive(Drop)]
pub struct InterpretOrder<'a> {
    /// The number of turns after which the run is cut off.
    pub turns: u64,
    /// Whether lawful accesses that are probably mistakes end the run.
    pub is_strict: bool,
    pub program: ProgramOrder<'a>,
}

/// The arguments of `debug`.
#[derive(Drop)]
pub struct DebugOrder<'a> {
    /// The file for the page; `None` for a session.
    pub out: Option<&'a str>,
    /// The file that the program reads as its standard input, if any.
    pub input: Option<&'a str>,
    pub inputs: Vec<Binding<'a>>,
    pub outputs: Vec<Binding<'a>>,
    /// The greatest number of stops that are kept.
    pub record: u64,
    /// The number of turns after which the run is cut off.
    pub turns: u64,
    /// Whether lawful accesses that are probably mistakes end the run.
    pub is_strict: bool,
    /// The file with commands, if any.
    pub script: Option<&'a str>,
    /// Whether the session ends after these commands.
    pub is_batch: bool,
    pub sources: Sources<'a>,
    pub places: Places,
}

/// The arguments of `tame`.
#[derive(Drop)]
pub struct TameOrder<'a> {
    pub sources: Sources<'a>,
    pub places: Places,
}

/// The form in which `show tree` prints.
#[derive(Clone, Copy)]
pub enum TreeShape {
    /// Indented lines.
    Indented,
    /// A graph for dot.
    Dot,
    /// JSON.
    Json,
}

/// What `show` lists.
#[derive(Clone, Copy)]
pub enum Listing {
    /// The tokens of the source.
    Tokens,
    /// The source in its canonical spelling and layout.
    Source,
    /// The tree, in this form.
    Tree(TreeShape),
    /// The meaning of names.
    Scopes,
    /// The source lines with their code.
    Code,
}

/// The arguments of `show`.
#[derive(Drop)]
pub struct ShowOrder<'a> {
    pub listing: Listing,
    /// The library, the files for GET, and the one source to list.
    pub sources: Sources<'a>,
    pub places: Places,
}

/// The arguments of `list`.
#[derive(Drop)]
pub struct ListOrder<'a> {
    /// Whether to list the sizes of the parts instead of their words.
    pub only_sizes: bool,
    /// The file with the certificate of the texts, if any.
    pub certificate: Option<&'a str>,
    pub texts: Vec<&'a str>,
    /// The sources that the texts were built from, if routines are to be named.
    pub sources: Sources<'a>,
    pub places: Places,
    /// What is read for `-` among the texts.
    pub standard: StandardInput,
}

impl ListOrder<'_> {
    /// Reads standard input if one of the texts is `-`. Fails like `StandardInput::of`.
    fn read_standard_input<R: Read + Drop>(
        &mut self,
        alloc: Global,
        input: R,
    ) -> Result<(), Failure> {
        self.standard = StandardInput::of(alloc, self.texts.as_slice(), input)?;
        Ok(())
    }
}

/// The arguments of `explain`.
#[derive(Drop)]
pub struct ExplainOrder<'a> {
    /// The file for the report, or `None` for standard output.
    pub out: Option<&'a str>,
    pub sources: Sources<'a>,
    pub places: Places,
}

/// The arguments of `check`.
#[derive(Drop)]
pub struct CheckOrder<'a> {
    pub certificate: &'a str,
    /// The texts that must contain the certified code.
    pub texts: Vec<&'a str>,
    pub places: Places,
}

/// What a command line orders.
#[derive(Drop)]
pub enum Order<'a> {
    /// Run the text on standard input: there are no arguments.
    RunInput(Places),
    /// Build a program.
    Build(BuildOrder<'a>),
    /// List what the compiler sees in a source.
    Show(ShowOrder<'a>),
    /// Explain why the code of the sources is as short as possible.
    Explain(ExplainOrder<'a>),
    /// List the image of texts.
    List(ListOrder<'a>),
    /// Print the words of the image of texts.
    Assemble(AssembleOrder<'a>),
    /// Run texts.
    Run(RunOrder<'a>),
    /// Build sources and run them.
    Go(GoOrder<'a>),
    /// Run sources by their meaning.
    Interpret(InterpretOrder<'a>),
    /// Run sources step by step.
    Debug(DebugOrder<'a>),
    /// Decide whether sources are tame.
    Tame(TameOrder<'a>),
    /// Serve an editor.
    Serve(ServeOrder<'a>),
    /// Check a certificate.
    Check(CheckOrder<'a>),
    /// Convert old sources.
    Convert(ConvertOrder<'a>),
    /// Lay out sources.
    Format(FormatOrder<'a>),
}

impl Order<'_> {
    /// When refusals are explained.
    pub fn places(&self) -> Places {
        match self {
            Order::RunInput(places) => *places,
            Order::Build(order) => order.places,
            Order::Show(order) => order.places,
            Order::Explain(order) => order.places,
            Order::List(order) => order.places,
            Order::Assemble(order) => order.places,
            Order::Run(order) => order.places,
            Order::Go(order) => order.program.places,
            Order::Interpret(order) => order.program.places,
            Order::Debug(order) => order.places,
            Order::Tame(order) => order.places,
            Order::Serve(_) => Places::OnTerminal,
            Order::Check(order) => order.places,
            Order::Convert(order) => order.places,
            Order::Format(order) => order.places,
        }
    }

    /// The bytes of stack that suffice for the command, however deep its sources nest. The deepest known take 1,050,000,
    /// and 2,750,000 in `convert`.
    pub fn stack(&self) -> u64 {
        match self {
            Order::Convert(_) => 4_000_000,
            _ => 1_500_000,
        }
    }

    /// Reads standard input if one of the files is `-` and the command takes that for it. Fails like
    /// `StandardInput::of`.
    pub fn read_standard_input<R: Read + Drop>(
        &mut self,
        alloc: Global,
        input: R,
    ) -> Result<(), Failure> {
        match self {
            Order::Go(order) => order.program.sources.read_standard_input(alloc, input),
            Order::Interpret(order) => order.program.sources.read_standard_input(alloc, input),
            Order::Debug(order) => order.sources.read_standard_input(alloc, input),
            Order::Tame(order) => order.sources.read_standard_input(alloc, input),
            Order::Show(order) => order.sources.read_standard_input(alloc, input),
            Order::Explain(order) => order.sources.read_standard_input(alloc, input),
            Order::List(order) => order.read_standard_input(alloc, input),
            Order::Convert(order) => order.read_standard_input(alloc, input),
            Order::Format(order) => order.read_standard_input(alloc, input),
            _ => Ok(()),
        }
    }
}

/// Why a command line is invalid.
#[derive(Drop)]
pub enum ArgumentError<'a> {
    /// A message of the argument parser, which may be help that was requested.
    Parser(Error),
    /// An option, a binding or the listing of `show` has an invalid value.
    Option {
        value: &'a str,
        /// What the option accepts.
        accepts: &'static str,
    },
    /// An allocation failed.
    Memory,
}

impl From<AllocError> for ArgumentError<'_> {
    ghost from_gives = { λ _ b. b ≡ argument_errors.Memory };

    fn from(_refused: AllocError) -> Self {
        ArgumentError::Memory
    }
}

/// What the options accept whose values are checked here, and not by the argument parser.
const MESSAGES_ACCEPTS: &str = "--messages takes text or json, for example --messages json";

const ERRORS_ACCEPTS: &str =
    "--errors takes all; without this option, the first 20 errors of each file are explained";

const PLACES_ACCEPTS: &str = "--places takes always, never or auto, for example --places always";

const SETTING_ACCEPTS: &str =
    "the environment variable BCPL_PLACES takes always, never or auto, like the option --places";

const FORMAT_ACCEPTS: &str =
    "--format takes words, hex, bin-le, bin-be, ihex, c or srec, for example --format hex";

const LIBRARY_ACCEPTS: &str =
    "--library takes ext, the further library EXTLIB; without this option only BLIB is linked";

const LISTING_ACCEPTS: &str =
    "show lists tokens, tree, source, scopes or code, for example bcpl show code hello.bcpl";

const FORM_ACCEPTS: &str =
    "--form takes tree, dot or json, and only show tree has it, for example bcpl show tree --form dot hello.bcpl";

const GET_ACCEPTS: &str =
    "--get takes NAME=PATH, the name after GET and the path of the file, for example --get defs=defs.bcpl";

const IN_ACCEPTS: &str =
    "--in takes NAME=PATH, the name of the stream and the path of the file, for example --in DATA=data.txt";

const TO_ACCEPTS: &str =
    "--to takes NAME=PATH, the name of the stream and the path of the file, for example --to LIST=list.txt";

/// The default number of instructions to trace.
const DEFAULT_COUNT: u64 = 1_000;

/// The default limit on the instructions of `go`.
const DEFAULT_STEPS: u64 = 10_000_000_000;

/// The default limit on the turns of `debug`.
const DEFAULT_RECORDED_TURNS: u64 = 10_000_000;

/// The default number of stops that `debug` keeps.
const DEFAULT_STOPS: u64 = 1_000_000;

/// The default limit on the turns of `interpret`.
const DEFAULT_TURNS: u64 = 100_000_000;

impl Places {
    /// The value of `--places` or `BCPL_PLACES` that is written so.
    pub fn named(value: &str) -> Option<Places> {
        match value {
            "always" => Some(Places::Always),
            "auto" => Some(Places::OnTerminal),
            "never" => Some(Places::Never),
            _ => None,
        }
    }

    /// The value of `BCPL_PLACES`, or the default if it is not set or invalid.
    pub fn default_of(setting: Option<&str>) -> Places {
        match setting {
            Some("json") => Places::Json,
            Some(value) => Places::named(value).unwrap_or(Places::OnTerminal),
            None => Places::OnTerminal,
        }
    }
}

/// Whether messages are JSON objects. An invalid value of `--messages` is noted in `reader`.
fn is_json(reader: &mut ArgumentReader<'_, '_>) -> bool {
    match reader.value("messages") {
        Some("json") => true,
        Some("text") => false,
        Some(value) => {
            reader.refuse(value, MESSAGES_ACCEPTS);
            false
        }
        None => matches!(reader.setting, Some("json")),
    }
}

/// Whether all errors of a file are explained. An invalid value of `--errors` is noted in `reader`.
fn explains_all(reader: &mut ArgumentReader<'_, '_>) -> bool {
    match reader.value("errors") {
        None => {}
        Some("all") => return true,
        Some(value) => reader.refuse(value, ERRORS_ACCEPTS),
    }
    false
}

/// What happens to further names of the outputs.
pub(crate) fn links_option(reader: &ArgumentReader<'_, '_>) -> Links {
    if reader.flag("keep-links") {
        Links::Kept
    } else {
        Links::Apart
    }
}

/// The value of `--places`, or else of `BCPL_PLACES`, unless messages are JSON objects. An invalid value is noted in
/// `reader`.
pub(crate) fn places_option(reader: &mut ArgumentReader<'_, '_>) -> Places {
    if is_json(reader) {
        return Places::Json;
    }
    let (given, accepts) = match (reader.value("places"), reader.setting) {
        (Some(value), _) => (value, PLACES_ACCEPTS),
        (None, Some("json") | None) => return Places::OnTerminal,
        (None, Some(value)) => (value, SETTING_ACCEPTS),
    };
    match Places::named(given) {
        Some(places) => places,
        None => {
            reader.refuse(given, accepts);
            Places::OnTerminal
        }
    }
}

/// The value of `--format`. An invalid value is noted in `reader`.
fn format_of(reader: &mut ArgumentReader<'_, '_>) -> ImageFormat {
    match reader.value("format") {
        None | Some("words") => {}
        Some("hex") => return ImageFormat::Hex,
        Some("bin-le") => return ImageFormat::LittleEndian,
        Some("bin-be") => return ImageFormat::BigEndian,
        Some("ihex") => return ImageFormat::IntelHex,
        Some("c") => return ImageFormat::CSource,
        Some("srec") => return ImageFormat::Srec,
        Some(value) => reader.refuse(value, FORMAT_ACCEPTS),
    }
    ImageFormat::Words
}

/// The value of `--library`. An invalid value is noted in `reader`.
fn library_of(reader: &mut ArgumentReader<'_, '_>) -> Library {
    match reader.value("library") {
        None => {}
        Some("ext") => return Library::Further,
        Some(value) => reader.refuse(value, LIBRARY_ACCEPTS),
    }
    Library::Basic
}

/// The form of the tree. An invalid one is noted in `reader`.
fn shape_of(reader: &mut ArgumentReader<'_, '_>) -> TreeShape {
    match reader.value("form") {
        None | Some("tree") => {}
        Some("dot") => return TreeShape::Dot,
        Some("json") => return TreeShape::Json,
        Some(value) => reader.refuse(value, FORM_ACCEPTS),
    }
    TreeShape::Indented
}

/// Refuses a form of the tree beside a listing that has none.
fn refuse_form(reader: &mut ArgumentReader<'_, '_>, listing: Listing) {
    if matches!(listing, Listing::Tree(_)) {
        return;
    }
    if let Some(value) = reader.value("form") {
        reader.refuse(value, FORM_ACCEPTS);
    }
}

/// The listing that `show` is to print. An invalid one is noted in `reader`.
fn listing_of(reader: &mut ArgumentReader<'_, '_>) -> Listing {
    match reader.value("LISTING") {
        Some("tokens") => {}
        Some("tree") => return Listing::Tree(shape_of(reader)),
        Some("source") => return Listing::Source,
        Some("scopes") => return Listing::Scopes,
        Some("code") => return Listing::Code,
        value => reader.refuse(value.unwrap_or(""), LISTING_ACCEPTS),
    }
    Listing::Tokens
}

/// The path of standard output; `-` means it too.
pub(crate) const STANDARD_OUTPUT: &str = "/dev/stdout";

/// The path of an output, which for `-` is that of standard output.
fn output_path(path: &str) -> &str {
    if path == "-" { STANDARD_OUTPUT } else { path }
}

/// Whether this path of an output, as `BuildOrder` has it, is that of standard output.
pub fn is_standard_output(path: &str) -> bool {
    output_path(path) == STANDARD_OUTPUT
}

/// The sources that the arguments name.
fn sources_of<'a>(reader: &mut ArgumentReader<'_, 'a>) -> Sources<'a> {
    sources_by(reader, "FILE")
}

/// The sources that the argument with this name has.
fn sources_by<'a>(reader: &mut ArgumentReader<'_, 'a>, name: &str) -> Sources<'a> {
    Sources {
        library: library_of(reader),
        is_json: is_json(reader),
        explains_all: explains_all(reader),
        linked: LinkedLibrary::Whole,
        gets: reader.bindings("get", GET_ACCEPTS),
        includes: reader.values("include"),
        files: reader.values(name),
        standard: StandardInput::none(),
    }
}

/// Reads the arguments of a program that is run from its sources.
fn program_order<'a>(reader: &mut ArgumentReader<'_, 'a>) -> ProgramOrder<'a> {
    ProgramOrder {
        sources: sources_of(reader),
        inputs: reader.bindings("in", IN_ACCEPTS),
        outputs: reader.bindings("to", TO_ACCEPTS),
        places: places_option(reader),
        warns: !reader.flag("no-warnings"),
    }
}

/// Reads the arguments of `go`, which with `--strict` is `interpret`.
fn go_order<'a>(reader: &mut ArgumentReader<'_, 'a>) -> Order<'a> {
    if reader.flag("strict") {
        return Order::Interpret(interpret_order(reader));
    }
    Order::Go(GoOrder {
        steps: reader.number("steps", DEFAULT_STEPS),
        program: program_order(reader),
    })
}

/// Reads the arguments of `interpret`.
fn interpret_order<'a>(reader: &mut ArgumentReader<'_, 'a>) -> InterpretOrder<'a> {
    InterpretOrder {
        turns: reader.number("turns", DEFAULT_TURNS),
        is_strict: reader.flag("strict"),
        program: program_order(reader),
    }
}

/// Reads the arguments of `debug`.
fn debug_order<'a>(reader: &mut ArgumentReader<'_, 'a>) -> DebugOrder<'a> {
    DebugOrder {
        out: reader.value("out"),
        input: reader.value("input"),
        inputs: reader.bindings("in", IN_ACCEPTS),
        outputs: reader.bindings("to", TO_ACCEPTS),
        record: reader.number("record", DEFAULT_STOPS),
        turns: reader.number("turns", DEFAULT_RECORDED_TURNS),
        is_strict: reader.flag("strict"),
        script: reader.value("script"),
        is_batch: reader.flag("batch"),
        sources: sources_of(reader),
        places: places_option(reader),
    }
}

/// Reads the arguments of `tame`.
fn tame_order<'a>(reader: &mut ArgumentReader<'_, 'a>) -> TameOrder<'a> {
    TameOrder {
        sources: sources_of(reader),
        places: places_option(reader),
    }
}

/// Reads the options of `run` that record the run.
fn watch_order<'a>(reader: &mut ArgumentReader<'_, 'a>) -> WatchOrder<'a> {
    WatchOrder {
        trace: reader.value("trace"),
        from: reader.number("from", 1),
        count: reader.number("count", DEFAULT_COUNT),
        profile: reader.value("profile"),
        high: reader.flag("high"),
    }
}

/// Reads the arguments of `run`.
fn run_order<'a>(reader: &mut ArgumentReader<'_, 'a>) -> RunOrder<'a> {
    RunOrder {
        steps: reader.number("steps", 0),
        watch: watch_order(reader),
        inputs: reader.bindings("in", IN_ACCEPTS),
        outputs: reader.bindings("to", TO_ACCEPTS),
        folder: reader.value("files"),
        texts: reader.values("TEXT"),
        sources: sources_by(reader, "source"),
        places: places_option(reader),
    }
}

/// Reads the arguments of `asm`.
fn assemble_order<'a>(reader: &mut ArgumentReader<'_, 'a>) -> AssembleOrder<'a> {
    AssembleOrder {
        format: format_of(reader),
        only_segments: reader.flag("segments"),
        texts: reader.values("TEXT"),
        places: places_option(reader),
    }
}

/// What of the library `build` links.
fn linked_library(reader: &ArgumentReader<'_, '_>) -> LinkedLibrary {
    if reader.flag("no-library") {
        LinkedLibrary::Nothing
    } else if reader.flag("lean") {
        LinkedLibrary::Lean
    } else {
        LinkedLibrary::Whole
    }
}

/// The sources of `build`.
fn build_sources<'a>(reader: &mut ArgumentReader<'_, 'a>) -> Sources<'a> {
    let mut sources = sources_of(reader);
    sources.linked = linked_library(reader);
    sources
}

/// Reads the arguments of `build`.
fn build_order<'a>(reader: &mut ArgumentReader<'_, 'a>) -> BuildOrder<'a> {
    BuildOrder {
        out: output_path(reader.value("out").unwrap_or("")),
        certificate: reader.value("cert"),
        links: links_option(reader),
        sources: build_sources(reader),
        places: places_option(reader),
        only_tame: reader.flag("tame"),
        warns: !reader.flag("no-warnings"),
    }
}

/// Reads the arguments of `show`.
fn show_order<'a>(reader: &mut ArgumentReader<'_, 'a>) -> ShowOrder<'a> {
    let listing = listing_of(reader);
    refuse_form(reader, listing);
    ShowOrder {
        listing,
        sources: sources_of(reader),
        places: places_option(reader),
    }
}

/// Reads the arguments of `explain`.
fn explain_order<'a>(reader: &mut ArgumentReader<'_, 'a>) -> ExplainOrder<'a> {
    ExplainOrder {
        out: reader.value("out").filter(|path| !is_standard_output(path)),
        sources: sources_of(reader),
        places: places_option(reader),
    }
}

/// Reads the arguments of `list`.
fn list_order<'a>(reader: &mut ArgumentReader<'_, 'a>) -> ListOrder<'a> {
    ListOrder {
        only_sizes: reader.flag("sizes"),
        certificate: reader.value("cert"),
        texts: reader.values("TEXT"),
        sources: sources_by(reader, "source"),
        places: places_option(reader),
        standard: StandardInput::none(),
    }
}

/// Reads the arguments of `check`.
fn check_order<'a>(reader: &mut ArgumentReader<'_, 'a>) -> CheckOrder<'a> {
    CheckOrder {
        certificate: reader.value("CERT").unwrap_or(""),
        texts: reader.values("TEXT"),
        places: places_option(reader),
    }
}

/// Reads the arguments of the command with this name. The last case is `build`.
fn order_of<'a>(command: &str, reader: &mut ArgumentReader<'_, 'a>) -> Order<'a> {
    match command {
        "asm" => Order::Assemble(assemble_order(reader)),
        "run" => Order::Run(run_order(reader)),
        "go" => go_order(reader),
        "interpret" => Order::Interpret(interpret_order(reader)),
        "debug" => Order::Debug(debug_order(reader)),
        "tame" => Order::Tame(tame_order(reader)),
        "lsp" => Order::Serve(serve_order(reader)),
        "check" => Order::Check(check_order(reader)),
        "convert" => Order::Convert(convert_order(reader)),
        "format" => Order::Format(format_order(reader)),
        "explain" => Order::Explain(explain_order(reader)),
        "list" => Order::List(list_order(reader)),
        "show" => Order::Show(show_order(reader)),
        _ => Order::Build(build_order(reader)),
    }
}

/// Reads a command line that the argument parser accepted.
fn order_from<'a>(
    alloc: Global,
    matches: &ArgMatches<'a>,
    setting: Option<&'a str>,
) -> Result<Order<'a>, ArgumentError<'a>> {
    let Some((command, matches)) = matches.subcommand() else {
        return Ok(Order::RunInput(Places::default_of(setting)));
    };
    let mut reader = ArgumentReader::new(alloc, matches, setting);
    let order = order_of(command, &mut reader);
    match reader.end() {
        Ok(()) => Ok(order),
        Err(bad) => Err(bad),
    }
}

/// Reads a command line in which a number has more than digits. `refusal` is the argument parser's message, which
/// stands if the number has none of the forms that options take.
fn parse_short_numbers<'a>(
    alloc: Global,
    words: &'a [&'a str],
    setting: Option<&'a str>,
    refusal: Error,
) -> Result<Order<'a>, ArgumentError<'a>> {
    if invalid_number(words).is_some() {
        return Err(ArgumentError::Parser(refusal));
    }
    match program(alloc, Numbers::Text)?.try_get_matches_from(words) {
        Ok(matches) => order_from(alloc, &matches, setting),
        Err(error) => Err(ArgumentError::Parser(error)),
    }
}

/// Reads a command line, without the program's name. `setting` is the value of the environment variable
/// `BCPL_PLACES`.
///
/// # Errors
///
/// `ArgumentError::Parser` if the argument parser rejects it or prints help, `ArgumentError::Option` if an option or
/// `setting` has an invalid value, and `ArgumentError::Memory` if an allocation fails.
pub fn parse_arguments<'a>(
    alloc: Global,
    words: &'a [&'a str],
    setting: Option<&'a str>,
) -> Result<Order<'a>, ArgumentError<'a>> {
    if words.is_empty() {
        return Ok(Order::RunInput(Places::default_of(setting)));
    }
    match program(alloc, Numbers::Digits)?.try_get_matches_from(words) {
        Ok(matches) => order_from(alloc, &matches, setting),
        Err(error) if error.kind() == ErrorKind::ValueValidation => {
            parse_short_numbers(alloc, words, setting, error)
        }
        Err(error) => Err(ArgumentError::Parser(error)),
    }
}
