//! Explanations of refused sources, and warnings about accepted ones.

use bc_build::{BuildError, ParseError, Parsed, ScopeFault, build};
use bc_lex::Token;
use bc_text_items::{Item, Segment};
use bc_word::Memory;
use bcpl_advice::{
    FurtherFault, advised, faults_after_lexical, further_faults, further_scope_faults, likely_among,
};
use bcpl_cli::BuildLine;
use bcpl_index::unknown_names;
use bcpl_messages::{Message, Named, Note, library_names, message_lines_by, message_of, shown};
use bcpl_places::{LineIndex, Span};
use bcpl_reports::{Label, Severity, message_line, text_objects};
use bcpl_warnings::{all_warnings, likely_starts, warning_lines};
use std::alloc::Global;

/// The largest number of refused files that are explained, unless all are.
const MOST_FILES: usize = 10;

/// The largest number of errors of a file that are explained, unless all are.
const MOST_ERRORS: usize = 20;

/// The line after that many errors.
const MORE: &str =
    "the first 20 errors of this file are explained; --errors all explains all of them\n";

/// The global that a run calls.
const START: u16 = 1;

/// The sources of a program, and which of them are mains.
#[derive(Clone, Copy)]
pub struct Program<'a, 's> {
    /// The sources with the paths to print for them.
    pub named: Named<'a, 's>,
    /// The indexes of the mains.
    pub mains: &'a [usize],
    /// Whether messages are JSON objects.
    pub is_json: bool,
    /// Whether all errors of a file are explained.
    pub explains_all: bool,
}

impl Program<'_, '_> {
    /// The limit on what is explained, which is `usual` unless all is.
    fn most(&self, usual: usize) -> usize {
        if self.explains_all { usize::MAX } else { usual }
    }
}

/// A program that was built, as its warnings see it.
#[derive(Clone, Copy)]
pub struct Accepted<'a, 's> {
    /// The segments that it was built to.
    pub segments: &'a [Segment],
    /// What its mains were parsed to, in their order.
    pub parsed: &'a [Parsed<'s>],
}

/// The lines of a message on an error, whose first line is `bcpl: ` and `code`. Where it has a place, `error: ` follows
/// the place, as `warning: ` does in warnings.
pub fn error_lines(
    alloc: Global,
    program: &Program<'_, '_>,
    code: &str,
    message: Message,
) -> Result<String, Memory> {
    let mut index = LineIndex::new(alloc);
    error_lines_by(alloc, program, &mut index, code, message)
}

/// The same for one of several errors. The index has the lines of the program's sources.
fn error_lines_by(
    alloc: Global,
    program: &Program<'_, '_>,
    index: &mut LineIndex,
    code: &str,
    message: Message,
) -> Result<String, Memory> {
    if program.is_json {
        let label = Label {
            severity: Severity::Error,
            code,
        };
        return message_line(alloc, program.named, index, label, &message);
    }
    let mut message = message;
    if message.span.is_some() {
        let sentence = message.sentence.as_str();
        message.sentence = format!(in alloc; "error: {sentence}")?;
    }
    message_lines_by(alloc, program.named, index, &message)
}

/// The text at a place.
fn text_at<'s>(program: &Program<'_, 's>, span: Span) -> &'s [u8] {
    match program.named.sources.get(span.file) {
        Some(source) => source.text.get(span.start..span.end).unwrap_or(b""),
        None => b"",
    }
}

/// The end of the sentence on a name that isn't declared: what is probably meant, and that `left` further names aren't
/// listed.
fn unknown_ending(
    alloc: Global,
    known: &[Token<'_>],
    name: &[u8],
    left: usize,
) -> Result<String, Memory> {
    let mut ending = likely_among(alloc, known, name)?;
    if left > 0 {
        write!(ending, "; --errors all lists {left} more")?;
    }
    Ok(ending)
}

/// The note on a further name that isn't declared. `known` has the library's names. It says that `left` names after it aren't
/// listed.
fn unknown_note(
    alloc: Global,
    program: &Program<'_, '_>,
    known: &[Token<'_>],
    span: Span,
    left: usize,
) -> Result<Note, Memory> {
    let text = text_at(program, span);
    let name = shown(alloc, text)?;
    let ending = unknown_ending(alloc, known, text, left)?;
    let ending = ending.as_str();
    let sentence = format!(in alloc; "{name} isn't declared either{ending}")?;
    Ok(Note { span, sentence })
}

/// Adds to a message on a name that isn't declared the places of the others, and what is probably meant by each.
fn add_unknown(
    alloc: Global,
    program: &Program<'_, '_>,
    main: usize,
    message: &mut Message,
) -> Result<(), Memory> {
    let names = unknown_names(alloc, program.named.sources, main)?;
    let known = library_names(alloc, program.named.sources, main)?;
    let most = program.most(MOST_ERRORS).saturating_sub(1);
    let listed = names.len().saturating_sub(1).min(most);
    let left = names.len().saturating_sub(1).saturating_sub(listed);
    for (number, span) in names.iter().enumerate().skip(1).take(most) {
        let left = if number == listed { left } else { 0 };
        let note = unknown_note(alloc, program, known.as_slice(), *span, left)?;
        message.notes.push(note)?;
    }
    Ok(())
}

/// The message with advice and with further names that aren't declared.
fn completed(
    alloc: Global,
    program: &Program<'_, '_>,
    fault: &BuildError,
    message: Message,
) -> Result<Message, Memory> {
    let mut message = advised(alloc, program.named.sources, fault, message)?;
    if let BuildError::Scope(main, ScopeFault::Undeclared(_)) = fault {
        add_unknown(alloc, program, *main, &mut message)?;
    }
    Ok(message)
}

/// The further faults of a main that was refused, `most` at most, or one more.
fn faults_after(
    alloc: Global,
    program: &Program<'_, '_>,
    fault: &BuildError,
    most: usize,
) -> Result<Vec<FurtherFault>, Memory> {
    let sources = program.named.sources;
    match fault {
        BuildError::Parse(main, ParseError::Expected(at)) => {
            further_faults(alloc, sources, *main, *at, most)
        }
        BuildError::Lex(main, fault) => faults_after_lexical(alloc, sources, *main, *fault, most),
        BuildError::Scope(main, _) => further_scope_faults(alloc, sources, *main, most),
        _ => Ok(Vec::new(alloc)),
    }
}

/// Adds the explanation of a further fault of a main.
fn add_fault(
    text: &mut String,
    alloc: Global,
    program: &Program<'_, '_>,
    index: &mut LineIndex,
    fault: FurtherFault,
) -> Result<(), Memory> {
    let FurtherFault { error, message } = fault;
    let line = BuildLine(&error);
    let code = format!(in alloc; "{line}")?;
    let lines = error_lines_by(alloc, program, index, code.as_str(), message)?;
    Ok(text.push_str(lines.as_str())?)
}

/// Adds the explanations of the further faults of a main that was refused.
fn add_further(
    text: &mut String,
    alloc: Global,
    program: &Program<'_, '_>,
    fault: &BuildError,
) -> Result<(), Memory> {
    let most = program.most(MOST_ERRORS).saturating_sub(1);
    let faults = faults_after(alloc, program, fault, most)?;
    let is_cut = faults.len() >= most;
    let mut index = LineIndex::new(alloc);
    for fault in faults {
        add_fault(text, alloc, program, &mut index, fault)?;
    }
    if is_cut && !program.is_json {
        text.push_str(MORE)?;
    }
    Ok(())
}

/// The explanation of one refusal, of which this is the message.
fn first_lines(
    alloc: Global,
    program: &Program<'_, '_>,
    fault: &BuildError,
    message: Message,
) -> Result<String, Memory> {
    let line = BuildLine(fault);
    let code = format!(in alloc; "{line}")?;
    let message = completed(alloc, program, fault, message)?;
    error_lines(alloc, program, code.as_str(), message)
}

/// The explanation of one refusal and of further ones of the same main, or an empty text.
fn lines_of(
    alloc: Global,
    program: &Program<'_, '_>,
    fault: &BuildError,
) -> Result<String, Memory> {
    match message_of(alloc, program.named.sources, program.mains, fault)? {
        Some(message) => {
            let mut text = first_lines(alloc, program, fault, message)?;
            add_further(&mut text, alloc, program, fault)?;
            Ok(text)
        }
        None => Ok(String::new(alloc)),
    }
}

/// The main that was refused, or `None` if the refusal is not of a single main.
fn refused_main(fault: &BuildError) -> Option<usize> {
    match fault {
        BuildError::Lex(main, _)
        | BuildError::Parse(main, _)
        | BuildError::Scope(main, _)
        | BuildError::Gen(main, _) => Some(*main),
        BuildError::Link(_) | BuildError::Memory => None,
    }
}

/// The explanation if this main is refused when it is compiled without the others, or an empty text.
fn lines_of_main(alloc: Global, program: &Program<'_, '_>, main: usize) -> Result<String, Memory> {
    if main >= program.named.sources.len() {
        return Ok(String::new(alloc));
    }
    match build(alloc, program.named.sources, &[main]) {
        Ok(_) | Err(BuildError::Link(_)) => Ok(String::new(alloc)),
        Err(BuildError::Memory) => Err(Memory),
        Err(fault) => lines_of(alloc, program, &fault),
    }
}

/// Adds the explanation for this main. `count` is the number of refused mains before it; returns the number with it.
fn add_main(
    text: &mut String,
    alloc: Global,
    program: &Program<'_, '_>,
    main: usize,
    count: usize,
) -> Result<usize, Memory> {
    let lines = lines_of_main(alloc, program, main)?;
    if lines.is_empty() {
        return Ok(count);
    }
    if count < program.most(MOST_FILES) {
        text.push_str(lines.as_str())?;
    }
    Ok(count.saturating_add(1))
}

/// Adds the number of refused files.
fn add_count(text: &mut String, count: usize) -> Result<(), Memory> {
    if count > 1 {
        writeln!(text, "{count} files are refused")?;
    }
    Ok(())
}

/// Adds the explanations for the mains after the first refused one, and the number of refused files.
fn add_after(
    text: &mut String,
    alloc: Global,
    program: &Program<'_, '_>,
    first: usize,
) -> Result<(), Memory> {
    let mut count: usize = 1;
    for main in program.mains {
        if *main > first {
            count = add_main(text, alloc, program, *main, count)?;
        }
    }
    if program.is_json {
        return Ok(());
    }
    add_count(text, count)
}

/// The explanation of a refusal and of refusals in later mains, ten in all unless all are ordered. `Memory` if an allocation fails.
pub fn explanation_of(
    alloc: Global,
    program: &Program<'_, '_>,
    fault: &BuildError,
) -> Result<String, Memory> {
    let mut text = lines_of(alloc, program, fault)?;
    if let Some(first) = refused_main(fault) {
        add_after(&mut text, alloc, program, first)?;
    }
    Ok(text)
}

/// The warning if no routine sets the global that a run calls.
const NO_START: &str =
    "no routine sets global 1, so a run can't begin; after GET \"LIBHDR\", LET START() BE .. sets it";

/// A warning that concerns no place, as text or as an object.
pub fn plain_warning(alloc: Global, is_json: bool, sentence: &str) -> Result<String, Memory> {
    let label = Label {
        severity: Severity::Warning,
        code: "",
    };
    if is_json {
        text_objects(alloc, label, sentence)
    } else {
        Ok(format!(in alloc; "bcpl: warning: {sentence}\n")?)
    }
}

/// Warnings as JSON objects.
fn warning_objects(
    alloc: Global,
    named: Named<'_, '_>,
    messages: &[Message],
) -> Result<String, Memory> {
    let label = Label {
        severity: Severity::Warning,
        code: "",
    };
    let mut text = String::new(alloc);
    let mut index = LineIndex::new(alloc);
    for message in messages {
        let line = message_line(alloc, named, &mut index, label, message)?;
        text.push_str(line.as_str())?;
    }
    Ok(text)
}

/// Warnings as lines or as JSON objects.
fn lines_of_warnings(
    alloc: Global,
    program: &Program<'_, '_>,
    messages: &[Message],
) -> Result<String, Memory> {
    if program.is_json {
        warning_objects(alloc, program.named, messages)
    } else {
        warning_lines(alloc, program.named, messages)
    }
}

/// The warnings about routines that were probably meant to set the global that a run calls.
fn likely_start_warnings(
    alloc: Global,
    library: usize,
    program: &Program<'_, '_>,
    parsed: &[Parsed<'_>],
) -> Result<String, Memory> {
    let starts = likely_starts(alloc, library, program.mains, parsed)?;
    lines_of_warnings(alloc, program, starts.as_slice())
}

/// The warning that no routine sets it, with the routines that were probably meant to.
fn no_start(
    alloc: Global,
    library: usize,
    program: &Program<'_, '_>,
    parsed: &[Parsed<'_>],
) -> Result<String, Memory> {
    let mut text = plain_warning(alloc, program.is_json, NO_START)?;
    let lines = likely_start_warnings(alloc, library, program, parsed)?;
    text.push_str(lines.as_str())?;
    Ok(text)
}

/// Whether a routine of this segment sets the global that a run calls.
fn sets_start(segment: &Segment) -> bool {
    segment.items().iter().any(|item| match item {
        Item::Global { number, .. } => number.get() == START,
        _ => false,
    })
}

/// The warning about the global that a run calls, or an empty text if a routine of the segments sets it.
fn start_warnings(
    alloc: Global,
    library: usize,
    program: &Program<'_, '_>,
    accepted: &Accepted<'_, '_>,
) -> Result<String, Memory> {
    if accepted.segments.iter().any(|segment| sets_start(segment)) {
        Ok(String::new(alloc))
    } else {
        no_start(alloc, library, program, accepted.parsed)
    }
}

/// The warnings about sources that are a part of a program and were parsed to this: another part may have the routine that a run calls.
pub fn part_warnings<'s>(
    alloc: Global,
    library: usize,
    program: &Program<'_, 's>,
    parsed: &[Parsed<'s>],
) -> Result<String, Memory> {
    let sources = program.named.sources;
    let found = all_warnings(alloc, sources, library, program.mains, parsed)?;
    lines_of_warnings(alloc, program, found.as_slice())
}

/// All warnings about a program. Its first `library` sources are the library's. `Memory` if an allocation fails.
pub fn warnings_of<'s>(
    alloc: Global,
    library: usize,
    program: &Program<'_, 's>,
    accepted: &Accepted<'_, 's>,
) -> Result<String, Memory> {
    let mut text = start_warnings(alloc, library, program, accepted)?;
    let further = part_warnings(alloc, library, program, accepted.parsed)?;
    text.push_str(further.as_str())?;
    Ok(text)
}
