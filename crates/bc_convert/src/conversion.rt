//! The public call `convert`.

ghost use Rattle.std.specs.Prelude.{◌≡◌, [], length, true, IfOk};
ghost use Rattle.bc_convert.specs.Confined.{AreConfined};
ghost use Rattle.bc_convert.specs.Converted.{converted, RiseWithin, ChangesText};
ghost use Rattle.bc_convert.specs.Plain.{is_plain};

use crate::applied::apply;
use crate::complaint::{Complaint, Fault};
use crate::conditions::{Compiled, without_others};
use crate::confined::confine_if_plain;
use crate::constants::{find_tables, find_variables};
use crate::dialect::Dialect;
use crate::doubts::{find_doubts, find_formats, find_old_meanings, find_stars};
use crate::fields::{find_assigned_fields, find_fields};
use crate::flags::find_flags;
use crate::formats::{Format, format_at, gets_header};
use crate::kind::Kind;
use crate::names::{is_called, is_declared, is_for};
use crate::nested_cases::find_nested_cases;
use crate::notes::Notes;
use crate::options::{Header, Lawful, Options};
use crate::own_globals::move_globals;
use crate::pools::{put_pool, tell_no_pool};
use crate::prepared::{prepared, with_differences};
use crate::program::Program;
use crate::reading::Reading;
use crate::replacement::Replacement;
use crate::settled::settle;
use crate::sized_vectors::find_sized_vectors;
use crate::source::TokenizedText;
use crate::spelling::{respell, respell_header};
use crate::statics::find_statics;
use crate::valofs::find_valof_jumps;
use crate::walk::{MOST_DEPTH, Walk, items};
use bc_word::Memory;
use std::alloc::Global;

/// The result of a conversion.
#[derive(Drop)]
pub struct Conversion {
    /// The converted text.
    pub text: Vec<u8>,
    /// The replaced spans of the old text, in order. Everything else is unchanged.
    pub replacements: Vec<Replacement>,
    /// The constructs that can't be converted, in the order of the old text.
    pub complaints: Vec<Complaint>,
}

/// Reports the names of labels that are used as values.
fn find_label_values(source: TokenizedText<'_>, notes: &mut Notes) {
    for index in 0..source.tokens.len() {
        if is_label_value(source, notes, index) {
            notes.complain(source, index, Fault::LabelAsValue);
        }
    }
}

/// Whether the token at an index is the name of a label, used as a value.
fn is_label_value(source: TokenizedText<'_>, notes: &Notes, index: usize) -> bool {
    source.kind(index) == Kind::Name
        && !notes.labels_like(source, index).is_empty()
        && !notes.is_label_or_destination(index)
        && !is_declared(source, index)
}

/// Reports each GOTO to a label that is now in the block of a later declaration.
fn find_parted_jumps(source: TokenizedText<'_>, notes: &mut Notes) {
    for index in 0..source.tokens.len() {
        if notes.is_parted(source, index) {
            notes.complain(source, index, Fault::LabelInBlock);
        }
    }
}

/// Reports calls of WRITEF that may not work with the header that the source gets.
fn tell_formats(
    source: TokenizedText<'_>,
    notes: &mut Notes,
    options: Options<'_, '_>,
    header: Header,
) {
    if matches!(header, Header::Further) {
        return;
    }
    for index in 0..source.tokens.len() {
        let format = index.saturating_add(2);
        match (format_at(source, index, options.library), options.header) {
            (Some(Format::Further), Some(_)) => notes.complain(source, index, Fault::FurtherCall),
            (Some(Format::Hidden), None) => notes.complain(source, format, Fault::HiddenFormat),
            _ => {}
        }
    }
}

/// Reports the first token that needs EXTHDR, in a source with its own header.
fn tell_want(source: TokenizedText<'_>, notes: &mut Notes, options: Options<'_, '_>) {
    for index in 0..source.tokens.len() {
        if let Some(Format::Further) = format_at(source, index, options.library) {
            return notes.complain(source, index, Fault::NoHeader);
        }
    }
}

/// Reports the first call of GETVEC, where no source of the program sets up its pool.
fn tell_pool(source: TokenizedText<'_>, notes: &mut Notes, options: Options<'_, '_>) {
    for index in 0..source.tokens.len() {
        if is_called(source, index) && is_for(source.bytes(index), options.library, b"GETVEC") {
            return notes.complain(source, index, Fault::NoPool);
        }
    }
}

/// Reports problems with the library. A source in which nothing is replaced has none.
fn tell_library(
    source: TokenizedText<'_>,
    notes: &mut Notes,
    options: Options<'_, '_>,
    program: Program,
) {
    let is_changed = options.lawful == Lawful::No;
    if is_changed && program.wants_pool(options.header) {
        put_pool(source, notes, options.library);
    }
    if !notes.has_changes() {
        return;
    }
    let header = options.header.unwrap_or(program.header());
    tell_formats(source, notes, options, header);
    if !program.gets_library && !source.names.gets_library_alone {
        tell_want(source, notes, options);
    }
    if !program.makes_pool && !program.wants_pool(options.header) {
        tell_pool(source, notes, options);
    }
}

/// The notes on a classified source, whose own dialect is `shown`.
fn found(
    alloc: Global,
    source: TokenizedText<'_>,
    shown: Dialect,
    options: Options<'_, '_>,
) -> Result<Notes, Memory> {
    let mut notes = Notes::new(alloc, source.tokens.len())?;
    find(
        source,
        &mut notes,
        options,
        shown_with(source, shown, options),
    );
    Ok(notes)
}

/// The facts about the whole program, as they apply to a source whose own dialect is `shown`.
fn shown_with(source: TokenizedText<'_>, shown: Dialect, options: Options<'_, '_>) -> Program {
    let program = match options.program {
        Some(program) => program.seen_from(shown),
        None => Program::shown(source, shown, options.library),
    };
    match options.system {
        Some(system) => program.written_for(system),
        None => program,
    }
}

/// Collects the notes on a source of a program.
fn find(source: TokenizedText<'_>, notes: &mut Notes, options: Options<'_, '_>, program: Program) {
    find_changes(source, notes, options, program);
    match options.lawful {
        Lawful::No => {}
        Lawful::Header => {
            leave_lawful(source, notes);
            find_headers(source, notes, options, program);
            find_globals(source, notes, options, program);
            if program.wants_pool(options.header) {
                tell_no_pool(source, notes, options.library);
            }
        }
        Lawful::Whole => {
            leave_lawful(source, notes);
            find_formats(source, notes, options);
        }
        Lawful::Unseen => {
            leave_unseen(source, notes);
            find_globals(source, notes, options, program);
        }
    }
    find_doubts(source, notes, options);
    find_stars(source, notes, program);
}

/// Moves or reports globals of the program's own that EXTLIB has too.
fn find_globals(
    source: TokenizedText<'_>,
    notes: &mut Notes,
    options: Options<'_, '_>,
    program: Program,
) {
    if let Some(own) = program.moved_globals(options.header) {
        let may_move = options.lawful != Lawful::Unseen;
        move_globals(source, notes, own, may_move);
    }
}

/// Exchanges the library's header in a lawful source.
fn find_headers(
    source: TokenizedText<'_>,
    notes: &mut Notes,
    options: Options<'_, '_>,
    program: Program,
) {
    let header = options.header.unwrap_or(program.header());
    for index in 0..source.tokens.len() {
        if gets_header(source, index) {
            respell_header(source, notes, index, header);
        }
    }
    if let Header::Basic = header {
        find_formats(source, notes, options);
    }
}

/// Drops all notes on a lawful source. The first token that was to be changed, other than the name of the library's header,
/// is reported.
fn leave_lawful(source: TokenizedText<'_>, notes: &mut Notes) {
    let mut tokens = 0..source.tokens.len();
    let changed = tokens.find(|index| notes.is_changed(*index) && !gets_header(source, *index));
    notes.drop_changes();
    notes.drop_complaints();
    if let Some(index) = changed {
        notes.complain(source, index, Fault::OldMeaning);
    }
}

/// Drops all notes on a source that may be lawful. If there were changes, the first header other than the library's is
/// reported.
fn leave_unseen(source: TokenizedText<'_>, notes: &mut Notes) {
    let has_changes = notes.has_changes();
    notes.drop_changes();
    notes.drop_complaints();
    let mut names = 1..source.tokens.len();
    let unseen = names.find(|index| source.kind(*index - 1) == Kind::Get
        && !gets_header(source, *index));
    if let Some(index) = unseen
        && has_changes
    {
        notes.complain(source, index, Fault::UnseenHeader);
    }
}

/// Collects the changes of a source that isn't lawful, and what can't be converted.
fn find_changes(
    source: TokenizedText<'_>,
    notes: &mut Notes,
    options: Options<'_, '_>,
    program: Program,
) {
    let dialect = program.dialect;
    let header = options.header.unwrap_or(program.header());
    respell(source, notes, dialect, options, header);
    let walk = Walk {
        source,
        dialect,
        depth: MOST_DEPTH,
    };
    find_fields(source, notes);
    items(walk, notes, 0, source.tokens.len());
    find_assigned_fields(source, notes);
    find_label_values(source, notes);
    find_parted_jumps(source, notes);
    find_valof_jumps(source, notes);
    find_statics(source, notes);
    find_nested_cases(source, notes);
    find_sized_vectors(source, notes, program.wants_pool(options.header));
    find_tables(source, notes);
    find_variables(source, notes);
    find_flags(source, notes);
    if options.lawful == Lawful::No {
        find_globals(source, notes, options, program);
    }
    find_old_meanings(source, notes, dialect);
    tell_library(source, notes, options, program);
}

/// The candidate replacements and the complaints of a text.
fn found_in(
    alloc: Global,
    text: &[u8],
    options: Options<'_, '_>,
) -> Result<(Vec<Replacement>, Vec<Complaint>), Memory> {
    let reading = Reading::new(alloc, text, options.shared, options.system)?;
    let source = reading.source(text);
    found(alloc, source, reading.dialect, options)?.finished(source)
}

/// Two lists of candidates, each in the order of the text, as one such list.
fn merged(
    conditions: Vec<Replacement>,
    found: Vec<Replacement>,
) -> Result<Vec<Replacement>, Memory> {
    if conditions.is_empty() {
        return Ok(found);
    }
    let mut all = conditions;
    for candidate in found {
        all.push(candidate)?;
    }
    all.sort_by_key(|candidate| candidate.start)?;
    Ok(all)
}

/// All candidates for replacements: those for conditional compilation, those found, and those that lead to the text as the
/// lexer reads it. A lawful source has only those found.
fn candidates(
    alloc: Global,
    text: &[u8],
    prepared: &[u8],
    options: Options<'_, '_>,
    changes: (Vec<Replacement>, Vec<Replacement>),
) -> Result<Vec<Replacement>, Memory> {
    let (conditions, found) = changes;
    match options.lawful {
        Lawful::No => {
            let found = merged(conditions, found)?;
            with_differences(alloc, text, prepared, found)
        }
        Lawful::Header | Lawful::Whole | Lawful::Unseen => Ok(found),
    }
}

/// The candidates that are carried out. In a plain text each meets at most one token.
fn chosen(
    alloc: Global,
    text: &[u8],
    candidates: Vec<Replacement>,
) -> Result<Vec<Replacement>, Memory>
    ensures rise { IfOk result (λ taken. RiseWithin 0 (length text.now) taken.items) }
    ensures change { IfOk result (λ taken. ChangesText text.now taken.items) }
    ensures confined { IfOk result (λ taken. is_plain text.now ≡ true → AreConfined text.now taken.items) }
{
    let confined = confine_if_plain(alloc, text, candidates)?;
    settle(alloc, text, confined)
}

/// Two lists of complaints as one, in the order of the text.
fn in_order(tags: Vec<Complaint>, further: Vec<Complaint>) -> Result<Vec<Complaint>, Memory> {
    let mut complaints = tags;
    complaints.extend_from_slice(further.as_slice())?;
    complaints.sort_by_key(|complaint| complaint.start)?;
    Ok(complaints)
}

/// Converts a source from an old dialect to this one.
///
/// The new text is the old one with some spans replaced, exactly those listed in `replacements`. They rise, don't
/// overlap and lie within the old text, and each changes its span. If the list is empty, the text is the old one byte
/// for byte. If the text is plain, it has tokens of which each span meets at most one. Which spans are replaced is tested,
/// not proved.
///
/// # Errors
///
/// `Memory` if an allocation failed.
pub fn convert(alloc: Global, text: &[u8], options: Options<'_, '_>) -> Result<Conversion, Memory>
    ensures rise { IfOk result (λ c. RiseWithin 0 (length text.now) c.replacements.items) }
    ensures change { IfOk result (λ c. ChangesText text.now c.replacements.items) }
    ensures whole { IfOk result (λ c. c.text.items ≡ converted text.now c.replacements.items) }
    ensures kept { IfOk result (λ c. c.replacements.items ≡ [] → c.text.items ≡ text.now) }
    ensures confined { IfOk result (λ c. is_plain text.now ≡ true → AreConfined text.now c.replacements.items) }
{
    let prepared = prepared(alloc, text)?;
    let Compiled {
        text: read,
        changes,
        complaints: tags,
    } = without_others(alloc, prepared.as_slice(), options.defines)?;
    let (found, further) = found_in(alloc, read.as_slice(), options)?;
    let complaints = in_order(tags, further)?;
    let changes = (changes, found);
    let candidates = candidates(alloc, text, prepared.as_slice(), options, changes)?;
    let replacements = chosen(alloc, text, candidates)?;
    Ok(Conversion {
        text: apply(alloc, text, replacements.as_slice())?,
        replacements,
        complaints,
    })
}
