//! The steps of `convert --project`.

use crate::files::{OldFile, is_source};
use crate::folder::{OldProject, PAGE, REPORT, SCRIPT, make_folder, old_project, spare_files};
use crate::headers::{Alias, Headers, headers_of};
use crate::new_files::{NewFile, declares_start, gets_further};
use crate::outputs::{Fate, Output, ResultFolder, edited_lines};
use crate::programs::{
    ProjectProgram, Refusal, file_alone, paths_of, programs_of, refusal_for, refusal_of_program,
    sources_of,
};
use crate::renames::{Renamed, add_shared, shared_names};
use crate::report::{Report, ShownDialect, page_of};
use crate::script::{Parts, script_of};
use crate::unknown::{UnknownNames, unknown_in};
use bc_convert::{Lawful, OldNames, Options, Program, System, renamings};
use bc_lex::Source;
use bc_word::Memory;
use bcpl_cli::{ConvertDialect, ConvertOrder, ConvertTo, Failure};
use bcpl_convert::{
    Converted, Given, MOST_ROUNDS, Round, Shown, by_hand, compiled_texts, first_round,
    further_round, lawful_in, list_text, may_change_any, needs_another_round, refuse_list,
};
use bcpl_messages::Named;
use std::alloc::Global;
use std::io::Write;
use std::rt::Files;

/// The texts of these files, then those that the aliases mean.
fn texts_of(alloc: Global, files: &[OldFile], aliases: &[Alias]) -> Result<Vec<Vec<u8>>, Memory> {
    let mut texts = Vec::new(alloc);
    for file in files {
        texts.push(Vec::from_slice(alloc, file.text.as_slice())?)?;
    }
    for alias in aliases {
        if let Some(file) = files.get(alias.file) {
            texts.push(Vec::from_slice(alloc, file.text.as_slice())?)?;
        }
    }
    Ok(texts)
}

/// The paths of these files, then the names of the aliases.
fn old_paths<'f>(
    alloc: Global,
    files: &'f [OldFile],
    aliases: &'f [Alias],
) -> Result<Vec<&'f str>, Memory> {
    let mut paths = Vec::new(alloc);
    for file in files {
        paths.push(file.beside.as_str())?;
    }
    for alias in aliases {
        paths.push(alias.name.as_str())?;
    }
    Ok(paths)
}

/// For each file whether it builds as it is. A file that builds under an alias does too.
fn lawful_of<F: Files>(
    rt: &F,
    alloc: Global,
    read: &ReadFiles,
    round: Round<'_>,
) -> Result<Vec<Lawful>, Memory> {
    let files = read.files.as_slice();
    let aliases = read.headers.aliases.as_slice();
    let texts = texts_of(alloc, files, aliases)?;
    let paths = old_paths(alloc, files, aliases)?;
    let given = Given {
        paths: paths.as_slice(),
        texts: texts.as_slice(),
    };
    let mut lawful = lawful_in(rt, alloc, given, round)?;
    for (number, alias) in aliases.iter().enumerate() {
        let index = files.len().saturating_add(number);
        let found = lawful.get(index).copied().unwrap_or(Lawful::No);
        if found != Lawful::No && alias.file < lawful.len() {
            lawful[alias.file] = found;
        }
    }
    Ok(lawful)
}

/// These files with their conversions.
fn new_files(
    alloc: Global,
    files: Vec<OldFile>,
    all: Vec<Converted>,
    is_header: &[bool],
) -> Result<Vec<NewFile>, Memory> {
    let mut new = Vec::new(alloc);
    for (index, (old, converted)) in files.into_iter().zip(all).enumerate() {
        let has_start = declares_start(alloc, converted.text())?;
        let Converted { conversion, later } = converted;
        new.push(NewFile {
            old,
            conversion,
            later,
            is_header: is_header.get(index).copied().unwrap_or(false),
            has_start,
        })?;
    }
    Ok(new)
}

/// Adds what a source shows of its dialect.
fn note_dialect(shown: &mut ShownDialect, program: Program) {
    let dialect = program.dialect;
    let counted = |is_shown: bool| if is_shown { 1usize } else { 0 };
    shown.small_words = shown
        .small_words
        .saturating_add(counted(dialect.has_small_words));
    shown.small_library = shown
        .small_library
        .saturating_add(counted(dialect.has_small_library));
    shown.stars = shown
        .stars
        .saturating_add(counted(dialect.has_star_subscripts));
    shown.quoted_strings = shown
        .quoted_strings
        .saturating_add(counted(dialect.has_quoted_strings));
}

/// What sources with these texts show of their dialect.
fn dialect_of(
    alloc: Global,
    order: &ConvertOrder<'_>,
    texts: &[Vec<u8>],
    library: &OldNames<'_>,
) -> Result<ShownDialect, Memory> {
    let mut shown = ShownDialect {
        named: match order.dialect {
            ConvertDialect::Shown => None,
            ConvertDialect::Of1967 => Some("1967, with V*(I) as a subscript"),
            ConvertDialect::Of1979 => Some("1979, with V*(I) as a product"),
            ConvertDialect::Alto => Some("the Alto's, with @ for the contents of a cell"),
        },
        small_words: 0,
        small_library: 0,
        stars: 0,
        quoted_strings: 0,
    };
    for text in texts {
        note_dialect(&mut shown, Program::of(alloc, text.as_slice(), library)?);
    }
    Ok(shown)
}

/// Whether one of the files gets EXTHDR.
fn needs_further(alloc: Global, files: &[NewFile]) -> Result<bool, Memory> {
    for file in files {
        if gets_further(alloc, file.text())? {
            return Ok(true);
        }
    }
    Ok(false)
}

/// Whether a file is refused by itself, and not because parts of its program are missing.
fn is_own(found: &Option<Refusal>) -> bool {
    match found {
        Some(refusal) => !refusal.is_of_linking,
        None => false,
    }
}

/// Why a file doesn't build by itself. A header builds where it is got.
fn own_refusal(
    alloc: Global,
    index: usize,
    file: &NewFile,
    named: Named<'_, '_>,
) -> Result<Option<Refusal>, Memory> {
    if file.is_header {
        return Ok(None);
    }
    let alone = file_alone(alloc, index)?;
    let found = refusal_for(alloc, named, alone.as_slice())?;
    if is_own(&found) { Ok(found) } else { Ok(None) }
}

/// Why each file doesn't build.
fn refusals_of(
    alloc: Global,
    files: &[NewFile],
    named: Named<'_, '_>,
) -> Result<Vec<Option<Refusal>>, Memory> {
    let mut refusals = Vec::new(alloc);
    for (index, file) in files.iter().enumerate() {
        refusals.push(own_refusal(alloc, index, file, named)?)?;
    }
    Ok(refusals)
}

/// Why each program doesn't build, of those that don't even with the library cut to what they reach.
fn unbuilt_of(
    alloc: Global,
    programs: &mut [ProjectProgram],
    files: &[NewFile],
    named: Named<'_, '_>,
    is_further: bool,
) -> Result<Vec<Option<Refusal>>, Memory> {
    let mut unbuilt = Vec::new(alloc);
    for program in programs.iter_mut() {
        unbuilt.push(refusal_of_program(alloc, program, files, named, is_further)?)?;
    }
    Ok(unbuilt)
}

/// The new project, before its files are written.
struct NewProject<'p> {
    files: Vec<NewFile>,
    /// The names of files that are no sources.
    others: Vec<String>,
    headers: Headers,
    shared: &'p [Renamed],
    dialect: ShownDialect,
    is_further: bool,
}

impl Drop for NewProject<'_> {
    fn drop(self) {
        let NewProject {
            files: _,
            others: _,
            headers: _,
            shared: _,
            dialect: _,
            is_further: _,
        } = self;
    }
}

/// Prints what was done.
fn print_summary<O: Write + Drop>(
    alloc: Global,
    report: &Report<'_>,
    folder: &str,
    out: &mut O,
) -> Result<(), Failure> {
    let files = report.files.len();
    let programs = report.programs.len();
    let built = report
        .unbuilt
        .iter()
        .filter(|unbuilt| unbuilt.is_none())
        .count();
    let named = match report.dialect.named {
        Some(named) => named,
        None if report.dialect.small_words > 0 => "as shown, with reserved words in lower case",
        None => "as shown, with reserved words in upper case",
    };
    let header = if report.is_further {
        "EXTHDR"
    } else {
        "LIBHDR"
    };
    let text = format!(in alloc;
        "ok {folder}: files {files}, programs that build {built} of {programs}, header {header}\ndialect: {named}\n"
    )?;
    if out.write_all(text.as_str().as_bytes()).is_ok() && out.flush().is_ok() {
        Ok(())
    } else {
        Err(Failure::file(alloc, "SYSPRINT"))
    }
}

/// Fails if something is left to do by hand, with how much.
fn tell_left(alloc: Global, order: &ConvertOrder<'_>, report: &Report<'_>) -> Result<(), Failure> {
    let left = report.left();
    if left.count() == 0 {
        return Ok(());
    }
    let folder = folder_of(order);
    let places = left.places;
    let names = left.names;
    let headers = left.headers;
    let refused = left.refused;
    let mut told = format!(in alloc;
        "{folder}/{REPORT} lists what is left to do by hand\n\
         \x20 doubtful places: {places}; names that nothing declares: {names}; headers that weren't found: {headers}\n\
         \x20 files and programs that don't build for other reasons: {refused}\n"
    )?;
    told.push_str(report.edited)?;
    Err(by_hand(order, left.count(), told))
}

/// What the files of a result have.
#[derive(Clone, Copy)]
struct Texts<'o> {
    files: &'o [NewFile],
    script: &'o str,
    report: &'o str,
    page: &'o str,
}

impl<'o> Texts<'o> {
    /// These files with this script, report and page.
    fn new(files: &'o [NewFile], script: &'o str, report: &'o str, page: &'o str) -> Texts<'o> {
        Texts {
            files,
            script,
            report,
            page,
        }
    }
}

/// The files of the result, the script and the report.
fn outputs_of<'o>(alloc: Global, texts: Texts<'o>) -> Result<Vec<Output<'o>>, Memory> {
    let mut outputs = Vec::new(alloc);
    for file in texts.files {
        outputs.push(Output {
            name: file.name(),
            text: file.text(),
        })?;
    }
    outputs.push(Output {
        name: SCRIPT,
        text: texts.script.as_bytes(),
    })?;
    outputs.push(Output {
        name: REPORT,
        text: texts.report.as_bytes(),
    })?;
    outputs.push(Output {
        name: PAGE,
        text: texts.page.as_bytes(),
    })?;
    Ok(outputs)
}

/// Where these texts go, and the lines about files that were edited by hand. Nothing is written.
fn fates_in<F: Files>(
    rt: &F,
    alloc: Global,
    folder: &ResultFolder<'_>,
    texts: Texts<'_>,
) -> Result<(Vec<Fate>, String), Failure> {
    let outputs = outputs_of(alloc, texts)?;
    let fates = folder.fates(rt, outputs.as_slice())?;
    let edited = edited_lines(alloc, outputs.as_slice(), fates.as_slice())?;
    Ok((fates, edited))
}

/// Writes these texts to where they go.
fn write_texts<F: Files>(
    rt: &F,
    alloc: Global,
    folder: &mut ResultFolder<'_>,
    texts: Texts<'_>,
    fates: &[Fate],
) -> Result<(), Failure> {
    let outputs = outputs_of(alloc, texts)?;
    folder.write(rt, outputs.as_slice(), fates)
}

/// The sources, with an empty text for each header that wasn't found, so that what gets it can be read.
fn with_missing<'s>(
    alloc: Global,
    files: &'s [NewFile],
    headers: &'s Headers,
) -> Result<Vec<Source<'s>>, Memory> {
    let mut sources = sources_of(alloc, files, headers.aliases.as_slice())?;
    for missing in &headers.missing {
        sources.push(Source {
            name: missing.name.as_str().as_bytes(),
            text: b"",
        })?;
    }
    Ok(sources)
}

/// What building the new project in memory shows.
struct Judged {
    programs: Vec<ProjectProgram>,
    /// Why each file doesn't build.
    refusals: Vec<Option<Refusal>>,
    /// Why each program doesn't build.
    unbuilt: Vec<Option<Refusal>>,
    unknown: UnknownNames,
}

impl Drop for Judged {
    fn drop(self) {
        let Judged {
            programs: _,
            refusals: _,
            unbuilt: _,
            unknown: _,
        } = self;
    }
}

/// The names that nothing declares in these files.
fn unknown_names(alloc: Global, project: &NewProject<'_>) -> Result<UnknownNames, Memory> {
    let files = project.files.as_slice();
    let readable = with_missing(alloc, files, &project.headers)?;
    let paths = paths_of(alloc, files, project.headers.aliases.as_slice())?;
    let named = Named {
        sources: readable.as_slice(),
        paths: paths.as_slice(),
    };
    unknown_in(alloc, files, named)
}

/// Builds each file and each program of the new project in memory.
fn judge_under(
    alloc: Global,
    project: &NewProject<'_>,
    named: Named<'_, '_>,
) -> Result<Judged, Memory> {
    let files = project.files.as_slice();
    let mut programs = programs_of(alloc, files)?;
    let refusals = refusals_of(alloc, files, named)?;
    let is_further = project.is_further;
    let unbuilt = unbuilt_of(alloc, programs.as_mut_slice(), files, named, is_further)?;
    let unknown = unknown_names(alloc, project)?;
    Ok(Judged {
        programs,
        refusals,
        unbuilt,
        unknown,
    })
}

/// Builds the new project in memory.
fn judge(alloc: Global, project: &NewProject<'_>) -> Result<Judged, Memory> {
    let files = project.files.as_slice();
    let aliases = project.headers.aliases.as_slice();
    let sources = sources_of(alloc, files, aliases)?;
    let paths = paths_of(alloc, files, aliases)?;
    let named = Named {
        sources: sources.as_slice(),
        paths: paths.as_slice(),
    };
    judge_under(alloc, project, named)
}

/// The report on a new project, with these lines about files that were edited by hand.
fn report_of<'r>(project: &'r NewProject<'r>, judged: &'r Judged, edited: &'r str) -> Report<'r> {
    Report {
        dialect: &project.dialect,
        is_further: project.is_further,
        files: project.files.as_slice(),
        others: project.others.as_slice(),
        missing: project.headers.missing.as_slice(),
        shared: project.shared,
        unknown: judged.unknown.rows.as_slice(),
        refusals: judged.refusals.as_slice(),
        programs: judged.programs.as_slice(),
        unbuilt: judged.unbuilt.as_slice(),
        edited,
    }
}

/// Builds the new project in memory, writes it, and prints what was done.
fn write_project<F: Files, O: Write + Drop>(
    rt: &F,
    alloc: Global,
    order: &ConvertOrder<'_>,
    project: &NewProject<'_>,
    out: &mut O,
) -> Result<(), Failure> {
    let judged = judge(alloc, project)?;
    let files = project.files.as_slice();
    let parts = Parts {
        files,
        aliases: project.headers.aliases.as_slice(),
        is_further: project.is_further,
    };
    let script = script_of(alloc, judged.programs.as_slice(), parts)?;
    let mut folder = ResultFolder::open(rt, alloc, order, folder_of(order))?;
    let without_report = Texts::new(files, script.as_str(), "", "");
    let (fates, edited) = fates_in(rt, alloc, &folder, without_report)?;
    let report = report_of(project, &judged, edited.as_str());
    let pages = page_of(alloc, &report)?;
    let report_text = pages.markdown.as_str();
    let texts = Texts::new(files, script.as_str(), report_text, pages.html.as_str());
    write_texts(rt, alloc, &mut folder, texts, fates.as_slice())?;
    print_summary(alloc, &report, folder_of(order), out)?;
    tell_left(alloc, order, &report)
}

/// These options, with one decision on `*(` in all files: if one of them assigns to a subscript with a star, it is a
/// subscript in each.
fn as_one_dialect<'o, 'd>(options: Options<'o, 'd>) -> Options<'o, 'd> {
    match options.program {
        Some(program) if options.system.is_none() && program.has_stars => Options {
            system: Some(System::Of1967),
            ..options
        },
        _ => options,
    }
}

/// Old files, with what is known of them before any is converted.
#[derive(Drop)]
struct ReadFiles {
    files: Vec<OldFile>,
    texts: Vec<Vec<u8>>,
    /// The texts with the tags of conditional compilation decided.
    compiled: Vec<Vec<u8>>,
    headers: Headers,
}

/// Reads these files as sources, where these tags of conditional compilation are set.
fn read_files(alloc: Global, defines: &[&str], files: Vec<OldFile>) -> Result<ReadFiles, Memory> {
    let texts = texts_of(alloc, files.as_slice(), &[])?;
    let compiled = compiled_texts(alloc, defines, texts.as_slice())?;
    let headers = headers_of(alloc, files.as_slice(), compiled.as_slice())?;
    Ok(ReadFiles {
        files,
        texts,
        compiled,
        headers,
    })
}

/// What the files of a project are converted by.
#[derive(Clone, Copy)]
struct By<'b, 'a> {
    order: &'b ConvertOrder<'a>,
    /// The text of the list of names.
    list: &'b [u8],
}

/// The conversions of files by these names in the first round.
fn converted_first<F: Files>(
    rt: &F,
    alloc: Global,
    read: &ReadFiles,
    library: &OldNames<'_>,
    round: Round<'_>,
) -> Result<Vec<Converted>, Memory> {
    let shown = Shown::by(alloc, read.compiled.as_slice(), library)?;
    let lawful = lawful_of(rt, alloc, read, round)?;
    let options = as_one_dialect(shown.options(round, library));
    first_round(alloc, read.texts.as_slice(), lawful.as_slice(), options)
}

/// A file with this text in place of its own.
fn file_with(alloc: Global, file: &OldFile, text: &[u8]) -> Result<OldFile, Memory> {
    Ok(OldFile {
        name: String::from_str(alloc, file.name.as_str())?,
        beside: String::from_str(alloc, file.beside.as_str())?,
        source: String::from_str(alloc, file.source.as_str())?,
        lines_before: 0,
        text: Vec::from_slice(alloc, text)?,
    })
}

/// For each of these conversions whether a second command takes its text for a source.
fn are_sources(alloc: Global, converted: &[Converted]) -> Result<Vec<bool>, Memory> {
    let mut found = Vec::new(alloc);
    for one in converted {
        found.push(is_source(alloc, one.text())?)?;
    }
    Ok(found)
}

/// Those of these files that are still sources, with the texts of their conversions.
fn files_up_to_here(
    alloc: Global,
    files: &[OldFile],
    converted: &[Converted],
    sources: &[bool],
) -> Result<Vec<OldFile>, Memory> {
    let mut new = Vec::new(alloc);
    for ((file, one), is_kept) in files.iter().zip(converted).zip(sources) {
        if *is_kept {
            new.push(file_with(alloc, file, one.text())?)?;
        }
    }
    Ok(new)
}

/// For each file whether it builds as it is, where `read` has those that are still sources. The others stay as they are.
fn lawful_for_all<F: Files>(
    rt: &F,
    alloc: Global,
    read: &ReadFiles,
    round: Round<'_>,
    sources: &[bool],
) -> Result<Vec<Lawful>, Memory> {
    let lawful = lawful_of(rt, alloc, read, round)?;
    let mut all = Vec::new(alloc);
    let mut number: usize = 0;
    for is_kept in sources {
        if *is_kept {
            all.push(lawful.get(number).copied().unwrap_or(Lawful::No))?;
            number = number.saturating_add(1);
        } else {
            all.push(Lawful::Whole)?;
        }
    }
    Ok(all)
}

/// The files of a further round as they are read, and which of all files build.
#[derive(Clone, Copy)]
struct Further<'f> {
    read: &'f ReadFiles,
    lawful: &'f [Lawful],
}

/// A further round by these names. Returns whether it changes a text.
fn convert_by(
    alloc: Global,
    round: Round<'_>,
    library: &OldNames<'_>,
    further: Further<'_>,
    converted: &mut [Converted],
) -> Result<bool, Memory> {
    let shown = Shown::by(alloc, further.read.compiled.as_slice(), library)?;
    let options = as_one_dialect(shown.options(round, library));
    further_round(alloc, converted, further.lawful, options)
}

/// A further round. Returns whether it changes a text.
fn convert_with(
    alloc: Global,
    by: By<'_, '_>,
    further: Further<'_>,
    converted: &mut [Converted],
) -> Result<bool, Memory> {
    let shared = shared_names(alloc, further.read.files.as_slice())?;
    let mut names = renamings(alloc, by.list)?;
    add_shared(&mut names.list, shared.as_slice())?;
    let round = Round::first(by.order).next();
    convert_by(alloc, round, &names.list, further, converted)
}

/// Converts the texts of these files once more. Returns whether that changes one.
fn convert_again<F: Files>(
    rt: &F,
    alloc: Global,
    by: By<'_, '_>,
    files: &[OldFile],
    converted: &mut [Converted],
) -> Result<bool, Memory> {
    let round = Round::first(by.order).next();
    let sources = are_sources(alloc, converted)?;
    let files = files_up_to_here(alloc, files, converted, sources.as_slice())?;
    let read = read_files(alloc, round.defines, files)?;
    let lawful = lawful_for_all(rt, alloc, &read, round, sources.as_slice())?;
    if !may_change_any(lawful.as_slice()) {
        return Ok(false);
    }
    let further = Further {
        read: &read,
        lawful: lawful.as_slice(),
    };
    convert_with(alloc, by, further, converted)
}

/// The conversions of files by these names, in as many rounds as change something.
fn converted_in_rounds<F: Files>(
    rt: &F,
    alloc: Global,
    by: By<'_, '_>,
    read: &ReadFiles,
    library: &OldNames<'_>,
) -> Result<Vec<Converted>, Memory> {
    let round = Round::first(by.order);
    let mut converted = converted_first(rt, alloc, read, library, round)?;
    if !needs_another_round(round, converted.as_slice()) {
        return Ok(converted);
    }
    let files = read.files.as_slice();
    for _ in 0..MOST_ROUNDS {
        if !convert_again(rt, alloc, by, files, converted.as_mut_slice())? {
            break;
        }
    }
    Ok(converted)
}

/// Converts these files with these names.
fn converted<F: Files>(
    rt: &F,
    alloc: Global,
    by: By<'_, '_>,
    files: Vec<OldFile>,
    library: &OldNames<'_>,
) -> Result<(Vec<NewFile>, Headers, ShownDialect), Memory> {
    let read = read_files(alloc, by.order.defines.as_slice(), files)?;
    let conversions = converted_in_rounds(rt, alloc, by, &read, library)?;
    let dialect = dialect_of(alloc, by.order, read.compiled.as_slice(), library)?;
    let ReadFiles { files, headers, .. } = read;
    let new = new_files(alloc, files, conversions, headers.is_header.as_slice())?;
    Ok((new, headers, dialect))
}

/// The folder of the result.
fn folder_of<'a>(order: &ConvertOrder<'a>) -> &'a str {
    match order.to {
        ConvertTo::File(folder) | ConvertTo::Folder(folder) => folder,
        ConvertTo::Standard | ConvertTo::Source => ".",
    }
}

/// Converts the sources of folders, or these files, as one program, and writes the result to a folder with a script that
/// builds it and a report. Files that aren't sources are left out.
///
/// # Errors
///
/// Fails if a file can't be read or written, if there is no source, if a file would be lost, if an allocation fails, or if
/// something is left to do by hand. In the last case everything is written.
pub fn convert_project<F: Files, O: Write + Drop>(
    rt: &F,
    alloc: Global,
    order: &ConvertOrder<'_>,
    out: &mut O,
) -> Result<(), Failure> {
    let list = list_text(rt, alloc, order)?;
    let OldProject { files, others } = old_project(rt, alloc, order.files.as_slice())?;
    let shared = shared_names(alloc, files.as_slice())?;
    let mut names = renamings(alloc, list.as_slice())?;
    refuse_list(alloc, order, list.as_slice(), &names)?;
    add_shared(&mut names.list, shared.as_slice())?;
    spare_files(rt, alloc, folder_of(order), files.as_slice())?;
    make_folder(rt, alloc, folder_of(order))?;
    let by = By {
        order,
        list: list.as_slice(),
    };
    let (files, headers, dialect) = converted(rt, alloc, by, files, &names.list)?;
    let is_further = needs_further(alloc, files.as_slice())?;
    let project = NewProject {
        files,
        others,
        headers,
        shared: shared.as_slice(),
        dialect,
        is_further,
    };
    write_project(rt, alloc, order, &project, out)
}
