//! The report on a conversion.

use crate::changes::{KINDS, counts_of};
use crate::files::count_lines;
use crate::folder::{SCRIPT, TITLE};
use crate::headers::Missing;
use crate::new_files::NewFile;
use crate::page::{Page, Pages, Part};
use crate::places::{Place, places_of};
use crate::programs::{ProjectProgram, Refusal};
use crate::renames::Renamed;
use crate::texts::as_text;
use crate::unknown::UnknownName;
use bc_word::Memory;
use std::alloc::Global;

/// How many files show a property of a dialect.
#[derive(Drop)]
pub struct ShownDialect {
    /// The system that the user named.
    pub named: Option<&'static str>,
    pub small_words: usize,
    pub small_library: usize,
    pub stars: usize,
    pub quoted_strings: usize,
}

/// What a report is about.
#[derive(Drop)]
pub struct Report<'r> {
    pub dialect: &'r ShownDialect,
    pub is_further: bool,
    pub files: &'r [NewFile],
    /// The names of files that are no sources.
    pub others: &'r [String],
    pub missing: &'r [Missing],
    pub shared: &'r [Renamed],
    pub unknown: &'r [UnknownName],
    /// Why each file doesn't build; `None` if it does.
    pub refusals: &'r [Option<Refusal>],
    pub programs: &'r [ProjectProgram],
    /// Why each program doesn't build; `None` if it does.
    pub unbuilt: &'r [Option<Refusal>],
    /// The lines about files that were edited by hand.
    pub edited: &'r str,
}

/// How much is left to do by hand.
#[derive(Clone, Copy)]
pub struct Left {
    pub places: usize,
    pub names: usize,
    pub headers: usize,
    /// Files and programs that don't build for a reason that the other lists don't have.
    pub refused: usize,
    /// Files that were edited by hand, and stay.
    pub edited: usize,
}

impl Left {
    /// How much that is in all.
    pub fn count(&self) -> usize {
        let listed = self.places.saturating_add(self.names);
        listed
            .saturating_add(self.headers)
            .saturating_add(self.refused)
            .saturating_add(self.edited)
    }
}

/// How many of these are refused for a reason that isn't listed elsewhere.
fn count_refused(refusals: &[Option<Refusal>], only_of_linking: bool) -> usize {
    let mut count: usize = 0;
    for refusal in refusals {
        if let Some(refusal) = refusal
            && !refusal.is_listed
            && (refusal.is_of_linking || !only_of_linking)
        {
            count = count.saturating_add(1);
        }
    }
    count
}

impl Report<'_> {
    /// How much is left to do by hand.
    pub fn left(&self) -> Left {
        let mut places: usize = 0;
        for file in self.files {
            places = places.saturating_add(file.conversion.complaints.len());
        }
        let files = count_refused(self.refusals, false);
        Left {
            places,
            names: self.unknown.len(),
            headers: self.missing.len(),
            refused: files.saturating_add(count_refused(self.unbuilt, true)),
            edited: count_lines(self.edited.as_bytes()),
        }
    }

    /// The name of the file with this index.
    fn name(&self, index: usize) -> &str {
        match self.files.get(index) {
            Some(file) => file.name(),
            None => "",
        }
    }

    /// Why the file with this index doesn't build.
    fn refusal(&self, index: usize) -> Option<&Refusal> {
        match self.refusals.get(index) {
            Some(Some(refusal)) => Some(refusal),
            _ => None,
        }
    }

    /// Whether the program with this index is built.
    fn is_built(&self, index: usize) -> bool {
        matches!(self.unbuilt.get(index), Some(None))
    }
}

/// Adds how many files show something, if one does.
fn add_shown(page: &mut Page, what: &str, count: usize, files: usize) {
    if count == 0 {
        return;
    }
    page.row(&[Part::Text(what), Part::Number(count), Part::Number(files)]);
}

/// Adds what the files show of their dialect, if they show something.
fn add_shown_table(page: &mut Page, dialect: &ShownDialect, count: usize) {
    let shown = [
        ("reserved words in lower case", dialect.small_words),
        ("library names in lower case", dialect.small_library),
        ("assignments to subscripts with a star", dialect.stars),
        ("strings in single quotes", dialect.quoted_strings),
    ];
    if shown.iter().all(|row| row.1 == 0) {
        page.paragraph(&[Part::Text(
            "The files show nothing that is special to an older dialect.",
        )]);
        return;
    }
    page.table(&["What shows", "Files", "Of"]);
    for (what, shown) in shown {
        add_shown(page, what, shown, count);
    }
    page.end_table();
}

/// Adds what is known of the dialect.
fn add_dialect(page: &mut Page, report: &Report<'_>) {
    let dialect = report.dialect;
    page.heading(2, &[Part::Text("Dialect and library")]);
    match dialect.named {
        Some(named) => page.paragraph(&[
            Part::Text("All files were read in the dialect that was named: "),
            Part::Text(named),
            Part::Text("."),
        ]),
        None => page.paragraph(&[Part::Text(
            "No dialect was named, so all files were read in the one that they show together. Name another one by --dialect.",
        )]),
    }
    add_shown_table(page, dialect, report.files.len());
    if dialect.named.is_none() && dialect.stars > 0 {
        page.paragraph(&[
            Part::Text("A file assigns to a subscript with a star, so "),
            Part::Code("*("),
            Part::Text(" is taken for a subscript in all files that don't build as they are."),
        ]);
    }
    add_header(page, report);
}

/// Adds which header of the library the files get.
fn add_header(page: &mut Page, report: &Report<'_>) {
    let header = if report.is_further {
        "EXTHDR, so it is built with EXTLIB"
    } else {
        "LIBHDR"
    };
    page.paragraph(&[
        Part::Text("The library's header in all files is "),
        Part::Text(header),
        Part::Text("."),
    ]);
}

/// Where a file was in the old sources.
fn old_place(alloc: Global, file: &NewFile) -> Result<String, Memory> {
    let first = file.old.lines_before.saturating_add(1);
    let source = file.old.source.as_str();
    Ok(format!(in alloc; "{source}, from line {first}")?)
}

/// What a file is.
fn kind_of(file: &NewFile) -> &'static str {
    if file.is_header {
        "header"
    } else if file.has_start {
        "with START"
    } else {
        "part"
    }
}

/// Adds the row of a file, which was at this place.
fn add_file_row<'x>(page: &mut Page, file: &'x NewFile, place: &'x str, builds: &'x str) {
    page.row(&[
        Part::Line(file.name(), 1),
        Part::Text(place),
        Part::Text(kind_of(file)),
        Part::Number(file.conversion.replacements.len()),
        Part::Number(file.conversion.complaints.len()),
        Part::Text(builds),
    ]);
}

/// Adds the table of files.
fn add_files(alloc: Global, page: &mut Page, report: &Report<'_>) -> Result<(), Memory> {
    page.heading(2, &[Part::Text("Files")]);
    page.table(&[
        "File",
        "Old source",
        "Kind",
        "Changes",
        "Doubtful places",
        "Builds",
    ]);
    for (index, file) in report.files.iter().enumerate() {
        let place = old_place(alloc, file)?;
        let builds = if report.refusal(index).is_some() {
            "no"
        } else {
            "yes"
        };
        add_file_row(page, file, place.as_str(), builds);
    }
    page.end_table();
    for other in report.others {
        page.paragraph(&[
            Part::Code(other.as_str()),
            Part::Text(" isn't taken for a source, and was left out."),
        ]);
    }
    Ok(())
}

/// Whether a program is built, and how.
fn how_it_builds(is_built: bool, program: &ProjectProgram) -> &'static str {
    match (is_built, program.is_lean, program.is_alone) {
        (true, true, true) => {
            "yes, by itself, and with --lean: its own routines replace the library's"
        }
        (true, true, false) => "yes, with --lean: its own routines replace the library's",
        (true, false, true) => "yes, by itself",
        (true, false, false) => "yes",
        (false, _, _) => "no",
    }
}

/// Adds the table of programs.
fn add_programs(page: &mut Page, report: &Report<'_>) {
    page.heading(2, &[Part::Text("Programs")]);
    page.paragraph(&[
        Part::Text("The script "),
        Part::Code(SCRIPT),
        Part::Text(
            " builds them. Each file with START is a program, together with all files that have none and are no headers.",
        ),
        Part::Text(
            " A program that can't be built so, and names no routine of these files, is built by itself.",
        ),
    ]);
    page.table(&["Text", "START in", "Builds"]);
    for (index, program) in report.programs.iter().enumerate() {
        let start = match program.start {
            Some(file) => report.name(file),
            None => "no file: a run does nothing",
        };
        page.row(&[
            Part::Code(program.name.as_str()),
            Part::Text(start),
            Part::Text(how_it_builds(report.is_built(index), program)),
        ]);
    }
    page.end_table();
    for refusal in report.unbuilt {
        if let Some(refusal) = refusal
            && refusal.is_of_linking
        {
            page.lines(refusal.lines.as_str());
        }
    }
}

/// Adds the headers that weren't found.
fn add_missing(page: &mut Page, report: &Report<'_>) {
    if report.missing.is_empty() {
        return;
    }
    page.heading(3, &[Part::Text("Headers that weren't found")]);
    page.table(&["Name after GET", "In"]);
    for missing in report.missing {
        page.row(&[
            Part::Code(missing.name.as_str()),
            Part::Text(report.name(missing.file)),
        ]);
    }
    page.end_table();
}

/// Adds the names that nothing declares.
fn add_unknown(page: &mut Page, report: &Report<'_>) {
    if report.unknown.is_empty() {
        return;
    }
    page.heading(3, &[Part::Text("Names that nothing declares")]);
    page.paragraph(&[Part::Text(
        "Headers that weren't found may declare some of them. Files that the compiler can't read yet may have further ones.",
    )]);
    page.table(&["Name", "First places", "What it may be"]);
    for unknown in report.unknown {
        page.row(&[
            Part::Code(unknown.name.as_str()),
            Part::Text(unknown.places.as_str()),
            Part::Text(unknown.meaning.as_str()),
        ]);
    }
    page.end_table();
}

/// Adds what is left to do by hand.
fn add_left(page: &mut Page, report: &Report<'_>) {
    let left = report.left();
    page.heading(2, &[Part::Text("Left to do by hand")]);
    if left.count() == 0 {
        page.paragraph(&[Part::Text("Nothing.")]);
        return;
    }
    page.table(&["What", "How many"]);
    page.row(&[
        Part::Text("doubtful places, listed with each file below"),
        Part::Number(left.places),
    ]);
    page.row(&[
        Part::Text("names that nothing declares"),
        Part::Number(left.names),
    ]);
    page.row(&[
        Part::Text("headers that weren't found"),
        Part::Number(left.headers),
    ]);
    page.row(&[
        Part::Text("files and programs that don't build for other reasons"),
        Part::Number(left.refused),
    ]);
    page.end_table();
    if left.edited > 0 {
        page.lines(report.edited);
    }
    add_missing(page, report);
    add_unknown(page, report);
}

/// Adds the names that were renamed in all files alike.
fn add_renamed(alloc: Global, page: &mut Page, report: &Report<'_>) -> Result<(), Memory> {
    if report.shared.is_empty() {
        return Ok(());
    }
    page.heading(2, &[Part::Text("Names that would have become the same")]);
    page.paragraph(&[Part::Text(
        "Underlines become dots. These names differ only in that, and have in all files the new name that is given here.",
    )]);
    page.table(&["Old name", "New name"]);
    for renamed in report.shared {
        let old = as_text(alloc, renamed.old.as_slice())?;
        let new = as_text(alloc, renamed.new.as_slice())?;
        page.row(&[Part::Code(old.as_str()), Part::Code(new.as_str())]);
    }
    page.end_table();
    Ok(())
}

/// Adds what was changed in a file, by kind.
fn add_changes(alloc: Global, page: &mut Page, file: &NewFile) -> Result<(), Memory> {
    let replacements = file.conversion.replacements.as_slice();
    if replacements.is_empty() {
        page.paragraph(&[Part::Text("Unchanged, byte for byte.")]);
        return Ok(());
    }
    page.table(&["Changes", "How many"]);
    let counts = counts_of(alloc, file.old.text.as_slice(), replacements)?;
    for (kind, count) in KINDS.iter().zip(&counts) {
        if *count > 0 {
            page.row(&[Part::Text(kind), Part::Number(*count)]);
        }
    }
    page.end_table();
    Ok(())
}

/// Adds a doubtful place.
fn add_place(alloc: Global, page: &mut Page, file: &NewFile, place: &Place) -> Result<(), Memory> {
    let fault = place.fault;
    let fault = format!(in alloc; ": {fault}")?;
    page.paragraph(&[
        Part::Line(file.name(), place.new_line),
        Part::Text(fault.as_str()),
    ]);
    let old_line = place.old_line;
    let before = place.before.as_str();
    let after = place.after.as_str();
    let help = place.fault.remedy();
    let lines = format!(in alloc;
        "line {old_line} was: {before}\nis now: {after}\nhelp: {help}\n"
    )?;
    page.lines(lines.as_str());
    Ok(())
}

/// Adds the section of a file.
fn add_file(
    alloc: Global,
    page: &mut Page,
    report: &Report<'_>,
    index: usize,
    file: &NewFile,
) -> Result<(), Memory> {
    page.heading(2, &[Part::Text(file.name())]);
    add_changes(alloc, page, file)?;
    for place in &places_of(alloc, file)? {
        add_place(alloc, page, file, place)?;
    }
    if let Some(refusal) = report.refusal(index) {
        page.paragraph(&[Part::Text("It doesn't build yet:")]);
        page.lines(refusal.lines.as_str());
    }
    Ok(())
}

/// Writes a report.
///
/// # Errors
///
/// `Memory` if an allocation failed.
pub fn page_of(alloc: Global, report: &Report<'_>) -> Result<Pages, Memory> {
    let mut page = Page::new(alloc, TITLE);
    page.paragraph(&[Part::Text(
        "What bcpl convert --project made of old sources. Line numbers of links are those of the new files.",
    )]);
    add_files(alloc, &mut page, report)?;
    add_programs(&mut page, report);
    add_dialect(&mut page, report);
    add_left(&mut page, report);
    add_renamed(alloc, &mut page, report)?;
    for (index, file) in report.files.iter().enumerate() {
        add_file(alloc, &mut page, report, index, file)?;
    }
    page.finish()
}
