//! What the page knows about a file that is explained: its leaves, its code, and its roots.

use crate::html::{Fragment, Html};
use crate::nodes::{add_derivation, add_nodes};
use crate::runs::{Run, runs};
use bc_candidates::candidates;
use bc_core::Root;
use bc_lex_tokens::Token;
use bc_rules::code_of;
use bc_rules_defs::Entry;
use bc_text_items::Item;
use bc_word::Memory;
use bcpl_show::{
    CodeListing, Files, Lines, Marks, Outline, Owner, RootLeaves, ShownItem, leaves_of,
    words_of_items, words_of_pieces,
};
use std::alloc::Global;

/// The lines of all sources of a program.
pub fn lines_of(alloc: Global, files: Files<'_, '_>) -> Result<Vec<Lines>, Memory> {
    let mut lines = Vec::new(alloc);
    for source in files.sources {
        lines.push(Lines::new(alloc, source.text)?)?;
    }
    Ok(lines)
}

/// Adds the path and the lines of a source as JSON.
fn add_source(html: &mut Html, files: Files<'_, '_>, lines: &Lines, file: usize) {
    html.all(&[
        Fragment::Mark("{\"path\":"),
        Fragment::Quoted(files.path(file).as_bytes()),
        Fragment::Mark(",\"lines\":["),
    ]);
    let text = files.text(file);
    for number in 0..lines.count(text) {
        html.separate(number);
        html.quoted(lines.line(text, number.saturating_add(1)));
    }
    html.mark("]}\n");
}

/// Adds the sources of a program as JSON. A source of the library is `null`, since none of its lines has code here.
pub fn add_sources(html: &mut Html, files: Files<'_, '_>, lines: &[Lines]) {
    html.mark("[");
    for (file, of_file) in lines.iter().enumerate() {
        html.separate(file);
        if files.is_of_library(file) {
            html.mark("null");
        } else {
            add_source(html, files, of_file, file);
        }
    }
    html.mark("]");
}

/// Adds the place of a leaf in its file: the line, the number of bytes that precede it in the line, and its own number
/// of bytes.
fn add_leaf(html: &mut Html, files: Files<'_, '_>, lines: &Lines, leaf: &Token<'_>) {
    html.all(&[
        Fragment::Number(lines.number_at(leaf.start) as u64),
        Fragment::Mark(","),
        Fragment::Number(lines.bytes_before(files.text(leaf.file), leaf.start) as u64),
        Fragment::Mark(","),
        Fragment::Number(leaf.text.len() as u64),
    ]);
}

/// Adds the leaves of a section as JSON: three numbers each, or 0 for a leaf in the library. Where the file changes,
/// its index and 1 are there as a negative number.
fn add_leaves(html: &mut Html, files: Files<'_, '_>, lines: &[Lines], leaves: &[Token<'_>]) {
    let mut file = usize::MAX;
    html.mark("[");
    for (index, leaf) in leaves.iter().enumerate() {
        html.separate(index);
        match lines.get(leaf.file) {
            Some(of_file) if !files.is_of_library(leaf.file) => {
                if leaf.file != file {
                    file = leaf.file;
                    html.all(&[
                        Fragment::Mark("-"),
                        Fragment::Number((file as u64).saturating_add(1)),
                        Fragment::Mark(","),
                    ]);
                }
                add_leaf(html, files, of_file, leaf);
            }
            _ => html.mark("0"),
        }
    }
    html.mark("]");
}

/// Adds the first leaf of each TABLE and VALOF with the leaf after it, as one list of numbers.
fn add_extents(html: &mut Html, extents: &[(usize, usize)]) {
    html.mark("[");
    for (index, extent) in extents.iter().enumerate() {
        let (from, to) = *extent;
        html.separate(index);
        html.all(&[
            Fragment::Number(from as u64),
            Fragment::Mark(","),
            Fragment::Number(to as u64),
        ]);
    }
    html.mark("]");
}

/// Adds items as a JSON string, separated by blanks.
fn add_items(html: &mut Html, items: &[Item]) {
    html.mark("\"");
    for (index, item) in items.iter().enumerate() {
        if index > 0 {
            html.mark(" ");
        }
        let shown = ShownItem(item);
        match format!(in html.alloc(); "{shown}") {
            Ok(text) => html.mark(text.as_str()),
            Err(_) => html.refuse(),
        }
    }
    html.mark("\"");
}

/// The form of a root, as the beginning of its list: a value, a test that jumps on true or on false, or an assignment;
/// and its level.
fn head_of(root: &Root) -> (&'static str, u16) {
    match root {
        Root::Value { level, .. } => ("[\"V\",", *level),
        Root::Test {
            sense: true,
            level,
            ..
        } => ("[\"T\",", *level),
        Root::Test { level, .. } => ("[\"F\",", *level),
        Root::Assign { level, .. } => ("[\"A\",", *level),
    }
}

/// Adds the leaf at which the code of a root is shown, and those that it is translated from: where its value begins,
/// where the address begins or -1, and whether the source spells the value.
fn add_reading(html: &mut Html, leaf: usize, reading: RootLeaves) {
    html.all(&[
        Fragment::Mark(",["),
        Fragment::Number(leaf as u64),
        Fragment::Mark(","),
        Fragment::Number(reading.value as u64),
    ]);
    match reading.address {
        Some(leaf) => html.all(&[Fragment::Mark(","), Fragment::Number(leaf as u64)]),
        None => html.mark(",-1"),
    }
    html.mark(if reading.is_written { ",1]" } else { ",0]" });
}

/// Adds an entry's form, level, labels and words.
fn add_numbers(html: &mut Html, entry: &Entry, words: u64) {
    let (form, level) = head_of(&entry.root);
    html.all(&[
        Fragment::Mark(form),
        Fragment::Number(u64::from(level)),
        Fragment::Mark(","),
        Fragment::Number(u64::from(entry.target)),
        Fragment::Mark(","),
        Fragment::Number(u64::from(entry.first)),
        Fragment::Mark(","),
        Fragment::Number(words),
    ]);
}

/// Adds an entry: its numbers, its leaves, its derivation, and its nodes with all rules that apply.
fn add_entry(html: &mut Html, entry: &Entry, leaf: usize, reading: RootLeaves) {
    let found = words_of(html.alloc(), entry);
    let words = html.counted(found);
    add_numbers(html, entry, words);
    add_reading(html, leaf, reading);
    html.mark(",\"");
    add_derivation(html, &entry.derivation);
    html.mark("\",");
    match candidates(html.alloc(), &entry.root) {
        Ok(of_nodes) => add_nodes(html, &entry.root, of_nodes.as_slice()),
        Err(_) => html.refuse(),
    }
    html.mark("]");
}

/// The size of an entry's code, in words.
fn words_of(alloc: Global, entry: &Entry) -> Result<u64, Memory> {
    let pieces = code_of(
        alloc,
        &entry.root,
        &entry.derivation,
        entry.target,
        entry.first,
    )?;
    Ok(words_of_pieces(pieces.as_slice()))
}

/// Adds the entries of a file.
fn add_entries(html: &mut Html, entries: &[Entry], marks: &Marks) {
    html.mark("[");
    for (index, entry) in entries.iter().enumerate() {
        html.separate(index);
        match (marks.leaves.get(index), marks.readings.get(index)) {
            (Some(leaf), Some(reading)) => add_entry(html, entry, *leaf, *reading),
            _ => html.mark("null"),
        }
        html.mark("\n");
    }
    html.mark("]");
}

/// Adds what a run belongs to: a root with its index and whether this is its first run; a command with its leaf and
/// what it does; or the section.
fn add_owner(html: &mut Html, run: Run, marks: &Marks) {
    match run.owner {
        Owner::Root(index) => html.all(&[
            Fragment::Mark("[\"r\","),
            Fragment::Number(index as u64),
            Fragment::Mark(if run.is_first { ",1," } else { ",0," }),
        ]),
        Owner::Command(index) => {
            if let Some(own) = marks.own.get(index) {
                html.all(&[
                    Fragment::Mark("[\"c\","),
                    Fragment::Number(own.leaf as u64),
                    Fragment::Mark(","),
                    Fragment::Quoted(own.what.words().as_bytes()),
                    Fragment::Mark(","),
                ]);
            }
        }
        Owner::Section => html.mark("[\"d\",0,0,"),
    }
}

/// Adds the runs of a file's code, each with its items and its words.
fn add_runs(html: &mut Html, runs: &[Run], items: &[Item], marks: &Marks) {
    html.mark("[");
    for (index, run) in runs.iter().enumerate() {
        html.separate(index);
        add_owner(html, *run, marks);
        let of_run = items.get(run.from..run.to).unwrap_or(&[]);
        let found = words_of_items(html.alloc(), of_run);
        let words = html.counted(found);
        html.all(&[Fragment::Number(words), Fragment::Mark(",")]);
        add_items(html, of_run);
        html.mark("]\n");
    }
    html.mark("]");
}

/// Adds a file's leaves and places.
fn add_text(html: &mut Html, program: CodeListing<'_, '_>, lines: &[Lines], outline: &Outline) {
    let Ok(leaves) = leaves_of(html.alloc(), program.tokens) else {
        return html.refuse();
    };
    html.all(&[
        Fragment::Mark("{\"file\":"),
        Fragment::Number(program.main as u64),
        Fragment::Mark(",\"leaves\":"),
    ]);
    add_leaves(html, program.files, lines, leaves.as_slice());
    html.mark(",\"places\":");
    html.numbers(outline.places.as_slice());
    html.mark(",\"extents\":");
    add_extents(html, outline.extents.as_slice());
}

/// Adds a file's code and roots.
fn add_code(html: &mut Html, program: CodeListing<'_, '_>, marks: &Marks) {
    let Ok(runs) = runs(html.alloc(), marks, program.entries) else {
        return html.refuse();
    };
    html.mark(",\"runs\":");
    add_runs(html, runs.as_slice(), program.items, marks);
    html.mark(",\"roots\":");
    add_entries(html, program.entries, marks);
    html.mark("}\n");
}

/// Adds what the page knows about a file, as JSON.
pub fn add_file(html: &mut Html, program: CodeListing<'_, '_>, lines: &[Lines]) {
    let alloc = html.alloc();
    let Ok(outline) = Outline::new(alloc, program.section) else {
        return html.refuse();
    };
    let Ok(marks) = Marks::new(alloc, &outline, program.items.len(), program.entries) else {
        return html.refuse();
    };
    add_text(html, program, lines, &outline);
    add_code(html, program, &marks);
}
