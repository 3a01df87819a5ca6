//! The page as a whole: its template, which has its text, style and script, and its data.

use crate::file::{add_file, add_sources, lines_of};
use crate::html::Html;
use crate::parts::{TO_DATA, TO_END, TO_ENTRIES, TO_PATH, TO_WORDS};
use bc_word::Memory;
use bcpl_show::CodeListing;
use std::alloc::Global;

/// The result of checking the program's certificate.
#[derive(Clone, Copy, PartialEq, Eq)]
pub struct Checked {
    /// The number of entries.
    pub entries: u64,
    /// The sum of their words.
    pub words: u64,
}

/// The path of the first file.
fn path_of<'a>(programs: &[CodeListing<'a, '_>]) -> &'a str {
    match programs.first() {
        Some(program) => program.files.path(program.main),
        None => "",
    }
}

/// Adds the sources and the files of a program as JSON.
fn add_files(html: &mut Html, programs: &[CodeListing<'_, '_>]) {
    let Some(first) = programs.first() else {
        return html.mark("{\"sources\":[],\"files\":[]}");
    };
    let Ok(lines) = lines_of(html.alloc(), first.files) else {
        return html.refuse();
    };
    html.mark("{\"sources\":");
    add_sources(html, first.files, lines.as_slice());
    html.mark(",\"files\":[");
    for (index, program) in programs.iter().enumerate() {
        html.separate(index);
        add_file(html, *program, lines.as_slice());
    }
    html.mark("]}");
}

/// The page on these files of one program, whose certificate was accepted: each source line with its code, the tree
/// of each root with the rules that apply, the sizes of routines, the uses of rules, and what is proved and was
/// checked. The page refers to nothing outside it. `Memory` if an allocation fails.
pub fn explanation(
    alloc: Global,
    programs: &[CodeListing<'_, '_>],
    checked: Checked,
) -> Result<Vec<u8>, Memory> {
    let mut html = Html::new(alloc);
    add_page(&mut html, programs, checked);
    html.into_text()
}

/// Adds the whole page.
fn add_page(html: &mut Html, programs: &[CodeListing<'_, '_>], checked: Checked) {
    html.template(TO_PATH);
    html.tell(path_of(programs));
    html.template(TO_ENTRIES);
    html.number(checked.entries);
    html.template(TO_WORDS);
    html.number(checked.words);
    html.template(TO_DATA);
    add_files(html, programs);
    html.template(TO_END);
}
