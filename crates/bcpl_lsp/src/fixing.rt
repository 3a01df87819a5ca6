//! Edits that mend what a finding's help names.

use crate::document::Document;
use crate::finding::{Finding, diagnostic};
use crate::json_values::{JsonArray, JsonObject};
use crate::looking::changes_of;
use bc_word::Memory;
use serde_json::Value;
use std::alloc::Global;

/// The header that LIBHDR's names need.
const BASIC: &str = "GET \"LIBHDR\"";

/// The header that EXTHDR's names need.
const FURTHER: &str = "GET \"EXTHDR\"";

/// The help on `=` instead of `:=`.
const WRITE_ASSIGN: &str = "to assign, write :=";

/// The help on `:=` instead of `=`.
const WRITE_EQUAL: &str = "write =";

/// What comes before a similar name in a help.
const MEANT: &str = "did you mean ";

/// What comes before a similar name of the library in a sentence.
const LIBRARY_HAS: &str = "; the library has ";

/// A replacement.
#[derive(Clone, Copy)]
struct Fix<'t> {
    start: usize,
    end: usize,
    text: &'t str,
    /// What comes after the text.
    after: &'t str,
}

/// Whether the byte at this offset is `=` and no part of another sign.
fn is_equal(text: &[u8], offset: usize) -> bool {
    let before = match offset.checked_sub(1) {
        Some(before) => text.get(before).copied(),
        None => None,
    };
    text.get(offset).copied() == Some(b'=') && !matches!(before, Some(b':' | b'<' | b'>' | b'~'))
}

/// The last `=` before an offset.
fn equal_before(text: &[u8], offset: usize) -> Option<usize> {
    for at in (0..offset.min(text.len())).rev() {
        if is_equal(text, at) {
            return Some(at);
        }
    }
    None
}

/// The first `=` from one offset to another one.
fn equal_within(text: &[u8], start: usize, end: usize) -> Option<usize> {
    for at in start..end.min(text.len()) {
        if is_equal(text, at) {
            return Some(at);
        }
    }
    None
}

/// The first word of a text.
fn first_word(text: &str) -> &str {
    match text.split_once(' ') {
        Some((word, _)) => word.trim_end_matches('?'),
        None => text.trim_end_matches('?'),
    }
}

/// The name that a finding says may have been meant.
fn name_meant(finding: &Finding) -> Option<&str> {
    if let Some((_, rest)) = finding.help.as_str().split_once(MEANT) {
        return Some(first_word(rest));
    }
    let (_, rest) = finding.sentence.as_str().split_once(LIBRARY_HAS)?;
    if rest.ends_with(" in EXTHDR") {
        return None;
    }
    Some(first_word(rest))
}

/// Whether a finding says to write this GET.
fn names_get(finding: &Finding, get: &str) -> bool {
    finding.help.as_str().contains(get) || finding.sentence.as_str().contains(get)
}

/// The replacement that a finding's place takes.
fn fix_there<'t>(text: &[u8], finding: &'t Finding) -> Option<Fix<'t>> {
    let (start, end) = (finding.start, finding.end);
    let help = finding.help.as_str();
    if help.contains(WRITE_ASSIGN) {
        let at = match equal_within(text, start, end) {
            Some(at) => at,
            None => equal_before(text, start)?,
        };
        return Some(Fix {
            start: at,
            end: at.saturating_add(1),
            text: ":=",
            after: "",
        });
    }
    if help.ends_with(WRITE_EQUAL) && text.get(start..end) == Some(b":=".as_slice()) {
        return Some(Fix {
            start,
            end,
            text: "=",
            after: "",
        });
    }
    let name = name_meant(finding)?;
    Some(Fix {
        start,
        end,
        text: name,
        after: "",
    })
}

/// The place of a GET in a text.
fn place_of_get(text: &[u8], get: &str) -> Option<usize> {
    match std::str::from_utf8(text) {
        Ok(text) => text.find(get),
        Err(_) => None,
    }
}

/// A GET at the beginning, or EXTHDR instead of LIBHDR.
fn fix_of_header<'t>(text: &[u8], finding: &'t Finding) -> Option<Fix<'t>> {
    if names_get(finding, BASIC) {
        return Some(Fix {
            start: 0,
            end: 0,
            text: BASIC,
            after: "\n\n",
        });
    }
    if !names_get(finding, FURTHER) {
        return None;
    }
    match place_of_get(text, BASIC) {
        Some(start) => Some(Fix {
            start,
            end: start.saturating_add(BASIC.len()),
            text: FURTHER,
            after: "",
        }),
        None => Some(Fix {
            start: 0,
            end: 0,
            text: FURTHER,
            after: "\n\n",
        }),
    }
}

/// The edit for a replacement.
fn edit_of(alloc: Global, document: &Document, fix: Fix<'_>) -> Result<Value, Memory> {
    let (text, after) = (fix.text, fix.after);
    let new_text = format!(in alloc; "{text}{after}")?;
    let mut edits = JsonArray::new(alloc);
    edits.add(document.edit(alloc, fix.start, fix.end, new_text.as_str()));
    changes_of(alloc, document, edits)
}

/// A code action for a replacement.
fn action(
    alloc: Global,
    document: &Document,
    finding: &Finding,
    fix: Fix<'_>,
) -> Result<Value, Memory> {
    let text = fix.text;
    let title = format!(in alloc; "write {text}")?;
    let mut mended = JsonArray::new(alloc);
    mended.add(diagnostic(alloc, document, finding));
    let mut object = JsonObject::new(alloc);
    object.add_text("title", title.as_str());
    object.add_text("kind", "quickfix");
    object.add("diagnostics", mended.finish());
    object.add("edit", edit_of(alloc, document, fix));
    object.finish()
}

/// Whether a finding touches a stretch of the text.
fn touches(finding: &Finding, start: usize, end: usize) -> bool {
    finding.start <= end && start <= finding.end
}

/// The answer to `textDocument/codeAction` for a stretch of the text. Returns `Memory` if an allocation fails.
pub fn actions(
    alloc: Global,
    document: &Document,
    start: usize,
    end: usize,
) -> Result<Value, Memory> {
    let mut list = JsonArray::new(alloc);
    for finding in &document.findings {
        if !touches(finding, start, end) {
            continue;
        }
        if let Some(fix) = fix_there(document.text(), finding) {
            list.add(action(alloc, document, finding, fix));
        }
        if let Some(fix) = fix_of_header(document.text(), finding) {
            list.add(action(alloc, document, finding, fix));
        }
    }
    list.finish()
}
