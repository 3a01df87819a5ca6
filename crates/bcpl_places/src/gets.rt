//! The GETs in the text of a source, and the chain of GETs that leads from a main to a file.

ghost use Rattle.std.specs.Prelude.{◌≤◌, ◌<◌, length};

use crate::Span;
use bc_lex::Source;
use bc_word::Memory;
use std::alloc::Global;

/// A GET of a source, with the name after it.
#[derive(Clone, Copy)]
pub struct Get<'s> {
    /// The offset of the word GET.
    pub start: usize,
    /// The offset after the string.
    pub end: usize,
    /// The text between the quotes of the string.
    pub name: &'s [u8],
}

/// Whether a name can contain this byte.
fn is_of_name(byte: u8) -> bool {
    byte.is_ascii_alphanumeric() || byte == b'.'
}

/// The offset after the first `close` from `at` on; the end of the text if there is none.
fn following(text: &[u8], at: usize, close: &[u8]) -> usize {
    for from in at..text.len() {
        if text[from..].starts_with(close) {
            return from + close.len();
        }
    }
    text.len()
}

/// The offset after the string or character constant whose opening quote is at `at`. A `*` escapes the byte after it,
/// and a line feed ends the constant.
fn after_quoted(text: &[u8], at: usize, sign: u8) -> usize {
    let mut is_escaped = false;
    for offset in at.saturating_add(1)..text.len() {
        let byte = text[offset];
        if byte == b'\n' {
            return offset;
        }
        if is_escaped {
            is_escaped = false;
        } else if byte == b'*' {
            is_escaped = true;
        } else if byte == sign {
            return offset + 1;
        }
    }
    text.len()
}

/// The offset after the name that begins at `at`.
fn after_name(text: &[u8], at: usize) -> usize {
    for offset in at..text.len() {
        if !is_of_name(text[offset]) {
            return offset;
        }
    }
    text.len()
}

/// The offset after a comment, space or line break at `at`; `at` itself if none begins there.
fn after_gap(text: &[u8], at: usize) -> usize {
    if at >= text.len() {
        return at;
    }
    let rest = &text[at..];
    if rest.starts_with(b"//") || rest.starts_with(b"||") {
        following(text, at, b"\n")
    } else if rest.starts_with(b"/*") {
        following(text, at.saturating_add(2), b"*/")
    } else if rest[0].is_ascii_whitespace() {
        at + 1
    } else {
        at
    }
}

/// The offset after all comments and white space from `at` on.
fn after_gaps(text: &[u8], at: usize) -> usize {
    let mut at = at;
    for _ in 0..text.len() {
        let next = after_gap(text, at);
        if next <= at {
            break;
        }
        at = next;
    }
    at
}

/// The GET whose word is at `at` and ends at `end`, if a string follows it.
fn get_at(text: &[u8], at: usize, end: usize) -> Option<Get<'_>> {
    let open = after_gaps(text, end);
    if open >= text.len() || text[open] != b'"' {
        return None;
    }
    let close = after_quoted(text, open, b'"');
    if close < open + 2 || close > text.len() || text[close - 1] != b'"' {
        return None;
    }
    Some(Get {
        start: at,
        end: close,
        name: &text[open + 1..close - 1],
    })
}

/// The GETs of a source, in text order. Returns `Memory` if an allocation fails.
pub fn gets_of(alloc: Global, text: &[u8]) -> Result<Vec<Get<'_>>, Memory> {
    let mut gets = Vec::new(alloc);
    let mut at = 0;
    for _ in 0..text.len() {
        if at >= text.len() {
            break;
        }
        let gap = after_gap(text, at);
        let byte = text[at];
        let next = if gap > at {
            gap
        } else if byte == b'"' || byte == b'\'' {
            after_quoted(text, at, byte)
        } else if is_of_name(byte) {
            let end = after_name(text, at);
            if end <= text.len() && at <= end && &text[at..end] == b"GET".as_slice() {
                if let Some(get) = get_at(text, at, end) {
                    gets.push(get)?;
                }
            }
            end
        } else {
            at + 1
        };
        at = next.max(at + 1);
    }
    Ok(gets)
}

/// The index of the first source with this name.
fn index_of(sources: &[Source<'_>], name: &[u8]) -> Option<usize> {
    sources.iter().position(|source| source.name == name)
}

/// The GETs that lead from the source `main` to the source `file`, the last one first. Empty if both are the same, or
/// no GET leads there. Returns `Memory` if an allocation fails.
pub fn way_to(
    alloc: Global,
    sources: &[Source<'_>],
    main: usize,
    file: usize,
) -> Result<Vec<Span>, Memory> {
    let mut reached_by: Vec<Option<Span>> = Vec::new(alloc);
    for _ in sources {
        reached_by.push(None)?;
    }
    let mut waiting: Vec<usize> = Vec::new(alloc);
    waiting.push(main)?;
    for turn in 0..sources.len() {
        if turn >= waiting.len() {
            break;
        }
        let from = waiting[turn];
        if from >= sources.len() {
            break;
        }
        for get in &gets_of(alloc, sources[from].text)? {
            if let Some(got) = index_of(sources, get.name) {
                if got != main && got < reached_by.len() && reached_by[got].is_none() {
                    reached_by[got] = Some(Span {
                        file: from,
                        start: get.start,
                        end: get.end,
                    });
                    waiting.push(got)?;
                }
            }
        }
    }
    let mut way = Vec::new(alloc);
    let mut at = file;
    for _ in sources {
        if at == main || at >= reached_by.len() {
            break;
        }
        match reached_by[at] {
            Some(get) => {
                way.push(get)?;
                at = get.file;
            }
            None => break,
        }
    }
    Ok(way)
}
