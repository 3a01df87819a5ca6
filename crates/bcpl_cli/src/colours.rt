//! Which part of a line of a message is shown in a colour.

/// The bytes that end a colour at a terminal.
pub(crate) const PLAIN: &[u8] = b"\x1b[0m";

const RED: &[u8] = b"\x1b[1;31m";

const YELLOW: &[u8] = b"\x1b[1;33m";

const GREEN: &[u8] = b"\x1b[1;32m";

const CYAN: &[u8] = b"\x1b[1;36m";

/// The parts of a line in order: two plain ones, two in the colour, and a plain one.
#[derive(Clone, Copy)]
pub(crate) struct ColouredLine<'l> {
    pub before: &'l str,
    pub gap: &'static str,
    /// The bytes that begin the colour.
    pub colour: &'static [u8],
    pub label: &'static str,
    pub mark: &'l str,
    pub after: &'l str,
}

/// Whether a text can come before `: error:` or `: warning:`: a place, which ends with its column, or the program.
fn is_origin(text: &str) -> bool {
    match text.rsplit_once(':') {
        Some((_, column)) => {
            !column.is_empty() && column.chars().all(|character| character.is_ascii_digit())
        }
        None => text == "bcpl",
    }
}

/// A line with this label after its origin, where `sign` is the label with the colon before it; `None` if it has no such label.
fn labelled<'l>(
    line: &'l str,
    sign: &str,
    label: &'static str,
    colour: &'static [u8],
) -> Option<ColouredLine<'l>> {
    let (before, after) = line.split_once(sign)?;
    if !is_origin(before) {
        return None;
    }
    Some(ColouredLine {
        before,
        gap: ": ",
        colour,
        label,
        mark: "",
        after,
    })
}

/// A line of carets below a source line; `None` if it is something else.
fn marked(line: &str) -> Option<ColouredLine<'_>> {
    let (before, mark) = line.split_once("^")?;
    if before.trim() != "|" {
        return None;
    }
    Some(ColouredLine {
        before,
        gap: "",
        colour: GREEN,
        label: "^",
        mark,
        after: "",
    })
}

/// A line of help; `None` if it is something else.
fn helping(line: &str) -> Option<ColouredLine<'_>> {
    let after = line.strip_prefix("  help:")?;
    Some(ColouredLine {
        before: "  ",
        gap: "",
        colour: CYAN,
        label: "help:",
        mark: "",
        after,
    })
}

/// The parts of a line of a message; `None` if all of it is plain.
pub(crate) fn coloured(line: &str) -> Option<ColouredLine<'_>> {
    if let Some(parts) = helping(line) {
        return Some(parts);
    }
    if let Some(parts) = marked(line) {
        return Some(parts);
    }
    if let Some(parts) = labelled(line, ": error:", "error:", RED) {
        return Some(parts);
    }
    labelled(line, ": warning:", "warning:", YELLOW)
}
