//! Guesses the kind of a file from its first bytes and its line ends.

/// What a file probably is.
#[derive(Clone, Copy)]
pub enum FileKind {
    /// BCPL source, in this dialect or an old one.
    Source,
    /// INTCODE text.
    Text,
    /// A certificate.
    Certificate,
    /// UTF-16 text with a byte order mark.
    Wide,
    /// A source whose lines end in carriage returns only.
    Returns,
}

/// The words that can begin a source, in upper case.
const BEGINNINGS: [&[u8]; 7] = [
    b"GET",
    b"LET",
    b"MANIFEST",
    b"STATIC",
    b"GLOBAL",
    b"SECTION",
    b"NEEDS",
];

/// How many bytes are checked to recognise INTCODE.
const LOOKED_AT: usize = 400;

/// What a file with these bytes probably is; `None` if it looks like nothing known.
pub fn file_kind(bytes: &[u8]) -> Option<FileKind> {
    if bytes.starts_with(b"\xFF\xFE") || bytes.starts_with(b"\xFE\xFF") {
        Some(FileKind::Wide)
    } else if bytes.starts_with(b"BCPLCERT ") {
        Some(FileKind::Certificate)
    } else if begins_source(bytes) {
        Some(if has_returns_alone(bytes) {
            FileKind::Returns
        } else {
            FileKind::Source
        })
    } else if begins_text(bytes) {
        Some(FileKind::Text)
    } else {
        has_returns_alone(bytes).then_some(FileKind::Returns)
    }
}

/// Whether there are carriage returns and no line feed.
fn has_returns_alone(bytes: &[u8]) -> bool {
    bytes.contains(&b'\r') && !bytes.contains(&b'\n')
}

/// The text after the first occurrence of `close`, or an empty one if there is none.
fn following<'t>(text: &'t [u8], close: &[u8]) -> &'t [u8] {
    let at = text
        .windows(close.len().max(1))
        .position(|part| part == close);
    match at {
        Some(at) => text.get(at.saturating_add(close.len())..).unwrap_or(b""),
        None => b"",
    }
}

/// The text after leading blanks and comments of BCPL.
fn after_comments(text: &[u8]) -> &[u8] {
    let mut rest = text;
    for _ in 0..text.len() {
        rest = if rest.starts_with(b"//") || rest.starts_with(b"||") {
            following(rest, b"\n")
        } else if rest.starts_with(b"/*") {
            following(rest, b"*/")
        } else {
            match rest.split_first() {
                Some((first, others)) if first.is_ascii_whitespace() => others,
                _ => return rest,
            }
        };
    }
    rest
}

/// Whether the first word of a text can begin a source.
fn begins_source(text: &[u8]) -> bool {
    let rest = after_comments(text);
    let count = rest
        .iter()
        .position(|byte| !byte.is_ascii_alphanumeric() && *byte != b'.')
        .unwrap_or(rest.len());
    let word = rest.get(..count).unwrap_or(b"");
    BEGINNINGS
        .iter()
        .any(|known| known.eq_ignore_ascii_case(word))
}

/// Whether this byte can occur in an INTCODE item or between items.
fn is_of_item(byte: u8) -> bool {
    byte.is_ascii_whitespace()
        || byte.is_ascii_digit()
        || matches!(
            byte,
            b'$' | b'-'
                | b'L'
                | b'S'
                | b'A'
                | b'J'
                | b'T'
                | b'F'
                | b'K'
                | b'X'
                | b'C'
                | b'D'
                | b'G'
                | b'I'
                | b'P'
                | b'Z'
        )
}

/// Whether the text begins like INTCODE: only bytes of items, and at least one digit.
fn begins_text(text: &[u8]) -> bool {
    let mut is_comment = false;
    let mut has_digit = false;
    for byte in text.iter().take(LOOKED_AT) {
        if is_comment {
            is_comment = *byte != b'\n';
        } else if *byte == b'/' {
            is_comment = true;
        } else if is_of_item(*byte) {
            has_digit = has_digit || byte.is_ascii_digit();
        } else {
            return false;
        }
    }
    has_digit
}
