//! Advice on a byte that begins no token, and on a GET of a name that no source has.

/// What is after the last line feed or semicolon of a text, and after a section bracket that begins the line.
pub fn line_end(text: &[u8]) -> &[u8] {
    let end = text
        .iter()
        .rposition(|byte| *byte == b'\n' || *byte == b';');
    let start = match end {
        Some(at) => at.saturating_add(1),
        None => 0,
    };
    let line = match text.get(start..) {
        Some(line) => line.trim_ascii_start(),
        None => b"",
    };
    match line.strip_prefix(b"$(") {
        Some(rest) => rest.trim_ascii_start(),
        None => line,
    }
}

/// The offset at which the line of another offset begins.
pub fn line_start(text: &[u8], at: usize) -> usize {
    let before = text.get(..at).unwrap_or(b"");
    match before.iter().rposition(|byte| *byte == b'\n') {
        Some(end) => end.saturating_add(1),
        None => 0,
    }
}

/// How the names of standard headers begin.
const HEADERS: [&[u8]; 7] = [b"LIB", b"Lib", b"STD", b"std", b"BCPL", b"bcpl", b"HDR"];

/// Whether a text begins like the name of a standard header of some language, after GET and a quote.
fn is_header(text: &[u8]) -> bool {
    let name = match text.strip_prefix(b"GET") {
        Some(rest) => rest.trim_ascii_start(),
        None => return false,
    };
    let name = match name.strip_prefix(b"\"") {
        Some(name) => name,
        None => return false,
    };
    for known in HEADERS {
        if name.starts_with(known) {
            return true;
        }
    }
    false
}

/// Whether a comma is between the bracket that a text begins with and the one that closes it.
fn has_comma(text: &[u8]) -> bool {
    for byte in text {
        match *byte {
            b',' => return true,
            b']' | b'\n' => return false,
            _ => {}
        }
    }
    false
}

/// What begins a line for a preprocessor, after `#`.
const DIRECTIVES: [&str; 5] = ["DEFINE", "INCLUDE", "IF", "PRAGMA", "UNDEF"];

/// Whether a text begins with a line for a preprocessor.
fn is_directive(text: &[u8]) -> bool {
    let Some(rest) = text.strip_prefix(b"#") else {
        return false;
    };
    for word in DIRECTIVES {
        if let Some(begin) = rest.get(..word.len())
            && begin.eq_ignore_ascii_case(word.as_bytes())
        {
            return true;
        }
    }
    false
}

/// Whether a text begins with words in braces, which are meant as a comment: letters, digits, blanks and full stops.
fn is_braced_comment(text: &[u8]) -> bool {
    let mut blanks: usize = 0;
    let Some(rest) = text.strip_prefix(b"{") else {
        return false;
    };
    for byte in rest.trim_ascii_start() {
        match *byte {
            b' ' => blanks = blanks.saturating_add(1),
            b'}' => return blanks > 1,
            b'.' | b',' | b'\'' | b'-' => {}
            _ if byte.is_ascii_alphanumeric() => {}
            _ => return false,
        }
    }
    false
}

/// The quotes of printed texts, in UTF-8, and the one on the key beside 1.
const QUOTES: [&[u8]; 5] = [
    b"\xE2\x80\x9C",
    b"\xE2\x80\x9D",
    b"\xE2\x80\x98",
    b"\xE2\x80\x99",
    b"`",
];

/// Whether a text begins with a quote that is none in BCPL.
fn is_other_quote(text: &[u8]) -> bool {
    for quote in QUOTES {
        if text.starts_with(quote) {
            return true;
        }
    }
    false
}

/// Routines of the library that a beginner calls first.
const ROUTINES: [&[u8]; 6] = [
    b"WRITES", b"WRITEN", b"WRITEF", b"WRCH", b"PUTBYTE", b"GETBYTE",
];

/// Whether a text ends with the name of one of these routines.
fn ends_with_routine(text: &[u8]) -> bool {
    for name in ROUTINES {
        if text.ends_with(name) {
            return true;
        }
    }
    false
}

/// The help on a bracket, a brace or a quote that `rest` begins with, after the text `before`.
fn sign_advice(before: &[u8], rest: &[u8]) -> Option<&'static str> {
    if is_braced_comment(rest) {
        Some("a comment begins with //, or is written /* .. */; a block is written $( .. $)")
    } else if is_other_quote(rest) {
        Some(
            "a string is between straight double quotes, as in \"HELLO\", and a character between single ones, as in 'H'",
        )
    } else if rest.starts_with(b"[") && ends_with_routine(before) {
        Some("the arguments of a call are in parentheses, as in WRITEN(X)")
    } else {
        None
    }
}

/// The help on the byte or GET that `rest` begins with, after the text `before`.
pub fn character_advice(before: &[u8], rest: &[u8]) -> Option<&'static str> {
    let sign = sign_advice(before, rest);
    if sign.is_some() {
        return sign;
    }
    let line = line_end(before);
    let next = rest.get(1).copied();
    match *rest.first()? {
        b'#' if is_directive(rest) => Some(
            "there is no preprocessor: GET \"LIBHDR\" inserts a file, and MANIFEST $( SIZE = 10 $) declares a constant",
        ),
        b'#' if matches!(next, Some(b' ' | b'!' | b'#')) => { Some("a comment begins with //") }
        b'.' if line.starts_with(b"CASE") => {
            Some("a CASE has one value; for a range, write several CASEs, or a TEST before")
        }
        b'[' if line.starts_with(b"LET") && has_comma(rest) => {
            Some("a vector of constants is a TABLE, as in LET V = TABLE 1, 2, 3")
        }
        b'[' if line.starts_with(b"LET") => {
            Some("a vector is declared with VEC, as in LET V = VEC 10")
        }
        b'G' if is_header(rest) => {
            Some("the header of the library is LIBHDR: write GET \"LIBHDR\"")
        }
        _ => None,
    }
}
