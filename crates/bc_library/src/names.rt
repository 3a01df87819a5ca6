//! The names that LIBHDR declares, for messages and the conversion of old sources. The gate checks that they are those of the text.

/// The globals that LIBHDR declares, with their numbers.
const GLOBALS: [(u16, &str); 15] = [
    (1, "START"),
    (11, "SELECTINPUT"),
    (12, "SELECTOUTPUT"),
    (13, "RDCH"),
    (14, "WRCH"),
    (15, "FINDINPUT"),
    (16, "FINDOUTPUT"),
    (17, "ENDREAD"),
    (18, "ENDWRITE"),
    (20, "GETBYTE"),
    (21, "PUTBYTE"),
    (22, "WRITES"),
    (23, "WRITEN"),
    (24, "NEWLINE"),
    (25, "WRITEF"),
];

/// The only manifest that LIBHDR declares.
const CONSTANT: &str = "ENDSTREAMCH";

/// The name of the global with this number in LIBHDR, or `None`.
pub fn library_name(number: u16) -> Option<&'static str> {
    for (known, name) in GLOBALS {
        if known == number {
            return Some(name);
        }
    }
    None
}

/// The name in LIBHDR that equals `word` if case is ignored, or `None`.
pub fn library_word(word: &[u8]) -> Option<&'static str> {
    for (_, name) in GLOBALS {
        if word.eq_ignore_ascii_case(name.as_bytes()) {
            return Some(name);
        }
    }
    if word.eq_ignore_ascii_case(CONSTANT.as_bytes()) {
        Some(CONSTANT)
    } else {
        None
    }
}

/// Whether LIBHDR declares exactly this name.
pub fn is_of_library(name: &[u8]) -> bool {
    match library_word(name) {
        Some(known) => known.as_bytes() == name,
        None => false,
    }
}
