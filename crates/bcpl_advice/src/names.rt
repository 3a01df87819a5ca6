//! Advice on names that aren't declared, and on vectors of a negative size.

use crate::advice::Advice;
use crate::words::{is_at, is_joined, is_number, text_at};
use bc_lex::Source;
use bc_lex_tokens::{Symbol, Token};
use bc_word::Memory;
use bcpl_messages::{library_like, library_names};
use bcpl_places::Span;
use std::alloc::Global;

/// The help for a null pointer.
const NULL: &str = "there is no NULL; write 0, or declare it with MANIFEST $( NULL = 0 $)";

/// The help for output.
pub const OUTPUT: &str =
    "WRITES writes a string, WRITEN a number, and WRITEF both, as in WRITEF(\"%S %N*N\", S, N)";

/// The help for input.
const INPUT: &str =
    "RDCH reads a character, and READN of EXTHDR a number; WRITES writes a prompt before";

/// The help for truth values.
const TRUTH: &str = "the truth values are TRUE and FALSE, in upper case";

/// The help for memory.
const STORE: &str = "LET V = VEC 10 declares a vector; GETVEC of EXTHDR takes one from a pool";

/// The help for the length of something.
const LENGTH: &str = "the length of a string S is GETBYTE(S, 0); a vector doesn't know its size";

/// The help for the end of a run.
const END: &str = "FINISH ends the run, and RETURN a routine";

/// The help for character codes.
const CODE: &str = "a character is the number that is its code: WRCH(65) writes A, and 'A' is 65";

/// The help for operations on strings.
const STRINGS: &str =
    "GETBYTE and PUTBYTE copy strings byte by byte; byte 0 of a string is its length";

/// Names of other languages, in upper case, and the help for each.
const KNOWN: [(&str, &str); 29] = [
    ("NULL", NULL),
    ("NIL", NULL),
    ("NONE", NULL),
    ("PRINTF", OUTPUT),
    ("PRINT", OUTPUT),
    ("PRINTLN", OUTPUT),
    ("PUTS", OUTPUT),
    ("PUTCHAR", OUTPUT),
    ("ECHO", OUTPUT),
    ("WRITE", OUTPUT),
    ("OUT", OUTPUT),
    ("COUT", OUTPUT),
    ("SCANF", INPUT),
    ("INPUT", INPUT),
    ("READ", INPUT),
    ("READLN", INPUT),
    ("GETCHAR", INPUT),
    ("TRUE", TRUTH),
    ("FALSE", TRUTH),
    ("MALLOC", STORE),
    ("ALLOC", STORE),
    ("NEW", STORE),
    ("WRITELN", OUTPUT),
    ("DISPLAY", OUTPUT),
    ("READLINE", INPUT),
    ("GETS", INPUT),
    ("LEN", LENGTH),
    ("STRLEN", LENGTH),
    ("CONTINUE", "LOOP goes on with the next round of a loop"),
];

/// Names that are called in other languages, in upper case, and the help for each. A variable may have such a name, too.
const CALLED: [(&str, &str); 17] = [
    ("LENGTH", LENGTH),
    ("SIZE", LENGTH),
    ("SIZEOF", LENGTH),
    ("EXIT", END),
    ("QUIT", END),
    ("HALT", END),
    ("CHR", CODE),
    ("ORD", CODE),
    ("STRCPY", STRINGS),
    ("STRCAT", STRINGS),
    ("CONCAT", STRINGS),
    ("SUBSTR", STRINGS),
    ("COPY", STRINGS),
    ("INC", "to add 1 to X, write X := X + 1"),
    ("DEC", "to subtract 1 from X, write X := X - 1"),
    (
        "ABS",
        "there is no ABS: write X < 0 -> -X, X, or a function of your own",
    ),
    ("RANGE", "a FOR counts, as in FOR I = 0 TO 9 DO .."),
];

/// Objects and modules of other languages, in upper case, and the help for what they have.
const OBJECTS: [(&str, &str); 5] = [
    ("CONSOLE", OUTPUT),
    ("SYSTEM", OUTPUT),
    ("SYS", OUTPUT),
    ("STD", OUTPUT),
    ("PROCESS", OUTPUT),
];

/// Routines of other languages, in upper case, and what the library has for each.
const MEANT: [(&str, &str); 21] = [
    ("PRINTF", "WRITEF"),
    ("PRINT", "WRITES"),
    ("PRINTLN", "WRITES"),
    ("PUTS", "WRITES"),
    ("ECHO", "WRITES"),
    ("WRITE", "WRITES"),
    ("WRITELN", "WRITES"),
    ("COUT", "WRITES"),
    ("PUTCHAR", "WRCH"),
    ("PUTC", "WRCH"),
    ("GETCHAR", "RDCH"),
    ("GETC", "RDCH"),
    ("SCANF", "READN in EXTHDR"),
    ("READ", "READN in EXTHDR"),
    ("READLN", "READN in EXTHDR"),
    ("MALLOC", "GETVEC in EXTHDR"),
    ("ALLOC", "GETVEC in EXTHDR"),
    ("FREE", "FREEVEC in EXTHDR"),
    ("STRCMP", "COMPSTRING in EXTHDR"),
    ("RAND", "RANDOM in EXTHDR"),
    ("EXIT", "STOP in EXTHDR"),
];

/// The routine of the library that is meant by one of another language.
fn routine_meant(name: &[u8]) -> Option<&'static str> {
    for (known, routine) in MEANT {
        if name.eq_ignore_ascii_case(known.as_bytes()) {
            return Some(routine);
        }
    }
    None
}

/// What is probably meant by a name that a main uses and nothing declares, as the end of a sentence; empty if that isn't
/// known. Returns `Memory` if an allocation fails.
pub fn likely_meaning(
    alloc: Global,
    sources: &[Source<'_>],
    main: usize,
    name: &[u8],
) -> Result<String, Memory> {
    let known = library_names(alloc, sources, main)?;
    likely_among(alloc, known.as_slice(), name)
}

/// The same for one of several names. `known` is what `library_names` gives for the main.
pub fn likely_among(alloc: Global, known: &[Token<'_>], name: &[u8]) -> Result<String, Memory> {
    match routine_meant(name) {
        Some(routine) => Ok(format!(in alloc; "; the library has {routine}")?),
        None => library_like(alloc, known, name),
    }
}

/// The index of the token at a place.
fn index_of(tokens: &[Token<'_>], span: Span) -> Option<usize> {
    for (index, token) in tokens.iter().enumerate() {
        if token.file == span.file && token.start == span.start {
            return Some(index);
        }
    }
    None
}

/// Whether a name with this text is among the tokens before an index.
fn is_met_before(tokens: &[Token<'_>], at: usize, text: &[u8]) -> bool {
    for token in tokens.iter().take(at) {
        if token.text == text {
            return true;
        }
    }
    false
}

/// What is before the first dot of a name, if it has one.
fn before_dot(name: &[u8]) -> Option<&[u8]> {
    for (at, byte) in name.iter().enumerate() {
        if *byte == b'.' {
            return name.get(..at);
        }
    }
    None
}

/// The advice on a name with a dot that isn't declared: what is before the dot is a record, or belongs to another language.
fn dotted_advice(tokens: &[Token<'_>], at: usize, name: &[u8]) -> Option<Advice> {
    let record = before_dot(name)?;
    if is_met_before(tokens, at, record) {
        return Some(Advice::at(
            at,
            at,
            "the dot is part of this name, which isn't declared",
            "a field of a record is written P!FIELD",
        ));
    }
    for (known, help) in OBJECTS {
        if record.eq_ignore_ascii_case(known.as_bytes()) {
            return Some(Advice::at(
                at,
                at,
                "the dot is part of this name, which isn't declared",
                help,
            ));
        }
    }
    None
}

/// Whether the name at this index is the `N` of an escape `*N` outside of a string.
fn is_line_break(tokens: &[Token<'_>], at: usize) -> bool {
    let letter = text_at(tokens, at);
    at > 0
        && (letter == b"N".as_slice() || letter == b"n".as_slice())
        && is_at(tokens, at - 1, Symbol::Multiply)
        && is_joined(tokens, at)
}

/// The advice on a name that isn't declared, at this place.
pub fn name_advice(tokens: &[Token<'_>], span: Span, name: &[u8]) -> Option<Advice> {
    let at = index_of(tokens, span)?;
    if at > 0 && is_at(tokens, at - 1, Symbol::Goto) {
        return Some(Advice::help("a label is written as NAME: before a command of this routine"));
    }
    if is_line_break(tokens, at) {
        return Some(Advice::at(
            at.saturating_sub(1),
            at,
            "*N is a line break only in strings and character constants",
            "write NEWLINE(), or a format as in WRITEF(\"%N*N\", X)",
        ));
    }
    if let Some(advice) = dotted_advice(tokens, at, name) {
        return Some(advice);
    }
    let is_called = is_at(tokens, at.saturating_add(1), Symbol::OpenBracket);
    if is_called && let Some(help) = help_in(&CALLED, name) {
        return Some(Advice::help(help));
    }
    match help_in(&KNOWN, name) {
        Some(help) => Some(Advice::help(help)),
        None => None,
    }
}

/// The advice on a name that nothing resembles, by its use: it is assigned to, or written as a string.
pub fn use_advice(tokens: &[Token<'_>], span: Span) -> Option<Advice> {
    let at = index_of(tokens, span)?;
    let next = at.saturating_add(1);
    let open = at.checked_sub(1)?;
    let is_text = is_at(tokens, open, Symbol::OpenBracket)
        && is_at(tokens, next, Symbol::CloseBracket)
        && text_at(tokens, open.checked_sub(1)?) == b"WRITES".as_slice();
    if is_text {
        return Some(Advice::help("a string is in double quotes, as in WRITES(\"HELLO\")"));
    }
    if is_at(tokens, next, Symbol::Assign) {
        Some(Advice::help("declare a variable at the beginning of its block, as in LET N = 0"))
    } else {
        None
    }
}

/// The advice on a label of another routine or block that a GOTO at this place names.
pub fn jump_advice(tokens: &[Token<'_>], span: Span) -> Option<Advice> {
    let at = index_of(tokens, span)?;
    if is_at(tokens, at.checked_sub(1)?, Symbol::Goto) {
        Some(Advice::help(
            "a GOTO can reach the labels of the command lists around it; from another routine, return a value that the caller tests",
        ))
    } else {
        None
    }
}

/// The help of the row with this name, in upper or lower case.
fn help_in(rows: &[(&str, &'static str)], name: &[u8]) -> Option<&'static str> {
    for (known, help) in rows {
        if name.eq_ignore_ascii_case(known.as_bytes()) {
            return Some(*help);
        }
    }
    None
}

/// The advice on a string where a constant is needed, at this place.
pub fn constant_advice(tokens: &[Token<'_>], span: Span) -> Option<Advice> {
    let at = index_of(tokens, span)?;
    if text_at(tokens, at).starts_with(b"\"") {
        Some(Advice::help(
            "a string is no constant: no MANIFEST, STATIC or CASE can have one; a character is in single quotes, as in 'A'",
        ))
    } else {
        None
    }
}

/// The advice on a vector of a negative size, which makes a frame too large.
pub fn vector_advice(tokens: &[Token<'_>]) -> Option<Advice> {
    for at in 0..tokens.len() {
        let sign = at.saturating_add(1);
        let number = sign.saturating_add(1);
        if is_at(tokens, at, Symbol::Vector)
            && is_at(tokens, sign, Symbol::Minus)
            && is_number(tokens, number)
        {
            return Some(Advice::at(
                sign,
                number,
                "the size of a vector is negative",
                "VEC N has the cells 0 to N, and N is at least 0: read unsigned, -1 is 65535",
            ));
        }
    }
    None
}
