//! Messages for faults of the lexer.

use crate::draft::{Draft, Fill};
use bc_lex::{LexError, Source};
use bcpl_places::{Get, Span, gets_of};

/// The help for a byte that begins no token.
const BYTES: [(u8, &str); 12] = [
    (
        b'{',
        "open a block with $( and close it with $); use bcpl convert for old sources",
    ),
    (b'}', "close a block with $)"),
    (
        b'_',
        "a name has letters, digits and dots; use a dot instead of the underscore",
    ),
    (
        b'%',
        "REM is the remainder, as in X REM 2; GETBYTE(S, I) is byte I of the string S, and PUTBYTE(S, I, C) sets it",
    ),
    (
        b'#',
        "write octal digits after #, as in #17, and hexadecimal digits after #X, as in #XFF",
    ),
    (
        b'[',
        "write an element of a vector as V!I, and parentheses as ( and )",
    ),
    (
        b']',
        "write an element of a vector as V!I, and parentheses as ( and )",
    ),
    (
        b'\\',
        "write NOT as ~ or NOT; a line needs no sign to continue",
    ),
    (
        b'?',
        "BCPL has no sign for an arbitrary value: write a number; write a choice of two values as B -> X, Y",
    ),
    (b'^', "write NEQV for exclusive or"),
    (
        b'$',
        "open a block with $( and close it with $), with no space between the two signs",
    ),
    (
        b'.',
        "a name begins with a letter, and numbers have no decimal point",
    ),
];

/// What to write instead of a byte that begins no token.
fn help_for_byte(text: &[u8], at: usize) -> Option<&'static str> {
    let rest = text.get(at..).unwrap_or(b"");
    if rest.starts_with(b"\xEF\xBB\xBF") {
        return Some("the file begins with a byte order mark; save it as plain text without one");
    }
    if rest.starts_with(b"#include") {
        return Some("include a file with GET, as in GET \"LIBHDR\"");
    }
    if rest.starts_with(b"\\\"") {
        return Some(
            "an escape in a string begins with *: write a quote as *\", and a line break as *N",
        );
    }
    let first = rest.first().copied().unwrap_or(0);
    for (byte, help) in &BYTES {
        if *byte == first {
            return Some(*help);
        }
    }
    if first >= 128 {
        Some("outside strings, characters and comments, use only ASCII letters, digits and signs")
    } else if first < 32 {
        Some("this is a control character; save the file as plain text")
    } else {
        None
    }
}

/// The size in bytes of the UTF-8 character that begins here.
fn character_size(text: &[u8], at: usize) -> usize {
    let first = text.get(at).copied().unwrap_or(0);
    let size = match first {
        0xC0..=0xDF => 2,
        0xE0..=0xEF => 3,
        0xF0..=0xFF => 4,
        _ => 1,
    };
    size
}

/// The size in bytes of the number that begins here.
fn number_size(text: &[u8], at: usize) -> usize {
    let rest = text.get(at..).unwrap_or(b"");
    let mut size: usize = 0;
    for byte in rest {
        if !byte.is_ascii_alphanumeric() && !(size == 0 && *byte == b'#') {
            break;
        }
        size = size.saturating_add(1);
    }
    size.max(1)
}

/// How many bytes are between the quote of a character constant and the next quote on its line, if there is one.
fn closing(text: &[u8], at: usize) -> Option<usize> {
    let rest = text.get(at.saturating_add(1)..)?;
    let end = rest
        .iter()
        .position(|byte| *byte == b'\'' || *byte == b'\n')?;
    match rest.get(end) {
        Some(b'\'') => Some(end),
        _ => None,
    }
}

/// The sentence and the help for a malformed character constant.
fn no_character(text: &[u8], at: usize) -> (&'static str, &'static str) {
    let is_backslash = text.get(at.saturating_add(1)).copied() == Some(b'\\');
    match closing(text, at) {
        Some(2) if is_backslash => (
            "an escape begins with *, not with a backslash",
            "write a line break as '*N', a tab as '*T', a quote as '*'', and a null character as 0",
        ),
        Some(1) if is_star(text, at) => (
            "*' is a quote here, so this character constant is not closed",
            "write the sign * as '**', and a quote as '*''",
        ),
        Some(0) => (
            "there is no character between these quotes",
            "a character constant has one character or one escape, as in 'A' or '*N'; the empty string is \"\"",
        ),
        Some(_) => (
            "there is more than one character between these quotes",
            "a character constant has one character or one escape, as in 'A' or '*N'; write longer texts as strings, as in \"AB\"",
        ),
        None => (
            "this character constant is not closed",
            "it has one character or one escape between its quotes, as in 'A' or '*N'; write longer texts as strings, as in \"AB\"",
        ),
    }
}

/// Whether a `*` is the first character after the quote at an offset.
fn is_star(text: &[u8], at: usize) -> bool {
    text.get(at.saturating_add(1)).copied() == Some(b'*')
}

/// Whether `*"` is on the line of the string at an offset, after a character that is no star.
fn has_escaped_quote(text: &[u8], at: usize) -> bool {
    let mut is_escape = false;
    for byte in text.get(at..).unwrap_or(b"") {
        match *byte {
            b'\n' => return false,
            b'"' if is_escape => return true,
            b'*' => is_escape = !is_escape,
            _ => is_escape = false,
        }
    }
    false
}

/// The sentence and the help for a comment, string or character constant that isn't closed.
fn unterminated(text: &[u8], at: usize) -> (&'static str, &'static str) {
    match text.get(at).copied().unwrap_or(0) {
        b'"' if has_escaped_quote(text, at) => (
            "this string is not closed on its line: *\" is a quote in it",
            "write the sign * as **, and end the string with \"",
        ),
        b'"' => (
            "this string is not closed on its line",
            "end a string with \" on the line where it begins; inside it, *N is a line break and *\" is a quote",
        ),
        b'\'' => no_character(text, at),
        _ => (
            "this comment is not closed",
            "close it with */; comments don't nest",
        ),
    }
}

/// The span of this many bytes from an offset on.
fn span(file: usize, at: usize, size: usize) -> Span {
    Span {
        file,
        start: at,
        end: at.saturating_add(size),
    }
}

/// Whether this name probably means the library's header: LIBHDR in any case, perhaps with a file extension.
fn is_libhdr(name: &[u8]) -> bool {
    let bare = match name.iter().position(|byte| *byte == b'.') {
        Some(dot) => name.get(..dot).unwrap_or(name),
        None => name,
    };
    bare.eq_ignore_ascii_case(b"LIBHDR")
}

/// Sets the help for a GET of this name, which no source has.
fn help_for_get(draft: &mut Draft, name: &[u8]) {
    if is_libhdr(name) {
        draft.help(
            "the library's header is LIBHDR, in upper case; use bcpl convert for old sources",
            &[],
        );
    } else if name == b"EXTHDR".as_slice() {
        draft.help(
            "this is the header of a further library; add --library ext",
            &[],
        );
    } else {
        draft.help(
            "add --include with its folder, or --get {}=PATH",
            &[Fill::Shown(name)],
        );
    }
}

/// Describes a GET that names no source.
fn tell_missing(draft: &mut Draft, file: usize, get: &Get<'_>) {
    let size = get.end.saturating_sub(get.start);
    draft.place(span(file, get.start, size));
    draft.say("no source has the name {}", &[Fill::Shown(get.name)]);
    help_for_get(draft, get.name);
}

/// Describes a GET that has no name, or one that no source has.
fn tell_get(draft: &mut Draft, site: Site<'_>) {
    let Site { text, file, at } = site;
    let alloc = draft.alloc();
    let gets = draft.found(gets_of(alloc, text), Vec::new(alloc));
    for get in &gets {
        if get.start == at {
            return tell_missing(draft, file, get);
        }
    }
    draft.place(span(file, at, 3));
    draft.say("GET needs a string with the name of a source", &[]);
    draft.help("write GET and a name, as in GET \"LIBHDR\"", &[]);
}

/// Describes an unknown escape.
fn tell_escape(draft: &mut Draft, site: Site<'_>) {
    let Site { text, file, at } = site;
    let following = text.get(at.saturating_add(1)).copied().unwrap_or(0);
    draft.place(span(file, at, 2));
    if following.is_ascii_graphic() {
        draft.say("*{} is not an escape", &[Fill::Shown(&[following])]);
    } else if following == b' ' {
        draft.say("* followed by a space is not an escape", &[]);
    } else {
        draft.say("this is not an escape", &[]);
    }
    draft.help(
        "after *, write N, T, S, B, P, C, a quote or *; write ** for the sign * itself",
        &[],
    );
}

/// The place of a fault: the text of its file, the file's index, and the offset.
#[derive(Clone, Copy)]
struct Site<'s> {
    text: &'s [u8],
    file: usize,
    at: usize,
}

/// The place of a fault; `None` if memory ran out.
fn site_of<'s>(sources: &[Source<'s>], fault: LexError) -> Option<Site<'s>> {
    let (file, at) = match fault {
        LexError::BadCharacter(file, at)
        | LexError::NumberTooLarge(file, at)
        | LexError::StringTooLong(file, at)
        | LexError::Unterminated(file, at)
        | LexError::BadEscape(file, at)
        | LexError::GetMissing(file, at)
        | LexError::GetTooDeep(file, at)
        | LexError::TooManyTokens(file, at) => (file, at),
        LexError::Memory => return None,
    };
    let text = match sources.get(file) {
        Some(source) => source.text,
        None => b"",
    };
    Some(Site { text, file, at })
}

/// The size of a fault in bytes, its sentence, and its help if it has one.
fn said_of(site: Site<'_>, fault: LexError) -> (usize, &'static str, Option<&'static str>) {
    let Site { text, at, .. } = site;
    match fault {
        LexError::BadCharacter(..) => (
            character_size(text, at),
            "no word, number or sign begins with this character",
            help_for_byte(text, at),
        ),
        LexError::NumberTooLarge(..) => (
            number_size(text, at),
            "this number is greater than 65535, the largest that a word holds",
            Some("a word has 16 bits; keep a larger number in two words, or as digits in a vector"),
        ),
        LexError::StringTooLong(..) => (
            1,
            "this string has more than 255 characters",
            Some("its length must fit in one byte; write two strings, one after the other"),
        ),
        LexError::GetTooDeep(..) => (
            3,
            "this GET is in a file that eight nested GETs led to, and a ninth is not followed",
            Some("perhaps two files GET each other"),
        ),
        LexError::TooManyTokens(..) => (
            1,
            "this is the 60001st word or sign of the file and the files that it gets; the limit is 60000",
            Some("split the program into several files that share routines by GLOBAL"),
        ),
        _ => {
            let (sentence, help) = unterminated(text, at);
            (1, sentence, Some(help))
        }
    }
}

/// Describes any other fault.
fn tell_fault(draft: &mut Draft, site: Site<'_>, fault: LexError) {
    let (size, sentence, help) = said_of(site, fault);
    draft.place(span(site.file, site.at, size));
    draft.say(sentence, &[]);
    if let Some(help) = help {
        draft.help(help, &[]);
    }
}

/// Describes a fault of the lexer.
pub fn tell_lexical(draft: &mut Draft, sources: &[Source<'_>], fault: LexError) {
    let Some(site) = site_of(sources, fault) else {
        return;
    };
    match fault {
        LexError::GetMissing(..) => tell_get(draft, site),
        LexError::BadEscape(..) => tell_escape(draft, site),
        _ => tell_fault(draft, site, fault),
    }
}
