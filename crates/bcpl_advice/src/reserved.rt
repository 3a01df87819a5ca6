//! Advice on reserved words that are misspelt, and on words of other languages where a command or a value begins.

use crate::advice::Advice;
use crate::names::OUTPUT;
use crate::words::{begins_line, depth_at, is_name, symbol_at, text_at};
use bc_lex_tokens::{Symbol, Token};

/// What is wrong with all of these words.
const UNKNOWN: &str = "this is neither a reserved word nor a declared name";

/// The help for words that end something.
const LEFT: &str = "FINISH ends the run, RETURN a routine, and BREAK a loop";

/// The help for words that close a body.
const CLOSED: &str = "leave it out: a body is one command, or a block $( .. $) of several";

/// The help for words that choose among values.
const CHOICE: &str = "write SWITCHON N INTO $( CASE 1: .. ENDCASE .. DEFAULT: .. $)";

/// The help for words that call a routine.
const CALL: &str = "a routine is called by its name and parentheses, as in NEWLINE()";

/// The help for words that declare or take a vector.
const VECTOR: &str = "a vector with the cells 0 to 10 is declared as LET V = VEC 10";

/// The help for exceptions.
const EXCEPTION: &str = "there are no exceptions: return a value that the caller tests";

/// Words of other languages, in upper case, and the help for each.
const WORDS: [(&str, &str); 44] = [
    ("STOP", LEFT),
    ("HALT", LEFT),
    ("EXIT", LEFT),
    ("QUIT", LEFT),
    ("ABORT", LEFT),
    ("LEAVE", LEFT),
    ("ENDIF", CLOSED),
    ("ENDWHILE", CLOSED),
    ("ENDFOR", CLOSED),
    ("ENDSWITCH", CLOSED),
    ("ENDPROC", CLOSED),
    ("WEND", CLOSED),
    ("FI", CLOSED),
    ("OD", CLOSED),
    ("ESAC", CLOSED),
    ("SWITCH", CHOICE),
    ("SELECT", CHOICE),
    ("MATCH", CHOICE),
    ("CALL", CALL),
    ("GOSUB", CALL),
    ("PERFORM", CALL),
    ("DIM", VECTOR),
    ("ARRAY", VECTOR),
    ("VECTOR", VECTOR),
    ("NEW", VECTOR),
    ("TRY", EXCEPTION),
    ("CATCH", EXCEPTION),
    ("EXCEPT", EXCEPTION),
    ("RAISE", EXCEPTION),
    ("THROW", EXCEPTION),
    ("PRINT", OUTPUT),
    ("PRINTLN", OUTPUT),
    ("PRINTF", OUTPUT),
    ("WRITE", OUTPUT),
    ("WRITELN", OUTPUT),
    ("PUTS", OUTPUT),
    ("ECHO", OUTPUT),
    ("DISPLAY", OUTPUT),
    (
        "WHEN",
        "write IF E DO C, or for a choice among values SWITCHON N INTO $( CASE 1: .. ENDCASE .. $)",
    ),
    (
        "RESULT",
        "a VALOF returns its value by RESULTIS, as in RESULTIS X",
    ),
    (
        "FOREVER",
        "a loop without an end is written $( .. $) REPEAT; BREAK leaves it",
    ),
    ("GO", "GOTO is one word, as in GOTO L"),
    ("EACH", "a FOR counts: FOR I = 0 TO 9 DO .. V!I .."),
    (
        "LAMBDA",
        "each function has a name: declare it as LET F(X) = X + 1, and pass F",
    ),
];

/// Reserved words, and the help for a name that resembles one.
const RESERVED: [(&str, &str); 25] = [
    ("LET", "perhaps LET is meant, as in LET X = 1"),
    ("FOR", "perhaps FOR is meant, as in FOR I = 0 TO 9 DO C"),
    (
        "MANIFEST",
        "perhaps MANIFEST is meant, as in MANIFEST $( N = 10 $)",
    ),
    (
        "STATIC",
        "perhaps STATIC is meant, as in STATIC $( N = 0 $)",
    ),
    (
        "GLOBAL",
        "perhaps GLOBAL is meant, as in GLOBAL $( N:100 $)",
    ),
    ("TEST", "perhaps TEST is meant, as in TEST E THEN C ELSE D"),
    ("THEN", "perhaps THEN is meant, as in IF E THEN C"),
    ("ELSE", "perhaps ELSE is meant, as in TEST E THEN C ELSE D"),
    ("UNLESS", "perhaps UNLESS is meant, as in UNLESS E DO C"),
    ("WHILE", "perhaps WHILE is meant, as in WHILE E DO C"),
    ("UNTIL", "perhaps UNTIL is meant, as in UNTIL E DO C"),
    ("REPEAT", "perhaps REPEAT is meant, as in $( .. $) REPEAT"),
    (
        "REPEATWHILE",
        "perhaps REPEATWHILE is meant, as in $( .. $) REPEATWHILE E",
    ),
    (
        "REPEATUNTIL",
        "perhaps REPEATUNTIL is meant, as in $( .. $) REPEATUNTIL E",
    ),
    (
        "SWITCHON",
        "perhaps SWITCHON is meant, as in SWITCHON N INTO $( CASE 1: .. ENDCASE .. $)",
    ),
    (
        "INTO",
        "perhaps INTO is meant, as in SWITCHON N INTO $( CASE 1: .. ENDCASE .. $)",
    ),
    ("CASE", "perhaps CASE is meant, as in CASE 1: C; ENDCASE"),
    (
        "ENDCASE",
        "perhaps ENDCASE is meant, as in CASE 1: C; ENDCASE",
    ),
    (
        "RESULTIS",
        "perhaps RESULTIS is meant, as in VALOF $( .. RESULTIS X $)",
    ),
    (
        "VALOF",
        "perhaps VALOF is meant, as in VALOF $( .. RESULTIS X $)",
    ),
    ("RETURN", "perhaps RETURN is meant, which leaves a routine"),
    ("FINISH", "perhaps FINISH is meant, which ends the run"),
    ("BREAK", "perhaps BREAK is meant, which leaves a loop"),
    ("GOTO", "perhaps GOTO is meant, as in GOTO L"),
    ("TABLE", "perhaps TABLE is meant, as in TABLE 1, 2, 3"),
];

/// Whether two texts have the same letter at these offsets, in upper or lower case.
fn is_same_at(one: &[u8], first: usize, other: &[u8], second: usize) -> bool {
    match (one.get(first), other.get(second)) {
        (Some(left), Some(right)) => left.to_ascii_uppercase() == right.to_ascii_uppercase(),
        _ => false,
    }
}

/// Whether two texts are equal from these offsets on, in upper or lower case.
fn is_same_from(one: &[u8], first: usize, other: &[u8], second: usize) -> bool {
    match (one.get(first..), other.get(second..)) {
        (Some(left), Some(right)) => left.eq_ignore_ascii_case(right),
        _ => false,
    }
}

/// How many letters two texts have in common at the beginning.
fn common_start(one: &[u8], other: &[u8]) -> usize {
    let mut count: usize = 0;
    for _ in 0..one.len() {
        if !is_same_at(one, count, other, count) {
            break;
        }
        count = count.saturating_add(1);
    }
    count
}

/// Whether a name is a reserved word in which two letters are exchanged. In longer words, one letter may instead be wrong,
/// lacking or too many.
fn is_slip(name: &[u8], word: &[u8]) -> bool {
    let same = common_start(name, word);
    let next = same.saturating_add(1);
    let after = next.saturating_add(1);
    let is_exchanged = is_same_at(name, same, word, next)
        && is_same_at(name, next, word, same)
        && is_same_from(name, after, word, after);
    let is_long = name.len() > 3 && word.len() > 3;
    is_exchanged
        || is_long
            && (is_same_from(name, next, word, next)
                || is_same_from(name, next, word, same)
                || is_same_from(name, same, word, next))
}

/// The help for a word of another language.
fn help_for_word(name: &[u8]) -> Option<&'static str> {
    for (word, help) in WORDS {
        if name.eq_ignore_ascii_case(word.as_bytes()) {
            return Some(help);
        }
    }
    None
}

/// The help for a misspelt reserved word.
fn help_for_slip(name: &[u8]) -> Option<&'static str> {
    for (word, help) in RESERVED {
        if is_slip(name, word.as_bytes()) {
            return Some(help);
        }
    }
    None
}

/// Whether what is around the name with this index shows that it is declared, or used as a variable.
fn is_variable(tokens: &[Token<'_>], at: usize) -> bool {
    let next = at.saturating_add(1);
    if let Some(Symbol::Equal | Symbol::Colon | Symbol::Assign | Symbol::Comma) = symbol_at(
        tokens, next,
    ) {
        return true;
    }
    match at.checked_sub(1) {
        Some(before) => matches!(
            symbol_at(tokens, before),
            Some(Symbol::Let | Symbol::And | Symbol::For | Symbol::Comma | Symbol::OpenBracket)
        ),
        None => false,
    }
}

/// Whether this name is declared, or used as a variable, anywhere among the tokens.
fn is_known(tokens: &[Token<'_>], name: &[u8]) -> bool {
    for at in 0..tokens.len() {
        if text_at(tokens, at) == name && is_variable(tokens, at) {
            return true;
        }
    }
    false
}

/// Advice on the name with this index, with this help.
fn unknown(tokens: &[Token<'_>], at: usize, help: Option<&'static str>) -> Option<Advice> {
    let help = help?;
    if !is_name(tokens, at) || is_known(tokens, text_at(tokens, at)) {
        return None;
    }
    Some(Advice::at(at, at, UNKNOWN, help))
}

/// Advice on a refused name that resembles a reserved word, or a name before a refused token.
pub fn reserved_advice(tokens: &[Token<'_>], at: usize) -> Option<Advice> {
    let before = at.checked_sub(1)?;
    let name = text_at(tokens, before);
    let help = help_for_word(name);
    let help = if help.is_some() {
        help
    } else {
        help_for_slip(name)
    };
    let advice = unknown(tokens, before, help);
    if advice.is_some() {
        return advice;
    }
    if begins_line(tokens, at) && depth_at(tokens, at) > 0 {
        return None;
    }
    unknown(tokens, at, help_for_slip(text_at(tokens, at)))
}
