//! Known mistakes that are recognized by a refused token and the tokens next to it.

use crate::brackets::{is_in_round, open_bracket};
use crate::words::{back, is_at, is_symbol};
use bc_lex_tokens::{Symbol, Token, TokenKind};

/// The helps for two adjacent spellings.
const PAIRS: [(&[u8], &[u8], &str); 31] = [
    (b"=", b"=", "write equality with a single ="),
    (b"=", b"<", "write <= for at most"),
    (b"=", b">", "write >= for at least"),
    (
        b"FOR",
        b"LET",
        "FOR declares its variable itself, as in FOR I = 1 TO 9 DO ..",
    ),
    (
        b"FOR",
        b"(",
        "write FOR without parentheses, as in FOR I = 0 TO 9 DO ..",
    ),
    (b"~", b"=", "write ~= or NE for not equal"),
    (b"!", b"=", "write ~= or NE for not equal"),
    (
        b"<",
        b">",
        "write ~= or NE for not equal, and << or >> for a shift",
    ),
    (
        b"<",
        b"=",
        "write ~= or NE for not equal, and << or >> for a shift",
    ),
    (
        b">",
        b">",
        "write ~= or NE for not equal, and << or >> for a shift",
    ),
    (
        b">",
        b"=",
        "write ~= or NE for not equal, and << or >> for a shift",
    ),
    (b"+", b"+", "to add to X, write X := X + 1"),
    (b"+", b"=", "to add to X, write X := X + 1"),
    (b"-", b"-", "to subtract from X, write X := X - 1"),
    (b"-", b"=", "to subtract from X, write X := X - 1"),
    (b"*", b"=", "to multiply X, write X := X * 2"),
    (
        b"/",
        b"=",
        "write ~= or NE for not equal; to divide X, write X := X / 2",
    ),
    (b"=", b"+", "to add to X, write X := X + 1"),
    (b"=", b"/", "to divide X, write X := X / 2"),
    (b"+", b":=", "to add to X, write X := X + 1"),
    (b"-", b":=", "to subtract from X, write X := X - 1"),
    (b"*", b":=", "to multiply X, write X := X * 2"),
    (b"/", b":=", "to divide X, write X := X / 2"),
    (b"&", b"&", "write and with a single &"),
    (b"|", b"|", "write or with a single |"),
    (
        b"DO",
        b";",
        "leave out the ; after DO, since a command follows it; one that does nothing is $( $)",
    ),
    (
        b"THEN",
        b";",
        "leave out the ; after THEN, since a command follows it; one that does nothing is $( $)",
    ),
    (b"DO", b"LET", DECLARED_BODY),
    (b"THEN", b"LET", DECLARED_BODY),
    (b"ELSE", b"LET", DECLARED_BODY),
    (b"BE", b"LET", DECLARED_BODY),
];

/// The help for a declaration that is a command's or a routine's body.
const DECLARED_BODY: &str =
    "a body that declares a variable is a block, as in $( LET N = 0; WRITEN(N) $)";

/// The helps for a spelling, whatever follows it.
const FIRSTS: [(&[u8], &str); 7] = [
    (
        b"RETURN",
        "RETURN returns no value; a function's value is the expression after its =, as in LET F(X) = VALOF $( .. RESULTIS X $)",
    ),
    (
        b"MANIFEST",
        "put the names between $( and $), as in MANIFEST $( N = 10; M = 20 $)",
    ),
    (
        b"STATIC",
        "put the names between $( and $), as in STATIC $( N = 10; M = 20 $)",
    ),
    (
        b"GLOBAL",
        "put the names between $( and $), as in GLOBAL $( N:100; M:101 $)",
    ),
    (
        b"NEXT",
        "FOR has no NEXT; its body is one command, or a block $( .. $) of several",
    ),
    (
        b"next",
        "FOR has no NEXT; its body is one command, or a block $( .. $) of several",
    ),
    (
        b"Next",
        "FOR has no NEXT; its body is one command, or a block $( .. $) of several",
    ),
];

/// The signs of relations.
const RELATIONS: [&[u8]; 12] = [
    b"<", b"<=", b">", b">=", b"=", b"~=", b"LE", b"GE", b"EQ", b"NE", b"LS", b"GR",
];

/// The helps for names that are operators or brackets in other languages.
const NAMES: [(&[u8], &str); 8] = [
    (b"MOD", "write REM for the remainder"),
    (b"mod", "write REM for the remainder"),
    (b"XOR", "write NEQV for exclusive or"),
    (b"xor", "write NEQV for exclusive or"),
    (b"BEGIN", "open a block with $( and close it with $)"),
    (b"begin", "open a block with $( and close it with $)"),
    (b"END", "close a block with $)"),
    (b"end", "close a block with $)"),
];

/// The help for a command where an expression is needed.
const COMMAND: &str =
    "this begins a command; to use commands in an expression, write VALOF $( .. RESULTIS E $)";

/// The help for a declaration after commands.
const DECLARATION: &str =
    "put a block's declarations before its commands, separated by ; or line breaks; to declare more, open another block with $(";

/// The help for REPEAT and its variants without a command.
const REPEATED: &str =
    "write it after its command, as in $( .. $) REPEAT or $( .. $) REPEATUNTIL E";

/// The helps for a refused symbol, whatever surrounds it.
const SYMBOLS: [(Symbol, &str); 21] = [
    (
        Symbol::Else,
        "ELSE and OR belong to TEST .. THEN .. ELSE; an IF has no second command; write | for the operator or",
    ),
    (
        Symbol::And,
        "AND continues a declaration that LET begins; write & for the operator and",
    ),
    (Symbol::Let, DECLARATION),
    (Symbol::Manifest, DECLARATION),
    (Symbol::Static, DECLARATION),
    (Symbol::Global, DECLARATION),
    (Symbol::If, COMMAND),
    (Symbol::Unless, COMMAND),
    (Symbol::While, COMMAND),
    (Symbol::Until, COMMAND),
    (Symbol::For, COMMAND),
    (Symbol::SwitchOn, COMMAND),
    (Symbol::Test, COMMAND),
    (Symbol::Return, COMMAND),
    (Symbol::Break, COMMAND),
    (Symbol::OpenSection, COMMAND),
    (
        Symbol::Vector,
        "declare a vector as LET V = VEC K, with nothing else in its definition",
    ),
    (Symbol::ResultIs, "RESULTIS belongs in VALOF $( .. $)"),
    (Symbol::Repeat, REPEATED),
    (Symbol::RepeatWhile, REPEATED),
    (Symbol::RepeatUntil, REPEATED),
];

/// The text of a token; empty if there is none.
fn text_of<'s>(token: Option<&Token<'s>>) -> &'s [u8] {
    match token {
        Some(token) => token.text,
        None => b"",
    }
}

/// The helps for two tokens with no space between them: how the first one begins, how the second one may begin, and the
/// help. If no bytes are given for the second one, it begins with a letter, a digit or a quote.
const GLUED: [(&[u8], &[u8], &str); 3] = [
    (
        b"#",
        b"89",
        "the octal digits after # are 0 to 7; write a decimal number without #",
    ),
    (b"0", b"xX", "write hexadecimal digits after #X, as in #X1F"),
    (b"\"", b"", "write a quote in a string as *\""),
];

/// Whether a spelling begins with one of these bytes; if there are none, with a letter, a digit or a quote.
fn begins_with(spelling: &[u8], bytes: &[u8]) -> bool {
    match spelling.first() {
        Some(byte) if bytes.is_empty() => byte.is_ascii_alphanumeric() || *byte == b'"',
        Some(byte) => bytes.contains(byte),
        None => false,
    }
}

/// The help for two spellings with no space between them.
fn help_for_glued(before: &[u8], at: &[u8]) -> Option<&'static str> {
    for (front, bytes, help) in &GLUED {
        if before.starts_with(*front) && begins_with(at, *bytes) {
            return Some(*help);
        }
    }
    None
}

/// Whether a token is a name.
fn is_name(token: Option<&Token<'_>>) -> bool {
    match token {
        Some(token) => matches!(token.kind, TokenKind::Name(_)),
        None => false,
    }
}

/// Whether a token is LET or AND.
fn is_let(token: Option<&Token<'_>>) -> bool {
    match token {
        Some(token) => is_symbol(token, Symbol::Let) || is_symbol(token, Symbol::And),
        None => false,
    }
}

/// Whether a spelling is the sign of a relation.
fn is_relation(found: &[u8]) -> bool {
    RELATIONS.iter().any(|relation| *relation == found)
}

/// The help for a spelling in these rows.
fn help_in_rows(rows: &[(&[u8], &'static str)], spelling: &[u8]) -> Option<&'static str> {
    for (known, help) in rows {
        if is_same(known, spelling) {
            return Some(*help);
        }
    }
    None
}

/// Whether two spellings are equal.
fn is_same(one: &[u8], other: &[u8]) -> bool {
    one == other
}

/// The help for two adjacent spellings, if they are a known pair.
fn help_for_known(before: &[u8], at: &[u8]) -> Option<&'static str> {
    for (first, second, help) in &PAIRS {
        if is_same(first, before) && is_same(second, at) {
            return Some(*help);
        }
    }
    None
}

/// The help for two adjacent spellings.
fn help_for_pair(before: &[u8], at: &[u8]) -> Option<&'static str> {
    let help = help_for_known(before, at).or(help_in_rows(&FIRSTS, before));
    if help.is_none() && is_relation(at) {
        Some("relations don't chain: write (A <= B) & (B <= C)")
    } else {
        help
    }
}

/// The help where VEC ends its line.
pub const VECTOR_WITHOUT_SIZE: &str =
    "perhaps VEC has no size, and this line was read as the size; write LET V = VEC 10";

/// How many tokens before an index are searched for the beginning of its line.
const LOOK_BACK: usize = 12;

/// The index of the token that begins the line of the one at `index`, if it is near.
fn begin_of_line(tokens: &[Token<'_>], index: usize) -> Option<usize> {
    for count in 0..LOOK_BACK {
        let place = index.checked_sub(count)?;
        if tokens.get(place)?.line_before {
            return Some(place);
        }
    }
    None
}

/// Whether VEC ends the line before that of an index, so that the name at the beginning of this line was read as the
/// vector's size.
fn is_after_open_vector(tokens: &[Token<'_>], index: usize) -> bool {
    match begin_of_line(tokens, index) {
        Some(begin) => {
            is_name(tokens.get(begin)) && is_at(tokens, begin.wrapping_sub(1), Symbol::Vector)
        }
        None => false,
    }
}

/// The help where a line was read as the size of a VEC, or two tokens have no space between them.
fn help_for_number(tokens: &[Token<'_>], index: usize) -> Option<&'static str> {
    let before = back(tokens, index, 1)?;
    let at = tokens.get(index)?;
    if is_after_open_vector(tokens, index) {
        Some(VECTOR_WITHOUT_SIZE)
    } else if before.end == at.start {
        help_for_glued(before.text, at.text)
    } else {
        None
    }
}

/// The help for a `*` that was meant as indirection.
pub const POINTER: &str =
    "write !P for the cell at P; a line that begins with * continues the line before it";

/// Whether a `*` begins the line of the token before an index.
pub fn is_after_star(tokens: &[Token<'_>], index: usize) -> bool {
    match begin_of_line(tokens, index.wrapping_sub(1)) {
        Some(begin) => is_at(tokens, begin, Symbol::Multiply),
        None => false,
    }
}

/// Whether there is a `*` at an index, followed by a name.
fn is_pointer(tokens: &[Token<'_>], index: usize) -> bool {
    is_at(tokens, index, Symbol::Multiply) && is_name(tokens.get(index.saturating_add(1)))
}

/// The help for a refused `:=`, by what comes before it.
fn help_for_assign(tokens: &[Token<'_>], index: usize) -> Option<&'static str> {
    if is_after_star(tokens, index) {
        Some(POINTER)
    } else if is_in_round(tokens, index) {
        Some(
            "an assignment is a command, not a value; assign first, or use VALOF $( .. RESULTIS E $); to compare, write =",
        )
    } else {
        None
    }
}

/// The help for a refused `:=`, `)` or `*`, by what surrounds it.
fn help_for_sign(tokens: &[Token<'_>], index: usize) -> Option<&'static str> {
    if is_at(tokens, index, Symbol::Assign) {
        help_for_assign(tokens, index)
    } else if is_at(tokens, index, Symbol::CloseBracket) && !is_in_round(tokens, index) {
        Some("this ) closes nothing; every ( before it is closed")
    } else if is_pointer(tokens, index) {
        Some(POINTER)
    } else {
        None
    }
}

/// Whether LET or AND and a name come before the name at an index, as in a declaration with a type.
fn is_typed(tokens: &[Token<'_>], index: usize) -> bool {
    is_let(back(tokens, index, 2)) && is_name(back(tokens, index, 1)) && is_name(tokens.get(index))
}

/// Whether these two symbols are adjacent, the first of them at an index.
fn are_at(tokens: &[Token<'_>], place: usize, one: Symbol, other: Symbol) -> bool {
    is_at(tokens, place, one) && is_at(tokens, place.wrapping_add(1), other)
}

/// Whether there is a comma at an index, and the innermost open bracket before it follows TABLE.
fn is_enclosed_table(tokens: &[Token<'_>], index: usize) -> bool {
    let open = match open_bracket(tokens, index) {
        Some(open) => open,
        None => return false,
    };
    is_at(tokens, index, Symbol::Comma) && is_at(tokens, open.wrapping_sub(1), Symbol::Table)
}

/// The help for an ELSE or OR after the command of an IF.
const NO_SECOND: &str =
    "an IF has no second command; write TEST E THEN C ELSE D, where ELSE may be written OR";

/// The help for an ELSE or OR after the command of an UNLESS.
const NO_SECOND_UNLESS: &str =
    "an UNLESS has no second command; write TEST E THEN D ELSE C, with its own command C after ELSE";

/// The help for OR in a condition.
const NO_OR: &str = "write | for the operator or; OR is another word for the ELSE of a TEST";

/// Whether there is IF or UNLESS at an index.
fn is_choice(tokens: &[Token<'_>], place: usize) -> bool {
    is_at(tokens, place, Symbol::If) || is_at(tokens, place, Symbol::Unless)
}

/// The help for a second command after the IF or UNLESS at an index.
fn no_second(tokens: &[Token<'_>], place: usize) -> &'static str {
    if is_at(tokens, place, Symbol::Unless) {
        NO_SECOND_UNLESS
    } else {
        NO_SECOND
    }
}

/// Whether there is TEST, WHILE or UNTIL at an index.
fn is_other_condition(tokens: &[Token<'_>], place: usize) -> bool {
    is_at(tokens, place, Symbol::Test)
        || is_at(tokens, place, Symbol::While)
        || is_at(tokens, place, Symbol::Until)
}

/// How many tokens before an ELSE or OR are searched for the command that it may continue.
const FAR_BACK: usize = 200;

/// The help for an ELSE or OR after the command of an IF or UNLESS, or in a condition. It is found from the words of commands
/// before it that are in the same block.
fn help_for_else(tokens: &[Token<'_>], index: usize) -> Option<&'static str> {
    if !is_at(tokens, index, Symbol::Else) {
        return None;
    }
    let mut inside: usize = 0;
    // IF A C ELSE D lacks its DO, which is no reason to explain OR.
    let mut has_command = text_of(tokens.get(index)) == b"ELSE".as_slice();
    for count in 1..FAR_BACK {
        let place = index.checked_sub(count)?;
        if is_at(tokens, place, Symbol::CloseSection) {
            inside = inside.saturating_add(1);
        } else if is_at(tokens, place, Symbol::OpenSection) {
            inside = inside.checked_sub(1)?;
        } else if inside == 0 {
            if is_at(tokens, place, Symbol::Do) {
                has_command = true;
            } else if is_choice(tokens, place) {
                return Some(if has_command {
                    no_second(tokens, place)
                } else {
                    NO_OR
                });
            } else if is_other_condition(tokens, place) {
                return if has_command { None } else { Some(NO_OR) };
            }
        }
    }
    None
}

/// The help for known mistakes of three tokens, or of a refused token and the one after it.
fn help_for_further(tokens: &[Token<'_>], index: usize) -> Option<&'static str> {
    if is_typed(tokens, index) {
        Some("variables have no types; declare one as LET X = 1")
    } else if are_at(tokens, index.wrapping_sub(2), Symbol::Minus, Symbol::Minus) {
        Some("to subtract from X, write X := X - 1")
    } else if are_at(tokens, index, Symbol::Semicolon, Symbol::Else) {
        Some("write no ; before ELSE")
    } else if is_enclosed_table(tokens, index) {
        Some("write the values of a TABLE without parentheses, as in TABLE 1, 2, 3")
    } else {
        help_for_else(tokens, index)
    }
}

/// The help for known mistakes around a refused token.
pub fn help_for_neighbours(tokens: &[Token<'_>], index: usize) -> Option<&'static str> {
    let before = text_of(back(tokens, index, 1));
    let of_pair = help_for_pair(before, text_of(tokens.get(index)));
    help_for_number(tokens, index)
        .or(of_pair)
        .or(help_for_further(tokens, index))
        .or(help_for_sign(tokens, index))
}

/// The help for a name that is an operator or a bracket in other languages.
pub fn help_for_name(name: &[u8]) -> Option<&'static str> {
    help_in_rows(&NAMES, name)
}

/// The help for a refused token, whatever surrounds it.
pub fn help_for_token(token: Option<&Token<'_>>) -> Option<&'static str> {
    let token = token?;
    for (symbol, help) in &SYMBOLS {
        if is_symbol(token, *symbol) {
            return Some(*help);
        }
    }
    None
}
