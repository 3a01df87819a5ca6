//! The dialect of a source, and the kinds of words and square brackets in it.

use crate::context::is_let_or_and;
use crate::kind::Kind;
use crate::shared_names::SharedNames;
use crate::source::{Token, TokenizedText};
use crate::words::{MOST_WORDS, ReservedWord, is_same_word, is_small, reserved, reserved_place};
use bc_word::Memory;
use std::alloc::Global;

/// What a source shows about its dialect.
#[derive(Clone, Copy)]
pub struct Dialect {
    /// Reserved words are in lower case.
    pub has_small_words: bool,
    /// Names of the library are in lower case.
    pub has_small_library: bool,
    /// `*` directly followed by a parenthesis or square bracket is a subscript.
    pub has_star_subscripts: bool,
    /// Strings are in single quotes, as characters are.
    pub has_quoted_strings: bool,
    /// `@` gives the contents of a cell, and `%` is a logical or. No source shows this by itself.
    pub has_alto_signs: bool,
}

impl Dialect {
    /// The dialect of a source whose tokens aren't classified yet.
    ///
    /// Reserved words are in lower case if the source begins with one, or if a word follows `let` on the same line,
    /// which this dialect can't have. The library's names are in lower case if reserved words are, if `GET "libhdr"`
    /// is, or if `start` is declared and START isn't. `*(` and `*[` are subscripts if something is assigned to one of
    /// them. Strings are in single quotes if more than one character is, and nothing is in double quotes.
    pub fn of(source: TokenizedText<'_>) -> Dialect {
        let has_small_words = begins_small(source) || has_small_let(source);
        Dialect {
            has_small_words,
            has_small_library: has_small_words || has_small_library(source),
            has_star_subscripts: assigns_to_star(source),
            has_quoted_strings: has_quoted_strings(source),
            has_alto_signs: false,
        }
    }

    /// This dialect, in a program in which another source has the dialect `other`. The case of the library's names is the
    /// same in all sources of a program; the rest is each source's own.
    pub fn among(self, other: Dialect) -> Dialect {
        Dialect {
            has_small_library: self.has_small_library || other.has_small_library,
            ..self
        }
    }
}

/// Whether strings are in single quotes: something other than a single character is, and only names of headers are in
/// double quotes.
fn has_quoted_strings(source: TokenizedText<'_>) -> bool {
    let count = source.tokens.len();
    let has_string = (0..count).any(|index| source.kind(index) == Kind::Character
        && !is_character(source.bytes(index)));
    has_string
        && (0..count).all(|index| source.kind(index) != Kind::Text
            || index > 0 && is_same_word(source.bytes(index - 1), b"GET"))
}

/// Whether a character constant, with its quotes, has a single character.
fn is_character(bytes: &[u8]) -> bool {
    match bytes {
        [b'\'', b'*', second, ..] => {
            bytes.len() == 4 || second.is_ascii_digit() || b"XxDdOo".contains(second)
        }
        [b'\'', ..] => bytes.len() == 3,
        _ => true,
    }
}

/// Whether the token at an index must be a string: it is the first argument of WRITES, WRITEF, FINDINPUT or FINDOUTPUT, or
/// the name after GET.
fn must_be_string(source: TokenizedText<'_>, index: usize) -> bool {
    if index > 0 && is_same_word(source.bytes(index - 1), b"GET") {
        return true;
    }
    let is_argument = index > 1
        && matches!(source.kind(index - 1), Kind::OpenRound | Kind::OpenSquare);
    let name = if is_argument {
        source.bytes(index - 2)
    } else {
        return false;
    };
    is_same_word(name, b"WRITES")
        || is_same_word(name, b"WRITEF")
        || is_same_word(name, b"FINDINPUT")
        || is_same_word(name, b"FINDOUTPUT")
}

/// Whether the first word is a reserved word in lower case.
fn begins_small(source: TokenizedText<'_>) -> bool {
    let first = source.bytes(0);
    source.kind(0) == Kind::Word && is_small(first) && reserved(first, true).is_some()
}

/// Whether a word follows `let` on the same line.
fn has_small_let(source: TokenizedText<'_>) -> bool {
    for index in 1..source.tokens.len() {
        let is_in_line = !source.gap(index).contains(&b'\n');
        if source.kind(index) == Kind::Word
            && is_in_line
            && source.bytes(index - 1) == b"let".as_slice()
        {
            return true;
        }
    }
    false
}

/// Whether a string is the name of the library's header in lower case, with any extension.
fn is_small_header(string: &[u8]) -> bool {
    string == b"\"libhdr\"".as_slice() || string.starts_with(b"\"libhdr.".as_slice())
}

/// Whether a routine of this name is declared.
fn declares_routine(source: TokenizedText<'_>, name: &[u8]) -> bool {
    (1..source.tokens.len()).any(|index| source.bytes(index) == name
        && is_let_or_and(source, index - 1)
        && source.kind(index.saturating_add(1)) == Kind::OpenRound)
}

/// Whether the library's names are in lower case in a source whose reserved words are in upper case.
fn has_small_library(source: TokenizedText<'_>) -> bool {
    let gets_header = (1..source.tokens.len()).any(|index| is_small_header(source.bytes(index))
        && is_same_word(source.bytes(index - 1), b"GET"));
    gets_header || declares_routine(source, b"start") && !declares_routine(source, b"START")
}

/// Whether `*` is directly followed by a parenthesis or square bracket.
fn is_star_subscript(source: TokenizedText<'_>, star: usize) -> bool {
    let bracket = star.saturating_add(1);
    source.kind(star) == Kind::Star
        && matches!(source.kind(bracket), Kind::OpenRound | Kind::OpenSquare)
        && source.end(star) == source.start(bracket)
}

/// Whether a command assigns to a subscript with a star.
fn assigns_to_star(source: TokenizedText<'_>) -> bool {
    for star in 1..source.tokens.len() {
        let closing = source.partner(star.saturating_add(1));
        if is_star_subscript(source, star)
            && matches!(source.kind(closing), Kind::CloseRound | Kind::CloseSquare)
            && matches!(
                source.kind(closing.saturating_add(1)),
                Kind::Assign | Kind::Underline
            )
        {
            return true;
        }
    }
    false
}

/// Whether the bracket at an index opens a list of GLOBAL, MANIFEST or STATIC.
fn opens_entries(source: TokenizedText<'_>, index: usize) -> bool {
    if index == 0 {
        return false;
    }
    let word = source.bytes(index - 1);
    is_same_word(word, b"GLOBAL")
        || is_same_word(word, b"MANIFEST")
        || is_same_word(word, b"STATIC")
}

/// Whether an index is in a list of GLOBAL, MANIFEST or STATIC.
fn is_in_entries(source: TokenizedText<'_>, index: usize) -> bool {
    match source.context(index).bracket {
        Some(bracket) => {
            matches!(source.kind(bracket), Kind::OpenSection | Kind::OpenSquare)
                && opens_entries(source, bracket)
        }
        None => false,
    }
}

/// Whether an entry of such a list can begin at an index: after the bracket, a semicolon or a line break, or after a
/// comma if a value follows.
fn begins_entry(source: TokenizedText<'_>, index: usize) -> bool {
    if index == 0 {
        return false;
    }
    match source.kind(index - 1) {
        Kind::OpenSection | Kind::OpenSquare | Kind::Semicolon => true,
        Kind::Comma => source.kind(index.saturating_add(1)) == Kind::Equal,
        Kind::Word | Kind::Number | Kind::Character | Kind::CloseRound | Kind::Query => {
            source.gap(index).contains(&b'\n')
        }
        _ => false,
    }
}

/// Whether only words, commas and opening parentheses are between LET or AND and an index, and no word directly
/// before it.
fn is_in_heading(source: TokenizedText<'_>, index: usize) -> bool {
    index > 0 && source.kind(index - 1) != Kind::Word && source.context(index).is_in_heading
}

/// Whether the word at an index is declared there, provided that it is a name.
fn is_declared_at(source: TokenizedText<'_>, index: usize) -> bool {
    if index == 0 {
        return false;
    }
    is_let_or_and(source, index - 1)
        || is_same_word(source.bytes(index - 1), b"FOR")
        || is_in_heading(source, index)
        || begins_entry(source, index) && is_in_entries(source, index)
}

/// Whether the word at an index, a reserved one of old dialects, is used there as a name: it is declared or assigned
/// to, or no operand follows although an operator would need one.
fn is_used_as_name(source: TokenizedText<'_>, index: usize, kind: Kind) -> bool {
    let is_operator = !matches!(kind, Kind::Constant | Kind::Joint);
    match source.kind(index.saturating_add(1)) {
        Kind::Assign | Kind::Colon => true,
        Kind::Comma | Kind::CloseRound | Kind::Semicolon | Kind::Equal | Kind::Relation =>
            is_operator || is_declared_at(source, index),
        _ => is_declared_at(source, index),
    }
}

/// Whether the word at an index begins a command, or is the destination of a GOTO.
fn begins_command(source: TokenizedText<'_>, index: usize) -> bool {
    if index == 0 {
        return false;
    }
    matches!(
        source.kind(index - 1),
        Kind::Semicolon | Kind::OpenSection | Kind::OpenSquare | Kind::Colon
    ) || source.gap(index).contains(&b'\n')
        || is_same_word(source.bytes(index - 1), b"GOTO")
}

/// Whether the sign of an assignment is at an index: `:=`, `_`, or an operator and `:=`.
fn is_assignment(source: TokenizedText<'_>, index: usize) -> bool {
    match source.kind(index) {
        Kind::Assign | Kind::Underline => true,
        kind => kind.level() > 1 && source.kind(index.saturating_add(1)) == Kind::Assign,
    }
}

/// Whether the reserved word at an index is declared there, assigned to, or a label.
fn is_set_as_name(source: TokenizedText<'_>, index: usize, kind: Kind) -> bool {
    let next = index.saturating_add(1);
    if kind.level() == 0 && is_assignment(source, next) {
        return true;
    }
    match source.kind(next) {
        Kind::OpenRound | Kind::OpenSquare => index > 0 && is_let_or_and(source, index - 1),
        Kind::Colon if begins_command(source, index) => kind != Kind::Default,
        Kind::Comma | Kind::CloseRound | Kind::Semicolon | Kind::Equal | Kind::Colon => {
            is_declared_at(source, index)
        }
        _ => false,
    }
}

/// The place of a spelling of a reserved word among all spellings: upper case or not.
fn spelling_place(source: TokenizedText<'_>, index: usize, number: usize) -> usize {
    let small = if is_small(source.bytes(index)) { 1 } else { 0 };
    number.saturating_mul(2).saturating_add(small)
}

/// Whether a word is a name that the sources of a program share.
fn is_shared_word(shared: Option<&SharedNames>, word: &[u8]) -> bool {
    match shared {
        Some(shared) => shared.has_word(word),
        None => false,
    }
}

/// For each spelling of each reserved word, whether it is a name somewhere in the source or in its program, and so
/// everywhere.
fn words_as_names(
    alloc: Global,
    source: TokenizedText<'_>,
    dialect: Dialect,
    shared: Option<&SharedNames>,
) -> Result<Vec<bool>, Memory> {
    let mut are_names = vec![in alloc; false; 2 * MOST_WORDS]?;
    for index in 0..source.tokens.len() {
        if source.kind(index) != Kind::Word {
            continue;
        }
        if let Some((number, word)) = reserved_place(source.bytes(index), dialect.has_small_words) {
            let place = spelling_place(source, index, number);
            let is_name = is_name_at(source, index, word)
                || is_shared_word(shared, source.bytes(index));
            if is_name && place < are_names.len() {
                are_names[place] = true;
            }
        }
    }
    Ok(are_names)
}

/// Whether the reserved word at an index is used as a name there.
fn is_name_at(source: TokenizedText<'_>, index: usize, word: &ReservedWord) -> bool {
    if word.is_name_now {
        is_used_as_name(source, index, word.kind)
    } else {
        is_set_as_name(source, index, word.kind)
    }
}

/// The kind of the word at an index. `are_names` has the reserved words that are names in this source.
fn kind_of_word(
    source: TokenizedText<'_>,
    index: usize,
    dialect: Dialect,
    are_names: &[bool],
) -> Kind {
    match reserved_place(source.bytes(index), dialect.has_small_words) {
        None => Kind::Name,
        Some((_, word)) if word.kind == Kind::Header => {
            if source.kind(index.saturating_add(1)) == Kind::Text {
                Kind::Header
            } else {
                Kind::Name
            }
        }
        Some((number, word)) => match are_names.get(spelling_place(source, index, number)) {
            Some(true) => Kind::Name,
            _ => word.kind,
        },
    }
}

/// The kind of a character constant, which may be a string.
fn kind_of_character(source: TokenizedText<'_>, index: usize, dialect: Dialect) -> Kind {
    let is_string = !is_character(source.bytes(index)) || must_be_string(source, index);
    if dialect.has_quoted_strings && is_string {
        Kind::Text
    } else {
        Kind::Character
    }
}

/// The kind of an opening square bracket: a parenthesis after an operand on the same line or where an operand is
/// required, else a section bracket.
fn kind_of_square(before: Kind, is_separated: bool) -> Kind {
    let opens_section = matches!(
        before,
        Kind::Be
            | Kind::Joint
            | Kind::Valof
            | Kind::Manifest
            | Kind::Static
            | Kind::Global
            | Kind::Semicolon
            | Kind::Colon
            | Kind::OpenSection
            | Kind::CloseSection
            | Kind::Foreign
            | Kind::End
    );
    if opens_section || is_separated {
        Kind::OpenSection
    } else {
        Kind::OpenRound
    }
}

/// The kind of a `?`: the arrow of a choice after an operand, as on the Alto, else an undefined value.
fn kind_of_query(before: Kind) -> Kind {
    match before {
        Kind::Name
        | Kind::Number
        | Kind::Character
        | Kind::Text
        | Kind::Constant
        | Kind::CloseRound => Kind::Arrow,
        _ => Kind::Query,
    }
}

/// The tokens with each word classified, and each square bracket taken for a parenthesis or a section bracket. `shared` has
/// the names that the source shares with others.
///
/// # Errors
///
/// `Memory` if an allocation failed.
pub fn classified(
    alloc: Global,
    source: TokenizedText<'_>,
    dialect: Dialect,
    shared: Option<&SharedNames>,
) -> Result<Vec<Token>, Memory> {
    let are_names = words_as_names(alloc, source, dialect, shared)?;
    let mut tokens = Vec::new(alloc);
    let mut open = Vec::new(alloc);
    let mut before = Kind::End;
    for (index, token) in source.tokens.iter().enumerate() {
        let kind = match token.kind {
            Kind::Word => kind_of_word(source, index, dialect, are_names.as_slice()),
            Kind::Character => kind_of_character(source, index, dialect),
            Kind::Percent if dialect.has_alto_signs => Kind::Disjunction,
            Kind::Query => kind_of_query(before),
            Kind::OpenSquare => {
                let kind = kind_of_square(before, token.line_before && before.can_end());
                open.push(kind)?;
                kind
            }
            Kind::CloseSquare => match open.pop() {
                Some(Kind::OpenSection) => Kind::CloseSection,
                _ => Kind::CloseRound,
            },
            kind => kind,
        };
        tokens.push(Token { kind, ..*token })?;
        before = kind;
    }
    Ok(tokens)
}
