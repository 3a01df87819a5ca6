//! Advice on statements as they are written in other languages, or were in older BCPL, by the tokens around a refused one.

use crate::advice::Advice;
use crate::words::{
    LOOK_BACK, begins_line, depth_at, has_symbol, is_at, is_in_list, is_joined, is_name, is_one_of,
    is_word, line_start, text_at,
};
use bc_lex_tokens::{Symbol, Token};

/// Words that continue a choice in other languages.
const FURTHER_CHOICES: [&str; 4] = ["ELIF", "ELSIF", "ELSEIF", "ELSE_IF"];

/// Advice on a word that continues a choice, before a refused token.
fn further_choice(tokens: &[Token<'_>], at: usize) -> Option<Advice> {
    let before = at.checked_sub(1)?;
    if is_name(tokens, before) && is_one_of(tokens, before, &FURTHER_CHOICES) {
        Some(Advice::at(
            before,
            before,
            "this word continues no choice",
            "write TEST .. THEN .. ELSE TEST .. THEN .. ELSE ..",
        ))
    } else {
        None
    }
}

/// Advice on BEGIN before a refused token.
fn begin(tokens: &[Token<'_>], at: usize) -> Option<Advice> {
    let before = at.checked_sub(1)?;
    if is_name(tokens, before) && is_word(tokens, before, "BEGIN") {
        Some(Advice::at(
            before,
            before,
            "BEGIN opens no block",
            "a block is written $( .. $)",
        ))
    } else {
        None
    }
}

/// Advice on a command of other languages that does nothing, if the line before a refused token ends with it.
fn idle(tokens: &[Token<'_>], at: usize) -> Option<Advice> {
    let last = at.checked_sub(1)?;
    if begins_line(tokens, at) && is_name(tokens, last) && is_word(tokens, last, "PASS") {
        Some(Advice::at(
            last,
            last,
            "PASS is no command",
            "a command that does nothing is written $( $)",
        ))
    } else {
        None
    }
}

/// Advice on several values of a RESULTIS, if the comma between them is refused.
fn results(tokens: &[Token<'_>], at: usize) -> Option<Advice> {
    if is_at(tokens, at, Symbol::Comma)
        && has_symbol(tokens, line_start(tokens, at), at, Symbol::ResultIs)
    {
        Some(Advice::help(
            "RESULTIS returns one value; the caller can pass addresses for others, as in MINMAX(A, B, @MIN, @MAX)",
        ))
    } else {
        None
    }
}

/// Advice on GLOBAL or STATIC before the name of something outside, in a routine.
fn outer_name(tokens: &[Token<'_>], at: usize) -> Option<Advice> {
    let before = at.checked_sub(1)?;
    let is_list = is_at(tokens, before, Symbol::Global) || is_at(tokens, before, Symbol::Static);
    if is_list && is_name(tokens, at) && depth_at(tokens, at) > 0 {
        Some(Advice::help(
            "a routine knows what is declared outside before it: leave this line out; new names are declared in $( .. $)",
        ))
    } else {
        None
    }
}

/// Advice on `&X` for an address.
fn address(tokens: &[Token<'_>], at: usize) -> Option<Advice> {
    let name = at.saturating_add(1);
    if is_at(tokens, at, Symbol::LogicalAnd) && is_name(tokens, name) && is_joined(tokens, name) {
        Some(Advice::at(
            at,
            name,
            "& needs an operand on its left",
            "the address of the variable X is written @X",
        ))
    } else {
        None
    }
}

/// Advice on `P->FIELD` before a refused token.
fn field(tokens: &[Token<'_>], at: usize) -> Option<Advice> {
    let name = at.checked_sub(1)?;
    let arrow = name.checked_sub(1)?;
    let record = arrow.checked_sub(1)?;
    let is_field = is_at(tokens, arrow, Symbol::Arrow)
        && is_name(tokens, record)
        && is_name(tokens, name)
        && is_joined(tokens, arrow)
        && is_joined(tokens, name);
    if is_field {
        Some(Advice::at(
            record,
            name,
            "-> belongs to a conditional expression, which has two values",
            "a field of a record is written P!FIELD",
        ))
    } else {
        None
    }
}

/// Advice on `(*`, which is meant to begin a comment.
fn starred_comment(tokens: &[Token<'_>], at: usize) -> Option<Advice> {
    let open = if is_at(tokens, at, Symbol::OpenBracket) {
        at
    } else {
        at.checked_sub(1)?
    };
    let star = open.saturating_add(1);
    let is_comment = is_at(tokens, open, Symbol::OpenBracket)
        && begins_line(tokens, open)
        && is_at(tokens, star, Symbol::Multiply)
        && is_joined(tokens, star);
    if is_comment {
        Some(Advice::at(
            open,
            star,
            "(* begins no comment",
            "a comment is written /* .. */, or begins with // and ends with its line",
        ))
    } else {
        None
    }
}

/// Advice on `CASE N OF`.
fn case_of(tokens: &[Token<'_>], at: usize) -> Option<Advice> {
    let start = line_start(tokens, at);
    if is_word(tokens, at, "OF") && has_symbol(tokens, start, at, Symbol::Case) {
        Some(Advice::at(
            start,
            at,
            "a choice among values begins with SWITCHON",
            "write SWITCHON N INTO $( CASE 1: .. ENDCASE .. DEFAULT: .. $)",
        ))
    } else {
        None
    }
}

/// Whether the token with this index is in the parameters of a routine that LET or AND declares.
fn is_in_parameters(tokens: &[Token<'_>], at: usize) -> bool {
    let mut index = at;
    for _ in 0..LOOK_BACK {
        index = match index.checked_sub(1) {
            Some(before) => before,
            None => return false,
        };
        if is_at(tokens, index, Symbol::OpenBracket) {
            let Some(before) = index.checked_sub(2) else {
                return false;
            };
            return is_at(tokens, before, Symbol::Let) || is_at(tokens, before, Symbol::And);
        }
        if !is_name(tokens, index) && !is_at(tokens, index, Symbol::Comma) {
            return false;
        }
    }
    false
}

/// Advice on the type of a parameter, if the colon before it is refused.
fn parameter_type(tokens: &[Token<'_>], at: usize) -> Option<Advice> {
    if is_at(tokens, at, Symbol::Colon) && is_in_parameters(tokens, at) {
        Some(Advice::help("parameters have no types, as in LET F(X, Y) = X + Y"))
    } else {
        None
    }
}

/// Advice on the head of a routine with a semicolon, which is meant to announce it.
fn announced(tokens: &[Token<'_>], at: usize) -> Option<Advice> {
    let start = line_start(tokens, at);
    let is_head = is_at(tokens, at, Symbol::Semicolon)
        && is_at(tokens, at.checked_sub(1)?, Symbol::CloseBracket)
        && is_at(tokens, start, Symbol::Let);
    if is_head {
        Some(Advice::help(
            "no routine is announced: join those that call one another by AND, as in LET F(X) = .. AND G(X) = ..",
        ))
    } else {
        None
    }
}

/// Whether the rest of the line, after the token with this index, has this name.
fn is_used_after(tokens: &[Token<'_>], at: usize, name: &[u8]) -> bool {
    let mut index = at;
    for _ in 0..LOOK_BACK {
        index = index.saturating_add(1);
        if begins_line(tokens, index) {
            return false;
        }
        if is_name(tokens, index) && text_at(tokens, index) == name {
            return true;
        }
    }
    false
}

/// Advice on a parameter without parentheses, as in `LET F X = X + 1`.
fn bare_parameter(tokens: &[Token<'_>], at: usize) -> Option<Advice> {
    let head = at.checked_sub(2)?;
    let is_defined = is_at(tokens, head, Symbol::Let) || is_at(tokens, head, Symbol::And);
    let is_parameter = is_defined
        && is_name(tokens, at)
        && is_name(tokens, at.checked_sub(1)?)
        && is_at(tokens, at.saturating_add(1), Symbol::Equal)
        && is_used_after(tokens, at, text_at(tokens, at));
    if is_parameter {
        Some(Advice::help("parameters are in parentheses, as in LET F(X) = X + 1"))
    } else {
        None
    }
}

/// Whether a closing parenthesis follows on the line of the token with this index.
fn is_closed_after(tokens: &[Token<'_>], at: usize) -> bool {
    let mut index = at;
    for _ in 0..LOOK_BACK {
        index = index.saturating_add(1);
        if begins_line(tokens, index) {
            return false;
        }
        if is_at(tokens, index, Symbol::CloseBracket) {
            return true;
        }
    }
    false
}

/// Advice on a semicolon between arguments.
fn separator(tokens: &[Token<'_>], at: usize) -> Option<Advice> {
    if is_at(tokens, at, Symbol::Semicolon) && is_closed_after(tokens, at) {
        let start = line_start(tokens, at);
        let mut open: usize = 0;
        for index in start..at {
            if is_at(tokens, index, Symbol::OpenBracket) {
                open = open.saturating_add(1);
            } else if is_at(tokens, index, Symbol::CloseBracket) {
                open = open.saturating_sub(1);
            }
        }
        if open > 0 {
            return Some(Advice::at(
                at,
                at,
                "a semicolon ends a command, and the parenthesis before is still open",
                "commas separate arguments, as in WRITEF(\"%N %N*N\", A, B)",
            ));
        }
    }
    None
}

/// The index after the names, separated by commas, that begin at this index.
fn after_names(tokens: &[Token<'_>], start: usize) -> usize {
    let mut index = start;
    for _ in 0..LOOK_BACK {
        let comma = index.saturating_add(1);
        if !is_name(tokens, index) {
            return start;
        }
        if !is_at(tokens, comma, Symbol::Comma) {
            return comma;
        }
        index = comma.saturating_add(1);
    }
    start
}

/// Advice on a line of the form `X = E` or `X, Y = E, F` before a refused token.
fn assignment(tokens: &[Token<'_>], at: usize) -> Option<Advice> {
    let last = at.checked_sub(1)?;
    let start = line_start(tokens, last);
    let equal = after_names(tokens, start);
    let is_end = begins_line(tokens, at)
        || is_at(tokens, at, Symbol::Semicolon)
        || is_at(tokens, at, Symbol::CloseSection);
    let is_meant = is_end
        && !is_in_list(tokens, start)
        && equal > start
        && is_at(tokens, equal, Symbol::Equal)
        && !has_symbol(tokens, start, at, Symbol::Assign);
    if is_meant {
        Some(Advice::at(
            start,
            last,
            "this compares, and nothing uses the result",
            "to assign, write :=, as in X := 1 or A, B := 1, 2",
        ))
    } else {
        None
    }
}

/// Words at the beginning of a line outside of routines, and the help for each.
const HEADS: [(&str, &str); 6] = [
    (
        "SECTION",
        "no file has a name here: leave out SECTION and NEEDS, and give several files to bcpl build",
    ),
    (
        "NEEDS",
        "no file has a name here: leave out SECTION and NEEDS, and give several files to bcpl build",
    ),
    (
        "CONST",
        "a constant is declared as in MANIFEST $( SIZE = 10 $)",
    ),
    (
        "VAR",
        "a variable of the whole file is declared as in STATIC $( N = 0 $), and one of a routine as in LET N = 0",
    ),
    ("IMPORT", "a file is inserted by GET, as in GET \"LIBHDR\""),
    ("INCLUDE", "a file is inserted by GET, as in GET \"LIBHDR\""),
];

/// Advice on a word that begins a line outside of routines.
fn head(tokens: &[Token<'_>], at: usize) -> Option<Advice> {
    if !is_name(tokens, at) || !begins_line(tokens, at) || depth_at(tokens, at) > 0 {
        return None;
    }
    for (word, help) in HEADS {
        if is_word(tokens, at, word) {
            return Some(Advice::help(help));
        }
    }
    None
}

/// The advice on a refused token that other languages explain.
pub fn foreign_advice(tokens: &[Token<'_>], at: usize) -> Option<Advice> {
    let tables = [
        further_choice(tokens, at),
        begin(tokens, at),
        idle(tokens, at),
        results(tokens, at),
        outer_name(tokens, at),
        address(tokens, at),
        field(tokens, at),
        starred_comment(tokens, at),
        case_of(tokens, at),
        parameter_type(tokens, at),
        announced(tokens, at),
        bare_parameter(tokens, at),
        separator(tokens, at),
        assignment(tokens, at),
        head(tokens, at),
    ];
    for advice in tables {
        if advice.is_some() {
            return advice;
        }
    }
    None
}
