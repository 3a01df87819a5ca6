//! Advice on a token that the parser refuses, by the statement that it is in.

use crate::advice::Advice;
use crate::foreign::foreign_advice;
use crate::reserved::reserved_advice;
use crate::shapes::shape_advice;
use crate::words::{
    LOOK_BACK, begins_line, depth_at, has_symbol, is_at, is_joined, is_name, is_number, is_one_of,
    is_relation, is_string, is_word, line_start, opened_by, symbol_at, text_at,
};
use bc_lex_tokens::{Symbol, Token};

/// A word, the word that is refused after it, and the help. An empty word is any.
const PAIRS: [(&str, &str, &str); 14] = [
    ("NOT", "=", "unequal is written ~= or NE"),
    ("FINISH", "(", "write FINISH without parentheses"),
    ("BREAK", "(", "write BREAK without parentheses"),
    ("LOOP", "(", "write LOOP without parentheses"),
    ("ENDCASE", "(", "write ENDCASE without parentheses"),
    (
        "GOTO",
        "",
        "GOTO is followed by the name of a label, as in GOTO L10",
    ),
    ("REPEAT", "UNTIL", "write REPEATUNTIL as one word"),
    ("REPEAT", "WHILE", "write REPEATWHILE as one word"),
    (
        "STEP",
        "",
        "the step of a FOR is written BY, as in FOR I = 1 TO 9 BY 2 DO ..",
    ),
    ("", "DIV", "the quotient is written /"),
    (
        "ABS",
        "",
        "there is no ABS: write X < 0 -> -X, X, or a function of your own",
    ),
    (
        "",
        "ELSIF",
        "write TEST .. THEN .. ELSE TEST .. THEN .. ELSE ..",
    ),
    (
        "",
        "ELIF",
        "write TEST .. THEN .. ELSE TEST .. THEN .. ELSE ..",
    ),
    ("", "IN", "a FOR counts: FOR I = 0 TO 9 DO .. V!I .."),
];

/// Words that begin a declaration in other languages.
const DEFINING: [&str; 10] = [
    "DEF",
    "FUNCTION",
    "FUNC",
    "FN",
    "DEFINE",
    "PROC",
    "PROCEDURE",
    "SUB",
    "VOID",
    "INT",
];

/// Words that name types in other languages.
const TYPES: [&str; 9] = [
    "INT", "CHAR", "VAR", "LONG", "BOOL", "STRING", "WORD", "AUTO", "INTEGER",
];

/// The help of the first pair that fits a refused token.
fn paired(tokens: &[Token<'_>], at: usize) -> Option<Advice> {
    let before = at.checked_sub(1)?;
    for (first, second, help) in PAIRS {
        let is_first = first.is_empty() || is_word(tokens, before, first);
        let is_second = second.is_empty() || is_word(tokens, at, second);
        if is_first && is_second {
            return Some(Advice::help(help));
        }
    }
    None
}

/// Advice on signs of other languages: powers and nested comments.
fn signs(tokens: &[Token<'_>], at: usize) -> Option<Advice> {
    let before = at.checked_sub(1)?;
    if !is_at(tokens, before, Symbol::Multiply) || !is_joined(tokens, at) {
        return None;
    }
    match symbol_at(tokens, at) {
        Some(Symbol::Multiply) => Some(Advice::help(
            "there is no operator for powers; multiply in a loop",
        )),
        Some(Symbol::Divide) => Some(Advice::help(
            "comments don't nest: the comment before ended at the first */",
        )),
        _ => None,
    }
}

/// Advice on a refused colon.
fn colon(tokens: &[Token<'_>], at: usize) -> Option<Advice> {
    if !is_at(tokens, at, Symbol::Colon) {
        return None;
    }
    let start = line_start(tokens, at);
    let before = at.checked_sub(1)?;
    if has_symbol(tokens, start, at, Symbol::Arrow) {
        return Some(Advice::help("a comma separates the two values, as in B -> X, Y"));
    }
    for head in start..at {
        if let Some(
            Symbol::If
            | Symbol::Unless
            | Symbol::While
            | Symbol::Until
            | Symbol::For
            | Symbol::Test,
        ) = symbol_at(tokens, head)
        {
            return Some(Advice::help("write DO after the condition, and no colon"));
        }
    }
    if is_number(tokens, before) {
        return Some(Advice::help("a label is a name, as in L10:"));
    }
    None
}

/// Advice on REPEAT, WHILE and UNTIL after a closing bracket.
fn after_block(tokens: &[Token<'_>], at: usize) -> Option<Advice> {
    let before = at.checked_sub(1)?;
    if !is_at(tokens, before, Symbol::CloseSection) {
        return None;
    }
    let opened = opened_by(tokens, before)?;
    let is_switch = is_at(tokens, opened.checked_sub(1)?, Symbol::Into);
    match symbol_at(tokens, at) {
        Some(Symbol::While) => Some(Advice::help(
            "a loop that tests after its block is written $( .. $) REPEATWHILE E",
        )),
        Some(Symbol::Until) => Some(Advice::help(
            "a loop that tests after its block is written $( .. $) REPEATUNTIL E",
        )),
        Some(Symbol::Repeat | Symbol::RepeatWhile | Symbol::RepeatUntil) if is_switch => {
            Some(Advice::help(
                "REPEAT follows a simple command or a block: put the whole SWITCHON between $( and $)",
            ))
        }
        _ => None,
    }
}

/// Advice on a default value of a parameter.
fn parameter(tokens: &[Token<'_>], at: usize) -> Option<Advice> {
    if !is_at(tokens, at, Symbol::Equal) {
        return None;
    }
    let mut index = at.checked_sub(1)?;
    for _ in 0..LOOK_BACK {
        if is_at(tokens, index, Symbol::OpenBracket) {
            let before = index.checked_sub(2)?;
            let is_defined = is_at(tokens, before, Symbol::Let)
                || is_at(tokens, before, Symbol::And);
            return if is_defined && is_name(tokens, index.checked_sub(1)?) {
                Some(Advice::help(
                    "a parameter has no default value; each call passes all arguments",
                ))
            } else {
                None
            };
        }
        if !is_name(tokens, index) && !is_at(tokens, index, Symbol::Comma) {
            return None;
        }
        index = index.checked_sub(1)?;
    }
    None
}

/// Advice on a refused comma before a further definition.
fn comma(tokens: &[Token<'_>], at: usize) -> Option<Advice> {
    let next = at.saturating_add(1);
    if is_at(tokens, at, Symbol::Comma)
        && begins_line(tokens, next)
        && is_name(tokens, next)
        && is_at(tokens, next.saturating_add(1), Symbol::Equal)
    {
        Some(Advice::help("write AND between definitions, as in LET A = 1 AND B = 2, or two LETs"))
    } else {
        None
    }
}

/// Whether a name, parameters in parentheses, and `=` or BE are at this index: a routine without LET.
fn is_head(tokens: &[Token<'_>], at: usize) -> bool {
    let open = at.saturating_add(1);
    if !is_at(tokens, open, Symbol::OpenBracket) {
        return false;
    }
    let mut index = open.saturating_add(1);
    for _ in 0..LOOK_BACK {
        if is_at(tokens, index, Symbol::CloseBracket) {
            let after = index.saturating_add(1);
            return is_at(tokens, after, Symbol::Equal) || is_at(tokens, after, Symbol::Be);
        }
        index = index.saturating_add(1);
    }
    false
}

/// Advice on what is outside of routines.
fn outside(tokens: &[Token<'_>], at: usize) -> Option<Advice> {
    if depth_at(tokens, at) > 0 || !is_name(tokens, at) || !begins_line(tokens, at) {
        return None;
    }
    if is_one_of(tokens, at, &DEFINING) {
        return Some(Advice::help(
            "a declaration begins with LET, as in LET F(X) = X + 1 or LET F(X) BE $( .. $)",
        ));
    }
    if is_head(tokens, at) {
        return Some(Advice::help(
            "a declaration begins with LET, as in LET F(X) = X + 1; commands are in routines",
        ));
    }
    None
}

/// Advice on a second `:=` in a command, and on AND between commands.
fn joined(tokens: &[Token<'_>], at: usize) -> Option<Advice> {
    let is_chain = is_at(tokens, at, Symbol::Assign)
        && is_name(tokens, at.checked_sub(1)?)
        && is_at(tokens, at.checked_sub(2)?, Symbol::Assign);
    if is_chain {
        return Some(Advice::help("a command has one := ; write X, Y := 0, 0, or two commands"));
    }
    let is_command = is_at(tokens, at, Symbol::And)
        && is_at(tokens, at.saturating_add(2), Symbol::Assign)
        && has_symbol(tokens, line_start(tokens, at), at, Symbol::Assign);
    if is_command {
        return Some(Advice::help(
            "a semicolon separates commands; where one is expected, put several between $( and $)",
        ));
    }
    None
}

/// Advice on a relation without a left side after `&` or `|`, and on two strings side by side.
fn operand(tokens: &[Token<'_>], at: usize) -> Option<Advice> {
    let before = at.checked_sub(1)?;
    let is_joining = is_at(tokens, before, Symbol::LogicalAnd)
        || is_at(tokens, before, Symbol::LogicalOr);
    if is_joining && is_relation(tokens, at) {
        return Some(Advice::at(
            at,
            at,
            "this relation has no left side",
            "write both sides of each relation, as in X >= 0 & X <= 9",
        ));
    }
    if is_string(tokens, at) && is_string(tokens, before) && !is_joined(tokens, at) {
        return Some(Advice::help(
            "no operator joins strings: write one string, or call WRITES for each",
        ));
    }
    None
}

/// Advice on a TABLE without commas.
fn table(tokens: &[Token<'_>], at: usize) -> Option<Advice> {
    let before = at.checked_sub(1)?;
    let is_list = is_number(tokens, at)
        && is_number(tokens, before)
        && has_symbol(tokens, line_start(tokens, at), at, Symbol::Table);
    if is_list {
        Some(Advice::help("commas separate the values of a TABLE, as in TABLE 1, 2, 3"))
    } else {
        None
    }
}

/// Advice on a conditional expression with one value, if the line before a refused token ends with one.
fn condition(tokens: &[Token<'_>], start: usize, at: usize) -> Option<Advice> {
    let mut arrow = None;
    for index in start..at {
        match symbol_at(tokens, index) {
            Some(Symbol::Arrow) => arrow = Some(index),
            Some(Symbol::Comma) => arrow = None,
            _ => {}
        }
    }
    let arrow = arrow?;
    Some(Advice::at(
        arrow,
        at.saturating_sub(1),
        "this conditional expression has one value",
        "it needs another for the other case, as in B -> X, Y",
    ))
}

/// Advice on a type before a name.
fn typed(tokens: &[Token<'_>], at: usize) -> Option<Advice> {
    let before = at.checked_sub(1)?;
    if is_name(tokens, at) && is_name(tokens, before) && is_one_of(tokens, before, &TYPES) {
        Some(Advice::at(
            before,
            before,
            "a declaration names no type",
            "variables have no types; declare one as LET X = 1",
        ))
    } else {
        None
    }
}

/// Whether the token with this index is an operator between operands, other than `=`.
fn is_operator(tokens: &[Token<'_>], at: usize) -> bool {
    matches!(
        symbol_at(tokens, at),
        Some(
            Symbol::Plus
                | Symbol::Minus
                | Symbol::Multiply
                | Symbol::Divide
                | Symbol::Remainder
                | Symbol::Indirection
                | Symbol::LogicalAnd
                | Symbol::LogicalOr
        )
    )
}

/// Advice on `N--`, if the second minus sign is at this index.
fn decrement(tokens: &[Token<'_>], at: usize) -> Option<Advice> {
    let first = at.checked_sub(1)?;
    let name = first.checked_sub(1)?;
    let next = at.saturating_add(1);
    let is_end = begins_line(tokens, next)
        || is_at(tokens, next, Symbol::Semicolon)
        || is_at(tokens, next, Symbol::CloseSection);
    if is_end && is_joined(tokens, first) && is_name(tokens, name) {
        Some(Advice::at(
            name,
            at,
            "there is no operator --",
            "to subtract 1 from N, write N := N - 1",
        ))
    } else {
        None
    }
}

/// Advice on `-- words`, which is meant as a comment, if the second minus sign is at this index.
fn dashed_comment(tokens: &[Token<'_>], at: usize) -> Option<Advice> {
    let first = at.checked_sub(1)?;
    let next = at.saturating_add(1);
    let is_apart = begins_line(tokens, first) || !is_joined(tokens, first);
    if is_apart && is_name(tokens, next) && !begins_line(tokens, next) {
        Some(Advice::at(
            first,
            at,
            "-- begins no comment",
            "a comment begins with //",
        ))
    } else {
        None
    }
}

/// Advice on two minus signs, between these indices, that are meant to begin a comment or to count down.
fn dashes(tokens: &[Token<'_>], from: usize, to: usize) -> Option<Advice> {
    for at in from..to {
        if is_at(tokens, at, Symbol::Minus)
            && is_joined(tokens, at)
            && is_at(tokens, at.checked_sub(1)?, Symbol::Minus)
        {
            let advice = decrement(tokens, at);
            return if advice.is_some() {
                advice
            } else {
                dashed_comment(tokens, at)
            };
        }
    }
    None
}

/// Advice on STEP with a signed number, which is read as a subtraction, if DO is refused at this index.
fn step(tokens: &[Token<'_>], at: usize) -> Option<Advice> {
    let start = line_start(tokens, at);
    if !is_at(tokens, at, Symbol::Do) || !has_symbol(tokens, start, at, Symbol::For) {
        return None;
    }
    for index in start..at {
        if is_name(tokens, index) && is_word(tokens, index, "STEP") {
            return Some(Advice::at(
                index,
                index,
                "no FOR has a STEP",
                "the step of a FOR is written BY, as in FOR I = 9 TO 1 BY -2 DO ..",
            ));
        }
    }
    None
}

/// Whether the token with this index is a name without a capital.
fn is_small(tokens: &[Token<'_>], at: usize) -> bool {
    for byte in text_at(tokens, at) {
        if byte.is_ascii_uppercase() {
            return false;
        }
    }
    is_name(tokens, at)
}

/// Advice on words after a semicolon, which are meant as a comment, if the second one is refused at this index.
fn remark(tokens: &[Token<'_>], at: usize) -> Option<Advice> {
    let first = at.checked_sub(1)?;
    let sign = first.checked_sub(1)?;
    let is_remark = is_at(tokens, sign, Symbol::Semicolon)
        && is_small(tokens, first)
        && is_small(tokens, at)
        && !begins_line(tokens, first)
        && !begins_line(tokens, at);
    if is_remark {
        Some(Advice::at(
            sign,
            sign,
            "a semicolon begins no comment",
            "a comment begins with //",
        ))
    } else {
        None
    }
}

/// Advice on a routine with BE before an expression, if the line before a refused token is one.
fn routine(tokens: &[Token<'_>], start: usize, at: usize) -> Option<Advice> {
    for index in start..at {
        if is_at(tokens, index, Symbol::Be) {
            let body = index.saturating_add(1);
            if is_name(tokens, body) && is_operator(tokens, body.saturating_add(1)) {
                return Some(Advice::at(
                    body,
                    at.saturating_sub(1),
                    "BE is followed by a command, and this is an expression",
                    "a routine with a value is written with =, as in LET F(X) = X + 1; to change X, write X := X + 1",
                ));
            }
        }
    }
    None
}

/// Advice on a name that ends a VALOF whose closing bracket is refused at this index.
fn value(tokens: &[Token<'_>], at: usize) -> Option<Advice> {
    let last = at.checked_sub(1)?;
    let is_last = is_at(tokens, at, Symbol::CloseSection)
        && is_name(tokens, last)
        && begins_line(tokens, last);
    if !is_last {
        return None;
    }
    let opened = opened_by(tokens, at)?;
    if is_at(tokens, opened.checked_sub(1)?, Symbol::ValueOf) {
        Some(Advice::at(
            last,
            last,
            "this value isn't returned",
            "a VALOF returns its value by RESULTIS, as in RESULTIS X",
        ))
    } else {
        None
    }
}

/// Advice on the line before a refused token that begins a line, or ends the block.
fn line_before(tokens: &[Token<'_>], at: usize) -> Option<Advice> {
    let last = at.checked_sub(1)?;
    let is_end = begins_line(tokens, at)
        || is_at(tokens, at, Symbol::Semicolon)
        || is_at(tokens, at, Symbol::CloseSection);
    if !is_end {
        return None;
    }
    let start = line_start(tokens, last);
    if let Some(advice) = dashes(tokens, start, at) {
        return Some(advice);
    }
    if is_word(tokens, last, "CONTINUE") {
        return Some(Advice::at(
            last,
            last,
            "CONTINUE is no command",
            "LOOP goes on with the next round of a loop",
        ));
    }
    if let Some(advice) = value(tokens, at) {
        return Some(advice);
    }
    if let Some(advice) = routine(tokens, start, at) {
        return Some(advice);
    }
    if let Some(advice) = condition(tokens, start, at) {
        return Some(advice);
    }
    let has_other = has_symbol(tokens, start, at, Symbol::Equal)
        || has_symbol(tokens, start, at, Symbol::Assign);
    if is_name(tokens, start) && is_operator(tokens, start.saturating_add(1)) && !has_other {
        return Some(Advice::at(
            start,
            last,
            "the value of this expression isn't used",
            "to change X, write X := X + 1; to write it, WRITEN(X + 1)",
        ));
    }
    None
}

/// The advice on a refused token.
pub fn statement_advice(tokens: &[Token<'_>], at: usize) -> Option<Advice> {
    let tables = [
        shape_advice(tokens, at),
        foreign_advice(tokens, at),
        paired(tokens, at),
        signs(tokens, at),
        colon(tokens, at),
        after_block(tokens, at),
        parameter(tokens, at),
        comma(tokens, at),
        joined(tokens, at),
        operand(tokens, at),
        table(tokens, at),
        outside(tokens, at),
        typed(tokens, at),
        reserved_advice(tokens, at),
        step(tokens, at),
        remark(tokens, at),
        line_before(tokens, at),
    ];
    for advice in tables {
        if advice.is_some() {
            return advice;
        }
    }
    None
}
