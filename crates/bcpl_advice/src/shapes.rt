//! Advice on declarations, bodies and signs as they are written in other languages, by the tokens around a refused one.

use crate::advice::Advice;
use crate::names::OUTPUT;
use crate::words::{
    LOOK_BACK, begins_line, depth_at, has_symbol, is_at, is_in_list, is_joined, is_name, is_number,
    is_one_of, is_relation, is_word, line_start, opened_round, symbol_at, text_at,
};
use bc_lex_tokens::{Symbol, Token};

/// Whether a command ends before the token with this index.
fn ends_command(tokens: &[Token<'_>], at: usize) -> bool {
    begins_line(tokens, at)
        || is_at(tokens, at, Symbol::Semicolon)
        || is_at(tokens, at, Symbol::CloseSection)
}

/// Whether a command, and no expression, begins with the token with this index.
fn begins_command(tokens: &[Token<'_>], at: usize) -> bool {
    matches!(
        symbol_at(tokens, at),
        Some(
            Symbol::Let
                | Symbol::If
                | Symbol::Unless
                | Symbol::Test
                | Symbol::While
                | Symbol::Until
                | Symbol::For
                | Symbol::SwitchOn
                | Symbol::Return
                | Symbol::Finish
        )
    )
}

/// Whether the parenthesis with this index begins a body.
fn begins_body(tokens: &[Token<'_>], open: usize) -> bool {
    match open.checked_sub(1) {
        Some(before) => {
            is_at(tokens, before, Symbol::Be)
                || is_at(tokens, before, Symbol::Do)
                || is_at(tokens, before, Symbol::Else)
        }
        None => false,
    }
}

/// The parenthesis that is open before a refused token, or is closed by the token before it, if it begins a body of calls.
fn body_opened(tokens: &[Token<'_>], at: usize) -> Option<usize> {
    if let Some(open) = opened_round(tokens, at) {
        return if begins_body(tokens, open) {
            Some(open)
        } else {
            None
        };
    }
    let close = at.checked_sub(1)?;
    if !is_at(tokens, close, Symbol::CloseBracket) {
        return None;
    }
    let open = opened_round(tokens, close)?;
    let call = open.saturating_add(2);
    if begins_body(tokens, open) && is_at(tokens, call, Symbol::OpenBracket) {
        Some(open)
    } else {
        None
    }
}

/// Advice on parentheses around commands.
fn round_block(tokens: &[Token<'_>], at: usize) -> Option<Advice> {
    if !begins_line(tokens, at)
        && !begins_command(tokens, at)
        && !is_at(tokens, at, Symbol::Semicolon)
    {
        return None;
    }
    let open = body_opened(tokens, at)?;
    Some(Advice::at(
        open,
        open,
        "a parenthesis opens no block",
        "write $( before several commands, and $) after them",
    ))
}

/// Whether the token with this index is a name that LET or AND declares.
fn is_declared(tokens: &[Token<'_>], at: usize) -> bool {
    let Some(before) = at.checked_sub(1) else {
        return false;
    };
    is_name(tokens, at)
        && (is_at(tokens, before, Symbol::Let) || is_at(tokens, before, Symbol::And))
}

/// The first of the names, separated by commas, that end before a token, if LET or AND declares it.
fn first_declared(tokens: &[Token<'_>], at: usize) -> Option<usize> {
    let mut name = at.checked_sub(1)?;
    for _ in 0..LOOK_BACK {
        if is_declared(tokens, name) {
            return Some(name);
        }
        let comma = name.checked_sub(1)?;
        if !is_name(tokens, name) || !is_at(tokens, comma, Symbol::Comma) {
            return None;
        }
        name = comma.checked_sub(1)?;
    }
    None
}

/// Advice on a declaration without a value, before a refused token.
fn without_value(tokens: &[Token<'_>], at: usize) -> Option<Advice> {
    let is_routine = is_at(tokens, at, Symbol::Be) || is_at(tokens, at, Symbol::OpenSection);
    if !ends_command(tokens, at) || is_routine {
        return None;
    }
    let name = first_declared(tokens, at)?;
    if depth_at(tokens, at) > 0 {
        Some(Advice::at(
            name.saturating_sub(1),
            at.saturating_sub(1),
            "this declaration gives no value",
            "a variable is declared with its first value, as in LET X = 0",
        ))
    } else {
        None
    }
}

/// Advice on a cell after LET.
fn declared_cell(tokens: &[Token<'_>], at: usize) -> Option<Advice> {
    let name = at.checked_sub(1)?;
    if is_at(tokens, at, Symbol::Indirection) && is_declared(tokens, name) {
        Some(Advice::at(
            name.saturating_sub(1),
            at.saturating_add(1),
            "LET declares a name, and this is a cell",
            "to assign to a cell, write V!3 := 5 without LET; LET V = VEC 10 declares a vector",
        ))
    } else {
        None
    }
}

/// Advice on a range as the size of a vector.
fn vector_range(tokens: &[Token<'_>], at: usize) -> Option<Advice> {
    let start = line_start(tokens, at);
    let is_range = is_at(tokens, at, Symbol::To)
        && has_symbol(tokens, start, at, Symbol::Vector)
        && !has_symbol(tokens, start, at, Symbol::For);
    if is_range {
        Some(Advice::help("VEC N has the cells 0 to N, as in LET V = VEC 10"))
    } else {
        None
    }
}

/// Whether a name is declared with the token with this index: LET, AND, FOR or a comma is before it, or it is in a list.
fn is_place_of_name(tokens: &[Token<'_>], at: usize) -> bool {
    let Some(before) = at.checked_sub(1) else {
        return false;
    };
    matches!(
        symbol_at(tokens, before),
        Some(Symbol::Let | Symbol::And | Symbol::For | Symbol::Comma)
    ) || is_in_list(tokens, at)
}

/// Advice on a minus sign in a name.
fn hyphen(tokens: &[Token<'_>], at: usize) -> Option<Advice> {
    let name = at.checked_sub(1)?;
    let next = at.saturating_add(1);
    let is_hyphen = is_at(tokens, at, Symbol::Minus)
        && is_name(tokens, name)
        && is_name(tokens, next)
        && is_joined(tokens, at)
        && is_joined(tokens, next)
        && is_place_of_name(tokens, name);
    if is_hyphen {
        Some(Advice::at(
            name,
            next,
            "the minus sign is no part of a name",
            "a name has letters, digits and dots, as in MAX.VALUE",
        ))
    } else {
        None
    }
}

/// Whether the token with this index is a name of two letters or more, and no digits, directly after a number other than 0.
fn is_after_digit(tokens: &[Token<'_>], at: usize) -> bool {
    let Some(before) = at.checked_sub(1) else {
        return false;
    };
    for byte in text_at(tokens, at) {
        if !byte.is_ascii_alphabetic() {
            return false;
        }
    }
    is_number(tokens, before)
        && is_name(tokens, at)
        && is_joined(tokens, at)
        && text_at(tokens, at).len() > 1
        && !is_word(tokens, before, "0")
}

/// Advice on a name that begins with a digit. The digit is refused, or what follows it.
fn digit(tokens: &[Token<'_>], at: usize) -> Option<Advice> {
    let name = if is_number(tokens, at) && is_place_of_name(tokens, at) {
        at.saturating_add(1)
    } else {
        at
    };
    if is_after_digit(tokens, name) {
        Some(Advice::at(
            name.saturating_sub(1),
            name,
            "a name doesn't begin with a digit",
            "a name begins with a letter; letters, digits and dots follow",
        ))
    } else {
        None
    }
}

/// Advice on a comma in a number.
fn grouped(tokens: &[Token<'_>], at: usize) -> Option<Advice> {
    let before = at.checked_sub(1)?;
    let next = at.saturating_add(1);
    let is_grouped = is_at(tokens, at, Symbol::Comma)
        && is_number(tokens, before)
        && is_number(tokens, next)
        && is_joined(tokens, at)
        && is_joined(tokens, next)
        && text_at(tokens, before).len() <= 3
        && text_at(tokens, next).len() == 3;
    if is_grouped {
        Some(Advice::at(
            before,
            next,
            "a comma separates values, and is no part of a number",
            "write a number without commas, as in 10000",
        ))
    } else {
        None
    }
}

/// Two adjacent symbols of which the second is refused, and the help.
const PAIRS: [(Symbol, Symbol, &str); 7] = [
    (
        Symbol::Do,
        Symbol::Do,
        "THEN and DO are the same word: leave one of them out",
    ),
    (
        Symbol::Be,
        Symbol::Equal,
        "a routine has BE and a command, as in LET F(X) BE C, or = and its value, as in LET F(X) = E",
    ),
    (
        Symbol::Equal,
        Symbol::Be,
        "a routine has BE and a command, as in LET F(X) BE C, or = and its value, as in LET F(X) = E",
    ),
    (
        Symbol::Equal,
        Symbol::ResultIs,
        "write the value after = without RESULTIS, as in LET F(X) = E, or commands in VALOF $( .. RESULTIS E $)",
    ),
    (
        Symbol::Equal,
        Symbol::Return,
        "write the value after = without RETURN, as in LET F(X) = E, or commands in VALOF $( .. RESULTIS E $)",
    ),
    (
        Symbol::ValueOf,
        Symbol::Equal,
        "write VALOF before a block, as in LET F(X) = VALOF $( .. RESULTIS E $)",
    ),
    (
        Symbol::Case,
        Symbol::Else,
        "the values that have no CASE come to DEFAULT, as in DEFAULT: C",
    ),
];

/// Advice on two adjacent symbols, and on ELSE and relations in a SWITCHON.
fn paired(tokens: &[Token<'_>], at: usize) -> Option<Advice> {
    let before = at.checked_sub(1)?;
    for (first, second, help) in PAIRS {
        if is_at(tokens, before, first) && is_at(tokens, at, second) {
            return Some(Advice::help(help));
        }
    }
    if is_at(tokens, at, Symbol::Else) && is_at(tokens, at.saturating_add(1), Symbol::Colon) {
        return Some(Advice::help("the values that have no CASE come to DEFAULT, as in DEFAULT: C"));
    }
    if is_at(tokens, before, Symbol::Case) && is_relation(tokens, at) {
        return Some(Advice::help(
            "a CASE has one constant value; write any other condition as TEST E THEN .. ELSE ..",
        ));
    }
    None
}

/// Advice on an expression after VALOF, if the line before a refused token has one.
fn valued(tokens: &[Token<'_>], at: usize) -> Option<Advice> {
    let last = at.checked_sub(1)?;
    if !ends_command(tokens, at) {
        return None;
    }
    for index in line_start(tokens, last)..at {
        let first = index.saturating_add(1);
        let is_value = is_name(tokens, first)
            || is_number(tokens, first)
            || is_at(tokens, first, Symbol::OpenBracket);
        if is_at(tokens, index, Symbol::ValueOf)
            && is_value
            && !has_symbol(tokens, first, at, Symbol::Assign)
        {
            return Some(Advice::at(
                index,
                last,
                "VALOF is followed by a command, and this is an expression",
                "a value needs no VALOF, as in LET F(X) = X + 1; commands are in VALOF $( .. RESULTIS E $)",
            ));
        }
    }
    None
}

/// Advice on REM at the beginning of a line, which is meant to begin a comment.
fn remark(tokens: &[Token<'_>], at: usize) -> Option<Advice> {
    let start = line_start(tokens, at);
    if begins_line(tokens, start) && is_word(tokens, start, "REM") {
        Some(Advice::at(
            start,
            start,
            "REM is the remainder of a division, and begins no comment",
            "a comment begins with //",
        ))
    } else {
        None
    }
}

/// Whether `<-` is at this index.
fn is_left_arrow(tokens: &[Token<'_>], at: usize) -> bool {
    let sign = at.saturating_add(1);
    is_at(tokens, at, Symbol::Less) && is_at(tokens, sign, Symbol::Minus) && is_joined(tokens, sign)
}

/// The token that begins the line of the one with this index, after an opening section bracket.
fn command_start(tokens: &[Token<'_>], at: usize) -> usize {
    let start = line_start(tokens, at);
    if is_at(tokens, start, Symbol::OpenSection) {
        start.saturating_add(1)
    } else {
        start
    }
}

/// Advice on `<-` in the line before a refused token, or refused itself after the name of a declaration.
fn left_arrow(tokens: &[Token<'_>], at: usize) -> Option<Advice> {
    let last = at.checked_sub(1)?;
    if is_left_arrow(tokens, at) && is_declared(tokens, last) {
        return Some(Advice::help("declare a variable with =, as in LET N = 0"));
    }
    let start = command_start(tokens, last);
    let is_meant = ends_command(tokens, at)
        && is_name(tokens, start)
        && !has_symbol(tokens, start, at, Symbol::Assign);
    if !is_meant {
        return None;
    }
    for index in start..last {
        if is_left_arrow(tokens, index) {
            return Some(Advice::at(
                index,
                index.saturating_add(1),
                "<- assigns nothing: it is < and a minus sign",
                "to assign, write :=, as in X := 5",
            ));
        }
    }
    None
}

/// The first token of the parameters that end with the token with this index: a name, or parentheses.
fn parameters_from(tokens: &[Token<'_>], at: usize) -> Option<usize> {
    if is_at(tokens, at, Symbol::CloseBracket) {
        opened_round(tokens, at)
    } else if is_name(tokens, at) {
        Some(at)
    } else {
        None
    }
}

/// Whether a value begins with the token with this index: an argument, or the value of a declaration.
fn begins_value(tokens: &[Token<'_>], at: usize) -> bool {
    let Some(before) = at.checked_sub(1) else {
        return false;
    };
    let is_argument = is_at(tokens, before, Symbol::OpenBracket)
        && is_name(tokens, before.saturating_sub(1));
    is_argument || is_at(tokens, before, Symbol::Comma) || is_at(tokens, before, Symbol::Equal)
}

/// Advice on `X => E`, which is meant as a function.
fn function_arrow(tokens: &[Token<'_>], at: usize) -> Option<Advice> {
    let equal = at.checked_sub(1)?;
    let is_arrow = is_at(tokens, at, Symbol::Greater)
        && is_at(tokens, equal, Symbol::Equal)
        && is_joined(tokens, at);
    if !is_arrow {
        return None;
    }
    let first = parameters_from(tokens, equal.checked_sub(1)?)?;
    if begins_value(tokens, first) {
        Some(Advice::at(
            equal,
            at,
            "=> makes no function",
            "each function has a name: declare it as LET F(X) = X + 1, and pass F; at least is written >=",
        ))
    } else {
        None
    }
}

/// The streams of C++.
const STREAMS: [&str; 2] = ["COUT", "CERR"];

/// Advice on a line that sends something to a stream, before a refused token.
fn stream(tokens: &[Token<'_>], at: usize) -> Option<Advice> {
    let last = at.checked_sub(1)?;
    let start = command_start(tokens, last);
    let is_sent = is_name(tokens, start)
        && is_one_of(tokens, start, &STREAMS)
        && is_at(tokens, start.saturating_add(1), Symbol::ShiftLeft);
    if is_sent {
        Some(Advice::at(
            start,
            last,
            "<< shifts a number, and writes nothing",
            OUTPUT,
        ))
    } else {
        None
    }
}

/// The advice on a refused token.
pub fn shape_advice(tokens: &[Token<'_>], at: usize) -> Option<Advice> {
    let tables = [
        round_block(tokens, at),
        without_value(tokens, at),
        declared_cell(tokens, at),
        vector_range(tokens, at),
        hyphen(tokens, at),
        digit(tokens, at),
        grouped(tokens, at),
        paired(tokens, at),
        remark(tokens, at),
        valued(tokens, at),
        left_arrow(tokens, at),
        function_arrow(tokens, at),
        stream(tokens, at),
    ];
    for advice in tables {
        if advice.is_some() {
            return advice;
        }
    }
    None
}
