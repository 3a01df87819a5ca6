//! The line that a fault is blamed on, and whether the rest can be read without it.

use bc_lex_tokens::{Symbol, Token};
use bcpl_messages::{is_at, symbol_at};

/// The tokens of the line, or lines, that a fault is blamed on: the first one, and the one after the last.
#[derive(Clone, Copy)]
pub struct Faulty {
    pub from: usize,
    pub to: usize,
}

/// Whether a line begins with the token with this index.
fn begins_line(tokens: &[Token<'_>], at: usize) -> bool {
    match tokens.get(at) {
        Some(token) => token.line_before || at == 0,
        None => true,
    }
}

/// The first token of the line that the token with this index is in.
fn start_of(tokens: &[Token<'_>], at: usize) -> usize {
    let mut start = at;
    for _ in 0..at {
        if begins_line(tokens, start) {
            break;
        }
        start = start.saturating_sub(1);
    }
    start
}

/// The token after the line that the token with this index is in, or after the next one if a comma ends the line.
fn end_of(tokens: &[Token<'_>], at: usize) -> usize {
    let mut end = at.saturating_add(1);
    for _ in at..tokens.len() {
        if begins_line(tokens, end) && !is_at(tokens, end.saturating_sub(1), Symbol::Comma) {
            break;
        }
        end = end.saturating_add(1);
    }
    end
}

/// How many tokens before an ELSE are searched for the command that it continues.
const FAR_BACK: usize = 200;

/// Whether the command of an IF or another condition ends before the token with this index, in the same block.
fn is_after_body(tokens: &[Token<'_>], at: usize) -> bool {
    let mut inside: usize = 0;
    let mut index = at;
    for _ in 0..FAR_BACK {
        index = index.saturating_sub(1);
        match symbol_at(tokens, index) {
            Some(Symbol::CloseSection) => inside = inside.saturating_add(1),
            Some(Symbol::OpenSection) if inside == 0 => return false,
            Some(Symbol::OpenSection) => inside = inside.saturating_sub(1),
            Some(Symbol::Do) if inside == 0 => return true,
            Some(Symbol::If | Symbol::Unless) if inside == 0 => return false,
            _ => {}
        }
    }
    false
}

/// Whether the token with this index is an ELSE between two commands, and no OR in a condition.
pub fn is_second(tokens: &[Token<'_>], at: usize) -> bool {
    is_at(tokens, at, Symbol::Else) && (begins_line(tokens, at) || is_after_body(tokens, at))
}

/// The first token of a line that may be removed if the fault is at `at`. A bracket that begins the line stays, and so does a
/// semicolon.
fn removable_from(tokens: &[Token<'_>], start: usize, at: usize) -> usize {
    let next = start.saturating_add(1);
    let is_front = is_at(tokens, start, Symbol::OpenSection)
        || is_at(tokens, start, Symbol::Semicolon);
    if is_front && next < at { next } else { start }
}

/// What a fault at this token is blamed on: its line, and the line before if the token begins its line. An ELSE between two
/// commands is blamed itself.
pub fn blamed_on(tokens: &[Token<'_>], at: usize) -> Faulty {
    if is_second(tokens, at) {
        return Faulty {
            from: at,
            to: at.saturating_add(1),
        };
    }
    let first = if begins_line(tokens, at) {
        at.saturating_sub(1)
    } else {
        at
    };
    Faulty {
        from: removable_from(tokens, start_of(tokens, first), at),
        to: if begins_line(tokens, at) {
            at
        } else {
            end_of(tokens, at)
        },
    }
}

/// Whether other lines depend on one with this symbol, so that they can't be read without it.
fn is_structure(symbol: Symbol) -> bool {
    matches!(
        symbol,
        Symbol::OpenSection
            | Symbol::CloseSection
            | Symbol::Be
            | Symbol::Get
            | Symbol::Manifest
            | Symbol::Static
            | Symbol::Global
            | Symbol::ValueOf
            | Symbol::SwitchOn
    )
}

/// Whether the token with this index is in a block.
fn is_in_block(tokens: &[Token<'_>], at: usize) -> bool {
    let mut depth: usize = 0;
    for index in 0..at {
        match symbol_at(tokens, index) {
            Some(Symbol::OpenSection) => depth = depth.saturating_add(1),
            Some(Symbol::CloseSection) => depth = depth.saturating_sub(1),
            _ => {}
        }
    }
    depth > 0
}

/// How many TESTs are among these tokens whose ELSE isn't.
pub fn open_tests(tokens: &[Token<'_>], faulty: Faulty) -> usize {
    let mut count: usize = 0;
    for at in faulty.from..faulty.to {
        if is_at(tokens, at, Symbol::Test) {
            count = count.saturating_add(1);
        } else if is_at(tokens, at, Symbol::Else) {
            count = count.saturating_sub(1);
        }
    }
    count
}

/// Whether these tokens begin with CASE and have no colon, so that the lines after them are probably meant as the cases.
fn is_choice(tokens: &[Token<'_>], faulty: Faulty) -> bool {
    if !is_at(tokens, faulty.from, Symbol::Case) {
        return false;
    }
    for at in faulty.from..faulty.to {
        if is_at(tokens, at, Symbol::Colon) {
            return false;
        }
    }
    true
}

/// Whether the token with this index is a reserved word that LET or AND declares. Its uses would be refused, too.
pub fn is_reserved_name(tokens: &[Token<'_>], at: usize) -> bool {
    let Some(before) = at.checked_sub(1) else {
        return false;
    };
    let is_declared = is_at(tokens, before, Symbol::Let) || is_at(tokens, before, Symbol::And);
    match tokens.get(at) {
        Some(token) => {
            is_declared
                && symbol_at(tokens, at).is_some()
                && token
                    .text
                    .first()
                    .is_some_and(|byte| byte.is_ascii_alphabetic())
        }
        None => false,
    }
}

/// Whether the rest can be read without these tokens.
pub fn is_removable(tokens: &[Token<'_>], faulty: Faulty, main: usize) -> bool {
    if !is_in_block(tokens, faulty.from) {
        return false;
    }
    if is_choice(tokens, faulty) {
        return false;
    }
    for at in faulty.from..faulty.to {
        let is_own = match tokens.get(at) {
            Some(token) => token.file == main,
            None => false,
        };
        let is_needed = match symbol_at(tokens, at) {
            Some(symbol) => is_structure(symbol),
            None => false,
        };
        if !is_own || is_needed {
            return false;
        }
    }
    faulty.from < faulty.to
}

/// Writes blanks over this stretch of a text. Line breaks stay.
pub fn blank(text: &mut [u8], start: usize, end: usize) {
    for at in start..end {
        if let Some(byte) = text.get_mut(at)
            && *byte != b'\n'
        {
            *byte = b' ';
        }
    }
}
