//! The further faults of a main that the lexer refused. A number that is too large, an unknown escape, a character constant
//! of several characters, a string that isn't closed, an underscore, or a subscript in square brackets is replaced by
//! something that is right and as long, so that all other places stay as they are. Then the rest is read again. Where it
//! isn't plain what was meant, the search ends.

use crate::advice::advised;
use crate::characters::{line_end, line_start};
use crate::further::{FurtherFault, further_faults, with_text};
use bc_build::{BuildError, LexError};
use bc_lex::{Source, lex};
use bc_parse::{ParseError, parse};
use bc_word::Memory;
use bcpl_messages::message_of;
use std::alloc::Global;

/// What is found when a mended text is read.
#[derive(Drop)]
enum Next {
    /// Another fault of the lexer, with what is said about it.
    Lexical(LexError, FurtherFault),
    /// The faults of the parser.
    Rest(Vec<FurtherFault>),
}

/// Writes a byte. Returns whether the text has this offset.
fn set(text: &mut [u8], at: usize, byte: u8) -> bool {
    match text.get_mut(at) {
        Some(place) => {
            *place = byte;
            true
        }
        None => false,
    }
}

/// Whether there is a letter or a digit at an offset.
fn is_alphanumeric(text: &[u8], at: usize) -> bool {
    match text.get(at) {
        Some(byte) => byte.is_ascii_alphanumeric(),
        None => false,
    }
}

/// Replaces the number at an offset by 0 and blanks. Returns whether there is one.
fn mend_number(text: &mut [u8], at: usize) -> bool {
    let is_there = set(text, at, b'0');
    for index in at.saturating_add(1)..text.len() {
        if !is_alphanumeric(text, index) {
            break;
        }
        set(text, index, b' ');
    }
    is_there
}

/// The offset of this byte after another offset, if it is on the same line.
fn next_on_line(text: &[u8], at: usize, byte: u8) -> Option<usize> {
    for index in at.saturating_add(1)..text.len() {
        let found = text.get(index).copied()?;
        if found == byte {
            return Some(index);
        }
        if found == b'\n' {
            return None;
        }
    }
    None
}

/// Replaces the character constant at an offset by one of a single character, or by 0 if it has none. Returns whether
/// one is there.
fn mend_character(text: &mut [u8], at: usize) -> bool {
    if text.get(at).copied() != Some(b'\'') {
        return false;
    }
    let Some(end) = next_on_line(text, at, b'\'') else {
        return false;
    };
    let first = at.saturating_add(1);
    let second = at.saturating_add(2);
    if end < second {
        set(text, at, b'0');
        return set(text, first, b' ');
    }
    for index in second..end.saturating_add(1) {
        set(text, index, b' ');
    }
    set(text, first, b'A') && set(text, second, b'\'')
}

/// Replaces the escape at an offset by that of a line break. Returns whether one is there.
fn mend_escape(text: &mut [u8], at: usize) -> bool {
    let letter = at.saturating_add(1);
    match text.get(letter).copied() {
        Some(byte) if byte.is_ascii_graphic() => set(text, letter, b'N'),
        _ => false,
    }
}

/// How many parentheses are open before an offset in its line.
fn open_before(text: &[u8], at: usize) -> usize {
    let mut open: usize = 0;
    let mut last = b'\n';
    for byte in text.get(line_start(text, at)..at).unwrap_or(b"") {
        match *byte {
            b'(' if last != b'$' => open = open.saturating_add(1),
            b')' if last != b'$' => open = open.saturating_sub(1),
            _ => {}
        }
        last = *byte;
    }
    open
}

/// Where the blanks, semicolons and parentheses begin that end a line, if there are so many closing parentheses. `end` is the
/// end of the line.
fn closing_tail(text: &[u8], end: usize, open: usize) -> Option<usize> {
    let mut tail = end;
    let mut closed: usize = 0;
    for _ in 0..end {
        let before = tail.checked_sub(1)?;
        match text.get(before).copied()? {
            b')' => closed = closed.saturating_add(1),
            b' ' | b'\t' | b'\r' | b';' => {}
            b'$' => return None,
            _ => break,
        }
        tail = before;
    }
    if closed == open { Some(tail) } else { None }
}

/// Empties the string at an offset, which isn't closed on its line, and closes it before the parentheses that end the line.
/// Returns whether these close what the line opens before the string.
fn mend_string(text: &mut [u8], at: usize) -> bool {
    let end = match next_on_line(text, at, b'\n') {
        Some(end) => end,
        None => text.len(),
    };
    let open = open_before(text, at);
    let first = at.saturating_add(1);
    let Some(tail) = closing_tail(text, end, open) else {
        return false;
    };
    if tail <= first {
        return false;
    }
    for index in first..tail {
        set(text, index, b' ');
    }
    set(text, first, b'"')
}

/// Mends the string or character constant at an offset. Returns whether it is plain how.
fn mend_text(text: &mut [u8], at: usize) -> bool {
    if text.get(at).copied() == Some(b'"') {
        mend_string(text, at)
    } else {
        mend_character(text, at)
    }
}

/// Replaces all underscores by what may be in a name.
fn mend_underscores(text: &mut [u8]) -> bool {
    let mut is_inside = false;
    for index in 0..text.len() {
        if text.get(index).copied() == Some(b'_') {
            set(text, index, if is_inside { b'.' } else { b'U' });
            is_inside = true;
        } else {
            is_inside = is_alphanumeric(text, index);
        }
    }
    true
}

/// Whether the line before an offset is LET and a name.
fn is_declared(text: &[u8], at: usize) -> bool {
    let line = line_end(text.get(..at).unwrap_or(b""));
    line.starts_with(b"LET") && !line.contains(&b'=')
}

/// Replaces the square brackets of a subscript at an offset: `V[10]` becomes `V(10)`, and `V=10` after LET. Returns whether
/// it is one.
fn mend_subscript(text: &mut [u8], at: usize) -> bool {
    let Some(before) = at.checked_sub(1) else {
        return false;
    };
    let Some(close) = next_on_line(text, at, b']') else {
        return false;
    };
    if !is_alphanumeric(text, before) {
        return false;
    }
    if is_declared(text, at) {
        set(text, at, b'=') && set(text, close, b' ')
    } else {
        set(text, at, b'(') && set(text, close, b')')
    }
}

/// Mends the byte at an offset, which begins no token. Returns whether it is plain how.
fn mend_byte(text: &mut [u8], at: usize) -> bool {
    match text.get(at).copied() {
        Some(b'_') => mend_underscores(text),
        Some(b'[') => mend_subscript(text, at),
        _ => false,
    }
}

/// Mends the fault of a main with this text. Returns whether it is plain how.
fn mend(text: &mut [u8], main: usize, fault: LexError) -> bool {
    match fault {
        LexError::NumberTooLarge(file, at) if file == main => mend_number(text, at),
        LexError::BadEscape(file, at) if file == main => mend_escape(text, at),
        LexError::Unterminated(file, at) if file == main => mend_text(text, at),
        LexError::BadCharacter(file, at) if file == main => mend_byte(text, at),
        _ => false,
    }
}

/// A fault with what is said about it, if anything is.
pub fn explained(
    alloc: Global,
    sources: &[Source<'_>],
    main: usize,
    error: BuildError,
) -> Result<Option<FurtherFault>, Memory> {
    let Some(message) = message_of(alloc, sources, &[main], &error)? else {
        return Ok(None);
    };
    let message = advised(alloc, sources, &error, message)?;
    Ok(Some(FurtherFault { error, message }))
}

/// The faults of the parser in a main of these sources, `most` and one at most.
fn faults_of_parser(
    alloc: Global,
    sources: &[Source<'_>],
    main: usize,
    most: usize,
) -> Result<Vec<FurtherFault>, Memory> {
    let mut all = Vec::new(alloc);
    if main >= sources.len() {
        return Ok(all);
    }
    let (error, refused) = match lex(alloc, sources, main) {
        Ok(tokens) => match parse(alloc, tokens.as_slice()) {
            Err(ParseError::Expected(at)) => {
                (BuildError::Parse(main, ParseError::Expected(at)), Some(at))
            }
            _ => return Ok(all),
        },
        Err(fault) => (BuildError::Lex(main, fault), None),
    };
    if let Some(fault) = explained(alloc, sources, main, error)? {
        all.push(fault)?;
    }
    if let Some(at) = refused {
        for fault in further_faults(alloc, sources, main, at, most)? {
            all.push(fault)?;
        }
    }
    Ok(all)
}

/// The offset of a fault that can be mended.
fn place_of(fault: LexError) -> usize {
    match fault {
        LexError::NumberTooLarge(_, at)
        | LexError::BadEscape(_, at)
        | LexError::Unterminated(_, at)
        | LexError::BadCharacter(_, at) => at,
        _ => 0,
    }
}

/// Where the lexer goes on after a mended fault at an offset: at the beginning of its line, if the lexer is between two
/// lexemes there, else where it began before.
fn restart(
    alloc: Global,
    sources: &[Source<'_>],
    main: usize,
    from: usize,
    at: usize,
) -> Result<usize, Memory> {
    let text: &[u8] = match sources.get(main) {
        Some(source) => source.text,
        None => b"",
    };
    let line = line_start(text, at);
    let before = with_text(alloc, sources, main, text.get(from..line).unwrap_or(b""))?;
    if line <= from || main >= before.len() {
        return Ok(from);
    }
    Ok(match lex(alloc, before.as_slice(), main) {
        Ok(_) => line,
        Err(_) => from,
    })
}

/// A fault of a main, in which this many bytes come before what was read.
fn moved(fault: LexError, main: usize, from: usize) -> LexError {
    match fault {
        LexError::NumberTooLarge(file, at) if file == main => {
            LexError::NumberTooLarge(file, at.saturating_add(from))
        }
        LexError::BadEscape(file, at) if file == main => {
            LexError::BadEscape(file, at.saturating_add(from))
        }
        LexError::Unterminated(file, at) if file == main => {
            LexError::Unterminated(file, at.saturating_add(from))
        }
        LexError::BadCharacter(file, at) if file == main => {
            LexError::BadCharacter(file, at.saturating_add(from))
        }
        LexError::StringTooLong(file, at) if file == main => {
            LexError::StringTooLong(file, at.saturating_add(from))
        }
        LexError::GetMissing(file, at) if file == main => {
            LexError::GetMissing(file, at.saturating_add(from))
        }
        _ => fault,
    }
}

/// The fault that the lexer finds in a main from an offset on.
fn fault_from(
    alloc: Global,
    sources: &[Source<'_>],
    main: usize,
    from: usize,
) -> Result<Option<LexError>, Memory> {
    let text: &[u8] = match sources.get(main) {
        Some(source) => source.text.get(from..).unwrap_or(b""),
        None => b"",
    };
    let rest = with_text(alloc, sources, main, text)?;
    if main >= rest.len() {
        return Ok(None);
    }
    Ok(match lex(alloc, rest.as_slice(), main) {
        Ok(_) => None,
        Err(fault) => Some(moved(fault, main, from)),
    })
}

/// What is found when a main is read from an offset on.
fn next_in(
    alloc: Global,
    sources: &[Source<'_>],
    main: usize,
    from: usize,
    most: usize,
) -> Result<Next, Memory> {
    let Some(fault) = fault_from(alloc, sources, main, from)? else {
        return Ok(Next::Rest(faults_of_parser(alloc, sources, main, most)?));
    };
    let error = BuildError::Lex(main, fault);
    Ok(match explained(alloc, sources, main, error)? {
        Some(further) => Next::Lexical(fault, further),
        None => Next::Rest(Vec::new(alloc)),
    })
}

/// Where a main with this text is read on, and what is found there. `reading` is where it was read from before, the place of
/// the mended fault, and the most that is found.
fn next_after(
    alloc: Global,
    sources: &[Source<'_>],
    main: usize,
    text: &[u8],
    reading: (usize, usize, usize),
) -> Result<(usize, Next), Memory> {
    let (from, at, most) = reading;
    let mended = with_text(alloc, sources, main, text)?;
    let from = restart(alloc, mended.as_slice(), main, from, at)?;
    let next = next_in(alloc, mended.as_slice(), main, from, most)?;
    Ok((from, next))
}

/// The further faults of a main that the lexer refused with this fault, `most` and one at most. Returns `Memory` if an
/// allocation fails.
pub fn faults_after_lexical(
    alloc: Global,
    sources: &[Source<'_>],
    main: usize,
    fault: LexError,
    most: usize,
) -> Result<Vec<FurtherFault>, Memory> {
    let mut all = Vec::new(alloc);
    let Some(source) = sources.get(main) else {
        return Ok(all);
    };
    let mut text = Vec::from_slice(alloc, source.text)?;
    let mut fault = fault;
    let mut from = 0;
    for count in 0..most {
        if !mend(text.as_mut_slice(), main, fault) {
            break;
        }
        let reading = (from, place_of(fault), most - count);
        let (place, next) = next_after(alloc, sources, main, text.as_slice(), reading)?;
        from = place;
        match next {
            Next::Lexical(next, further) => {
                all.push(further)?;
                fault = next;
            }
            Next::Rest(rest) => {
                for further in rest {
                    all.push(further)?;
                }
                break;
            }
        }
    }
    Ok(all)
}
