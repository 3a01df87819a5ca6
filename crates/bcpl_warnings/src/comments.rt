//! Warnings: a `||` meant as an operator, which makes a comment of the THEN or DO after it, and a `//` meant as a division.

use crate::tokens::{is_at, is_line_start, is_separated, name_at};
use crate::unreachable::is_conditional;
use bc_lex::Source;
use bc_lex_tokens::{Symbol, Token};
use bcpl_places::Span;

/// Whether more than white space may be between the token with this index and the one before it.
pub fn has_comment_before(sources: &[Source<'_>], tokens: &[Token<'_>], index: usize) -> bool {
    let (Some(before), Some(token)) = (tokens.get(index.saturating_sub(1)), tokens.get(index))
    else {
        return false;
    };
    let Some(source) = sources.get(before.file) else {
        return false;
    };
    match source.text.get(before.end..token.start) {
        Some(gap) => before.file != token.file || !gap.trim_ascii_start().is_empty(),
        None => true,
    }
}

/// Whether these bytes begin with THEN or DO as a word after a space.
fn begins_do(bytes: &[u8]) -> bool {
    bytes.starts_with(b" DO ")
        || bytes.starts_with(b" DO\n")
        || bytes.starts_with(b" THEN ")
        || bytes.starts_with(b" THEN\n")
}

/// Whether THEN or DO is a word on the first of these lines.
fn has_do(lines: &[u8]) -> bool {
    for (at, byte) in lines.iter().enumerate() {
        if *byte == b'\n' {
            return false;
        }
        if let Some(rest) = lines.get(at..)
            && begins_do(rest)
        {
            return true;
        }
    }
    false
}

/// The text after a token in its file.
fn text_after<'s>(sources: &[Source<'s>], token: &Token<'_>) -> &'s [u8] {
    match sources.get(token.file) {
        Some(source) => &source.text[token.end.min(source.text.len())..],
        None => b"",
    }
}

/// The `||` of a comment after a token, if the comment contains THEN or DO.
fn comment_after(sources: &[Source<'_>], token: &Token<'_>) -> Option<Span> {
    let rest = text_after(sources, token);
    let comment = rest.trim_ascii_start();
    if !comment.starts_with(b"||") || !has_do(comment) {
        return None;
    }
    let blanks = rest.len().saturating_sub(comment.len());
    let start = token.end.saturating_add(blanks);
    Some(Span {
        file: token.file,
        start,
        end: start.saturating_add(2),
    })
}

/// The `||` of a comment that contains the THEN or DO of a condition, if the command at this index, on the next line,
/// therefore depends on that condition.
pub fn swallowed_do(sources: &[Source<'_>], tokens: &[Token<'_>], index: usize) -> Option<Span> {
    if !is_separated(tokens, index) {
        return None;
    }
    let comment = comment_after(sources, tokens.get(index.saturating_sub(1))?)?;
    if is_conditional(tokens, index) {
        Some(comment)
    } else {
        None
    }
}

/// The rest of a line, before its line feed.
fn first_line(text: &[u8]) -> &[u8] {
    for (at, byte) in text.iter().enumerate() {
        if *byte == b'\n'
            && let Some(line) = text.get(..at)
        {
            return line;
        }
    }
    text
}

/// Whether a text is a number.
fn is_number(text: &[u8]) -> bool {
    !text.is_empty() && text.iter().all(|byte| byte.is_ascii_digit())
}

/// The `//` of a comment after a token, if the comment is nothing but a number.
fn number_after(sources: &[Source<'_>], token: &Token<'_>) -> Option<Span> {
    let line = first_line(text_after(sources, token));
    let comment = line.trim_ascii_start();
    let number = comment.strip_prefix(b"//")?.trim_ascii();
    if !is_number(number) {
        return None;
    }
    let start = token
        .end
        .saturating_add(line.len().saturating_sub(comment.len()));
    Some(Span {
        file: token.file,
        start,
        end: start.saturating_add(2),
    })
}

/// How many tokens of a line are searched for what needs a value.
const LOOK_BACK: usize = 40;

/// Whether the line that ends with the token at this index assigns, declares or returns a value.
fn has_value(tokens: &[Token<'_>], last: usize) -> bool {
    let mut at = last;
    for _ in 0..LOOK_BACK {
        if is_at(tokens, at, Symbol::Assign)
            || is_at(tokens, at, Symbol::Equal)
            || is_at(tokens, at, Symbol::ResultIs)
        {
            return true;
        }
        if is_line_start(tokens, at) || at == 0 {
            return false;
        }
        at -= 1;
    }
    false
}

/// The `//` before the line that begins at this index, if it is probably meant as a division by the number after it.
pub fn commented_division(
    sources: &[Source<'_>],
    tokens: &[Token<'_>],
    index: usize,
) -> Option<Span> {
    let last = index.checked_sub(1)?;
    let is_operand = name_at(tokens, last).is_some() || is_at(tokens, last, Symbol::CloseBracket);
    let (before, token) = (tokens.get(last)?, tokens.get(index)?);
    let is_far = token.file == before.file && token.start > before.end.saturating_add(3);
    if is_operand && is_far && has_value(tokens, last) {
        number_after(sources, before)
    } else {
        None
    }
}
