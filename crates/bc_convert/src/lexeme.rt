//! One token or one gap at the start of a text, with the number of its bytes.

ghost use Rattle.std.specs.Prelude.{◌≡◌, ◌+◌, ◌<◌, ◌≤◌, length, drop, true, Some, None, IfSome, MatchOption, slice_index};
ghost use Rattle.bc_convert.specs.Gaps.{begins as begins_of, begins_line as begins_line_of, begins_space as begins_space_of, ends_comment, after_comment, GapThen};
ghost use Rattle.bc_convert.specs.Tokens.{is_quote, names_of, solid_of, HasNoGap, IsSolid, IsConstant, IsToken};

use crate::bytes::{
    digit_bytes, following, hexadecimal_bytes, is_name_byte, is_space, line_bytes, name_bytes, span,
};
use crate::kind::Kind;
use crate::quotes::closing_quote;

/// Whether the text begins with these two bytes.
fn begins(bytes: &[u8], first: u8, second: u8) -> bool
    ensures value { result ≡ begins_of first second bytes.now }
    ensures long { result ≡ true → 2 ≤ length bytes.now }
{
    bytes.len() >= 2 && bytes[0] == first && bytes[1] == second
}

/// Whether the text begins with a comment to the end of the line.
fn begins_line(bytes: &[u8]) -> bool
    ensures value { result ≡ begins_line_of bytes.now }
    ensures long { result ≡ true → 2 ≤ length bytes.now }
{
    begins(bytes, b'/', b'/') || begins(bytes, b'|', b'|') || begins(bytes, b'\\', b'\\')
}

/// Whether the text begins with a blank or a line break.
fn begins_space(bytes: &[u8]) -> bool
    ensures value { result ≡ begins_space_of bytes.now }
    ensures long { result ≡ true → 1 ≤ length bytes.now }
{
    matches!(bytes, [byte, ..] if is_space(*byte))
}

/// Whether the text begins with the end of a block comment.
fn closes(bytes: &[u8]) -> bool
    ensures { result ≡ ends_comment bytes.now }
{
    matches!(bytes, [b'*', b'/', ..])
}

/// The number of bytes up to and including the end of a block comment whose opening has been read, or `None` if it isn't
/// closed.
fn closing(bytes: &[u8]) -> Option<usize>
    ensures within { IfSome result (λ n. n ≤ length bytes.now) }
    ensures rest { MatchOption result (after_comment bytes.now ≡ None) (λ n. after_comment bytes.now ≡ Some (drop n bytes.now)) }
{
    for at in 0..bytes.len() {
        if closes(following(bytes, at)) {
            return Some(at + 2);
        }
    }
    None
}

/// The length of the blank, line break or comment at the start. It is 0 if there is none, or if the comment isn't
/// closed.
fn blank(bytes: &[u8]) -> usize
    ensures within { result ≤ length bytes.now }
    ensures gap { GapThen bytes.now (drop result bytes.now) }
    ensures none { result ≡ 0 → HasNoGap bytes.now }
{
    if begins_line(bytes) {
        2 + line_bytes(following(bytes, 2))
    } else if begins(bytes, b'/', b'*') {
        match closing(following(bytes, 2)) {
            Some(count) => 2 + count,
            None => 0,
        }
    } else if begins_space(bytes) {
        1
    } else {
        0
    }
}

/// The length of the blanks, line breaks and comments at the start.
pub fn gap(bytes: &[u8]) -> usize
    ensures within { result ≤ length bytes.now }
    ensures gap { GapThen bytes.now (drop result bytes.now) }
    ensures longest { HasNoGap (drop result bytes.now) }
{
    let mut at = 0;
    for _ in 0..bytes.len() {
        let count = blank(following(bytes, at));
        if count == 0 {
            return at;
        }
        at += count;
    }
    at
}

/// The offset of the next comment that begins with `\\` in a gap, and the offset of its end. The search begins at the
/// offset `from`, where a blank or a comment begins.
pub fn next_old_comment(gap: &[u8], from: usize) -> Option<(usize, usize)> {
    let mut at = from;
    for _ in 0..gap.len() {
        let rest = span(gap, at, gap.len());
        if matches!(rest, [b'\\', b'\\', ..]) {
            return Some((at, at.saturating_add(line_bytes(rest))));
        }
        at = at.saturating_add(blank(rest).max(1));
    }
    None
}

/// The first `head` bytes of a token and the bytes of a name after them.
fn with_name(bytes: &[u8], head: usize) -> usize
    requires solid { IsSolid bytes.now head }
    requires within { head ≤ length bytes.now }
    ensures longer { head ≤ result }
    ensures within { result ≤ length bytes.now }
    ensures solid { IsSolid bytes.now result }
{
    head + name_bytes(following(bytes, head))
}

/// The first `head` bytes of a token and the digits and underlines after them.
fn with_digits(bytes: &[u8], head: usize) -> usize
    requires solid { IsSolid bytes.now head }
    requires within { head ≤ length bytes.now }
    ensures longer { head ≤ result }
    ensures within { result ≤ length bytes.now }
    ensures solid { IsSolid bytes.now result }
{
    head + digit_bytes(following(bytes, head))
}

/// The first `head` bytes of a token and the hexadecimal digits and underlines after them.
fn with_hexadecimals(bytes: &[u8], head: usize) -> usize
    requires solid { IsSolid bytes.now head }
    requires within { head ≤ length bytes.now }
    ensures longer { head ≤ result }
    ensures within { result ≤ length bytes.now }
    ensures solid { IsSolid bytes.now result }
{
    head + hexadecimal_bytes(following(bytes, head))
}

/// Whether the text begins with a dot and a digit.
fn begins_fraction(bytes: &[u8]) -> bool
    ensures long { result ≡ true → 2 ≤ length bytes.now }
    ensures name { result ≡ true → 1 ≤ names_of bytes.now }
{
    match bytes {
        [b'.', digit, ..] => digit.is_ascii_digit(),
        _ => false,
    }
}

/// The number at the start of a text that begins with a digit.
fn number(bytes: &[u8]) -> (Kind, usize)
    requires { 1 ≤ solid_of bytes.now }
    ensures nonempty { 0 < result.1 }
    ensures within { result.1 ≤ length bytes.now }
    ensures solid { IsSolid bytes.now result.1 }
{
    let whole = with_digits(bytes, 1);
    if begins_fraction(following(bytes, whole)) {
        (Kind::Floating, with_digits(bytes, whole + 1))
    } else {
        (Kind::Number, whole)
    }
}

/// The number with a base at the start.
fn based(bytes: &[u8]) -> (Kind, usize)
    requires { 1 ≤ solid_of bytes.now }
    ensures nonempty { 0 < result.1 }
    ensures within { result.1 ≤ length bytes.now }
    ensures solid { IsSolid bytes.now result.1 }
{
    match bytes {
        [b'#', b'X' | b'x', ..] => (Kind::Number, with_hexadecimals(bytes, 2)),
        [b'#', b'B' | b'b' | b'O' | b'o', ..] => (Kind::Number, with_digits(bytes, 2)),
        [b'#', digit, ..] if digit.is_ascii_digit() => (Kind::Number, with_digits(bytes, 1)),
        [
            b'#',
            b'+' | b'-' | b'*' | b'/' | b'=' | b'<' | b'>' | b'(',
            ..
        ] => (Kind::Floating, 2),
        _ => (Kind::Unknown, 1),
    }
}

/// The sign of two bytes at the start.
fn long_sign(bytes: &[u8]) -> Option<Kind>
    ensures long { IfSome result (λ _. 2 ≤ length bytes.now) }
    ensures solid { IfSome result (λ _. 2 ≤ solid_of bytes.now) }
{
    match bytes {
        [b':', b'=', ..] => Some(Kind::Assign),
        [b'-', b'>', ..] => Some(Kind::Arrow),
        [b'~' | b'\\' | b'^' | b'!' | b'=', b'=', ..] => Some(Kind::Relation),
        [b'<' | b'>', b'=', ..] => Some(Kind::Relation),
        [b'<', b'<', ..] | [b'>', b'>', ..] => Some(Kind::Shift),
        [b'/', b'\\', ..] => Some(Kind::Conjunction),
        [b'\\', b'/', ..] => Some(Kind::Disjunction),
        [b'<', b'>', ..] | [b':', b':', ..] => Some(Kind::Foreign),
        _ => None,
    }
}

/// The kind of a sign of one byte.
fn short_sign(byte: u8) -> Kind {
    match byte {
        b'(' => Kind::OpenRound,
        b')' => Kind::CloseRound,
        b'[' => Kind::OpenSquare,
        b']' => Kind::CloseSquare,
        b'{' => Kind::OpenSection,
        b'}' => Kind::CloseSection,
        b',' => Kind::Comma,
        b';' => Kind::Semicolon,
        b':' => Kind::Colon,
        b'=' => Kind::Equal,
        b'<' | b'>' => Kind::Relation,
        b'+' | b'-' => Kind::Add,
        b'*' => Kind::Star,
        b'/' => Kind::Divide,
        b'~' | b'\\' | 0xac => Kind::Not,
        b'&' => Kind::Conjunction,
        b'|' => Kind::Disjunction,
        b'!' => Kind::Bang,
        b'%' => Kind::Percent,
        b'@' => Kind::Address,
        b'?' => Kind::Query,
        b'_' => Kind::Underline,
        _ => Kind::Unknown,
    }
}

/// The length of the character at the start, which is over 1 for a character of UTF-8 outside ASCII.
fn character_bytes(bytes: &[u8]) -> usize
    requires { 1 ≤ solid_of bytes.now }
    ensures nonempty { 0 < result }
    ensures few { result ≤ 4 }
    ensures within { result ≤ length bytes.now }
    ensures solid { result ≤ solid_of bytes.now }
{
    match bytes {
        [0xc2..=0xdf, 0x80..=0xbf, ..] => 2,
        [0xe0..=0xef, 0x80..=0xbf, 0x80..=0xbf, ..] => 3,
        [0xf0..=0xf4, 0x80..=0xbf, 0x80..=0xbf, 0x80..=0xbf, ..] => 4,
        _ => 1,
    }
}

/// Whether a `$` is followed by one letter, digit or sign, which is a character constant in the dialect of the Alto.
fn is_dollar_character(bytes: &[u8]) -> bool
    ensures long { result ≡ true → 2 ≤ length bytes.now }
    ensures solid { result ≡ true → 2 ≤ solid_of bytes.now }
{
    match bytes {
        [
            b'$',
            b'.'
            | b','
            | b':'
            | b';'
            | b'!'
            | b'?'
            | b'+'
            | b'-'
            | b'='
            | b'&'
            | b'%'
            | b'#'
            | b'/'
            | b'@'
            | b'^'
            | b'|',
            ..
        ] => true,
        [b'$', letter, next, ..] => letter.is_ascii_alphanumeric() && !is_name_byte(*next),
        [b'$', letter] => letter.is_ascii_alphanumeric(),
        _ => false,
    }
}

/// The sign at the start. A section bracket includes its whole tag, and so does a sign of conditional compilation.
fn sign(bytes: &[u8]) -> (Kind, usize)
    requires { 1 ≤ solid_of bytes.now }
    ensures nonempty { 0 < result.1 }
    ensures within { result.1 ≤ length bytes.now }
    ensures solid { IsSolid bytes.now result.1 }
{
    match bytes {
        [b'$', b'(', ..] => (Kind::OpenSection, with_name(bytes, 2)),
        [b'$', b')', ..] => (Kind::CloseSection, with_name(bytes, 2)),
        [b'$', b'$' | b'<' | b'>' | b'~', letter, ..] if letter.is_ascii_alphanumeric() => (
            Kind::Condition,
            with_name(bytes, 2),
        ),
        [0xc2, 0xac, b'=', ..] => (Kind::Relation, 3),
        [0xc2, 0xac, ..] => (Kind::Not, 2),
        [0xe2, 0x89, 0xa0 | 0xa4 | 0xa5, ..] => (Kind::Relation, 3),
        [0xe2, 0x86, 0x90, ..] => (Kind::Assign, 3),
        [0xe2, 0x86, 0x92, ..] => (Kind::Arrow, 3),
        [0xe2, 0x88, 0xa7, ..] => (Kind::Conjunction, 3),
        [0xe2, 0x88, 0xa8, ..] => (Kind::Disjunction, 3),
        [b'$', b'*', letter, ..] if letter.is_ascii_alphabetic() => (Kind::Character, 3),
        [b'$', _, ..] if is_dollar_character(bytes) => (Kind::Character, 2),
        _ => match long_sign(bytes) {
            Some(kind) => (kind, 2),
            None => (short_sign(bytes[0]), character_bytes(bytes)),
        },
    }
}

/// The token at the start of a text that begins with neither a gap nor a quote.
fn solid(bytes: &[u8]) -> (Kind, usize)
    requires { 1 ≤ solid_of bytes.now }
    ensures nonempty { 0 < result.1 }
    ensures within { result.1 ≤ length bytes.now }
    ensures solid { IsSolid bytes.now result.1 }
{
    let first = bytes[0];
    if first.is_ascii_alphabetic() {
        (Kind::Word, with_name(bytes, 1))
    } else if first.is_ascii_digit() {
        number(bytes)
    } else if first == b'#' {
        based(bytes)
    } else {
        sign(bytes)
    }
}

/// The string or character constant at the start of a text that begins with this quote. An unclosed one ends with its line.
fn quoted_token(bytes: &[u8], quote: u8, kind: Kind) -> (Kind, usize)
    requires is_quote { is_quote quote ≡ true }
    requires begins { 0 < length bytes.now }
    requires first { slice_index bytes.now 0 ≡ quote }
    ensures nonempty { 0 < result.1 }
    ensures within { result.1 ≤ length bytes.now }
    ensures constant { IsConstant bytes.now result.1 }
{
    let rest = following(bytes, 1);
    match closing_quote(rest, quote) {
        Some(count) => (kind, 1 + count),
        None => (Kind::Unclosed, 1 + line_bytes(rest)),
    }
}

/// The token at the start of a text that begins with no gap.
pub fn lexeme(bytes: &[u8]) -> (Kind, usize)
    requires begins { 0 < length bytes.now }
    requires no_gap { HasNoGap bytes.now }
    ensures nonempty { 0 < result.1 }
    ensures within { result.1 ≤ length bytes.now }
    ensures token { IsToken bytes.now result.1 }
{
    match bytes[0] {
        b'"' => quoted_token(bytes, b'"', Kind::Text),
        b'\'' => quoted_token(bytes, b'\'', Kind::Character),
        b'/' if begins(bytes, b'/', b'*') => (Kind::Unclosed, bytes.len()),
        _ => solid(bytes),
    }
}
