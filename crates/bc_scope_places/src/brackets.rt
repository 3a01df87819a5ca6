//! Extends the tokens between the first and last leaf of an expression by the operators and brackets around them.
ghost use Rattle.std.specs.Prelude.{◌≤◌, ◌<◌, length};

use crate::leaves::Leaves;
use crate::span::Span;
use bc_lex_tokens::{Symbol, Token, TokenKind};

/// Whether there is a token `i`, and it is this symbol.
fn is_symbol(tokens: &[Token<'_>], i: usize, symbol: Symbol) -> bool {
    i < tokens.len() && tokens[i].kind == TokenKind::Symbol(symbol)
}

/// Whether token `i` is a unary operator.
fn is_sign(tokens: &[Token<'_>], i: usize) -> bool {
    is_symbol(tokens, i, Symbol::Minus)
        || is_symbol(tokens, i, Symbol::Not)
        || is_symbol(tokens, i, Symbol::Indirection)
        || is_symbol(tokens, i, Symbol::AddressOf)
}

/// Whether token `i` is an opening bracket.
fn opens(tokens: &[Token<'_>], i: usize) -> bool {
    is_symbol(tokens, i, Symbol::OpenBracket) || is_symbol(tokens, i, Symbol::OpenSection)
}

/// Whether token `i` is a closing bracket.
fn closes(tokens: &[Token<'_>], i: usize) -> bool {
    is_symbol(tokens, i, Symbol::CloseBracket) || is_symbol(tokens, i, Symbol::CloseSection)
}

/// The first of the `signs` operators before token `first`, with opening brackets allowed between them.
fn first_operator_before(tokens: &[Token<'_>], first: usize, signs: u64) -> usize
    ensures { result ≤ first }
{
    let mut begin = first;
    let mut left = signs;
    for back in 0..first {
        let i = first - 1 - back;
        if left == 0 {
            return begin.min(first);
        }
        if is_sign(tokens, i) {
            left -= 1;
            begin = i;
        } else if !is_symbol(tokens, i, Symbol::OpenBracket) {
            return begin.min(first);
        }
    }
    begin.min(first)
}

/// In a range of tokens, the number of closing brackets that are opened before it, and of opening ones that are closed after it.
#[derive(Clone, Copy)]
struct Unmatched {
    closed: usize,
    open: usize,
}

/// Counts the unmatched brackets of the tokens from `first` to `last`.
fn count_unmatched(tokens: &[Token<'_>], first: usize, last: usize) -> Unmatched {
    let mut closed = 0usize;
    let mut open = 0usize;
    for i in first..tokens.len() {
        if i > last {
            return Unmatched { closed, open };
        }
        if opens(tokens, i) {
            open = open.saturating_add(1);
        } else if closes(tokens, i) {
            if open > 0 {
                open -= 1;
            } else {
                closed = closed.saturating_add(1);
            }
        }
    }
    Unmatched { closed, open }
}

/// The first of up to `closed` opening brackets directly before token `first`.
fn first_open_before(tokens: &[Token<'_>], first: usize, closed: usize) -> usize
    ensures { result ≤ first }
{
    let mut begin = first;
    for _each in 0..closed {
        if begin > 0 && opens(tokens, begin - 1) {
            begin -= 1;
        }
    }
    begin.min(first)
}

/// The last token of the empty argument lists and the closing brackets after token `last`: `calls` and `open` say how many of
/// each belong to the expression.
fn after_calls(tokens: &[Token<'_>], last: usize, calls: u64, open: usize) -> usize
    requires { last < length tokens.now }
    ensures { (last ≤ result) × (result < length tokens.now) }
{
    let greatest = tokens.len() - 1;
    let mut end = last;
    let mut calls = calls;
    let mut open = open;
    for _each in 0..tokens.len() {
        let next = end.saturating_add(1);
        let second = end.saturating_add(2);
        if open > 0 && closes(tokens, next) {
            open -= 1;
            end = next;
        } else if calls > 0 && opens(tokens, next) && closes(tokens, second) {
            calls -= 1;
            end = second;
        } else {
            return end.max(last).min(greatest);
        }
    }
    end.max(last).min(greatest)
}

/// The tokens of an expression, by its leaves and the tokens of its first and last leaf.
pub fn around(tokens: &[Token<'_>], at: Leaves, first: usize, last: usize) -> Span
    requires in_order { first ≤ last }
    requires within { last < length tokens.now }
    ensures { (result.first ≤ result.last) × (result.last < length tokens.now) }
{
    let begin = first_operator_before(tokens, first, at.signs);
    let begin = first_open_before(tokens, begin, count_unmatched(tokens, begin, last).closed);
    let end = after_calls(
        tokens,
        last,
        at.calls,
        count_unmatched(tokens, begin, last).open,
    );
    Span {
        first: begin,
        last: end,
    }
}
