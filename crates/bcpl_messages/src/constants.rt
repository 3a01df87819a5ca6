//! Reasons why an expression isn't a constant.

use crate::declared::{Declared, meaning_of};
use crate::draft::Draft;
use crate::syntax::{list_word, name_of};
use crate::words::is_symbol;
use bc_lex_tokens::{Symbol, Token, TokenKind};

/// A reason why an expression isn't a constant.
#[derive(Clone, Copy)]
pub enum Reason {
    /// The name at the token with this index is not a constant there, as its declaration shows.
    Name(usize, Declared),
    /// It contains a division or a remainder, and nothing else that could keep it from being a constant.
    Division,
}

/// The sentence on a name that isn't a constant, by the word of the list that declares it, if a list does.
fn sentence_on(word: Option<Symbol>) -> &'static str {
    match word {
        Some(Symbol::Static) => "is declared here by STATIC, and is not a constant",
        Some(Symbol::Global) => "is declared here by GLOBAL, and is not a constant",
        _ => "is declared here, and is not a constant",
    }
}

/// The declaration, if it shows that the name isn't a constant where it is used; `None` if the name may be a constant.
fn judged(
    draft: &mut Draft,
    tokens: &[Token<'_>],
    used: usize,
    declared: Declared,
) -> Option<Declared> {
    let word = list_word(draft, tokens, declared.index);
    if !matches!(word, Some(Symbol::Manifest)) {
        return Some(Declared {
            index: declared.index,
            sentence: sentence_on(word),
        });
    }
    (declared.index > used).then_some(declared)
}

/// Why the name at the token with this index isn't a constant; `None` if that isn't visible or the token isn't a name.
fn reason_at(draft: &mut Draft, tokens: &[Token<'_>], index: usize) -> Option<Declared> {
    let name = name_of(tokens.get(index))?;
    let meaning = meaning_of(draft.alloc(), tokens, index, name);
    let declared = draft.found(meaning, None)?;
    judged(draft, tokens, index, declared)
}

/// Whether a token is a division or a remainder.
fn divides(token: &Token<'_>) -> bool {
    is_symbol(token, Symbol::Divide) || is_symbol(token, Symbol::Remainder)
}

/// The symbols that constants are usually made of.
const OF_CONSTANTS: [Symbol; 9] = [
    Symbol::Plus,
    Symbol::Minus,
    Symbol::Multiply,
    Symbol::Divide,
    Symbol::Remainder,
    Symbol::OpenBracket,
    Symbol::CloseBracket,
    Symbol::True,
    Symbol::False,
];

/// Whether a token can be part of the constant of the name `own`: a number, a character, another name, or one of
/// `OF_CONSTANTS`.
fn is_of_constant(token: &Token<'_>, own: &[u8]) -> bool {
    match token.kind {
        TokenKind::Number(_) | TokenKind::Character(_) => true,
        TokenKind::Symbol(_) => OF_CONSTANTS.iter().any(|known| is_symbol(token, *known)),
        TokenKind::Name(name) => name != own,
        TokenKind::String(_) => false,
    }
}

/// Whether only a division by 0 can keep these tokens from being a constant. They begin at the index `first`.
fn divides_by_zero(all: &[Token<'_>], first: usize, tokens: &[Token<'_>]) -> bool {
    let own = match all.get(first.wrapping_sub(2)) {
        Some(token) => token.text,
        None => b"",
    };
    for token in tokens {
        if !is_of_constant(token, own) {
            return false;
        }
    }
    tokens.iter().any(divides)
}

/// Why the expression of the tokens from `first` to `last` isn't a constant; `None` if that isn't visible.
pub fn reason_of(
    draft: &mut Draft,
    tokens: &[Token<'_>],
    first: usize,
    last: usize,
) -> Option<Reason> {
    let following = last.saturating_add(1);
    for index in first..following {
        if let Some(declared) = reason_at(draft, tokens, index) {
            return Some(Reason::Name(index, declared));
        }
    }
    let expression = tokens.get(first..following).unwrap_or(&[]);
    divides_by_zero(tokens, first, expression).then_some(Reason::Division)
}
