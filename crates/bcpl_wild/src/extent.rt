//! The tokens of an expression, test or assignment, found from its first leaf (a name, number or word), and what is
//! among them.

use bc_lex_tokens::{Symbol, Token, TokenKind};
use bcpl_messages::{is_at, symbol_at};

/// The tokens of an expression, test or assignment, as the indexes of the first and the last one.
#[derive(Clone, Copy)]
pub struct Extent {
    /// The index of the first token.
    pub first: usize,
    /// The index of the last token.
    pub last: usize,
}

/// Whether the token with this index is this name.
pub fn is_name(tokens: &[Token<'_>], index: usize, name: &[u8]) -> bool {
    match tokens.get(index) {
        Some(
            Token {
                kind: TokenKind::Name(found),
                ..
            },
        ) => *found == name,
        _ => false,
    }
}

/// Whether an operand can end with the token with this index.
fn ends_operand(tokens: &[Token<'_>], index: usize) -> bool {
    match symbol_at(tokens, index) {
        Some(symbol) => matches!(
            symbol,
            Symbol::CloseBracket | Symbol::CloseSection | Symbol::True | Symbol::False
        ),
        None => true,
    }
}

/// Whether an operand begins with the token with this index that can't directly follow another operand.
fn begins_operand(tokens: &[Token<'_>], index: usize) -> bool {
    match symbol_at(tokens, index) {
        Some(symbol) => matches!(
            symbol,
            Symbol::True | Symbol::False | Symbol::ValueOf | Symbol::Table | Symbol::AddressOf
        ),
        None => true,
    }
}

/// Whether no expression contains this symbol outside brackets.
fn ends_expression(symbol: Symbol) -> bool {
    matches!(
        symbol,
        Symbol::Semicolon
            | Symbol::Colon
            | Symbol::Do
            | Symbol::Else
            | Symbol::To
            | Symbol::By
            | Symbol::Into
            | Symbol::CloseBracket
            | Symbol::CloseSection
            | Symbol::Repeat
            | Symbol::RepeatWhile
            | Symbol::RepeatUntil
            | Symbol::Let
            | Symbol::And
            | Symbol::Be
            | Symbol::Return
            | Symbol::Break
            | Symbol::Loop
            | Symbol::EndCase
            | Symbol::Finish
            | Symbol::Goto
            | Symbol::ResultIs
            | Symbol::If
            | Symbol::Unless
            | Symbol::While
            | Symbol::Until
            | Symbol::For
            | Symbol::Test
            | Symbol::SwitchOn
            | Symbol::Case
            | Symbol::Default
            | Symbol::Manifest
            | Symbol::Static
            | Symbol::Global
    )
}

/// Whether an expression without open brackets ends before the token with this index.
fn ends_before(tokens: &[Token<'_>], index: usize) -> bool {
    let Some(token) = tokens.get(index) else {
        return true;
    };
    let before = index.saturating_sub(1);
    let is_after_operand = ends_operand(tokens, before);
    match symbol_at(tokens, index) {
        Some(Symbol::OpenSection) => !is_at(tokens, before, Symbol::ValueOf),
        Some(Symbol::OpenBracket | Symbol::Indirection) => is_after_operand && token.line_before,
        Some(symbol) if ends_expression(symbol) => true,
        _ => is_after_operand && begins_operand(tokens, index),
    }
}

/// The first token of an expression whose first leaf is at this index. Preceding prefix operators and parentheses
/// belong to it.
fn after_signs(tokens: &[Token<'_>], index: usize) -> usize {
    let mut first = index;
    for _ in 0..index {
        let before = first.saturating_sub(1);
        let is_sign = is_at(tokens, before, Symbol::OpenBracket)
            || is_at(tokens, before, Symbol::Minus)
            || is_at(tokens, before, Symbol::Not)
            || is_at(tokens, before, Symbol::Indirection)
            || is_at(tokens, before, Symbol::AddressOf);
        if !is_sign {
            return first;
        }
        first = before;
    }
    first
}

/// The state of a scan of an expression's tokens.
#[derive(Clone, Copy)]
struct ExtentWalk {
    /// How many brackets are open.
    depth: usize,
    /// How many conditional expressions still need their comma.
    arrows: usize,
    /// The first comma that separates two expressions.
    comma: Option<usize>,
    is_assignment: bool,
}

impl ExtentWalk {
    /// Takes the token with this index.
    fn pass(&mut self, tokens: &[Token<'_>], index: usize) {
        match symbol_at(tokens, index) {
            Some(Symbol::OpenBracket | Symbol::OpenSection) => {
                self.depth = self.depth.saturating_add(1);
            }
            Some(Symbol::CloseBracket | Symbol::CloseSection) => {
                self.depth = self.depth.saturating_sub(1);
            }
            Some(Symbol::Assign) if self.depth == 0 => self.is_assignment = true,
            Some(Symbol::Arrow) if self.depth == 0 => self.arrows = self.arrows.saturating_add(1),
            Some(Symbol::Comma) if self.depth == 0 => {
                if self.arrows > 0 {
                    self.arrows -= 1;
                } else if self.comma.is_none() {
                    self.comma = Some(index);
                }
            }
            _ => {}
        }
    }
}

/// The tokens of the expression, test or assignment whose first leaf is at this index.
pub fn extent_from(tokens: &[Token<'_>], index: usize) -> Extent {
    let first = after_signs(tokens, index);
    let mut walk = ExtentWalk {
        depth: 0,
        arrows: 0,
        comma: None,
        is_assignment: false,
    };
    let mut last = index;
    for at in first..tokens.len() {
        if at > index && walk.depth == 0 && ends_before(tokens, at) {
            break;
        }
        walk.pass(tokens, at);
        last = at;
    }
    match walk.comma {
        Some(comma) if !walk.is_assignment && comma > index => Extent {
            first,
            last: comma - 1,
        },
        _ => Extent {
            first,
            last: last.max(index),
        },
    }
}

/// Whether the token with this index is a name that is assigned to.
fn is_assigned(tokens: &[Token<'_>], index: usize) -> bool {
    is_at(tokens, index.saturating_add(1), Symbol::Assign)
        && !is_at(tokens, index.saturating_sub(1), Symbol::Indirection)
}

/// The only token of an extent at which a variable with this name can be read. `None` if there are several, or
/// something is read through an address.
pub fn only_reading(tokens: &[Token<'_>], extent: Extent, name: &[u8]) -> Option<usize> {
    let mut found = None;
    for index in extent.first..=extent.last {
        if is_at(tokens, index, Symbol::Indirection) {
            return None;
        }
        if is_name(tokens, index, name) && !is_assigned(tokens, index) {
            if found.is_some() {
                return None;
            }
            found = Some(index);
        }
    }
    found
}

/// Whether a name in an extent is followed or preceded by `!`.
pub fn is_indexed(tokens: &[Token<'_>], extent: Extent, name: &[u8]) -> bool {
    for index in extent.first..=extent.last {
        let is_read = is_at(tokens, index.saturating_add(1), Symbol::Indirection)
            || is_at(tokens, index.saturating_sub(1), Symbol::Indirection);
        if is_name(tokens, index, name) && is_read {
            return true;
        }
    }
    false
}
