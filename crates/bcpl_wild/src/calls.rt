//! Calls and parameters, found among the tokens.

use crate::extent::{Extent, is_name};
use bc_lex_tokens::{Symbol, Token};
use bcpl_messages::is_at;

/// The position of a parameter, counted from 1, and the number of parameters.
#[derive(Clone, Copy)]
pub struct Parameter {
    /// Its position, counted from 1.
    pub number: usize,
    /// How many parameters the routine has.
    pub count: usize,
}

/// Which parameter of the routine defined at the token `name` the token `at` is; `None` if it isn't one.
pub fn parameter_at(tokens: &[Token<'_>], name: usize, at: usize) -> Option<Parameter> {
    let open = name.saturating_add(1);
    if !is_at(tokens, open, Symbol::OpenBracket) {
        return None;
    }
    let mut count: usize = 1;
    let mut number = None;
    for (index, _) in tokens.iter().enumerate().skip(open) {
        if is_at(tokens, index, Symbol::CloseBracket) {
            break;
        }
        if is_at(tokens, index, Symbol::Comma) {
            count = count.saturating_add(1);
        }
        if index == at {
            number = Some(count);
        }
    }
    Some(Parameter {
        number: number?,
        count,
    })
}

/// A call.
#[derive(Clone, Copy)]
pub struct Call {
    /// Its tokens.
    pub extent: Extent,
    /// How many arguments it has.
    pub arguments: usize,
}

/// The call of the name at this index; `None` if it isn't called there.
fn call_at(tokens: &[Token<'_>], index: usize) -> Option<Call> {
    let open = index.saturating_add(1);
    if !is_at(tokens, open, Symbol::OpenBracket) {
        return None;
    }
    let mut depth: usize = 0;
    let mut commas: usize = 0;
    let mut arrows: usize = 0;
    for (at, _) in tokens.iter().enumerate().skip(open) {
        let opens = is_at(tokens, at, Symbol::OpenBracket)
            || is_at(tokens, at, Symbol::OpenSection);
        let closes = is_at(tokens, at, Symbol::CloseBracket)
            || is_at(tokens, at, Symbol::CloseSection);
        if opens {
            depth = depth.saturating_add(1);
        } else if closes && depth == 1 {
            let is_empty = at == open.saturating_add(1);
            // Each arrow belongs to a conditional expression, which has a comma of its own.
            let parted = commas.saturating_sub(arrows).saturating_add(1);
            return Some(Call {
                extent: Extent {
                    first: index,
                    last: at,
                },
                arguments: if is_empty { 0 } else { parted },
            });
        } else if closes {
            depth = depth.saturating_sub(1);
        } else if depth == 1 && is_at(tokens, at, Symbol::Comma) {
            commas = commas.saturating_add(1);
        } else if depth == 1 && is_at(tokens, at, Symbol::Arrow) {
            arrows = arrows.saturating_add(1);
        }
    }
    None
}

/// The only call of this name in an extent; `None` if there are none or several.
pub fn only_call(tokens: &[Token<'_>], extent: Extent, name: &[u8]) -> Option<Call> {
    let mut found = None;
    for index in extent.first..=extent.last {
        if is_name(tokens, index, name)
            && let Some(call) = call_at(tokens, index)
        {
            if found.is_some() {
                return None;
            }
            found = Some(call);
        }
    }
    found
}
