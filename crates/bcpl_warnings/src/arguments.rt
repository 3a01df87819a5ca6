//! Warning: a call with fewer arguments than parameters.

use crate::declared::Declarations;
use crate::routines::is_defined;
use crate::tokens::{closes_at, is_at, is_line_start, name_at, opens_at};
use bc_lex_tokens::{Symbol, Token};

/// A call with fewer arguments than the routine has parameters.
#[derive(Clone, Copy)]
pub struct Missing {
    /// How many arguments are passed.
    pub arguments: usize,
    /// How many parameters the routine has.
    pub parameters: usize,
}

/// Whether the name with this index is called.
pub fn is_called(tokens: &[Token<'_>], index: usize) -> bool {
    let next = index.saturating_add(1);
    name_at(tokens, index).is_some()
        && is_at(tokens, next, Symbol::OpenBracket)
        && !is_line_start(tokens, next)
        && !is_defined(tokens, index)
}

/// How many arguments these commas separate. Each arrow belongs to a conditional expression, which has a comma of its
/// own.
fn parted(is_empty: bool, commas: usize, arrows: usize) -> usize {
    if is_empty {
        0
    } else {
        commas.saturating_sub(arrows).saturating_add(1)
    }
}

/// How many arguments follow the parenthesis with this index; `None` if it isn't closed.
pub fn arguments_after(tokens: &[Token<'_>], open: usize) -> Option<usize> {
    let mut depth: usize = 0;
    let mut commas: usize = 0;
    let mut arrows: usize = 0;
    for index in open..tokens.len() {
        if opens_at(tokens, index) {
            depth = depth.saturating_add(1);
        } else if closes_at(tokens, index) {
            if depth == 1 {
                return Some(parted(index == open.saturating_add(1), commas, arrows));
            }
            depth = depth.saturating_sub(1);
        } else if depth == 1 && is_at(tokens, index, Symbol::Comma) {
            commas = commas.saturating_add(1);
        } else if depth == 1 && is_at(tokens, index, Symbol::Arrow) {
            arrows = arrows.saturating_add(1);
        }
    }
    None
}

/// The numbers of arguments and parameters, if the token with this index calls a routine of the main with too few
/// arguments.
pub fn missing_arguments(
    tokens: &[Token<'_>],
    declarations: &Declarations<'_>,
    index: usize,
) -> Option<Missing> {
    if !is_called(tokens, index) {
        return None;
    }
    let parameters = declarations.parameters_at(index)?;
    let arguments = arguments_after(tokens, index.saturating_add(1))?;
    if arguments < parameters
        && !declarations.uses_at(index).is_assigned
        && !declarations.addresses_parameter(tokens, index)
    {
        Some(Missing {
            arguments,
            parameters,
        })
    } else {
        None
    }
}
