//! Warning: a label that no GOTO names.

use crate::declared::{Declarations, Meaning};
use crate::tokens::{is_at, name_at};
use bc_lex_tokens::{Symbol, Token};

/// What a label that no GOTO names is probably meant as.
#[derive(Clone, Copy)]
pub enum Idle {
    /// The word DEFAULT of a SWITCHON.
    Default,
    /// A label.
    Label,
}

/// What the label at this index is probably meant as; `None` if the token isn't a label, or a GOTO names it.
pub fn idle_label(
    tokens: &[Token<'_>],
    declarations: &Declarations<'_>,
    index: usize,
) -> Option<Idle> {
    let name = name_at(tokens, index)?;
    if !is_at(tokens, index.saturating_add(1), Symbol::Colon)
        || !matches!(declarations.at(index)?.meaning, Meaning::Label)
        || declarations.uses_at(index).is_target
    {
        return None;
    }
    if name.eq_ignore_ascii_case(b"DEFAULT") || name.eq_ignore_ascii_case(b"OTHERWISE") {
        Some(Idle::Default)
    } else {
        Some(Idle::Label)
    }
}
