//! Finds the declaration of a name that isn't in scope where it is used, by scanning the tokens.

use crate::brackets::open_before;
use crate::words::is_at;
use bc_lex_tokens::{Symbol, Token, TokenKind};
use bc_word::Memory;
use std::alloc::Global;

/// What the next names declare.
#[derive(Clone, Copy)]
enum Listed {
    Nothing,
    /// Variables, vectors and routines.
    Defined,
    Parameters,
    /// The variable of a FOR.
    Counter,
    /// The names of MANIFEST, STATIC or GLOBAL.
    Constants,
}

/// How a name is declared.
#[derive(Clone, Copy)]
enum DeclarationKind {
    Defined,
    Parameter,
    Counter,
    Constant,
    Label,
}

/// The place where a name is declared, and the sentence that follows the name.
#[derive(Clone, Copy)]
pub struct Declared {
    /// The index of the token.
    pub index: usize,
    /// The sentence on the declaration, without the name.
    pub sentence: &'static str,
}

/// What the names after a symbol declare, given what those before it did.
fn after_symbol(listed: Listed, symbol: Symbol) -> Listed {
    match (listed, symbol) {
        (_, Symbol::Let | Symbol::And) => Listed::Defined,
        (_, Symbol::For) => Listed::Counter,
        (_, Symbol::Manifest | Symbol::Static | Symbol::Global) => Listed::Constants,
        (_, Symbol::CloseSection) => Listed::Nothing,
        (Listed::Constants, _) => Listed::Constants,
        (Listed::Defined, Symbol::OpenBracket) => Listed::Parameters,
        (Listed::Defined | Listed::Parameters, Symbol::Comma) => listed,
        _ => Listed::Nothing,
    }
}

/// What the names after a token declare, given what those before it did.
fn following(listed: Listed, token: &Token<'_>) -> Listed {
    match token.kind {
        TokenKind::Symbol(symbol) => after_symbol(listed, symbol),
        TokenKind::Name(_) => match listed {
            Listed::Counter => Listed::Nothing,
            _ => listed,
        },
        _ => match listed {
            Listed::Constants => listed,
            _ => Listed::Nothing,
        },
    }
}

/// Whether an entry of a list, or a command, begins with the token at an index.
fn begins(tokens: &[Token<'_>], place: usize) -> bool {
    let Some(before) = place.checked_sub(1) else {
        return true
    };
    let is_on_new_line = match tokens.get(place) {
        Some(token) => token.line_before,
        None => false,
    };
    is_on_new_line
        || is_at(tokens, before, Symbol::Semicolon)
        || is_at(tokens, before, Symbol::OpenSection)
        || is_at(tokens, before, Symbol::Colon)
}

/// How the name at an index is declared there, given what the tokens before it list. `None` if it isn't declared there.
fn kind_at(tokens: &[Token<'_>], place: usize, listed: Listed) -> Option<DeclarationKind> {
    let next = place.saturating_add(1);
    match listed {
        Listed::Defined => Some(DeclarationKind::Defined),
        Listed::Parameters => Some(DeclarationKind::Parameter),
        Listed::Counter => Some(DeclarationKind::Counter),
        Listed::Constants => {
            let has_value = is_at(tokens, next, Symbol::Equal)
                || is_at(tokens, next, Symbol::Colon);
            (has_value && begins(tokens, place)).then_some(DeclarationKind::Constant)
        }
        Listed::Nothing => {
            let is_label = is_at(tokens, next, Symbol::Colon) && begins(tokens, place);
            is_label.then_some(DeclarationKind::Label)
        }
    }
}

/// The section bracket that is open before an index and contains `within` other open brackets, if there is one.
fn bracket_around(
    alloc: Global,
    tokens: &[Token<'_>],
    place: usize,
    within: usize,
) -> Result<Option<usize>, Memory> {
    let open = open_before(alloc, tokens, place)?;
    Ok(match open.len().checked_sub(within.saturating_add(1)) {
        Some(index) => open.get(index).copied(),
        None => None,
    })
}

/// Whether a section bracket is open before an index.
fn is_open(
    alloc: Global,
    tokens: &[Token<'_>],
    bracket: usize,
    place: usize,
) -> Result<bool, Memory> {
    let open = open_before(alloc, tokens, place)?;
    Ok(open.iter().any(|other| *other == bracket))
}

/// Whether the block in which a name is declared also contains the place where it is used.
fn encloses(
    alloc: Global,
    tokens: &[Token<'_>],
    declared: usize,
    used: usize,
    kind: DeclarationKind,
) -> Result<bool, Memory> {
    let within = match kind {
        DeclarationKind::Constant => 1,
        _ => 0,
    };
    match bracket_around(alloc, tokens, declared, within)? {
        Some(block) => is_open(alloc, tokens, block, used),
        None => Ok(true),
    }
}

/// The sentence on a declaration whose name is used elsewhere.
fn sentence_on(kind: DeclarationKind, is_enclosed: bool, is_after: bool) -> &'static str {
    match kind {
        DeclarationKind::Parameter => "is a parameter here, in scope only in this routine",
        DeclarationKind::Counter => "is the variable of a FOR here, in scope only in that FOR",
        DeclarationKind::Label => "is a label here, in another routine or an inner block",
        DeclarationKind::Defined | DeclarationKind::Constant => {
            if is_enclosed && is_after {
                "is declared here, after its use"
            } else {
                "is declared here, in another block"
            }
        }
    }
}

/// The declaration of a name that isn't in scope at the token with this index: the first one whose block contains the
/// token, else the first of all. Returns `Memory` if an allocation fails.
pub fn declaration_of(
    alloc: Global,
    tokens: &[Token<'_>],
    used: usize,
    name: &[u8],
) -> Result<Option<Declared>, Memory> {
    let mut listed = Listed::Nothing;
    let mut first = None;
    for (place, token) in tokens.iter().enumerate() {
        if is_named(token, name) {
            if let Some(kind) = kind_at(tokens, place, listed) {
                let is_enclosed = encloses(alloc, tokens, place, used, kind)?;
                let found = Declared {
                    index: place,
                    sentence: sentence_on(kind, is_enclosed, place > used),
                };
                if is_enclosed
                    && matches!(kind, DeclarationKind::Defined | DeclarationKind::Constant)
                {
                    return Ok(Some(found));
                }
                first = first.or(Some(found));
            }
        }
        listed = following(listed, token);
    }
    Ok(first)
}

/// Whether an entry of this kind is in the same list of names as the place where its name is used.
fn shares_list(
    alloc: Global,
    tokens: &[Token<'_>],
    declared: usize,
    used: usize,
    kind: DeclarationKind,
) -> Result<bool, Memory> {
    let DeclarationKind::Constant = kind else {
        return Ok(false)
    };
    let list = bracket_around(alloc, tokens, declared, 0)?;
    let innermost = bracket_around(alloc, tokens, used, 0)?;
    Ok(match (list, innermost) {
        (Some(list), Some(innermost)) => list == innermost,
        _ => false,
    })
}

/// The probable declaration of a name that is in scope at the token with this index. A later entry of the list that
/// contains the token comes first, then the nearest earlier declaration whose block contains it, then the first later
/// one. Returns `Memory` if an allocation fails.
pub fn meaning_of(
    alloc: Global,
    tokens: &[Token<'_>],
    used: usize,
    name: &[u8],
) -> Result<Option<Declared>, Memory> {
    let mut listed = Listed::Nothing;
    let mut nearest: Option<Declared> = None;
    for (place, token) in tokens.iter().enumerate() {
        if is_named(token, name) {
            if let Some(kind) = kind_at(tokens, place, listed) {
                let is_nearer = place < used
                    || nearest.is_none()
                    || shares_list(alloc, tokens, place, used, kind)?;
                if is_nearer && encloses(alloc, tokens, place, used, kind)? {
                    nearest = Some(Declared {
                        index: place,
                        sentence: sentence_on(kind, true, place > used),
                    });
                }
            }
        }
        listed = following(listed, token);
    }
    Ok(nearest)
}

/// Whether a token is this name.
fn is_named(token: &Token<'_>, name: &[u8]) -> bool {
    match token.kind {
        TokenKind::Name(found) => found == name,
        _ => false,
    }
}
