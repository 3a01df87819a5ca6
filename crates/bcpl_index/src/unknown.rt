//! The names of a main that are used and declared nowhere in it.

use crate::interned::Interned;
use crate::names::Names;
use crate::tree::Tree;
use bc_lex::{Source, lex};
use bc_lex_tokens::Token;
use bc_parse::parse;
use bc_parse_tree::Section;
use bc_word::Memory;
use bcpl_places::Span;
use indexmap::IndexSet;
use std::alloc::Global;

/// The first uses of the names that are declared nowhere, in text order.
fn first_uses(alloc: Global, tree: &Tree<'_>, names: &Names) -> Result<Vec<Span>, Memory> {
    let mut met: IndexSet<&[u8]> = IndexSet::new(alloc);
    let mut spans = Vec::new(alloc);
    for at in names.unknown() {
        let name = tree.text(*at);
        if !names.is_declared(tree, *at)
            && met.insert(name)?
            && let Some(span) = tree.span(*at, *at)
        {
            spans.push(span)?;
        }
    }
    Ok(spans)
}

/// The first uses of the names that this section declares nowhere, in text order.
fn unknown_in_section(
    alloc: Global,
    tokens: &[Token<'_>],
    interned: &Interned<'_>,
    section: &Section<'_>,
) -> Result<Vec<Span>, Memory> {
    let tree = Tree::of(alloc, tokens, interned, section)?;
    let names = Names::of(alloc, &tree, 0)?;
    first_uses(alloc, &tree, &names)
}

/// The first uses of the names that these tokens declare nowhere, in text order. None if they are no section.
fn unknown_in(alloc: Global, tokens: &[Token<'_>]) -> Result<Vec<Span>, Memory> {
    let Ok(section) = parse(alloc, tokens) else {
        return Ok(Vec::new(alloc));
    };
    let interned = Interned::of(alloc, tokens)?;
    unknown_in_section(alloc, tokens, &interned, &section)
}

/// The first use of each name that this main uses and declares nowhere, in text order. None if the main can't be read.
/// Returns `Memory` if an allocation fails.
pub fn unknown_names(
    alloc: Global,
    sources: &[Source<'_>],
    main: usize,
) -> Result<Vec<Span>, Memory> {
    if main >= sources.len() {
        return Ok(Vec::new(alloc));
    }
    match lex(alloc, sources, main) {
        Ok(tokens) => unknown_in(alloc, tokens.as_slice()),
        Err(_) => Ok(Vec::new(alloc)),
    }
}
