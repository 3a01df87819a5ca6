//! Reads a main again, to find where a run is in it.

use crate::calls::{Call, Parameter, only_call, parameter_at};
use crate::extent::{Extent, extent_from};
use crate::message::WildProgram;
use bc_interpret_trace::Standing;
use bc_lex::{Source, lex};
use bc_lex_tokens::{Symbol, Token, TokenKind};
use bc_machine_defs::Image;
use bc_parse::parse;
use bc_parse_tree::is_leaf;
use bc_scope_places::{BodyOf, Sites, sites_of};
use bc_word::Memory;
use bcpl_messages::{Draft, is_at, span_of};
use bcpl_places::Span;
use std::alloc::Global;

/// A label of a segment; segments are counted without that of the primitives.
#[derive(Clone, Copy)]
pub struct LabelOf {
    /// The index of the segment; that of the primitives isn't counted.
    pub segment: usize,
    /// The label.
    pub label: u64,
}

/// The label that has this address; `None` if no label has it, or only one of the primitives.
pub fn labelled(image: &Image, address: u16) -> Option<LabelOf> {
    for (number, place) in image.places.as_slice().iter().enumerate() {
        if let Some(segment) = number.checked_sub(1) {
            for (label, at) in place.labels.as_slice() {
                if at.get() == address {
                    return Some(LabelOf {
                        segment,
                        label: u64::from(label.get()),
                    });
                }
            }
        }
    }
    None
}

/// A main that was read again, with the places of its routines, variables and roots.
#[derive(Drop)]
pub struct ReadMain<'s> {
    /// The index of the source.
    pub main: usize,
    /// Its tokens.
    pub tokens: Vec<Token<'s>>,
    /// The index of the token of each leaf.
    leaves: Vec<usize>,
    /// The places of its routines, variables and roots.
    pub sites: Sites,
}

/// The indexes of the tokens that are leaves.
fn leaves_among(alloc: Global, tokens: &[Token<'_>]) -> Result<Vec<usize>, Memory> {
    let mut leaves = Vec::new(alloc);
    for (index, token) in tokens.iter().enumerate() {
        if is_leaf(token.kind) {
            leaves.push(index)?;
        }
    }
    Ok(leaves)
}

/// The places among the tokens of a main; `None` if they are refused.
fn sites_among(draft: &mut Draft, tokens: &[Token<'_>]) -> Option<Sites> {
    let alloc = draft.alloc();
    match parse(alloc, tokens) {
        Ok(section) => draft.found(sites_of(alloc, &section), None),
        Err(_) => None,
    }
}

/// Reads this main again. `None` if it is refused, which can't happen for a main that was built.
pub fn read<'s>(draft: &mut Draft, sources: &[Source<'s>], main: usize) -> Option<ReadMain<'s>> {
    if main >= sources.len() {
        return None;
    }
    let alloc = draft.alloc();
    let Ok(tokens) = lex(alloc, sources, main) else {
        return None;
    };
    let leaves = leaves_among(alloc, tokens.as_slice());
    let leaves = draft.found(leaves, Vec::new(alloc));
    match sites_among(draft, tokens.as_slice()) {
        Some(sites) => Some(ReadMain {
            main,
            tokens,
            leaves,
            sites,
        }),
        None => None,
    }
}

/// A root of a segment; segments are counted without that of the primitives.
#[derive(Clone, Copy)]
pub struct RootOf {
    /// The index of the segment.
    pub segment: usize,
    /// The index of the root among those of the segment's main.
    pub root: usize,
}

/// The root at which a call is; `None` if no source has its routine.
pub fn root_of(
    alloc: Global,
    program: &WildProgram<'_, '_>,
    standing: &Standing,
) -> Option<RootOf> {
    let LabelOf { segment, label } = labelled(program.image, standing.routine)?;
    let mut draft = Draft::new(alloc, 0);
    let read = read(&mut draft, program.sources, *program.mains.get(segment)?)?;
    let root = read.root(label, standing)?;
    Some(RootOf { segment, root })
}

impl<'s> ReadMain<'s> {
    /// The index of the token of a leaf.
    pub fn token_of(&self, leaf: u64) -> Option<usize> {
        let leaf = usize::try_from(leaf).ok()?;
        self.leaves.get(leaf).copied()
    }

    /// The token of a leaf.
    fn token(&self, leaf: u64) -> Option<&Token<'s>> {
        self.tokens.get(self.token_of(leaf)?)
    }

    /// The text of the token of a leaf.
    pub fn text(&self, leaf: u64) -> Option<&'s [u8]> {
        Some(self.token(leaf)?.text)
    }

    /// The span of a leaf.
    pub fn span(&self, sources: &[Source<'_>], leaf: u64) -> Option<Span> {
        let index = self.token_of(leaf)?;
        Some(span_of(self.tokens.as_slice(), sources, self.main, index))
    }

    /// The root at which a call is whose routine has this label.
    pub(crate) fn root(&self, label: u64, standing: &Standing) -> Option<usize> {
        let body = match standing.valof {
            Some(number) => BodyOf::Valof(number as u64),
            None => BodyOf::Routine(label),
        };
        self.sites.root(body, standing.following)
    }

    /// The tokens of the root with this number.
    pub fn extent_of_root(&self, root: usize) -> Option<Extent> {
        let leaf = self.sites.roots.get(root)?.leaf;
        Some(extent_from(self.tokens.as_slice(), self.token_of(leaf)?))
    }

    /// The span of these tokens; that of the first one if the last one is in another file.
    pub fn span_of(&self, extent: Extent) -> Option<Span> {
        let first = self.tokens.get(extent.first)?;
        let last = self.tokens.get(extent.last)?;
        let end = if first.file == last.file {
            last.end
        } else {
            first.end
        };
        Some(Span {
            file: first.file,
            start: first.start,
            end: end.max(first.start),
        })
    }

    /// The only call in an extent of the routine with this name.
    pub(crate) fn only_call(&self, extent: Extent, name: &[u8]) -> Option<Call> {
        only_call(self.tokens.as_slice(), extent, name)
    }

    /// Which parameter of the routine with this label the name at a leaf is; `None` if it isn't one.
    pub(crate) fn parameter(&self, label: u64, leaf: u64) -> Option<Parameter> {
        let tokens = self.tokens.as_slice();
        let name = self.token_of(self.sites.label(label)?)?;
        parameter_at(tokens, name, self.token_of(leaf)?)
    }

    /// Whether a label is a routine's: a parenthesis follows its name.
    pub fn is_routine(&self, label: u64) -> bool {
        let tokens = self.tokens.as_slice();
        let Some(index) = self.sites.label(label).and_then(|leaf| self.token_of(leaf)) else {
            return false;
        };
        let is_name = match tokens.get(index) {
            Some(token) => matches!(token.kind, TokenKind::Name(_)),
            None => false,
        };
        is_name && is_at(tokens, index.saturating_add(1), Symbol::OpenBracket)
    }
}
