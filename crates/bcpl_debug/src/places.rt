//! Where the stops of a recorded run are in the sources.

use crate::program::DebugProgram;
use bc_interpret_record::{InBody, StopKind, StopSite};
use bc_lex_tokens::{Symbol, Token};
use bc_scope_places::{BodyOf, Sites};
use bc_word::Memory;
use bcpl_messages::{is_at, symbol_at};
use bcpl_places::Span;
use bcpl_wild::{Extent, ReadMain};
use std::alloc::Global;

/// Where a stop is.
#[derive(Clone, Copy)]
pub struct SitePlace {
    /// Where its text is, if that is known.
    pub span: Option<Span>,
    /// What is about to happen there.
    pub kind: StopKind,
    /// The index of its section.
    pub section: usize,
    /// The index, among the roots of the section, of the root that says which variables are in scope.
    pub root: usize,
    /// The first leaf of that root; without one, the leaf of the routine's name.
    pub leaf: u64,
}

/// The first leaf of the root of a site, or else the leaf of the routine's name.
fn leaf_of(read: &ReadMain<'_>, site: &StopSite, root: Option<usize>) -> u64 {
    if let Some(root) = root
        && let Some(found) = read.sites.roots.get(root)
    {
        return found.leaf;
    }
    match site.body {
        InBody::Routine(label) => read.sites.label(label).unwrap_or(0),
        InBody::Valof(_) => 0,
    }
}

/// A body, as `bc_scope_places` has it.
fn body_of(body: InBody) -> BodyOf {
    match body {
        InBody::Routine(label) => BodyOf::Routine(label),
        InBody::Valof(number) => BodyOf::Valof(number),
    }
}

/// A number for a body, by which bodies are sorted.
fn number_of(body: BodyOf) -> u64 {
    match body {
        BodyOf::Routine(label) => label.saturating_mul(2),
        BodyOf::Valof(number) => number.saturating_mul(2).saturating_add(1),
    }
}

/// A main that was read again, with its roots sorted by their bodies.
#[derive(Clone, Copy)]
struct Main<'r, 's> {
    read: &'r ReadMain<'s>,
    /// The number of a body, with the index of a root.
    roots: &'r [(u64, usize)],
}

/// The roots of a main, sorted by their bodies.
fn sorted_roots(alloc: Global, sites: &Sites) -> Result<Vec<(u64, usize)>, Memory> {
    let mut roots = Vec::new(alloc);
    for (index, root) in sites.roots.iter().enumerate() {
        roots.push((number_of(root.body), index))?;
    }
    roots.sort()?;
    Ok(roots)
}

impl Main<'_, '_> {
    /// The index of the root of a body that comes after `before` others.
    fn nth_root(&self, body: BodyOf, before: u64) -> Option<usize> {
        let wanted = number_of(body);
        let first = self.roots.partition_point(|root| root.0 < wanted);
        let place = first.saturating_add(usize::try_from(before).ok()?);
        match self.roots.get(place) {
            Some((body, index)) if *body == wanted => Some(*index),
            _ => None,
        }
    }
}

/// Whether a symbol is a command without a root.
fn is_plain(symbol: Symbol) -> bool {
    matches!(
        symbol,
        Symbol::Break
            | Symbol::Loop
            | Symbol::EndCase
            | Symbol::Return
            | Symbol::Finish
            | Symbol::Goto
    )
}

/// The token of the command without a root that comes after `skipped` others after this token.
fn plain_after(tokens: &[Token<'_>], from: usize, skipped: u64) -> Option<usize> {
    let mut left = skipped;
    for index in from..tokens.len() {
        if let Some(symbol) = symbol_at(tokens, index)
            && is_plain(symbol)
        {
            if left == 0 {
                return Some(index);
            }
            left -= 1;
        }
    }
    None
}

/// The token after the last root before a site; that of the routine's name if there is none.
fn after_roots(main: Main<'_, '_>, site: &StopSite) -> Option<usize> {
    let read = main.read;
    let body = body_of(site.body);
    if let Some(before) = site.root.checked_sub(1) {
        let root = main.nth_root(body, before)?;
        return Some(read.extent_of_root(root)?.last.saturating_add(1));
    }
    match site.body {
        InBody::Routine(label) => read.token_of(read.sites.label(label)?),
        InBody::Valof(_) => None,
    }
}

/// The place of a command without a root.
fn plain_place(main: Main<'_, '_>, site: &StopSite) -> SitePlace {
    let read = main.read;
    let tokens = read.tokens.as_slice();
    let mut span = None;
    if let Some(from) = after_roots(main, site)
        && let Some(first) = plain_after(tokens, from, site.skipped)
    {
        let last = match site.kind {
            StopKind::Goto => first.saturating_add(1),
            _ => first,
        };
        span = read.span_of(Extent { first, last });
    }
    let before = site.root.saturating_sub(1);
    let root = main.nth_root(body_of(site.body), before);
    SitePlace {
        span,
        kind: site.kind,
        section: site.section,
        root: root.unwrap_or(usize::MAX),
        leaf: leaf_of(read, site, root),
    }
}

/// The nearest token before this one that is one of two symbols, at most 60 tokens before it.
fn symbol_before(tokens: &[Token<'_>], from: usize, this: Symbol, that: Symbol) -> Option<usize> {
    for back in 0..60usize {
        let at = from.checked_sub(back)?;
        if is_at(tokens, at, this) || is_at(tokens, at, that) {
            return Some(at);
        }
    }
    None
}

/// The nearest token after this one that is this symbol, at most 60 tokens after it.
fn symbol_after(tokens: &[Token<'_>], from: usize, symbol: Symbol) -> Option<usize> {
    for (index, _) in tokens.iter().enumerate().skip(from).take(60) {
        if is_at(tokens, index, symbol) {
            return Some(index);
        }
    }
    None
}

/// Whether a symbol begins a command or a test.
fn begins_command(symbol: Symbol) -> bool {
    matches!(
        symbol,
        Symbol::If
            | Symbol::Unless
            | Symbol::While
            | Symbol::Until
            | Symbol::Test
            | Symbol::SwitchOn
            | Symbol::RepeatWhile
            | Symbol::RepeatUntil
    )
}

/// The tokens of a command, given those of its first root: the words before it belong to it.
fn widened(tokens: &[Token<'_>], extent: Extent, kind: StopKind) -> Extent {
    let Extent { first, last } = extent;
    match kind {
        StopKind::Let => Extent {
            first: symbol_before(tokens, first, Symbol::Let, Symbol::And).unwrap_or(first),
            last,
        },
        StopKind::For => Extent {
            first: symbol_before(tokens, first, Symbol::For, Symbol::For).unwrap_or(first),
            last: symbol_after(tokens, last, Symbol::Do).unwrap_or(last),
        },
        _ => {
            let before = first.saturating_sub(1);
            match symbol_at(tokens, before) {
                Some(symbol) if begins_command(symbol) => Extent {
                    first: before,
                    last,
                },
                _ => extent,
            }
        }
    }
}

/// The place of a command with a root.
fn rooted_place(main: Main<'_, '_>, site: &StopSite) -> SitePlace {
    let read = main.read;
    let root = main.nth_root(body_of(site.body), site.root);
    let mut span = None;
    if let Some(root) = root
        && let Some(extent) = read.extent_of_root(root)
    {
        span = read.span_of(widened(read.tokens.as_slice(), extent, site.kind));
    }
    SitePlace {
        span,
        kind: site.kind,
        section: site.section,
        root: root.unwrap_or(usize::MAX),
        leaf: leaf_of(read, site, root),
    }
}

/// Whether a command of this kind has a root.
pub(crate) fn is_rooted(kind: StopKind) -> bool {
    !matches!(
        kind,
        StopKind::Break
            | StopKind::Loop
            | StopKind::EndCase
            | StopKind::Return
            | StopKind::Finish
            | StopKind::Goto
    )
}

/// The place of a site in this main.
fn place_of(main: Main<'_, '_>, site: &StopSite) -> SitePlace {
    if is_rooted(site.kind) {
        rooted_place(main, site)
    } else {
        plain_place(main, site)
    }
}

/// The place of a site, of which the mains and their sorted roots are these.
fn placed<'r, 's>(
    reads: &'r [ReadMain<'s>],
    roots: &'r [Vec<(u64, usize)>],
    site: &StopSite,
) -> SitePlace {
    match (reads.get(site.section), roots.get(site.section)) {
        (Some(read), Some(roots)) => {
            let roots = roots.as_slice();
            place_of(Main { read, roots }, site)
        }
        _ => SitePlace {
            span: None,
            kind: site.kind,
            section: site.section,
            root: usize::MAX,
            leaf: 0,
        },
    }
}

/// The places of sites. `reads` has the mains, in the order of sections.
pub(crate) fn places_of(
    alloc: Global,
    reads: &[ReadMain<'_>],
    sites: &[StopSite],
) -> Result<Vec<SitePlace>, Memory> {
    let mut roots = Vec::new(alloc);
    for read in reads {
        roots.push(sorted_roots(alloc, &read.sites)?)?;
    }
    let mut places = Vec::new(alloc);
    for site in sites {
        places.push(placed(reads, roots.as_slice(), site))?;
    }
    Ok(places)
}

/// The mains, read again; `None` if one is refused, which doesn't happen for a program that was built.
pub(crate) fn read_all<'s>(
    alloc: Global,
    program: &DebugProgram<'_, 's>,
) -> Result<Option<Vec<ReadMain<'s>>>, Memory> {
    let mut draft = bcpl_messages::Draft::new(alloc, 0);
    let mut reads = Vec::new(alloc);
    for main in program.mains {
        match bcpl_wild::read(&mut draft, program.named.sources, *main) {
            Some(read) => reads.push(read)?,
            None => return Ok(None),
        }
    }
    Ok(Some(reads))
}
