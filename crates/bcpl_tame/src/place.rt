//! Where in the source a spot of the check is.

use bc_lex::Source;
use bc_scope_places::{BodyOf as BodySite, Sites};
use bc_tame_check::{BodyOf, Cause, Spot};
use bcpl_places::Span;
use bcpl_wild::ReadMain;

/// The index of the root of this body that comes after `before` others.
fn root_after(sites: &Sites, body: BodySite, before: usize) -> Option<usize> {
    let mut left = before;
    for (index, site) in sites.roots.iter().enumerate() {
        if site.body == body {
            if left == 0 {
                return Some(index);
            }
            left -= 1;
        }
    }
    None
}

/// Whether the cause is of a whole place, and not of an expression.
fn is_of_place(cause: Cause) -> bool {
    matches!(
        cause,
        Cause::OwnGlobal | Cause::Table | Cause::NoStart | Cause::Stack
    )
}

/// The span of the label of a routine, string or table.
fn span_of_label(read: &ReadMain<'_>, sources: &[Source<'_>], body: BodyOf) -> Option<Span> {
    match body {
        BodyOf::Routine(label) => read.span(sources, read.sites.label(label as u64)?),
        BodyOf::Valof(_) => None,
    }
}

/// The span of a spot: that of its expression or assignment, or that of the routine's name.
pub(crate) fn span_of_spot(
    read: &ReadMain<'_>,
    sources: &[Source<'_>],
    cause: Cause,
    spot: Spot,
) -> Option<Span> {
    let body = match spot.body {
        BodyOf::Routine(label) => BodySite::Routine(label as u64),
        BodyOf::Valof(number) => BodySite::Valof(number as u64),
    };
    if is_of_place(cause) {
        return span_of_label(read, sources, spot.body);
    }
    match root_after(&read.sites, body, spot.before) {
        Some(root) => read.span_of(read.extent_of_root(root)?),
        None => span_of_label(read, sources, spot.body),
    }
}
