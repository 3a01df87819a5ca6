//! The pool of GETVEC, which old systems set up by themselves, and which START sets up here.

use crate::complaint::Fault;
use crate::kind::Kind;
use crate::names::{declares_routine, is_for};
use crate::notes::Notes;
use crate::old_names::OldNames;
use crate::source::TokenizedText;

/// The body of a routine: its brackets.
#[derive(Clone, Copy)]
pub struct Body {
    pub opening: usize,
    pub closing: usize,
}

/// The body of START, if the name at an index declares it and its body is a block.
pub fn body_of_start(
    source: TokenizedText<'_>,
    index: usize,
    library: &OldNames<'_>,
) -> Option<Body> {
    if !declares_routine(source, index) || !is_for(source.bytes(index), library, b"START") {
        return None;
    }
    let be = source.partner(index.saturating_add(1)).saturating_add(1);
    let opening = be.saturating_add(1);
    let closing = source.partner(opening);
    let next = closing.saturating_add(1);
    let is_whole = source.kind(be) == Kind::Be
        && source.kind(opening) == Kind::OpenSection
        && closing < source.tokens.len()
        && (source.is_separated(next) || matches!(source.kind(next), Kind::And | Kind::End));
    if is_whole {
        Some(Body { opening, closing })
    } else {
        None
    }
}

/// Puts the body of START into a block with a pool for GETVEC, and reports that.
fn put_pool_around(source: TokenizedText<'_>, notes: &mut Notes, index: usize, body: Body) {
    let name = notes.fresh_name(source);
    let name = name.as_slice();
    notes.put_all_before(
        body.opening,
        &[
            b", 4000); ",
            name,
            b" = VEC 4000; INITVEC(",
            name,
            b"$( LET ",
        ],
    );
    notes.put_after(body.closing.saturating_add(1), b" $)");
    notes.complain(source, index, Fault::PoolAdded);
}

/// Sets up a pool for GETVEC in START, if the source declares that.
pub fn put_pool(source: TokenizedText<'_>, notes: &mut Notes, library: &OldNames<'_>) {
    for index in 1..source.tokens.len() {
        if let Some(body) = body_of_start(source, index, library) {
            return put_pool_around(source, notes, index, body);
        }
    }
}

/// Reports that START, if the source declares it, doesn't set up a pool for GETVEC.
pub fn tell_no_pool(source: TokenizedText<'_>, notes: &mut Notes, library: &OldNames<'_>) {
    for index in 1..source.tokens.len() {
        if body_of_start(source, index, library).is_some() {
            return notes.complain(source, index, Fault::NoPool);
        }
    }
}
