//! APTOVEC, which calls a routine with a vector whose size is known only then. Here that vector comes from the pool of GETVEC.

use crate::complaint::Fault;
use crate::kind::Kind;
use crate::names::is_declared;
use crate::notes::Notes;
use crate::source::TokenizedText;

/// Whether the routine of older libraries is called at an index.
fn calls_routine(source: TokenizedText<'_>, index: usize) -> bool {
    source.kind(index) == Kind::Name
        && source.bytes(index).eq_ignore_ascii_case(b"APTOVEC")
        && source.kind(index.saturating_add(1)) == Kind::OpenRound
        && !is_declared(source, index)
}

/// Whether a command begins at an index.
fn begins_command(source: TokenizedText<'_>, index: usize) -> bool {
    let before = match index.checked_sub(1) {
        Some(before) => source.kind(before),
        None => Kind::End,
    };
    source.is_separated(index)
        || matches!(
            before,
            Kind::OpenSection | Kind::Colon | Kind::Semicolon | Kind::Joint | Kind::Be
        )
}

/// Whether a command ends before an index.
fn ends_command(source: TokenizedText<'_>, index: usize) -> bool {
    source.is_separated(index)
        || matches!(
            source.kind(index),
            Kind::CloseSection | Kind::Semicolon | Kind::And | Kind::End
        )
}

/// Whether the size of a vector may have such a token.
fn is_of_size(kind: Kind) -> bool {
    kind == Kind::CloseRound
        || kind.level() > 1
        || kind.can_be_operand() && kind != Kind::Valof && kind != Kind::Table
}

/// Whether each token of a range may be part of a size.
fn has_size(source: TokenizedText<'_>, from: usize, to: usize) -> bool {
    for at in from..to {
        if !is_of_size(source.kind(at)) {
            return false;
        }
    }
    true
}

/// Whether the call at an index is a command by itself, with the name of a routine and a size without commas.
pub fn takes_vector(source: TokenizedText<'_>, index: usize) -> bool {
    let opening = index.saturating_add(1);
    let routine = index.saturating_add(2);
    let comma = index.saturating_add(3);
    let size = index.saturating_add(4);
    let closing = source.partner(opening);
    calls_routine(source, index)
        && source.kind(routine) == Kind::Name
        && source.kind(comma) == Kind::Comma
        && size < closing
        && closing < source.tokens.len()
        && has_size(source, size, closing)
        && begins_command(source, index)
        && ends_command(source, closing.saturating_add(1))
}

/// Rewrites the call at an index.
fn put_vector(source: TokenizedText<'_>, notes: &mut Notes, index: usize) {
    let opening = index.saturating_add(1);
    let routine = index.saturating_add(2);
    let comma = index.saturating_add(3);
    let closing = source.partner(opening);
    let name = notes.rendered(source, routine, comma);
    let size = notes.fresh_name(source);
    let vector = notes.fresh_name(source);
    let (name, size, vector) = (name.as_slice(), size.as_slice(), vector.as_slice());
    notes.replace(index, b"$( LET");
    notes.replace(opening, b" ");
    notes.replace(routine, size);
    notes.replace(comma, b" =");
    notes.replace(closing, b"");
    let end = closing.saturating_add(1);
    notes.put_all_after(
        end,
        &[b"; LET ", vector, b" = GETVEC(", size, b"); IF ", vector],
    );
    notes.put_after(
        end,
        b"=0 DO $( WRITES(\"*NAPTOVEC: NO SPACE*N\"); FINISH $); ",
    );
    notes.put_all_after(
        end,
        &[
            name,
            b"(",
            vector,
            b", ",
            size,
            b"); FREEVEC(",
            vector,
            b") $)",
        ],
    );
}

/// Rewrites each such call in a program that gets a pool, and reports any other one.
pub fn find_sized_vectors(source: TokenizedText<'_>, notes: &mut Notes, has_pool: bool) {
    for index in 0..source.tokens.len() {
        if has_pool && takes_vector(source, index) {
            put_vector(source, notes, index);
        } else if calls_routine(source, index) {
            notes.complain(source, index, Fault::VectorOfAnySize);
        }
    }
}
