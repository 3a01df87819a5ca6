//! The translation of a section, with allocations that fail.

use crate::compiling::sections::{Answer, Asked, answered};
use bc_core::{Body, Place, Routine};
use bc_parse_tree::Section;
use bc_scope_names::Scope;
use bc_scope_translate::{Translated, translate};
use bc_word::Memory;
use std::alloc::Global;

/// A function with a VALOF and a string.
const TEXT: &[u8] = b"LET F(x) = VALOF $( RESULTIS x $) ! \"a\"";

/// Whether a routine is a function with one parameter and sets no global.
fn has_value(routine: &Routine) -> bool {
    routine.parameters == 1 && routine.global.is_none() && matches!(&routine.body, Body::Value(_))
}

/// Whether a place is that function.
fn is_function(place: &Place) -> bool {
    match place {
        Place::Routine(routine) => has_value(routine),
        _ => false,
    }
}

/// Whether a place is that string.
fn is_text(place: &Place) -> bool {
    match place {
        Place::Text(bytes) => bytes.as_slice() == b"a".as_slice(),
        _ => false,
    }
}

/// Whether the places are the function followed by the string.
fn are_places(places: &[Place]) -> bool {
    match places {
        [first, second] => is_function(first) && is_text(second),
        _ => false,
    }
}

/// Whether there is one VALOF, and its body is at level 4: above the frame's two links, the parameter and the left operand.
fn is_translated(found: &Translated) -> bool {
    match found.valofs.as_slice() {
        [valof] => valof.level == 4 && are_places(found.places.as_slice()),
        _ => false,
    }
}

/// Whether the translation of the section is right.
pub fn is_right(alloc: Global, section: &Section<'_>) -> Result<bool, Memory> {
    let found = translate(&mut Scope::new(alloc), &section.declarations)?;
    Ok(is_translated(&found))
}

#[test]
fn growth_is_given(rt: HostRuntime) {
    assert_eq!(rt;
        answered(rt.alloc(), Asked::Translation, TEXT),
        Answer::Right
    );
}

/// Under `tests/stress/failed-allocations` each allocation fails in turn. The result must be right, or a failed allocation.
#[test]
fn refused_growth_is_memory(rt: HostRuntime) {
    assert!(rt; answered(rt.alloc(), Asked::Translation, TEXT).is_lawful());
}
