//! Warnings on streams that are found and not used.

use crate::found::Found;
use crate::habits::is_library_call;
use crate::hiding::is_read_from;
use crate::known::Known;
use bcpl_catalogue::ids::{UNUSED_INPUT, UNUSED_OUTPUT};
use bcpl_index::Form;

/// The id of the finding that the stream which this value finds isn't used.
fn unused(known: &Known<'_, '_>, value: usize) -> Option<u16> {
    if !matches!(known.form(value), Form::Call) {
        None
    } else if is_library_call(known, value, b"FINDINPUT".as_slice()) {
        Some(UNUSED_INPUT)
    } else if is_library_call(known, value, b"FINDOUTPUT".as_slice()) {
        Some(UNUSED_OUTPUT)
    } else {
        None
    }
}

/// The only variable of a definition, if its value is a stream and it is never read.
pub fn check_stream(known: &Known<'_, '_>, definition: usize) -> Option<Found> {
    let (variable, value) = known.sides(definition);
    let id = unused(known, value)?;
    let index = known.kinds.names.index_at(variable)?;
    let declared = known.kinds.names.get(index)?;
    if is_read_from(known, known.tree.end(definition), index, declared.end) {
        return None;
    }
    Some(Found::new(id, variable))
}
