//! Warnings on routines each call of which calls the same routine again.

use crate::found::Found;
use crate::known::Known;
use bcpl_catalogue::ids::ENDLESS_RECURSION;
use bcpl_index::Sort;

/// A call that its own routine makes whenever it is called.
pub fn check_recursion(known: &Known<'_, '_>, at: usize) -> Option<Found> {
    let called = known.tree.first(at);
    let declared = known.kinds.names.at(called)?;
    let routine = declared.node;
    if declared.sort != Sort::Routine
        || declared.is_assigned
        || known.kinds.names.has_finish
        || !known.tree.contains(routine, at)
        || !known.is_in_each_round(routine, at)
    {
        return None;
    }
    Some(Found::new(ENDLESS_RECURSION, at).of(called))
}
