//! Laws of the code of a section. Each is the contract of a function with an empty body.

ghost use Rattle.bc_gen_defs.specs.Laws.{MarksAddNothing, EntriesRise, EntriesStand};

/// The code with marks for the entries, after the marks are removed, is the section's code.
pub fn marks_add_nothing()
    ensures { MarksAddNothing }
{}

/// The item indices of the entries never decrease.
pub fn entries_rise()
    ensures { EntriesRise }
{}

/// Each entry has the derivation of its root. The code of this derivation, with the entry's target and first label, is in the
/// section's items from the entry's item on, if the bodies of its VALOFs are skipped.
pub fn entries_stand()
    ensures { EntriesStand }
{}
