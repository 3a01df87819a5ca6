//! What follows from the contract of `formatted` for the parser.
ghost use Rattle.bcpl_format.specs.Laws.{SameMarksAreClosedAlike};

/// Tokens with the same marks have the same closed list, which is all that the parser reads: the same section, or the
/// same fault at the same token.
pub fn same_marks_are_closed_alike()
    ensures { SameMarksAreClosedAlike }
{}
