//! The law of candidates. It is the contract of a function with an empty body.

ghost use Rattle.bc_candidates.specs.Laws.{LeastAreTheRows};

/// For each aim, the least words among a node's candidates are those of its row in `bc_select`.
pub fn least_are_the_rows()
    ensures { LeastAreTheRows }
{}
