//! The crate's theorem about trees and their spellings.
ghost use Rattle.bc_parse_tree.specs.Laws.{SizeIsBounded};

/// A section has at most as many definitions, commands and expressions as its spelling has parts. Closing section
/// brackets and line breaks aren't counted.
pub fn spelling_is_as_long()
    ensures { SizeIsBounded }
{}
