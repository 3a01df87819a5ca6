//! Laws of images. Each is the contract of a function that does nothing.

ghost use Rattle.bc_link.specs.Laws.{PlacesAreStarts, RangesLieBetween, RangesAreDisjoint, WordsStandAtStarts, StoreIsWhole};

/// The start of a segment in the image's places is the address after the segments before it.
pub fn places_are_starts()
    ensures { PlacesAreStarts }
{}

/// Every segment is between address 520 and the stack base.
pub fn ranges_lie_between()
    ensures { RangesLieBetween }
{}

/// The words of different segments don't overlap.
pub fn ranges_are_disjoint()
    ensures { RangesAreDisjoint }
{}

/// The words that a segment becomes, with the addresses of its labels, begin at its start.
pub fn words_stand_at_starts()
    ensures { WordsStandAtStarts }
{}

/// The boot words are at address 0 and the cells of the globals at 8. The store has 65,536 words if the segments fit into it.
pub fn store_is_whole()
    ensures { StoreIsWhole }
{}
