//! The theorems about canonical spellings.
ghost use Rattle.bc_parse_laws.specs.Laws.{SpellingIsSpelled, SpellingIsRead, SpellingIsClosed, BracketsHoldOne, WholeHoldsOne};

/// If the grammar has a spelling for a section, the canonical spelling is one of its spellings.
pub fn spelling_is_spelled()
    ensures { SpellingIsSpelled }
{}

/// The canonical spelling of a section is read as that section, provided that the grammar has a spelling for it, that
/// it nests at most 200 deep, that its canonical spelling opens at most 400 parentheses at once, and that no VALOF's
/// body is followed there by REPEAT, REPEATWHILE or REPEATUNTIL.
pub fn spelling_is_read()
    ensures { SpellingIsRead }
{}

/// The tokens of a canonical spelling, without line breaks and tags, have that spelling as their closed list.
pub fn spelling_is_closed()
    ensures { SpellingIsClosed }
{}

/// In a canonical spelling each pair of parentheses, and each expression in a place that needs none, holds at most
/// one operator outside its inner parentheses. So the parentheses show the shape of each expression.
pub fn brackets_give_the_shape()
    ensures brackets { BracketsHoldOne }
    ensures alone { WholeHoldsOne }
{}
