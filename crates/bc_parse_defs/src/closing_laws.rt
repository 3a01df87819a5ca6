//! The theorems about closed lists.
ghost use Rattle.bc_parse_defs.specs.ClosingLaws.{ClosedIsShort, ClosedIsLawful};

/// A closed list has at most as many parts as there are tokens. Closing section brackets and line breaks aren't
/// counted.
pub fn closed_is_short()
    ensures { ClosedIsShort }
{}

/// A closed list has a line break between two neighbouring parts exactly if the left one can end a command, the right
/// one can begin one, and the source has a line break between them. Without line breaks the list is the tokens, with
/// each closing section bracket once or more, and the section brackets balance.
pub fn closed_is_lawful()
    ensures { ClosedIsLawful }
{}
