//! The theorem about the strings of a source.
ghost use Rattle.bc_scope_laws.specs.StringLaws.{StringsAreDecoded};

/// Each string among the tokens of a source has, in the meaning of sections, the bytes that its text spells, and at
/// most 255 of them.
pub fn strings_are_decoded()
    ensures { StringsAreDecoded }
{}
