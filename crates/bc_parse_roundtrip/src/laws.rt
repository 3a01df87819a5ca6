//! The theorems about tokens that are written as text.
ghost use Rattle.bc_parse_roundtrip.specs.Rereads.{AreReread, SectionsComeBack};

/// The text of at most 60,000 tokens, as a file, has these tokens. None of them follows a line break, and no `$)` has
/// a tag.
pub fn renderings_are_reread()
    ensures { AreReread }
{}

/// The text of a section's canonical spelling, as a file, has tokens that are parsed as the section. The grammar must
/// have a spelling for the section, and it must nest at most 200 deep. Its canonical spelling must have at most
/// 60,000 tokens, each of which some source can have, must open at most 400 parentheses at once, and must have no
/// VALOF's body before REPEAT, REPEATWHILE or REPEATUNTIL.
pub fn sections_come_back()
    ensures { SectionsComeBack }
{
    renderings_are_reread();
    bc_parse_laws::laws::spelling_is_read();
    bc_parse_laws::laws::spelling_is_closed();
}
