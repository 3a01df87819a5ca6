//! The public call `parse`, which closes the token list, reads it, and names the token of a fault.
ghost use Rattle.std.specs.Prelude.{◌≡◌, ℕ, ◌≤◌, ◌-◌, length, IfOk, Ok};
ghost use Rattle.bc_lex_tokens.specs.Token.{lexemes_of};
ghost use Rattle.bc_parse_tree.specs.View.{section_view};
ghost use Rattle.bc_parse_tree.specs.Height.{declarations_height};
ghost use Rattle.bc_parse_tree.specs.Size.{declarations_size};
ghost use Rattle.bc_parse_tree.specs.Tree.{Declarations};
ghost use Rattle.bc_parse.specs.Canonical.{IsCanonical};
ghost use Rattle.bc_parse.specs.Parsing.{TokensSpell, parsed, Answers, place_of};

use crate::blocks::section_in;
use crate::cursor::Rest;
use crate::error::ParseError;
use crate::fault::ReadFault;
use bc_lex_tokens::Token;
use bc_parse_defs::CloseFault;
use bc_parse_tree::Section;
use std::alloc::Global;

/// The index of the token of a part. `left` is the number of parts from that part to the end; `end` is the number of
/// tokens, which represents the end.
fn place(places: &[usize], left: usize, end: usize) -> usize
    ensures { result ≡ place_of places.now left end }
{
    places
        .get(places.len().saturating_sub(left))
        .copied()
        .unwrap_or(end)
}

/// `parse` without the clause on canonical spellings, which is proved by itself.
fn read<'s>(alloc: Global, tokens: &[Token<'s>]) -> Result<Section<'s>, ParseError>
    ensures spelled { IfOk result (λ s. TokensSpell (lexemes_of tokens.now) (section_view s)) }
    ensures nests { IfOk result (λ s. declarations_height (section_view s) ≤ 200) }
    ensures size { IfOk result (λ s. declarations_size (section_view s) ≤ length tokens.now) }
    ensures exact { Answers (λ s. section_view s) result (parsed (lexemes_of tokens.now)) }
{
    bc_parse_defs::laws::read_is_spelled();
    bc_parse_defs::laws::read_nests_little();
    bc_parse_tree::laws::spelling_is_as_long();
    bc_parse_defs::closing_laws::closed_is_short();
    let list = match bc_parse_defs::close(alloc, tokens) {
        Ok(list) => list,
        Err(CloseFault::NotOpen(at)) => return Err(ParseError::NotOpen(at)),
        Err(CloseFault::Unclosed) => return Err(ParseError::Unclosed),
        Err(CloseFault::Memory) => return Err(ParseError::Memory),
    };
    let rest = Rest {
        parts: list.parts.as_slice(),
    };
    match section_in(alloc, rest) {
        Ok(section) => Ok(section),
        Err(ReadFault::Memory) => Err(ParseError::Memory),
        Err(ReadFault::Expected(left)) => Err(ParseError::Expected(place(
            list.places.as_slice(),
            left,
            tokens.len(),
        ))),
        Err(ReadFault::TooDeep(left)) => Err(ParseError::TooDeep(place(
            list.places.as_slice(),
            left,
            tokens.len(),
        ))),
    }
}

/// The section that the tokens spell. Callers pass at most 60,000 tokens, which is the lexer's limit.
///
/// Errors, each with the index of a token where it names one:
///
/// - `NotOpen` and `Unclosed`: the section brackets don't match. They come before all others.
/// - `Expected`: the first token, from the left, that can't continue what is being read.
/// - `TooDeep`: at this token definitions, commands and expressions would nest more than 200 deep, or more than 400
///   parentheses would be open at once.
/// - `Memory`: an allocation failed.
pub fn parse<'s>(alloc: Global, tokens: &[Token<'s>]) -> Result<Section<'s>, ParseError>
    // All of the tokens spell the section that is returned.
    ensures spelled { IfOk result (λ s. TokensSpell (lexemes_of tokens.now) (section_view s)) }
    ensures nests { IfOk result (λ s. declarations_height (section_view s) ≤ 200) }
    ensures size { IfOk result (λ s. declarations_size (section_view s) ≤ length tokens.now) }
    // Exactly this section or error, unless memory ran out.
    ensures exact { Answers (λ s. section_view s) result (parsed (lexemes_of tokens.now)) }
    // A section with a canonical spelling within these bounds is read back from it.
    ensures canonical { (ds : Declarations) → IsCanonical ds (lexemes_of tokens.now) → Answers (λ s. section_view s) result (Ok ds) }
{
    bc_parse_laws::laws::spelling_is_read();
    bc_parse_laws::laws::spelling_is_closed();
    read(alloc, tokens)
}
