//! The public call: lays out a source, and compares the result with it.

ghost use Rattle.std.specs.Prelude.{◌≡◌, ◌<◌, length, IfOk, IsTrue};
ghost use Rattle.bc_lex_tokens.specs.Token.{lexemes_of};
ghost use Rattle.bc_lex.specs.Tokens.{HasTokens};
ghost use Rattle.bc_lex.specs.Files.{files_of};
ghost use Rattle.bcpl_format.specs.Kept.{with_text, IsLayout};

use crate::atoms::atoms_of;
use crate::error::FormatError;
use crate::layout::laid_out;
use crate::same::{has_same_ink, has_same_tokens};
use crate::style::Style;
use bc_lex::{LexError, Source, Token, lex};
use bc_word::Memory;
use std::alloc::Global;

/// The sources, where the one with index `main` has another text.
fn with_other_text<'s>(
    alloc: Global,
    sources: &[Source<'s>],
    main: usize,
    text: &'s [u8],
) -> Result<Vec<Source<'s>>, Memory>
    requires { main < length sources.now }
    ensures { IfOk result (λ v. files_of v.items ≡ with_text (files_of sources.now) main text.entry.now) }
{
    let (before, further) = sources.split_at(main);
    let (this, after) = further.split_at(1);
    let mut others = Vec::from_slice(alloc, before)?;
    others.push(Source {
        name: this[0].name,
        text,
    })?;
    others.extend_from_slice(after)?;
    Ok(others)
}

/// Whether a text is a layout of the source with index `main`, which has these tokens.
fn is_layout(
    alloc: Global,
    sources: &[Source<'_>],
    main: usize,
    tokens: &[Token<'_>],
    text: &[u8],
) -> Result<bool, FormatError>
    requires index { main < length sources.now }
    requires tokens { HasTokens (files_of sources.now) main (lexemes_of tokens.now) }
    ensures { IfOk result (λ same. IsTrue same → IsLayout (files_of sources.now) main text.now) }
{
    let others = with_other_text(alloc, sources, main, text)?;
    let tokens_after = match lex(alloc, others.as_slice(), main) {
        Ok(tokens) => tokens,
        Err(LexError::Memory) => return Err(FormatError::Memory),
        Err(_) => return Ok(false),
    };
    let has_same_ink = has_same_ink(alloc, text, sources[main].text)?;
    Ok(has_same_ink && has_same_tokens(tokens_after.as_slice(), tokens))
}

/// Returns the text of the source with index `main`, laid out: the lines are indented, and blanks are set between
/// tokens. Line breaks stay where they are. The other sources are those that GETs may name.
///
/// # Errors
///
/// `Lex` with the first fault of the source, or of a source that it gets; `Changed` if the layout would change what the
/// source says, which is a mistake of this crate; `Memory` if an allocation failed.
pub fn formatted(
    alloc: Global,
    sources: &[Source<'_>],
    main: usize,
    style: Style,
) -> Result<Vec<u8>, FormatError>
    requires { main < length sources.now }

    // The result has the same tokens, the same line breaks that count, and the same bytes but for blanks and line breaks.
    ensures { IfOk result (λ text. IsLayout (files_of sources.now) main text.items) }
{
    let tokens = lex(alloc, sources, main)?;
    let text = sources[main].text;
    let atoms = atoms_of(alloc, text, tokens.as_slice(), main)?;
    let laid = laid_out(alloc, text, atoms.as_slice(), style)?;
    if is_layout(alloc, sources, main, tokens.as_slice(), laid.as_slice())? {
        Ok(laid)
    } else {
        Err(FormatError::Changed)
    }
}
