//! The tokens of a text.

ghost use Rattle.std.specs.Prelude.{IfOk};
ghost use Rattle.bc_convert.specs.Spans.{TokensFrom};

use crate::bytes::{following, span};
use crate::lexeme::{gap, lexeme};
use crate::source::Token;
use bc_word::Memory;
use std::alloc::Global;

/// The tokens of a text. Words and square brackets aren't classified yet.
///
/// # Errors
///
/// `Memory` if an allocation failed.
pub fn lex(alloc: Global, text: &[u8]) -> Result<Vec<Token>, Memory>
    // The text is the tokens, in order, with only blanks, line breaks and comments before, between and after them.
    ensures { IfOk result (λ tokens. TokensFrom text.now 0 tokens.items) }
{
    let mut tokens = Vec::new(alloc);
    let mut at = 0;
    // Each iteration reads at least one byte.
    for _ in 0..text.len() {
        let start = at + gap(following(text, at));
        let rest = following(text, start);
        if rest.is_empty() {
            return Ok(tokens);
        }
        let (kind, count) = lexeme(rest);
        tokens.push(Token {
            kind,
            start,
            end: start + count,
            line_before: span(text, at, start).contains(&b'\n'),
        })?;
        at = start + count;
    }
    Ok(tokens)
}
