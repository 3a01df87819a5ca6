//! Spans that meet at most one token.

ghost use Rattle.std.specs.Prelude.{◌≡◌, ℕ, ◌≤◌, nat_le, length, true, IfOk};
ghost use Rattle.std.specs.List.{filter, prefix_len};
ghost use Rattle.bc_convert.specs.Confined.{tokens_after, second_begins_after, is_confined, AreConfined};
ghost use Rattle.bc_convert.specs.Plain.{is_plain as is_plain_of};

use crate::lexing::lex;
use crate::plain::is_plain;
use crate::replacement::Replacement;
use crate::source::Token;
use bc_word::Memory;
use std::alloc::Global;

/// The number of tokens at the start that end at this position or before it.
fn count_until(tokens: &[Token], at: usize) -> usize
    ensures value { result ≡ prefix_len (λ t. nat_le t.end at) tokens.now }
    ensures within { result ≤ length tokens.now }
{
    tokens.iter().take_while(|token| token.end <= at).count()
}

/// The tokens without those at the start that end at this position or before it.
fn skipped(tokens: &[Token], at: usize) -> &[Token]
    ensures { result.now ≡ tokens_after at tokens.now }
{
    tokens.split_at(count_until(tokens, at)).1
}

/// The same, where those that end at `last` or before it may have been skipped already.
fn skipped_from<'t>(tokens: &'t [Token], rest: &'t [Token], last: usize, at: usize) -> &'t [Token]
    requires { (to : ℕ) → last ≤ to → tokens_after to rest.now ≡ tokens_after to tokens.now }
    ensures { result.now ≡ tokens_after at tokens.now }
{
    if last <= at {
        skipped(rest, at)
    } else {
        skipped(tokens, at)
    }
}

/// Whether the second of these tokens, if there is one, begins at this position or after it.
fn second_begins(tokens: &[Token], at: usize) -> bool
    ensures { result ≡ second_begins_after at tokens.now }
{
    match tokens {
        [_, second, ..] => at <= second.start,
        _ => true,
    }
}

/// Those candidates, in order, that meet at most one of the tokens.
///
/// # Errors
///
/// `Memory` if an allocation failed.
pub fn confine(
    alloc: Global,
    tokens: &[Token],
    candidates: Vec<Replacement>,
) -> Result<Vec<Replacement>, Memory>
    ensures { IfOk result (λ kept. kept.items ≡ filter (is_confined tokens.now) candidates.items) }
{
    let mut kept = Vec::new(alloc);
    let mut rest = tokens;
    let mut last = 0;
    // The candidates mostly rise, so that each token is skipped only once.
    for candidate in candidates {
        rest = skipped_from(tokens, rest, last, candidate.start);
        last = candidate.start;
        if second_begins(rest, candidate.end) {
            kept.push(candidate)?;
        }
    }
    Ok(kept)
}

/// The candidates for a text. If it is plain, only those that meet at most one of its tokens.
///
/// # Errors
///
/// `Memory` if an allocation failed.
pub fn confine_if_plain(
    alloc: Global,
    text: &[u8],
    candidates: Vec<Replacement>,
) -> Result<Vec<Replacement>, Memory>
    ensures { IfOk result (λ kept. is_plain_of text.now ≡ true → AreConfined text.now kept.items) }
{
    if !is_plain(text) {
        return Ok(candidates);
    }
    let tokens = lex(alloc, text)?;
    confine(alloc, tokens.as_slice(), candidates)
}
