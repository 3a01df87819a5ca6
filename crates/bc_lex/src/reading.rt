//! The public call `lex`, and the loop that reads a file and the files that its GETs name.
ghost use Rattle.std.specs.Prelude.{◌≡◌, ◌<◌, ◌≤◌, ◌⊎◌, true, List, length, IfOk, IfErr, MatchResult, IsTrue};
ghost use Rattle.bc_lex_tokens.specs.Token.{Lexeme, kind_of, lexeme_of, lexemes_of};
ghost use Rattle.bc_lex.specs.Files.{files_of, text_of};
ghost use Rattle.bc_lex.specs.Lexing.{ReadsAs, skipped, string_end_of, lexeme_at, target_of, is_get as is_get_word, item_of, pushed, file_to_end, deeper_of, read_of};
ghost use Rattle.bc_lex.specs.Gaps.{begins, breaks};
ghost use Rattle.bc_lex.specs.declared.error.LexError.{LexError};
ghost use Rattle.bc_lex.specs.Tokens.{HasTokens, HasFault};
ghost use Rattle.bc_lex.specs.Found.{found, IsWithin};
ghost use Rattle.bc_lex.specs.Repeated.{pushed_all, between, AreRight};

use crate::blank::gap;
use crate::error::LexError;
use crate::lexeme::lexeme;
use crate::quoted::string;
use crate::read_file::{ReadFile, earlier_reading};
use crate::run::following;
use crate::source::{Source, source_named, text_at};
use bc_lex_tokens::{Symbol, Token, TokenKind};
use std::alloc::Global;

/// The greatest number of tokens.
const MOST_TOKENS: usize = 60_000;

/// The greatest depth to which GETs may nest.
const MOST_LEVELS: usize = 8;

/// How far the reading of a file has come.
#[derive(Clone, Copy, Debug)]
pub struct Position {
    /// The offset in the file.
    pub at: usize,
    /// Whether there is a line break between the previous token and this offset.
    pub line: bool,
}

/// The offset after the blanks, line breaks and comments that begin at an offset.
#[tactic(auto, unfolding(crate::specs::Lexing::skipped))]
fn skip(file: usize, text: &[u8], at: usize) -> Result<usize, LexError>
    requires { at ≤ length text.now }
    ensures value { ReadsAs (λ x. x) result (skipped file text.now at) }
    ensures within { IfOk result (λ x. (at ≤ x) × (x ≤ length text.now)) }
{
    match gap(following(text, at)) {
        Ok(count) => Ok(at + count),
        Err(fault) => Err(fault.in_file(file, at)),
    }
}

/// The offset after the string that begins at an offset.
#[tactic(auto, unfolding(crate::specs::Lexing::string_end_of))]
fn string_end(file: usize, text: &[u8], at: usize) -> Result<usize, LexError>
    requires { at < length text.now }
    ensures value { ReadsAs (λ x. x) result (string_end_of file text.now at) }
    ensures within { IfOk result (λ x. (at < x) × (x ≤ length text.now)) }
{
    match string(following(text, at)) {
        Ok(count) => Ok(at + count),
        Err(fault) => Err(fault.in_file(file, at)),
    }
}

/// The lexeme that begins at an offset, and the offset after it.
#[tactic(auto, unfolding(crate::specs::Lexing::lexeme_at))]
fn lexeme_after<'s>(
    file: usize,
    text: &'s [u8],
    at: usize,
) -> Result<(TokenKind<'s>, usize), LexError>
    requires { at < length text.now }
    ensures value { ReadsAs (λ x. (kind_of x.0, x.1)) result (lexeme_at file text.now at) }
    ensures within { IfOk result (λ x. (at ≤ x.1) × (x.1 ≤ length text.now)) }
{
    match lexeme(following(text, at)) {
        Ok((kind, count)) => Ok((kind, at + count)),
        Err(fault) => Err(fault.in_file(file, at)),
    }
}

/// Whether the bytes begin with a quote.
fn has_quote(bytes: &[u8]) -> bool
    ensures value { result ≡ begins 34 bytes.now }
    ensures some { IsTrue result → 0 < length bytes.now }
{
    matches!(bytes, [b'"', ..])
}

/// The index of the file that a GET names, and the offset after its string. The word GET begins at `start` and ends at `end`.
#[tactic(auto, unfolding(crate::specs::Lexing::target_of))]
fn target(
    sources: &[Source],
    file: usize,
    text: &[u8],
    start: usize,
    end: usize,
) -> Result<(usize, usize), LexError>
    requires { end ≤ length text.now }
    ensures value { ReadsAs (λ x. x) result (target_of (files_of sources.now) file text.now start end) }
    ensures named { IfOk result (λ x. x.0 < length sources.now) }
    ensures within { IfOk result (λ x. x.1 ≤ length text.now) }
{
    let quote = skip(file, text, end)?;
    if !has_quote(following(text, quote)) {
        return Err(LexError::GetMissing(file, start));
    }
    let following = string_end(file, text, quote)?;
    match source_named(sources, &text[quote..following]) {
        Some(named) => Ok((named, following)),
        None => Err(LexError::GetMissing(file, start)),
    }
}

/// The next item in a file.
#[derive(Clone, Copy, Debug)]
enum Found<'s> {
    /// The end of the file.
    End,
    /// A token.
    Token(Token<'s>),
    /// A GET that begins at `start`, with the index of the file that it names, and the offset after its string.
    Get {
        start: usize,
        named: usize,
        following: usize,
    },
}

/// Whether the bytes contain a line break.
fn has_line_break(bytes: &[u8]) -> bool
    ensures { result ≡ breaks bytes.now }
{
    bytes.contains(&b'\n')
}

/// Whether the lexeme is a GET.
fn is_get(kind: TokenKind) -> bool
    ensures { result ≡ is_get_word (kind_of kind.entry) }
{
    matches!(kind, TokenKind::Symbol(Symbol::Get))
}

/// Finds the next item in a file, after blanks, line breaks and comments. Fails with the first fault of these or the item.
#[tactic(auto, unfolding(crate::specs::Lexing::item_of, crate::specs::Lexing::item_by))]
fn find<'s>(sources: &[Source<'s>], file: usize, place: Position) -> Result<Found<'s>, LexError>
    requires file { file < length sources.now }
    requires place { place.at ≤ length (text_of (files_of sources.now) file) }
    ensures value { ReadsAs (λ x. found x) result (item_of (files_of sources.now) file place) }
    ensures within { IfOk result (IsWithin sources.now file) }
{
    let text = text_at(sources, file);
    let start = skip(file, text, place.at)?;
    if start == text.len() {
        return Ok(Found::End);
    }
    let (kind, end) = lexeme_after(file, text, start)?;
    if is_get(kind) {
        let (named, following) = target(sources, file, text, start, end)?;
        return Ok(Found::Get {
            start,
            named,
            following,
        });
    }
    Ok(Found::Token(Token {
        kind,
        text: &text[start..end],
        file,
        start,
        end,
        line_before: place.line || has_line_break(&text[place.at..start]),
    }))
}

/// Appends a token. Fails with `TooManyTokens` after 60,000 tokens, or with `Memory`.
fn push<'s>(tokens: &mut Vec<Token<'s>>, token: Token<'s>) -> Result<(), LexError>
    ensures { ReadsAs (λ _. lexemes_of tokens.new.items) result (pushed (lexeme_of token.entry) (lexemes_of tokens.old.items)) }
{
    if tokens.len() >= MOST_TOKENS {
        return Err(LexError::TooManyTokens(token.file, token.start));
    }
    tokens.push(token)?;
    Ok(())
}

/// Appends the tokens from index `start` to index `end` again. Fails as `push` does.
fn push_again<'s>(tokens: &mut Vec<Token<'s>>, start: usize, end: usize) -> Result<(), LexError>
    requires order { start ≤ end }
    requires within { end ≤ length tokens.old.items }
    ensures { ReadsAs (λ _. lexemes_of tokens.new.items) result (pushed_all (between (lexemes_of tokens.old.items) start end) (lexemes_of tokens.old.items)) }
{
    for index in start..end {
        let token = tokens[index];
        push(tokens, token)?;
    }
    Ok(())
}

/// A file that is to be read.
#[derive(Clone, Copy, Debug)]
struct FileToRead {
    /// The index of the file.
    file: usize,
    /// How deep GETs may nest in it.
    levels: usize,
    /// Whether its first token counts as following a line break.
    line: bool,
}

/// Reads a file to its end and appends its tokens. `files` are those that GETs named before.
#[cycle(reading)]
#[tactic(auto, unfolding(crate::specs::Lexing::file_to_end, crate::specs::Lexing::deeper_of))]
fn read_to_end<'s>(
    sources: &[Source<'s>],
    this: FileToRead,
    files: &mut Vec<ReadFile>,
    tokens: &mut Vec<Token<'s>>,
) -> Result<(), LexError>
    requires file { this.file < length sources.now }
    requires right { AreRight (files_of sources.now) (lexemes_of tokens.old.items) files.old.items }
    ensures value { ReadsAs (λ _. lexemes_of tokens.new.items) result (file_to_end (deeper_of (files_of sources.now) this.levels) (files_of sources.now)
        this.file this.line (lexemes_of tokens.old.items)) }
    ensures right { IfOk result (λ _. AreRight (files_of sources.now) (lexemes_of tokens.new.items) files.new.items) }
{
    let mut place = Position {
        at: 0,
        line: this.line,
    };
    // Each iteration moves on by at least one byte.
    for _ in 0..text_at(sources, this.file).len() {
        match find(sources, this.file, place)? {
            Found::End => return Ok(()),
            Found::Token(token) => {
                push(tokens, token)?;
                place = Position {
                    at: token.end,
                    line: false,
                };
            }
            Found::Get {
                start,
                named,
                following,
            } => {
                if this.levels == 0 {
                    return Err(LexError::GetTooDeep(this.file, start));
                }
                read_named(sources, this.levels - 1, named, files, tokens)?;
                place = Position {
                    at: following,
                    line: true,
                };
            }
        }
    }
    Ok(())
}

/// Appends the tokens of a file that a GET names, in which GETs may nest `levels` deep. If it was read to its end where they could nest
/// as deep or less, its tokens are copied. So it is read at most once for each depth.
#[cycle(reading)]
fn read_named<'s>(
    sources: &[Source<'s>],
    levels: usize,
    file: usize,
    files: &mut Vec<ReadFile>,
    tokens: &mut Vec<Token<'s>>,
) -> Result<(), LexError>
    requires file { file < length sources.now }
    requires right { AreRight (files_of sources.now) (lexemes_of tokens.old.items) files.old.items }
    ensures value { ReadsAs (λ _. lexemes_of tokens.new.items) result (file_to_end (deeper_of (files_of sources.now) levels) (files_of sources.now)
        file true (lexemes_of tokens.old.items)) }
    ensures right { IfOk result (λ _. AreRight (files_of sources.now) (lexemes_of tokens.new.items) files.new.items) }
{
    if let Some(read) = earlier_reading(files, file, levels) {
        return push_again(tokens, read.start, read.end);
    }
    let start = tokens.len();
    let this = FileToRead {
        file,
        levels,
        line: true,
    };
    read_to_end(sources, this, files, tokens)?;
    let end = tokens.len();
    files.push(ReadFile {
        file,
        levels,
        start,
        end,
    })?;
    Ok(())
}

/// Reads a source, and the files that its GETs name.
#[tactic(auto, unfolding(crate::specs::Lexing::read_of))]
fn read<'s>(alloc: Global, sources: &[Source<'s>], main: usize) -> Result<Vec<Token<'s>>, LexError>
    requires { main < length sources.now }
    ensures { ReadsAs (λ v. lexemes_of v.items) result (read_of (files_of sources.now) main) }
{
    let mut files = Vec::new(alloc);
    let mut tokens = Vec::new(alloc);
    let this = FileToRead {
        file: main,
        levels: MOST_LEVELS,
        line: false,
    };
    read_to_end(sources, this, &mut files, &mut tokens)?;
    Ok(tokens)
}

/// Returns the tokens of the source with index `main`, at most 60,000.
///
/// Each GET and its string are replaced by the tokens of the first source that has the name in the string. GETs may nest up to
/// eight deep. The texts of tokens are slices of the sources; nothing is copied.
///
/// Fails with the first fault in reading order, with its file and offset, or with `Memory` when an allocation fails.
pub fn lex<'s>(
    alloc: Global,
    sources: &[Source<'s>],
    main: usize,
) -> Result<Vec<Token<'s>>, LexError>
    requires { main < length sources.now }

    // A result is the token list that the definition gives, of at most 60,000 tokens.
    ensures tokens { IfOk result (λ v. HasTokens (files_of sources.now) main (lexemes_of v.items)) }
    ensures few { IfOk result (λ v. length (lexemes_of v.items) ≤ 60000) }

    // An error is the first fault by the definition, or Memory.
    ensures fault { IfErr result (λ e. (e ≡ LexError.Memory) ⊎ HasFault (files_of sources.now) main e) }

    // If the definition gives tokens, the result is these; if it gives a fault, the error is this one; or the error is Memory.
    ensures only_tokens { (tokens : List Lexeme) → HasTokens (files_of sources.now) main tokens →
        MatchResult result (λ v. lexemes_of v.items ≡ tokens) (λ e. e ≡ LexError.Memory) }
    ensures only_fault { (first : LexError) → HasFault (files_of sources.now) main first →
        MatchResult result (λ v. ⊥) (λ e. (e ≡ first) ⊎ (e ≡ LexError.Memory)) }
{
    read(alloc, sources, main)
}
