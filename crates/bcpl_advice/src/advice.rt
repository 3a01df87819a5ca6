//! Replaces what a message says in general by advice on the situation.

use crate::characters::character_advice;
use crate::names::{constant_advice, jump_advice, name_advice, use_advice, vector_advice};
use crate::statements::statement_advice;
use bc_build::{BuildError, LexError, ParseError, ScopeFault};
use bc_lex::{Source, lex};
use bc_lex_tokens::Token;
use bc_word::Memory;
use bcpl_messages::Message;
use bcpl_places::Span;
use std::alloc::Global;

/// What to say in a situation that is recognized.
#[derive(Clone, Copy)]
pub struct Advice {
    /// The first and the last token that are wrong; `None` if the place of the message is right.
    pub place: Option<(usize, usize)>,
    /// What is wrong; `None` if the sentence of the message is right.
    pub sentence: Option<&'static str>,
    /// What to do.
    pub help: &'static str,
}

impl Advice {
    /// Another help, and nothing else.
    pub fn help(help: &'static str) -> Advice {
        Advice {
            place: None,
            sentence: None,
            help,
        }
    }

    /// Another place with its sentence and help.
    pub fn at(first: usize, last: usize, sentence: &'static str, help: &'static str) -> Advice {
        Advice {
            place: Some((first, last)),
            sentence: Some(sentence),
            help,
        }
    }
}

/// The stretch from one token to another. It ends with the first if they are in different files.
fn span_between(tokens: &[Token<'_>], first: usize, last: usize) -> Option<Span> {
    let first = tokens.get(first)?;
    let last = tokens.get(last)?;
    Some(Span {
        file: first.file,
        start: first.start,
        end: if last.file == first.file {
            last.end.max(first.end)
        } else {
            first.end
        },
    })
}

/// Whether the help of a message on a name says no more than that it isn't declared.
fn is_general(message: &Message) -> bool {
    match &message.help {
        Some(help) => help.as_str().as_bytes().starts_with(b"declare it before"),
        None => false,
    }
}

/// The advice on a name that isn't declared.
fn undeclared_advice(tokens: &[Token<'_>], message: &Message, name: &[u8]) -> Option<Advice> {
    let span = message.span?;
    match name_advice(tokens, span, name) {
        Some(advice) => Some(advice),
        None if is_general(message) => use_advice(tokens, span),
        None => None,
    }
}

/// The advice on a refusal of the parser or the scopes.
fn token_advice(tokens: &[Token<'_>], message: &Message, error: &BuildError) -> Option<Advice> {
    match error {
        BuildError::Parse(_, ParseError::Expected(at) | ParseError::NotOpen(at)) => {
            statement_advice(tokens, *at)
        }
        // A note says where the name is declared, and the help of the message is about that. A name with a dot that is
        // declared elsewhere is probably a field.
        BuildError::Scope(_, ScopeFault::Undeclared(name))
            if message.notes.is_empty() || name.as_slice().contains(&b'.') => {
            undeclared_advice(tokens, message, name.as_slice())
        }
        BuildError::Scope(_, ScopeFault::Undeclared(_)) => jump_advice(tokens, message.span?),
        BuildError::Scope(_, ScopeFault::NotConstant) => constant_advice(tokens, message.span?),
        BuildError::Scope(_, ScopeFault::FrameTooLarge) => vector_advice(tokens),
        _ => None,
    }
}

/// A message with the place, the sentence and the help of advice.
fn with_advice(
    alloc: Global,
    tokens: &[Token<'_>],
    message: Message,
    advice: Advice,
) -> Result<Message, Memory> {
    let mut message = message;
    if let Some((first, last)) = advice.place {
        message.span = span_between(tokens, first, last);
    }
    if let Some(sentence) = advice.sentence {
        message.sentence = String::from_str(alloc, sentence)?;
        message.notes.truncate(0);
    }
    message.help = Some(String::from_str(alloc, advice.help)?);
    Ok(message)
}

/// The advice on a refusal of the lexer.
fn lexical_advice(sources: &[Source<'_>], fault: LexError) -> Option<Advice> {
    match fault {
        LexError::BadCharacter(file, at) | LexError::GetMissing(file, at) => {
            let text = sources.get(file)?.text;
            let help = character_advice(text.get(..at)?, text.get(at..)?)?;
            Some(Advice::help(help))
        }
        _ => None,
    }
}

/// The message on a refused main of these sources, with advice if the situation is recognized. Returns `Memory` if an
/// allocation fails.
pub fn advised(
    alloc: Global,
    sources: &[Source<'_>],
    error: &BuildError,
    message: Message,
) -> Result<Message, Memory> {
    if let BuildError::Lex(_, fault) = error {
        return match lexical_advice(sources, *fault) {
            Some(advice) => with_advice(alloc, &[], message, advice),
            None => Ok(message),
        };
    }
    let main = message.main;
    if main >= sources.len() {
        return Ok(message);
    }
    let Ok(tokens) = lex(alloc, sources, main) else {
        return Ok(message);
    };
    advised_on_tokens(alloc, tokens.as_slice(), error, message)
}

/// The same for the tokens of the main, which the parser or the scopes refused.
pub fn advised_on_tokens(
    alloc: Global,
    tokens: &[Token<'_>],
    error: &BuildError,
    message: Message,
) -> Result<Message, Memory> {
    match token_advice(tokens, &message, error) {
        Some(advice) => with_advice(alloc, tokens, message, advice),
        None => Ok(message),
    }
}
