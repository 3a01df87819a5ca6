//! The message of a refused build: [`message_of`] chooses the module that explains the error.

use crate::draft::Draft;
use crate::lexical::tell_lexical;
use crate::linking::{tell_labels, tell_linking};
use crate::read::Read;
use crate::scopes::tell_scope;
use crate::syntax::{tell_refused, tell_syntax};
use bc_build::{BuildError, ParseError};
use bc_lex::{Source, Token};
use bc_word::Memory;
use bcpl_places::Span;
use std::alloc::Global;

/// A related place of a refusal.
#[derive(Drop)]
pub struct Note {
    /// The place.
    pub span: Span,
    /// What is at this place.
    pub sentence: String,
}

/// What the program says about a refusal, after its first line.
#[derive(Drop)]
pub struct Message {
    /// The place of the fault; `None` if it has no single place.
    pub span: Option<Span>,
    /// The index of the main that was being compiled.
    pub main: usize,
    /// What is wrong, without a full stop.
    pub sentence: String,
    /// Related places.
    pub notes: Vec<Note>,
    /// What to do, or what the author may have meant.
    pub help: Option<String>,
}

impl Message {
    /// Sets the help. Returns `Memory` if an allocation fails.
    fn set_help(&mut self, alloc: Global, help: &str) -> Result<(), Memory> {
        self.help = Some(String::from_str(alloc, help)?);
        Ok(())
    }

    /// This message with the help set, if one is given. Returns `Memory` if an allocation fails.
    pub fn helped(self, alloc: Global, help: Option<&str>) -> Result<Message, Memory> {
        let mut message = self;
        if let Some(help) = help {
            message.set_help(alloc, help)?;
        }
        Ok(message)
    }
}

/// The index of the refused main; 0 for an error that concerns the whole program.
fn main_of(error: &BuildError) -> usize {
    match error {
        BuildError::Lex(main, _) => *main,
        BuildError::Parse(main, _) => *main,
        BuildError::Scope(main, _) => *main,
        BuildError::Gen(main, _) => *main,
        BuildError::Link(_) | BuildError::Memory => 0,
    }
}

/// The message on these tokens of a main, which the parser refused. Returns `None` if nothing can be said, and `Memory` if an
/// allocation fails.
pub fn message_on_tokens(
    alloc: Global,
    sources: &[Source<'_>],
    main: usize,
    tokens: &[Token<'_>],
    fault: ParseError,
) -> Result<Option<Message>, Memory> {
    let mut draft = Draft::new(alloc, main);
    tell_refused(
        &mut draft,
        Read {
            sources,
            main,
            tokens,
        },
        fault,
    );
    draft.end()
}

/// The message for a failed build of these sources. `mains` has the indexes of the sources that become a segment each.
/// Returns `None` if nothing can be added to the first line, and `Memory` if an allocation fails.
pub fn message_of(
    alloc: Global,
    sources: &[Source<'_>],
    mains: &[usize],
    error: &BuildError,
) -> Result<Option<Message>, Memory> {
    let main = main_of(error);
    let mut draft = Draft::new(alloc, main);
    match error {
        BuildError::Lex(_, fault) => tell_lexical(&mut draft, sources, *fault),
        BuildError::Parse(_, fault) => tell_syntax(&mut draft, sources, main, *fault),
        BuildError::Scope(_, fault) => tell_scope(&mut draft, sources, main, fault),
        BuildError::Gen(_, _) => tell_labels(&mut draft, sources, main),
        BuildError::Link(fault) => tell_linking(&mut draft, sources, mains, *fault),
        BuildError::Memory => {}
    }
    draft.end()
}
