//! The message as a whole.

use crate::place::span_of_spot;
use crate::sentence::{help, sentence};
use bc_lex::Source;
use bc_tame_check::{Cause, Spot};
use bc_word::Memory;
use bcpl_messages::{Draft, Message};
use bcpl_wild::read;
use std::alloc::Global;

/// The message that a main is not known to be tame, with the place if it is known. Returns `Memory` if an allocation fails.
pub fn tame_message(
    alloc: Global,
    sources: &[Source<'_>],
    main: usize,
    cause: Cause,
    spot: Spot,
) -> Result<Message, Memory> {
    let mut draft = Draft::new(alloc, main);
    draft.say(sentence(cause), &[]);
    draft.help(help(cause), &[]);
    if !matches!(cause, Cause::Sections)
        && let Some(read) = read(&mut draft, sources, main)
        && let Some(span) = span_of_spot(&read, sources, cause, spot)
    {
        draft.place(span);
    }
    draft.into_message()
}
