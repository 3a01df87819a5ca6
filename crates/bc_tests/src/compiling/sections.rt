//! Asks one question about the section of a source. Trees are dropped only in this file, because drops are expensive to prove.

ghost use Rattle.std.specs.Prelude.{◌≤◌};
ghost use Rattle.bc_parse_tree.specs.View.{section_view};
ghost use Rattle.bc_parse_tree.specs.Size.{declarations_size};

use crate::compiling::{names, spelling, translating};
use bc_core::Core;
use bc_gen::{GenError, generate};
use bc_lex::{LexError, Source, Token, lex};
use bc_parse::{ParseError, Section, parse};
use bc_scope::{ScopeError, resolve};
use bc_word::Memory;
use std::alloc::Global;

/// A question about a section.
#[derive(Clone, Copy)]
pub enum Asked {
    /// Whether it parses.
    Tree,
    /// Whether its spelling is right, for the section of `spelling.rt`.
    Spelling,
    /// Whether its translation is right, for the section of `translating.rt`.
    Translation,
    /// Whether it resolves and has code.
    Code,
    /// Whether the names of its LET mean the right thing, for the section of `names.rt`.
    Let,
    /// Whether the levels and constants of its assignment are right, for the section of `names.rt`.
    Assignment,
    /// Whether its block has two labels.
    Labels,
}

/// The answer.
#[derive(Clone, Copy, Debug, PartialEq)]
pub enum Answer {
    /// Yes.
    Right,
    /// An allocation failed.
    Memory,
    /// No, or an error other than a failed allocation.
    Wrong,
}

impl Answer {
    /// The answer for an error, which may be a failed allocation.
    fn fault(is_memory: bool) -> Answer {
        if is_memory {
            Answer::Memory
        } else {
            Answer::Wrong
        }
    }

    /// The answer for a result that is right or not, unless an allocation failed.
    pub fn of(found: Result<bool, Memory>) -> Answer {
        match found {
            Ok(true) => Answer::Right,
            Ok(false) => Answer::Wrong,
            Err(Memory) => Answer::Memory,
        }
    }

    /// Whether the answer is allowed when an allocation fails.
    pub fn is_lawful(self) -> bool {
        self != Answer::Wrong
    }
}

/// Whether a resolved section has code.
fn coded(alloc: Global, core: &Core) -> Answer {
    match generate(alloc, core) {
        Ok(_) => Answer::Right,
        Err(fault) => Answer::fault(fault == GenError::Memory),
    }
}

/// Whether the section resolves and has code.
fn of_resolved(alloc: Global, resolved: Result<Core, ScopeError<'_>>) -> Answer {
    match resolved {
        Ok(core) => coded(alloc, &core),
        Err(fault) => Answer::fault(matches!(fault, ScopeError::Memory)),
    }
}

/// The answer about a section.
fn of_section(alloc: Global, asked: Asked, section: &Section<'static>) -> Answer
    requires { declarations_size (section_view section.now) ≤ 60000 }
{
    match asked {
        Asked::Tree => Answer::Right,
        Asked::Spelling => Answer::of(spelling::is_right(alloc, section)),
        Asked::Translation => Answer::of(translating::is_right(alloc, section)),
        Asked::Code => of_resolved(alloc, resolve(alloc, section)),
        Asked::Let => Answer::of(names::of_let(alloc, section)),
        Asked::Assignment => Answer::of(names::of_assignment(alloc, section)),
        Asked::Labels => Answer::of(names::of_labels(section)),
    }
}

/// The answer about the section that these tokens are.
fn of_tokens(alloc: Global, asked: Asked, tokens: &[Token<'static>]) -> Answer {
    if tokens.len() > 60_000 {
        return Answer::Wrong;
    }
    match parse(alloc, tokens) {
        Ok(section) => of_section(alloc, asked, &section),
        Err(fault) => Answer::fault(fault == ParseError::Memory),
    }
}

/// The answer about the section that a text is.
pub fn answered(alloc: Global, asked: Asked, text: &'static [u8]) -> Answer {
    let source = Source { name: b"A", text };
    match lex(alloc, &[source], 0) {
        Ok(tokens) => of_tokens(alloc, asked, tokens.as_slice()),
        Err(fault) => Answer::fault(fault == LexError::Memory),
    }
}
