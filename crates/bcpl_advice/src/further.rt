//! The further faults of a main that the parser refused. The tokens of the line of the first one are removed and the rest is
//! parsed again, and so on. Where other lines depend on a faulty one, the search ends: a fault that only follows from
//! another is worse than none.

use crate::advice::advised_on_tokens;
use crate::blanking::{Faulty, blamed_on, is_removable, is_reserved_name, is_second, open_tests};
use crate::window::Window;
use bc_build::BuildError;
use bc_lex::{Source, lex};
use bc_lex_tokens::{Symbol, Token};
use bc_parse::ParseError;
use bc_word::Memory;
use bcpl_messages::{Message, is_at, message_on_tokens};
use std::alloc::Global;

/// A further fault, and what is said about it.
#[derive(Drop)]
pub struct FurtherFault {
    /// The fault, as if it were the first one.
    pub error: BuildError,
    /// What is said about it.
    pub message: Message,
}

/// What a fault is blamed on.
#[derive(Clone, Copy)]
struct Blamed {
    faulty: Faulty,
    /// Where it begins and ends, in bytes of the text.
    start: usize,
    end: usize,
    /// Where the refused token begins, in the line or at the start of the next.
    refused: usize,
    /// Whether it is an ELSE, which separates two commands.
    is_second: bool,
    /// How many TESTs were removed up to here whose ELSE is still there.
    tests: usize,
}

/// A refused token.
#[derive(Clone, Copy)]
struct Refused {
    /// Its index.
    at: usize,
    /// How many TESTs were removed before whose ELSE is still there.
    tests: usize,
}

/// A main and the sources that it can get.
#[derive(Clone, Copy)]
struct Main<'a, 's> {
    sources: &'a [Source<'s>],
    index: usize,
}

/// The sources, with another text for a main.
pub fn with_text<'t>(
    alloc: Global,
    sources: &[Source<'t>],
    main: usize,
    text: &'t [u8],
) -> Result<Vec<Source<'t>>, Memory> {
    let mut changed = Vec::new(alloc);
    for (index, source) in sources.iter().enumerate() {
        changed.push(if index == main {
            Source {
                name: source.name,
                text,
            }
        } else {
            *source
        })?;
    }
    Ok(changed)
}

/// How many TESTs are removed without their ELSE if this is, too.
fn tests_after(tokens: &[Token<'_>], faulty: Faulty, refused: Refused) -> usize {
    if is_second(tokens, refused.at) {
        refused.tests.saturating_sub(1)
    } else {
        refused.tests.saturating_add(open_tests(tokens, faulty))
    }
}

/// What the fault at a token is blamed on; `None` if no token is there.
fn blamed_at(tokens: &[Token<'_>], refused: Refused) -> Option<Blamed> {
    let faulty = blamed_on(tokens, refused.at);
    let end = tokens.get(faulty.to.checked_sub(1)?)?.end;
    Some(Blamed {
        faulty,
        start: tokens.get(faulty.from)?.start,
        end,
        refused: match tokens.get(refused.at) {
            Some(token) => token.start,
            None => end,
        },
        is_second: is_second(tokens, refused.at),
        tests: tests_after(tokens, faulty, refused),
    })
}

/// What the fault at a token of a main is blamed on; `None` if other lines depend on it.
fn removable_at(tokens: &[Token<'_>], main: usize, refused: Refused) -> Option<Blamed> {
    if is_removable(tokens, blamed_on(tokens, refused.at), main)
        && !is_reserved_name(tokens, refused.at)
    {
        blamed_at(tokens, refused)
    } else {
        None
    }
}

/// Whether the fault at a token of a main is blamed on something after the last fault.
fn is_new(tokens: &[Token<'_>], main: usize, at: usize, last: Blamed) -> bool {
    let Faulty { from, .. } = blamed_on(tokens, at);
    match tokens.get(from) {
        Some(token) => token.file == main && token.start >= last.end,
        None => false,
    }
}

/// What the fault at a token of a main is blamed on, if that is after the last fault.
fn blamed_after(tokens: &[Token<'_>], main: usize, at: usize, last: Blamed) -> Option<Blamed> {
    if is_new(tokens, main, at, last) {
        let tests = last.tests;
        blamed_at(tokens, Refused { at, tests })
    } else {
        None
    }
}

/// Whether a message on a line marks only what is after it, and the message before marked the line itself. A reader would
/// look for a third fault.
fn is_misleading(message: &Message, blamed: Blamed, last: Blamed) -> bool {
    let is_inside = match message.span {
        Some(span) => span.start < blamed.end,
        None => false,
    };
    blamed.start <= last.refused && !is_inside && message.notes.is_empty()
}

/// What is said about a fault at a token of a main; `None` if nothing is. `number` is the token's among all that weren't
/// removed.
fn said_at(
    alloc: Global,
    main: Main<'_, '_>,
    tokens: &[Token<'_>],
    at: usize,
    number: usize,
) -> Result<Option<FurtherFault>, Memory> {
    let fault = ParseError::Expected(at);
    let found = message_on_tokens(alloc, main.sources, main.index, tokens, fault)?;
    let Some(message) = found else {
        return Ok(None);
    };
    let error = BuildError::Parse(main.index, fault);
    let message = advised_on_tokens(alloc, tokens, &error, message)?;
    let error = BuildError::Parse(main.index, ParseError::Expected(number));
    Ok(Some(FurtherFault { error, message }))
}

/// A search for faults.
#[derive(Drop)]
struct Search<'a, 's> {
    alloc: Global,
    main: Main<'a, 's>,
    window: Window<'a, 's>,
    /// The refused token, and what was removed before it.
    refused: Refused,
    all: Vec<FurtherFault>,
}

impl Search<'_, '_> {
    /// Removes what the last fault is blamed on. `None` if other lines depend on it.
    fn remove(&mut self) -> Result<Option<Blamed>, Memory> {
        let found = removable_at(self.window.tokens(), self.main.index, self.refused);
        let Some(last) = found else {
            return Ok(None);
        };
        let Faulty { from, to } = last.faulty;
        self.window.remove(self.alloc, from, to, last.is_second)?;
        self.refused = Refused {
            at: from,
            tests: last.tests,
        };
        Ok(Some(last))
    }

    /// Adds the fault at a token, unless it is misleading. Returns whether the search goes on.
    fn add(&mut self, tokens: &[Token<'_>], at: usize, last: Blamed) -> Result<bool, Memory> {
        let Some(blamed) = blamed_after(tokens, self.main.index, at, last) else {
            return Ok(false);
        };
        self.refused.at = at;
        if last.tests > 0 && is_at(tokens, at, Symbol::Else) {
            return Ok(true);
        }
        let number = self.window.index_of(at);
        let Some(fault) = said_at(self.alloc, self.main, tokens, at, number)? else {
            return Ok(false);
        };
        if !is_misleading(&fault.message, blamed, last) {
            self.all.push(fault)?;
        }
        Ok(true)
    }

    /// Finds the next fault. Returns whether the search goes on.
    fn step(&mut self) -> Result<bool, Memory> {
        let Some(last) = self.remove()? else {
            return Ok(false);
        };
        match self.window.refused(self.alloc, self.refused.at)? {
            Some((tokens, at)) => self.add(tokens.as_slice(), at, last),
            None => Ok(false),
        }
    }
}

/// The further faults of a main with these tokens.
fn faults_in<'a, 's>(
    alloc: Global,
    main: Main<'a, 's>,
    tokens: &'a [Token<'s>],
    at: usize,
    most: usize,
) -> Result<Vec<FurtherFault>, Memory> {
    let (window, at) = Window::new(alloc, tokens, at)?;
    let mut search = Search {
        alloc,
        main,
        window,
        refused: Refused { at, tests: 0 },
        all: Vec::new(alloc),
    };
    for _ in 0..most {
        if !search.step()? {
            break;
        }
    }
    Ok(search.all)
}

/// The further faults of a main that the parser refused at the token `at`, `most` at most. Returns `Memory` if an
/// allocation fails.
pub fn further_faults(
    alloc: Global,
    sources: &[Source<'_>],
    main: usize,
    at: usize,
    most: usize,
) -> Result<Vec<FurtherFault>, Memory> {
    if main >= sources.len() {
        return Ok(Vec::new(alloc));
    }
    let Ok(tokens) = lex(alloc, sources, main) else {
        return Ok(Vec::new(alloc));
    };
    let main = Main {
        sources,
        index: main,
    };
    faults_in(alloc, main, tokens.as_slice(), at, most)
}
