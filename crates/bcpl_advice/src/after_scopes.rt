//! The further faults of a main whose scopes have one. Where the first fault is, the text is changed so that it is gone, and
//! the rest is checked again, and so on. Faults that only follow from an earlier one are left out, and a name that isn't
//! declared is reported once.

use crate::after_lexical::explained;
use crate::further::{FurtherFault, with_text};
use crate::mending::{Mending, Tokens, mend};
use bc_build::{BuildError, ScopeFault};
use bc_lex::{Source, lex};
use bc_lex_tokens::{Symbol, Token, TokenKind};
use bc_parse::parse;
use bc_scope::{ScopeError, resolve};
use bc_scope_places::{Span as TokenSpan, fault_place};
use bc_word::Memory;
use bcpl_index::unknown_names;
use bcpl_messages::{is_at, symbol_at};
use bcpl_places::Span;
use indexmap::IndexSet;
use std::alloc::Global;

/// At most this many times the text is changed and checked. Each time takes as long as parsing the main.
const ROUNDS: usize = 200;

/// What the resolver refused, and where.
#[derive(Clone, Copy)]
struct Refused<'s> {
    fault: ScopeError<'s>,
    at: TokenSpan,
}

/// A word that is misplaced in a routine.
#[derive(Clone, Copy)]
struct Word {
    /// The number of its kind; 0 for a word that is reported wherever it is misplaced.
    kind: u8,
    /// Where the heading of the routine begins.
    routine: usize,
}

/// A fault, and what is known of its place.
#[derive(Drop)]
struct Located {
    fault: ScopeFault,
    place: Span,
    /// The names that aren't reported again.
    names: Vec<Span>,
    /// The change after which the fault is gone.
    mending: Option<Mending>,
    word: Word,
    /// Whether it is in a MANIFEST list, so that other constants depend on it.
    is_in_manifest: bool,
}

/// A fault that owns its name.
fn owned(alloc: Global, fault: ScopeError<'_>) -> Result<ScopeFault, Memory> {
    Ok(match fault {
        ScopeError::Undeclared(name) => ScopeFault::Undeclared(Vec::from_slice(alloc, name)?),
        ScopeError::DeclaredTwice(name) => ScopeFault::DeclaredTwice(Vec::from_slice(alloc, name)?),
        ScopeError::DynamicFree(name) => ScopeFault::DynamicFree(Vec::from_slice(alloc, name)?),
        ScopeError::GlobalNumber(name) => ScopeFault::GlobalNumber(Vec::from_slice(alloc, name)?),
        ScopeError::NotConstant => ScopeFault::NotConstant,
        ScopeError::NotAssignable => ScopeFault::NotAssignable,
        ScopeError::Misplaced => ScopeFault::Misplaced,
        ScopeError::FrameTooLarge => ScopeFault::FrameTooLarge,
        ScopeError::CaseTwice => ScopeFault::CaseTwice,
        ScopeError::TooManyPlaces => ScopeFault::TooManyPlaces,
        ScopeError::Memory => ScopeFault::Memory,
    })
}

/// What the resolver refuses of these tokens; `None` if nothing, or if the place isn't known.
fn first_fault<'s>(alloc: Global, tokens: &[Token<'s>]) -> Result<Option<Refused<'s>>, Memory> {
    if tokens.len() > 60_000 {
        return Ok(None);
    }
    let Ok(section) = parse(alloc, tokens) else {
        return Ok(None);
    };
    let Err(fault) = resolve(alloc, &section) else {
        return Ok(None);
    };
    Ok(match fault_place(alloc, tokens, &section, fault)? {
        Some(found) => Some(Refused {
            fault,
            at: found.at,
        }),
        None => None,
    })
}

/// Whether a fault is about a name that has no meaning where it is used, or about names that are misplaced.
fn is_of_names(fault: ScopeError<'_>) -> bool {
    matches!(
        fault,
        ScopeError::Undeclared(_) | ScopeError::DynamicFree(_) | ScopeError::Misplaced
    )
}

/// The names among these tokens.
fn names_at(alloc: Global, tokens: &[Token<'_>], at: TokenSpan) -> Result<Vec<Span>, Memory> {
    let mut names = Vec::new(alloc);
    for index in at.first..at.last.saturating_add(1) {
        if symbol_at(tokens, index).is_none()
            && let Some(token) = tokens.get(index)
        {
            names.push(Span {
                file: token.file,
                start: token.start,
                end: token.end,
            })?;
        }
    }
    Ok(names)
}

/// The number of the kind of a misplaced word. One of a kind is reported in each routine: the others follow from the same
/// mistake.
fn kind_of(symbol: Option<Symbol>) -> u8 {
    match symbol {
        Some(Symbol::Case | Symbol::Default | Symbol::EndCase) => 1,
        Some(Symbol::ResultIs) => 2,
        Some(Symbol::Return) => 3,
        _ => 0,
    }
}

/// Where the heading of the last routine before a token begins; 0 if there is none.
fn routine_before(tokens: &[Token<'_>], at: usize) -> usize {
    let mut routine: usize = 0;
    for index in 0..at {
        let is_word = is_at(tokens, index, Symbol::Let) || is_at(tokens, index, Symbol::And);
        if is_word
            && is_at(tokens, index.saturating_add(2), Symbol::OpenBracket)
            && let Some(token) = tokens.get(index)
        {
            routine = token.start;
        }
    }
    routine
}

/// The word at a token, if a fault says that it is misplaced.
fn word_at(tokens: &[Token<'_>], fault: ScopeError<'_>, at: usize) -> Word {
    let kind = match fault {
        ScopeError::Misplaced => kind_of(symbol_at(tokens, at)),
        _ => 0,
    };
    Word {
        kind,
        routine: routine_before(tokens, at),
    }
}

/// Whether the token with this index is in a MANIFEST list.
fn is_in_manifest(tokens: &[Token<'_>], at: usize) -> bool {
    let mut inside: usize = 0;
    let mut index = at;
    for _ in 0..at {
        index = index.saturating_sub(1);
        match symbol_at(tokens, index) {
            Some(Symbol::CloseSection) => inside = inside.saturating_add(1),
            Some(Symbol::OpenSection) if inside == 0 => {
                return is_at(tokens, index.saturating_sub(1), Symbol::Manifest);
            }
            Some(Symbol::OpenSection) => inside = inside.saturating_sub(1),
            _ => {}
        }
    }
    false
}

/// The stretch of these tokens, or of the first one if they aren't in one file.
fn stretch_of(tokens: &[Token<'_>], at: TokenSpan) -> Option<Span> {
    let first = tokens.get(at.first)?;
    let last = tokens.get(at.last)?;
    Some(Span {
        file: first.file,
        start: first.start,
        end: if last.file == first.file {
            last.end
        } else {
            first.end
        },
    })
}

/// A fault with what is known of its place.
fn with_place(
    alloc: Global,
    tokens: Tokens<'_, '_>,
    refused: Refused<'_>,
) -> Result<Option<Located>, Memory> {
    let Refused { fault, at } = refused;
    let Some(place) = stretch_of(tokens.all, at) else {
        return Ok(None);
    };
    let names = if is_of_names(fault) {
        names_at(alloc, tokens.all, at)?
    } else {
        Vec::new(alloc)
    };
    let word = word_at(tokens.all, fault, at.first);
    let fault = owned(alloc, fault)?;
    Ok(Some(Located {
        place,
        names,
        mending: tokens.change_for(&fault, at),
        word,
        is_in_manifest: is_in_manifest(tokens.all, at.first),
        fault,
    }))
}

/// The first fault of the scopes of a main.
fn fault_in(alloc: Global, sources: &[Source<'_>], main: usize) -> Result<Option<Located>, Memory> {
    if main >= sources.len() {
        return Ok(None);
    }
    let Ok(tokens) = lex(alloc, sources, main) else {
        return Ok(None);
    };
    let all = tokens.as_slice();
    match first_fault(alloc, all)? {
        Some(found) => with_place(alloc, Tokens { all, main }, found),
        None => Ok(None),
    }
}

/// The text at a place.
fn text_at<'s>(sources: &[Source<'s>], place: Span) -> &'s [u8] {
    match sources.get(place.file) {
        Some(source) => source.text.get(place.start..place.end).unwrap_or(b""),
        None => b"",
    }
}

/// The changes of the uses of these names in a main, except those within another one's change.
fn changes_of(
    alloc: Global,
    sources: &[Source<'_>],
    main: usize,
    names: &IndexSet<&[u8]>,
) -> Result<Vec<Mending>, Memory> {
    let mut changes = Vec::new(alloc);
    if main >= sources.len() {
        return Ok(changes);
    }
    let Ok(tokens) = lex(alloc, sources, main) else {
        return Ok(changes);
    };
    let all = Tokens {
        all: tokens.as_slice(),
        main,
    };
    let mut end: usize = 0;
    for (at, token) in tokens.iter().enumerate() {
        if let TokenKind::Name(name) = token.kind
            && names.contains(name)
            && let Some(mending) = all.used(at)
            && mending.start >= end
        {
            end = mending.end;
            changes.push(mending)?;
        }
    }
    Ok(changes)
}

/// A search for faults.
#[derive(Drop)]
struct Search<'a, 's> {
    alloc: Global,
    sources: &'a [Source<'s>],
    main: usize,
    /// The main's text, with its changes.
    text: Vec<u8>,
    /// The names that aren't reported again.
    told: Vec<Span>,
    mended: Vec<Mending>,
    words: Vec<Word>,
    /// Whether a constant was changed on which others depend.
    has_constant: bool,
    /// The place of the last fault.
    last: Option<Span>,
    /// Whether the last fault was about names.
    last_has_names: bool,
    all: Vec<FurtherFault>,
}

impl Search<'_, '_> {
    /// The first fault of the changed text.
    fn next(&self) -> Result<Option<Located>, Memory> {
        let changed = with_text(self.alloc, self.sources, self.main, self.text.as_slice())?;
        fault_in(self.alloc, changed.as_slice(), self.main)
    }

    /// Whether a name isn't reported again.
    fn is_told(&self, place: Span) -> bool {
        let name = text_at(self.sources, place);
        for other in self.told.as_slice() {
            if text_at(self.sources, *other) == name {
                return true;
            }
        }
        false
    }

    /// Whether a word of this kind was misplaced before in the same routine.
    fn is_repeated(&self, word: Word) -> bool {
        for other in self.words.as_slice() {
            if other.kind == word.kind && other.routine == word.routine {
                return true;
            }
        }
        false
    }

    /// Whether a place was changed.
    fn is_changed(&self, place: Span) -> bool {
        for other in self.mended.as_slice() {
            if place.file == self.main && other.start < place.end && place.start < other.end {
                return true;
            }
        }
        false
    }

    /// Whether a fault only follows from an earlier one, or says the same.
    fn follows(&self, found: &Located) -> bool {
        let is_same = match &found.fault {
            ScopeFault::Undeclared(_) | ScopeFault::DynamicFree(_) => self.is_told(found.place),
            ScopeFault::Misplaced => self.is_repeated(found.word) || self.is_told(found.place),
            ScopeFault::CaseTwice | ScopeFault::GlobalNumber(_) | ScopeFault::FrameTooLarge => {
                self.has_constant
            }
            _ => false,
        };
        is_same || self.is_changed(found.place)
    }

    /// Whether this is the last fault again, so that its change was of no use.
    fn is_again(&self, found: &Located) -> bool {
        match self.last {
            Some(last) => last == found.place && self.last_has_names == !found.names.is_empty(),
            None => false,
        }
    }

    /// Notes a fault, and what later faults may follow from.
    fn note(&mut self, found: &Located) -> Result<(), Memory> {
        self.last = Some(found.place);
        self.last_has_names = !found.names.is_empty();
        self.has_constant = self.has_constant || found.is_in_manifest;
        for name in found.names.as_slice() {
            self.told.push(*name)?;
        }
        if found.word.kind > 0 {
            self.words.push(found.word)?;
        }
        Ok(())
    }

    /// Notes the names that are listed with the first fault.
    fn note_listed(&mut self) -> Result<(), Memory> {
        for name in unknown_names(self.alloc, self.sources, self.main)? {
            self.told.push(name)?;
        }
        Ok(())
    }

    /// Changes the uses of the names that are listed, all at once. One within another's change stays.
    fn change_listed(&mut self) -> Result<(), Memory> {
        let mut names: IndexSet<&[u8]> = IndexSet::new(self.alloc);
        for name in self.told.as_slice() {
            names.insert(text_at(self.sources, *name))?;
        }
        let changes = changes_of(self.alloc, self.sources, self.main, &names)?;
        for mending in changes {
            self.change(Some(mending))?;
        }
        Ok(())
    }

    /// Changes the text. Returns whether the search goes on.
    fn change(&mut self, mending: Option<Mending>) -> Result<bool, Memory> {
        let Some(mending) = mending else {
            return Ok(false);
        };
        self.mended.push(mending)?;
        Ok(mend(self.text.as_mut_slice(), mending))
    }

    /// What is said of a fault.
    fn said(&self, fault: ScopeFault) -> Result<Option<FurtherFault>, Memory> {
        let changed = with_text(self.alloc, self.sources, self.main, self.text.as_slice())?;
        let error = BuildError::Scope(self.main, fault);
        explained(self.alloc, changed.as_slice(), self.main, error)
    }

    /// Adds a fault.
    fn add(&mut self, fault: ScopeFault) -> Result<(), Memory> {
        if let Some(further) = self.said(fault)? {
            self.all.push(further)?;
        }
        Ok(())
    }

    /// Finds the first fault, which is reported already. Returns whether the search goes on.
    fn begin(&mut self) -> Result<bool, Memory> {
        let Some(found) = self.next()? else {
            return Ok(false);
        };
        self.note(&found)?;
        match &found.fault {
            ScopeFault::Undeclared(_) => {
                self.note_listed()?;
                self.change_listed()?;
                Ok(true)
            }
            _ => self.change(found.mending),
        }
    }

    /// Finds the next fault. Returns whether the search goes on.
    fn step(&mut self) -> Result<bool, Memory> {
        let Some(found) = self.next()? else {
            return Ok(false);
        };
        if self.is_again(&found) {
            return Ok(false);
        }
        let is_reported = !self.follows(&found);
        self.note(&found)?;
        let mending = found.mending;
        if is_reported {
            self.add(found.fault)?;
        }
        self.change(mending)
    }

    /// Finds the next faults, until there are so many.
    fn go_on(&mut self, most: usize) -> Result<(), Memory> {
        for _ in 0..ROUNDS {
            if self.all.len() >= most || !self.step()? {
                break;
            }
        }
        Ok(())
    }
}

/// The further faults of a main whose scopes have a fault, `most` at most. Returns `Memory` if an allocation fails.
pub fn further_scope_faults(
    alloc: Global,
    sources: &[Source<'_>],
    main: usize,
    most: usize,
) -> Result<Vec<FurtherFault>, Memory> {
    let Some(source) = sources.get(main) else {
        return Ok(Vec::new(alloc));
    };
    let mut search = Search {
        alloc,
        sources,
        main,
        text: Vec::from_slice(alloc, source.text)?,
        told: Vec::new(alloc),
        mended: Vec::new(alloc),
        words: Vec::new(alloc),
        has_constant: false,
        last: None,
        last_has_names: false,
        all: Vec::new(alloc),
    };
    if search.begin()? {
        search.go_on(most)?;
    }
    Ok(search.all)
}
