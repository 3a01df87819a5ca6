//! Warning: a call of a global that nothing in the program sets.

use crate::arguments::is_called;
use crate::declared::{Declarations, Meaning};
use crate::mixed::gets_further;
use crate::tokens::{
    closes_at, is_after, is_at, is_line_start, name_at, opens_at, symbol_at, symbol_before,
};
use bc_build::Parsed;
use bc_lex_tokens::{Symbol, Token};
use bc_library::library_name;
use bc_word::Memory;
use indexmap::{IndexMap, IndexSet};
use std::alloc::Global;

/// Whether the main with these declarations may set the global with the name at this index.
fn is_set(declarations: &Declarations<'_>, at: usize) -> bool {
    let uses = declarations.uses_at(at);
    declarations.has_routine(at) || uses.is_assigned || uses.is_listed || uses.is_addressed
}

/// Whether something is added to the name at this index, or it is subscripted, in the rest of the block after `from`.
fn is_offset_after(
    tokens: &[Token<'_>],
    declarations: &Declarations<'_>,
    index: usize,
    from: usize,
) -> bool {
    let name = declarations.interned.number_at(index);
    let mut depth: usize = 0;
    for at in from..tokens.len() {
        if opens_at(tokens, at) {
            depth = depth.saturating_add(1);
        } else if closes_at(tokens, at) {
            if depth == 0 {
                return false;
            }
            depth = depth.saturating_sub(1);
        } else if declarations.interned.number_at(at) == name
            && matches!(
                symbol_at(tokens, at.saturating_add(1)),
                Some(Symbol::Indirection | Symbol::Plus | Symbol::Minus)
            )
        {
            return true;
        }
    }
    false
}

/// Whether the address that is taken by the `@` at this index may become that of other cells: something is added to it,
/// or to the variable that it is assigned to.
fn is_offset(tokens: &[Token<'_>], declarations: &Declarations<'_>, at: usize) -> bool {
    let mut first = at;
    let mut next = at.saturating_add(2);
    if is_after(tokens, at, Symbol::OpenBracket) && is_at(tokens, next, Symbol::CloseBracket) {
        first = at.saturating_sub(1);
        next = next.saturating_add(1);
    }
    match (symbol_before(tokens, first), symbol_at(tokens, next)) {
        // in `!@G + 1` the sum is that of the content
        (Some(Symbol::Indirection), Some(Symbol::Plus | Symbol::Minus)) => false,
        (Some(Symbol::Plus), _) | (_, Some(Symbol::Plus | Symbol::Minus)) => true,
        (_, Some(Symbol::Indirection)) => first < at && !is_line_start(tokens, next),
        (Some(Symbol::Equal | Symbol::Assign), _) => {
            let holder = first.saturating_sub(2);
            name_at(tokens, holder).is_some() && is_offset_after(tokens, declarations, holder, next)
        }
        _ => false,
    }
}

/// Whether a main takes the address of a global in a way that may reach others.
fn reaches_others(tokens: &[Token<'_>], declarations: &Declarations<'_>) -> bool {
    for at in 0..tokens.len() {
        if is_at(tokens, at, Symbol::AddressOf)
            && declarations.has_global(at.saturating_add(1))
            && is_offset(tokens, declarations, at)
        {
            return true;
        }
    }
    false
}

/// The globals that a program may set, and the declarations of its mains.
#[derive(Drop)]
pub struct Settings<'s> {
    /// The declarations of each main, in the order of the mains.
    pub declarations: Vec<Declarations<'s>>,
    /// Their numbers, except those of the library.
    numbers: IndexSet<u16>,
    /// Whether any global may be set, because a number isn't known or an address may become that of others.
    is_open: bool,
    /// Whether a main that isn't the library's gets EXTHDR.
    pub gets_further: bool,
    /// The numbers that mains other than the library's may set.
    own: IndexSet<u16>,
    /// Whether such a main may set any global.
    is_own_open: bool,
    /// The names that the library's mains have for globals, by number.
    names: IndexMap<u16, &'s [u8]>,
}

impl<'s> Settings<'s> {
    /// The globals that these mains may set, which were parsed to `parsed`. The first `library` sources are the library's.
    /// Returns `Memory` if an allocation fails.
    pub fn of(
        alloc: Global,
        library: usize,
        mains: &[usize],
        parsed: &[Parsed<'s>],
    ) -> Result<Settings<'s>, Memory> {
        let mut settings = Settings::new(alloc);
        settings.add_mains(alloc, library, mains, parsed)?;
        Ok(settings)
    }

    /// No globals.
    fn new(alloc: Global) -> Settings<'s> {
        Settings {
            declarations: Vec::new(alloc),
            numbers: IndexSet::new(alloc),
            is_open: false,
            gets_further: false,
            own: IndexSet::new(alloc),
            is_own_open: false,
            names: IndexMap::new(alloc),
        }
    }

    /// Adds the globals that these mains may set.
    fn add_mains(
        &mut self,
        alloc: Global,
        library: usize,
        mains: &[usize],
        parsed: &[Parsed<'s>],
    ) -> Result<(), Memory> {
        for (main, read) in mains.iter().zip(parsed) {
            self.add_tokens(alloc, read.tokens.as_slice(), *main >= library)?;
        }
        Ok(())
    }

    /// Adds the declarations of a main with these tokens, and the globals that it may set. It is the library's unless `is_own`.
    fn add_tokens(
        &mut self,
        alloc: Global,
        tokens: &[Token<'s>],
        is_own: bool,
    ) -> Result<(), Memory> {
        let declarations = Declarations::of(alloc, tokens)?;
        if reaches_others(tokens, &declarations) {
            self.is_open = true;
            self.is_own_open = self.is_own_open || is_own;
        }
        self.add_declared(&declarations, is_own)?;
        Ok(self.declarations.push(declarations)?)
    }

    /// Adds the globals that a main with these declarations may set, or the names that the library's main has for globals.
    fn add_declared(
        &mut self,
        declarations: &Declarations<'s>,
        is_own: bool,
    ) -> Result<(), Memory> {
        if is_own {
            self.add_own(declarations)?;
        } else {
            self.add_names(declarations)?;
        }
        self.add_main(declarations, is_own)
    }

    /// Adds the names of the globals of the library's main with these declarations.
    fn add_names(&mut self, declarations: &Declarations<'s>) -> Result<(), Memory> {
        for declared in &declarations.all {
            if let Meaning::Global(Some(number)) = declared.meaning
                && !self.names.contains_key(&number)
            {
                self.names.insert(number, declared.name)?;
            }
        }
        Ok(())
    }

    /// Adds the globals that a main with these declarations, which isn't the library's, may set.
    fn add_own(&mut self, declarations: &Declarations<'_>) -> Result<(), Memory> {
        for declared in &declarations.all {
            let Meaning::Global(number) = declared.meaning else {
                continue;
            };
            if !is_set(declarations, declared.at) {
                continue;
            }
            match number {
                Some(number) => {
                    self.own.insert(number)?;
                }
                None => self.is_own_open = true,
            }
        }
        Ok(())
    }

    /// Adds the globals that the main with these declarations may set. It is the library's unless `is_own`.
    fn add_main(&mut self, declarations: &Declarations<'_>, is_own: bool) -> Result<(), Memory> {
        self.gets_further = self.gets_further || is_own && gets_further(declarations);
        for declared in &declarations.all {
            if let Meaning::Global(number) = declared.meaning {
                self.add_global(declarations, declared.at, number)?;
            }
        }
        Ok(())
    }

    /// Adds the global with the name at this index and this number, if the main with these declarations may set it.
    fn add_global(
        &mut self,
        declarations: &Declarations<'_>,
        at: usize,
        number: Option<u16>,
    ) -> Result<(), Memory> {
        if is_set(declarations, at) {
            match number {
                Some(number) => {
                    self.numbers.insert(number)?;
                }
                None => self.is_open = true,
            }
        }
        Ok(())
    }

    /// Whether nothing sets the global with this number.
    fn is_unset(&self, number: u16) -> bool {
        !self.is_open && library_name(number).is_none() && !self.numbers.contains(&number)
    }
}

/// The number of the global that is called at this index, if nothing sets it and this is its first call in the main.
pub fn unset_global(
    tokens: &[Token<'_>],
    declarations: &Declarations<'_>,
    settings: &Settings<'_>,
    index: usize,
) -> Option<u16> {
    if !is_called(tokens, index) {
        return None;
    }
    let (_, number) = declarations.global_at(index)?;
    let number = number?;
    if declarations.uses_at(index).first_call? == index && settings.is_unset(number) {
        Some(number)
    } else {
        None
    }
}

/// The number of the global that is called at this index and its name in the library. `None` unless the program has
/// another name for it, nothing but the library sets it, and this is its first call in the main. The first `library` sources
/// are the library's. LIBHDR's globals have a warning where they are declared.
pub fn foreign_global<'s>(
    tokens: &[Token<'_>],
    declarations: &Declarations<'_>,
    settings: &Settings<'s>,
    library: usize,
    index: usize,
) -> Option<(u16, &'s [u8])> {
    let (declared, number) = declarations.global_at(index)?;
    let number = number?;
    let name = *settings.names.get(&number)?;
    let is_own = tokens.get(declared)?.file >= library && name_at(tokens, index)? != name;
    if is_own
        && declarations.uses_at(index).first_call? == index
        && library_name(number).is_none()
        && !settings.is_own_open
        && !settings.own.contains(&number)
    {
        Some((number, name))
    } else {
        None
    }
}
