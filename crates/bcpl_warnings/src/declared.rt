//! All declarations of a main, found by scanning its tokens. Warnings look names up here.

use crate::routines::{is_command_declared, is_defined, is_library_command};
use crate::tokens::{
    begins_command, closes_at, is_after, is_at, name_at, opens_at, symbol_at, symbol_before,
};
use crate::uses::Uses;
use bc_lex_tokens::{Symbol, Token, TokenKind};
use bc_word::Memory;
use bcpl_index::Interned;
use indexmap::IndexMap;
use std::alloc::Global;

/// What a name is declared as.
#[derive(Clone, Copy)]
pub enum Meaning {
    /// A global, with its number if that is given as a literal.
    Global(Option<u16>),
    /// A routine with this many parameters.
    Routine(usize),
    /// A label of a list of commands.
    Label,
    /// Something else: a variable, a parameter, a static or a constant.
    Other,
}

/// A declaration of a name.
#[derive(Clone, Copy)]
pub struct Declared<'s> {
    /// The name.
    pub name: &'s [u8],
    /// The index of its token.
    pub at: usize,
    /// What the name is declared as.
    pub meaning: Meaning,
    /// The previous declaration of this name, as an index into all declarations.
    before: Option<usize>,
}

/// What is known about a name in a main.
#[derive(Clone, Copy, Default)]
struct DeclaredName {
    /// Its last declaration, as an index into all declarations.
    last: Option<usize>,
    /// How many routines have this name.
    routines: usize,
    /// How many parameters the first of them has.
    parameters: usize,
    /// The token and the number of the last global with this name.
    global: Option<(usize, Option<u16>)>,
    /// Whether it is also declared as something other than a routine or a global.
    is_other: bool,
    /// Whether a routine with this name is declared with BE.
    is_command: bool,
    /// Whether it is also declared as something with a value.
    has_value: bool,
    uses: Uses,
}

impl DeclaredName {
    /// Records whether the declaration at this index is one of a routine with BE, or of something with a value.
    fn add_routine(&mut self, tokens: &[Token<'_>], index: usize) {
        match is_command_declared(tokens, index) {
            Some(true) => self.is_command = true,
            Some(false) => self.has_value = true,
            None => {}
        }
    }

    /// The token and the number of the global. `None` if the name has another meaning, too.
    fn as_global(&self) -> Option<(usize, Option<u16>)> {
        if self.routines == 0 && !self.is_other {
            self.global
        } else {
            None
        }
    }

    /// Records one more declaration, at the token `at`; `index` is its index among all declarations.
    fn declare(&mut self, meaning: Meaning, at: usize, index: usize) {
        self.last = Some(index);
        match meaning {
            Meaning::Global(number) => self.global = Some((at, number)),
            Meaning::Routine(count) => {
                if self.routines == 0 {
                    self.parameters = count;
                }
                self.routines = self.routines.saturating_add(1);
            }
            Meaning::Label | Meaning::Other => self.is_other = true,
        }
    }
}

/// A number of a global, in one file.
#[derive(Clone, Copy, PartialEq, Eq, Hash)]
struct Numbered {
    file: usize,
    number: u16,
}

/// The declarations of a main, and how its names are used.
#[derive(Drop)]
pub struct Declarations<'s> {
    /// The declarations, in text order.
    pub all: Vec<Declared<'s>>,
    /// The names, and the leaves of the main's tree.
    pub interned: Interned<'s>,
    /// What is known about each of the names.
    known: Vec<DeclaredName>,
    /// For each file and number, the name of the first global declared with it.
    numbers: IndexMap<Numbered, &'s [u8]>,
}

/// How many parameters follow the parenthesis with this index.
fn parameters_after(tokens: &[Token<'_>], open: usize) -> usize {
    let mut count: usize = 0;
    for index in open..tokens.len() {
        if is_at(tokens, index, Symbol::CloseBracket) {
            break;
        }
        if name_at(tokens, index).is_some() {
            count = count.saturating_add(1);
        }
    }
    count
}

/// Whether the symbols around the name at this index allow that it is declared there. Most names end here.
fn may_declare(tokens: &[Token<'_>], index: usize) -> bool {
    let is_headed = matches!(
        symbol_before(tokens, index),
        Some(Symbol::Let | Symbol::And | Symbol::For | Symbol::Comma | Symbol::OpenBracket)
    );
    is_headed
        || matches!(
            symbol_at(tokens, index.saturating_add(1)),
            Some(Symbol::Colon | Symbol::Equal)
        )
}

/// What a scan remembers of the tokens before the current one.
#[derive(Clone, Copy, Default)]
struct Around {
    /// The word before the section bracket that was opened last, unless one was closed since.
    list: Option<Symbol>,
    /// The index of the last name.
    name: Option<usize>,
    /// The index before the comma-separated names that end with that one.
    before: Option<usize>,
}

impl Around {
    /// The index before the comma-separated names that end with the one at this index.
    fn before_names(&self, tokens: &[Token<'_>], index: usize) -> Option<usize> {
        let before = index.checked_sub(1)?;
        if !is_at(tokens, before, Symbol::Comma) {
            Some(before)
        } else if self.name == before.checked_sub(1) {
            self.before
        } else {
            None
        }
    }

    /// Remembers the name with this index.
    fn pass_name(&mut self, tokens: &[Token<'_>], index: usize) {
        self.before = self.before_names(tokens, index);
        self.name = Some(index);
    }

    /// Remembers the token with this index, which isn't a name.
    fn pass_symbol(&mut self, tokens: &[Token<'_>], index: usize, kind: TokenKind<'_>) {
        match kind {
            TokenKind::Symbol(Symbol::OpenSection) if index > 0 => {
                self.list = symbol_at(tokens, index - 1);
            }
            TokenKind::Symbol(Symbol::OpenSection | Symbol::CloseSection) => self.list = None,
            _ => {}
        }
    }

    /// Whether the name at this index is a parameter, or a variable of a LET.
    fn is_in_definition(&self, tokens: &[Token<'_>], index: usize) -> bool {
        match self.before_names(tokens, index) {
            Some(before) if is_at(tokens, before, Symbol::OpenBracket) => {
                before > 0 && is_defined(tokens, before - 1)
            }
            Some(before) => {
                is_at(tokens, before, Symbol::Let) || is_at(tokens, before, Symbol::And)
            }
            None => false,
        }
    }

    /// What the token with this index declares as an entry of a list; `None` if it doesn't.
    fn listed(&self, tokens: &[Token<'_>], index: usize) -> Option<Meaning> {
        let next = index.saturating_add(1);
        if !is_at(tokens, next, Symbol::Colon) && !is_at(tokens, next, Symbol::Equal) {
            return None;
        }
        match self.list? {
            Symbol::Global => Some(Meaning::Global(global_number(tokens, index))),
            Symbol::Static | Symbol::Manifest => Some(Meaning::Other),
            _ => None,
        }
    }

    /// What the token with this index declares a name as; `None` if it declares none.
    fn meaning(&self, tokens: &[Token<'_>], index: usize) -> Option<Meaning> {
        let next = index.saturating_add(1);
        if is_defined(tokens, index) && is_at(tokens, next, Symbol::OpenBracket) {
            return Some(Meaning::Routine(parameters_after(tokens, next)));
        }
        if let Some(meaning) = self.listed(tokens, index) {
            return Some(meaning);
        }
        let is_label = is_at(tokens, next, Symbol::Colon);
        if is_label && begins_command(tokens, index) {
            Some(Meaning::Label)
        } else if is_label
            || is_after(tokens, index, Symbol::For)
            || self.is_in_definition(tokens, index)
        {
            Some(Meaning::Other)
        } else {
            None
        }
    }
}

/// The value of the number at this index; `None` if the token isn't a number.
fn number_at(tokens: &[Token<'_>], index: usize) -> Option<u16> {
    match tokens.get(index)?.kind {
        TokenKind::Number(number) => Some(number),
        _ => None,
    }
}

/// The number of the global named at this index, if it is given as a literal.
fn global_number(tokens: &[Token<'_>], index: usize) -> Option<u16> {
    let number = number_at(tokens, index.saturating_add(2))?;
    let following = index.saturating_add(3);
    let is_alone = is_at(tokens, following, Symbol::Semicolon)
        || is_at(tokens, following, Symbol::CloseSection)
        || name_at(tokens, following).is_some();
    if is_alone { Some(number) } else { None }
}

impl<'s> Declarations<'s> {
    /// The declarations among these tokens. Returns `Memory` if an allocation fails.
    pub fn of(alloc: Global, tokens: &[Token<'s>]) -> Result<Declarations<'s>, Memory> {
        let interned = Interned::new(alloc, tokens.len())?;
        let mut declarations = Declarations {
            all: Vec::new(alloc),
            interned,
            known: Vec::new(alloc),
            numbers: IndexMap::new(alloc),
        };
        declarations.add_all(tokens)?;
        Ok(declarations)
    }

    /// Adds the declarations among these tokens.
    fn add_all(&mut self, tokens: &[Token<'s>]) -> Result<(), Memory> {
        let mut around = Around::default();
        for (index, token) in tokens.iter().enumerate() {
            if let TokenKind::Name(name) = token.kind {
                self.add_name(tokens, &around, name, index)?;
                around.pass_name(tokens, index);
            } else {
                self.interned.add_other(token.kind, index)?;
                around.pass_symbol(tokens, index, token.kind);
            }
        }
        Ok(())
    }

    /// Adds the name at this index.
    fn add_name(
        &mut self,
        tokens: &[Token<'s>],
        around: &Around,
        name: &'s [u8],
        index: usize,
    ) -> Result<(), Memory> {
        let number = self.interned.add_name(name, index)?;
        if self.known.len() < self.interned.len() {
            self.known.push(DeclaredName::default())?;
        }
        let is_candidate = may_declare(tokens, index);
        if let Some(known) = self.known.get_mut(number) {
            known.uses.add(tokens, index);
            if is_candidate {
                known.add_routine(tokens, index);
            }
        }
        if is_candidate && let Some(meaning) = around.meaning(tokens, index) {
            self.declare(tokens, meaning, number, index)
        } else {
            Ok(())
        }
    }

    /// Adds the declaration at this index, of the name with this number.
    fn declare(
        &mut self,
        tokens: &[Token<'s>],
        meaning: Meaning,
        number: usize,
        index: usize,
    ) -> Result<(), Memory> {
        let Some(name) = name_at(tokens, index) else {
            return Ok(());
        };
        self.add_number(tokens, meaning, name, index)?;
        if let Some(known) = self.known.get_mut(number) {
            let before = known.last;
            known.declare(meaning, index, self.all.len());
            self.all.push(Declared {
                name,
                at: index,
                meaning,
                before,
            })?;
        }
        Ok(())
    }

    /// Records the name of a global that is declared at this index, if it is the first with its number in its file.
    fn add_number(
        &mut self,
        tokens: &[Token<'_>],
        meaning: Meaning,
        name: &'s [u8],
        index: usize,
    ) -> Result<(), Memory> {
        if let Meaning::Global(Some(number)) = meaning
            && let Some(token) = tokens.get(index)
        {
            let numbered = Numbered {
                file: token.file,
                number,
            };
            if !self.numbers.contains_key(&numbered) {
                self.numbers.insert(numbered, name)?;
            }
        }
        Ok(())
    }

    /// What is known about the name with this number.
    fn known_of(&self, number: Option<usize>) -> Option<&DeclaredName> {
        self.known.get(number?)
    }

    /// What is known about the name at this index.
    fn known_at(&self, index: usize) -> Option<&DeclaredName> {
        self.known_of(self.interned.number_at(index))
    }

    /// How the name at this index is used in the main.
    pub fn uses_at(&self, index: usize) -> Uses {
        match self.known_at(index) {
            Some(known) => known.uses,
            None => Uses::default(),
        }
    }

    /// The number of parameters of the routine with the name at this index. `None` if the name has another meaning in the
    /// main, apart from the global that the routine sets.
    pub fn parameters_at(&self, index: usize) -> Option<usize> {
        let known = self.known_at(index)?;
        if known.routines == 1 && !known.is_other {
            Some(known.parameters)
        } else {
            None
        }
    }

    /// The token of the last routine with the name at this index.
    fn routine_at(&self, index: usize) -> Option<usize> {
        let mut last = self.known_at(index)?.last;
        for _ in 0..self.all.len() {
            let declared = self.all.get(last?)?;
            if let Meaning::Routine(_) = declared.meaning {
                return Some(declared.at);
            }
            last = declared.before;
        }
        None
    }

    /// Whether the routine with the name at this index takes the address of a parameter, as far as names tell: then it
    /// may have as many arguments as it likes.
    pub fn addresses_parameter(&self, tokens: &[Token<'_>], index: usize) -> bool {
        let Some(routine) = self.routine_at(index) else {
            return false;
        };
        for at in routine.saturating_add(2)..tokens.len() {
            if is_at(tokens, at, Symbol::CloseBracket) {
                break;
            }
            if self.uses_at(at).is_addressed && self.is_addressed_in(tokens, routine, at) {
                return true;
            }
        }
        false
    }

    /// Whether the routine that is declared at this index takes the address of a variable with the name at `named`.
    fn is_addressed_in(&self, tokens: &[Token<'_>], routine: usize, named: usize) -> bool {
        let name = self.interned.number_at(named);
        let mut depth: usize = 0;
        for at in routine..tokens.len() {
            let is_closed = closes_at(tokens, at);
            let is_next = is_at(tokens, at, Symbol::Let) || is_at(tokens, at, Symbol::And);
            if depth == 0 && (is_closed || is_next) {
                return false;
            }
            if opens_at(tokens, at) {
                depth = depth.saturating_add(1);
            } else if is_closed {
                depth = depth.saturating_sub(1);
            } else if is_at(tokens, at, Symbol::AddressOf)
                && self.interned.number_at(at.saturating_add(1)) == name
            {
                return true;
            }
        }
        false
    }

    /// The token and the number of the global with the name at this index. `None` if the name has another meaning in the
    /// main.
    pub fn global_at(&self, index: usize) -> Option<(usize, Option<u16>)> {
        self.known_at(index)?.as_global()
    }

    /// Whether the name at this index is declared as a global somewhere in the main.
    pub fn has_global(&self, index: usize) -> bool {
        match self.known_at(index) {
            Some(known) => known.global.is_some(),
            None => false,
        }
    }

    /// The number of the global with this name, and the first call of it, if both are known. `None` if the name has
    /// another meaning in the main.
    pub fn called_global(&self, name: &[u8]) -> Option<(u16, usize)> {
        let known = self.known_of(self.interned.number_of(name))?;
        let (_, number) = known.as_global()?;
        Some((number?, known.uses.first_call?))
    }

    /// The declaration at this index; `None` if nothing is declared there.
    pub fn at(&self, index: usize) -> Option<Declared<'s>> {
        let found = self.all.partition_point(|declared| declared.at < index);
        let declared = self.all.get(found)?;
        if declared.at == index {
            Some(*declared)
        } else {
            None
        }
    }

    /// The number of the global that is declared at this index.
    pub fn number_of(&self, index: usize) -> Option<u16> {
        match self.at(index)?.meaning {
            Meaning::Global(number) => number,
            Meaning::Routine(_) | Meaning::Label | Meaning::Other => None,
        }
    }

    /// The name of the first global with this number in a file.
    pub fn first_name(&self, file: usize, number: u16) -> Option<&'s [u8]> {
        self.numbers.get(&Numbered { file, number }).copied()
    }

    /// The token of the last declaration of the name at this index before it.
    pub fn last_before(&self, index: usize) -> Option<usize> {
        let mut last = self.known_at(index)?.last;
        for _ in 0..self.all.len() {
            let declared = self.all.get(last?)?;
            if declared.at < index {
                return Some(declared.at);
            }
            last = declared.before;
        }
        None
    }

    /// Whether a routine with the name at this index is declared.
    pub fn has_routine(&self, index: usize) -> bool {
        match self.known_at(index) {
            Some(known) => known.routines > 0,
            None => false,
        }
    }

    /// Whether the name at this index means a routine declared with BE wherever it appears, here or in the library.
    pub fn is_command(&self, tokens: &[Token<'_>], index: usize) -> bool {
        match self.known_at(index) {
            Some(known) if !known.has_value => {
                known.is_command || is_library_command(tokens, index)
            }
            _ => false,
        }
    }
}
