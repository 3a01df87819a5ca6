//! What the names of a section mean: its declarations, and the uses of each. The rules are those of the compiler.

use bc_lex::{Source, Token, lex};
use bc_lex_tokens::TokenKind;
use bc_parse::{Section, parse};
use bc_parse_tree::{Command, Definition, Exp, Label, Storage, leaves_of};
use bc_scope_places::sites_of;
use bc_word::Memory;
use bcpl_places::{PartRole, PartVisit, TreePart, visits_of};
use indexmap::IndexMap;
use std::alloc::Global;

/// The index of no declaration.
pub const NONE: usize = usize::MAX;

/// What a name is declared as.
#[derive(Clone, Copy, PartialEq, Eq)]
pub enum Sort {
    /// A constant of a MANIFEST.
    Constant,
    /// A static.
    Static,
    /// A global.
    Global,
    /// A variable.
    Variable,
    /// The variable of a FOR.
    Counter,
    /// A vector.
    Vector,
    /// A parameter.
    Parameter,
    /// A routine with a value.
    Function,
    /// A routine without a value.
    Routine,
    /// A label.
    Label,
}

/// A declaration.
#[derive(Clone, Copy)]
pub struct Declared {
    /// What it declares.
    pub sort: Sort,
    /// The file with the name.
    pub file: usize,
    /// The offset of the name.
    pub start: usize,
    /// The offset after the name.
    pub end: usize,
    /// The offset after the last leaf of the definition, in the same file; that after the name for a short one.
    pub whole: usize,
    /// The index of the routine around it; `NONE` outside of all.
    pub routine: usize,
    /// The declaration of the same name around it; `NONE` if there is none.
    pub outer: usize,
    /// The first leaf that is in its scope.
    pub from: usize,
    /// The leaf after its scope.
    pub to: usize,
    /// The number of a global, or the offset in the frame.
    pub number: Option<u64>,
    /// The number of its cells in the frame.
    pub cells: u64,
}

/// A name in the text.
#[derive(Clone, Copy)]
pub struct Mention {
    /// Its file.
    pub file: usize,
    /// The offset of the name.
    pub start: usize,
    /// The offset after it.
    pub end: usize,
    /// Its leaf.
    pub leaf: usize,
    /// The index of the declaration that it makes or means.
    pub declared: usize,
}

/// The declarations of a section, and the names in it.
#[derive(Drop)]
pub struct Names {
    /// Whether the section could be parsed. If not, nothing is known.
    pub is_parsed: bool,
    /// The declarations, in text order of their scopes.
    pub declared: Vec<Declared>,
    /// The names, each with its declaration. Those without a meaning are left out.
    pub mentions: Vec<Mention>,
}

impl Names {
    /// Nothing.
    pub fn new(alloc: Global) -> Names {
        Names {
            is_parsed: false,
            declared: Vec::new(alloc),
            mentions: Vec::new(alloc),
        }
    }

    /// The declaration with this index.
    pub fn get(&self, index: usize) -> Option<Declared> {
        self.declared.get(index).copied()
    }

    /// The global that the routine with this index sets, because it has the same name; `NONE` if it sets none.
    pub fn global_of(&self, index: usize) -> usize {
        let Some(declared) = self.get(index) else {
            return NONE;
        };
        let is_routine = matches!(declared.sort, Sort::Function | Sort::Routine);
        match self.get(declared.outer) {
            Some(outer) if is_routine && outer.sort == Sort::Global => declared.outer,
            _ => NONE,
        }
    }

    /// The index of the global that a routine sets, or else the index itself. Names with the same one change together.
    pub fn root_of(&self, index: usize) -> usize {
        let global = self.global_of(index);
        if global == NONE { index } else { global }
    }

    /// The name in the first file at this offset, or right before it.
    pub fn mention_at(&self, offset: usize) -> Option<Mention> {
        for mention in &self.mentions {
            if mention.file == 0 && mention.start <= offset && offset <= mention.end {
                return Some(*mention);
            }
        }
        None
    }
}

/// A declaration that comes into scope at the beginning of a part.
#[derive(Clone, Copy)]
struct Coming {
    /// The visit that begins the part.
    part: usize,
    /// The visit of the declaration.
    visit: usize,
}

/// A declaration in scope.
#[derive(Clone, Copy)]
struct Open<'s> {
    name: &'s [u8],
    index: usize,
    outer: usize,
}

/// A part that ends scopes.
#[derive(Clone, Copy)]
struct Around {
    /// The number of declarations in scope before it.
    open: usize,
    /// The routine around it.
    routine: usize,
}

/// The walk up to here.
#[derive(Drop)]
struct Walk<'s> {
    names: Names,
    leaves: Vec<Token<'s>>,
    latest: IndexMap<&'s [u8], usize>,
    open: Vec<Open<'s>>,
    around: Vec<Around>,
    /// The leaves of the variables of the FORs around this point.
    counters: Vec<usize>,
    routine: usize,
    coming: Vec<Coming>,
    /// How many of the coming declarations were made.
    made: usize,
    /// The declaration of each leaf.
    by_leaf: Vec<usize>,
    /// Whether an allocation failed. Then the rest is void.
    is_refused: bool,
}

/// Whether a part begins a scope into which labels or definitions come.
fn is_container(part: TreePart<'_, '_>) -> bool {
    match part {
        TreePart::Block | TreePart::Let => true,
        TreePart::Command(command) => matches!(command, Command::SwitchOn(_, _)),
        _ => false,
    }
}

/// Whether a part is a declaration that is known from the beginning of the part around it.
fn is_coming(part: TreePart<'_, '_>) -> bool {
    match part {
        TreePart::Definition(_) => true,
        TreePart::Label(label) => matches!(label, Label::Name(_)),
        _ => false,
    }
}

/// The declarations that are known from the beginning of the part around them, by these parts.
fn coming_of(alloc: Global, visits: &[PartVisit<'_, '_>]) -> Result<Vec<Coming>, Memory> {
    let mut coming = Vec::new(alloc);
    let mut containers: Vec<usize> = Vec::new(alloc);
    for (index, visit) in visits.iter().enumerate() {
        if is_container(visit.part) {
            if visit.is_end {
                let _ = containers.pop();
            } else {
                containers.push(index)?;
            }
        } else if !visit.is_end && is_coming(visit.part) {
            let part = containers.last().copied().unwrap_or(0);
            coming.push(Coming { part, visit: index })?;
        }
    }
    coming.sort_by_key(|coming: &Coming| coming.part)?;
    Ok(coming)
}

/// The sort of an entry of a list of constants.
fn sort_of(storage: Storage) -> Sort {
    match storage {
        Storage::Manifest => Sort::Constant,
        Storage::Static => Sort::Static,
        Storage::Global => Sort::Global,
    }
}

/// A vector with `NONE` for each leaf.
fn nothing_for(alloc: Global, count: usize) -> Result<Vec<usize>, Memory> {
    let mut list = Vec::new(alloc);
    list.resize(count, NONE)?;
    Ok(list)
}

impl<'s> Walk<'s> {
    /// A walk that begins.
    fn new(alloc: Global, leaves: Vec<Token<'s>>, coming: Vec<Coming>) -> Result<Walk<'s>, Memory> {
        let by_leaf = nothing_for(alloc, leaves.len())?;
        Ok(Walk {
            names: Names::new(alloc),
            leaves,
            latest: IndexMap::new(alloc),
            open: Vec::new(alloc),
            around: Vec::new(alloc),
            counters: Vec::new(alloc),
            routine: NONE,
            coming,
            made: 0,
            by_leaf,
            is_refused: false,
        })
    }

    /// The name at a leaf.
    fn name_at(&self, leaf: usize) -> &'s [u8] {
        match self.leaves.get(leaf) {
            Some(token) => match token.kind {
                TokenKind::Name(name) => name,
                _ => b"",
            },
            None => b"",
        }
    }

    /// The index of the declaration that a name means here.
    fn meaning(&self, name: &[u8]) -> usize {
        self.latest.get(name).copied().unwrap_or(NONE)
    }

    /// Notes that the name at a leaf makes or means a declaration.
    fn mention(&mut self, leaf: usize, declared: usize) {
        let Some(token) = self.leaves.get(leaf) else {
            return;
        };
        let mention = Mention {
            file: token.file,
            start: token.start,
            end: token.end,
            leaf,
            declared,
        };
        if self.names.mentions.push(mention).is_err() {
            self.is_refused = true;
        }
    }

    /// Makes this declaration the meaning of its name.
    fn enter(&mut self, name: &'s [u8], index: usize, outer: usize) {
        let open = Open { name, index, outer };
        if self.open.push(open).is_err() || self.latest.insert(name, index).is_err() {
            self.is_refused = true;
        }
    }

    /// Declares the name at a leaf.
    fn declare(&mut self, leaf: usize, from: usize, sort: Sort) {
        let Some(token) = self.leaves.get(leaf) else {
            return;
        };
        let (file, start, end) = (token.file, token.start, token.end);
        let name = self.name_at(leaf);
        let index = self.names.declared.len();
        let outer = self.meaning(name);
        let declared = Declared {
            sort,
            file,
            start,
            end,
            whole: end,
            routine: self.routine,
            outer,
            from,
            to: NONE,
            number: None,
            cells: 0,
        };
        if self.names.declared.push(declared).is_err() {
            self.is_refused = true;
        }
        self.enter(name, index, outer);
        if let Some(slot) = self.by_leaf.get_mut(leaf) {
            *slot = index;
        }
        self.mention(leaf, index);
    }

    /// Finds what the name at a leaf means.
    fn use_name(&mut self, leaf: usize) {
        let index = self.meaning(self.name_at(leaf));
        if index != NONE {
            self.mention(leaf, index);
        }
    }

    /// Declares the names at some leaves.
    fn declare_all(&mut self, first: usize, count: usize, from: usize, sort: Sort) {
        for leaf in first..first.saturating_add(count) {
            self.declare(leaf, from, sort);
        }
    }

    /// Declares what a definition defines.
    fn define(&mut self, definition: &Definition<'_>, first: usize, from: usize) {
        match definition {
            Definition::Variables(names, _) => {
                self.declare_all(first, names.len(), from, Sort::Variable);
            }
            Definition::Vector(_, _) => self.declare(first, from, Sort::Vector),
            Definition::Function(_, _, _) => self.declare(first, from, Sort::Function),
            Definition::Routine(_, _, _) => self.declare(first, from, Sort::Routine),
        }
    }

    /// Declares what a visit declares that is known from the beginning of the part around it.
    fn make(&mut self, visit: PartVisit<'_, '_>, from: usize) {
        match visit.part {
            TreePart::Definition(definition) => self.define(definition, visit.first, from),
            TreePart::Label(_) => self.declare(visit.first, from, Sort::Label),
            _ => {}
        }
    }

    /// Makes the declarations that come with the part that this visit begins.
    fn make_coming(&mut self, visits: &[PartVisit<'_, '_>], part: usize, from: usize) {
        for _each in self.made..self.coming.len() {
            let Some(coming) = self.coming.get(self.made).copied() else {
                return;
            };
            if coming.part != part {
                return;
            }
            self.made = self.made.saturating_add(1);
            if let Some(visit) = visits.get(coming.visit) {
                self.make(*visit, from);
            }
        }
    }

    /// Begins a scope.
    fn begin_scope(&mut self) {
        let around = Around {
            open: self.open.len(),
            routine: self.routine,
        };
        if self.around.push(around).is_err() {
            self.is_refused = true;
        }
    }

    /// Ends the scope of the newest declaration before this leaf.
    fn close(&mut self, leaf: usize) {
        let Some(open) = self.open.pop() else {
            return;
        };
        if self.latest.insert(open.name, open.outer).is_err() {
            self.is_refused = true;
        }
        if let Some(declared) = self.names.declared.get_mut(open.index) {
            declared.to = leaf;
        }
    }

    /// Ends a scope before this leaf.
    fn end_scope(&mut self, leaf: usize) {
        let Some(around) = self.around.pop() else {
            return;
        };
        self.routine = around.routine;
        for _each in around.open..self.open.len() {
            self.close(leaf);
        }
    }

    /// Enters a routine with this many parameters whose name is at a leaf.
    fn enter_routine(&mut self, leaf: usize, parameters: usize) {
        self.begin_scope();
        let index = self.by_leaf.get(leaf).copied().unwrap_or(NONE);
        self.routine = index;
        let first = leaf.saturating_add(1);
        self.declare_all(first, parameters, first, Sort::Parameter);
    }

    /// Begins a definition.
    fn begin_definition(&mut self, definition: &Definition<'_>, first: usize) {
        match definition {
            Definition::Function(_, parameters, _) => self.enter_routine(first, parameters.len()),
            Definition::Routine(_, parameters, _) => self.enter_routine(first, parameters.len()),
            _ => {}
        }
    }

    /// Notes where a definition ends.
    fn note_end(&mut self, first: usize, after: usize) {
        let index = self.by_leaf.get(first).copied().unwrap_or(NONE);
        let Some(last) = self.leaves.get(after.saturating_sub(1)) else {
            return;
        };
        let (file, end) = (last.file, last.end);
        if let Some(declared) = self.names.declared.get_mut(index)
            && declared.file == file
            && end >= declared.end
        {
            declared.whole = end;
        }
    }

    /// Ends a definition.
    fn end_definition(&mut self, definition: &Definition<'_>, visit: PartVisit<'_, '_>) {
        if let Definition::Function(_, _, _) | Definition::Routine(_, _, _) = definition {
            self.end_scope(visit.leaves);
        }
        self.note_end(visit.first, visit.leaves);
    }

    /// Begins a command.
    fn begin_command(&mut self, command: &Command<'_>, leaf: usize) {
        match command {
            Command::SwitchOn(_, _) => self.begin_scope(),
            Command::Goto(_) => self.use_name(leaf.saturating_add(1)),
            Command::For { .. } => {
                if self.counters.push(leaf).is_err() {
                    self.is_refused = true;
                }
            }
            _ => {}
        }
    }

    /// Ends a command.
    fn end_command(&mut self, command: &Command<'_>, leaf: usize) {
        match command {
            Command::SwitchOn(_, _) => self.end_scope(leaf),
            Command::For { .. } => {
                let _ = self.counters.pop();
            }
            _ => {}
        }
    }

    /// Begins a block.
    fn begin_block(&mut self, role: PartRole, leaf: usize) {
        self.begin_scope();
        if let PartRole::Do = role
            && let Some(counter) = self.counters.last().copied()
        {
            self.declare(counter, leaf, Sort::Counter);
        }
    }

    /// Begins a part.
    fn begin(&mut self, visit: PartVisit<'_, '_>) {
        match visit.part {
            TreePart::Block => self.begin_block(visit.role, visit.leaves),
            TreePart::Command(command) => self.begin_command(command, visit.leaves),
            TreePart::Definition(definition) => self.begin_definition(definition, visit.first),
            TreePart::Constant(storage, _) => {
                self.declare(visit.first, visit.first, sort_of(storage));
            }
            TreePart::Expression(e) => {
                if let Exp::Name(_) = e {
                    self.use_name(visit.leaves);
                }
            }
            _ => {}
        }
    }

    /// Ends a part.
    fn end(&mut self, visit: PartVisit<'_, '_>) {
        match visit.part {
            TreePart::Block => self.end_scope(visit.leaves),
            TreePart::Command(command) => self.end_command(command, visit.leaves),
            TreePart::Definition(definition) => self.end_definition(definition, visit),
            TreePart::Constant(_, _) => self.note_end(visit.first, visit.leaves),
            _ => {}
        }
    }

    /// Walks over all parts.
    fn walk(&mut self, visits: &[PartVisit<'_, '_>]) {
        for (index, visit) in visits.iter().enumerate() {
            if visit.is_end {
                self.end(*visit);
            } else {
                self.begin(*visit);
                if is_container(visit.part) {
                    self.make_coming(visits, index, visit.leaves);
                }
            }
        }
    }

    /// Sets the number and the cells of the declaration at a leaf.
    fn set_number(&mut self, leaf: u64, number: u64, cells: u64) {
        let index = self.by_leaf.get(leaf as usize).copied().unwrap_or(NONE);
        if let Some(declared) = self.names.declared.get_mut(index) {
            declared.number = Some(number);
            declared.cells = cells;
        }
    }

    /// Sets the numbers of globals and the offsets of variables, if the section is free of faults.
    fn set_numbers(&mut self, alloc: Global, section: &Section<'_>) -> Result<(), Memory> {
        let Some(sites) = sites_of(alloc, section)? else {
            return Ok(());
        };
        for site in &sites.variables {
            self.set_number(site.leaf, site.offset, site.cells);
        }
        for site in &sites.globals {
            self.set_number(site.leaf, u64::from(site.number), 0);
        }
        Ok(())
    }
}

/// The walk over a section that was parsed from these tokens.
fn walk_of<'s>(
    alloc: Global,
    tokens: &[Token<'s>],
    section: &Section<'s>,
) -> Result<Walk<'s>, Memory> {
    let visits = visits_of(alloc, section)?;
    let coming = coming_of(alloc, visits.as_slice())?;
    let mut walk = Walk::new(alloc, leaves_of(alloc, tokens)?, coming)?;
    walk.walk(visits.as_slice());
    Ok(walk)
}

/// The names of a section that was parsed from these tokens.
fn names_in<'s>(
    alloc: Global,
    tokens: &[Token<'s>],
    section: &Section<'s>,
) -> Result<Names, Memory> {
    let mut walk = walk_of(alloc, tokens, section)?;
    walk.set_numbers(alloc, section)?;
    if walk.is_refused {
        return Err(Memory);
    }
    walk.names.is_parsed = true;
    Ok(walk.names)
}

/// The names of the first source; nothing if it can't be parsed. Returns `Memory` if an allocation fails.
pub fn names_of(alloc: Global, sources: &[Source<'_>]) -> Result<Names, Memory> {
    if sources.is_empty() {
        return Ok(Names::new(alloc));
    }
    let Ok(tokens) = lex(alloc, sources, 0) else {
        return Ok(Names::new(alloc));
    };
    let Ok(section) = parse(alloc, tokens.as_slice()) else {
        return Ok(Names::new(alloc));
    };
    names_in(alloc, tokens.as_slice(), &section)
}
