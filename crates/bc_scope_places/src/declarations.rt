//! The walk over declarations. Functions that return a number return the frame size that a part needs, in cells, unless they say
//! otherwise; all fail with `End` if the walk ends.
use crate::leaves::Leaves;
use crate::record::GlobalSite;
use crate::walk::{Beside, End, PlaceWalk};
use bc_parse_tree::{Block, Constant, Declaration, Definition, Exp, Storage};
use bc_scope_faults::{Allowed, CommandContext, Extent, check_entry};
use bc_scope_names::{
    Meant, Numbers, ScopeError, constant, declare_entry, declare_let, declare_parameters,
    declare_pending, priors_of_let,
};
use bc_word::Memory;
use indexmap::IndexMap;

/// The state of a walk in a LET: the names up to here with their leaves, and the index in `Walk::known` of its next variable.
#[derive(Drop)]
struct OfLet<'s> {
    before: IndexMap<&'s [u8], u64>,
    next: usize,
}

impl<'s> PlaceWalk<'s> {
    /// Walks declarations, each with the names of those before it in scope, and adds their names. Returns what they take of their
    /// frame.
    #[cycle(places)]
    pub fn declarations(&mut self, list: &[Declaration<'s>], level: u64) -> Result<Extent, End> {
        let mut all = Extent { level, width: 0 };
        for tree in list {
            let own = self.declaration(tree, all.level)?;
            all = Extent {
                level: own.level,
                width: all.width.max(own.width),
            };
        }
        Ok(all)
    }

    /// One declaration.
    #[cycle(places)]
    fn declaration(&mut self, tree: &Declaration<'s>, level: u64) -> Result<Extent, End> {
        match tree {
            Declaration::Constants(storage, list) => {
                self.entries(*storage, list)?;
                Ok(Extent { level, width: 0 })
            }
            Declaration::Let(list) => self.definitions(list, level),
        }
    }

    /// A MANIFEST, STATIC or GLOBAL.
    #[cycle(places)]
    fn entries(&mut self, storage: Storage, list: &[Constant<'s>]) -> Result<(), End> {
        declare_pending(&mut self.scope, storage, list)?;
        let mut before = IndexMap::new(self.alloc);
        self.listed_entries(&mut before, storage, list)
    }

    /// The entries of a MANIFEST, STATIC or GLOBAL, whose names must differ from those in `before`.
    #[cycle(places)]
    fn listed_entries(
        &mut self,
        before: &mut IndexMap<&'s [u8], u64>,
        storage: Storage,
        list: &[Constant<'s>],
    ) -> Result<(), End> {
        for entry in list {
            let leaf = self.leaf();
            self.once(before, entry.name, leaf)?;
            let _at = self.constant(&entry.value)?;
            self.declared(storage, entry, leaf)?;
        }
        Ok(())
    }

    /// Checks an entry whose value was walked, and adds its name, which is at this leaf.
    fn declared(&mut self, storage: Storage, entry: &Constant<'s>, leaf: u64) -> Result<(), End> {
        let answer = check_entry(&self.scope, storage, entry.name, &entry.value);
        if let Err(fault) = answer {
            let number = constant(&self.scope, &entry.value).get();
            self.stop(fault, Leaves::one(leaf), Beside::Number(number))?;
        }
        declare_entry(&mut self.scope, storage, Numbers::start(), entry)?;
        Ok(self.note_entry(storage, &entry.value, leaf)?)
    }

    /// Records a static or a global.
    fn note_entry(&mut self, storage: Storage, value: &Exp<'s>, leaf: u64) -> Result<(), Memory> {
        match storage {
            Storage::Static => self.place(leaf),
            Storage::Global => {
                let number = constant(&self.scope, value).get();
                Ok(self.record.sites.globals.push(GlobalSite { number, leaf })?)
            }
            Storage::Manifest => Ok(()),
        }
    }

    /// A LET.
    #[cycle(places)]
    fn definitions(&mut self, list: &[Definition<'s>], level: u64) -> Result<Extent, End> {
        let level = self.declared_let(list, level)?;
        let next = self.known();
        self.know_variables(list)?;
        let mut of_let = OfLet {
            before: IndexMap::new(self.alloc),
            next,
        };
        let width = self.defined(&mut of_let, list, level)?;
        Ok(Extent { level, width })
    }

    /// Adds the names of a LET to the scope. Returns the level after its cells.
    fn declared_let(&mut self, list: &[Definition<'s>], level: u64) -> Result<u64, End> {
        let priors = priors_of_let(&mut self.scope, list)?;
        Ok(declare_let(&mut self.scope, &priors, Numbers::start(), level, list)?)
    }

    /// The definitions of a LET whose names are already in scope.
    #[cycle(places)]
    fn defined(
        &mut self,
        of_let: &mut OfLet<'s>,
        list: &[Definition<'s>],
        level: u64,
    ) -> Result<u64, End> {
        let mut width = level;
        for tree in list {
            width = width.max(self.definition(of_let, tree, level)?);
        }
        Ok(width)
    }

    /// Adds the variables of a LET to `Walk::known`, before the walk has met their declarations.
    fn know_variables(&mut self, list: &[Definition<'s>]) -> Result<(), End> {
        for tree in list {
            match tree {
                Definition::Variables(names, _) => self.know_all(names)?,
                Definition::Vector(name, _) => self.know(name)?,
                Definition::Function(_, _, _) | Definition::Routine(_, _, _) => {}
            }
        }
        Ok(())
    }

    /// Adds variables of one definition.
    fn know_all(&mut self, names: &[&'s [u8]]) -> Result<(), Memory> {
        for name in names {
            self.know(name)?;
        }
        Ok(())
    }

    /// Meets the declaration of a variable. Returns its leaf.
    fn variable(&mut self, of_let: &mut OfLet<'s>, name: &'s [u8]) -> Result<u64, End> {
        let leaf = self.leaf();
        self.once(&mut of_let.before, name, leaf)?;
        self.declared_at(of_let.next, leaf)?;
        of_let.next = of_let.next.saturating_add(1);
        Ok(leaf)
    }

    /// Records a variable with this number of cells.
    fn note(&mut self, name: &'s [u8], cells: u64, leaf: u64) -> Result<(), End> {
        if let Meant::Variable(offset) = self.scope.meant_by(name) {
            self.record.variable(offset, cells, leaf)?;
        }
        Ok(())
    }

    /// Meets the name of a routine. Returns its leaf.
    fn routine_name(&mut self, of_let: &mut OfLet<'s>, name: &'s [u8]) -> Result<u64, End> {
        let leaf = self.leaf();
        self.once(&mut of_let.before, name, leaf)?;
        self.place(leaf)?;
        Ok(leaf)
    }

    /// Reports `Misplaced` for variables outside routines.
    fn inside(&mut self, at: Leaves) -> Result<(), End> {
        if self.scope.is_inside() {
            Ok(())
        } else {
            self.stop(ScopeError::Misplaced, at, Beside::Nothing)
        }
    }

    /// One definition of a LET, at the level after the LET's cells.
    #[cycle(places)]
    fn definition(
        &mut self,
        of_let: &mut OfLet<'s>,
        tree: &Definition<'s>,
        level: u64,
    ) -> Result<u64, End> {
        match tree {
            Definition::Variables(names, values) => self.variables(of_let, names, values, level),
            Definition::Vector(name, greatest) => self.vector(of_let, name, greatest),
            Definition::Function(name, parameters, value) => {
                let leaf = self.routine_name(of_let, name)?;
                self.function(leaf, parameters, value)
            }
            Definition::Routine(name, parameters, body) => {
                let leaf = self.routine_name(of_let, name)?;
                self.routine(leaf, parameters, body)
            }
        }
    }

    /// Variables with their initial values.
    #[cycle(places)]
    fn variables(
        &mut self,
        of_let: &mut OfLet<'s>,
        names: &[&'s [u8]],
        values: &[Exp<'s>],
        level: u64,
    ) -> Result<u64, End> {
        let first = self.leaves;
        self.cells(of_let, names)?;
        let at = Leaves::words(first, self.last(first));
        let width = self.initials(values, level)?;
        self.inside(at)?;
        Ok(width)
    }

    /// Meets the declarations of these variables, which have one cell each.
    fn cells(&mut self, of_let: &mut OfLet<'s>, names: &[&'s [u8]]) -> Result<(), End> {
        for name in names {
            let leaf = self.variable(of_let, name)?;
            self.note(name, 1, leaf)?;
        }
        Ok(())
    }

    /// A vector.
    #[cycle(places)]
    fn vector(
        &mut self,
        of_let: &mut OfLet<'s>,
        name: &'s [u8],
        greatest: &Exp<'s>,
    ) -> Result<u64, End> {
        let leaf = self.variable(of_let, name)?;
        let _word = self.leaf();
        let _at = self.constant(greatest)?;
        self.note_vector(name, greatest, leaf)?;
        Ok(0)
    }

    /// Records the cells of a vector, and reports one outside routines.
    fn note_vector(&mut self, name: &'s [u8], greatest: &Exp<'s>, leaf: u64) -> Result<(), End> {
        let cells = u64::from(constant(&self.scope, greatest).get()).saturating_add(2);
        self.note(name, cells, leaf)?;
        self.inside(Leaves::one(leaf))
    }

    /// Adds the parameters of a routine. Returns the level after them.
    fn parameters(&mut self, names: &[&'s [u8]]) -> Result<u64, End> {
        declare_parameters(&mut self.scope, names)?;
        let mut before = IndexMap::new(self.alloc);
        let mut offset = 2u64;
        for name in names {
            let leaf = self.leaf();
            self.once(&mut before, name, leaf)?;
            self.known_cell(name, leaf, offset)?;
            offset = offset.saturating_add(1);
        }
        Ok((names.len() as u64).saturating_add(2))
    }

    /// Adds and records a variable of one cell, declared at this leaf.
    pub fn known_cell(&mut self, name: &'s [u8], leaf: u64, offset: u64) -> Result<(), Memory> {
        self.know_at(name, leaf)?;
        self.record.variable(offset, 1, leaf)
    }

    /// A routine that is an expression, after its name at `leaf`. It takes no cells of the frame around it.
    #[cycle(places)]
    fn function(
        &mut self,
        leaf: u64,
        parameters: &[&'s [u8]],
        value: &Exp<'s>,
    ) -> Result<u64, End> {
        let mark = self.mark();
        let outside = self.record.into_routine();
        let level = self.parameters(parameters)?;
        let width = self.rooted(value, level)?;
        self.leave(mark);
        self.record.back(outside);
        self.frame(leaf, level.max(width));
        Ok(0)
    }

    /// A routine that is a block, after its name at `leaf`. It takes no cells of the frame around it.
    #[cycle(places)]
    fn routine(
        &mut self,
        leaf: u64,
        parameters: &[&'s [u8]],
        body: &Block<'s>,
    ) -> Result<u64, End> {
        let mark = self.mark();
        let outside = self.record.into_routine();
        let level = self.parameters(parameters)?;
        let context = CommandContext {
            allowed: Allowed::routine(),
            level,
        };
        let width = self.block(context, body)?;
        self.leave(mark);
        self.record.back(outside);
        self.frame(leaf, level.max(width));
        Ok(0)
    }
}
