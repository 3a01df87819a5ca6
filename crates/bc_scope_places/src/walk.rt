//! The state of a walk over a section's trees in text order, which checks as `bc_scope_faults` does, and counts leaves. The walk
//! itself is in `declarations.rt`, `lists.rt`, `commands.rt` and `expressions.rt`.

ghost use Rattle.std.specs.Prelude.{◌<◌, length, IfSome};

use crate::leaves::Leaves;
use crate::record::{Record, Sites};
use bc_scope_names::{Scope, ScopeError, ScopeMark};
use bc_word::Memory;
use indexmap::IndexMap;
use std::alloc::{AllocError, AllocFailed, Global};

/// Further information on a fault, by leaves.
#[derive(Clone, Copy)]
pub enum Beside {
    /// Nothing more.
    Nothing,
    /// The first of two.
    First(Leaves),
    /// The declaration of the variable or label.
    Declared(Leaves),
    /// The number of the global.
    Number(u16),
    /// The number of cells in the routine's frame.
    Cells(u64),
    /// The number of routines, statics, tables and strings.
    Places(u64),
}

/// A fault, and where it is.
#[derive(Clone, Copy)]
pub struct Found<'s> {
    /// The fault.
    pub fault: ScopeError<'s>,
    /// The construct that has it.
    pub at: Leaves,
    /// Further information.
    pub beside: Beside,
}

/// Why a walk ended before the section did.
#[derive(Clone, Copy)]
pub enum End {
    /// It found a fault, which `Walk::found` returns.
    Found,
    /// An allocation failed.
    Memory,
}

impl From<Memory> for End {
    fn from(_refused: Memory) -> End {
        End::Memory
    }
}

impl From<AllocError> for End {
    fn from(_refused: AllocError) -> End {
        End::Memory
    }
}

impl<T: Drop> From<AllocFailed<T>> for End {
    fn from(_refused: AllocFailed<T>) -> End {
        End::Memory
    }
}

/// A variable or label in scope, and the leaf of its declaration once the walk has met it.
#[derive(Clone, Copy)]
struct DeclaredName<'s> {
    name: &'s [u8],
    leaf: Option<u64>,
}

/// A use of an enclosing routine's variable or label before its declaration: the leaf of the use, and the index in `known` of what
/// is declared.
#[derive(Clone, Copy)]
struct Awaited<'s> {
    name: &'s [u8],
    leaf: u64,
    declared: usize,
}

/// A routine whose frame is too large: the leaf of its name, and the number of cells.
#[derive(Clone, Copy)]
struct Large {
    leaf: u64,
    cells: u64,
}

/// A state to which `leave` can return.
#[derive(Clone, Copy)]
pub struct Back {
    scope: ScopeMark,
    known: usize,
    variables: usize,
}

/// A walk over a section.
#[derive(Drop)]
pub struct PlaceWalk<'s> {
    /// The allocator.
    pub alloc: Global,
    /// The names in scope.
    pub scope: Scope<'s>,
    /// The number of leaves up to here.
    pub leaves: u64,
    /// The variables and labels in scope, oldest first.
    known: Vec<DeclaredName<'s>>,
    /// The fault by which the walk ended.
    found: Option<Found<'s>>,
    /// A `DynamicFree` fault whose declaration comes later. While it is set, other faults are ignored: the walk only goes on to find
    /// the declaration.
    awaited: Option<Awaited<'s>>,
    /// The first routine in text order whose frame is too large.
    large: Option<Large>,
    /// The number of routines, statics, tables and strings up to here.
    places: u64,
    /// The leaf of place number 8,001.
    one_too_many: Option<u64>,
    /// The record of parts.
    pub(crate) record: Record,
}

impl<'s> PlaceWalk<'s> {
    /// A walk at the start of a section.
    pub fn new(alloc: Global) -> PlaceWalk<'s> {
        PlaceWalk {
            alloc,
            scope: Scope::new(alloc),
            leaves: 0,
            known: Vec::new(alloc),
            found: None,
            awaited: None,
            large: None,
            places: 0,
            one_too_many: None,
            record: Record::new(alloc),
        }
    }

    /// The parts that the walk recorded.
    pub(crate) fn into_sites(self) -> Sites {
        let PlaceWalk { record, .. } = self;
        let Record { sites, .. } = record;
        sites
    }

    /// Counts a leaf, and returns its number.
    pub fn leaf(&mut self) -> u64 {
        let leaf = self.leaves;
        self.leaves = leaf.saturating_add(1);
        leaf
    }

    /// The last leaf counted, but at least `first`.
    pub fn last(&self, first: u64) -> u64 {
        first.max(self.leaves.saturating_sub(1))
    }

    /// The current state, to which `leave` can return.
    pub fn mark(&self) -> Back {
        Back {
            scope: self.scope.mark(),
            known: self.known.len(),
            variables: self.record.sites.variables.len(),
        }
    }

    /// Takes back the names that were added since `back`, and ends the scope of variables that were recorded since.
    pub fn leave(&mut self, back: Back) {
        self.scope.leave(back.scope);
        self.known.truncate(back.known);
        self.record.leave(back.variables);
    }

    /// The fault that ended the walk, if one did.
    pub fn found(&self) -> Option<Found<'s>> {
        self.found
    }

    /// Ends the walk with this fault.
    fn end(&mut self, fault: ScopeError<'s>, at: Leaves, beside: Beside) -> Result<(), End> {
        self.found = Some(Found { fault, at, beside });
        Err(End::Found)
    }

    /// Ends the walk with this fault, unless an earlier fault still waits for a declaration.
    pub fn stop(&mut self, fault: ScopeError<'s>, at: Leaves, beside: Beside) -> Result<(), End> {
        match self.awaited {
            Some(_) => Ok(()),
            None => self.end(fault, at, beside),
        }
    }

    /// Continues with the result of checking the name at this leaf.
    pub fn judged(&mut self, answer: Result<(), ScopeError<'s>>, leaf: u64) -> Result<(), End> {
        match answer {
            Ok(()) => Ok(()),
            Err(ScopeError::Memory) => Err(End::Memory),
            Err(ScopeError::DynamicFree(name)) => self.of_another(name, leaf),
            Err(fault) => self.stop(fault, Leaves::one(leaf), Beside::Nothing),
        }
    }

    /// Handles a name of an enclosing routine: the walk ends here if it has met the declaration, and else when it meets it.
    fn of_another(&mut self, name: &'s [u8], leaf: u64) -> Result<(), End> {
        let Some(declared) = self.newest(name) else {
            return self.not_free(name, leaf, Beside::Nothing);
        };
        match self.known[declared].leaf {
            Some(first) => self.not_free(name, leaf, Beside::Declared(Leaves::one(first))),
            None => {
                self.wait(name, leaf, declared);
                Ok(())
            }
        }
    }

    /// Ends the walk with `DynamicFree` for the name at this leaf.
    fn not_free(&mut self, name: &'s [u8], leaf: u64, beside: Beside) -> Result<(), End> {
        self.stop(ScopeError::DynamicFree(name), Leaves::one(leaf), beside)
    }

    /// Makes the name at this leaf wait for its declaration, unless an earlier fault already waits.
    fn wait(&mut self, name: &'s [u8], leaf: u64, declared: usize) {
        if self.awaited.is_none() {
            self.awaited = Some(Awaited {
                name,
                leaf,
                declared,
            });
        }
    }

    /// The index in `known` of the newest variable or label with this name.
    fn newest(&self, name: &[u8]) -> Option<usize>
        ensures { IfSome result (λ i. i < length self.now.known.items) }
    {
        let count = self.known.len();
        for back in 0..count {
            let i = count - 1 - back;
            if self.known[i].name == name {
                return Some(i);
            }
        }
        None
    }

    /// The number of variables and labels in scope.
    pub fn known(&self) -> usize {
        self.known.len()
    }

    /// Adds a variable or label whose declaration the walk hasn't met yet. Fails with `Memory` when an allocation fails.
    pub fn know(&mut self, name: &'s [u8]) -> Result<(), Memory> {
        Ok(self.known.push(DeclaredName { name, leaf: None })?)
    }

    /// Adds a variable declared at this leaf. Fails with `Memory` when an allocation fails.
    pub fn know_at(&mut self, name: &'s [u8], leaf: u64) -> Result<(), Memory> {
        Ok(
            self.known.push(DeclaredName {
                name,
                leaf: Some(leaf),
            })?,
        )
    }

    /// Records that the variable or label with this index in `known` is declared at this leaf. If a fault waits for it, that ends
    /// the walk.
    pub fn declared_at(&mut self, place: usize, leaf: u64) -> Result<(), End> {
        if place < self.known.len() {
            self.known[place].leaf = Some(leaf);
        }
        match self.awaited {
            Some(awaited) if awaited.declared == place => self.end(
                ScopeError::DynamicFree(awaited.name),
                Leaves::one(awaited.leaf),
                Beside::Declared(Leaves::one(leaf)),
            ),
            _ => Ok(()),
        }
    }

    /// Adds a name to those that must differ, with its leaf. A name that is already there ends the walk.
    pub fn once(
        &mut self,
        before: &mut IndexMap<&'s [u8], u64>,
        name: &'s [u8],
        leaf: u64,
    ) -> Result<(), End> {
        match before.insert(name, leaf)? {
            Some(first) => self.stop(
                ScopeError::DeclaredTwice(name),
                Leaves::one(leaf),
                Beside::First(Leaves::one(first)),
            ),
            None => Ok(()),
        }
    }

    /// Counts and records a place at this leaf. Fails with `Memory` when an allocation fails.
    pub fn place(&mut self, leaf: u64) -> Result<(), Memory> {
        self.record.sites.labels.push(leaf)?;
        self.places = self.places.saturating_add(1);
        if self.places == 8001 {
            self.one_too_many = Some(leaf);
        }
        Ok(())
    }

    /// Checks the frame size of the routine whose name is this leaf.
    pub fn frame(&mut self, leaf: u64, cells: u64) {
        if cells <= 32768 {
            return;
        }
        let is_first = match self.large {
            Some(other) => leaf < other.leaf,
            None => true,
        };
        if is_first {
            self.large = Some(Large { leaf, cells });
        }
    }

    /// The fault of a whole section, after a walk that found none in its parts.
    pub fn of_whole(&self) -> Option<Found<'s>> {
        if let Some(large) = self.large {
            return Some(Found {
                fault: ScopeError::FrameTooLarge,
                at: Leaves::one(large.leaf),
                beside: Beside::Cells(large.cells),
            });
        }
        match self.one_too_many {
            Some(leaf) => Some(Found {
                fault: ScopeError::TooManyPlaces,
                at: Leaves::one(leaf),
                beside: Beside::Places(self.places),
            }),
            None => None,
        }
    }
}
