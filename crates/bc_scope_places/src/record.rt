//! The record that a walk makes beside faults: where each expression, test, assignment, variable, global and place is.

use bc_word::Memory;
use std::alloc::Global;

/// A body that has its own code.
#[derive(Clone, Copy, PartialEq, Eq)]
pub enum BodyOf {
    /// The body of the routine with this label.
    Routine(u64),
    /// The body of the VALOF with this number.
    Valof(u64),
}

/// Where a root (a whole expression, test or assignment) is.
#[derive(Clone, Copy)]
pub struct RootSite {
    /// The body that contains it.
    pub body: BodyOf,
    /// The first leaf of it.
    pub leaf: u64,
}

/// A variable, parameter or FOR variable, and the roots in its scope.
#[derive(Clone, Copy)]
pub struct VariableSite {
    /// The label of the routine in whose frame it is.
    pub routine: u64,
    /// Its offset in the frame.
    pub offset: u64,
    /// The number of cells that it takes, with those of its vector if it has one.
    pub cells: u64,
    /// The leaf of its name.
    pub leaf: u64,
    /// The index of the first root after its declaration.
    pub from: usize,
    /// The index after the last root in its scope; `usize::MAX` while the walk is in that scope.
    pub to: usize,
}

/// A declared name of a global.
#[derive(Clone, Copy)]
pub struct GlobalSite {
    /// The number of the global.
    pub number: u16,
    /// The leaf of the name.
    pub leaf: u64,
}

/// Where the parts of a section are, by leaves.
#[derive(Drop)]
pub struct Sites {
    /// All roots in text order. Those of one body are in the order of its code.
    pub roots: Vec<RootSite>,
    /// All variables, in the order of their declarations.
    pub variables: Vec<VariableSite>,
    /// All names of globals, in the order of their declarations.
    pub globals: Vec<GlobalSite>,
    /// The leaf of each place, in the order of labels from 1: of the name of a routine or static, of the word TABLE, of a string.
    pub labels: Vec<u64>,
}

impl Sites {
    /// No parts yet.
    pub(crate) fn new(alloc: Global) -> Sites {
        Sites {
            roots: Vec::new(alloc),
            variables: Vec::new(alloc),
            globals: Vec::new(alloc),
            labels: Vec::new(alloc),
        }
    }

    /// The index of the root of `body` that is followed by exactly `following` roots of the same body.
    pub fn root(&self, body: BodyOf, following: u64) -> Option<usize> {
        let mut left = following;
        for (index, site) in self.roots.iter().enumerate().rev() {
            if site.body == body {
                if left == 0 {
                    return Some(index);
                }
                left -= 1;
            }
        }
        None
    }

    /// The newest variable to which the cell at `offset` in the frame of `routine` belongs, among those in scope at the root with index
    /// `root`; among all variables of the routine, without `root`.
    pub fn variable(&self, routine: u64, offset: u64, root: Option<usize>) -> Option<VariableSite> {
        for site in self.variables.iter().rev() {
            let is_there = match root {
                Some(root) => site.from <= root && root < site.to,
                None => true,
            };
            if site.routine == routine
                && is_there
                && site.offset <= offset
                && offset - site.offset < site.cells
            {
                return Some(*site);
            }
        }
        None
    }

    /// The leaf of the place with this label, counted from 1.
    pub fn label(&self, label: u64) -> Option<u64> {
        self.labels.get(label.checked_sub(1)? as usize).copied()
    }
}

/// The record of a walk up to here, and where the walk is.
#[derive(Drop)]
pub(crate) struct Record {
    /// The parts found up to here.
    pub sites: Sites,
    /// The body that the walk is in.
    pub body: BodyOf,
    /// The label of the innermost routine; 0 outside routines.
    pub routine: u64,
    /// The number of VALOFs up to here.
    pub valofs: u64,
}

/// Where a walk was before it entered a routine or VALOF.
#[derive(Clone, Copy)]
pub(crate) struct Outside {
    body: BodyOf,
    routine: u64,
}

impl Record {
    /// Nothing recorded, outside all routines.
    pub fn new(alloc: Global) -> Record {
        Record {
            sites: Sites::new(alloc),
            body: BodyOf::Routine(0),
            routine: 0,
            valofs: 0,
        }
    }

    /// Records a root that begins at this leaf. Fails with `Memory` when an allocation fails.
    pub fn root(&mut self, leaf: u64) -> Result<(), Memory> {
        Ok(
            self.sites.roots.push(RootSite {
                body: self.body,
                leaf,
            })?,
        )
    }

    /// Records a variable whose cells begin at `offset`. Fails with `Memory` when an allocation fails.
    pub fn variable(&mut self, offset: u64, cells: u64, leaf: u64) -> Result<(), Memory> {
        Ok(
            self.sites.variables.push(VariableSite {
                routine: self.routine,
                offset,
                cells,
                leaf,
                from: self.sites.roots.len(),
                to: usize::MAX,
            })?,
        )
    }

    /// Ends the scope of the variables with index `from` and above.
    pub fn leave(&mut self, from: usize) {
        let to = self.sites.roots.len();
        for site in self.sites.variables.iter_mut().skip(from) {
            if site.to == usize::MAX {
                site.to = to;
            }
        }
    }

    /// Enters the body of the newest routine. Returns where the walk was.
    pub fn into_routine(&mut self) -> Outside {
        let outside = Outside {
            body: self.body,
            routine: self.routine,
        };
        self.routine = self.sites.labels.len() as u64;
        self.body = BodyOf::Routine(self.routine);
        outside
    }

    /// Enters the body of the next VALOF. Returns where the walk was.
    pub fn into_valof(&mut self) -> Outside {
        let outside = Outside {
            body: self.body,
            routine: self.routine,
        };
        self.body = BodyOf::Valof(self.valofs);
        self.valofs = self.valofs.saturating_add(1);
        outside
    }

    /// Returns to where the walk was.
    pub fn back(&mut self, outside: Outside) {
        self.body = outside.body;
        self.routine = outside.routine;
    }
}
