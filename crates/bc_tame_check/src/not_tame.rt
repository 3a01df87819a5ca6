//! Why sections are not known to be tame, and where.
use crate::held::TooLarge;
use bc_word::Memory;
use std::alloc::{AllocError, AllocFailed};
use thiserror::Error;

/// A body that has its own code.
#[derive(Clone, Copy, Debug)]
pub enum BodyOf {
    /// The body of the routine with this label, counted from 1.
    Routine(usize),
    /// The body of the VALOF with this number, counted from 0.
    Valof(usize),
}

/// A routine of the program.
#[derive(Clone, Copy, Debug)]
pub struct RoutineAt {
    /// The index of its section, among those that are checked.
    pub section: usize,
    /// Its label there, counted from 1.
    pub label: usize,
}

/// A place in the text: a whole expression, test or assignment of a body.
#[derive(Clone, Copy, Debug)]
pub struct Spot {
    /// The index of the section, among those that are checked.
    pub section: usize,
    /// The body.
    pub body: BodyOf,
    /// How many whole expressions, tests and assignments of this body come before it, in the order of its code.
    pub before: usize,
}

/// What the check can't accept.
#[derive(Clone, Copy, Debug)]
pub enum Cause {
    /// A cell that no variable, static or global names is read or written, as by `!`, and it isn't one of a vector or table that is known.
    Indirection,
    /// The address of a routine or static is used as a value, or that of a table without words.
    Address,
    /// A call whose routine is neither one of the program's, by its name or global, nor one of the library that the check knows.
    Call,
    /// A call with more or fewer arguments than the routine has parameters.
    Arguments,
    /// A library routine that takes strings, with something else than a string that is known and what its format takes.
    Format,
    /// A routine that calls itself, directly or through others.
    Recursion,
    /// A global that holds a routine of the library is assigned.
    LibraryGlobal,
    /// A routine sets a global of the library, or one that another routine sets.
    OwnGlobal,
    /// A TABLE. `tame_rooms` never returns this.
    Table,
    /// No section has a START without parameters.
    NoStart,
    /// The image leaves too few cells for the stack.
    Stack,
    /// The routines need more cells than the store has, or the text nests too deep.
    Size,
    /// There is no main, or the first one isn't source 1, BLIB. `tame_rooms` never returns this.
    Sections,
    /// A global that holds a routine of the program is assigned.
    RoutineGlobal,
    /// An index of a vector or table may be outside of it.
    Index,
    /// A cell of a vector is used that may be unset, or one is assigned that holds a string.
    Unset,
}

/// Why no answer of yes was found.
#[derive(Clone, Copy, Debug, Error)]
pub enum NotTame {
    /// The check can't accept what is at this place. This means only that the answer isn't known.
    #[error("not known to be tame")]
    Unknown(Cause, Spot),
    /// This routine must be checked first. `tame_rooms` never returns this.
    #[error("unchecked routine")]
    Unchecked(RoutineAt, Spot),
    /// An allocation failed.
    #[error("out of memory")]
    Memory,
}

impl From<Memory> for NotTame {
    fn from(_refused: Memory) -> NotTame {
        NotTame::Memory
    }
}

impl From<TooLarge> for NotTame {
    // No text that fits into memory has so large offsets.
    fn from(_number: TooLarge) -> NotTame {
        NotTame::Memory
    }
}

impl From<AllocError> for NotTame {
    fn from(_refused: AllocError) -> NotTame {
        NotTame::Memory
    }
}

impl<T: Drop> From<AllocFailed<T>> for NotTame {
    fn from(_refused: AllocFailed<T>) -> NotTame {
        NotTame::Memory
    }
}
