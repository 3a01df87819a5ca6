//! The error of resolving a section.
use std::alloc::{AllocError, AllocFailed};
use thiserror::Error;

/// Why a section can't be resolved. A name in it is a slice of the source.
#[derive(Clone, Copy, Debug, PartialEq, Eq, Error)]
pub enum ScopeError<'s> {
    /// The name isn't declared where it is used.
    #[error("a name is not declared")]
    Undeclared(&'s [u8]),
    /// The name occurs twice in one declaration, command list or parameter list.
    #[error("a name is declared twice")]
    DeclaredTwice(&'s [u8]),
    /// The name is a variable or label of an enclosing routine.
    #[error("a name belongs to an enclosing routine")]
    DynamicFree(&'s [u8]),
    /// An expression isn't constant where a constant is required.
    #[error("an expression is not constant")]
    NotConstant,
    /// The number of this global is over 511.
    #[error("a global number is greater than 511")]
    GlobalNumber(&'s [u8]),
    /// An expression without a cell is assigned to, or its address is taken. Only a variable, a static, a global, `!E` and
    /// `E1!E2` have a cell.
    #[error("an expression cannot be assigned to")]
    NotAssignable,
    /// A command, a label or a declaration of variables isn't allowed where it occurs.
    #[error("a command, label or variable is not allowed here")]
    Misplaced,
    /// A frame has more than 32,768 cells.
    #[error("a frame has more than 32,768 cells")]
    FrameTooLarge,
    /// Two cases of one SWITCHON have the same value, or it has two DEFAULTs.
    #[error("a case constant is repeated")]
    CaseTwice,
    /// The section has more than 8,000 routines, statics, tables and strings together.
    #[error("more than 8,000 routines, statics, tables and strings")]
    TooManyPlaces,
    /// An allocation failed.
    #[error("out of memory")]
    Memory,
}
