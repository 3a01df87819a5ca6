//! The errors of `build`.

ghost use Rattle.std.specs.Prelude.{◌≡◌, ◌⊎◌, Option, IfOk};
ghost use Rattle.bc_scope_defs.specs.Faults.{Fault};
ghost use Rattle.bc_scope_faults.specs.Judged.{IsFault};
ghost use Rattle.bc_build.specs.Refused.{IsScopeFault};
ghost use Rattle.bc_build.specs.Steps.{IsScopeRefusal};

use bc_gen::GenError;
use bc_lex::LexError;
use bc_link::LinkError;
use bc_parse::ParseError;
use bc_scope::ScopeError;
use bc_word::Memory;
use std::alloc::{AllocError, AllocFailed, Global};
use thiserror::Error;

/// A fault of a main's scopes. It is a `ScopeError` that owns the name, so it can outlive the section.
#[derive(Debug, Drop, PartialEq, Eq, Error)]
pub enum ScopeFault {
    /// The name is not in scope.
    #[error("undeclared name")]
    Undeclared(Vec<u8>),
    /// The name is declared twice in the same declaration, list or parameter list.
    #[error("name declared twice")]
    DeclaredTwice(Vec<u8>),
    /// The name is a variable or a label of an enclosing routine.
    #[error("name of a routine around this one")]
    DynamicFree(Vec<u8>),
    /// An expression that must be constant isn't.
    #[error("not a constant")]
    NotConstant,
    /// The name is declared as a global with a number over 511.
    #[error("global number over 511")]
    GlobalNumber(Vec<u8>),
    /// The left side of `:=` or the operand of `@` is not a cell.
    #[error("not assignable")]
    NotAssignable,
    /// A command or a declaration appears where it isn't allowed.
    #[error("misplaced")]
    Misplaced,
    /// A frame has an offset over 32,767.
    #[error("frame too large")]
    FrameTooLarge,
    /// A SWITCHON has two DEFAULTs or two CASEs of the same value.
    #[error("case twice")]
    CaseTwice,
    /// The section has more than 8,000 routines, statics, tables and strings.
    #[error("too many places")]
    TooManyPlaces,
    /// An allocation failed.
    #[error("out of memory")]
    Memory,
}

/// Why a program was not built. The `usize` is the index of the refused main in `sources`.
#[derive(Debug, Drop, PartialEq, Eq, Error)]
pub enum BuildError {
    /// The text of a main has no tokens: the lexer refused it.
    #[error("source {0}: {1}")]
    Lex(usize, LexError),
    /// The tokens of a main are not those of a section: the parser refused them.
    #[error("source {0}: {1}")]
    Parse(usize, ParseError),
    /// The scopes of a main have a fault: the resolver refused the section.
    #[error("source {0}: {1}")]
    Scope(usize, ScopeFault),
    /// No code was generated for a main: it takes more than 20,000 labels, or memory ran out.
    #[error("source {0}: {1}")]
    Gen(usize, GenError),
    /// The linker refused the segments: a global is set twice, they are too large, or memory ran out. It is never for a label.
    #[error("{0}")]
    Link(LinkError),
    /// An allocation failed.
    #[error("out of memory")]
    Memory,
}

impl From<Memory> for BuildError {
    ghost use Rattle.bc_build.specs.declared.build_error.BuildError.TheVariants as faults;

    ghost from_gives = { λ _ e. e ≡ faults.Memory };

    fn from(_refused: Memory) -> BuildError {
        BuildError::Memory
    }
}

impl From<AllocError> for BuildError {
    ghost use Rattle.bc_build.specs.declared.build_error.BuildError.TheVariants as faults;

    ghost from_gives = { λ _ e. e ≡ faults.Memory };

    fn from(_refused: AllocError) -> BuildError {
        BuildError::Memory
    }
}

impl<T: Drop> From<AllocFailed<T>> for BuildError {
    ghost use Rattle.bc_build.specs.declared.build_error.BuildError.TheVariants as faults;

    ghost from_gives = { λ _ e. e ≡ faults.Memory };

    fn from(_refused: AllocFailed<T>) -> BuildError {
        BuildError::Memory
    }
}

/// Copies the name of a scope fault, so that the fault owns it.
fn owned(alloc: Global, fault: ScopeError<'_>) -> Result<ScopeFault, AllocError>
    ensures { (due : Option Fault) → IsFault fault.entry due → IfOk result (IsScopeFault due) }
{
    Ok(match fault {
        ScopeError::Undeclared(name) => ScopeFault::Undeclared(Vec::from_slice(alloc, name)?),
        ScopeError::DeclaredTwice(name) => ScopeFault::DeclaredTwice(Vec::from_slice(alloc, name)?),
        ScopeError::DynamicFree(name) => ScopeFault::DynamicFree(Vec::from_slice(alloc, name)?),
        ScopeError::NotConstant => ScopeFault::NotConstant,
        ScopeError::GlobalNumber(name) => ScopeFault::GlobalNumber(Vec::from_slice(alloc, name)?),
        ScopeError::NotAssignable => ScopeFault::NotAssignable,
        ScopeError::Misplaced => ScopeFault::Misplaced,
        ScopeError::FrameTooLarge => ScopeFault::FrameTooLarge,
        ScopeError::CaseTwice => ScopeFault::CaseTwice,
        ScopeError::TooManyPlaces => ScopeFault::TooManyPlaces,
        ScopeError::Memory => ScopeFault::Memory,
    })
}

/// The refusal of a main for this fault of its scopes, or `Memory` if the name can't be copied.
pub fn scope_refusal(alloc: Global, main: usize, fault: ScopeError<'_>) -> BuildError
    ensures { (due : Option Fault) → IsFault fault.entry due → IsScopeRefusal main due result }
{
    match owned(alloc, fault) {
        Ok(fault) => BuildError::Scope(main, fault),
        Err(_) => BuildError::Memory,
    }
}
