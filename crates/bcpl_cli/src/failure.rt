//! Why a command failed: the first line of the message, further lines, and the exit status.

ghost use Rattle.std.specs.Prelude.{◌≡◌};
ghost use Rattle.bcpl_cli.specs.Statuses.{cause_status, unexplained};
ghost use Rattle.bcpl_cli.specs.declared.failure.Cause.TheVariants as causes;

use crate::escaped::Escaped;
use crate::refusals::{
    write_against, write_build, write_check, write_link, write_numbered, write_streams, write_text,
};
use bc_build::BuildError;
use bc_cert::{CheckFault, Mismatch};
use bc_link::LinkError;
use bc_machine::StreamsError;
use bc_machine_defs::End;
use bc_text::TextError;
use bc_word::Memory;
use std::alloc::{AllocError, AllocFailed, Global};
use std::{fmt, io};

/// An access that makes a run wild.
#[derive(Clone, Copy)]
pub enum Wild {
    /// A cell was read that was never set, at this address.
    Unset(u16),
    /// A cell was read that does not exist, at this address.
    Dead(u16),
    /// A cell was to be written that does not exist, at this address.
    NoCell(u16),
    /// The value that was called is not a routine.
    NotRoutine(u16),
    /// A routine was called whose frame, beginning at this address, would pass the end of the store.
    FrameTooLarge(u64),
}

/// An access that ends a strict run.
#[derive(Clone, Copy)]
pub enum Strict {
    /// The cell at this address was accessed, outside of the vector, table or string from whose start the index counts.
    Outside(u16),
    /// The global with this number was accessed through an address, and no source names it.
    NoGlobal(u16),
    /// A word of a string, at this address, was to be written.
    Constant(u16),
    /// The global with this number was read, and nothing had set it.
    UnsetGlobal(u16),
}

/// Why a command failed. Its `Display` text is what follows `bcpl: ` in the first line.
pub struct Failure {
    pub cause: Cause,
    /// Further lines of explanation, each ended by a line feed.
    pub explanation: Option<String>,
}

impl Drop for Failure {
    fn drop(self) {
        let Failure {
            cause: _,
            explanation: _,
        } = self;
    }
}

/// The cause of a failure.
#[derive(Drop)]
pub enum Cause {
    /// A text was refused.
    Text(TextError),
    /// A program was refused.
    Build(BuildError),
    /// The certificate was not written because memory ran out.
    Certificate,
    /// A certificate was refused.
    Check(CheckFault),
    /// The texts do not contain the certified code.
    Against(Mismatch),
    /// The segments could not be linked.
    Link(LinkError),
    /// The streams of a run were refused.
    Streams(StreamsError),
    /// The file with this path can't be opened, read or written, is too large, or must not be overwritten.
    File(String),
    /// A run ended in another way than by finishing.
    Ended(End),
    /// A run by the meaning was cut off.
    TurnsSpent,
    /// A run by the meaning met a wild cell.
    Wild(Wild),
    /// A strict run met an access that is probably a mistake.
    Strict(Strict),
    /// A program is not known to be tame, for the reason with this number and name.
    Tame(u32, String),
    /// This many things in an old source can't be converted automatically.
    ByHand(usize),
    /// This many sources are not laid out.
    NotLaidOut(usize),
    /// An allocation failed.
    Memory,
}

/// What is printed for an empty path, instead of a reason.
const NO_PATH: &str =
    "the path of this file is empty: an option or an argument that names a file is empty\n";

impl Failure {
    /// A failure without further lines.
    pub fn new(cause: Cause) -> Failure
        ensures { result ≡ unexplained cause }
    {
        Failure {
            cause,
            explanation: None,
        }
    }

    /// This failure with further lines.
    pub fn with(self, explanation: String) -> Failure
        ensures { result.cause ≡ self.cause }
    {
        let mut explained = self;
        explained.explanation = Some(explanation);
        explained
    }

    /// The failure of the file with this path, or of the standard stream with this name.
    pub fn file(alloc: Global, path: &str) -> Failure {
        match String::from_str(alloc, path) {
            Ok(path) => Failure::new(Cause::File(path)),
            Err(_) => Failure::new(Cause::Memory),
        }
    }

    /// The failure of the file with this path, for this reason.
    pub fn file_since(alloc: Global, path: &str, reason: &str) -> Failure {
        let shown = Escaped(path);
        let explanation = if path.is_empty() {
            format!(in alloc; "{NO_PATH}")
        } else {
            format!(in alloc; "{shown}: {reason}\n")
        };
        match explanation {
            Ok(explanation) => Failure::file(alloc, path).with(explanation),
            Err(_) => Failure::new(Cause::Memory),
        }
    }

    /// The failure of the file with this path after an I/O error. If that error is a failed allocation, the cause is
    /// `Memory`.
    pub fn io(alloc: Global, error: &io::Error, path: &str) -> Failure {
        if error.kind() == io::ErrorKind::OutOfMemory {
            return Failure::new(Cause::Memory);
        }
        match format!(in alloc; "{error}") {
            Ok(reason) => Failure::file_since(alloc, path, reason.as_str()),
            Err(_) => Failure::new(Cause::Memory),
        }
    }

    /// The exit status of the program: 1 or 2.
    pub fn status(&self) -> u8
        ensures { result ≡ cause_status self.now.cause }
    {
        match &self.cause {
            Cause::Ended(_) | Cause::TurnsSpent | Cause::Wild(_) | Cause::Strict(_) => 2,
            _ => 1,
        }
    }

    /// Whether the further lines are always printed, even if standard error is no terminal: for these causes the
    /// first line alone says too little.
    pub fn is_always_explained(&self) -> bool {
        matches!(
            &self.cause,
            Cause::ByHand(_)
                | Cause::Tame(_, _)
                | Cause::Wild(_)
                | Cause::Strict(_)
                | Cause::TurnsSpent
                | Cause::Ended(_)
        )
    }

    /// The further lines, each ended by a line feed, or an empty string.
    pub fn explanation(&self) -> &str {
        match &self.explanation {
            Some(explanation) => explanation.as_str(),
            None => "",
        }
    }
}

impl From<Memory> for Failure {
    ghost from_gives = { λ _ f. f ≡ unexplained causes.Memory };

    fn from(_refused: Memory) -> Self {
        Failure::new(Cause::Memory)
    }
}

impl From<AllocError> for Failure {
    ghost from_gives = { λ _ f. f ≡ unexplained causes.Memory };

    fn from(_refused: AllocError) -> Self {
        Failure::new(Cause::Memory)
    }
}

impl<T: Drop> From<AllocFailed<T>> for Failure {
    ghost from_gives = { λ _ f. f ≡ unexplained causes.Memory };

    fn from(_refused: AllocFailed<T>) -> Self {
        Failure::new(Cause::Memory)
    }
}

impl From<TextError> for Failure {
    ghost from_gives = { λ fault f. f ≡ unexplained (causes.Text fault) };

    fn from(fault: TextError) -> Self {
        Failure::new(Cause::Text(fault))
    }
}

impl From<LinkError> for Failure {
    ghost from_gives = { λ fault f. f ≡ unexplained (causes.Link fault) };

    fn from(fault: LinkError) -> Self {
        Failure::new(Cause::Link(fault))
    }
}

impl From<StreamsError> for Failure {
    ghost from_gives = { λ fault f. f ≡ unexplained (causes.Streams fault) };

    fn from(fault: StreamsError) -> Self {
        Failure::new(Cause::Streams(fault))
    }
}

/// Prints how a run ended.
fn write_end<W: fmt::Write>(f: &mut fmt::Formatter<W>, end: End) -> fmt::Result {
    match end {
        End::Finished => f.write_str("ended Finished"),
        End::ZeroDivide => f.write_str("ended ZeroDivide"),
        End::BadInstruction(address) => {
            write_numbered(f, "ended BadInstruction", u64::from(address.get()))
        }
        End::BudgetSpent => f.write_str("ended BudgetSpent"),
        End::Device => f.write_str("ended Device"),
    }
}

/// Prints a wild access.
fn write_wild<W: fmt::Write>(f: &mut fmt::Formatter<W>, wild: Wild) -> fmt::Result {
    match wild {
        Wild::Unset(address) => write_numbered(f, "wild 1 Unset", u64::from(address)),
        Wild::Dead(address) => write_numbered(f, "wild 2 Dead", u64::from(address)),
        Wild::NoCell(address) => write_numbered(f, "wild 3 NoCell", u64::from(address)),
        Wild::NotRoutine(value) => write_numbered(f, "wild 4 NotRoutine", u64::from(value)),
        Wild::FrameTooLarge(cell) => write_numbered(f, "wild 5 FrameTooLarge", cell),
    }
}

/// Prints an access that ends a strict run.
fn write_strict<W: fmt::Write>(f: &mut fmt::Formatter<W>, strict: Strict) -> fmt::Result {
    match strict {
        Strict::Outside(address) => write_numbered(f, "strict 1 Outside", u64::from(address)),
        Strict::NoGlobal(number) => write_numbered(f, "strict 2 NoGlobal", u64::from(number)),
        Strict::Constant(address) => write_numbered(f, "strict 3 Constant", u64::from(address)),
        Strict::UnsetGlobal(number) => {
            write_numbered(f, "strict 4 UnsetGlobal", u64::from(number))
        }
    }
}

/// The first line of a refused build, without `bcpl: `.
#[derive(Clone, Copy)]
pub struct BuildLine<'a>(pub &'a BuildError);

impl fmt::Display for BuildLine<'_> {
    fn fmt<W: fmt::Write>(&self, f: &mut fmt::Formatter<W>) -> fmt::Result {
        write_build(f, self.0)
    }
}

impl fmt::Display for Failure {
    fn fmt<W: fmt::Write>(&self, f: &mut fmt::Formatter<W>) -> fmt::Result {
        match &self.cause {
            Cause::Text(fault) => write_text(f, *fault),
            Cause::Build(fault) => write_build(f, fault),
            Cause::Certificate => f.write_str("cert 2 Memory"),
            Cause::Check(fault) => write_check(f, *fault),
            Cause::Against(mismatch) => write_against(f, *mismatch),
            Cause::Link(fault) => write_link(f, *fault),
            Cause::Streams(fault) => write_streams(f, *fault),
            Cause::File(path) => write!(f, "file {path}"),
            Cause::Ended(end) => write_end(f, *end),
            Cause::TurnsSpent => f.write_str("ended TurnsSpent"),
            Cause::Wild(wild) => write_wild(f, *wild),
            Cause::Strict(strict) => write_strict(f, *strict),
            Cause::Tame(number, name) => write!(f, "tame {number} {name}"),
            Cause::ByHand(count) => write_numbered(f, "convert 1 ByHand", *count as u64),
            Cause::NotLaidOut(count) => write_numbered(f, "format 1 NotLaidOut", *count as u64),
            Cause::Memory => f.write_str("memory"),
        }
    }
}
