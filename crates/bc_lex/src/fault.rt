//! Faults of a single file, relative to the bytes that were read. `LexError` adds the file.
ghost use Rattle.std.specs.Prelude.{◌≡◌};

/// The faults that a text can have whatever is in other files.
#[derive(Clone, Copy, Debug, PartialEq, Eq)]
pub enum FaultKind {
    /// A byte begins no token.
    BadCharacter,
    /// A number is over 65,535.
    NumberTooLarge,
    /// A string has more than 255 characters.
    StringTooLong,
    /// A comment, string or character constant isn't closed.
    Unterminated,
    /// A `*` begins no escape.
    BadEscape,
}

/// A fault, and where it is in the bytes that were read.
#[derive(Clone, Copy, Debug, PartialEq, Eq)]
pub struct Fault {
    /// The kind of fault.
    pub kind: FaultKind,
    /// The offset of the fault from the start of these bytes.
    pub at: usize,
}

impl Fault {
    /// A fault at the start of the bytes.
    pub fn here(kind: FaultKind) -> Fault
        ensures { result ≡ record { kind = kind; at = 0 } }
    {
        Fault { kind, at: 0 }
    }
}
