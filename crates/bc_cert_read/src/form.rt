//! The form of a node, as a node line states it.

ghost use Rattle.std.specs.Prelude.{◌≡◌};
ghost use Rattle.bc_cert_read.specs.Form.{parts_of, calls_itself, is_plain as is_plain_form};

use bc_rules_defs::is_plain_operator;
use bc_word::{Op, Word};

/// What a node is, without its parts.
#[derive(Clone, Copy)]
pub enum Form {
    /// A number.
    Num(Word),
    /// The address of the frame's cell with this offset.
    Frame(u16),
    /// The address of the global with this number.
    Glob(u16),
    /// The address of the place with this label.
    Place(u16),
    /// The VALOF with this number.
    Valof(u16),
    /// The content of a cell.
    Load,
    /// The negative.
    Neg,
    /// NOT.
    Not,
    /// A dyadic operator.
    Bin(Op),
    /// `condition -> this, that`.
    Cond,
    /// A call with this number of arguments.
    Call(u16),
}

impl Form {
    /// The number of parts of such a node. The routine of a call is its last part.
    #[inline(always)]
    pub fn parts(self) -> usize
        ensures { result ≡ parts_of self }
    {
        match self {
            Form::Num(_) | Form::Frame(_) | Form::Glob(_) | Form::Place(_) | Form::Valof(_) => 0,
            Form::Load | Form::Neg | Form::Not => 1,
            Form::Bin(_) => 2,
            Form::Cond => 3,
            Form::Call(count) => usize::from(count) + 1,
        }
    }

    /// Whether such a node is itself a call or a VALOF.
    #[inline(always)]
    pub fn calls(self) -> bool
        ensures { result ≡ calls_itself self }
    {
        match self {
            Form::Valof(_) | Form::Call(_) => true,
            Form::Num(_)
            | Form::Frame(_)
            | Form::Glob(_)
            | Form::Place(_)
            | Form::Load
            | Form::Neg
            | Form::Not
            | Form::Bin(_)
            | Form::Cond => false,
        }
    }

    /// Whether a test of such a node may be made of its value (rule J6): it is neither NOT, `&` nor the bar.
    #[inline(always)]
    pub fn is_plain(self) -> bool
        ensures { result ≡ is_plain_form self }
    {
        match self {
            Form::Not => false,
            Form::Bin(op) => is_plain_operator(op),
            Form::Num(_)
            | Form::Frame(_)
            | Form::Glob(_)
            | Form::Place(_)
            | Form::Valof(_)
            | Form::Load
            | Form::Neg
            | Form::Cond
            | Form::Call(_) => true,
        }
    }
}
