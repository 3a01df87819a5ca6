//! The parts of a routine that are still to be expanded.

ghost use Rattle.std.specs.Prelude.{◌≡◌, ◌+◌, max, OnOk, IfOk};
ghost use Rattle.bc_interpret_frames.specs.Parts.{cells_of, cells_of_both, weight_of_part, weight_of_both, greatest, weight_of_all};

use bc_core::{Block, Command, CoreExp, Declaration, ListItem, Valof, Variable};
use bc_word::Memory;

/// The VALOFs inside a part of a routine, and the number of the first one.
#[derive(Clone, Copy)]
pub(crate) struct Within<'c> {
    /// The number of the first VALOF.
    pub first: usize,
    /// The VALOFs from the first one on.
    pub valofs: &'c [Valof],
}

/// A part of a routine, with the level at which it begins.
#[derive(Clone, Copy)]
pub(crate) enum Construct<'c> {
    /// An expression.
    Expression(Within<'c>, &'c CoreExp, usize),
    /// The remaining arguments of a call; the level is that of the first one.
    Arguments(Within<'c>, &'c [CoreExp], usize),
    /// A command.
    Command(Within<'c>, &'c Command, usize),
    /// A block.
    Block(Within<'c>, &'c Block, usize),
    /// The remaining declarations of a block.
    Declarations(Within<'c>, &'c [Declaration], usize),
    /// The remaining variables of a declaration; the level is the one after all of its variables.
    Variables(Within<'c>, &'c [Variable], usize),
    /// The remaining items of a list.
    Items(Within<'c>, &'c [ListItem], usize),
}

/// Pushes a part onto the waiting ones.
///
/// `Memory` if an allocation fails.
#[tactic(auto, using(crate::proofs::Waits::greatest_more, crate::proofs::Waits::weight_more))]
pub(crate) fn put<'c>(part: Construct<'c>, waiting: &mut Vec<Construct<'c>>) -> Result<(), Memory>
    ensures greatest { OnOk result (greatest waiting.new.items ≡ max (cells_of part.entry) (greatest waiting.old.items)) }
    ensures weight { OnOk result (weight_of_all waiting.new.items ≡ weight_of_part part.entry + 1 + weight_of_all waiting.old.items) }
{
    waiting.push(part)?;
    Ok(())
}

/// Pushes two parts onto the waiting ones.
///
/// `Memory` if an allocation fails.
#[tactic(auto, using(crate::proofs::Waits::grown))]
pub(crate) fn put_both<'c>(
    first: Construct<'c>,
    second: Construct<'c>,
    waiting: &mut Vec<Construct<'c>>,
) -> Result<(), Memory>
    ensures greatest { OnOk result (greatest waiting.new.items ≡ max (cells_of_both first.entry second.entry) (greatest waiting.old.items)) }
    ensures weight { OnOk result (weight_of_all waiting.new.items ≡ weight_of_both first.entry second.entry + weight_of_all waiting.old.items) }
{
    put(first, waiting)?;
    put(second, waiting)
}

/// The level `n` cells above `s`.
///
/// `Memory` if the sum overflows, which no level of a frame does.
#[inline(always)]
pub(crate) fn above(s: usize, n: usize) -> Result<usize, Memory>
    ensures { IfOk result (λ r. r ≡ s + n) }
{
    s.checked_add(n).ok_or(Memory)
}
