//! What the functions of the parser take and return.
use crate::cursor::Rest;
use crate::fault::ReadFault;
use std::alloc::Global;

/// The bounds for what is read, and the allocator for its tree.
#[derive(Clone, Copy)]
pub struct Limits {
    /// Where trees are allocated.
    pub alloc: Global,
    /// How deep the tree may nest.
    pub nest: usize,
    /// How many more parentheses may be open at once.
    pub round: usize,
}

/// A tree that was read, how deep it nests, and the remaining parts.
#[derive(Drop)]
pub struct Read<'s, 't, T> {
    /// What was read.
    pub tree: T,
    /// How deep it nests.
    pub height: usize,
    /// The parts after it.
    pub rest: Rest<'s, 't>,
}

/// What was read, or the fault.
pub type ReadResult<'s, 't, T> = Result<Read<'s, 't, T>, ReadFault>;

/// The result of one turn of a loop.
#[derive(Drop)]
pub enum Step<'s, 't, T> {
    /// What was read up to here; another turn follows.
    More(Read<'s, 't, T>),
    /// What was read in all; this was the last turn.
    Last(Read<'s, 't, T>),
}
