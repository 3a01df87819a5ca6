//! The state of a run: its store and turns, its continuations, and buffers that are reused.

ghost use Rattle.std.specs.Prelude.{◌≡◌, OnOk};
ghost use Rattle.bc_interpret_steps.specs.Came.{Turned, Wrote, StandsAfter};

use crate::continuations::{Rest, push};
use crate::forms::Progress;
use bc_interpret_pure::{Cause, Room};
use bc_interpret_store::Store;
use bc_word::Memory;

/// The store and the remaining turns: the part of a run's state that isn't control.
#[derive(Drop)]
pub struct State {
    /// The cells.
    pub store: Store,
    /// How many turns remain. A turn is a call, a loop's way back or a GOTO.
    pub turns: u64,
}

/// The call that a step made. No contract speaks of it: it is for observers.
#[derive(Clone, Copy)]
pub struct Called {
    /// The least length of the stack of continuations while the run is inside the called routine; 0 if the step made no call.
    pub least: usize,
    /// The address of the frame of the called routine.
    pub frame: u32,
    /// The address of the called routine.
    pub routine: u16,
}

/// The control state of a run, and buffers.
#[derive(Drop)]
pub struct Stacks<'c> {
    /// The outcome of the last step, which says what the next one does.
    pub next: Progress<'c>,
    /// The call that the last step made.
    pub called: Called,
    /// The continuations, with the innermost last.
    pub rests: Vec<Rest<'c>>,
    /// Buffers for evaluating pure expressions.
    pub room: Room<'c>,
    /// A buffer for the arguments of a call, in reverse order.
    pub arguments: Vec<u16>,
}

/// Takes a turn and returns true; returns false if none remains.
#[inline(always)]
#[tactic(auto, using(crate::proofs::Turns::turn_left, crate::proofs::Turns::no_turn_left))]
pub(crate) fn turn(state: &mut State) -> bool
    ensures turned { Turned result state.old state.new }
    ensures store { state.new.store ≡ state.old.store }
{
    if state.turns == 0 {
        return false;
    }
    state.turns -= 1;
    true
}

/// Writes a word to the cell at this address. Returns the cause of the wild access if the cell isn't live, else `None`.
#[inline(always)]
#[tactic(auto, using(crate::proofs::Writes::wrote, crate::proofs::Writes::wrote_not, crate::proofs::Writes::unwritten, bc_interpret_defs::proofs::Naming::still_wild, bc_interpret_defs::proofs::Naming::written_over))]
pub(crate) fn put_word(state: &mut State, address: u16, word: u16) -> Option<Cause>
    ensures { Wrote state.old address word result state.new }
{
    if state.store.write(address, word) {
        None
    } else {
        Some(Cause::NoCell(address))
    }
}

/// Pushes a continuation and sets what comes next.
///
/// `Memory` if an allocation fails.
#[inline(always)]
pub(crate) fn put_after<'c>(
    rest: Rest<'c>,
    next: Progress<'c>,
    stacks: &mut Stacks<'c>,
) -> Result<(), Memory>
    ensures { OnOk result (StandsAfter rest.entry next.entry stacks.old.rests.items stacks.new.next stacks.new.rests.items) }
{
    push(rest, &mut stacks.rests)?;
    stacks.next = next;
    Ok(())
}
