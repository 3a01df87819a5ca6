//! Calls: entering a routine or a primitive.

ghost use Rattle.std.specs.Prelude.{◌≡◌, ◌∷◌, Some, IfOk, OnOk};
ghost use Rattle.bc_core.specs.Meaning.{OfLibrary};
ghost use Rattle.bc_core.specs.Tree as tree;
ghost use Rattle.bc_core.specs.View.{exp, args};
ghost use Rattle.bc_interpret_steps.specs.Arrived.{Enters, Arrives, LandsAt};
ghost use Rattle.bc_interpret_steps.specs.Came.{Framed, IsPrimitive, primitive_of};
ghost use Rattle.bc_interpret_defs.specs.Machine as machine;
ghost use Rattle.bc_interpret_steps.specs.Code.{spot_of, stack, open_call};
ghost use Rattle.bc_interpret_steps.specs.Passing.{RunsInto};
ghost use Rattle.bc_interpret_steps.specs.Sections.{IsSized, callee_of};

use crate::addresses;
use crate::continuations::{ExitRest, Rest, level_above, push};
use crate::evaluate::call;
use crate::forms::{OpenCall, Primitive, Progress, Site, Work};
use crate::sections::{Callable, routine_at};
use crate::state::{Called, Stacks, State, turn};
use bc_core::{Body, CoreExp};
use bc_interpret_pure::Cause;
use bc_machine_defs::Side;
use bc_word::Memory;

/// Whether a call can go on.
#[derive(Clone, Copy)]
pub(crate) enum Fit {
    /// It can, and its turn has been taken.
    Fits,
    /// Its frame would extend past address 65,535.
    TooLarge,
    /// No turn remains.
    NoTurn,
}

/// Takes the turn of a call whose frame is at this address and has this size in cells, if the frame fits.
#[tactic(auto, using(crate::proofs::Frames::too_large, crate::proofs::Frames::no_turn, crate::proofs::Frames::fits))]
fn reserve_frame(frame: u32, size: usize, state: &mut State) -> Result<Fit, Memory>
    ensures { IfOk result (λ found. Framed found frame size state.old state.new) }
{
    if (frame as usize).checked_add(size).ok_or(Memory)? > 65536 {
        return Ok(Fit::TooLarge);
    }
    if !turn(state) {
        return Ok(Fit::NoTurn);
    }
    Ok(Fit::Fits)
}

/// The primitive whose code is at this address.
fn primitive_at(address: u16) -> Option<Primitive>
    ensures { IsPrimitive result address }
{
    match address {
        addresses::SELECT_INPUT => Some(Primitive::Select(Side::Input)),
        addresses::SELECT_OUTPUT => Some(Primitive::Select(Side::Output)),
        addresses::READ_BYTE => Some(Primitive::ReadByte),
        addresses::WRITE_BYTE => Some(Primitive::WriteByte),
        addresses::FIND_INPUT => Some(Primitive::Find(Side::Input)),
        addresses::FIND_OUTPUT => Some(Primitive::Find(Side::Output)),
        addresses::END_INPUT => Some(Primitive::EndStream(Side::Input)),
        addresses::END_OUTPUT => Some(Primitive::EndStream(Side::Output)),
        _ => None,
    }
}

/// Pushes a continuation by which a call that fails is open: the run ends there, and what is reported of it names the call.
pub fn keep_open<'c>(call: OpenCall, rests: &mut Vec<Rest<'c>>) -> Result<(), Memory>
    ensures { OnOk result (stack rests.new.items ≡ machine.Closes (Some (open_call call)) 0 0 ∷ stack rests.old.items) }
{
    push(Rest::Closes(Some(call), 0, 0), rests)?;
    Ok(())
}

/// Calls a primitive: passes its argument and leaves the rest to the caller of `step`.
#[tactic(auto, using(crate::proofs::Frames::served))]
fn enter_primitive<'c>(
    primitive: Primitive,
    call: OpenCall,
    stacks: &mut Stacks<'c>,
    state: &mut State,
) -> Result<(), Memory>
    ensures { Enters (Some (OfLibrary (primitive_of primitive))) call.routine call.frame stacks.old state.old result stacks.new state.new }
{
    let frame = call.frame;
    match reserve_frame(frame, 3, state)? {
        Fit::TooLarge => {
            keep_open(call, &mut stacks.rests)?;
            stacks.next = Progress::Wild(Cause::FrameTooLarge(frame as usize));
            Ok(())
        }
        Fit::NoTurn => {
            keep_open(call, &mut stacks.rests)?;
            stacks.next = Progress::Going;
            Ok(())
        }
        Fit::Fits => {
            state
                .store
                .pass(1, level_above(frame, 2)? as usize, &mut stacks.arguments);
            stacks.next = Progress::Serve(primitive, call);
            Ok(())
        }
    }
}

/// Calls a routine: passes its arguments and begins its body.
fn enter_routine<'c>(
    entry: Callable<'c>,
    call: OpenCall,
    stacks: &mut Stacks<'c>,
    state: &mut State,
) -> Result<(), Memory>
    ensures { IsSized entry.entry → Enters (Some (callee_of entry.entry)) call.routine call.frame stacks.old state.old result stacks.new
        state.new }
{
    let frame = call.frame;
    match reserve_frame(frame, entry.frame, state)? {
        Fit::TooLarge => {
            keep_open(call, &mut stacks.rests)?;
            stacks.next = Progress::Wild(Cause::FrameTooLarge(frame as usize));
            Ok(())
        }
        Fit::NoTurn => {
            keep_open(call, &mut stacks.rests)?;
            stacks.next = Progress::Going;
            Ok(())
        }
        Fit::Fits => {
            let parameters = u32::from(entry.routine.parameters);
            let from = level_above(frame, 2)?;
            let level = level_above(2, parameters)?;
            state
                .store
                .pass(parameters as usize, from as usize, &mut stacks.arguments);
            push(
                Rest::Closes(Some(call), parameters, from),
                &mut stacks.rests,
            )?;
            let site = Site {
                section: entry.section,
                first: 0,
                frame,
                level,
            };
            match &entry.routine.body {
                Body::Value(e) => {
                    stacks.next = Progress::On(Work::Evaluate(site, e));
                    Ok(())
                }
                Body::Commands(block) => {
                    push(Rest::Exit(ExitRest::Returns), &mut stacks.rests)?;
                    stacks.next = Progress::On(Work::Enter(site, block));
                    Ok(())
                }
            }
        }
    }
}

/// Calls a value, in the frame at this address, with the arguments that were pushed; with none if the call is `fresh`.
///
/// `Memory` if an allocation fails.
pub(crate) fn call_given<'c>(
    table: &[Callable<'c>],
    routine: u16,
    fresh: bool,
    frame: u32,
    stacks: &mut Stacks<'c>,
    state: &mut State,
) -> Result<(), Memory>
    ensures { Arrives table.now routine fresh frame stacks.old state.old result stacks.new state.new }
{
    stacks.gather(fresh)?;
    call_value(table, OpenCall { routine, frame }, stacks, state)
}

/// Calls a value with the arguments in `stacks.arguments`, which are in reverse order.
#[inline(always)]
fn call_value<'c>(
    table: &[Callable<'c>],
    call: OpenCall,
    stacks: &mut Stacks<'c>,
    state: &mut State,
) -> Result<(), Memory>
    ensures { LandsAt table.now call.routine call.frame stacks.old state.old result stacks.new state.new }
{
    stacks.called = Called {
        least: stacks.rests.len().saturating_add(1),
        frame: call.frame,
        routine: call.routine,
    };
    match routine_at(table, call.routine) {
        Some(entry) => enter_routine(entry, call, stacks, state),
        None => match primitive_at(call.routine) {
            Some(primitive) => enter_primitive(primitive, call, stacks, state),
            None => {
                keep_open(call, &mut stacks.rests)?;
                stacks.next = Progress::Wild(Cause::NotRoutine(call.routine));
                Ok(())
            }
        },
    }
}

/// Begins a call. Enters the routine within this step if the arguments and the routine's value are pure and have values.
///
/// `Memory` if an allocation fails.
pub(crate) fn begin_call<'c>(
    table: &[Callable<'c>],
    site: Site<'c>,
    arguments: &'c [CoreExp],
    routine: &'c CoreExp,
    stacks: &mut Stacks<'c>,
    state: &mut State,
) -> Result<(), Memory>
    ensures { RunsInto table.now (spot_of site.entry) (tree.Call (args arguments.now) (exp routine.now)) site.entry.level stacks.old.rests state.old result
        stacks.new.next stacks.new.rests state.new }
{
    let found = stacks.evaluate_pure_call(&site, arguments, routine, state)?;
    match found {
        Some(value) => {
            let frame = level_above(site.frame, site.level)?;
            let now = OpenCall {
                routine: value,
                frame,
            };
            call_value(table, now, stacks, state)
        }
        None => call(site, arguments, routine, stacks, state),
    }
}
