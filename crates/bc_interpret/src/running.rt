//! The public calls: run resolved sections whose places are where an image has them, with an observer or without.

ghost use Rattle.std.specs.Prelude.{◌≡◌, ◌+◌, [], map, IfOk};
ghost use Rattle.bc_core.specs.View.{section as section_view};
ghost use Rattle.bc_interpret_steps.specs.Sections.{program_of};
ghost use Rattle.bc_interpret_steps.specs.declared.forms.Progress.TheVariants.{On};
ghost use Rattle.bc_interpret_steps.specs.declared.forms.Work.TheVariants.{Number};
ghost use Rattle.bc_interpret.specs.Interpreted.{InterpretedOn};
ghost use Rattle.bc_interpret.specs.Moving.{RunOn};

use crate::observer::{Observer, Unobserved};
use crate::places::{after_first, all_addresses, sections_of};
use crate::run::{Interpreted, Run, to_end};
use crate::start::start_store;
use crate::table::table_of;
use bc_core::Core;
use bc_interpret_pure::Room;
use bc_interpret_steps::{Called, NumberRest, Progress, Rest, Section, Stacks, State, Work, push};
use bc_interpret_store::Store;
use bc_interpret_trace::trail_in;
use bc_machine::{Image, Streams};
use bc_word::Memory;
use std::alloc::Global;

/// A run over this store that is about to give the address of global 1's cell (9), with no continuations yet.
fn run_over<'c>(alloc: Global, store: Store, turns: u64) -> Run<'c>
    ensures store { result.state.store ≡ store }
    ensures turns { result.state.turns ≡ turns }
    ensures next { result.stacks.next ≡ On (Number 9) }
    ensures rests { result.stacks.rests.items ≡ [] }
{
    Run {
        state: State { store, turns },
        stacks: Stacks {
            next: Progress::On(Work::Number(9)),
            called: Called {
                least: 0,
                frame: 0,
                routine: 0,
            },
            rests: Vec::new(alloc),
            room: Room {
                rests: Vec::new(alloc),
                waiting: Vec::new(alloc),
            },
            arguments: Vec::new(alloc),
        },
        name: Vec::new(alloc),
    }
}

/// The address of the frame of START, two cells above the stack base.
fn first_frame(stack_base: u16) -> u32
    ensures { result ≡ stack_base + 2 }
{
    u32::from(stack_base) + 2
}

/// Runs sections for at most `turns` turns, with the stack beginning at `stack_base`, and lets an observer see each step. What the observer
/// does has no effect on the outcome and the output.
///
/// `Memory` if an allocation fails.
pub fn observe<S: Streams, O: Observer>(
    alloc: Global,
    sections: &[Section<'_>],
    stack_base: u16,
    streams: &mut S,
    turns: u64,
    observer: &mut O,
) -> Result<Interpreted, Memory>
    ensures { IfOk result (λ i. RunOn S.known S.content S.failures (program_of sections.now) stack_base turns streams.old streams.new i) }
{
    let table = table_of(alloc, sections)?;
    let store = start_store(alloc, sections)?;
    let mut run = run_over(alloc, store, turns);
    // reads the cell of global 1 (START), and calls the value found there
    push(
        Rest::Calls(true, first_frame(stack_base)),
        &mut run.stacks.rests,
    )?;
    push(Rest::Number(NumberRest::Loads), &mut run.stacks.rests)?;
    let outcome = to_end(table.as_slice(), &mut run, streams, observer)?;
    let trail = trail_in(alloc, run.stacks.rests.as_slice())?;
    observer.over(&mut run.state.store);
    Ok(Interpreted { outcome, trail })
}

/// Runs resolved sections like `interpret`, and lets an observer see each step. What the observer does has no effect on the outcome and the
/// output.
///
/// `Memory` if an allocation fails.
pub fn interpret_observed<S: Streams, O: Observer>(
    alloc: Global,
    cores: &[Core],
    image: &Image,
    streams: &mut S,
    turns: u64,
    observer: &mut O,
) -> Result<Interpreted, Memory>
    ensures { IfOk result (λ i. InterpretedOn S.known S.content S.failures (map section_view cores.now) image.now turns streams.old streams.new i) }
{
    let places = after_first(image.places.as_slice());
    let addresses = all_addresses(alloc, places)?;
    let sections = sections_of(alloc, cores, addresses.as_slice())?;
    let stack_base = image.stack_base.get();
    let interpreted = observe(
        alloc,
        sections.as_slice(),
        stack_base,
        streams,
        turns,
        observer,
    )?;
    Ok(interpreted)
}

/// Runs resolved sections for at most `turns` turns. Their places have the addresses that they have in `image`, whose first segment must be
/// that of the primitives.
///
/// If the content of the streams is known, the outcome and the output are what the sections mean, unless a device failed; and if the run
/// is wild, the machine of `bc_interpret_defs` reaches a step that is wild with the reported cause, and the trail has the calls that are
/// open during that step, each with the run's position in it. `Device` comes only if the streams' count of failures rose or is at its greatest value.
///
/// `Memory` if an allocation fails.
pub fn interpret<S: Streams>(
    alloc: Global,
    cores: &[Core],
    image: &Image,
    streams: &mut S,
    turns: u64,
) -> Result<Interpreted, Memory>
    ensures { IfOk result (λ i. InterpretedOn S.known S.content S.failures (map section_view cores.now) image.now turns streams.old streams.new i) }
{
    let mut unobserved = Unobserved;
    interpret_observed(alloc, cores, image, streams, turns, &mut unobserved)
}
