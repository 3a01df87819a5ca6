//! The text of a profile.

use crate::change::cell;
use crate::counts::Counts;
use crate::names::{NamedRoutine, name_at, part_beginnings};
use crate::watch::Watch;
use bc_machine::Machine;
use bc_machine_defs::Image;
use bc_word::{Memory, Word};
use bcpl_places::instruction;
use std::alloc::Global;

/// The number of routines in the profile.
const HOTTEST: usize = 10;

/// The largest count that, times 1,000, fits into 64 bits (rounded down).
const MOST: u64 = 10_000_000_000_000_000;

/// A routine or another part of the image, with the number of its executed instructions, the number of its calls, and
/// its first address. The order is that of the fields.
#[derive(Clone, Copy, PartialEq, Eq, PartialOrd, Ord)]
struct Routine {
    times: u64,
    calls: u64,
    from: u16,
}

/// A program that was run.
#[derive(Clone, Copy)]
pub struct ProfiledProgram<'p> {
    pub image: &'p Image,
    /// The routines that the sources name. Without sources there are none.
    pub routines: &'p [NamedRoutine<'p>],
}

/// The count at an address.
fn at(counts: &[u64], address: u16) -> u64 {
    match counts.get(usize::from(address)) {
        Some(count) => *count,
        None => 0,
    }
}

/// The routines that executed any instruction, sorted. A routine begins at each address that was called, and ends
/// where the next routine or another part of the image begins.
fn routines(alloc: Global, counts: &Counts, image: &Image) -> Result<Vec<Routine>, Memory> {
    let begins = part_beginnings(alloc, image)?;
    let mut found = Vec::new(alloc);
    let mut now = Routine {
        times: 0,
        calls: 0,
        from: 0,
    };
    for address in 0..=u16::MAX {
        let calls = at(counts.calls.as_slice(), address);
        let is_part = matches!(begins.get(usize::from(address)), Some(true));
        if calls > 0 || is_part {
            if now.times > 0 {
                found.push(now)?;
            }
            now = Routine {
                times: 0,
                calls,
                from: address,
            };
        }
        let times = at(counts.times.as_slice(), address);
        now.times = now.times.saturating_add(times);
    }
    if now.times > 0 {
        found.push(now)?;
    }
    found.sort_unstable();
    Ok(found)
}

/// The share of `times` in `whole`, in thousandths.
fn share(times: u64, whole: u64) -> u64 {
    if whole == 0 {
        0
    } else if whole <= MOST {
        times.min(whole) * 1000 / whole
    } else {
        times / (whole / 1000)
    }
}

/// Adds the routines that executed the most instructions.
fn add_hottest(
    alloc: Global,
    text: &mut String,
    watch: &Watch,
    program: ProfiledProgram<'_>,
) -> Result<(), Memory> {
    text.push_str("/      times   share      calls   from  routine\n")?;
    let whole = watch.number();
    let found = routines(alloc, watch.counts(), program.image)?;
    for routine in found.iter().rev().take(HOTTEST) {
        let times = routine.times;
        let calls = routine.calls;
        let from = routine.from;
        let share = share(times, whole);
        let percent = share / 10;
        let tenths = share % 10;
        let name = name_at(alloc, program.image, program.routines, from)?;
        writeln!(
            text,
            "{times:>12} {percent:>4}.{tenths}% {calls:>10} {from:>6}  {name}"
        )?;
    }
    Ok(())
}

/// Adds the count of each instruction.
fn add_times(
    alloc: Global,
    text: &mut String,
    watch: &Watch,
    machine: &Machine,
) -> Result<(), Memory> {
    text.push_str("/ addr        times  instruction\n")?;
    for address in 0..=u16::MAX {
        let times = at(watch.counts().times.as_slice(), address);
        if times > 0 {
            let word = Word::new(cell(machine, address));
            let following = Word::new(cell(machine, address.wrapping_add(1)));
            let label = instruction(alloc, word, following)?;
            writeln!(text, "{address:>6} {times:>12}  {label}")?;
        }
    }
    Ok(())
}

/// The profile of a recorded run of a machine that started with the image of this program: the number of executed
/// instructions, the ten routines that executed the most, with their shares, and the count of each instruction.
/// `Memory` if an allocation fails.
pub fn profile(
    alloc: Global,
    watch: &Watch,
    machine: &Machine,
    program: ProfiledProgram<'_>,
) -> Result<String, Memory> {
    let mut text = String::new(alloc);
    let whole = watch.number();
    writeln!(text, "/ {whole} instructions executed")?;
    text.push_str("/\n/ the hottest routines; a routine begins at each address that was called\n")?;
    add_hottest(alloc, &mut text, watch, program)?;
    text.push_str(
        "/\n/ how often each instruction was executed, as it is in the store at the end\n",
    )?;
    add_times(alloc, &mut text, watch, machine)?;
    Ok(text)
}
