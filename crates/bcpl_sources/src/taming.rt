//! The command `tame`.

use crate::compiling::refused;
use crate::diagnostics::{Program, error_lines};
use crate::output::of_output;
use crate::source_files::Gathered;
use bc_build::{Built, build};
use bc_tame_built::{Cause as Refused, NotTame, Spot, tame_room};
use bc_word::Memory;
use bcpl_cli::{Cause, Failure, TameOrder, load_sources};
use bcpl_tame::{number_of, tame_message};
use std::alloc::Global;
use std::io;
use std::io::Write;
use std::rt::Files;

/// The main in which this place is, and the reason. What the check can't accept in a section of the library is the library itself.
fn reason_in(gathered: &Gathered<'_, '_>, reason: (Refused, Spot)) -> (usize, Refused) {
    let number = reason.1.section.saturating_add(1);
    let program = gathered.program();
    match program.mains.get(number) {
        Some(main) => {
            if *main < gathered.library {
                (gathered.last, Refused::Sections)
            } else {
                (*main, reason.0)
            }
        }
        None => (gathered.last, reason.0),
    }
}

/// The explanation of why the program isn't known to be tame, whose main this is.
fn lines_of(
    alloc: Global,
    program: &Program<'_, '_>,
    reason: (Refused, Spot),
    main: usize,
    failure: &Failure,
) -> Result<String, Memory> {
    let message = tame_message(alloc, program.named.sources, main, reason.0, reason.1)?;
    let code = format!(in alloc; "{failure}")?;
    error_lines(alloc, program, code.as_str(), message)
}

/// The failure of a program that is not known to be tame.
fn not_tame(alloc: Global, gathered: &Gathered<'_, '_>, reason: (Refused, Spot)) -> Failure {
    let (main, cause) = reason_in(gathered, reason);
    let (number, name) = number_of(cause);
    let Ok(name) = String::from_str(alloc, name) else {
        return Failure::new(Cause::Memory);
    };
    let failure = Failure::new(Cause::Tame(number, name));
    let program = gathered.program();
    match lines_of(alloc, &program, (cause, reason.1), main, &failure) {
        Ok(lines) => failure.with(lines),
        Err(_) => Failure::new(Cause::Memory),
    }
}

/// The number of cells that runs of a built program need above the stack's base, if it is tame. Its library must not be
/// cut.
///
/// # Errors
///
/// `Cause::Tame`, explained, if the program is not known to be tame; `Cause::Memory` if an allocation fails.
pub fn room_of_built(
    alloc: Global,
    gathered: &Gathered<'_, '_>,
    built: &Built,
) -> Result<usize, Failure> {
    let program = gathered.program();
    match tame_room(alloc, program.named.sources, program.mains, &built.image) {
        Ok(room) => Ok(room),
        Err(NotTame::Unknown(cause, spot)) => Err(not_tame(alloc, gathered, (cause, spot))),
        Err(NotTame::Unchecked(_, _) | NotTame::Memory) => Err(Failure::new(Cause::Memory)),
    }
}

/// Whether it is known that no run of a built program meets a wild cell. Its library must not be cut.
///
/// # Errors
///
/// `Cause::Memory` if an allocation fails.
pub fn is_tame_built(
    alloc: Global,
    gathered: &Gathered<'_, '_>,
    built: &Built,
) -> Result<bool, Failure> {
    let program = gathered.program();
    match tame_room(alloc, program.named.sources, program.mains, &built.image) {
        Ok(_) => Ok(true),
        Err(NotTame::Unknown(_, _)) => Ok(false),
        Err(NotTame::Unchecked(_, _) | NotTame::Memory) => Err(Failure::new(Cause::Memory)),
    }
}

/// Builds a program, and returns the number of cells that its runs need above the stack's base, if it is tame.
fn room_of(alloc: Global, gathered: &Gathered<'_, '_>, explains: bool) -> Result<usize, Failure> {
    let program = gathered.program();
    match build(alloc, program.named.sources, program.mains) {
        Ok(built) => room_of_built(alloc, gathered, &built),
        Err(fault) => Err(refused(alloc, &program, fault, explains)),
    }
}

/// Prints the result of `tame`.
fn print_result<O: Write + Drop>(room: usize, out: &mut O) -> io::Result<()> {
    writeln!(out, "ok tame {room}")?;
    out.flush()
}

/// Runs `tame`: decides whether a program can't meet a wild cell, and prints how many cells its runs need above the
/// stack's base. If `explains`, explains refused sources.
pub fn tame<F: Files, O: Write + Drop>(
    rt: &F,
    alloc: Global,
    order: &TameOrder<'_>,
    explains: bool,
    out: &mut O,
) -> Result<(), Failure> {
    let files = load_sources(rt, alloc, &order.sources)?;
    let gathered = Gathered::new(alloc, &order.sources, files.as_slice())?;
    let room = room_of(alloc, &gathered, explains)?;
    of_output(alloc, print_result(room, out))
}
