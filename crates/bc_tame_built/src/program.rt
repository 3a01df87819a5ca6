//! The public call: whether a program that was built is tame.

ghost use Rattle.std.specs.Prelude.{◌≡◌, ◌+◌, ◌<◌, ◌≤◌, ◌∷◌, true, length, map, IfOk, IfSome};
ghost use Rattle.bc_lex.specs.Files.{files_of};
ghost use Rattle.bc_core.specs.View.{section as section_view};
ghost use Rattle.bc_tame_built.specs.Laws.{IsResolved, AreTranslated, RunsAsMeantWithLibrary};

use bc_core::Core;
use bc_lex::{Source, lex};
use bc_machine_defs::Image;
use bc_parse::parse;
use bc_scope::resolve;
use bc_tame_check::{BodyOf, Cause, NotTame, Rooms, RoutineAt, Spot, tame_rooms};
use bc_word::Memory;
use std::alloc::Global;

/// Lexes, parses and resolves a main again.
///
/// `Memory` if an allocation fails, or if the main has a fault, which a main that was built hasn't.
fn resolved(alloc: Global, sources: &[Source<'_>], main: usize) -> Result<Core, Memory>
    requires { main < length sources.now }
    ensures { IfOk result (λ core. IsResolved (files_of sources.now) main (section_view core)) }
{
    let tokens = match lex(alloc, sources, main) {
        Ok(tokens) => tokens,
        Err(_) => return Err(Memory),
    };
    let section = match parse(alloc, tokens.as_slice()) {
        Ok(section) => section,
        Err(_) => return Err(Memory),
    };
    match resolve(alloc, &section) {
        Ok(core) => Ok(core),
        Err(_) => Err(Memory),
    }
}

/// Lexes, parses and resolves these mains again.
///
/// `Memory` as for one main, or if a main isn't a source.
fn all_resolved(alloc: Global, sources: &[Source<'_>], mains: &[usize]) -> Result<Vec<Core>, Memory>
    ensures { IfOk result (λ cores. AreTranslated (files_of sources.now) mains.now (map section_view cores.items)) }
{
    let mut cores = Vec::new(alloc);
    for main in mains {
        if *main >= sources.len() {
            return Err(Memory);
        }
        let core = resolved(alloc, sources, *main)?;
        cores.push(core)?;
    }
    Ok(cores)
}

/// Whether the image leaves this room above the stack's base, and two cells.
fn has_room(image: &Image, rooms: &Rooms) -> bool
    ensures { result ≡ true → image.now.stack_base + 2 + rooms.now.room ≤ 65536 }
{
    let base = image.stack_base.get() as usize;
    rooms.room <= 65536 && base + 2 + rooms.room <= 65536
}

/// The beginning of this routine.
fn beginning(routine: RoutineAt) -> Spot {
    Spot {
        section: routine.section,
        body: BodyOf::Routine(routine.label),
        before: 0,
    }
}

/// The mains after BLIB, which is the main before them.
fn own_mains(mains: &[usize]) -> Option<&[usize]>
    ensures { IfSome result (λ owns. mains.now ≡ 1 ∷ owns.now) }
{
    let (first, owns) = mains.split_first()?;
    if *first == 1 {
        return Some(owns);
    }
    None
}

/// Decides whether a program is tame that was built from these sources with these mains. If it is, and sources 0 and 1 are LIBHDR and
/// BLIB and `image` is the one that `build` returns, then on all inputs of bytes each run of the image has the output and the ending that
/// the sources mean, so it meets no wild cell. Returns the number of cells that a run takes above the stack's base and its two cells.
///
/// An error says what the check can't accept; the program may be harmless nevertheless. `Memory` if an allocation fails.
pub fn tame_room(
    alloc: Global,
    sources: &[Source<'_>],
    mains: &[usize],
    image: &Image,
) -> Result<usize, NotTame>
    ensures { IfOk result (λ _. RunsAsMeantWithLibrary (files_of sources.now) mains.now image.now) }
{
    let owns = match own_mains(mains) {
        Some(owns) => owns,
        None => {
            let start = RoutineAt {
                section: 0,
                label: 1,
            };
            return Err(NotTame::Unknown(Cause::Sections, beginning(start)));
        }
    };
    let cores = all_resolved(alloc, sources, owns)?;
    let rooms = tame_rooms(alloc, cores.as_slice())?;
    if has_room(image, &rooms) {
        return Ok(rooms.room);
    }
    Err(NotTame::Unknown(Cause::Stack, beginning(rooms.start)))
}
