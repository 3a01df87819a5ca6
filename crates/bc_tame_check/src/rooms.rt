//! The public call: finds how many cells each routine needs, and checks the sections with these numbers.

ghost use Rattle.std.specs.Prelude.{◌≡◌, ◌∷◌, true, Some, IfOk, OnOk, map, ℕ, List};
ghost use Rattle.bc_core.specs.View.{place_of, valof_of, routine_of as routine_view, section};
ghost use Rattle.bc_core.specs.Commands.{Place as CorePlace};
ghost use Rattle.bc_tame.specs.Tame.{tame_routine};
ghost use Rattle.bc_tame.specs.Programs.{tame_places, tame_sections, may_set, is_tame};
ghost use Rattle.bc_tame_check.specs.Views.{setters_in, env_around, rooms_in, hint, AreTame};

use crate::at::{Around, At, Exits, Setter, Walk};
use crate::format::{are_bytes, check_words};
use crate::lookup::{first_setter, may_be_set};
use crate::not_tame::{BodyOf, Cause, NotTame, RoutineAt, Spot};
use crate::setters::setters_of;
use crate::walk::{body, number};
use bc_core::{Core, Place, Routine, Valof};
use bc_interpret_frames::frame_size;
use std::alloc::Global;

/// The cells that the routines of tame sections need.
#[derive(Debug, Drop)]
pub struct Rooms {
    /// For each place of each section, the number of cells that its routine takes, together with all routines that it calls.
    pub each: Vec<Vec<usize>>,
    /// START.
    pub start: RoutineAt,
    /// The number of cells that a run takes, from two cells above the stack's base on.
    pub room: usize,
}

/// How deep a text may nest.
const DEPTH: usize = 1000;

/// How many times parts of a routine may be checked in a second way.
const TRIES: usize = 1000;

/// The greatest number of cells.
const CELLS: usize = 65536;

/// The check at the beginning of the routine with this label in this section.
fn at_routine(section: usize, label: usize) -> Walk {
    Walk {
        spot: Spot {
            section,
            body: BodyOf::Routine(label),
            before: 0,
        },
        need: 0,
        assigned: None,
        jumped: false,
        tries: TRIES,
    }
}

/// Checks a routine.
#[tactic(auto, using(crate::proofs::Tests::and_true, crate::proofs::Tests::most_true))]
fn routine<'x>(
    around: Around<'x>,
    valofs: &'x [Valof],
    tree: &Routine,
    walk: &mut Walk,
) -> Result<(), NotTame>
    ensures { OnOk result (tame_routine (env_around around.entry) (map valof_of valofs.now) (routine_view tree.now) ≡ true) }
{
    let frame = frame_size(around.alloc, valofs, tree)?;
    walk.needs(frame, around.size)?;
    let at = At {
        around,
        first: 0,
        valofs,
        parameters: tree.parameters as usize,
        reads: &[],
        exits: Exits {
            in_loop: false,
            in_cases: false,
            in_valof: false,
            may_return: false,
            labels: &[],
        },
        level: 2 + tree.parameters as usize,
        depth: DEPTH,
    };
    body(at, &tree.body, walk)
}

/// Checks that a routine may set its global.
#[tactic(auto, using(crate::proofs::Globals::may_start))]
fn own_global(global: Option<u16>, setters: &[Setter], walk: &Walk) -> Result<(), NotTame>
    ensures { OnOk result (may_set (setters_in setters.now) global ≡ true) }
{
    match global {
        None => Ok(()),
        Some(number) => {
            if number == 1 || may_be_set(setters, number) {
                Ok(())
            } else {
                walk.stop(Cause::OwnGlobal)
            }
        }
    }
}

/// Checks a place, whose routine may use this number of cells.
#[tactic(auto, using(crate::proofs::Tests::and_true))]
fn place(around: Around<'_>, valofs: &[Valof], tree: &Place, walk: &mut Walk) -> Result<(), NotTame>
    ensures { OnOk result ((ps : List CorePlace) (rooms : List ℕ)
        → tame_places (section (around.entry.places.now, valofs.now)) around.entry.rooms.now (setters_in around.entry.setters.now) ps rooms ≡ true
        → tame_places (section (around.entry.places.now, valofs.now)) around.entry.rooms.now (setters_in around.entry.setters.now)
        (place_of tree.now ∷ ps) (around.entry.size ∷ rooms) ≡ true) }
{
    match tree {
        Place::Routine(tree) => {
            own_global(tree.global, around.setters, walk)?;
            routine(around, valofs, tree, walk)
        }
        Place::Text(bytes) => {
            if are_bytes(bytes) {
                Ok(())
            } else {
                walk.stop(Cause::Size)
            }
        }
        Place::Static(word) => {
            let _number = number(word.get());
            Ok(())
        }
        Place::Table(words) => {
            check_words(words);
            Ok(())
        }
    }
}

/// Checks all places of a section.
fn all_places<'x>(around: Around<'x>, valofs: &'x [Valof]) -> Result<(), NotTame>
    ensures { OnOk result
        (tame_places (section (around.entry.places.now, valofs.now)) around.entry.rooms.now (setters_in around.entry.setters.now)
        (map place_of around.entry.places.now) around.entry.rooms.now ≡ true) }
{
    let mut label = 1usize;
    let mut left = around.places;
    let mut rooms = around.rooms;
    while let ([first, rest @ ..], [room, more @ ..]) = (left, rooms) {
        let mut walk = at_routine(around.section, label);
        place(
            Around {
                size: *room,
                ..around
            },
            valofs,
            first,
            &mut walk,
        )?;
        label = label.saturating_add(1);
        left = rest;
        rooms = more;
    }
    if left.is_empty() && rooms.is_empty() {
        Ok(())
    } else {
        Err(NotTame::Memory)
    }
}

/// Checks all sections with these rooms.
#[tactic(auto, using(crate::proofs::Sections::section_more, crate::proofs::Sections::no_section))]
fn all_sections(
    alloc: Global,
    cores: &[Core],
    each: &[Vec<usize>],
    setters: &[Setter],
) -> Result<(), NotTame>
    ensures { OnOk result (tame_sections (setters_in setters.now) (map section cores.now) (rooms_in each.now) ≡ true) }
{
    let mut index = 0usize;
    let mut left = cores;
    let mut others = each;
    while let Some((core, following)) = left.split_first() {
        let Some((rooms, further)) = others.split_first() else {
            return Err(NotTame::Memory);
        };
        let around = Around {
            alloc,
            places: core.places(),
            rooms: rooms.as_slice(),
            setters,
            section: index,
            size: CELLS,
        };
        all_places(around, core.valofs())?;
        index = index.saturating_add(1);
        left = following;
        others = further;
    }
    if others.is_empty() {
        Ok(())
    } else {
        Err(NotTame::Memory)
    }
}

/// Checks sections with these rooms. Returns START.
#[tactic(auto, using(crate::proofs::Sections::tame_true))]
fn checked(alloc: Global, cores: &[Core], each: &[Vec<usize>]) -> Result<Setter, NotTame>
    ensures { IfOk result (λ start. AreTame (map section cores.now) (rooms_in each.now) start.room) }
{
    let setters = setters_of(alloc, cores, each)?;
    all_sections(alloc, cores, each, setters.as_slice())?;
    let no_start = NotTame::Unknown(Cause::NoStart, at_routine(0, 1).spot);
    let start = match first_setter(setters.as_slice(), 1) {
        Some(start) => start,
        None => return Err(no_start),
    };
    if start.arguments != 0 {
        return Err(no_start);
    }
    Ok(start)
}

/// The rooms as far as they are known, and the routines that set globals.
#[derive(Drop)]
struct Guess {
    each: Vec<Vec<usize>>,
    setters: Vec<Setter>,
}

/// The number of cells that a routine needs, if those that it calls are known.
fn measured<'x>(around: Around<'x>, valofs: &'x [Valof], label: usize) -> Result<usize, NotTame> {
    let mut walk = at_routine(around.section, label);
    match around.places.get(label.saturating_sub(1)) {
        Some(Place::Routine(tree)) => {
            own_global(tree.global, around.setters, &walk)?;
            routine(around, valofs, tree, &mut walk)?;
            Ok(walk.need)
        }
        _ => Ok(0),
    }
}

/// The number of cells that a routine of these sections needs, if those that it calls are known.
fn measured_in(
    alloc: Global,
    cores: &[Core],
    guess: &Guess,
    at: RoutineAt,
) -> Result<usize, NotTame> {
    match (cores.get(at.section), guess.each.get(at.section)) {
        (Some(core), Some(rooms)) => {
            let around = Around {
                alloc,
                places: core.places(),
                rooms: rooms.as_slice(),
                setters: guess.setters.as_slice(),
                section: at.section,
                size: CELLS,
            };
            measured(around, core.valofs(), at.label)
        }
        _ => Err(NotTame::Memory),
    }
}

/// Whether these are one routine.
fn is_same(one: RoutineAt, other: RoutineAt) -> bool {
    one.section == other.section && one.label == other.label
}

/// Sets the room of a routine.
fn set_room(guess: &mut Guess, at: RoutineAt, room: usize) {
    if let Some(rooms) = guess.each.get_mut(at.section) {
        if let Some(cell) = rooms.get_mut(at.label.saturating_sub(1)) {
            *cell = room;
        }
    }
    for setter in guess.setters.iter_mut() {
        if is_same(setter.routine, at) {
            setter.room = room;
        }
    }
}

/// Whether a routine is among these.
fn is_among(routines: &[RoutineAt], wanted: RoutineAt) -> bool {
    for each in routines {
        if is_same(*each, wanted) {
            return true;
        }
    }
    false
}

/// Finds the room of the newest waiting routine, or lets one that it calls wait before it.
fn settle(
    alloc: Global,
    cores: &[Core],
    waiting: &mut Vec<RoutineAt>,
    guess: &mut Guess,
    newest: RoutineAt,
) -> Result<(), NotTame> {
    match measured_in(alloc, cores, guess, newest) {
        Ok(room) => {
            set_room(guess, newest, room);
            let _done = waiting.pop();
            Ok(())
        }
        Err(NotTame::Unchecked(called, spot)) => {
            if is_among(waiting.as_slice(), called) {
                return Err(NotTame::Unknown(Cause::Recursion, spot));
            }
            waiting.push(called)?;
            Ok(())
        }
        Err(other) => Err(other),
    }
}

/// Finds the room of a routine, and of all that it calls.
fn find_room(
    alloc: Global,
    cores: &[Core],
    guess: &mut Guess,
    wanted: RoutineAt,
) -> Result<(), NotTame> {
    let mut waiting = Vec::new(alloc);
    waiting.push(wanted)?;
    for _turn in 0..u64::MAX {
        let newest = match waiting.last() {
            Some(newest) => *newest,
            None => break,
        };
        settle(alloc, cores, &mut waiting, guess, newest)?;
    }
    Ok(())
}

/// No room is known.
fn no_rooms(alloc: Global, cores: &[Core]) -> Result<Vec<Vec<usize>>, NotTame> {
    let mut each = Vec::new(alloc);
    for core in cores {
        let mut rooms = Vec::new(alloc);
        for _place in core.places() {
            rooms.push(0)?;
        }
        each.push(rooms)?;
    }
    Ok(each)
}

/// Finds the rooms of all routines.
fn all_rooms(alloc: Global, cores: &[Core]) -> Result<Vec<Vec<usize>>, NotTame> {
    let each = no_rooms(alloc, cores)?;
    let setters = setters_of(alloc, cores, each.as_slice())?;
    let mut guess = Guess { each, setters };
    let mut section = 0usize;
    for core in cores {
        for index in 0..core.places().len() {
            let wanted = RoutineAt {
                section,
                label: index.saturating_add(1),
            };
            find_room(alloc, cores, &mut guess, wanted)?;
        }
        section = section.saturating_add(1);
    }
    Ok(guess.each)
}

/// Decides whether sections are tame: if so, no run of them with the library meets a wild cell, provided that the stack's base leaves two
/// cells and `room` more. Returns the cells that their routines need.
///
/// An error says what the check can't accept; the sections may be harmless nevertheless. `Memory` if an allocation fails.
pub fn tame_rooms(alloc: Global, cores: &[Core]) -> Result<Rooms, NotTame>
    ensures { IfOk result (λ rooms. is_tame (map section cores.now) (hint rooms) ≡ true) }
{
    let each = all_rooms(alloc, cores)?;
    let start = checked(alloc, cores, each.as_slice())?;
    Ok(Rooms {
        each,
        start: start.routine,
        room: start.room,
    })
}
