//! The routines of sections that set globals.

ghost use Rattle.std.specs.Prelude.{◌≡◌, ◌++◌, ◌∷◌, IfOk, OnOk, map, ℕ, List};
ghost use Rattle.bc_core.specs.View.{place_of, section as section_view};
ghost use Rattle.bc_core.specs.Commands.{Place as CorePlace};
ghost use Rattle.bc_tame.specs.Programs as programs;
ghost use Rattle.bc_tame_check.specs.Views.{setters_in, rooms_in};

use crate::at::Setter;
use crate::not_tame::{NotTame, RoutineAt};
use bc_core::{Core, Place};
use std::alloc::Global;

/// Adds a place, if it is a routine that sets a global.
#[tactic(auto, using(crate::proofs::Sections::routine_more, crate::proofs::Sections::routine_none))]
fn add_setter(
    setters: &mut Vec<Setter>,
    place: &Place,
    room: usize,
    at: RoutineAt,
) -> Result<(), NotTame>
    ensures { OnOk result ((ps : List CorePlace) (rooms : List ℕ)
        → setters_in setters.old.items ++ programs.setters_from (place_of place.now ∷ ps) (room ∷ rooms)
        ≡ setters_in setters.new.items ++ programs.setters_from ps rooms) }
{
    match place {
        Place::Routine(routine) => match routine.global {
            Some(global) => {
                setters.push(Setter {
                    global,
                    arguments: routine.parameters as usize,
                    room,
                    routine: at,
                })?;
                Ok(())
            }
            None => Ok(()),
        },
        Place::Static(_) => Ok(()),
        Place::Table(_) => Ok(()),
        Place::Text(_) => Ok(()),
    }
}

/// Adds the routines of a section that set globals.
#[tactic(auto, using(crate::proofs::Sections::no_place))]
fn add_setters(
    setters: &mut Vec<Setter>,
    places: &[Place],
    rooms: &[usize],
    section: usize,
) -> Result<(), NotTame>
    ensures { OnOk result (setters_in setters.new.items ≡ setters_in setters.old.items ++ programs.setters_from (map place_of places.now) rooms.now) }
{
    let mut label = 1usize;
    let mut left = places;
    let mut others = rooms;
    while let ([place, rest @ ..], [room, more @ ..]) = (left, others) {
        add_setter(setters, place, *room, RoutineAt { section, label })?;
        label = label.saturating_add(1);
        left = rest;
        others = more;
    }
    if left.is_empty() && others.is_empty() {
        Ok(())
    } else {
        Err(NotTame::Memory)
    }
}

/// The routines of sections that set globals, in text order, with these rooms.
#[tactic(auto, using(crate::proofs::Sections::setters_more, crate::proofs::Sections::no_setter))]
pub(crate) fn setters_of(
    alloc: Global,
    cores: &[Core],
    each: &[Vec<usize>],
) -> Result<Vec<Setter>, NotTame>
    ensures { IfOk result (λ setters. setters_in setters.items ≡ programs.setters_of (map section_view cores.now) (rooms_in each.now)) }
{
    let mut setters = Vec::new(alloc);
    let mut index = 0usize;
    let mut left = cores;
    let mut others = each;
    while let Some((core, following)) = left.split_first() {
        let Some((rooms, further)) = others.split_first() else {
            return Err(NotTame::Memory);
        };
        add_setters(&mut setters, core.places(), rooms.as_slice(), index)?;
        index = index.saturating_add(1);
        left = following;
        others = further;
    }
    Ok(setters)
}
