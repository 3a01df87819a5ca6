//! Finds a section's routines, statics and strings by their labels, which count from 1, and routines by their globals.

ghost use Rattle.std.specs.Prelude.{◌≡◌, ◌+◌, ◌∷◌, true, false, IfSome, Some, None, map, ℕ, List};
ghost use Rattle.bc_core.specs.View.{place_of, exp};
ghost use Rattle.bc_core.specs.Tree as tree;
ghost use Rattle.bc_core.specs.Commands.{Place as CorePlace};
ghost use Rattle.bc_tame.specs.Tame as tame;
ghost use Rattle.bc_tame.specs.Programs as programs;
ghost use Rattle.bc_tame.specs.Programs.{known, routine_from, static_from, table_from, text_from, setter_for, times_set, may_set, own_callable, callable_with};
ghost use Rattle.bc_tame_check.specs.Views.{setter_of, setters_in, env_at};
ghost use Rattle.bc_tame_check.specs.declared.lookup.Step.TheVariants as steps;

use crate::at::{Around, At, Known, Setter};
use crate::format::{callable, is_set_by_library};
use crate::not_tame::RoutineAt;
use bc_core::{CoreExp, Place};

/// What a place is, compared with the label that is searched for.
#[derive(Clone, Copy)]
enum Step {
    /// It has the label and is a routine.
    Found(Known),
    /// The search goes on after it.
    Passed,
}

/// Compares a place with this label with the routine that is searched for.
#[tactic(auto, using(crate::proofs::Places::routine_here, crate::proofs::Places::routine_else))]
fn routine_step(place: &Place, room: usize, label: usize, wanted: usize) -> Step
    ensures found { (k : Known) → result ≡ steps.Found k → (ps : List CorePlace) (rooms : List ℕ)
        → routine_from (place_of place.now ∷ ps) (room ∷ rooms) label wanted ≡ Some (known k.arguments k.room) }
    ensures passed { result ≡ steps.Passed → (ps : List CorePlace) (rooms : List ℕ)
        → routine_from (place_of place.now ∷ ps) (room ∷ rooms) label wanted ≡ routine_from ps rooms (label + 1) wanted }
{
    match place {
        Place::Routine(routine) => {
            if label == wanted {
                Step::Found(Known {
                    arguments: routine.parameters as usize,
                    room,
                })
            } else {
                Step::Passed
            }
        }
        Place::Static(_) => Step::Passed,
        Place::Text(_) => Step::Passed,
        Place::Table(_) => Step::Passed,
    }
}

/// How the routine with this label can be called.
pub(crate) fn routine_of(around: Around<'_>, wanted: usize) -> Option<Known>
    ensures { IfSome result (λ k. routine_from (map place_of around.entry.places.now) around.entry.rooms.now 1 wanted ≡ Some (known k.arguments k.room)) }
{
    let mut label = 1usize;
    let mut left = around.places;
    let mut rooms = around.rooms;
    while let ([place, rest @ ..], [room, more @ ..]) = (left, rooms) {
        match routine_step(place, *room, label, wanted) {
            Step::Found(known) => return Some(known),
            Step::Passed => {}
        }
        label = label.checked_add(1)?;
        left = rest;
        rooms = more;
    }
    None
}

/// Compares a place with this label with the static that is searched for.
#[tactic(auto, using(crate::proofs::Places::static_here, crate::proofs::Places::static_else))]
fn static_step(place: &Place, label: usize, wanted: usize) -> bool
    ensures found { result ≡ true → (ps : List CorePlace) → static_from (place_of place.now ∷ ps) label wanted ≡ true }
    ensures passed { result ≡ false → (ps : List CorePlace) → static_from (place_of place.now ∷ ps) label wanted ≡ static_from ps (label + 1) wanted }
{
    match place {
        Place::Static(_) => label == wanted,
        Place::Routine(_) => false,
        Place::Table(_) => false,
        Place::Text(_) => false,
    }
}

/// Whether the place with this label is a static.
pub(crate) fn is_static(places: &[Place], wanted: usize) -> bool
    ensures { result ≡ true → static_from (map place_of places.now) 1 wanted ≡ true }
{
    let mut label = 1usize;
    let mut left = places;
    while let [place, rest @ ..] = left {
        if static_step(place, label, wanted) {
            return true;
        }
        label = match label.checked_add(1) {
            Some(next) => next,
            None => return false,
        };
        left = rest;
    }
    false
}

/// Compares a place with this label with the string that is searched for.
#[tactic(auto, using(crate::proofs::Places::text_here, crate::proofs::Places::text_else))]
fn text_step<'a>(place: &'a Place, label: usize, wanted: usize) -> Option<&'a [u8]>
    ensures found { IfSome result (λ bytes. (ps : List CorePlace) → text_from (place_of place.now ∷ ps) label wanted ≡ Some bytes.now) }
    ensures passed { result ≡ None → (ps : List CorePlace) → text_from (place_of place.now ∷ ps) label wanted ≡ text_from ps (label + 1) wanted }
{
    match place {
        Place::Text(bytes) => {
            if label == wanted {
                Some(bytes.as_slice())
            } else {
                None
            }
        }
        Place::Routine(_) => None,
        Place::Static(_) => None,
        Place::Table(_) => None,
    }
}

/// The bytes of the string with this label.
pub(crate) fn text_of<'a>(places: &'a [Place], wanted: usize) -> Option<&'a [u8]>
    ensures found { IfSome result (λ bytes. text_from (map place_of places.now) 1 wanted ≡ Some bytes.now) }
    ensures none { result ≡ None → text_from (map place_of places.now) 1 wanted ≡ None }
{
    let mut index = 0usize;
    let mut left = places;
    while let [place, rest @ ..] = left {
        if let Some(bytes) = text_step(place, index + 1, wanted) {
            return Some(bytes);
        }
        index += 1;
        left = rest;
    }
    None
}

/// Compares a place with this label with the table that is searched for. Returns its number of words.
#[tactic(auto, using(crate::proofs::Places::table_here, crate::proofs::Places::table_else))]
fn table_step(place: &Place, label: usize, wanted: usize) -> Option<usize>
    ensures found { IfSome result (λ n. (ps : List CorePlace) → table_from (place_of place.now ∷ ps) label wanted ≡ n) }
    ensures passed { result ≡ None → (ps : List CorePlace) → table_from (place_of place.now ∷ ps) label wanted ≡ table_from ps (label + 1) wanted }
{
    match place {
        Place::Table(words) => {
            if label == wanted {
                Some(words.len())
            } else {
                None
            }
        }
        Place::Routine(_) => None,
        Place::Static(_) => None,
        Place::Text(_) => None,
    }
}

/// The number of words of the table with this label, or 0.
pub(crate) fn words_of(places: &[Place], wanted: usize) -> usize
    ensures { result ≡ table_from (map place_of places.now) 1 wanted }
{
    let mut index = 0usize;
    let mut left = places;
    while let [place, rest @ ..] = left {
        if let Some(words) = table_step(place, index + 1, wanted) {
            return words;
        }
        index += 1;
        left = rest;
    }
    0
}

/// The label, if the expression is the address of a place.
pub(crate) fn label_of(e: &CoreExp) -> Option<usize>
    ensures { IfSome result (λ m. exp e.now ≡ tree.Place m) }
{
    match e {
        CoreExp::Place(label) => Some(*label as usize),
        _ => None,
    }
}

/// The number, if the expression is the address of a global.
fn global_at(e: &CoreExp) -> Option<u16>
    ensures { IfSome result (λ g. exp e.now ≡ tree.Glob g) }
{
    match e {
        CoreExp::Glob(number) => Some(*number),
        _ => None,
    }
}

/// The number, if the expression is the content of a global.
pub(crate) fn global_of(e: &CoreExp) -> Option<u16>
    ensures { IfSome result (λ g. exp e.now ≡ tree.Load (tree.Glob g)) }
{
    match e {
        CoreExp::Load(address) => Some(global_at(address)?),
        _ => None,
    }
}

/// Whether a routine sets this global.
#[tactic(auto, using(crate::proofs::Globals::setter_here, crate::proofs::Globals::setter_else, crate::proofs::Globals::times_here, crate::proofs::Globals::times_else))]
fn sets(setter: &Setter, wanted: u16) -> bool
    ensures found { result ≡ true → (ss : List programs.Setter)
        → setter_for (setter_of setter.now ∷ ss) wanted ≡ Some (known setter.now.arguments setter.now.room) }
    ensures passed { result ≡ false → (ss : List programs.Setter) → setter_for (setter_of setter.now ∷ ss) wanted ≡ setter_for ss wanted }
    ensures counted { result ≡ true → (ss : List programs.Setter) → times_set (setter_of setter.now ∷ ss) wanted ≡ times_set ss wanted + 1 }
    ensures uncounted { result ≡ false → (ss : List programs.Setter) → times_set (setter_of setter.now ∷ ss) wanted ≡ times_set ss wanted }
{
    setter.global == wanted
}

/// The first of these routines that sets a global.
pub(crate) fn first_setter(setters: &[Setter], wanted: u16) -> Option<Setter>
    ensures found { IfSome result (λ s. setter_for (setters_in setters.now) wanted ≡ Some (known s.arguments s.room)) }
    ensures none { result ≡ None → setter_for (setters_in setters.now) wanted ≡ None }
{
    let mut left = setters;
    while let [first, rest @ ..] = left {
        if sets(first, wanted) {
            return Some(*first);
        }
        left = rest;
    }
    None
}

/// How many of these routines set a global. `None` if the number overflows.
fn times(setters: &[Setter], wanted: u16) -> Option<usize>
    ensures { IfSome result (λ n. times_set (setters_in setters.now) wanted ≡ n) }
{
    let mut found = 0usize;
    let mut left = setters;
    while let [first, rest @ ..] = left {
        if sets(first, wanted) {
            found = found.checked_add(1)?;
        }
        left = rest;
    }
    Some(found)
}

/// Whether a routine may set this global, which isn't START's.
#[tactic(auto, using(crate::proofs::Globals::may_true))]
pub(crate) fn may_be_set(setters: &[Setter], global: u16) -> bool
    ensures { result ≡ true → may_set (setters_in setters.now) (Some global) ≡ true }
{
    let found = match times(setters, global) {
        Some(found) => found,
        None => return false,
    };
    global < 512 && !is_set_by_library(global) && found == 1
}

/// How the routine that sets a global can be called through it, unless it is START.
#[tactic(auto, using(crate::proofs::Globals::own_true, crate::proofs::Globals::own_none, crate::proofs::Globals::start_none))]
pub(crate) fn own_setter(setters: &[Setter], global: u16) -> Option<Setter>
    ensures found { IfSome result (λ s. own_callable (setters_in setters.now) global ≡ Some (known s.arguments s.room)) }
    ensures none { result ≡ None → own_callable (setters_in setters.now) global ≡ None }
{
    if global == 1 {
        return None;
    }
    first_setter(setters, global)
}

/// How the routine of a global can be called.
#[tactic(auto, using(crate::proofs::Globals::own_first, crate::proofs::Globals::library_else))]
fn global_callable(setters: &[Setter], global: u16) -> Option<Known>
    ensures { IfSome result (λ k. callable_with (setters_in setters.now) global ≡ Some (known k.arguments k.room)) }
{
    match own_setter(setters, global) {
        Some(setter) => Some(Known {
            arguments: setter.arguments,
            room: setter.room,
        }),
        None => callable(global),
    }
}

/// How the routine that an expression names can be called.
pub(crate) fn called(at: At<'_>, e: &CoreExp) -> Option<Known>
    ensures { IfSome result (λ k. tame.called (env_at at.entry) (exp e.now) ≡ Some (known k.arguments k.room)) }
{
    if let Some(global) = global_of(e) {
        return global_callable(at.around.setters, global);
    }
    match e {
        CoreExp::Place(label) => routine_of(at.around, *label as usize),
        _ => None,
    }
}

/// The routine of the program that an expression names.
pub(crate) fn routine_named(at: At<'_>, e: &CoreExp) -> Option<RoutineAt> {
    if let Some(label) = label_of(e) {
        return Some(RoutineAt {
            section: at.around.section,
            label,
        });
    }
    Some(own_setter(at.around.setters, global_of(e)?)?.routine)
}
