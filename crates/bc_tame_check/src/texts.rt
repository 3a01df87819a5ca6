//! Which expressions are the address of a string constant.

ghost use Rattle.std.specs.Prelude.{◌≡◌, ◌+◌, ◌∷◌, true, false, None, IfSome, map, ℕ, List, Option, Bool};
ghost use Rattle.bc_core.specs.View.{place_of, exp, body_of};
ghost use Rattle.bc_core.specs.Commands.{Place as CorePlace};
ghost use Rattle.bc_core.specs.Tree.{Load};
ghost use Rattle.bc_tame.specs.Tame.{Knows, is_text, note_of};
ghost use Rattle.bc_tame.specs.Programs.{text_from, gives_text, gives_from};
ghost use Rattle.bc_tame_check.specs.Views.{reads_at};

use crate::at::At;
use crate::bounds::offsets_at;
use crate::held::Test;
use crate::knows::all_between;
use crate::lookup::{label_of, text_of};
use bc_core::{Body, CoreExp, Place};

/// Whether an expression is a string constant or chooses one.
#[tactic(auto, using(crate::proofs::Strings::place_text, crate::proofs::Strings::choice_text))]
fn is_constant(places: &[Place], e: &CoreExp) -> bool
    ensures { result ≡ true → (gives : ℕ → Bool) (R : Knows)
        → is_text (note_of (text_from (map place_of places.now) 1) gives R (exp e.now)) ≡ true }
{
    match e {
        CoreExp::Place(label) => text_of(places, *label as usize).is_some(),
        CoreExp::Cond(_, this, that) => is_constant(places, this) && is_constant(places, that),
        _ => false,
    }
}

/// Compares a place with this label with the routine that is searched for.
#[tactic(auto, using(crate::proofs::Strings::gives_here, crate::proofs::Strings::gives_else))]
fn body_step<'a>(place: &'a Place, label: usize, wanted: usize) -> Option<&'a Body>
    ensures found { IfSome result (λ body. (text : ℕ → Option (List ℕ)) (ps : List CorePlace)
        → gives_from text (place_of place.now ∷ ps) label wanted ≡ gives_text text (body_of body.now)) }
    ensures passed { result ≡ None → (text : ℕ → Option (List ℕ)) (ps : List CorePlace)
        → gives_from text (place_of place.now ∷ ps) label wanted ≡ gives_from text ps (label + 1) wanted }
{
    match place {
        Place::Routine(routine) => {
            if label == wanted {
                Some(&routine.body)
            } else {
                None
            }
        }
        Place::Static(_) => None,
        Place::Table(_) => None,
        Place::Text(_) => None,
    }
}

/// The body of the routine with this label.
fn body_with<'a>(places: &'a [Place], wanted: usize) -> Option<&'a Body>
    ensures { IfSome result (λ body. (text : ℕ → Option (List ℕ)) → gives_from text (map place_of places.now) 1 wanted ≡ gives_text text (body_of body.now)) }
{
    let mut label = 1usize;
    let mut left = places;
    while let [place, rest @ ..] = left {
        if let Some(body) = body_step(place, label, wanted) {
            return Some(body);
        }
        label = label.checked_add(1)?;
        left = rest;
    }
    None
}

/// Whether the routine with this label returns a string constant.
fn is_giving(places: &[Place], wanted: usize) -> bool
    ensures { result ≡ true → gives_from (text_from (map place_of places.now) 1) (map place_of places.now) 1 wanted ≡ true }
{
    match body_with(places, wanted) {
        Some(Body::Value(e)) => is_constant(places, e),
        _ => false,
    }
}

/// Whether an address is that of cells of vectors that hold strings.
#[tactic(auto, using(crate::proofs::Strings::cells_text))]
fn are_strings(at: At<'_>, address: &CoreExp) -> bool
    ensures { result ≡ true → is_text (note_of (text_from (map place_of at.entry.around.places.now) 1)
        (gives_from (text_from (map place_of at.entry.around.places.now) 1) (map place_of at.entry.around.places.now) 1)
        (reads_at at.entry) (Load (exp address.now))) ≡ true }
{
    match offsets_at(at, address) {
        Ok(Some(cells)) => all_between(at, Test::String, cells),
        _ => false,
    }
}

/// Whether an expression is the address of a string constant: such a constant, what a cell holds that was set to one, a choice of two, or a
/// call of a routine that returns one.
#[tactic(auto, using(crate::proofs::Strings::call_text, crate::proofs::Strings::choice_text))]
pub(crate) fn is_string(at: At<'_>, e: &CoreExp) -> bool
    ensures { result ≡ true → is_text (note_of (text_from (map place_of at.entry.around.places.now) 1)
        (gives_from (text_from (map place_of at.entry.around.places.now) 1) (map place_of at.entry.around.places.now) 1)
        (reads_at at.entry) (exp e.now)) ≡ true }
{
    match e {
        CoreExp::Call(_, routine) => match label_of(routine) {
            Some(label) => is_giving(at.around.places, label),
            None => false,
        },
        CoreExp::Cond(_, this, that) => is_string(at, this) && is_string(at, that),
        CoreExp::Load(address) => are_strings(at, address),
        _ => is_constant(at.around.places, e),
    }
}
