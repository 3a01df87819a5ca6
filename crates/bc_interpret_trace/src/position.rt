//! Positions in a body, by the continuations that take the answers of the parts around them.
//!
//! A rest is what is usually called a continuation frame, and here a continuation.

ghost use Rattle.std.specs.Prelude.{◌≡◌, [], ◌∷◌, None};
ghost use Rattle.bc_interpret_defs.specs.Trails as trails;
ghost use Rattle.bc_interpret_defs.specs.Trails.{position_in};
ghost use Rattle.bc_interpret_steps.specs.Code.{stacked, value_rest, truth_rest, nothing_rest, exit_rest};
ghost use Rattle.bc_interpret_trace.specs.Positions.{saturated, joined};

use crate::roots::{roots_of_block, roots_of_declarations, roots_of_items, roots_of_variables};
use bc_interpret_steps::{ExitRest, NothingRest, Rest, TruthRest, ValueRest};

/// A position in a body, as far as some of the continuations tell: a row of them, from the innermost on.
#[derive(Clone, Copy)]
pub(crate) struct Position {
    /// The number of the VALOF whose body contains the position, if one of the continuations is the outermost one of that body. Those further
    /// out say nothing about the position then.
    pub valof: Option<usize>,
    /// How many roots of the body follow the position.
    pub following: u64,
}

impl Position {
    /// The position before any continuation has been read.
    pub(crate) fn new() -> Position
        ensures { result ≡ saturated (position_in []) }
    {
        only(0)
    }

    /// The position by the continuations that have told `self`, and then those that tell `outer`.
    pub(crate) fn joined(self, outer: Position) -> Position
        ensures { (p q : trails.Position) → self ≡ saturated p → outer ≡ saturated q → result ≡ saturated (joined p q) }
    {
        match self.valof {
            Some(_) => self,
            None => Position {
                valof: outer.valof,
                following: self.following.saturating_add(outer.following),
            },
        }
    }
}

/// A position that so many roots follow, in no VALOF as far as is known.
fn only(following: u64) -> Position
    ensures { result ≡ record { valof = None; following = following } }
{
    Position {
        valof: None,
        following,
    }
}

/// What one continuation tells about the position of the part whose answer it takes.
pub(crate) fn position_by(rest: &Rest<'_>) -> Position
    ensures { result ≡ saturated (position_in (stacked [] [] rest.now)) }
{
    match rest {
        Rest::Value(rest) => by_value(rest),
        Rest::Truth(rest) => by_truth(rest),
        Rest::Nothing(rest) => by_nothing(rest),
        Rest::Exit(rest) => by_exit(rest),
        Rest::Number(_) | Rest::Calls(_, _) | Rest::Closes(_, _, _) | Rest::Given(_, _) => only(0),
    }
}

/// What a continuation tells that takes the number of an expression in a command.
fn by_value(rest: &ValueRest<'_>) -> Position
    ensures { result ≡ saturated (position_in (value_rest rest.now ∷ [])) }
{
    match rest {
        ValueRest::Fors(_, _, body) => only(roots_of_block(body)),
        ValueRest::Switches(_, items) => only(roots_of_items(items)),
        ValueRest::Stores(_, _)
        | ValueRest::Stored(_)
        | ValueRest::StoresAt(_)
        | ValueRest::Drops
        | ValueRest::Leaves => only(0),
    }
}

/// What a continuation tells that takes a truth.
fn by_truth(rest: &TruthRest<'_>) -> Position
    ensures { result ≡ saturated (position_in (truth_rest rest.now ∷ [])) }
{
    match rest {
        TruthRest::Ifs(_, _, body) | TruthRest::Whiles(_, _, body) => only(roots_of_block(body)),
        TruthRest::Chooses(_, this, that) => {
            only(roots_of_block(this).saturating_add(roots_of_block(that)))
        }
        TruthRest::Opposes
        | TruthRest::Conjoins(_, _)
        | TruthRest::Disjoins(_, _)
        | TruthRest::Selects(_, _, _)
        | TruthRest::RepeatWhiles(_, _, _) => only(0),
    }
}

/// What a continuation tells that follows an assignment or an initialiser.
fn by_nothing(rest: &NothingRest<'_>) -> Position
    ensures { result ≡ saturated (position_in (nothing_rest rest.now ∷ [])) }
{
    match rest {
        NothingRest::Limits(_, _, _, body) => only(roots_of_block(body).saturating_add(1)),
        NothingRest::Declares(_, declarations, items, _) => {
            only(roots_of_declarations(declarations).saturating_add(roots_of_items(items)))
        }
        NothingRest::Initialises(_, variables, _) => only(roots_of_variables(variables)),
        NothingRest::Passes => only(0),
    }
}

/// What a continuation tells that takes an exit.
fn by_exit(rest: &ExitRest<'_>) -> Position
    ensures { result ≡ saturated (position_in (exit_rest rest.now ∷ [])) }
{
    match rest {
        ExitRest::Results(valof) => Position {
            valof: Some(*valof as usize),
            following: 0,
        },
        ExitRest::Skips(that) => only(roots_of_block(that)),
        ExitRest::RepeatWhileBody(_, _, _) => only(1),
        ExitRest::Follows(_, items) => only(roots_of_items(items)),
        ExitRest::Returns
        | ExitRest::WhileBody(_, _, _)
        | ExitRest::RepeatBody(_, _)
        | ExitRest::ForBody(_, _)
        | ExitRest::Cases
        | ExitRest::Listed(_, _) => only(0),
    }
}
