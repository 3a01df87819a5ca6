//! Makes the trail of a run: the calls that are open, and the position in each of the newest.

ghost use Rattle.std.specs.Prelude.{◌≡◌, map, take, count_by, IfOk};
ghost use Rattle.std.specs.Option.{is_some};
ghost use Rattle.bc_interpret_defs.specs.Trails as trails;
ghost use Rattle.bc_interpret_steps.specs.Code.{stack, open_call};
ghost use Rattle.bc_interpret_trace.specs.Opened.{opened};
ghost use Rattle.bc_interpret_trace.specs.Positions.{saturated};
ghost use Rattle.bc_interpret_trace.specs.Shown.{shown, Shows};

use crate::position::{Position, position_by};
use bc_interpret_steps::{OpenCall, Rest};
use bc_word::Memory;
use std::alloc::Global;

/// Where a run is in one of its calls.
#[derive(Clone, Copy, Debug, PartialEq, Eq)]
pub struct Standing {
    /// The address that was called.
    pub routine: u16,
    /// The address of the call's frame.
    pub frame: usize,
    /// The number, in its section, of the VALOF whose body contains the position, if any.
    pub valof: Option<usize>,
    /// How many roots (expressions, tests and assignments) of the body follow the position in the text.
    pub following: u64,
}

/// Where a run is.
#[derive(Debug, Drop)]
pub struct Trail {
    /// Its newest calls, the newest first, at most ten.
    pub standings: Vec<Standing>,
    /// The number of calls that it is in.
    pub calls: usize,
}

/// The greatest number of calls in a trail.
const MOST: usize = 10;

/// Where the run is, by its continuations: the calls that are open, the newest first, and the position in each of the newest ten.
///
/// `Memory` if an allocation fails.
#[tactic(auto, using(crate::proofs::Reading::calls_counted))]
pub fn trail_in(alloc: Global, rests: &[Rest<'_>]) -> Result<Trail, Memory>
    ensures { IfOk result (λ trail. Shows trail (trails.trail_in (stack rests.now))) }
{
    let standings = newest(alloc, rests)?;
    Ok(Trail {
        standings,
        calls: count(rests),
    })
}

/// The number of calls that are open.
fn count(rests: &[Rest<'_>]) -> usize
    ensures { result ≡ count_by (λ rest. is_some (opened rest)) rests.now }
{
    rests
        .iter()
        .filter(|rest| opened_by(rest).is_some())
        .count()
}

/// The newest of the open calls, at most ten, the newest first, each with the position in it.
///
/// `Memory` if an allocation fails.
fn newest(alloc: Global, rests: &[Rest<'_>]) -> Result<Vec<Standing>, Memory>
    ensures { IfOk result (λ standings. standings.items ≡ map shown (take 10 (trails.trail_in (stack rests.now)))) }
{
    let mut standings = Vec::new(alloc);
    let mut position = Position::new();
    let mut left = rests.len();
    while left > 0 && standings.len() < MOST {
        left -= 1;
        let rest = &rests[left];
        match opened_by(rest) {
            Some(call) => {
                standings.push(standing_in(call, position))?;
                position = Position::new();
            }
            None => position = position.joined(position_by(rest)),
        }
    }
    Ok(standings)
}

/// The call that is over once this continuation is done.
fn opened_by(rest: &Rest<'_>) -> Option<OpenCall>
    ensures { result ≡ opened rest.now }
{
    match rest {
        Rest::Closes(call, _, _) => *call,
        Rest::Number(_)
        | Rest::Value(_)
        | Rest::Calls(_, _)
        | Rest::Truth(_)
        | Rest::Nothing(_)
        | Rest::Exit(_)
        | Rest::Given(_, _) => None,
    }
}

/// Where the run is in this call, given its position there.
fn standing_in(call: OpenCall, position: Position) -> Standing
    ensures { (p : trails.Position) → position ≡ saturated p → result ≡ shown (record { call = open_call call; position = p }) }
{
    Standing {
        routine: call.routine,
        frame: call.frame as usize,
        valof: position.valof,
        following: position.following,
    }
}
