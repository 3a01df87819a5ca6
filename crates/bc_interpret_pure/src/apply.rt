//! Popping a continuation: what it does with a number, with a truth, and after a zero divisor.

ghost use Rattle.std.specs.Prelude.{List, IfOk};
ghost use Rattle.bc_interpret_defs.specs.Quiet.{QuietRest, Loads, number_taken as takes_number, verdict_taken as takes_verdict, divided as divides};
ghost use Rattle.bc_interpret_pure.specs.Views.{sight_of, rest_of, stack, Came};

use crate::context::{Cause, Sight};
use crate::forms::{Rest, Step, Work, put};
use bc_interpret_store::Cell;
use bc_word::{Memory, Word, apply};

/// Reads the cell at this address; fails if it is dead or unset.
#[inline(always)]
#[tactic(auto, using(crate::proofs::Steps::loaded_dead, crate::proofs::Steps::loaded_unset, crate::proofs::Steps::loaded_set))]
fn load<'c>(sight: &Sight<'_>, address: u16) -> Step<'c>
    ensures { (rs : List QuietRest) → Came result (takes_number (sight_of sight.now) Loads address rs) rs }
{
    match sight.store.at(address) {
        Cell::Dead => Step::Fails(Cause::Dead(address)),
        Cell::Unset => Step::Fails(Cause::Unset(address)),
        Cell::Set(word) => Step::On(Work::Number(word)),
    }
}

/// Gives a number to this continuation, which was popped off `rests`. A continuation that takes a truth fails as `Malformed`.
///
/// `Memory` if an allocation fails.
#[tactic(auto, using(crate::proofs::Steps::operated, crate::proofs::Steps::not_operated))]
pub(crate) fn number_taken<'c>(
    sight: &Sight<'_>,
    rest: &Rest<'c>,
    v: u16,
    rests: &mut Vec<Rest<'c>>,
) -> Result<Step<'c>, Memory>
    ensures { IfOk result (λ step. Came step (takes_number (sight_of sight.now) (rest_of rest.now) v (stack rests.old.items)) (stack rests.new.items)) }
{
    match rest {
        Rest::Loads => Ok(load(sight, v)),
        Rest::Negates => Ok(Step::On(Work::Number(Word::new(v).negated().get()))),
        Rest::Complements => Ok(Step::On(Work::Number(Word::new(v).complemented().get()))),
        Rest::Tests => Ok(Step::On(Work::Verdict(v != 0))),
        Rest::Operates(op, e) => {
            put(Rest::Operated(*op, v), rests)?;
            Ok(Step::On(Work::Evaluate(e)))
        }
        Rest::Operated(op, x) => match apply(*op, Word::new(*x), Word::new(v)) {
            Some(w) => Ok(Step::On(Work::Number(w.get()))),
            None => Ok(Step::On(Work::Divided)),
        },
        Rest::Beside => Ok(Step::On(Work::Divided)),
        Rest::Opposes | Rest::Conjoins(_) | Rest::Disjoins(_) | Rest::Selects(_, _) => {
            Ok(Step::Fails(Cause::Malformed))
        }
    }
}

/// Gives a truth to this continuation. A continuation that takes a number fails as `Malformed`.
pub(crate) fn verdict_taken<'c>(rest: &Rest<'c>, t: bool) -> Step<'c>
    ensures { (rs : List QuietRest) → Came result (takes_verdict (rest_of rest.now) t rs) rs }
{
    match rest {
        Rest::Opposes => Step::On(Work::Verdict(!t)),
        Rest::Conjoins(e) => Step::On(if t {
            Work::Decide(e)
        } else {
            Work::Verdict(false)
        }),
        Rest::Disjoins(e) => Step::On(if t {
            Work::Verdict(true)
        } else {
            Work::Decide(e)
        }),
        Rest::Selects(this, that) => Step::On(Work::Evaluate(if t { this } else { that })),
        Rest::Loads
        | Rest::Negates
        | Rest::Complements
        | Rest::Tests
        | Rest::Operates(_, _)
        | Rest::Operated(_, _)
        | Rest::Beside => Step::Fails(Cause::Malformed),
    }
}

/// Passes a zero divisor to this continuation. If it holds a second operand, that is still evaluated, since a wild access in it takes
/// precedence; every other continuation is dropped.
///
/// `Memory` if an allocation fails.
pub(crate) fn divided<'c>(rest: &Rest<'c>, rests: &mut Vec<Rest<'c>>) -> Result<Step<'c>, Memory>
    ensures { IfOk result (λ step. Came step (divides (rest_of rest.now) (stack rests.old.items)) (stack rests.new.items)) }
{
    match rest {
        Rest::Operates(_, e) => {
            put(Rest::Beside, rests)?;
            Ok(Step::On(Work::Evaluate(e)))
        }
        Rest::Loads
        | Rest::Negates
        | Rest::Complements
        | Rest::Tests
        | Rest::Operated(_, _)
        | Rest::Beside
        | Rest::Opposes
        | Rest::Conjoins(_)
        | Rest::Disjoins(_)
        | Rest::Selects(_, _) => Ok(Step::On(Work::Divided)),
    }
}
