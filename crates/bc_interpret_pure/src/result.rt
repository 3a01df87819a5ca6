//! The worth of an expression, or the answer that it isn't pure: first by the fast path, then by the machine.

ghost use Rattle.std.specs.Prelude.{IfOk};
ghost use Rattle.bc_core.specs.View.{exp};
ghost use Rattle.bc_interpret_pure.specs.Views.{sight_of, IsWorth, IsTruth};

use crate::calls::has_call;
use crate::context::Sight;
use crate::fast_path::{Quick, truth_at_once, value_at_once};
use crate::forms::Rest;
use crate::value::{Truth, Worth, decided, value_of};
use bc_core::CoreExp;
use bc_word::Memory;

/// Buffers that successive evaluations reuse, so that nothing is allocated once they have grown.
#[derive(Drop)]
pub struct Room<'c> {
    /// The continuations of the machine.
    pub rests: Vec<Rest<'c>>,
    /// The expressions that `has_call` has still to visit.
    pub waiting: Vec<&'c CoreExp>,
}

/// The worth of an expression, or `None` if it contains a call or a VALOF. The former contents of `room` are lost. Uses only bounded
/// native stack, however deep the tree is.
///
/// `Memory` if an allocation fails.
#[inline(always)]
pub fn worth_of<'c>(
    sight: &Sight<'_>,
    e: &'c CoreExp,
    room: &mut Room<'c>,
) -> Result<Option<Worth>, Memory>
    ensures { IfOk result (λ found. IsWorth (sight_of sight.now) (exp e.now) found) }
{
    match value_at_once(sight, e) {
        Quick::Is(v) => Ok(Some(Worth::Is(v))),
        Quick::Calls => Ok(None),
        Quick::Unknown => Ok(slow_worth(sight, e, room)?),
    }
}

/// `worth_of` without the fast path.
fn slow_worth<'c>(
    sight: &Sight<'_>,
    e: &'c CoreExp,
    room: &mut Room<'c>,
) -> Result<Option<Worth>, Memory>
    ensures { IfOk result (λ found. IsWorth (sight_of sight.now) (exp e.now) found) }
{
    if has_call(e, &mut room.waiting)? {
        return Ok(None);
    }
    let worth = value_of(sight, e, &mut room.rests)?;
    Ok(Some(worth))
}

/// The truth of an expression, or `None` if it contains a call or a VALOF. The former contents of `room` are lost. Uses only bounded
/// native stack, however deep the tree is.
///
/// `Memory` if an allocation fails.
#[inline(always)]
pub fn truth_of<'c>(
    sight: &Sight<'_>,
    e: &'c CoreExp,
    room: &mut Room<'c>,
) -> Result<Option<Truth>, Memory>
    ensures { IfOk result (λ found. IsTruth (sight_of sight.now) (exp e.now) found) }
{
    match truth_at_once(sight, e) {
        Quick::Is(v) => Ok(Some(Truth::Is(v != 0))),
        Quick::Calls => Ok(None),
        Quick::Unknown => Ok(slow_truth(sight, e, room)?),
    }
}

/// `truth_of` without the fast path.
fn slow_truth<'c>(
    sight: &Sight<'_>,
    e: &'c CoreExp,
    room: &mut Room<'c>,
) -> Result<Option<Truth>, Memory>
    ensures { IfOk result (λ found. IsTruth (sight_of sight.now) (exp e.now) found) }
{
    if has_call(e, &mut room.waiting)? {
        return Ok(None);
    }
    let truth = decided(sight, e, &mut room.rests)?;
    Ok(Some(truth))
}
