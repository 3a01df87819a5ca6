//! Whether an expression contains a call or a VALOF, decided without recursion.

ghost use Rattle.std.specs.Prelude.{◌≡◌, IfOk};
ghost use Rattle.bc_core.specs.Value.{has_call as has_call_in};
ghost use Rattle.bc_core.specs.View.{exp};

use bc_core::CoreExp;
use bc_word::Memory;

/// Whether an expression contains a call or a VALOF. The former contents of `waiting` are lost; it is passed in so that its memory is
/// reused. Uses no native stack for the depth of the tree.
///
/// `Memory` if an allocation fails.
#[tactic(auto, using(crate::proofs::Waits::any_more, crate::proofs::Waits::weight_more))]
pub(crate) fn has_call<'c>(e: &'c CoreExp, waiting: &mut Vec<&'c CoreExp>) -> Result<bool, Memory>
    ensures { IfOk result (λ t. t ≡ has_call_in (exp e.now)) }
{
    waiting.clear();
    waiting.push(e)?;
    while let Some(next) = waiting.pop() {
        match next {
            CoreExp::Num(_) | CoreExp::Frame(_) | CoreExp::Glob(_) | CoreExp::Place(_) => {}
            CoreExp::Load(part) | CoreExp::Neg(part) | CoreExp::Not(part) => waiting.push(part)?,
            CoreExp::Bin(_, left, right) => {
                waiting.push(left)?;
                waiting.push(right)?;
            }
            CoreExp::Cond(condition, this, that) => {
                waiting.push(condition)?;
                waiting.push(this)?;
                waiting.push(that)?;
            }
            CoreExp::Call(_, _) | CoreExp::Valof(_) => return Ok(true),
        }
    }
    Ok(false)
}
