//! Whether two expressions may be evaluated in either order.

ghost use Rattle.std.specs.Prelude.{◌≡◌};
ghost use Rattle.bc_core.specs.View.{exp, args};
ghost use Rattle.bc_core.specs.Value.{has_call};
ghost use Rattle.bc_rules_defs.specs.Free.{are_free, is_direct};

use bc_core::{CoreExp, operand};

/// Whether an expression is a direct operand: a number or an address rather than the content of a cell.
pub fn direct(e: &CoreExp) -> bool
    ensures { result ≡ is_direct (exp e.now) }
{
    match operand(e) {
        Some(o) => o.direct,
        None => false,
    }
}

/// Whether an expression contains a call or a VALOF.
fn calls(e: &CoreExp) -> bool
    ensures { result ≡ has_call (exp e.now) }
{
    match e {
        CoreExp::Load(e) => calls(e),
        CoreExp::Neg(e) => calls(e),
        CoreExp::Not(e) => calls(e),
        CoreExp::Bin(_, a, b) => calls(a) || calls(b),
        CoreExp::Cond(c, x, y) => calls(c) || calls(x) || calls(y),
        CoreExp::Call(_, _) | CoreExp::Valof(_) => true,
        CoreExp::Num(_) | CoreExp::Frame(_) | CoreExp::Glob(_) | CoreExp::Place(_) => false,
    }
}

/// Whether two expressions are free, that is, may be evaluated in either order: neither contains a call or a VALOF, or
/// one of them is a direct operand. Walks both expressions.
pub fn free(a: &CoreExp, b: &CoreExp) -> bool
    ensures { result ≡ are_free (exp a.now) (exp b.now) }
{
    !(calls(a) || calls(b)) || direct(a) || direct(b)
}
