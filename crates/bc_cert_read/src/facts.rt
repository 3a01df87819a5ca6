//! What the rules need to know of a part of a node. It is computed once for each part, so that a rule needn't look at expressions.

ghost use Rattle.std.specs.Prelude.{◌≡◌};
ghost use Rattle.bc_core.specs.View.{exp};
ghost use Rattle.bc_core.specs.Operand.{constant_of};
ghost use Rattle.bc_select_defs.specs.Choices.{zero_number};
ghost use Rattle.bc_cert_read.specs.Recipe.{free, facts_of, words_of_operand_of, is_direct_expression};

use bc_cert_defs::Costs;
use bc_core::{CoreExp, constant, operand};
use bc_rules_defs::operand_words;

/// What the rules need to know of a part.
#[derive(Clone, Copy)]
pub struct Facts {
    /// The words of an instruction that has the part as its operand. None if it can't be an operand.
    pub operand: Option<u8>,
    /// Whether it is an operand that is a number or an address, and not the content of a cell.
    pub is_direct: bool,
    /// Its number, if it is a number.
    pub constant: Option<u16>,
    /// Whether it contains a call or a VALOF.
    pub calls: bool,
    /// Its words, as its node line states them. That line has been judged, so they are the least.
    pub costs: Costs,
}

impl Facts {
    /// The facts of an expression. `calls` says whether it contains a call or a VALOF.
    pub fn of(e: &CoreExp, calls: bool, costs: Costs) -> Facts
        ensures { result ≡ facts_of (exp e.now) calls costs }
    {
        let (operand, is_direct) = as_operand(e);
        Facts {
            operand,
            is_direct,
            constant: number_of(e),
            calls,
            costs,
        }
    }

    /// Whether it is the number 0.
    #[inline(always)]
    pub fn is_zero(&self) -> bool
        ensures { result ≡ zero_number self.now.constant }
    {
        match self.constant {
            Some(number) => number == 0,
            None => false,
        }
    }
}

/// The words of an instruction that has the expression as its operand. None if it can't be an operand.
pub fn words_as_operand(e: &CoreExp) -> Option<u8>
    ensures { result ≡ words_of_operand_of (exp e.now) }
{
    match operand(e) {
        Some(operand) => Some(operand_words(operand) as u8),
        None => None,
    }
}

/// The same, and whether the operand is a number or an address, and not the content of a cell.
fn as_operand(e: &CoreExp) -> (Option<u8>, bool)
    ensures { result ≡ (words_of_operand_of (exp e.now), is_direct_expression (exp e.now)) }
{
    match operand(e) {
        Some(operand) => {
            let is_direct = operand.direct;
            (Some(operand_words(operand) as u8), is_direct)
        }
        None => (None, false),
    }
}

/// The number of an expression that is a number.
fn number_of(e: &CoreExp) -> Option<u16>
    ensures { result ≡ constant_of (exp e.now) }
{
    match constant(e) {
        Some(number) => Some(number.get()),
        None => None,
    }
}

/// Whether two parts may be evaluated in either order: neither contains a call or VALOF, or one of them is a number or an address.
#[inline(always)]
pub fn are_free(a: &Facts, b: &Facts) -> bool
    ensures { result ≡ free a.now b.now }
{
    !(a.calls || b.calls) || a.is_direct || b.is_direct
}
