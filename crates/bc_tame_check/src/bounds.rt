//! Bounds of what expressions are worth, and of the cells that an address may be.

ghost use Rattle.std.specs.Prelude.{◌≡◌, ◌+◌, ◌*◌, ◌||◌, ◌&&◌, nat_lt, true, false, Some, None, ℕ, IfOk, IfSome};
ghost use Rattle.bc_word.specs.declared.operator.Op.TheVariants.{Add};
ghost use Rattle.bc_core.specs.Tree.{Exp, Bin, Load};
ghost use Rattle.bc_core.specs.View.{exp};
ghost use Rattle.bc_tame.specs.Tame as tame;
ghost use Rattle.bc_tame.specs.Tame.{Knows};
ghost use Rattle.bc_tame_check.specs.Views.{held_of, bounds_in, bounds_found, combined, local_in, content_in, element_at, test_of, env_at, reads_at};

use crate::at::At;
use crate::held::{Bounds, Held, Test, TooLarge};
use crate::knows::{all_between, held_at};
use crate::lookup::words_of;
use crate::walk::number;
use bc_core::CoreExp;
use bc_word::Op;

/// The sum of two numbers.
pub(crate) fn plus(a: usize, b: usize) -> Result<usize, TooLarge>
    ensures { IfOk result (λ r. r ≡ a + b) }
{
    a.checked_add(b).ok_or(TooLarge)
}

/// The product of two numbers.
fn times(a: usize, b: usize) -> Result<usize, TooLarge>
    ensures { IfOk result (λ r. r ≡ a * b) }
{
    a.checked_mul(b).ok_or(TooLarge)
}

/// The bounds of a sum.
#[tactic(auto, using(crate::proofs::Bounded::sum_word, crate::proofs::Bounded::sum_large))]
fn sum_of(left: Option<Bounds>, right: Option<Bounds>) -> Result<Option<Bounds>, TooLarge>
    ensures { IfOk result (λ b. bounds_found b ≡ tame.sum_of (bounds_found left) (bounds_found right)) }
{
    let Some(x) = left else {
        return Ok(None);
    };
    let Some(y) = right else {
        return Ok(None);
    };
    let least = plus(x.least, y.least)?;
    let greatest = plus(x.greatest, y.greatest)?;
    if greatest < 65536 {
        Ok(Some(Bounds { least, greatest }))
    } else {
        Ok(None)
    }
}

/// The bounds of a difference.
#[tactic(auto, using(crate::proofs::Bounded::difference_word, crate::proofs::Bounded::difference_negative))]
fn difference_of(left: Option<Bounds>, right: Option<Bounds>) -> Option<Bounds>
    ensures { bounds_found result ≡ tame.difference_of (bounds_found left) (bounds_found right) }
{
    let Some(x) = left else {
        return None;
    };
    let Some(y) = right else {
        return None;
    };
    if y.greatest <= x.least {
        Some(Bounds {
            least: x.least - y.greatest,
            greatest: x.greatest.saturating_sub(y.least),
        })
    } else {
        None
    }
}

/// The bounds of a product.
#[tactic(auto, using(crate::proofs::Bounded::product_word, crate::proofs::Bounded::product_large))]
fn product_of(left: Option<Bounds>, right: Option<Bounds>) -> Result<Option<Bounds>, TooLarge>
    ensures { IfOk result (λ b. bounds_found b ≡ tame.product_of (bounds_found left) (bounds_found right)) }
{
    let Some(x) = left else {
        return Ok(None);
    };
    let Some(y) = right else {
        return Ok(None);
    };
    let least = times(x.least, y.least)?;
    let greatest = times(x.greatest, y.greatest)?;
    if greatest < 65536 {
        Ok(Some(Bounds { least, greatest }))
    } else {
        Ok(None)
    }
}

/// The bounds of an operator's value.
fn operated(op: Op, left: Option<Bounds>, right: Option<Bounds>) -> Result<Option<Bounds>, TooLarge>
    ensures { IfOk result (λ b. bounds_found b ≡ combined op (bounds_found left) (bounds_found right)) }
{
    match op {
        Op::Add => sum_of(left, right),
        Op::Subtract => Ok(difference_of(left, right)),
        Op::Multiply => product_of(left, right),
        Op::Divide | Op::Remainder => Ok(None),
        Op::Equal | Op::NotEqual => Ok(None),
        Op::Less | Op::GreaterEqual | Op::Greater | Op::LessEqual => Ok(None),
        Op::ShiftLeft | Op::ShiftRight => Ok(None),
        Op::And | Op::Or | Op::NotEquivalent | Op::Equivalent => Ok(None),
    }
}

/// The bounds of what a cell holds.
fn bounds_of_held(holds: Held) -> Option<Bounds>
    ensures { bounds_found result ≡ tame.bounds_of_held (held_of holds) }
{
    match holds {
        Held::Between(bounds) => Some(bounds),
        Held::Nothing | Held::Cell | Held::Word => None,
        Held::StringAt(_) | Held::VectorOf(_) | Held::TableAt(_) => None,
    }
}

/// The offset of a local variable, if the expression is its address.
fn local_of(e: &CoreExp) -> Option<usize>
    ensures whole { result ≡ local_in (exp e.now) }
    ensures found { IfSome result (λ k. local_in (exp e.now) ≡ Some k) }
    ensures none { result ≡ None → local_in (exp e.now) ≡ None }
{
    match e {
        CoreExp::Frame(offset) => Some(*offset as usize),
        CoreExp::Num(_) | CoreExp::Glob(_) | CoreExp::Place(_) | CoreExp::Valof(_) => None,
        CoreExp::Load(_) | CoreExp::Neg(_) | CoreExp::Not(_) => None,
        CoreExp::Bin(_, _, _) | CoreExp::Cond(_, _, _) | CoreExp::Call(_, _) => None,
    }
}

/// The offset of a local variable, if the expression is its content.
pub(crate) fn content_of(e: &CoreExp) -> Option<usize>
    ensures whole { result ≡ content_in (exp e.now) }
    ensures found { IfSome result (λ k. content_in (exp e.now) ≡ Some k) }
{
    match e {
        CoreExp::Load(address) => local_of(address),
        CoreExp::Num(_) | CoreExp::Frame(_) | CoreExp::Glob(_) | CoreExp::Place(_) => None,
        CoreExp::Neg(_) | CoreExp::Not(_) | CoreExp::Valof(_) => None,
        CoreExp::Bin(_, _, _) | CoreExp::Cond(_, _, _) | CoreExp::Call(_, _) => None,
    }
}

/// The bounds of what the cell at an address holds.
#[tactic(auto, using(crate::proofs::Bounded::loaded_local, crate::proofs::Bounded::loaded_else))]
fn bounds_at(at: At<'_>, address: &CoreExp) -> Option<Bounds>
    ensures { bounds_found result ≡ tame.bounds_of (reads_at at.entry) (Load (exp address.now)) }
{
    match local_of(address) {
        Some(offset) => bounds_of_held(held_at(at, offset)),
        None => None,
    }
}

/// The bounds of an expression's value.
#[tactic(auto, using(crate::proofs::Bounded::operated_bounds, crate::proofs::Bounded::number_bounds))]
pub(crate) fn bounds_of(at: At<'_>, e: &CoreExp) -> Result<Option<Bounds>, TooLarge>
    ensures { IfOk result (λ b. bounds_found b ≡ tame.bounds_of (reads_at at.entry) (exp e.now)) }
{
    match e {
        CoreExp::Num(word) => {
            let _number = number(word.get());
            let number = word.get() as usize;
            Ok(Some(Bounds {
                least: number,
                greatest: number,
            }))
        }
        CoreExp::Load(address) => Ok(bounds_at(at, address)),
        CoreExp::Bin(op, left, right) => {
            let this = bounds_of(at, left)?;
            let that = bounds_of(at, right)?;
            operated(*op, this, that)
        }
        CoreExp::Frame(_) | CoreExp::Glob(_) | CoreExp::Place(_) | CoreExp::Valof(_) => Ok(None),
        CoreExp::Neg(_) | CoreExp::Not(_) => Ok(None),
        CoreExp::Cond(_, _, _) | CoreExp::Call(_, _) => Ok(None),
    }
}

/// The offsets of the cells of the vector whose address is at an offset, with an index within bounds.
#[tactic(auto, using(crate::proofs::Bounded::vector_within, crate::proofs::Bounded::vector_beyond))]
fn in_vector(offset: usize, holds: Held, index: Option<Bounds>) -> Result<Option<Bounds>, TooLarge>
    ensures { IfOk result (λ b. bounds_found b ≡ tame.in_vector offset (held_of holds) (bounds_found index)) }
{
    match holds {
        Held::VectorOf(greatest) => match index {
            Some(index) => {
                let first = plus(offset, 1)?;
                let cells = Bounds {
                    least: plus(first, index.least)?,
                    greatest: plus(first, index.greatest)?,
                };
                if index.greatest <= greatest {
                    Ok(Some(cells))
                } else {
                    Ok(None)
                }
            }
            None => Ok(None),
        },
        Held::Nothing | Held::Cell | Held::Word => Ok(None),
        Held::StringAt(_) | Held::TableAt(_) | Held::Between(_) => Ok(None),
    }
}

/// The offsets of the cells of a vector that is a local variable, with an index within bounds.
fn element_of(
    at: At<'_>,
    vector: Option<usize>,
    index: Option<Bounds>,
) -> Result<Option<Bounds>, TooLarge>
    ensures { IfOk result (λ b. bounds_found b ≡ element_at (reads_at at.entry) vector (bounds_found index)) }
{
    match vector {
        Some(offset) => in_vector(offset, held_at(at, offset), index),
        None => Ok(None),
    }
}

/// The first one, if there is one, else the second.
fn either(first: Option<Bounds>, second: Option<Bounds>) -> Option<Bounds>
    ensures { bounds_found result ≡ tame.or_bounds (bounds_found first) (bounds_found second) }
{
    match first {
        Some(bounds) => Some(bounds),
        None => second,
    }
}

/// The offsets of the cells of a vector at the sum of two expressions, its address and an index.
#[tactic(auto, using(crate::proofs::Bounded::cells_of_sum))]
fn cells_at_sum(at: At<'_>, left: &CoreExp, right: &CoreExp) -> Result<Option<Bounds>, TooLarge>
    ensures { IfOk result (λ b. bounds_found b ≡ tame.offsets_at (reads_at at.entry) (Bin Add (exp left.now) (exp right.now))) }
{
    let this = element_of(at, content_of(left), bounds_of(at, right)?)?;
    let that = element_of(at, content_of(right), bounds_of(at, left)?)?;
    Ok(either(this, that))
}

/// The offset of a vector's first cell.
#[tactic(auto, using(crate::proofs::Bounded::first_cell_of))]
fn first_cell(at: At<'_>, vector: &CoreExp) -> Result<Option<Bounds>, TooLarge>
    ensures { IfOk result (λ b. bounds_found b ≡ tame.offsets_at (reads_at at.entry) (Load (exp vector.now))) }
{
    let none = Bounds {
        least: 0,
        greatest: 0,
    };
    element_of(at, local_of(vector), Some(none))
}

/// Whether an operator is a sum.
pub(crate) fn is_sum(op: Op) -> bool
    ensures yes { result ≡ true → op ≡ Add }
    ensures no { result ≡ false → (R : Knows) (x y : Exp) → None ≡ tame.offsets_at R (Bin op x y) }
    ensures unindexed { result ≡ false → (i : ℕ) (x y : Exp) → None ≡ tame.indexed_by i (Bin op x y) }
{
    match op {
        Op::Add => true,
        Op::Subtract | Op::Multiply | Op::Divide | Op::Remainder => false,
        Op::Equal | Op::NotEqual => false,
        Op::Less | Op::GreaterEqual | Op::Greater | Op::LessEqual => false,
        Op::ShiftLeft | Op::ShiftRight => false,
        Op::And | Op::Or | Op::NotEquivalent | Op::Equivalent => false,
    }
}

/// The offsets of the cells of vectors that an address may be.
#[tactic(auto, using(crate::proofs::Bounded::sum_cells))]
pub(crate) fn offsets_at(at: At<'_>, address: &CoreExp) -> Result<Option<Bounds>, TooLarge>
    ensures { IfOk result (λ b. bounds_found b ≡ tame.offsets_at (reads_at at.entry) (exp address.now)) }
{
    match address {
        CoreExp::Load(vector) => first_cell(at, vector),
        CoreExp::Bin(op, left, right) => {
            if is_sum(*op) {
                cells_at_sum(at, left, right)
            } else {
                Ok(None)
            }
        }
        CoreExp::Num(_) | CoreExp::Frame(_) | CoreExp::Glob(_) | CoreExp::Place(_) => Ok(None),
        CoreExp::Neg(_) | CoreExp::Not(_) | CoreExp::Valof(_) => Ok(None),
        CoreExp::Cond(_, _, _) | CoreExp::Call(_, _) => Ok(None),
    }
}

/// The label of a table, if the expression is its address or a variable that holds it.
#[tactic(auto, using(crate::proofs::Bounded::table_held))]
fn table_at(at: At<'_>, e: &CoreExp) -> Option<usize>
    ensures { IfSome result (λ m. (words : ℕ → ℕ) (index : Exp) → tame.in_table words (tame.TableAt m) (tame.bounds_of (reads_at at.entry) index) ≡ true
        → tame.table_element words (reads_at at.entry) (exp e.now) index ≡ true) }
{
    match e {
        CoreExp::Place(label) => Some(*label as usize),
        CoreExp::Load(_) => match held_at(at, content_of(e)?) {
            Held::TableAt(label) => Some(label),
            _ => None,
        },
        _ => None,
    }
}

/// Whether an index is below the number of words of a table.
#[tactic(auto, using(crate::proofs::Bounded::table_index))]
fn is_index_of(at: At<'_>, label: usize, index: Option<Bounds>) -> bool
    ensures { result ≡ true → tame.in_table ((env_at at.entry).table) (tame.TableAt label) (bounds_found index) ≡ true }
{
    match index {
        Some(index) => index.greatest < words_of(at.around.places, label),
        None => false,
    }
}

/// Whether these are a table and an index of it.
#[tactic(auto, using(crate::proofs::Bounded::table_element_true))]
fn is_word_of(at: At<'_>, table: &CoreExp, index: &CoreExp) -> bool
    ensures { result ≡ true → tame.table_element ((env_at at.entry).table) (reads_at at.entry) (exp table.now) (exp index.now) ≡ true }
{
    match (table_at(at, table), bounds_of(at, index)) {
        (Some(label), Ok(within)) => is_index_of(at, label, within),
        _ => false,
    }
}

/// Whether an address is that of a word of a table.
#[tactic(auto, using(crate::proofs::Bounded::first_word, crate::proofs::Bounded::word_left, crate::proofs::Bounded::word_right))]
fn is_in_table(at: At<'_>, address: &CoreExp) -> bool
    ensures { result ≡ true → tame.is_in_table ((env_at at.entry).table) (reads_at at.entry) (exp address.now) ≡ true }
{
    match address {
        CoreExp::Load(_) => {
            let none = Bounds {
                least: 0,
                greatest: 0,
            };
            match content_of(address) {
                Some(offset) => match held_at(at, offset) {
                    Held::TableAt(label) => is_index_of(at, label, Some(none)),
                    _ => false,
                },
                None => false,
            }
        }
        CoreExp::Bin(op, left, right) => {
            if !is_sum(*op) {
                false
            } else if is_word_of(at, left, right) {
                true
            } else {
                is_word_of(at, right, left)
            }
        }
        _ => false,
    }
}

/// Whether an address is that of a word of a table, or of cells of a vector that pass a test.
#[tactic(auto, using(crate::proofs::Bounded::cells_pass, crate::proofs::Bounded::words_pass))]
pub(crate) fn is_indexed(at: At<'_>, test: Test, address: &CoreExp) -> bool
    ensures { result ≡ true → (tame.all_between (test_of test) (reads_at at.entry) (tame.offsets_at (reads_at at.entry) (exp address.now))
        || tame.is_in_table ((env_at at.entry).table) (reads_at at.entry) (exp address.now)) ≡ true }
{
    match offsets_at(at, address) {
        Ok(Some(cells)) => all_between(at, test, cells),
        Ok(None) => is_in_table(at, address),
        Err(_) => false,
    }
}

/// These bounds, if two numbers are below 32,768.
#[tactic(auto, using(crate::proofs::Bounded::low_yes, crate::proofs::Bounded::low_first, crate::proofs::Bounded::low_second))]
fn if_low(one: usize, other: usize, bounds: Bounds) -> Option<Bounds>
    ensures { bounds_found result ≡ tame.bounds_if (nat_lt one 32768 && nat_lt other 32768) bounds.least bounds.greatest }
{
    if one >= 32768 {
        None
    } else if other >= 32768 {
        None
    } else {
        Some(bounds)
    }
}

/// The bounds of a FOR's variable.
#[tactic(auto, using(crate::proofs::Bounded::counted_down, crate::proofs::Bounded::counted_up))]
pub(crate) fn counted(
    start: Option<Bounds>,
    limit: Option<Bounds>,
    by: u16,
) -> Result<Option<Bounds>, TooLarge>
    ensures { IfOk result (λ b. bounds_found b ≡ tame.counted (bounds_found start) (bounds_found limit) by) }
{
    let Some(start) = start else {
        return Ok(None);
    };
    let Some(limit) = limit else {
        return Ok(None);
    };
    if by >= 32768 {
        let all = Bounds {
            least: limit.least,
            greatest: start.greatest,
        };
        Ok(if_low(start.greatest, limit.greatest, all))
    } else {
        let after = plus(limit.greatest, by as usize)?;
        let all = Bounds {
            least: start.least,
            greatest: limit.greatest,
        };
        Ok(if_low(start.greatest, after, all))
    }
}
