//! Which cells of vectors a FOR fills.

ghost use Rattle.std.specs.Prelude.{◌≡◌, true, false, Some, None, IfOk};
ghost use Rattle.bc_core.specs.Commands as forms;
ghost use Rattle.bc_core.specs.View.{exp, items as items_view, items_before};
ghost use Rattle.bc_tame.specs.Tame as tame;
ghost use Rattle.bc_tame.specs.Tame.{Knows, AnyWord, and_where, covers};
ghost use Rattle.bc_tame_check.specs.Views.{held_of, listed, indexed_at, set_over, reads_at};

use crate::at::At;
use crate::bounds::{content_of, is_sum, plus};
use crate::held::{Entry, Held, TooLarge};
use crate::knows::held_at;
use crate::learning::assignment;
use crate::not_tame::NotTame;
use bc_core::{CoreExp, ListItem};

/// The variable of a FOR, and the numbers that it takes in any case.
#[derive(Clone, Copy)]
pub(crate) struct Rounds {
    /// The offset of the variable.
    pub variable: usize,
    /// The greatest number that it may begin with.
    pub first: usize,
    /// The least number that it may end with.
    pub last: usize,
}

/// The offset of the vector, if the index is the variable.
#[tactic(auto, using(crate::proofs::Fills::indexed_here, crate::proofs::Fills::indexed_else))]
fn indexed(variable: usize, vector: Option<usize>, index: Option<usize>) -> Option<usize>
    ensures { result ≡ indexed_at variable vector index }
{
    let Some(vector) = vector else {
        return None;
    };
    let Some(index) = index else {
        return None;
    };
    if variable == index {
        Some(vector)
    } else {
        None
    }
}

/// The offset of the vector, if an address is that of its cell with the number that a variable holds.
#[tactic(auto, using(crate::proofs::Fills::indexed_sum))]
fn vector_indexed(variable: usize, address: &CoreExp) -> Option<usize>
    ensures { result ≡ tame.indexed_by variable (exp address.now) }
{
    match address {
        CoreExp::Bin(op, left, right) => {
            if is_sum(*op) {
                indexed(variable, content_of(left), content_of(right))
            } else {
                None
            }
        }
        CoreExp::Num(_) | CoreExp::Frame(_) | CoreExp::Glob(_) | CoreExp::Place(_) => None,
        CoreExp::Load(_) | CoreExp::Neg(_) | CoreExp::Not(_) | CoreExp::Valof(_) => None,
        CoreExp::Cond(_, _, _) | CoreExp::Call(_, _) => None,
    }
}

/// Whether a cell that holds this has the address of a vector.
fn is_vector(holds: Held) -> bool
    ensures { result ≡ tame.is_vector (held_of holds) }
{
    match holds {
        Held::VectorOf(_) => true,
        Held::Nothing | Held::Cell | Held::Word => false,
        Held::StringAt(_) | Held::TableAt(_) | Held::Between(_) => false,
    }
}

/// What the cells of the vector at an offset hold after a FOR that assigns them.
#[tactic(auto, using(crate::proofs::Fills::covers_vector, crate::proofs::Fills::covers_other))]
fn filled_vector(at: At<'_>, rounds: Rounds, vector: usize) -> Result<Option<Entry>, TooLarge>
    ensures { IfOk result (λ o. (S : Knows) → set_over S (listed o)
        ≡ and_where (covers (reads_at at.entry) (Some vector) rounds.first rounds.last) AnyWord S) }
{
    if !is_vector(held_at(at, vector)) {
        return Ok(None);
    }
    let cells = plus(vector, 1)?;
    let first = plus(cells, rounds.first)?;
    let last = plus(cells, rounds.last)?;
    Ok(Some(Entry::Filled(first, last)))
}

/// What the cells hold that an address may be, after a FOR that assigns it.
#[tactic(auto, using(crate::proofs::Fills::covers_found, crate::proofs::Fills::covers_none))]
fn filled_at(at: At<'_>, rounds: Rounds, address: &CoreExp) -> Result<Option<Entry>, TooLarge>
    ensures { IfOk result (λ o. (S : Knows) → set_over S (listed o)
        ≡ and_where (covers (reads_at at.entry) (tame.indexed_by rounds.variable (exp address.now)) rounds.first rounds.last) AnyWord S) }
{
    match vector_indexed(rounds.variable, address) {
        Some(vector) => filled_vector(at, rounds, vector),
        None => Ok(None),
    }
}

/// What cells hold after a FOR with this item.
#[tactic(auto, using(crate::proofs::Fills::assignment_fills, crate::proofs::Fills::other_fills))]
fn filled_item(at: At<'_>, rounds: Rounds, item: &ListItem) -> Result<Option<Entry>, NotTame>
    ensures { IfOk result (λ o. (S : Knows) (is : forms.Items)
        → and_where (tame.fills (reads_at at.entry) rounds.variable rounds.first rounds.last is) AnyWord (set_over S (listed o))
        ≡ and_where (tame.fills (reads_at at.entry) rounds.variable rounds.first rounds.last (items_before item.now is)) AnyWord S) }
{
    match item {
        ListItem::Command(form) => match assignment(form) {
            Some((_, address)) => Ok(filled_at(at, rounds, address)?),
            None => Ok(None),
        },
        ListItem::Case(_) | ListItem::Default | ListItem::Label(_) => Err(NotTame::Memory),
    }
}

/// What cells hold after a FOR with this list, in which there are only commands.
#[tactic(auto, using(crate::proofs::Fills::nothing_fills))]
pub(crate) fn filled_by(
    at: At<'_>,
    rounds: Rounds,
    list: &[ListItem],
) -> Result<Vec<Entry>, NotTame>
    ensures { IfOk result (λ more. set_over (reads_at at.entry) more.items
        ≡ and_where (tame.fills (reads_at at.entry) rounds.variable rounds.first rounds.last (items_view list.now)) AnyWord (reads_at at.entry)) }
{
    let mut more = Vec::new(at.around.alloc);
    let mut left = list;
    while let [first, rest @ ..] = left {
        if let Some(entry) = filled_item(at, rounds, first)? {
            more.push(entry)?;
        }
        left = rest;
    }
    Ok(more)
}
