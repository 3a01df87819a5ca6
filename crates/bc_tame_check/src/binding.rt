//! What declarations and lists add to what is around them.

ghost use Rattle.std.specs.Prelude.{◌≡◌, ◌+◌, ◌++◌, ◌∷◌, map, ℕ, List, OnOk, IfOk};
ghost use Rattle.bc_core.specs.Commands as forms;
ghost use Rattle.bc_core.specs.Level.{cells_of as cells_of_variable, cells_of_all as cells_of_variables};
ghost use Rattle.bc_core.specs.View.{exp, variable, items as items_view};
ghost use Rattle.bc_core.specs.WellFormed.{labels_of};
ghost use Rattle.bc_tame.specs.Tame.{Env, Knows, held_by, and_one, and_all};
ghost use Rattle.bc_tame_check.specs.Views.{held_of, set_over, label_in, env_at};

use crate::at::{At, Walk};
use crate::held::{Entry, Held};
use crate::lookup::words_of;
use crate::not_tame::NotTame;
use bc_core::{CoreExp, ListItem, Variable};
use std::alloc::Global;

/// The cells of a variable: its own, and those of its vector.
fn cells_of(declared: &Variable) -> usize
    ensures { result ≡ cells_of_variable (variable declared.now) }
{
    match declared {
        Variable::Value(_) => 1,
        Variable::Vector(greatest) => greatest.get() as usize + 2,
    }
}

/// The level after variables whose cells begin at this level.
pub(crate) fn cells_of_all(
    variables: &[Variable],
    level: usize,
    walk: &Walk,
) -> Result<usize, NotTame>
    ensures { IfOk result (λ above. above ≡ level + cells_of_variables (map variable variables.now)) }
{
    let mut above = level;
    let mut left = variables;
    while let [first, rest @ ..] = left {
        above = walk.above(above, cells_of(first))?;
        left = rest;
    }
    Ok(above)
}

/// What a variable with this initial value holds, if what holds a vector or a table is kept in its block or not.
#[tactic(auto, using(crate::proofs::Bindings::table_kept, crate::proofs::Bindings::word_kept))]
fn held_initially(at: At<'_>, kept: bool, value: &CoreExp) -> Held
    ensures { held_of result ≡ held_by (env_at at.entry) kept (forms.Initial (exp value.now)) }
{
    if !kept {
        return Held::Word;
    }
    match value {
        CoreExp::Place(label) => {
            let label = *label as usize;
            if words_of(at.around.places, label) > 0 {
                Held::TableAt(label)
            } else {
                Held::Word
            }
        }
        CoreExp::Num(_) | CoreExp::Frame(_) | CoreExp::Glob(_) | CoreExp::Valof(_) => Held::Word,
        CoreExp::Load(_) | CoreExp::Neg(_) | CoreExp::Not(_) => Held::Word,
        CoreExp::Bin(_, _, _) | CoreExp::Cond(_, _, _) | CoreExp::Call(_, _) => Held::Word,
    }
}

/// What the variable of a vector holds, if it is kept in its block or not.
fn held_by_vector(kept: bool, greatest: usize) -> Held
    ensures { (E : Env) → held_of result ≡ held_by E kept (forms.Vector greatest) }
{
    if kept {
        Held::VectorOf(greatest)
    } else {
        Held::Word
    }
}

/// Adds what a variable holds.
#[tactic(auto, using(crate::proofs::Bindings::value_added, crate::proofs::Bindings::vector_added))]
fn add_one(
    reads: &mut Vec<Entry>,
    at: At<'_>,
    kept: bool,
    declared: &Variable,
    offset: usize,
) -> Result<(), NotTame>
    ensures { OnOk result ((R : Knows) → set_over R reads.new.items
        ≡ and_one (env_at at.entry) kept (variable declared.now) offset (set_over R reads.old.items)) }
{
    match declared {
        Variable::Value(value) => {
            let holds = held_initially(at, kept, value);
            reads.push(Entry::One(offset, holds))?;
            Ok(())
        }
        Variable::Vector(greatest) => {
            let greatest = greatest.get() as usize;
            let holds = held_by_vector(kept, greatest);
            let Some(first) = offset.checked_add(1) else {
                return Err(NotTame::Memory);
            };
            reads.push(Entry::Cells(first, greatest + 1))?;
            reads.push(Entry::One(offset, holds))?;
            Ok(())
        }
    }
}

/// Adds what a variable holds. Returns the offset after its cells.
#[tactic(auto, using(crate::proofs::Bindings::one_more))]
fn set_one(
    reads: &mut Vec<Entry>,
    at: At<'_>,
    kept: bool,
    declared: &Variable,
    offset: usize,
) -> Result<usize, NotTame>
    ensures { IfOk result (λ next. (R : Knows) (vs : List forms.Variable)
        → and_all (env_at at.entry) kept vs next (set_over R reads.new.items)
        ≡ and_all (env_at at.entry) kept (variable declared.now ∷ vs) offset (set_over R reads.old.items)) }
{
    add_one(reads, at, kept, declared, offset)?;
    match offset.checked_add(cells_of(declared)) {
        Some(next) => Ok(next),
        None => Err(NotTame::Memory),
    }
}

/// Adds what variables hold whose cells begin at this level. What holds a vector or a table is kept in its block or not.
pub(crate) fn set_all(
    reads: &mut Vec<Entry>,
    at: At<'_>,
    kept: bool,
    variables: &[Variable],
    level: usize,
) -> Result<(), NotTame>
    ensures { OnOk result ((R : Knows) → set_over R reads.new.items
        ≡ and_all (env_at at.entry) kept (map variable variables.now) level (set_over R reads.old.items)) }
{
    let mut offset = level;
    let mut left = variables;
    while let [first, rest @ ..] = left {
        offset = set_one(reads, at, kept, first, offset)?;
        left = rest;
    }
    Ok(())
}

/// Adds the label, if the item is one.
fn add_label(item: &ListItem, labels: &mut Vec<u16>) -> Result<(), NotTame>
    ensures { OnOk result (labels.new.items ≡ labels.old.items ++ label_in item.now) }
{
    match item {
        ListItem::Label(label) => Ok(labels.push(*label)?),
        ListItem::Command(_) | ListItem::Case(_) | ListItem::Default => Ok(()),
    }
}

/// The labels of a list, followed by others.
pub(crate) fn labels_with(
    alloc: Global,
    list: &[ListItem],
    others: &[u16],
) -> Result<Vec<u16>, NotTame>
    ensures { IfOk result (λ labels. labels.items ≡ labels_of (items_view list.now) ++ others.now) }
{
    let mut labels = Vec::new(alloc);
    let mut left = list;
    while let [first, rest @ ..] = left {
        add_label(first, &mut labels)?;
        left = rest;
    }
    labels.extend_from_slice(others)?;
    Ok(labels)
}
