//! Changes of cells: how they are made, taken back, and cut.

ghost use Rattle.std.specs.Prelude.{◌≡◌, slice_index_or, slice_range, slice_set, IfOk};
ghost use Rattle.bc_interpret_store.specs.declared.cell.Cell.TheVariants.{Dead};
ghost use Rattle.bc_interpret_store.specs.Changes.{applied, undone, Walks};

use crate::cell::Cell;
use bc_word::Memory;
use std::alloc::Global;

/// A change of a cell.
#[derive(Clone, Copy)]
pub struct Change {
    /// The address of the cell.
    pub address: u16,
    /// What it was.
    pub old: Cell,
    /// What it is.
    pub new: Cell,
}

/// The cell at this address; `Dead` past the last one.
#[inline(always)]
pub fn cell_at(cells: &Vec<Cell>, address: u16) -> Cell
    ensures { result ≡ slice_index_or cells.now.items address Dead }
{
    match cells.get(address as usize) {
        Some(cell) => *cell,
        None => Cell::Dead,
    }
}

/// A copy of cells.
///
/// `Memory` if an allocation fails.
pub fn copy_of(alloc: Global, cells: &Vec<Cell>) -> Result<Vec<Cell>, Memory>
    ensures { IfOk result (λ copy. copy.items ≡ cells.now.items) }
{
    let mut copy = Vec::new(alloc);
    copy.extend_from_slice(cells.as_slice())?;
    Ok(copy)
}

/// Sets a cell. Does nothing past the last one.
#[tactic(auto, using(crate::proofs::Deltas::put_past))]
pub(crate) fn put(cells: &mut Vec<Cell>, address: u16, cell: Cell)
    ensures { cells.new.items ≡ slice_set cells.old.items address cell }
{
    let index = address as usize;
    if index >= cells.len() {
        return;
    }
    cells[index] = cell;
}

/// Makes these changes, one after another.
#[tactic(auto, using(crate::proofs::Deltas::all_applied))]
pub(crate) fn apply(cells: &mut Vec<Cell>, changes: &[Change])
    ensures { cells.new.items ≡ applied changes.now cells.old.items }
{
    let mut left = changes;
    while let [change, later @ ..] = left {
        put(cells, change.address, change.new);
        left = later;
    }
}

/// Takes these changes back, the last one first.
#[tactic(auto, using(crate::proofs::Deltas::all_undone))]
pub(crate) fn undo(cells: &mut Vec<Cell>, changes: &[Change])
    ensures { cells.new.items ≡ undone changes.now cells.old.items }
{
    let mut left = changes;
    while let Some((change, earlier)) = left.split_last() {
        put(cells, change.address, change.old);
        left = earlier;
    }
}

/// The changes from index `from` up to `to`, or those that there are if `to` is past the end.
#[tactic(auto, using(crate::proofs::Deltas::clipped, crate::proofs::Deltas::past, crate::proofs::Deltas::backwards))]
pub fn between(changes: &[Change], from: usize, to: usize) -> &[Change]
    ensures { result.now ≡ slice_range changes.now from to }
{
    if to > changes.len() {
        if from > changes.len() {
            return &[];
        }
        return &changes[from..];
    }
    if from > to {
        return &[];
    }
    &changes[from..to]
}

/// Makes or takes back changes, so that of `changes` the first `to` are made instead of the first `from`.
pub fn walk(cells: &mut Vec<Cell>, changes: &[Change], from: usize, to: usize)
    ensures { Walks changes.now from to cells.old.items cells.new.items }
{
    if from <= to {
        let made = between(changes, from, to);
        apply(cells, made);
        return;
    }
    let gone = between(changes, to, from);
    undo(cells, gone);
}
