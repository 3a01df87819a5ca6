//! The past of a store: the cells as they were at first, how they changed since, and how they were when they were last followed.

ghost use Rattle.std.specs.Prelude.{◌≡◌, ℕ, ◌<◌, ◌≤◌, length, drop, IsTrue, IfOk, OnOk};
ghost use Rattle.bc_interpret_store.specs.Changes.{Fits};
ghost use Rattle.bc_interpret_store.specs.Recorded.{Extends, Agrees, AgreesBut, Updates, Begins, Follows, Drops};

use crate::cell::Cell;
use crate::change::{Change, apply, between, cell_at, copy_of, put};
use bc_word::Memory;
use std::alloc::Global;
use std::marker::Model;

/// The number of addresses.
const ADDRESSES: usize = 65_536;

/// The past of a store. In contracts it is the first cells, the changes, and the cells when they were last followed.
///
/// The changes always lead from the first cells to those, and back.
#[derive(Drop)]
pub struct History {
    /// The cells at first.
    first: Vec<Cell>,
    /// The changes since.
    changes: Vec<Change>,
    /// The cells when they were last followed.
    now: Vec<Cell>,
}

impl Model for History {
    ghost use Rattle.bc_interpret_store.specs.Recorded.{Kept, IsKept};

    ghost Value = { Kept };

    ghost view = { λ h. record { first = h.first.items; changes = h.changes.items; now = h.now.items } };

    ghost invariant = { λ h. IsKept h.first.items h.changes.items h.now.items };
}

/// The first cells of a past, and the changes since.
#[derive(Drop)]
pub struct Past {
    /// The cells at first.
    pub first: Vec<Cell>,
    /// The changes since.
    pub changes: Vec<Change>,
}

/// Whether two cells are in the same state.
#[inline(always)]
fn is_same(left: Cell, right: Cell) -> bool
    ensures { IsTrue result → left ≡ right }
{
    left == right
}

/// The smaller number.
fn least(left: usize, right: usize) -> usize
    ensures left { result ≤ left }
    ensures right { result ≤ right }
    ensures most { (n : ℕ) → n < left → n < right → n < result }
{
    if left < right { left } else { right }
}

/// Makes the cell at this address that of the store, and appends the change if there is one.
///
/// `Memory` if an allocation fails; then nothing has changed.
#[inline(always)]
#[tactic(auto, using(crate::proofs::Following::one_cell))]
fn catch_up_within(
    cells: &Vec<Cell>,
    seen: &mut Vec<Cell>,
    changes: &mut Vec<Change>,
    address: u16,
) -> Result<(), Memory>
    requires { address < length seen.old.items }
    ensures length { length seen.new.items ≡ length seen.old.items }
    ensures extends { Extends changes.old.items changes.new.items seen.old.items seen.new.items }
    ensures updates { OnOk result (Updates address cells.now.items seen.old.items seen.new.items) }
{
    let old = cell_at(seen, address);
    let new = cell_at(cells, address);
    if is_same(new, old) {
        return Ok(());
    }
    changes.push(Change { address, old, new })?;
    put(seen, address, new);
    Ok(())
}

/// The same at any address. Does nothing past the last cell.
///
/// `Memory` if an allocation fails; then nothing has changed.
#[inline(always)]
#[tactic(auto, using(crate::proofs::Following::past_cell))]
fn catch_up_at(
    cells: &Vec<Cell>,
    seen: &mut Vec<Cell>,
    changes: &mut Vec<Change>,
    address: u16,
) -> Result<(), Memory>
    ensures length { length seen.new.items ≡ length seen.old.items }
    ensures extends { Extends changes.old.items changes.new.items seen.old.items seen.new.items }
    ensures updates { OnOk result (Updates address cells.now.items seen.old.items seen.new.items) }
{
    if address as usize >= seen.len() {
        return Ok(());
    }
    catch_up_within(cells, seen, changes, address)
}

/// Makes all cells those of the store, and appends the changes.
///
/// `Memory` if an allocation fails. Then the changes are those that were made.
#[tactic(auto, using(crate::proofs::Following::many_cells))]
fn catch_up(
    cells: &Vec<Cell>,
    seen: &mut Vec<Cell>,
    changes: &mut Vec<Change>,
) -> Result<(), Memory>
    ensures length { length seen.new.items ≡ length seen.old.items }
    ensures extends { Extends changes.old.items changes.new.items seen.old.items seen.new.items }
    ensures agrees { OnOk result (Agrees 65536 seen.new.items cells.now.items) }
{
    let end = least(seen.len(), ADDRESSES);
    for index in 0..end {
        let address = index as u16;
        catch_up_at(cells, seen, changes, address)?;
    }
    Ok(())
}

/// Makes the cells at these addresses those of the store, and appends the changes. All others must be those of the store already.
///
/// `Memory` if an allocation fails. Then the changes are those that were made.
#[tactic(auto, using(crate::proofs::Following::logged_cells))]
fn catch_up_logged(
    cells: &Vec<Cell>,
    seen: &mut Vec<Cell>,
    changes: &mut Vec<Change>,
    log: &[u16],
) -> Result<(), Memory>
    requires { AgreesBut log.now seen.old.items cells.now.items }
    ensures length { length seen.new.items ≡ length seen.old.items }
    ensures extends { Extends changes.old.items changes.new.items seen.old.items seen.new.items }
    ensures agrees { OnOk result (Agrees 65536 seen.new.items cells.now.items) }
{
    let mut left = log;
    while let Some((address, later)) = left.split_first() {
        catch_up_at(cells, seen, changes, *address)?;
        left = later;
    }
    Ok(())
}

/// A copy of the changes after the first `count`.
///
/// `Memory` if an allocation fails.
#[tactic(auto, using(std::proofs::lemmas::List::drop_all))]
fn later(alloc: Global, changes: &[Change], count: usize) -> Result<Vec<Change>, Memory>
    ensures { IfOk result (λ copy. copy.items ≡ drop count changes.now) }
{
    let mut copy = Vec::new(alloc);
    if count < changes.len() {
        copy.extend_from_slice(&changes[count..])?;
    }
    Ok(copy)
}

impl History {
    /// Without cells.
    #[tactic(auto, using(crate::proofs::Following::kept_none))]
    pub fn new(alloc: Global) -> History {
        History {
            first: Vec::new(alloc),
            changes: Vec::new(alloc),
            now: Vec::new(alloc),
        }
    }

    /// With these cells, and without changes.
    ///
    /// `Memory` if an allocation fails.
    #[tactic(auto, using(crate::proofs::Following::kept_none))]
    pub(crate) fn of(alloc: Global, cells: &Vec<Cell>) -> Result<History, Memory>
        ensures { IfOk result (λ history. Begins history cells.now.items) }
    {
        let now = copy_of(alloc, cells)?;
        let first = copy_of(alloc, cells)?;
        Ok(History {
            first,
            changes: Vec::new(alloc),
            now,
        })
    }

    /// The number of changes.
    pub(crate) fn count(&self) -> usize {
        self.changes.len()
    }

    /// Makes all cells those of the store.
    ///
    /// `Memory` if an allocation fails. Then the changes are those that were made.
    pub(crate) fn follow_all(&mut self, cells: &Vec<Cell>) -> Result<(), Memory>
        ensures follows { Follows self.old self.new }
        ensures agrees { OnOk result (Agrees 65536 self.new.now cells.now.items) }
    {
        catch_up(cells, &mut self.now, &mut self.changes)
    }

    /// Makes the cells at these addresses those of the store. All others must be those of the store already.
    ///
    /// `Memory` if an allocation fails. Then the changes are those that were made.
    pub(crate) fn follow_logged(&mut self, cells: &Vec<Cell>, log: &[u16]) -> Result<(), Memory>
        requires { AgreesBut log.now self.old.now cells.now.items }
        ensures follows { Follows self.old self.new }
        ensures agrees { OnOk result (Agrees 65536 self.new.now cells.now.items) }
    {
        catch_up_logged(cells, &mut self.now, &mut self.changes, log)
    }

    /// Drops the first `count` changes, which become part of the first cells.
    ///
    /// `Memory` if an allocation fails; then nothing has changed.
    pub(crate) fn drop_first(&mut self, alloc: Global, count: usize) -> Result<(), Memory>
        ensures drops { OnOk result (Drops self.old self.new count) }
        ensures now { self.new.now ≡ self.old.now }
    {
        let all = self.changes.as_slice();
        let rest = later(alloc, all, count)?;
        let dropped = between(all, 0, count);
        apply(&mut self.first, dropped);
        self.changes = rest;
        Ok(())
    }

    /// The first cells, and the changes since, each of which finds its old cell.
    pub fn into_past(self) -> Past
        ensures { Fits result.changes.items result.first.items }
    {
        let History { first, changes, .. } = self;
        Past { first, changes }
    }
}
