//! The cells of a run, and the operations on them: read, write, open, close, and pass arguments.

ghost use Rattle.std.specs.Prelude.{◌≡◌, ◌≢◌, ◌∷◌, length, slice_set, map, reverse, IsTrue, ◌↔◌};
ghost use Rattle.bc_core.specs.Store.{Dead, Set, cell_at, filled, opened, closed};
ghost use Rattle.bc_core.specs.Meaning.{passed};
ghost use Rattle.bc_interpret_store.specs.Cells.{cell_view, IsNext};

use crate::cell::Cell;
use crate::history::History;
use crate::watch::{Watch, note_in};
use bc_word::Memory;
use std::alloc::Global;
use std::marker::Model;

/// The cells, by address. Every address past the last cell is dead, and writing there has no effect.
///
/// A store that is watched keeps its past. In contracts a store is the list of its cells, whether it is watched or not.
#[derive(Drop)]
pub struct Store {
    cells: Vec<Cell>,
    kept: Option<Watch>,
}

impl Model for Store {
    ghost use Rattle.std.specs.Prelude.{List, map};
    ghost use Rattle.bc_core.specs.Store as store;
    ghost use Rattle.bc_interpret_store.specs.Cells.{cell_view};
    ghost use Rattle.bc_interpret_store.specs.Watched.{IsWatched};

    ghost Value = { List store.Cell };

    ghost view = { λ s. map cell_view s.cells.items };

    ghost invariant = { λ s. IsWatched s.cells.items s.kept };
}

/// Pops the next argument and returns its cell: unset where there are no more arguments. The arguments are in reverse order.
#[tactic(auto, using(crate::proofs::Cells::passed_last, crate::proofs::Cells::passed_none))]
fn next_cell(arguments: &mut Vec<u16>) -> Cell
    ensures { IsNext arguments.old.items (cell_view result) arguments.new.items }
{
    match arguments.pop() {
        Some(word) => Cell::Set(word),
        None => Cell::Unset,
    }
}

impl Store {
    /// A store of these cells; the index of a cell is its address.
    pub fn new(cells: Vec<Cell>) -> Store
        ensures { result ≡ map cell_view cells.items }
    {
        Store { cells, kept: None }
    }

    /// The number of cells.
    #[inline(always)]
    #[tactic(auto, using(crate::proofs::Cells::as_many))]
    pub fn len(&self) -> usize
        ensures { result ≡ length self.now }
    {
        self.cells.len()
    }

    /// The cell at this address, `Dead` past the last cell.
    #[inline(always)]
    #[tactic(auto, using(crate::proofs::Cells::cell_seen))]
    pub fn at(&self, address: u16) -> Cell
        ensures { cell_view result ≡ cell_at self.now address }
    {
        match self.cells.get(address as usize) {
            Some(cell) => *cell,
            None => Cell::Dead,
        }
    }

    /// Replaces the cell at this address. Does nothing past the last cell.
    #[inline(always)]
    #[tactic(auto, using(crate::proofs::Cells::cell_put, crate::proofs::Cells::beyond, crate::proofs::Watching::put_differs))]
    fn put(&mut self, address: usize, cell: Cell)
        ensures { self.new ≡ slice_set self.old address (cell_view cell) }
    {
        if address >= self.cells.len() {
            return;
        }
        self.cells[address] = cell;
        note_in(&mut self.kept, address);
    }

    /// Writes a word to the cell at this address and returns true. If the cell is dead, returns false and changes nothing.
    #[inline(always)]
    pub fn write(&mut self, address: u16, word: u16) -> bool
        ensures live { IsTrue result → self.new ≡ slice_set self.old address (Set word) }
        ensures whether { IsTrue result ↔ (cell_at self.old address ≢ Dead) }
        ensures dead { cell_at self.old address ≡ Dead → self.new ≡ self.old }
    {
        if matches!(self.at(address), Cell::Dead) {
            return false;
        }
        self.put(address as usize, Cell::Set(word));
        true
    }

    /// Replaces `count` cells from address `from` on by this one. Stops at the last cell, so no address wraps.
    #[tactic(auto, using(crate::proofs::Cells::filled_beyond))]
    fn fill(&mut self, count: usize, from: usize, cell: Cell)
        ensures { self.new ≡ filled count from (cell_view cell) self.old }
    {
        let mut left = count;
        let mut address = from;
        while left > 0 && address < self.len() {
            self.put(address, cell);
            address += 1;
            left -= 1;
        }
    }

    /// Makes `count` cells from address `from` on live and unset.
    pub fn open(&mut self, count: usize, from: usize)
        ensures { self.new ≡ opened count from self.old }
    {
        self.fill(count, from, Cell::Unset);
    }

    /// Frees `count` cells from address `from` on: they are dead afterwards.
    pub fn close(&mut self, count: usize, from: usize)
        ensures { self.new ≡ closed count from self.old }
    {
        self.fill(count, from, Cell::Dead);
    }

    /// Makes `count` cells from address `from` on live and fills them with the arguments. `arguments` is in reverse order: its last
    /// element is the first argument. If there are fewer arguments than cells, the last cells are unset. Surplus arguments are ignored.
    /// The contents of `arguments` afterwards are unspecified.
    #[tactic(auto, using(crate::proofs::Cells::passed_beyond))]
    pub fn pass(&mut self, count: usize, from: usize, arguments: &mut Vec<u16>)
        ensures { self.new ≡ passed count from (reverse arguments.old.items) self.old }
    {
        let mut left = count;
        let mut address = from;
        while left > 0 && address < self.len() {
            self.put(address, next_cell(arguments));
            address += 1;
            left -= 1;
        }
    }

    /// Begins to keep the past, whose first cells are the present ones.
    ///
    /// `Memory` if an allocation fails; then nothing has changed.
    pub fn watch(&mut self, alloc: Global) -> Result<(), Memory>
        ensures { self.new ≡ self.old }
    {
        let watch = Watch::of(alloc, &self.cells)?;
        self.kept = Some(watch);
        Ok(())
    }

    /// Follows the present cells in the past: appends the changes since the last call, after which the cells of the past are those of the
    /// store. Returns the number of all changes; 0 if the store isn't watched.
    ///
    /// `Memory` if an allocation fails. Then some of the changes may be missing until the next call.
    pub fn follow(&mut self) -> Result<usize, Memory>
        ensures { self.new ≡ self.old }
    {
        match &mut self.kept {
            Some(watch) => watch.follow(&self.cells),
            None => Ok(0),
        }
    }

    /// Drops the first `count` changes of the past, which become part of its first cells.
    ///
    /// `Memory` if an allocation fails; then nothing has changed.
    pub fn drop_changes(&mut self, alloc: Global, count: usize) -> Result<(), Memory>
        ensures { self.new ≡ self.old }
    {
        match &mut self.kept {
            Some(watch) => watch.drop_first(alloc, count),
            None => Ok(()),
        }
    }

    /// The past, which is no longer kept; `None` if the store isn't watched.
    pub fn take_past(&mut self) -> Option<History>
        ensures { self.new ≡ self.old }
    {
        let Watch { history, .. } = self.kept.take()?;
        Some(history)
    }
}
