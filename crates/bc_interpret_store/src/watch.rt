//! What a watched store keeps: its past, and a log of the addresses whose cells were replaced since the past was last followed.

ghost use Rattle.std.specs.Prelude.{◌≡◌, ◌++◌, ◌∷◌, [], IsTrue, IfOk, OnOk};
ghost use Rattle.bc_interpret_store.specs.Recorded.{Agrees, AgreesBut, Follows};
ghost use Rattle.bc_interpret_store.specs.Watched.{IsFresh, StaysFresh, Notes, NotesIn};

use crate::cell::Cell;
use crate::history::History;
use bc_word::Memory;
use std::alloc::Global;

/// The greatest length of a log. A longer one would take as much time as all cells.
const MOST: usize = 65_536;

/// What a watched store keeps.
#[derive(Drop)]
pub(crate) struct Watch {
    /// The past.
    pub history: History,
    /// The addresses whose cells were replaced since, some perhaps more than once.
    pub log: Vec<u16>,
    /// Whether the log has all of them. If it doesn't, it is void.
    pub is_whole: bool,
}

/// Appends an address to a log and returns true. Returns false if that isn't possible; then the log is void.
#[inline(never)]
fn append(log: &mut Vec<u16>, address: usize) -> bool
    ensures { IsTrue result → log.new.items ≡ log.old.items ++ address ∷ [] }
{
    if log.len() >= MOST {
        return false;
    }
    match u16::try_from(address) {
        Ok(word) => match log.push(word) {
            Ok(()) => true,
            Err(_) => false,
        },
        Err(_) => false,
    }
}

impl Watch {
    /// A watch that begins with these cells.
    ///
    /// `Memory` if an allocation fails.
    #[tactic(auto, using(crate::proofs::Watching::but_same))]
    pub fn of(alloc: Global, cells: &Vec<Cell>) -> Result<Watch, Memory>
        ensures { IfOk result (λ watch. IsFresh cells.now.items watch) }
    {
        let history = History::of(alloc, cells)?;
        Ok(Watch {
            history,
            log: Vec::new(alloc),
            is_whole: true,
        })
    }

    /// Logs the address of a cell that is replaced.
    pub fn note(&mut self, address: usize)
        ensures { Notes address self.old self.new }
    {
        if !self.is_whole {
            return;
        }
        self.is_whole = append(&mut self.log, address);
    }

    /// Makes all cells of the past those of the store, and returns the number of changes.
    ///
    /// `Memory` if an allocation fails. Then the changes are those that were made.
    #[tactic(auto, using(crate::proofs::Watching::but_agrees))]
    pub fn follow(&mut self, cells: &Vec<Cell>) -> Result<usize, Memory>
        requires { IsFresh cells.now.items self.old }
        ensures fresh { IsFresh cells.now.items self.new }
        ensures follows { Follows self.old.history self.new.history }
        ensures agrees { OnOk result (Agrees 65536 self.new.history.now cells.now.items) }
    {
        let is_whole = self.is_whole;
        self.is_whole = false;
        follow(&mut self.history, cells, self.log.as_slice(), is_whole)?;
        self.log.clear();
        self.is_whole = true;
        Ok(self.history.count())
    }

    /// Drops the first `count` changes of the past, which become part of its first cells.
    ///
    /// `Memory` if an allocation fails; then nothing has changed.
    pub fn drop_first(&mut self, alloc: Global, count: usize) -> Result<(), Memory>
        ensures { StaysFresh self.old self.new }
    {
        self.history.drop_first(alloc, count)
    }
}

/// Makes all cells of a past those of the store. If the log is whole, only those at its addresses may differ.
fn follow(
    history: &mut History,
    cells: &Vec<Cell>,
    log: &[u16],
    is_whole: bool,
) -> Result<(), Memory>
    requires { IsTrue is_whole → AgreesBut log.now history.old.now cells.now.items }
    ensures follows { Follows history.old history.new }
    ensures agrees { OnOk result (Agrees 65536 history.new.now cells.now.items) }
{
    if is_whole {
        return history.follow_logged(cells, log);
    }
    history.follow_all(cells)
}

/// Logs the address of a cell that is replaced, if the store is watched.
#[inline(always)]
pub(crate) fn note_in(watch: &mut Option<Watch>, address: usize)
    ensures { NotesIn address watch.old watch.new }
{
    if let Some(kept) = watch {
        kept.note(address);
    }
}
