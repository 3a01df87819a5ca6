//! The code of a segment, as runs of items with the same owner.

use bc_rules_defs::Entry;
use bc_word::Memory;
use bcpl_show::{Marks, Owner};
use std::alloc::Global;

/// Consecutive items with the same owner.
#[derive(Clone, Copy)]
pub struct Run {
    /// The index of the first item.
    pub from: usize,
    /// The index after the last item.
    pub to: usize,
    /// The owner of the items.
    pub owner: Owner,
    /// Whether no earlier run has the same owner.
    pub is_first: bool,
}

/// The runs found so far. Once an allocation has failed, they are void.
#[derive(Drop)]
struct Finding {
    found: Vec<Run>,
    is_refused: bool,
}

impl Finding {
    /// Adds a run.
    fn push(&mut self, from: usize, to: usize, owner: Owner) {
        let run = Run {
            from,
            to,
            owner,
            is_first: false,
        };
        if self.found.push(run).is_err() {
            self.is_refused = true;
        }
    }

    /// Adds an empty run for each root without items, where its code would be.
    fn add_empty(&mut self, entries: &[Entry], owns: &[bool]) {
        for (index, entry) in entries.iter().enumerate() {
            let item = entry.item as usize;
            match owns.get(index) {
                Some(owns) if !*owns => self.push(item, item, Owner::Root(index)),
                _ => {}
            }
        }
    }

    /// Extends the last run by an item, if it has the same owner. Returns whether it does.
    fn goes_on(&mut self, index: usize, owner: Owner) -> bool {
        match self.found.last_mut() {
            Some(run) if run.owner == owner && run.to == index => {
                run.to = index.saturating_add(1);
                true
            }
            _ => false,
        }
    }

    /// Adds an item to the last run if it has the same owner, otherwise as a new run.
    fn add_item(&mut self, index: usize, owner: Owner) {
        if !self.goes_on(index, owner) {
            self.push(index, index.saturating_add(1), owner);
        }
    }
}

/// Whether this is the first run of its owner. `met` has the roots met so far. Other owners have a single run.
fn meet(met: &mut Vec<bool>, owner: Owner) -> bool {
    if let Owner::Root(index) = owner {
        if let Some(is_met) = met.get_mut(index) {
            let was_met = *is_met;
            *is_met = true;
            return !was_met;
        }
    }
    true
}

/// The empty runs, followed by the runs of the items. Records in `owns` which roots have items.
fn found_runs(alloc: Global, marks: &Marks, entries: &[Entry], owns: &mut Vec<bool>) -> Finding {
    let mut runs = Finding {
        found: Vec::new(alloc),
        is_refused: false,
    };
    for owner in &marks.owners {
        meet(owns, *owner);
    }
    runs.add_empty(entries, owns.as_slice());
    for (index, owner) in marks.owners.iter().enumerate() {
        runs.add_item(index, *owner);
    }
    runs
}

/// The runs of a segment with these entries, in the order of the code. A root without items has an empty run.
/// `Memory` if an allocation fails.
pub fn runs(alloc: Global, marks: &Marks, entries: &[Entry]) -> Result<Vec<Run>, Memory> {
    let mut owns = vec![in alloc; false; entries.len()]?;
    let runs = found_runs(alloc, marks, entries, &mut owns);
    if runs.is_refused {
        return Err(Memory);
    }
    let mut found = runs.found;
    found.sort_by_key(|run| run.from)?;
    let mut met = vec![in alloc; false; entries.len()]?;
    for run in &mut found {
        run.is_first = meet(&mut met, run.owner);
    }
    Ok(found)
}
