//! Finds what a cell of the frame holds.

ghost use Rattle.std.specs.Prelude.{◌≡◌, true, false, Some};
ghost use Rattle.bc_tame.specs.Tame.{all_between as all_pass, is_cell as cell_of, is_word as word_of};
ghost use Rattle.bc_tame.specs.Tame.{parameters_set};
ghost use Rattle.bc_tame_check.specs.Views.{held_of, and_entry, bounds_in, test_of, reads_at};

use crate::at::At;
use crate::held::{Bounds, Entry, Held, Test};

/// Whether it is a cell of a vector that may be unset.
fn is_cell(holds: Held) -> bool
    ensures { result ≡ cell_of (held_of holds) }
{
    match holds {
        Held::Cell => true,
        Held::Nothing | Held::Word => false,
        Held::StringAt(_) | Held::VectorOf(_) | Held::TableAt(_) => false,
        Held::Between(_) => false,
    }
}

/// What a cell holds after an entry.
#[tactic(auto, using(crate::proofs::Knowledge::one_here, crate::proofs::Knowledge::one_else, crate::proofs::Knowledge::cells_here, crate::proofs::Knowledge::cells_below, crate::proofs::Knowledge::cells_above, crate::proofs::Knowledge::only_here, crate::proofs::Knowledge::only_else, crate::proofs::Knowledge::only_kept, crate::proofs::Knowledge::filled_here, crate::proofs::Knowledge::filled_below, crate::proofs::Knowledge::filled_above, crate::proofs::Knowledge::filled_kept))]
fn after(entry: &Entry, offset: usize, before: Held) -> Held
    ensures { held_of result ≡ and_entry entry.now (λ i. held_of before) offset }
{
    match *entry {
        Entry::One(here, holds) => { if offset == here { holds } else { before } }
        Entry::Cells(first, many) => {
            if offset < first {
                before
            } else if offset - first < many {
                Held::Cell
            } else {
                before
            }
        }
        Entry::Only(here, holds) => {
            if offset != here {
                before
            } else if is_cell(before) {
                holds
            } else {
                before
            }
        }
        Entry::Filled(first, last) => {
            if offset < first {
                before
            } else if offset > last {
                before
            } else if is_cell(before) {
                Held::Word
            } else {
                before
            }
        }
    }
}

/// What a cell holds when the routine begins.
#[tactic(auto, using(crate::proofs::Knowledge::parameter, crate::proofs::Knowledge::below_parameters, crate::proofs::Knowledge::above_parameters))]
fn at_first(parameters: usize, offset: usize) -> Held
    ensures { held_of result ≡ parameters_set parameters offset }
{
    if offset < 2 {
        Held::Nothing
    } else if offset - 2 < parameters {
        Held::Word
    } else {
        Held::Nothing
    }
}

/// What the cell at this offset holds.
#[tactic(auto, using(crate::proofs::Knowledge::over_end))]
pub(crate) fn held_at(at: At<'_>, offset: usize) -> Held
    ensures { held_of result ≡ reads_at at.entry offset }
{
    let mut holds = at_first(at.parameters, offset);
    let mut left = at.reads;
    while let [first, rest @ ..] = left {
        holds = after(first, offset, holds);
        left = rest;
    }
    holds
}

/// Whether a cell that holds this passes the test.
pub(crate) fn passes(test: Test, holds: Held) -> bool
    ensures { result ≡ test_of test (held_of holds) }
{
    match test {
        Test::Set => match holds {
            Held::Nothing | Held::Cell => false,
            Held::Word => true,
            Held::StringAt(_) | Held::VectorOf(_) | Held::TableAt(_) => true,
            Held::Between(_) => true,
        },
        Test::Writable => match holds {
            Held::Cell | Held::Word => true,
            Held::Nothing => false,
            Held::StringAt(_) | Held::VectorOf(_) | Held::TableAt(_) => false,
            Held::Between(_) => false,
        },
        Test::String => match holds {
            Held::StringAt(_) => true,
            Held::Nothing | Held::Cell | Held::Word => false,
            Held::VectorOf(_) | Held::TableAt(_) => false,
            Held::Between(_) => false,
        },
    }
}

/// Whether any word may be assigned to a cell that holds this.
pub(crate) fn is_word(holds: Held) -> bool
    ensures { result ≡ word_of (held_of holds) }
{
    match holds {
        Held::Word => true,
        Held::Nothing | Held::Cell => false,
        Held::StringAt(_) | Held::VectorOf(_) | Held::TableAt(_) => false,
        Held::Between(_) => false,
    }
}

/// Whether all cells within these bounds pass the test.
#[tactic(auto, using(crate::proofs::Knowledge::all_none, crate::proofs::Knowledge::all_more))]
pub(crate) fn all_between(at: At<'_>, test: Test, cells: Bounds) -> bool
    ensures { result ≡ true → all_pass (test_of test) (reads_at at.entry) (Some (bounds_in cells)) ≡ true }
{
    if cells.greatest >= 0x1_0000_0000 || cells.greatest < cells.least {
        return false;
    }
    let mut offset = cells.least;
    let mut left = cells.greatest + 1 - cells.least;
    while left > 0 {
        if !passes(test, held_at(at, offset)) {
            return false;
        }
        offset += 1;
        left -= 1;
    }
    true
}
