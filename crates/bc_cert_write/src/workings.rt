//! What must be computed for an entry before its lines can be written.

ghost use Rattle.bc_rules_defs.specs.View.{entry as entry_of};
ghost use Rattle.std.specs.Prelude.{◌≡◌, IfOk, IfErr};
ghost use Rattle.bc_cert_write.specs.Workings.{WorkedOut, HasNoRoom};
ghost use Rattle.bc_cert_write.specs.declared.workings_fault.WorkingsFault.TheVariants.{NoRoom};

use crate::workings_fault::WorkingsFault;
use bc_rules::code_with_labels;
use bc_rules_defs::{Entry, Piece};
use bc_select::{Row, is_selectable, rows};
use std::alloc::Global;

/// What must be computed for an entry before its lines can be written. A caller that chose the derivation already has it.
#[derive(Debug, Drop)]
pub struct Workings {
    /// A row for each node of the root, as `bc_select::rows` returns them.
    pub rows: Vec<Row>,
    /// The code of the derivation, as `bc_rules::code_of` returns it.
    pub code: Vec<Piece>,
}

/// Computes the workings of an entry. Nothing is promised if its rules aren't a derivation of its root.
///
/// Returns `Memory` if an allocation fails. Returns `NoRoom` only if the root has more than 2^32 nodes, or if a label of the
/// derivation or an offset in the frame that the code uses would be over 65,535.
pub fn workings_of(alloc: Global, entry: &Entry) -> Result<Workings, WorkingsFault>
    ensures worked { IfOk result (WorkedOut (entry_of entry.now)) }
    ensures no_room { IfErr result (λ fault. fault ≡ NoRoom → HasNoRoom (entry_of entry.now)) }
{
    if !is_selectable(&entry.root) {
        return Err(WorkingsFault::NoRoom);
    }
    let rows = rows(alloc, &entry.root)?;
    let coded = code_with_labels(
        alloc,
        &entry.root,
        &entry.derivation,
        entry.target,
        entry.first,
    )?;
    Ok(Workings {
        rows,
        code: coded.pieces,
    })
}
