//! The whole text of one entry.

ghost use Rattle.std.specs.Prelude.{OnOk};
ghost use Rattle.std.specs.List.{AllZip};
ghost use Rattle.bc_core.specs.View.{root as root_of};
ghost use Rattle.bc_rules_defs.specs.View.{derivation as tree, entry as entry_of};
ghost use Rattle.bc_select_defs.specs.Nodes.{root_in_order};
ghost use Rattle.bc_select.specs.Rows.{IsRowOf};
ghost use Rattle.bc_cert_write.specs.Exact.{AddsNodes, IsEntryText};
ghost use Rattle.bc_cert_write.specs.Workings.{WorkedOut};

use crate::lines::{code_line, entry_line, node_lines, root_line};
use crate::text::Text;
use crate::walk::marks_of;
use crate::workings::Workings;
use bc_core::Root;
use bc_rules::words;
use bc_rules_defs::{Derivation, Entry};
use bc_select::Row;
use bc_word::Memory;
use std::alloc::Global;

/// Appends the node lines of a root. `rows` has a row for each node. So the root has fewer than 2^60 nodes, since a slice can't
/// have more rows. Returns `Memory` if an allocation fails.
#[tactic(auto, using(crate::proofs::Counted::few_nodes))]
fn root_nodes(
    alloc: Global,
    text: &mut Text,
    root: &Root,
    derivation: &Derivation,
    rows: &[Row],
) -> Result<(), Memory>
    requires { ∥ AllZip IsRowOf (root_in_order (root_of root.now)) rows.now ∥₁ }
    ensures { OnOk result (AddsNodes (root_of root.now) (tree derivation.now) text.old.bytes.items text.new.bytes.items) }
{
    let marks = marks_of(alloc, root, derivation, rows.len())?;
    node_lines(text, marks.as_slice(), rows)
}

/// Replaces the text by the lines of an entry. The workings must be those of the entry. Returns `Memory` if an allocation fails.
pub fn entry_text(
    alloc: Global,
    entry: &Entry,
    workings: &Workings,
    text: &mut Text,
) -> Result<(), Memory>
    requires { WorkedOut (entry_of entry.now) workings.now }
    ensures { OnOk result (IsEntryText (entry_of entry.now) text.new.bytes.items) }
{
    let rows = workings.rows.as_slice();
    let code = workings.code.as_slice();
    let words = words(code);
    text.clear();
    entry_line(text, entry, words)?;
    root_nodes(alloc, text, &entry.root, &entry.derivation, rows)?;
    root_line(text, &entry.root, &entry.derivation)?;
    code_line(text, code, entry.bodies.as_slice())
}
