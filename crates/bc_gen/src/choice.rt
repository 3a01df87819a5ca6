//! The choice of each root's code. Only this file uses the selector and the writer of derivations' code.
ghost use Rattle.std.specs.Prelude.{◌≡◌, ◌+◌, ◌^◌, ◌<◌, ◌≤◌, IfOk, IfErr};
ghost use Rattle.std.specs.List.{AllZip};
ghost use Rattle.bc_core.specs.View.{root as root_view};
ghost use Rattle.bc_rules_defs.specs.View.{derivation as derivation_view};
ghost use Rattle.bc_rules.specs.declared.code_fault.CodeFault.TheVariants.{NoRoom};
ghost use Rattle.bc_rules.specs.Code.{IsCodeOf, cells_of_root};
ghost use Rattle.bc_select_defs.specs.Nodes.{root_in_order, root_nodes};
ghost use Rattle.bc_select.specs.Rows.{IsRowOf};
ghost use Rattle.bc_gen.specs.Chosen.{coding};

use bc_core::Root;
use bc_rules::{CodeFault, Coded, code_with_labels};
use bc_rules_defs::Derivation;
use bc_select::{Row, select};
use bc_word::Memory;
use std::alloc::Global;

/// The derivation of a root with the fewest words, and the rows of the root's nodes.
#[derive(Drop)]
pub(crate) struct Choice {
    /// The derivation.
    pub(crate) derivation: Derivation,
    /// A row for each node, as `select` returns them.
    pub(crate) rows: Vec<Row>,
}

/// Selects the derivation of a root with the fewest words.
#[tactic(auto, using(crate::proofs::Choosing::derivation_is))]
pub(crate) fn chosen(alloc: Global, root: &Root) -> Result<Choice, Memory>
    requires { root_nodes (root_view root.now) ≤ 2 ^ 32 }
    ensures derivation { IfOk result (λ c. derivation_view c.derivation ≡ coding.derivation (root_view root.now)) }
    ensures rows { IfOk result (λ c. AllZip IsRowOf (root_in_order (root_view root.now)) c.rows.items) }
{
    let selected = select(alloc, root)?;
    Ok(Choice {
        derivation: selected.derivation,
        rows: selected.table,
    })
}

/// The code of a root by this derivation, with labels numbered from `first` on, and the first label after them.
///
/// Returns `NoRoom` only if one of these labels would be over 65,535.
#[tactic(auto, using(crate::proofs::Choosing::code_is, crate::proofs::Choosing::next_is, crate::proofs::Choosing::labels_lack))]
pub(crate) fn pieces_of(
    alloc: Global,
    root: &Root,
    derivation: &Derivation,
    target: u16,
    first: u16,
) -> Result<Coded, CodeFault>
    requires derivation { derivation_view derivation.now ≡ coding.derivation (root_view root.now) }
    requires cells { cells_of_root (root_view root.now) ≤ 65536 }
    ensures chosen { IfOk result (λ c. c.pieces.items ≡ coding.pieces (root_view root.now) target first) }
    ensures code { IfOk result (λ c. IsCodeOf (root_view root.now) (derivation_view derivation.now) target first c.pieces.items) }
    ensures next { IfOk result (λ c. c.next ≡ first + coding.labels (root_view root.now)) }
    ensures no_room { IfErr result (λ fault. fault ≡ NoRoom → 65536 < first + coding.labels (root_view root.now)) }
{
    code_with_labels(alloc, root, derivation, target, first)
}
