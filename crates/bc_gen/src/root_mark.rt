//! The mark at the beginning of a root's code.
ghost use Rattle.bc_core.specs.View.{root as root_view};
ghost use Rattle.bc_rules_defs.specs.View.{derivation as derivation_view};
ghost use Rattle.bc_cert_write.specs.Workings.{AreWorkings};

use bc_cert_write::Workings;
use bc_core::Root;
use bc_rules_defs::Derivation;

/// A root with its derivation and the other data of its entry. `worked` says that the workings belong to the root.
#[derive(Debug, Drop)]
pub(crate) struct RootMark {
    /// The label to which a test jumps; 0 for other roots.
    pub(crate) target: u16,
    /// The first of the derivation's own labels.
    pub(crate) first: u16,
    /// The expression, test or assignment.
    pub(crate) root: Root,
    /// The derivation that gives its code.
    pub(crate) derivation: Derivation,
    /// The number of items of the body of each of its VALOFs, in the order of the code.
    pub(crate) bodies: Vec<u64>,
    /// Further data for the writer of the certificate.
    pub(crate) workings: Workings,
    ghost worked: { ∥ AreWorkings (root_view root) (derivation_view derivation) target first workings ∥₁ },
}
