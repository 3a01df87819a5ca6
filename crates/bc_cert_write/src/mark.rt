//! What the line of a node shows beside the least words.

ghost use Rattle.std.specs.Prelude.{◌≡◌};

use crate::chain::Chain;
use crate::form::Form;

/// A node of a root, as its line shows it. The least words are in a row of `bc_select`.
#[derive(Clone, Copy)]
pub struct NodeMark {
    /// Its level.
    pub level: u64,
    /// What it is, without its parts.
    pub form: Form,
    /// The rules that the derivation has at it.
    pub rules: Chain,
}
