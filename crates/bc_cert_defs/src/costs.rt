//! The least words of a node for each aim.

/// The fewest words that any derivation of a node has, for each aim, as a node line of a certificate states them.
#[derive(Clone, Copy)]
pub struct Costs {
    /// Its value where register B may be lost.
    pub any: u64,
    /// Its value where B must end up with the former A (push). None if there is no such derivation.
    pub push: Option<u64>,
    /// A test that jumps if the value is false.
    pub on_false: u64,
    /// A test that jumps if the value is true.
    pub on_true: u64,
}
