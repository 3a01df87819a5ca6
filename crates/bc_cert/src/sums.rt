//! The sums of a verdict.

use bc_rules_defs::Table;

/// The sums of a verdict.
#[derive(Clone, Copy)]
pub struct Sums {
    /// The rule table by which the certificate was judged.
    pub table: Table,
    /// The number of its entries.
    pub entries: u64,
    /// The sum of the entries' words, at most 2^64 - 1.
    pub words: u64,
}
