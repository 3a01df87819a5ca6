//! Entries: what a certificate lists.

use crate::derivation::Derivation;
use bc_core::Root;

/// A root with its derivation and the position of its code.
#[derive(Debug, Drop, PartialEq, Eq)]
pub struct Entry {
    /// The index of the segment, from 0.
    pub segment: u64,
    /// The index of the first item of the root's code in its segment.
    pub item: u64,
    /// The label to which a test jumps; 0 for other roots.
    pub target: u16,
    /// The first of the derivation's own labels.
    pub first: u16,
    /// The expression, test or assignment.
    pub root: Root,
    /// The derivation that gives the root's code.
    pub derivation: Derivation,
    /// The number of items of each VALOF's body, in the order of the code.
    pub bodies: Vec<u64>,
}
