//! What an accepted certificate says.

use bc_core::Root;
use bc_rules_defs::{Piece, Table};

/// What an accepted certificate says.
#[derive(Debug, Drop, PartialEq, Eq)]
pub struct Verdict {
    /// The rule table by which it was judged: the one that its header names.
    pub table: Table,
    /// Its entries, in the order of the text.
    pub entries: Vec<Judged>,
}

/// An accepted entry. It says that the code is that of a derivation of the root, and that no derivation has fewer words.
#[derive(Debug, Drop, PartialEq, Eq)]
pub struct Judged {
    /// The segment, counted from 0.
    pub segment: u64,
    /// The index of the code's first item among the items of the segment.
    pub item: u64,
    /// The expression, test or assignment.
    pub root: Root,
    /// The label that a test jumps to. It has no meaning for other roots.
    pub target: u16,
    /// The first of the derivation's own labels.
    pub first: u16,
    /// The code. The body of a VALOF is represented by its number of items.
    pub code: Vec<Piece>,
    /// The words of the code without the bodies of VALOFs: the fewest that any derivation of the root has.
    pub words: u64,
}
