//! What a section is, for tools that ask about it: a list of its nodes in text order, the names that its tokens spell, and
//! what each name means.
#![tactic(auto)]

mod flatten;
mod interned;
mod kind;
mod names;
mod node;
mod signatures;
mod tree;
mod unknown;

pub use flatten::Marks;
pub use interned::Interned;
pub use kind::{Fact, Kind};
pub use names::{Declared, Names, Sort};
pub use node::{Form, Node};
pub use signatures::{Signature, Wanted, signature_of};
pub use tree::Tree;
pub use unknown::unknown_names;
