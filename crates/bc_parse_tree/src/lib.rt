//! The syntax tree of a section, the grammar that says which tokens spell it, and its canonical spelling.
//!
//! The leaves of a token list are the tokens that a walk over the tree in text order meets one by one. A caller that
//! counts leaves on such a walk finds the token, and so the place in the source, by `token_at`.
#![tactic(auto)]

pub mod laws;
mod leaves;
mod part;
mod rendering;
mod signs;
mod spelling;
mod tree;

pub use leaves::{is_leaf, leaves_of, token_at};
pub use part::Part;
pub use rendering::render;
pub use spelling::spell;
pub use tree::{
    BinaryOp, Block, Command, Constant, Declaration, Definition, Exp, Item, Label, Section,
    Storage, UnaryOp,
};
