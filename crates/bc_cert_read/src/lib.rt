//! The parts of the checker of certificates: what a line says, which rules apply at a node and with how many words, and the stack of
//! trees that the node lines of an entry build.
//!
//! `bc_cert` drives them line by line.
#![tactic(auto)]

mod chain;
mod codes;
mod costs;
mod facts;
mod fields;
mod form;
mod items;
mod least_words;
mod lines;
mod mark;
mod node;
mod one;
mod position;
mod recipe;
mod rooted;
mod shown;
mod sides;
mod stack;
mod taken;
mod whole;

// Lines.
pub use chain::{Chain, Rules};
pub use codes::code_line;
pub use form::Form;
pub use lines::{NodeLine, RootLine, end_line, entry_line, header, node_line, root_line};

// The rules at a node.
pub use costs::LeastWords;
pub use facts::{Facts, are_free, words_as_operand};
pub use node::{Node, lesser};
pub use recipe::Recipe;

// The trees of an entry.
pub use position::Position;
pub use rooted::Rooted;
pub use stack::Stack;
