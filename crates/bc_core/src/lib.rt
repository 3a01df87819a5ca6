//! Resolved trees, where names have become offsets, labels and numbers, and what they mean.
//!
//! The types are in the code; the meaning is a definition, in `specs/`, which users must believe. The laws say what
//! holds of the meaning of every program.
#![tactic(auto)]

mod command;
mod copies;
mod expression;
mod find_operand;
pub mod laws;
mod operands;
mod sections;

pub use bc_text_items::Base;
pub use command::{
    Block, Body, Command, Condition, Declaration, ListItem, Place, Routine, Valof, Variable,
};
pub use copies::{copy, copy_expression};
pub use expression::{CoreExp, Root};
pub use find_operand::{constant, content, operand};
pub use operands::Operand;
pub use sections::Core;
