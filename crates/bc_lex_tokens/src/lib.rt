//! The tokens of the language, and the only table of how symbols are spelled.
#![tactic(auto)]

pub mod laws;
mod symbol;
mod token;

pub use symbol::Symbol;
pub use token::{Token, TokenKind};
