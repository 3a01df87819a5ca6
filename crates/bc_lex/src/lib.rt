//! Turns the texts of sources into tokens, and follows GETs.
#![tactic(auto)]

mod blank;
mod byte;
mod error;
mod fault;
mod lexeme;
mod number;
mod quoted;
mod read_file;
mod reading;
mod run;
mod source;
mod symbols;

pub use bc_lex_tokens::{Symbol, Token, TokenKind};
pub use error::LexError;
pub use reading::lex;
pub use source::Source;
