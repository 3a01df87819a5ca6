//! The parser: from the tokens of a section to its syntax tree. `spell` and `render`, which go back, come from
//! `bc_parse_tree`.
#![tactic(auto)]

mod blocks;
mod boxes;
mod commands;
mod construction;
mod cursor;
mod declarations;
mod error;
mod expressions;
mod fault;
mod levels;
mod names;
mod read;
mod section;

pub use bc_parse_tree::{
    BinaryOp, Block, Command, Constant, Declaration, Definition, Exp, Item, Label, Section,
    Storage, UnaryOp, render, spell,
};
pub use error::ParseError;
pub use section::parse;
