//! The texts of findings, by their ids.
#![tactic(auto)]

mod calls;
mod commands;
pub mod ids;
mod texts;
mod values;

pub use texts::{Texts, texts_of};
