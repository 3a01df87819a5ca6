//! Translates a section without fault to `Core`: names become offsets, global numbers and labels.
//!
//! There are two walks. `blocks.rt`, `expressions.rt` and `assignments.rt` translate the body of one routine or VALOF, without
//! the routines and VALOFs inside it. `places_and_valofs.rt` goes through the whole section in text order, and collects each
//! place and each VALOF with its translation.
#![tactic(auto)]

mod assignments;
mod blocks;
mod characters;
mod commands;
mod expressions;
mod forms;
mod gathered;
mod numbering;
mod places_and_valofs;

pub use places_and_valofs::{Translated, translate};
