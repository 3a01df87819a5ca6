//! The definition of the INTCODE machine: its registers, one instruction, a run, and its streams.
//!
//! The definition is in `specs/`. The Rust code here is small: the types that the definition mentions, the image from which the machine
//! starts, and the laws. `operator_laws` is about the numbers of operators.
#![tactic(auto)]

mod image;
pub mod laws;
mod operation;
pub mod operator_laws;
mod state;
mod streams;

pub use image::{Image, Labels, Places, SegmentPlace, Words};
pub use operation::Operation;
pub use state::{End, Registers};
pub use streams::Side;
