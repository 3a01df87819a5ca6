//! The page of HTML that `bcpl explain` writes: each source line with its code, and for each root why no derivation
//! has fewer words.
//!
//! The page has its data once, as JSON, and a script that draws what the reader asks for.
#![tactic(auto)]

mod file;
mod html;
mod nodes;
mod parts;
mod report;
mod runs;

pub use report::{Checked, explanation};
