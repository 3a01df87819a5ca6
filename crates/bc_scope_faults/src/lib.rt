//! Finds the first fault of a section in text order: undeclared and repeated names, misplaced commands, bad constants, and frames
//! that are too large.
#![tactic(auto)]

mod blocks;
mod commands;
mod context;
mod declarations;
mod expressions;
mod judging;
mod progress;
mod section;

pub use context::{CommandContext, ExpressionContext};
pub use judging::{
    Allowed, all_held, check_address, check_entry, check_goto, check_name, has_cell, level_at,
    widest,
};
pub use progress::{Extent, Progress};
pub use section::judge;
