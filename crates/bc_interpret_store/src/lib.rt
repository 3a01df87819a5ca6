//! The store of a run of the source: cells, each of which is dead, live but unset, or live with a word. A store can keep its past: how its
//! cells changed.
#![tactic(auto)]

mod cell;
mod change;
mod history;
mod store;
mod watch;

pub use cell::Cell;
pub use change::{Change, between, cell_at, copy_of, walk};
pub use history::{History, Past};
pub use store::Store;
