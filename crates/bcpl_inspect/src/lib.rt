//! The commands that look at a program without running it: `show`, `list`, `check`, `format` and `lsp`.
#![tactic(auto)]

mod checking;
mod findings;
mod formatting;
mod listing;
mod served_files;
mod serving;
mod showing;

pub use checking::check_certificate;
pub use formatting::format_files;
pub use listing::list;
pub use serving::{Served, serve};
pub use showing::show;
