//! A debugger for programs in BCPL: runs a program by its meaning, records the run, and moves through it forwards and backwards. At a
//! terminal its commands have the words of gdb; a page shows the run in a browser.
#![tactic(auto)]

mod asking;
mod breaking;
mod breakpoints;
mod commands;
mod ending;
mod evaluate;
mod json;
mod manifests;
mod moving;
mod names;
mod page;
mod parts;
mod places;
mod printout;
mod program;
mod scope;
mod session;
mod showing;
mod stream;
mod streams;
mod strict;
mod values;
mod words;
mod writers;

pub use commands::Flow;
pub use page::{PageOf, page_of};
pub use program::{DebugProgram, all_resolved};
pub use session::{RecordedRun, Session, SessionError, SessionLimits, recorded};
pub use streams::RunInput;
