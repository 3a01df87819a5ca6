//! The writer of certificates: for each entry the lines that show its code and why no code is shorter.
#![tactic(auto)]

mod cert_fault;
mod chain;
mod entry_text;
mod fields;
mod form;
pub mod laws;
mod lines;
mod mark;
mod slot;
mod text;
mod trees;
mod walk;
mod workings;
mod workings_fault;
mod writing;

pub use bc_rules_defs::Entry;
pub use cert_fault::CertFault;
pub use workings::{Workings, workings_of};
pub use workings_fault::WorkingsFault;
pub use writing::{write_cert, write_worked};
