//! Certificates: what an accepted one says, what can be wrong with one, and what it means that a verdict fits a program's segments.
#![tactic(auto)]

mod check_fault;
mod costs;
mod head;
mod mismatch;
mod verdict;

pub use check_fault::CheckFault;
pub use costs::Costs;
pub use head::Head;
pub use mismatch::Mismatch;
pub use verdict::{Judged, Verdict};
