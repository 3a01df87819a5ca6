//! Compares the verdict of a certificate with the segments of a program.
#![tactic(auto)]

mod against;

pub use against::check_against;
pub use bc_cert_defs::{Judged, Mismatch, Verdict};
