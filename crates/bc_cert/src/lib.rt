//! The checker of certificates. It needs only the bytes of a certificate, and answers what they say or their first fault.
//!
//! The crate also re-exports the comparison with segments and the writer, so that a caller needs only this crate.
#![tactic(auto)]

mod checker;
mod checking;
mod code;
mod ends;
mod stage;
mod summing;
mod sums;
mod writing;

pub use bc_cert_against::check_against;
pub use bc_cert_defs::{CheckFault, Judged, Mismatch, Verdict};
pub use bc_cert_write::{CertFault, Workings};
pub use bc_rules_defs::{Entry, Piece, Table};
pub use checking::check;
pub use summing::check_sums;
pub use sums::Sums;
pub use writing::{write_cert, write_worked};
