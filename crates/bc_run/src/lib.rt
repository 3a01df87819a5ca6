//! The primitives as a segment, and a call that reads an INTCODE text, links it after the primitives, and runs it. Also re-exports the
//! source of the library.
#![tactic(auto)]

mod primitive;
mod running;

pub use bc_library::{BLIB, LIBHDR};
pub use primitive::primitives;
pub use running::{RunFault, after_primitives, run_text};
