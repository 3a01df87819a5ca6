//! The compiler as a whole: from sources to an image, with the entries from which the certificate is written.
//!
//! The contract of `build` is the main theorem of this repository. `laws` adds what follows for runs of the machine and for the
//! certificate. `room_laws` shows that all numbers of a certificate have room in its lines.
#![tactic(auto)]

mod build_error;
mod building;
pub mod laws;
mod ranges;
pub mod room_laws;

pub use bc_gen::GenError;
pub use bc_lex::{LexError, Source};
pub use bc_link::LinkError;
pub use bc_machine_defs::Image;
pub use bc_parse::ParseError;
pub use build_error::{BuildError, ScopeFault};
pub use building::{Built, Parsed, build, build_keeping};
