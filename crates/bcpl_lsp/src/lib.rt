//! A language server: the messages of the protocol, the documents that an editor has open, and what it asks about them.
//!
//! It reads no files. The caller reads messages with `read_message`, passes them to `Server::take`, writes the answer with
//! `write_message`, and does the job that the answer names.
#![tactic(auto)]

mod changing;
mod completing;
mod costs;
mod described;
mod document;
mod finding;
mod fixing;
mod framing;
mod json_values;
mod laying_out;
mod library_routines;
mod looking;
mod names;
mod outline;
mod paths;
mod positions;
mod reply;
mod scanned;
mod server;

pub use costs::Cost;
pub use document::{Document, File};
pub use finding::{Finding, Related};
pub use framing::{Received, read_message, write_message};
pub use paths::{folder_of, path_of, uri_of};
pub use positions::{Lines, range_of};
pub use server::{Answer, Job, Server};
