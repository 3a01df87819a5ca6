//! The streams of a run, with notes on what it loses: what it reads or writes where nothing is connected, or where a
//! stream was ended. `FoundStreams` are such streams with the files of a folder, which are found while the run goes on.
#![tactic(auto)]

mod closable;
mod folder;
mod found;
mod lost;
mod noted;
mod stream_name;

pub use closable::ClosableStreams;
pub use folder::Folder;
pub use found::FoundStreams;
pub use noted::NotedStreams;
