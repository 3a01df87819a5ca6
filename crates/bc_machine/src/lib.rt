//! The INTCODE machine: runs an image, over streams in memory or over readers and writers.
#![tactic(auto)]

mod faults;
mod files;
mod instructions;
mod machine;
mod memory;
mod names;
mod operations;
mod progress;
mod store;
mod streams;

pub use bc_machine_defs::{End, Image, Labels, Places, SegmentPlace, Side, Words};
pub use faults::{DeviceFault, StreamsError};
pub use files::FileStreams;
pub use machine::Machine;
pub use memory::MemoryStreams;
pub use names::Named;
pub use streams::Streams;
