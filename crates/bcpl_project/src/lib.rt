//! The command `convert --project`: converts the sources of a folder as one program, with a script that builds the
//! result, and a report on what was changed and what is left to do by hand.
#![tactic(auto)]

mod changes;
mod command;
mod files;
mod folder;
mod headers;
mod new_files;
mod old_routines;
mod outputs;
mod page;
mod parts;
mod places;
mod programs;
mod renames;
mod report;
mod script;
mod texts;
mod unknown;

pub use command::convert_project;
