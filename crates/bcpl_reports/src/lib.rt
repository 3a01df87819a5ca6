//! The lines that follow the first line of a refusal of INTCODE texts, certificates and runs: the place, the line with
//! a mark below it, and what should be there. Also all messages as JSON, one object for each, for editors and pages.
#![tactic(auto)]

mod against;
mod certificate;
mod checked;
mod codes;
mod costs;
mod derived;
mod ended;
mod fields;
mod instruction;
mod json_message;
mod json_place;
mod json_text;
mod least;
mod linked;
mod placed;
mod report;
mod rules;
mod streams;
mod text_items;
mod texts;

pub use against::against_lines;
pub use checked::check_lines;
pub use ended::{Stop, ended_lines};
pub use json_message::{Label, Severity, message_line};
pub use json_text::text_objects;
pub use linked::link_lines;
pub use placed::Text;
pub use streams::stream_lines;
pub use texts::text_lines;
