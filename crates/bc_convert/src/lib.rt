//! Converts a source from an old dialect of BCPL to this one: finds the spans to replace, and what must be done by
//! hand.
//!
//! It defines blanks, names, lines and comments itself, although `bc_lex` does too: so a change of the language changes
//! nothing in how old sources are read.
#![tactic(auto)]

mod applied;
mod arrows;
mod brackets;
mod bytes;
mod chain;
mod commands;
mod complaint;
mod conditions;
mod confined;
mod constants;
mod context;
mod conversion;
mod declarations;
mod dialect;
mod doubts;
mod fields;
mod flags;
mod formats;
mod kind;
mod lexeme;
mod lexing;
mod library;
mod magnitudes;
mod name_facts;
mod name_table;
mod names;
mod nested_cases;
mod notes;
mod numbers;
mod old_names;
mod operands;
mod options;
mod own_globals;
mod plain;
mod pools;
mod prepared;
mod program;
mod quoted;
mod quotes;
mod ranges;
mod reading;
mod replacement;
mod settled;
mod shared_names;
mod sized_vectors;
mod source;
mod spelling;
mod statics;
mod valofs;
mod walk;
mod wide_values;
mod words;

pub use applied::apply;
pub use complaint::{Complaint, Fault};
pub use conditions::compiled_text;
pub use conversion::{Conversion, convert};
pub use formats::is_library_header;
pub use lexing::lex;
pub use library::library_name;
pub use old_names::OldNames;
pub use options::{Header, Lawful, NameList, Options, System, renamings};
pub use program::Program;
pub use replacement::Replacement;
pub use settled::settle;
pub use shared_names::SharedNames;
pub use source::Token;
