//! The command line of the program: its arguments, its failures and its files.
//!
//! - Arguments: `parse_arguments` turns them into an `Order`; `guess_of` and `hint` guess what an invalid one was meant
//!   to be.
//! - Failing: a `Failure` has the first line of the message, an explanation, and the exit status.
//! - Files: `contents` reads one up to a limit, `AtomicFile` writes one completely or not at all, `FilePair` two
//!   together, `file_kind` guesses what one is, `names_in` lists a folder.
//! - `lean_libraries` cuts the sources of the library to the definitions that a program can reach by name, for
//!   `bcpl build --lean`.
#![tactic(auto)]

mod argument_reader;
mod arguments;
mod atomic_file;
mod clean;
mod colours;
mod command_files;
mod commands;
mod converting;
mod escaped;
mod failure;
mod file_identity;
mod file_kinds;
mod file_pair;
mod folders;
mod formatting;
mod get_hints;
mod got_names;
mod grammar;
mod guessing;
mod hints;
mod library_cutting;
mod library_definitions;
mod library_words;
mod loaded_sources;
mod numbers;
mod read_file;
mod refusals;
mod serving;
mod stack_limit;
mod standard_input;
mod utf8_scan;
mod version;

pub use arguments::{
    ArgumentError, AssembleOrder, Binding, BuildOrder, CheckOrder, DebugOrder, ExplainOrder,
    GoOrder, ImageFormat, InterpretOrder, Library, LinkedLibrary, ListOrder, Listing, Order,
    Places, ProgramOrder, RunOrder, ShowOrder, Sources, TameOrder, TreeShape, WatchOrder,
    is_standard_output, parse_arguments,
};
pub use atomic_file::{AtomicFile, Links, is_one_file, is_regular, named_twice, remove_unfinished};
pub use clean::Clean;
pub use converting::{ConvertDialect, ConvertHeader, ConvertOrder, ConvertTo};
pub use escaped::{Escaped, EscapedText, shown_path};
pub use failure::{BuildLine, Cause, Failure, Strict, Wild};
pub use file_kinds::{FileKind, file_kind};
pub use file_pair::FilePair;
pub use folders::{is_folder, names_in, sorted_names};
pub use formatting::{FormatOrder, FormatTo};
pub use get_hints::get_hint;
pub use guessing::{Guess, guess_of, places_in};
pub use hints::{Expected, hint, without_extension};
pub use library_cutting::lean_libraries;
pub use loaded_sources::{LoadedSource, load_sources};
pub use read_file::{FILE_LIMIT, contents};
pub use serving::ServeOrder;
pub use stack_limit::check_stack;
pub use standard_input::StandardInput;
