//! The command `convert`: reads old sources, converts and writes them, and reports what must be done by hand.
#![tactic(auto)]

mod command;
mod job;
mod lawful;
mod protected_files;
mod rounds;
mod summary;

pub use command::{by_hand, convert_file, list_text, refuse_list};
pub use job::{name_of, write_file};
pub use lawful::Given;
pub use rounds::{
    Converted, MOST_ROUNDS, Round, Shown, compiled_texts, first_round, further_round, lawful_in,
    may_change_any, needs_another_round, texts_up_to_here,
};
pub use summary::told_of;
