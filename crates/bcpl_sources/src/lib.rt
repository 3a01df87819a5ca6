//! Sources and texts as the commands read them, the streams that they print on, and the commands `build`, `tame` and `explain`.
#![tactic(auto)]

mod compiling;
mod devices;
mod diagnostics;
mod explaining;
mod growing_list;
mod output;
mod routine_names;
mod run_output;
mod source_files;
mod standard;
mod taming;
mod texts;
mod unused_gets;

pub use compiling::{compile, refused, warnings_on};
pub use devices::{Sink, Source};
pub use diagnostics::{Accepted, Program, error_lines};
pub use explaining::{entries_of_segment, explain, write_report};
pub use growing_list::Growing;
pub use output::{of_listing, of_output, print_all, print_lines, print_messages, unfinished};
pub use routine_names::{Remark, named_routines, routines_at};
pub use run_output::RunOutput;
pub use source_files::Gathered;
pub use standard::{Console, RunConsole, RunStreams, Standard, Terminals, explains_at};
pub use taming::{is_tame_built, tame};
pub use texts::{
    LinkedProgram, TextFile, add_unless_failed, linked_program, linked_texts, or_memory_failure,
    program_of, read_texts, read_texts_or_input, readable, segments_of, standard_text, texts_of,
    with_explanation,
};
