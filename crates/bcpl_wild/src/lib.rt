//! The message for a wild access in a run of the sources: where it is, whose cell the run met, and the calls that led
//! there. Also the messages for what ends a strict run, and the line that shows that a run goes on.
#![tactic(auto)]

mod calls;
mod extent;
mod message;
mod naming;
mod owner;
mod placed;
mod progress;
mod sentence;
mod strict;

pub use bc_interpret_pure::Cause;
pub use bc_interpret_strict::{Mistake, Outside};
pub use bc_interpret_trace::Standing;
pub use bcpl_messages::Message;
pub use extent::Extent;
pub use message::{Met, Stand, WildProgram, placed_message, wild_message};
pub use naming::named_globals;
pub use placed::{ReadMain, RootOf, read, root_of};
pub use progress::ProgressLine;
pub use strict::strict_message;
