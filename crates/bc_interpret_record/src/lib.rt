//! Records a run of a program by its meaning: where it stopped, and what changed from each stop to the next, so that it can be followed
//! forwards and backwards.
#![tactic(auto)]

mod moment;
mod recorder;
mod recording;
mod site;
mod tagging;
mod two_runs;

pub use bc_interpret::{Cause, Ending, Interpreted, Outcome};
pub use bc_interpret_store::{Cell, Change};
pub use moment::Moment;
pub use recorder::Bounds;
pub use recording::{Frame, Move, NO_SITE, Recording, Stop, is_finished};
pub use site::{InBody, StopKind, StopSite};
pub use two_runs::{RecordError, RecordLimits, Recordable, Recorded, record_run};
