//! Advice on refusals by the situation: what the author of the statement probably knows from another language, and what
//! is written in BCPL instead. Also further faults of a refused main: what else is wrong, apart from what follows from the
//! first fault.
#![tactic(auto)]

mod advice;
mod after_lexical;
mod after_scopes;
mod blanking;
mod characters;
mod foreign;
mod further;
mod mending;
mod names;
mod reserved;
mod shapes;
mod statements;
mod window;
mod words;

pub use advice::advised;
pub use after_lexical::faults_after_lexical;
pub use after_scopes::further_scope_faults;
pub use further::{FurtherFault, further_faults};
pub use names::{likely_among, likely_meaning};
