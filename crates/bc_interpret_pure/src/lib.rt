//! Evaluates pure expressions, and decides whether an expression is pure. An expression is pure if it contains no call and no VALOF.
//!
//! Expressions up to 16 levels deep are evaluated by recursion (`fast_path.rt`). Deeper ones are evaluated by the small-step machine of
//! `bc_interpret_defs` (`value.rt`), which keeps its continuations in a list, so that they use no native stack.
#![tactic(auto)]

mod apply;
mod calls;
mod context;
mod evaluate;
mod fast_path;
mod forms;
mod result;
mod value;

pub use context::{Cause, Sight, cell_in, cell_of};
pub use fast_path::{Quick, truth_at_once, value_at_once};
pub use forms::Rest;
pub use result::{Room, truth_of, worth_of};
pub use value::{Truth, Worth};
