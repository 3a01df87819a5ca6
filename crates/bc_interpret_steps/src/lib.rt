//! The steps of a run of a resolved program: the machine of `bc_interpret_defs` as code.
//!
//! A rest is what is usually called a continuation frame: what is left to do with an answer. Comments call it a continuation, since a
//! frame here is that of a routine. The continuations are in a vector, with the innermost last, so a run uses no native stack for the
//! depth of calls. (Pure expressions use it down to a depth of 16.)
//!
//! One call of `step` does at least one step of the definition's machine. To be fast it does several where all but the last change no cell
//! and take no turn: where control only leaves commands, from an operator's first operand to its second, past a pure condition, into a call
//! that is an operator's first operand, and into the called routine.
#![tactic(auto)]

pub mod addresses;
mod answers;
mod arguments;
mod assign;
mod call_command;
mod calls;
mod commands;
mod conditions;
mod continuations;
mod descend;
mod evaluate;
mod exits;
mod forms;
mod lists;
mod numbers;
mod operands;
mod sections;
mod state;
mod steps;

pub use calls::keep_open;
pub use continuations::{ExitRest, NothingRest, NumberRest, Rest, TruthRest, ValueRest, push};
pub use forms::{
    Arguments, Ending, Entry, Exit, OpenCall, Primitive, Progress, Rounds, Site, Work,
};
pub use sections::{Callable, Section};
pub use state::{Called, Stacks, State};
pub use steps::step;
