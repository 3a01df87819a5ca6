//! Warnings: what is legal in a source, but probably wrong, as its tokens show it or the way in which its values are used.
//! A warning is not a refusal, and claims nothing about what the program does.
#![tactic(auto)]

mod addresses;
mod arguments;
mod arithmetic;
mod calls;
mod comments;
mod conditions;
mod counts;
mod crossing;
mod declared;
mod enclosing;
mod endless;
mod finishing;
mod flow;
mod format_arguments;
mod formats;
mod found;
mod globals;
mod habits;
mod hiding;
mod kinds;
mod known;
mod labels;
mod lengths;
mod lists;
mod loops;
mod main_warnings;
mod mixed;
mod operands;
mod own_values;
mod packing;
mod passed;
mod ranges;
mod reading;
mod recursions;
mod relations;
mod rounds;
mod routines;
mod separated;
mod starting;
mod starts;
mod streams;
mod strings;
mod subscripts;
mod swaps;
mod tokens;
mod unreachable;
mod unset;
mod uses;
mod values;
mod vectors;
mod warning;

pub use enclosing::loop_around;
pub use main_warnings::{all_warnings, warning_lines};
pub use warning::likely_starts;
