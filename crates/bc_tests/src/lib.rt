//! Tests of the public calls: what the files of cases can't show, such as allocations that fail, devices that fail, and calls that no
//! source leads to.

#![tactic(auto)]

mod building;
mod certifying;
mod compiling;
mod interpreting;
mod running;
