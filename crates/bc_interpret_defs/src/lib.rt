//! A small-step machine for resolved programs, and the proof that it computes their meaning and nothing else. The machine keeps
//! its continuations in a list instead of recursing, so an interpreter built on it needs no native stack for calls, loops and trees.
//!
//! The definitions are in `specs/` (begin with `Machine.antt`). The only Rust code is `laws`.
#![tactic(auto)]

pub mod laws;
