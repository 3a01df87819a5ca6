//! Theorems: what is written from tokens or from a section as text is read back as the same.
#![tactic(auto)]

pub mod laws;
