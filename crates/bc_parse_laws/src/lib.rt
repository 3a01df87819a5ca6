//! Theorems about canonical spellings, above all that a section is read back from its canonical spelling.
#![tactic(auto)]

pub mod laws;
