//! The number of words of a section's code.

pub mod laws;
