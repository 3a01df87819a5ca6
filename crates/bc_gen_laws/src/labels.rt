//! The labels of a section's items: each is set once, and each that is used is set.

pub mod laws;
