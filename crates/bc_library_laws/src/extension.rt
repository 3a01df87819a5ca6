//! The extension library: laws about its routines and its text.

pub mod laws;
pub mod texts;
