//! The roots of a section, found by walking its commands: its entries belong to them, and its size is computed from them.

pub mod laws;
