//! Third layer: the code of commands, calls and sections does on the machine what they mean.

pub mod laws;
