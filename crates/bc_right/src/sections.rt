//! Fifth layer, and the purpose of the others: the image of sections does what their sources say.

pub mod laws;
