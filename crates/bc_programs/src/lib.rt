//! Laws about whole programs: what the programs in `examples/proved` print, for all inputs of the stated form, that their texts are the
//! sections of which these laws speak, and what a machine prints that runs an image of one of them.
//! Also that in every built program the routines of the library do what their laws say.
#![tactic(auto)]

pub mod built;
pub mod laws;
pub mod library;
pub mod source;
