//! Words of 16 bits and their operators: the arithmetic that the language and the machine share. Also `Memory`, the error of calls
//! that can only fail by a failed allocation.
#![tactic(auto)]

mod arithmetic;
pub mod laws;
mod memory;
mod operator;
mod word;

pub use arithmetic::{apply, complement, mirror};
pub use memory::Memory;
pub use operator::{NotAnOperator, Op, Rel};
pub use word::Word;
