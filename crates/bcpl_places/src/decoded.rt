//! Decodes a machine word as an instruction, in the letters of INTCODE.

use bc_word::{Memory, Word};
use std::alloc::Global;

/// The letters of the functions, in the order of a word's upper three bits.
pub const FUNCTIONS: [&str; 8] = ["L", "S", "A", "J", "T", "F", "K", "X"];

/// A word decoded as an instruction, as `LIP3`. `following` is the word after it, which is the number of an instruction
/// of two words. Returns `Memory` if an allocation fails.
pub fn instruction(alloc: Global, word: Word, following: Word) -> Result<String, Memory> {
    let code = word.get() / 512;
    let mut text = String::new(alloc);
    let function = FUNCTIONS
        .get(usize::from(code / 16))
        .copied()
        .unwrap_or("X");
    text.push_str(function)?;
    if code / 8 % 2 == 1 {
        text.push('I')?;
    }
    if code / 4 % 2 == 1 {
        text.push('P')?;
    }
    if code / 2 % 2 == 1 {
        text.push('G')?;
    }
    let number = if code % 2 == 1 {
        following.get()
    } else {
        word.get() % 512
    };
    write!(text, "{number}")?;
    Ok(text)
}
