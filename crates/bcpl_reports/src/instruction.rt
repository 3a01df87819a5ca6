//! Decodes a machine word as an instruction, in the letters of INTCODE.

use crate::report::Fill;
use bcpl_places::FUNCTIONS;

/// The letters that follow the function's, in the order of the next three bits.
const MODES: [&str; 8] = ["", "G", "P", "PG", "I", "IG", "IP", "IPG"];

/// The letters for this number, which is below 8.
fn letters(table: &[&'static str], number: u16) -> Fill<'static> {
    match table.get(usize::from(number)) {
        Some(letters) => Fill::Text(*letters),
        None => Fill::Text(""),
    }
}

/// A word decoded as an instruction, as `LIP3`, in three parts. `following` is the word after it, which is the number
/// of an instruction of two words.
pub fn instruction(word: u16, following: u16) -> [Fill<'static>; 3] {
    let code = word / 512;
    let number = if code % 2 == 1 { following } else { word % 512 };
    [
        letters(&FUNCTIONS, code / 16),
        letters(&MODES, code / 2 % 8),
        Fill::Number(u128::from(number)),
    ]
}
