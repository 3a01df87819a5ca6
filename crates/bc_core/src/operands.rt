//! The operand of an instruction.
use bc_text_items::Base;
use bc_word::Word;

/// The operand of one instruction: a number or an address, or the content of the cell at that address.
#[derive(Clone, Copy, Debug, PartialEq, Eq)]
pub struct Operand {
    /// True for the number or the address itself, false for the content of the cell there.
    pub direct: bool,
    /// What the number is relative to: nothing, the frame, the globals, or a label.
    pub base: Base,
    /// The number, or the label.
    pub n: Word,
}
