//! The writer of code: the pieces written and the next free label, with one method for each kind of instruction.

ghost use Rattle.std.specs.Prelude.{◌≡◌, [], ◌∷◌, ◌++◌, ◌+◌, true, false, OnOk};
ghost use Rattle.bc_text_items.specs.declared.item.Item.TheVariants.{Operation};
ghost use Rattle.bc_rules_defs.specs.Piece.{on, X, jump_if as jump_if_of, label as label_of};
ghost use Rattle.bc_rules_defs.specs.declared.piece.Piece.TheVariants.{Item as item};
ghost use Rattle.bc_text_items.specs.declared.item.Base.TheVariants.{P};
ghost use Rattle.bc_rules.specs.Adds.{Adds, Takes, OkOrLacks};

use crate::code_fault::CodeFault;
use bc_core::Operand;
use bc_rules_defs::Piece;
use bc_text_items::{Base, Function, Item};
use bc_word::{Memory, Word};
use std::alloc::Global;

/// Appends a piece. The match is needed: without it the borrow checker can't tell where the `Item` in a piece lives.
fn push(pieces: &mut Vec<Piece>, piece: Piece) -> Result<(), Memory>
    ensures { OnOk result (pieces.new.items ≡ pieces.old.items ++ piece ∷ []) }
{
    match piece {
        Piece::Item(item) => pieces.push(Piece::Item(item))?,
        Piece::Body(n) => pieces.push(Piece::Body(n))?,
    }
    Ok(())
}

/// A number as a word; `NoRoom` if it is over 65,535.
pub fn as_word(n: u32) -> Result<u16, CodeFault>
    ensures { OkOrLacks result (λ word. word ≡ n) (n + 1) }
{
    if n < 65_536 {
        Ok(n as u16)
    } else {
        Err(CodeFault::NoRoom)
    }
}

/// The sum of two numbers; `NoRoom` if it is over 65,536.
pub fn more(n: u32, by: u32) -> Result<u32, CodeFault>
    ensures { OkOrLacks result (λ sum. sum ≡ n + by) (n + by) }
{
    let sum = n as u64 + by as u64;
    if sum <= 65_536 {
        Ok(sum as u32)
    } else {
        Err(CodeFault::NoRoom)
    }
}

/// The code written up to now, and the next free label.
///
/// Its methods return `NoRoom` if an offset or a label would be over 65,535, and `Memory` if an allocation failed.
#[derive(Drop)]
pub struct Writer {
    /// The code.
    pub pieces: Vec<Piece>,
    /// The next free label, at most 65,536.
    pub next: u32,
}

impl Writer {
    ghost use Rattle.bc_rules.specs.Adds.{Adds, Takes, OkOrLacks};

    /// A writer with no code, whose labels begin at `first`.
    pub fn new(alloc: Global, first: u16) -> Writer
        ensures empty { result.pieces.items ≡ [] }
        ensures next { result.next ≡ first }
    {
        Writer {
            pieces: Vec::new(alloc),
            next: first as u32,
        }
    }

    /// Takes `count` labels and returns the first of them. `NoRoom` if the next free label would be over 65,536.
    pub fn take(&mut self, count: u32) -> Result<u32, CodeFault>
        ensures first { OkOrLacks result (λ first. first ≡ self.old.next) (self.old.next + count) }
        ensures takes { OnOk result (Takes self.old self.new count) }
    {
        let first = self.next;
        self.next = more(first, count)?;
        Ok(first)
    }

    /// Appends a piece.
    pub fn add(&mut self, piece: Piece) -> Result<(), Memory>
        ensures { OnOk result (Adds self.old self.new (piece ∷ [])) }
    {
        push(&mut self.pieces, piece)
    }

    /// Appends an operation on an operand.
    pub fn operate(&mut self, function: Function, operand: Operand) -> Result<(), Memory>
        ensures { OnOk result (Adds self.old self.new (on function operand ∷ [])) }
    {
        self.add(Piece::Item(Item::Operation {
            function,
            indirect: !operand.direct,
            base: operand.base,
            number: operand.n,
        }))
    }

    /// Appends an operation on the address of the frame's cell at an offset, or with `indirect` on the cell itself.
    pub fn cell(&mut self, function: Function, indirect: bool, offset: u32) -> Result<(), CodeFault>
        ensures { OkOrLacks result (λ _. Adds self.old self.new (item (Operation function indirect P offset) ∷ [])) (offset + 1) }
    {
        let number = Word::new(as_word(offset)?);
        Ok(self.add(Piece::Item(Item::Operation {
            function,
            indirect,
            base: Base::P,
            number,
        }))?)
    }

    /// Appends an operation with a number.
    pub fn number(&mut self, function: Function, number: Word) -> Result<(), Memory>
        ensures { OnOk result (Adds self.old self.new (item (Operation function false Base.Number number) ∷ [])) }
    {
        self.add(Piece::Item(Item::Operation {
            function,
            indirect: false,
            base: Base::Number,
            number,
        }))
    }

    /// Appends `Xn`, an operation of the machine.
    pub fn execute(&mut self, n: u16) -> Result<(), Memory>
        ensures { OnOk result (Adds self.old self.new (X n ∷ [])) }
    {
        self.number(Function::Execute, Word::new(n))
    }

    /// Appends a jump to a label. `function` is one of the three jumps.
    pub fn jump(&mut self, function: Function, target: u16) -> Result<(), Memory>
        ensures { OnOk result (Adds self.old self.new (item (Operation function false Base.Label target) ∷ [])) }
    {
        self.add(Piece::Item(Item::Operation {
            function,
            indirect: false,
            base: Base::Label,
            number: Word::new(target),
        }))
    }

    /// Appends a jump to a label that is taken if A is true, or with `sense` false if A is false.
    pub fn jump_if(&mut self, sense: bool, target: u16) -> Result<(), Memory>
        ensures { OnOk result (Adds self.old self.new (jump_if_of sense target ∷ [])) }
    {
        if sense {
            self.jump(Function::JumpIfTrue, target)
        } else {
            self.jump(Function::JumpIfFalse, target)
        }
    }

    /// Appends a label.
    pub fn label(&mut self, n: u32) -> Result<(), CodeFault>
        ensures { OkOrLacks result (λ _. Adds self.old self.new (label_of n ∷ [])) (n + 1) }
    {
        let number = Word::new(as_word(n)?);
        Ok(self.add(Piece::Item(Item::Label(number)))?)
    }
}
