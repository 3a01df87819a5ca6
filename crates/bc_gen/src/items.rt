//! Methods of the writer that take labels and append single items.
ghost use Rattle.std.specs.Prelude.{◌≡◌, ◌+◌, IfOk, IfErr, [], ◌∷◌};
ghost use Rattle.bc_text_items.specs.declared.item.Item.TheVariants as items;
ghost use Rattle.bc_gen_defs.specs.Emit.{jump as jump_item, execute as execute_item, zero_item};
ghost use Rattle.bc_gen_defs.specs.Entries.{Plain};
ghost use Rattle.bc_gen.specs.Writing.{Puts, RunsOut};

use crate::gen_error::GenError;
use crate::marked_items::MarkedItem;
use crate::writer::Writer;
use bc_text_items::{Base, Function, Item};
use bc_word::Word;

/// The operation of `X4`, which returns from a routine.
pub(crate) const RETURN: u16 = 4;

/// The operation of `X22`, which ends the run.
pub(crate) const FINISH: u16 = 22;

/// The operation of `X23`, which jumps by the table that follows it.
pub(crate) const SWITCH: u16 = 23;

/// The greatest label that a section may take.
const GREATEST_LABEL: u16 = 20_000;

impl Writer {
    /// Takes `count` labels and returns the first. `TooManyLabels` if the last would be over 20,000.
    pub(crate) fn take(&mut self, count: usize) -> Result<u16, GenError>
        ensures taken { IfOk result (λ first. (first ≡ self.old.next) × (self.new.next ≡ self.old.next + count)) }
        ensures out { IfErr result (λ e. RunsOut e (self.old.next + count)) }
        ensures parts { self.new.parts ≡ self.old.parts }
    {
        let first = self.next;
        if count > usize::from(GREATEST_LABEL + 1 - first) {
            return Err(GenError::TooManyLabels);
        }
        self.next = first + count as u16;
        Ok(first)
    }

    /// Takes all labels below `next`. `TooManyLabels` if the last would be over 20,000.
    pub(crate) fn take_to(&mut self, next: u32) -> Result<(), GenError>
        ensures next { IfOk result (λ _. self.new.next ≡ next) }
        ensures out { IfErr result (λ e. RunsOut e next) }
        ensures parts { self.new.parts ≡ self.old.parts }
    {
        if next > u32::from(GREATEST_LABEL) + 1 {
            return Err(GenError::TooManyLabels);
        }
        self.next = next as u16;
        Ok(())
    }

    /// Appends an item.
    pub(crate) fn put(&mut self, item: Item) -> Result<(), GenError>
        ensures { Puts result self.old self.new (Plain item ∷ []) }
    {
        Ok(self.parts.push(MarkedItem::Item(item))?)
    }

    /// Appends a label.
    pub(crate) fn label(&mut self, label: u16) -> Result<(), GenError>
        ensures { Puts result self.old self.new (Plain (items.Label label) ∷ []) }
    {
        self.put(Item::Label(Word::new(label)))
    }

    /// Appends a word of data.
    pub(crate) fn data(&mut self, word: Word) -> Result<(), GenError>
        ensures { Puts result self.old self.new (Plain (items.Data word) ∷ []) }
    {
        self.put(Item::Data(word))
    }

    /// Appends a word of data that is the address of a label.
    pub(crate) fn data_label(&mut self, label: u16) -> Result<(), GenError>
        ensures { Puts result self.old self.new (Plain (items.DataLabel label) ∷ []) }
    {
        self.put(Item::DataLabel(Word::new(label)))
    }

    /// Appends a jump to a label.
    pub(crate) fn jump(&mut self, label: u16) -> Result<(), GenError>
        ensures { Puts result self.old self.new (Plain (jump_item label) ∷ []) }
    {
        self.put(Item::Operation {
            function: Function::Jump,
            indirect: false,
            base: Base::Label,
            number: Word::new(label),
        })
    }

    /// Appends `X` with the number of an operation of the machine.
    pub(crate) fn execute(&mut self, operation: u16) -> Result<(), GenError>
        ensures { Puts result self.old self.new (Plain (execute_item operation) ∷ []) }
    {
        self.put(Item::Operation {
            function: Function::Execute,
            indirect: false,
            base: Base::Number,
            number: Word::new(operation),
        })
    }

    /// Appends `L0`, which loads 0.
    pub(crate) fn zero(&mut self) -> Result<(), GenError>
        ensures { Puts result self.old self.new (Plain zero_item ∷ []) }
    {
        self.put(Item::Operation {
            function: Function::Load,
            indirect: false,
            base: Base::Number,
            number: Word::new(0),
        })
    }
}
