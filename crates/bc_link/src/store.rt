//! The words that items become. The functions return `Memory` if an allocation fails.

ghost use Rattle.std.specs.Prelude.{◌≡◌, ℕ, ◌+◌, ◌*◌, ◌^◌, ◌<◌, ◌≤◌, List, [], ◌∷◌, ◌++◌, length, vec_len, OnOk, IfOk};
ghost use Rattle.bc_text_items.specs.Assembled.{function_number, base_bit, instruction, operation_words, words_of_item, assembled, global_settings};
ghost use Rattle.bc_text_items.specs.declared.item.Item.{Item};
ghost use Rattle.bc_link.specs.Labels.{label_address};
ghost use Rattle.bc_link.specs.Store.{with_settings};
ghost use Rattle.bc_link.specs.Steps.{with_waiting};

use crate::label_table::LabelTable;
use bc_text_items::{Base, Function, Item};
use bc_word::{Memory, Word};

/// The word of an instruction. `low` is its address, from 0 to 511, or 512 for the long form.
fn instruction(function: Function, indirect: bool, base: Base, low: u16) -> Word
    requires { low ≤ 512 }
    ensures { result ≡ instruction function indirect base low }
{
    let code: u16 = match function {
        Function::Load => 0,
        Function::Store => 1,
        Function::Add => 2,
        Function::Jump => 3,
        Function::JumpIfTrue => 4,
        Function::JumpIfFalse => 5,
        Function::Call => 6,
        Function::Execute => 7,
    };
    let indirection: u16 = if indirect { 4096 } else { 0 };
    let base_bit: u16 = match base {
        Base::P => 2048,
        Base::G => 1024,
        Base::Number | Base::Label => 0,
    };
    Word::new(8192 * code + indirection + base_bit + low)
}

/// An instruction before its address is known.
#[derive(Clone, Copy)]
struct Operation {
    /// Its function.
    function: Function,
    /// Whether it is indirect.
    indirect: bool,
    /// What its number is added to, or that it is a label.
    base: Base,
    /// Its number.
    number: Word,
}

/// Appends the words of an operation.
fn push_operation(
    words: &mut Vec<Word>,
    operation: Operation,
    labels: &LabelTable,
) -> Result<(), Memory>
    ensures { OnOk result (words.new.items ≡ words.old.items
        ++ operation_words (label_address labels.now) operation.function operation.indirect operation.base operation.number) }
{
    let Operation {
        function,
        indirect,
        base,
        number,
    } = operation;
    if base == Base::Label {
        words.push(instruction(function, indirect, base, 512))?;
        words.push(labels.address_or_zero(number))?;
    } else if number.get() <= 511 {
        words.push(instruction(function, indirect, base, number.get()))?;
    } else {
        words.push(instruction(function, indirect, base, 512))?;
        words.push(number)?;
    }
    Ok(())
}

/// Appends the words of a single item.
fn push_item(words: &mut Vec<Word>, item: &Item, labels: &LabelTable) -> Result<(), Memory>
    ensures { OnOk result (words.new.items ≡ words.old.items ++ words_of_item (label_address labels.now) item.now) }
{
    match item {
        Item::Label(_) | Item::Global { .. } => Ok(()),
        Item::Data(word) => Ok(words.push(*word)?),
        Item::DataLabel(label) => Ok(words.push(labels.address_or_zero(*label))?),
        Item::Byte(byte) => Ok(words.push(two_bytes(*byte, 0))?),
        Item::Operation {
            function,
            indirect,
            base,
            number,
        } => {
            let operation = Operation {
                function: *function,
                indirect: *indirect,
                base: *base,
                number: *number,
            };
            push_operation(words, operation, labels)
        }
    }
}

/// The word of two consecutive bytes.
fn two_bytes(high: u8, low: u8) -> Word
    ensures { result ≡ high * 256 + low }
{
    Word::new(u16::from(high) * 256 + u16::from(low))
}

/// Appends the words of an item, after the word of the waiting byte if that can't be shared. A byte waits until it is known whether
/// another byte follows it. Returns the byte that waits now.
fn push_next(
    words: &mut Vec<Word>,
    waiting: Option<u8>,
    item: &Item,
    labels: &LabelTable,
) -> Result<Option<u8>, Memory>
    ensures { IfOk result (λ next. (rest : List Item) → words.new.items ++ assembled (label_address labels.now) (with_waiting next rest) ≡ words.old.items
        ++ assembled (label_address labels.now) (with_waiting waiting (item.now ∷ rest))) }
{
    match (waiting, item) {
        (None, Item::Byte(byte)) => Ok(Some(*byte)),
        (Some(high), Item::Byte(low)) => {
            words.push(two_bytes(high, *low))?;
            Ok(None)
        }
        (None, _) => {
            push_item(words, item, labels)?;
            Ok(None)
        }
        (Some(high), _) => {
            words.push(two_bytes(high, 0))?;
            push_item(words, item, labels)?;
            Ok(None)
        }
    }
}

/// Appends the words of all these items.
pub fn push_items(words: &mut Vec<Word>, items: &[Item], labels: &LabelTable) -> Result<(), Memory>
    ensures { OnOk result (words.new.items ≡ words.old.items ++ assembled (label_address labels.now) items.now) }
{
    let mut waiting = None;
    for item in items {
        waiting = push_next(words, waiting, item, labels)?;
    }
    if let Some(high) = waiting {
        words.push(two_bytes(high, 0))?;
    }
    Ok(())
}

/// Sets the cells of the globals that the items set to the addresses of their labels.
pub fn set_globals(cells: &mut [Word], items: &[Item], labels: &LabelTable)
    requires { length cells.old ≡ 512 }
    ensures { cells.new ≡ with_settings (label_address labels.now) (global_settings items.now) cells.old }
{
    for item in items {
        if let Item::Global { number, label } = item {
            cells[usize::from(number.get())] = labels.address_or_zero(*label);
        }
    }
}
