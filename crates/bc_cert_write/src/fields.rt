//! Appends fields to a line: each function appends a blank followed by the field. All return `Memory` if an allocation fails.

ghost use Rattle.std.specs.Prelude.{◌≡◌, ◌++◌, ◌∷◌, OnOk};
ghost use Rattle.std.specs.Fmt.{decimal};
ghost use Rattle.bc_text.specs.Letters.{letter as letter_of, indirection as indirection_of, base_letter as base_letter_of};
ghost use Rattle.bc_text.specs.Printed.{printed};
ghost use Rattle.bc_cert_write.specs.Lines.{rule_name, words_field as words_text};
ghost use Rattle.bc_cert_write.specs.Printed.{form_text, chain_text};

use crate::chain::Chain;
use crate::form::Form;
use crate::text::Text;
use bc_rules_defs::Rule;
use bc_text_items::{Base, Function, Item};
use bc_word::Memory;

/// Appends the form of a node: a letter or sign, and the number of forms that have one.
pub fn form_field(text: &mut Text, form: Form) -> Result<(), Memory>
    ensures { OnOk result (text.new.bytes.items ≡ text.old.bytes.items ++ 32 ∷ form_text form) }
{
    match form {
        Form::Num(n) => text.lettered(b" N", u64::from(n)),
        Form::Frame(offset) => text.lettered(b" P", u64::from(offset)),
        Form::Glob(n) => text.lettered(b" G", u64::from(n)),
        Form::Place(label) => text.lettered(b" L", u64::from(label)),
        Form::Load => text.push(b" !"),
        Form::Neg => text.push(b" M"),
        Form::Not => text.push(b" ~"),
        Form::Operator(n) => text.lettered(b" X", u64::from(n)),
        Form::Cond => text.push(b" ?"),
        Form::Call(arguments) => text.lettered(b" K", arguments),
        Form::Valof(n) => text.lettered(b" V", u64::from(n)),
    }
}

/// Appends a number of words, or `-` for None.
pub fn words_field(text: &mut Text, words: Option<u64>) -> Result<(), Memory>
    ensures { OnOk result (text.new.bytes.items ≡ text.old.bytes.items ++ 32 ∷ words_text words) }
{
    match words {
        Some(words) => text.marked(b' ', words),
        None => text.push(b" -"),
    }
}

/// Appends these bytes and the name of the rule.
pub fn named(text: &mut Text, mark: &[u8], rule: Rule) -> Result<(), Memory>
    ensures { OnOk result (text.new.bytes.items ≡ text.old.bytes.items ++ (mark.now ++ rule_name rule)) }
{
    text.push(mark)?;
    text.marked(rule.letter(), u64::from(rule.number()))
}

/// Appends the names of the rules at a node, joined by dots, or `-` if there are none.
pub fn rules_field(text: &mut Text, rules: Chain) -> Result<(), Memory>
    ensures { OnOk result (text.new.bytes.items ≡ text.old.bytes.items ++ 32 ∷ chain_text rules) }
{
    match rules {
        Chain::Nothing => text.push(b" -"),
        Chain::One(rule) => named(text, b" ", rule),
        Chain::Two(first, second) => {
            named(text, b" ", first)?;
            named(text, b".", second)
        }
        Chain::Three(first, second, third) => {
            named(text, b" ", first)?;
            named(text, b".", second)?;
            named(text, b".", third)
        }
    }
}

/// Appends an item as it is printed in a text of INTCODE.
pub fn item_field(text: &mut Text, item: &Item) -> Result<(), Memory>
    ensures { OnOk result (text.new.bytes.items ≡ text.old.bytes.items ++ 32 ∷ printed item.now) }
{
    match *item {
        Item::Label(number) => text.marked(b' ', u64::from(number.get())),
        Item::Data(number) => text.lettered(b" D", u64::from(number.get())),
        Item::DataLabel(label) => text.lettered(b" DL", u64::from(label.get())),
        Item::Byte(byte) => text.lettered(b" C", u64::from(byte)),
        Item::Operation {
            function,
            indirect,
            base,
            number,
        } => {
            letters(text, function, indirect)?;
            based(text, base, u64::from(number.get()))
        }
        Item::Global { number, label } => {
            text.lettered(b" G", u64::from(number.get()))?;
            text.lettered(b"L", u64::from(label.get()))
        }
    }
}

/// Appends a blank, the letter of a function, and `I` if the operation is indirect.
fn letters(text: &mut Text, function: Function, indirect: bool) -> Result<(), Memory>
    ensures { OnOk result (text.new.bytes.items ≡ text.old.bytes.items ++ 32 ∷ letter_of function ∷ indirection_of indirect) }
{
    let letter = function_letter(function);
    if indirect {
        text.push(&[b' ', letter, b'I'])
    } else {
        text.push(&[b' ', letter])
    }
}

/// Appends the letter of a base, if it has one, and the number.
fn based(text: &mut Text, base: Base, number: u64) -> Result<(), Memory>
    ensures { OnOk result (text.new.bytes.items ≡ text.old.bytes.items ++ (base_letter_of base ++ decimal number)) }
{
    match base {
        Base::Number => text.number(number),
        Base::P => text.marked(b'P', number),
        Base::G => text.marked(b'G', number),
        Base::Label => text.marked(b'L', number),
    }
}

/// The letter of a function.
fn function_letter(function: Function) -> u8
    ensures { result ≡ letter_of function }
{
    match function {
        Function::Load => b'L',
        Function::Store => b'S',
        Function::Add => b'A',
        Function::Jump => b'J',
        Function::JumpIfTrue => b'T',
        Function::JumpIfFalse => b'F',
        Function::Call => b'K',
        Function::Execute => b'X',
    }
}
