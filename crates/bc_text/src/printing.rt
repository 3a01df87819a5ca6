//! The public call `print`: writes a segment as text.

ghost use Rattle.std.specs.Prelude.{◌≡◌, ◌≤◌, ◌+◌, ◌++◌, ◌∷◌, [], OnOk, IfErr};
ghost use Rattle.std.specs.Fmt.{decimal};
ghost use Rattle.std.specs.Io.KnownBytes.{Appends};
ghost use Rattle.arrayvec.specs.ArrayString.{array_string_len};
ghost use Rattle.bc_text.specs.Letters.{letter, base_letter};
ghost use Rattle.bc_text.specs.Printed.{line, printed_segment, AppendsFront};

use crate::text_error::TextError;
use arrayvec::ArrayString;
use bc_text_items::{Base, Function, Item, Segment};
use itoa::Buffer;
use std::io::Write;

/// Writes a segment: each item and then `Z`, each on its own line, the numbers without sign. Allocates nothing, and passes one line at a
/// time to the writer.
///
/// `Write` only if the writer fails: it returns an error or takes nothing. It has then taken the beginning of the text.
pub fn print<W: Write>(segment: &Segment, out: &mut W) -> Result<(), TextError>
    ensures written { OnOk result (Appends (W.contents out.old) (W.contents out.new) (printed_segment segment.now)) }
    ensures front { AppendsFront (W.contents out.old) (W.contents out.new) (printed_segment segment.now) }
    ensures fault { IfErr result (λ fault. fault ≡ TextError.Write) }
{
    for item in segment.items() {
        put(out, line_of(item).as_str().as_bytes())?;
    }
    put(out, b"Z\n")
}

/// Writes all of the bytes; `Write` if the writer fails, which has then taken the first of them.
fn put<W: Write>(out: &mut W, bytes: &[u8]) -> Result<(), TextError>
    ensures written { OnOk result (Appends (W.contents out.old) (W.contents out.new) bytes.now) }
    ensures front { AppendsFront (W.contents out.old) (W.contents out.new) bytes.now }
    ensures fault { IfErr result (λ fault. fault ≡ TextError.Write) }
{
    let mut taken = 0;
    while taken < bytes.len() {
        match out.write(&bytes[taken..]) {
            Ok(0) | Err(_) => return Err(TextError::Write),
            Ok(more) => taken += more,
        }
    }
    Ok(())
}

/// A buffer for one line. The longest line is that of a global, 11 bytes.
type Line = ArrayString<16>;

/// An item as a line, with its line feed.
fn line_of(item: &Item) -> Line
    ensures { result.bytes ≡ line item.now }
{
    let mut text = Line::new();
    match *item {
        Item::Label(number) => push_number(&mut text, number.get()),
        Item::Data(number) => {
            text.push_str("D");
            push_number(&mut text, number.get());
        }
        Item::DataLabel(label) => {
            text.push_str("DL");
            push_number(&mut text, label.get());
        }
        Item::Byte(byte) => {
            text.push_str("C");
            push_number(&mut text, u16::from(byte));
        }
        Item::Operation {
            function,
            indirect,
            base,
            number,
        } => {
            push_letter(&mut text, function);
            if indirect {
                text.push_str("I");
            }
            push_base(&mut text, base);
            push_number(&mut text, number.get());
        }
        Item::Global { number, label } => {
            text.push_str("G");
            push_number(&mut text, number.get());
            text.push_str("L");
            push_number(&mut text, label.get());
        }
    }
    text.push_str("\n");
    text
}

/// Appends a number in decimal, at most five digits. Almost half of the numbers in a text have one digit, which is copied as a constant.
#[tactic(auto, using(std::proofs::lemmas::Fmt::decimal_digit))]
fn push_number(text: &mut Line, number: u16)
    requires { array_string_len text.old ≤ 11 }
    ensures bytes { text.new.bytes ≡ text.old.bytes ++ decimal number }
    ensures len { array_string_len text.new ≤ array_string_len text.old + 5 }
{
    match number {
        0 => text.push_str("0"),
        1 => text.push_str("1"),
        2 => text.push_str("2"),
        3 => text.push_str("3"),
        4 => text.push_str("4"),
        5 => text.push_str("5"),
        6 => text.push_str("6"),
        7 => text.push_str("7"),
        8 => text.push_str("8"),
        9 => text.push_str("9"),
        _ => {
            let mut buffer = Buffer::new();
            text.push_str(buffer.format(number));
        }
    }
}

/// Appends the letter of a function.
fn push_letter(text: &mut Line, function: Function)
    requires { array_string_len text.old ≤ 11 }
    ensures bytes { text.new.bytes ≡ text.old.bytes ++ letter function ∷ [] }
    ensures len { array_string_len text.new ≤ array_string_len text.old + 1 }
{
    match function {
        Function::Load => text.push_str("L"),
        Function::Store => text.push_str("S"),
        Function::Add => text.push_str("A"),
        Function::Jump => text.push_str("J"),
        Function::JumpIfTrue => text.push_str("T"),
        Function::JumpIfFalse => text.push_str("F"),
        Function::Call => text.push_str("K"),
        Function::Execute => text.push_str("X"),
    }
}

/// Appends the letter of a base, or nothing.
fn push_base(text: &mut Line, base: Base)
    requires { array_string_len text.old ≤ 11 }
    ensures bytes { text.new.bytes ≡ text.old.bytes ++ base_letter base }
    ensures len { array_string_len text.new ≤ array_string_len text.old + 1 }
{
    match base {
        Base::Number => {}
        Base::P => text.push_str("P"),
        Base::G => text.push_str("G"),
        Base::Label => text.push_str("L"),
    }
}
