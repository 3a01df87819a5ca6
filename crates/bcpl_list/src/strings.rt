//! Descriptions of strings and other runs of bytes.

use crate::page::Page;
use bc_text_items::Item;

/// The width, in bytes, at which the text of a string is cut.
const WIDTH: usize = 60;

/// The index after the run of items of one kind that begins at `from`: bytes, or words of data.
fn end_of_run(items: &[Item], from: usize) -> usize {
    let mut end = from;
    let is_byte = matches!(items.get(from), Some(Item::Byte(_)));
    for index in from..items.len() {
        let is_like = match items.get(index) {
            Some(Item::Byte(_)) => is_byte,
            Some(Item::Data(_) | Item::DataLabel(_)) => !is_byte,
            _ => false,
        };
        if !is_like {
            return end;
        }
        end = index.saturating_add(1);
    }
    end
}

/// The bytes or the words of data that follow the item with this index.
pub fn run_after(items: &[Item], index: usize) -> &[Item] {
    let following = index.saturating_add(1);
    match items.get(following..end_of_run(items, following)) {
        Some(run) => run,
        None => &[],
    }
}

/// Adds a byte as BCPL spells it in a string.
fn add_byte(page: &mut Page, byte: u8) {
    match byte {
        b'\n' => page.add("*N"),
        b'\t' => page.add("*T"),
        b'"' => page.add("*\""),
        b'*' => page.add("**"),
        32..=126 => page.add_sign(char::from(byte)),
        _ => add_code(page, byte),
    }
}

/// Adds a byte in hexadecimal.
fn add_code(page: &mut Page, byte: u8) {
    page.add("\\x");
    page.add_digits(byte);
}

/// The byte of an item, if it is one.
fn byte_of(item: &Item) -> Option<u8> {
    match item {
        Item::Byte(byte) => Some(*byte),
        _ => None,
    }
}

/// Whether a run of bytes is a string, that is, its first byte is the number of the others.
fn is_string(items: &[Item]) -> bool {
    let Some((first, others)) = items.split_first() else {
        return false;
    };
    match byte_of(first) {
        Some(length) => usize::from(length) == others.len(),
        None => false,
    }
}

/// Describes a run of bytes: a string with its text, or just bytes.
pub fn say_bytes(page: &mut Page, items: &[Item]) {
    let count = items.len();
    if is_string(items) {
        page.say_number("string of ", count.saturating_sub(1));
        page.say(" bytes \"");
        add_front(page, items);
    } else {
        page.say_number("", count);
        page.say(" bytes");
    }
}

/// Adds the text of a string, cut at `WIDTH`, and the closing quote.
fn add_front(page: &mut Page, items: &[Item]) {
    for item in items.iter().skip(1) {
        if page.said() >= WIDTH {
            return page.add("...\"");
        }
        if let Some(byte) = byte_of(item) {
            add_byte(page, byte);
        }
    }
    page.add("\"");
}
