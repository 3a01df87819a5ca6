//! Finds the items of INTCODE texts that were already read without a fault.

use crate::placed::{Placed, Stretch, Text, is_byte};

/// The offset of the first byte from `at` on that is a digit if `is_digit`, or else that isn't one.
pub fn next_where(bytes: &[u8], at: usize, is_digit: bool) -> usize {
    for offset in at..bytes.len() {
        if bytes[offset].is_ascii_digit() == is_digit {
            return offset;
        }
    }
    bytes.len()
}

/// The offset after the item that begins at `at`: its letters, its number, and for a global its label.
fn after_item(bytes: &[u8], at: usize) -> usize {
    let number = next_where(bytes, at, true);
    let following = next_where(bytes, number, false);
    if is_byte(bytes, at, b'G') && is_byte(bytes, following, b'L') {
        next_where(bytes, next_where(bytes, following, true), false)
    } else {
        following
    }
}

/// The offset after the comment that begins at `at`.
fn after_comment(bytes: &[u8], at: usize) -> usize {
    for offset in at..bytes.len() {
        if bytes[offset] == b'\n' {
            return offset;
        }
    }
    bytes.len()
}

/// What may begin at an offset of a text.
#[derive(Clone, Copy)]
enum Begun {
    Item,
    /// The end of a segment.
    End,
    Comment,
    Blank,
}

/// What begins with a byte.
fn begins(byte: u8) -> Begun {
    match byte {
        b'/' => Begun::Comment,
        b'Z' => Begun::End,
        b' ' | b'\t' | b'\r' | b'\n' | b'$' => Begun::Blank,
        _ => Begun::Item,
    }
}

/// An iteration over the contents of a text.
#[derive(Clone, Copy)]
struct ItemScan<'a> {
    bytes: &'a [u8],
    /// The offset of what comes next.
    at: usize,
}

impl<'a> ItemScan<'a> {
    /// The next element and its stretch; `None` at the end of the text.
    fn next(&mut self) -> Option<(Begun, Stretch)> {
        let at = self.at;
        let begun = begins(*self.bytes.get(at)?);
        let following = match begun {
            Begun::Item => after_item(self.bytes, at),
            Begun::Comment => after_comment(self.bytes, at),
            Begun::End | Begun::Blank => at,
        };
        self.at = following.max(at.saturating_add(1));
        Some((
            begun,
            Stretch {
                start: at,
                end: following,
            },
        ))
    }
}

/// How many segments a text has.
fn count(bytes: &[u8]) -> usize {
    let mut walk = ItemScan { bytes, at: 0 };
    let mut count: usize = 0;
    for _ in bytes {
        match walk.next() {
            Some((Begun::End, _)) => count = count.saturating_add(1),
            Some(_) => {}
            None => break,
        }
    }
    count
}

/// The item with this index in this segment of a text.
fn nth(bytes: &[u8], segment: usize, index: usize) -> Option<Stretch> {
    let mut walk = ItemScan { bytes, at: 0 };
    let mut segment_at: usize = 0;
    let mut left = index;
    for _ in bytes {
        match walk.next()? {
            (Begun::End, _) => segment_at = segment_at.saturating_add(1),
            (Begun::Item, stretch) if segment_at == segment => {
                if left == 0 {
                    return Some(stretch);
                }
                left -= 1;
            }
            _ => {}
        }
    }
    None
}

/// The item with this index in this segment, the segments being counted from 0 over all texts. `None` if there is no
/// such item.
pub fn item_at<'a>(texts: &[Text<'a>], segment: usize, index: usize) -> Option<Placed<'a>> {
    let mut left = segment;
    for text in texts {
        let count = count(text.bytes);
        if left < count {
            let stretch = nth(text.bytes, left, index)?;
            return Some(Placed {
                text: *text,
                stretch,
            });
        }
        left -= count;
    }
    None
}
