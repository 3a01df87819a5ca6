//! Which calls of the library's routines pass.

ghost use Rattle.std.specs.Prelude.{◌≡◌, ◌∷◌, true, false, length, IfSome, Some, List, ℕ};
ghost use Rattle.bc_tame.specs.Tame.{Note};
ghost use Rattle.bc_tame_check.specs.Views.{notes_in};
ghost use Rattle.bc_tame.specs.Programs.{known, are_bytes as bytes_pass, are_words, fits_format as format_passes, library_callable, library_speaks, with_text, with_format, library_fixed, library_sets, is_primitive as primitive_global};

use crate::at::{At, Known};
use crate::lookup::{label_of, text_of};
use crate::texts::is_string;
use crate::walk::number;
use bc_core::CoreExp;
use bc_word::Word;

/// How the stream primitives, WRITEN and NEWLINE can be called, by their globals.
pub(crate) fn callable(global: u16) -> Option<Known>
    ensures { IfSome result (λ k. library_callable global ≡ Some (known k.arguments k.room)) }
{
    let (arguments, room) = match global {
        11 => (1, 3),
        12 => (1, 3),
        13 => (0, 3),
        14 => (1, 3),
        17 => (0, 3),
        18 => (0, 3),
        23 => (1, 20),
        24 => (0, 8),
        _ => return None,
    };
    Some(Known { arguments, room })
}

/// Whether a global holds a primitive.
fn is_primitive(global: u16) -> bool
    ensures { result ≡ primitive_global global }
{
    global == 11
        || global == 12
        || global == 13
        || global == 14
        || global == 15
        || global == 16
        || global == 17
        || global == 18
}

/// Whether a global holds a routine that the library needs, so that it may not be assigned.
pub(crate) fn is_fixed(global: u16) -> bool
    ensures { result ≡ library_fixed global }
{
    is_primitive(global)
        || global == 20
        || global == 22
        || global == 23
        || global == 24
        || global == 25
}

/// Whether the library sets a global.
pub(crate) fn is_set_by_library(global: u16) -> bool
    ensures { result ≡ library_sets global }
{
    is_fixed(global) || global == 21
}

/// Whether the bytes and their number are below 256.
#[tactic(auto, using(crate::proofs::Tests::byte_more, crate::proofs::Tests::byte_first))]
pub(crate) fn are_bytes(bytes: &[u8]) -> bool
    ensures { result ≡ true → bytes_pass (length bytes.now ∷ bytes.now) ≡ true }
{
    let mut left = bytes;
    while let [first, rest @ ..] = left {
        // The proof needs a byte's range.
        let _byte = *first;
        left = rest;
    }
    bytes.len() < 256
}

/// Every word passes.
#[tactic(auto, using(crate::proofs::Tests::word_more))]
pub(crate) fn check_words(words: &[Word])
    ensures { are_words words.now ≡ true }
{
    let mut left = words;
    while let [first, rest @ ..] = left {
        // The proof needs a word's range.
        let _number = number(first.get());
        left = rest;
    }
}

/// What remains of the arguments after one that %N, %C or %S takes. `None` if there is none, or if it is no string for %S.
fn taken<'a>(at: At<'_>, byte: u8, values: &'a [CoreExp]) -> Option<&'a [CoreExp]>
    ensures { IfSome result (λ rest. (left : List ℕ) → format_passes false left (notes_in at.entry rest.now) ≡ true
        → format_passes true (byte ∷ left) (notes_in at.entry values.now) ≡ true) }
{
    match values {
        [] => None,
        [first, rest @ ..] => match byte {
            b'N' => Some(rest),
            b'C' => Some(rest),
            b'S' => {
                if is_string(at, first) {
                    Some(rest)
                } else {
                    None
                }
            }
            _ => None,
        },
    }
}

/// What remains after a byte of a format: whether it is a %, and which arguments. `None` if the byte isn't accepted.
#[tactic(auto, using(crate::proofs::Formats::plain, crate::proofs::Formats::other))]
fn format_step<'a>(
    at: At<'_>,
    byte: u8,
    after_percent: bool,
    values: &'a [CoreExp],
) -> Option<(bool, &'a [CoreExp])>
    ensures { IfSome result (λ r. (left : List ℕ) → format_passes r.0 left (notes_in at.entry r.1.now) ≡ true
        → format_passes after_percent (byte ∷ left) (notes_in at.entry values.now) ≡ true) }
{
    if !after_percent {
        return Some((byte == b'%', values));
    }
    if byte == b'S' || byte == b'N' || byte == b'C' {
        return match taken(at, byte, values) {
            Some(rest) => Some((false, rest)),
            None => None,
        };
    }
    Some((false, values))
}

/// Whether a format takes no more than these arguments, and by %S a string.
pub(crate) fn fits_format(at: At<'_>, format: &[u8], values: &[CoreExp]) -> bool
    ensures { result ≡ true → format_passes false format.now (notes_in at.entry values.now) ≡ true }
{
    let mut after_percent = false;
    let mut values_left = values;
    let mut left = format;
    while let [byte, rest @ ..] = left {
        match format_step(at, *byte, after_percent, values_left) {
            Some(next) => {
                after_percent = next.0;
                values_left = next.1;
            }
            None => return false,
        }
        left = rest;
    }
    !after_percent
}

/// Whether the arguments are a string alone.
#[tactic(auto, using(crate::proofs::Formats::alone))]
fn is_string_alone(at: At<'_>, values: &[CoreExp]) -> bool
    ensures { result ≡ true → (room : ℕ) → with_text (notes_in at.entry values.now) room ≡ Some room }
{
    match values {
        [only] => is_string(at, only),
        _ => false,
    }
}

/// Whether the arguments are a format and what it takes, at most four.
fn are_formatted(at: At<'_>, values: &[CoreExp]) -> bool
    ensures { result ≡ true → with_format (notes_in at.entry values.now) ≡ Some 37 }
{
    match values {
        [first, rest @ ..] => match label_of(first) {
            Some(label) => match text_of(at.around.places, label) {
                Some(bytes) => rest.len() <= 4 && fits_format(at, bytes, rest),
                None => false,
            },
            None => false,
        },
        [] => false,
    }
}

/// The room of a routine that takes a string alone, by its global.
fn string_room(global: u16) -> Option<usize>
    ensures { IfSome result (λ room. (notes : List Note) → with_text notes room ≡ Some room → library_speaks global notes ≡ Some room) }
{
    match global {
        22 => Some(15),
        15 => Some(3),
        16 => Some(3),
        _ => None,
    }
}

/// The room that WRITES, WRITEF, FINDINPUT or FINDOUTPUT needs with these arguments, by their globals.
pub(crate) fn speaks(at: At<'_>, global: u16, values: &[CoreExp]) -> Option<usize>
    ensures { IfSome result (λ room. library_speaks global (notes_in at.entry values.now) ≡ Some room) }
{
    if let Some(room) = string_room(global) {
        return if is_string_alone(at, values) {
            Some(room)
        } else {
            None
        };
    }
    match global {
        25 if are_formatted(at, values) => Some(37),
        _ => None,
    }
}
