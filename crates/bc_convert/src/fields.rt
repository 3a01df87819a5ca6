//! Fields of words: SLCT in a list of MANIFEST, and OF. The field F becomes the constants F.MASK, F.SHIFT and F.WORD, so that a
//! file that uses the field of a header needs no table of fields.

use crate::kind::Kind;
use crate::name_facts::NameFacts;
use crate::names::is_manifest_entry;
use crate::notes::Notes;
use crate::numbers::{decimal, value_of_number};
use crate::operands::{is_compound, is_plain};
use crate::source::TokenizedText;

/// The place of a field: the bits of its word that it has, how many bits are below them, and the number of the word.
#[derive(Clone, Copy)]
struct Place {
    mask: u32,
    shift: u32,
    word: u32,
}

impl Place {
    /// The place of a field with this many bits, 0 for all above the shift. `None` if the word has fewer.
    fn of(size: u32, shift: u32, word: u32) -> Option<Place> {
        let most = 16u32.checked_sub(shift)?;
        if most == 0 || size > most {
            return None;
        }
        let size = if size == 0 { most } else { size };
        let bits = 1u32.wrapping_shl(size).saturating_sub(1);
        Some(Place {
            mask: bits.wrapping_shl(shift),
            shift,
            word,
        })
    }
}

/// The number at an index.
fn number_at(source: TokenizedText<'_>, index: usize) -> Option<u32> {
    if source.kind(index) == Kind::Number {
        value_of_number(source, index).ok()
    } else {
        None
    }
}

/// The place after the SLCT at an index, and the index after it.
fn place_at(source: TokenizedText<'_>, index: usize) -> Option<(Place, usize)> {
    let first = number_at(source, index.saturating_add(1))?;
    if source.kind(index.saturating_add(2)) != Kind::Colon {
        return Some((Place::of(0, 0, first)?, index.saturating_add(2)));
    }
    let second = number_at(source, index.saturating_add(3))?;
    if source.kind(index.saturating_add(4)) != Kind::Colon {
        return Some((Place::of(0, first, second)?, index.saturating_add(4)));
    }
    let third = number_at(source, index.saturating_add(5))?;
    Some((Place::of(first, second, third)?, index.saturating_add(6)))
}

/// Whether the word at an index is this one, of those that this dialect lacks.
fn is_foreign(source: TokenizedText<'_>, index: usize, word: &[u8]) -> bool {
    source.kind(index) == Kind::Foreign && source.bytes(index).eq_ignore_ascii_case(word)
}

/// The field that the name at an index is declared to be, and the index after its declaration.
fn declared_at(source: TokenizedText<'_>, index: usize) -> Option<(Place, usize)> {
    let sign = index.saturating_add(1);
    let word = index.saturating_add(2);
    let is_entry = source.kind(sign) == Kind::Equal
        && is_foreign(source, word, b"SLCT")
        && is_manifest_entry(source, index);
    if !is_entry {
        return None;
    }
    let (place, end) = place_at(source, word)?;
    let is_whole = source.is_separated(end)
        || matches!(
            source.kind(end),
            Kind::Semicolon | Kind::Comma | Kind::CloseSection
        );
    if is_whole { Some((place, end)) } else { None }
}

/// Whether the name at an index is declared to be a field there.
pub fn declares_field(source: TokenizedText<'_>, index: usize) -> bool {
    declared_at(source, index).is_some()
}

/// Whether the name at an index is a field: the source declares it as one, or doesn't declare it and gets a header that may.
fn is_field(source: TokenizedText<'_>, index: usize) -> bool {
    let facts: NameFacts = source.name(index);
    source.kind(index) == Kind::Name
        && (facts.is_field || !facts.is_declared && !source.names.gets_library_alone)
}

/// An expression with OF: the field's name is before `of`, and the pointer from `from` up to `end`.
#[derive(Clone, Copy)]
struct Selection {
    of: usize,
    from: usize,
    end: usize,
}

/// The index after the pointer that begins at an index: a name, a call, or parentheses.
fn pointer_end(source: TokenizedText<'_>, from: usize) -> Option<usize> {
    let next = from.saturating_add(1);
    let bracket = match source.kind(from) {
        Kind::Name if source.kind(next) != Kind::OpenRound || source.is_separated(next) => {
            return Some(next);
        }
        Kind::Name => next,
        Kind::OpenRound => from,
        _ => return None,
    };
    let closing = source.partner(bracket);
    if closing < source.tokens.len() {
        Some(closing.saturating_add(1))
    } else {
        None
    }
}

/// Whether an operand goes on at an index.
fn goes_on(source: TokenizedText<'_>, index: usize) -> bool {
    !source.is_separated(index)
        && matches!(
            source.kind(index),
            Kind::OpenRound | Kind::Bang | Kind::Percent | Kind::Foreign
        )
}

/// The expression whose OF is at an index, if it applies a field to a name, a call or parentheses.
fn selection_at(source: TokenizedText<'_>, of: usize) -> Option<Selection> {
    let name = of.checked_sub(1)?;
    let before = match name.checked_sub(1) {
        Some(before) => source.kind(before),
        None => Kind::End,
    };
    let is_applied = matches!(
        before,
        Kind::Bang | Kind::Percent | Kind::Address | Kind::Content | Kind::Foreign
    );
    if !is_foreign(source, of, b"OF") || !is_field(source, name) || is_applied {
        return None;
    }
    let from = of.saturating_add(1);
    let end = pointer_end(source, from)?;
    if goes_on(source, end) || is_compound(source, end) {
        None
    } else {
        Some(Selection { of, from, end })
    }
}

/// The index after the value that begins at an index, if it is followed by the end of a command.
fn value_end(source: TokenizedText<'_>, from: usize) -> Option<usize> {
    let mut at = from;
    for _ in from..source.tokens.len() {
        let kind = source.kind(at);
        if at > from && source.is_separated(at) {
            return Some(at);
        }
        at = match kind {
            Kind::CloseSection | Kind::Semicolon | Kind::Joint | Kind::Repeat | Kind::End => {
                return Some(at);
            }
            Kind::OpenRound => source.partner(at).saturating_add(1),
            Kind::Valof | Kind::Arrow | Kind::Table => return None,
            Kind::Foreign => at.saturating_add(1),
            kind if kind.can_be_operand() || kind.level() > 0 => at.saturating_add(1),
            _ => return None,
        };
    }
    Some(at)
}

/// Whether a command begins at an index.
fn begins_command(source: TokenizedText<'_>, index: usize) -> bool {
    let before = match index.checked_sub(1) {
        Some(before) => source.kind(before),
        None => Kind::End,
    };
    source.is_separated(index)
        || matches!(
            before,
            Kind::OpenSection | Kind::Colon | Kind::Semicolon | Kind::Joint | Kind::Be
        )
}

/// Whether something is assigned to an expression with OF.
fn is_assigned(source: TokenizedText<'_>, selection: Selection) -> bool {
    matches!(
        source.kind(selection.end),
        Kind::Assign | Kind::Underline | Kind::Comma
    ) && begins_command(source, selection.of.saturating_sub(1))
}

/// The index after the value that is assigned to an expression with OF, if the assignment can be rewritten.
fn assigned_end(source: TokenizedText<'_>, selection: Selection) -> Option<usize> {
    let is_plain = is_plain(source, selection.from, selection.end)
        && source.kind(selection.end) == Kind::Assign;
    if is_plain {
        value_end(source, selection.end.saturating_add(1))
    } else {
        None
    }
}

/// Whether the word at an index, of those that this dialect lacks, is the SLCT or OF of a field and is rewritten.
pub fn is_of_field(source: TokenizedText<'_>, index: usize) -> bool {
    if is_foreign(source, index, b"SLCT") {
        return index > 1 && declares_field(source, index - 2);
    }
    match selection_at(source, index) {
        Some(selection) if is_assigned(source, selection) => {
            assigned_end(source, selection).is_some()
        }
        Some(_) => true,
        None => false,
    }
}

/// Whether the OF of a field is at an index.
pub fn is_selection(source: TokenizedText<'_>, index: usize) -> bool {
    is_foreign(source, index, b"OF") && is_of_field(source, index)
}

/// Puts a number after the token that precedes index `end`, with this text before it.
fn put_constant(notes: &mut Notes, end: usize, parts: &[&[u8]], number: u32) {
    notes.put_all_after(end, parts);
    notes.put_number_after(end, number);
}

/// Turns the declaration of a field, which ends before `end`, into those of its constants.
fn put_declaration(
    source: TokenizedText<'_>,
    notes: &mut Notes,
    index: usize,
    place: Place,
    end: usize,
) {
    let name = notes.rendered(source, index, index.saturating_add(1));
    let name = name.as_slice();
    let word = index.saturating_add(2);
    let digits = decimal(notes.alloc(), i64::from(place.mask));
    let Some(digits) = notes.made(digits) else {
        return;
    };
    notes.put_after(index.saturating_add(1), b".MASK");
    notes.replace(word, digits.as_bytes());
    for at in word.saturating_add(1)..end {
        notes.take_out(source, at);
    }
    let after = word.saturating_add(1);
    put_constant(notes, after, &[b"; ", name, b".SHIFT="], place.shift);
    put_constant(notes, after, &[b"; ", name, b".WORD="], place.word);
}

/// Removes the field's name and the OF of an expression. Returns the name.
fn take_field(source: TokenizedText<'_>, notes: &mut Notes, selection: Selection) -> Vec<u8> {
    let name = selection.of.saturating_sub(1);
    let text = notes.rendered(source, name, selection.of);
    notes.replace(name, b"");
    notes.replace(selection.of, b"");
    notes.take_gap(source, selection.of);
    notes.take_gap(source, selection.from);
    text
}

/// Rewrites an expression with OF whose value is used.
fn put_read(source: TokenizedText<'_>, notes: &mut Notes, selection: Selection) {
    let name = take_field(source, notes, selection);
    let name = name.as_slice();
    notes.put_before(selection.from, b"((");
    notes.put_all_after(
        selection.end,
        &[
            b"!",
            name,
            b".WORD & ",
            name,
            b".MASK) >> ",
            name,
            b".SHIFT)",
        ],
    );
}

/// Rewrites an assignment to an expression with OF, of a value that ends before `end`.
fn put_write(source: TokenizedText<'_>, notes: &mut Notes, selection: Selection, end: usize) {
    let pointer = notes.rendered(source, selection.from, selection.end);
    let name = take_field(source, notes, selection);
    notes.put_all_after(selection.end, &[b"!", name.as_slice(), b".WORD"]);
    let value = selection.end.saturating_add(1);
    notes.put_all_before(
        value,
        &[
            b".MASK) | (((",
            name.as_slice(),
            b".WORD & ~",
            name.as_slice(),
            b"!",
            pointer.as_slice(),
            b"(",
        ],
    );
    notes.put_all_after(
        end,
        &[
            b") << ",
            name.as_slice(),
            b".SHIFT) & ",
            name.as_slice(),
            b".MASK)",
        ],
    );
}

/// Rewrites the declarations of fields and the expressions with OF whose values are used. This comes before all other
/// changes to texts around operands.
pub fn find_fields(source: TokenizedText<'_>, notes: &mut Notes) {
    for index in 1..source.tokens.len() {
        if source.kind(index) == Kind::Name
            && let Some((place, end)) = declared_at(source, index)
        {
            put_declaration(source, notes, index, place, end);
        }
        if let Some(selection) = selection_at(source, index)
            && !is_assigned(source, selection)
        {
            put_read(source, notes, selection);
        }
    }
}

/// Rewrites the assignments to expressions with OF. This comes after all other changes to texts around operands.
pub fn find_assigned_fields(source: TokenizedText<'_>, notes: &mut Notes) {
    for index in 1..source.tokens.len() {
        if let Some(selection) = selection_at(source, index)
            && is_assigned(source, selection)
            && let Some(end) = assigned_end(source, selection)
        {
            put_write(source, notes, selection, end);
        }
    }
}
