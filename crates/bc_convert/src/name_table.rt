//! The names of a text: their numbers, and what all places of each show together. This takes one pass, so that a question about a
//! name needs no other one.

use crate::formats::gets_header_alone;
use crate::kind::Kind;
use crate::name_facts::{NameFacts, NameTable};
use crate::names::{shown_at, stands_as_number, with_dots};
use crate::shared_names::SharedNames;
use crate::source::TokenizedText;
use bc_word::Memory;
use indexmap::IndexMap;
use std::alloc::Global;

/// The names of a text, with the data of a `NameTable`.
#[derive(Drop)]
pub struct Names {
    numbers: Vec<usize>,
    facts: Vec<NameFacts>,
    taken: Vec<bool>,
    gets_library_alone: bool,
}

/// The names that become the same once underlines are dots.
#[derive(Clone, Copy, Default)]
struct Group {
    /// One of them has no underline, and keeps its spelling.
    has_plain: bool,
    /// The number that the last renamed one has got, 0 if none was renamed.
    last: u32,
}

/// The number of a new name that has this spelling, if it is one.
fn temporary_number(bytes: &[u8]) -> Option<usize> {
    let digits = bytes.strip_prefix(b"TEMP.".as_slice())?;
    let mut number: usize = 0;
    for digit in digits {
        if !digit.is_ascii_digit() {
            return None;
        }
        number = number
            .saturating_mul(10)
            .saturating_add(usize::from(digit.saturating_sub(b'0')));
    }
    Some(number)
}

impl Names {
    /// Finds the names of a classified text. `shared` has the names that it shares with other sources.
    ///
    /// # Errors
    ///
    /// `Memory` if an allocation failed.
    pub fn of(
        alloc: Global,
        source: TokenizedText<'_>,
        shared: Option<&SharedNames>,
    ) -> Result<Names, Memory> {
        let mut names = Names {
            numbers: Vec::new(alloc),
            facts: Vec::new(alloc),
            taken: Vec::new(alloc),
            gets_library_alone: gets_header_alone(source),
        };
        let mut known = IndexMap::new(alloc);
        for index in 0..source.tokens.len() {
            let number = names.number(&mut known, source, index)?;
            names.numbers.push(number)?;
        }
        names.note_numbers(source);
        names.note_constants(source, shared);
        names.add_suffixes(alloc, source, &known)?;
        names.add_taken(alloc, source)?;
        Ok(names)
    }

    /// The table of these names.
    pub fn table(&self) -> NameTable<'_> {
        NameTable {
            numbers: self.numbers.as_slice(),
            facts: self.facts.as_slice(),
            taken: self.taken.as_slice(),
            gets_library_alone: self.gets_library_alone,
        }
    }

    /// The number of the name at an index, with what this place shows added to its facts.
    fn number<'s>(
        &mut self,
        known: &mut IndexMap<&'s [u8], usize>,
        source: TokenizedText<'s>,
        index: usize,
    ) -> Result<usize, Memory> {
        if source.kind(index) != Kind::Name {
            return Ok(source.tokens.len());
        }
        let shown = shown_at(source, index);
        let bytes = source.bytes(index);
        if let Some(number) = known.get(bytes).copied() {
            if number < self.facts.len() {
                self.facts[number] = self.facts[number].with(shown);
            }
            return Ok(number);
        }
        let number = self.facts.len();
        known.insert(bytes, number)?;
        self.facts.push(shown)?;
        Ok(number)
    }

    /// Notes which names are used as numbers, of those that are followed by a star and a parenthesis.
    fn note_numbers(&mut self, source: TokenizedText<'_>) {
        if !has_star(self.facts.as_slice()) {
            return;
        }
        for index in 0..source.tokens.len() {
            let number = self.numbers.get(index).copied().unwrap_or(self.facts.len());
            if number < self.facts.len() && self.facts[number].has_star {
                let is_number = self.facts[number].is_number || stands_as_number(source, index);
                self.facts[number].is_number = is_number;
            }
        }
    }

    /// Notes which names are constants of the program, of those that are followed by a star and a parenthesis.
    fn note_constants(&mut self, source: TokenizedText<'_>, shared: Option<&SharedNames>) {
        let Some(shared) = shared else {
            return;
        };
        for facts in &mut self.facts {
            if facts.has_star && shared.has_constant(source.bytes(facts.first)) {
                facts.is_number = true;
            }
        }
    }

    /// Notes the numbers of the new names that the text has already.
    fn add_taken(&mut self, alloc: Global, source: TokenizedText<'_>) -> Result<(), Memory> {
        let count = source.tokens.len();
        if !has_new_name(source, self.facts.as_slice()) {
            return Ok(());
        }
        self.taken = vec![in alloc; false; count]?;
        for facts in &self.facts {
            if let Some(number) = temporary_number(source.bytes(facts.first))
                && number < self.taken.len()
            {
                self.taken[number] = true;
            }
        }
        Ok(())
    }

    /// Gives each name with underlines the number that makes it unique once they are dots. A name without underlines keeps its
    /// spelling, and of the others the first ones come first.
    fn add_suffixes(
        &mut self,
        alloc: Global,
        source: TokenizedText<'_>,
        known: &IndexMap<&[u8], usize>,
    ) -> Result<(), Memory> {
        if !has_underline(source, self.facts.as_slice()) {
            return Ok(());
        }
        let mut groups = groups(alloc, source, self.facts.as_slice())?;
        for number in 0..self.facts.len() {
            let bytes = source.bytes(self.facts[number].first);
            if bytes.contains(&b'_') {
                self.facts[number].suffix = next_suffix(alloc, &mut groups, known, bytes)?;
            }
        }
        Ok(())
    }
}

/// Whether one of these names is followed by a star and a parenthesis.
fn has_star(names: &[NameFacts]) -> bool {
    for facts in names {
        if facts.has_star {
            return true;
        }
    }
    false
}

/// Whether one of these names is a new one that the text has already.
fn has_new_name(source: TokenizedText<'_>, names: &[NameFacts]) -> bool {
    for facts in names {
        if temporary_number(source.bytes(facts.first)).is_some() {
            return true;
        }
    }
    false
}

/// Whether one of these names has an underline.
fn has_underline(source: TokenizedText<'_>, names: &[NameFacts]) -> bool {
    for facts in names {
        if source.bytes(facts.first).contains(&b'_') {
            return true;
        }
    }
    false
}

/// The groups of names that become the same once underlines are dots, by their spelling with dots.
fn groups(
    alloc: Global,
    source: TokenizedText<'_>,
    facts: &[NameFacts],
) -> Result<IndexMap<Vec<u8>, Group>, Memory> {
    let mut groups = IndexMap::new(alloc);
    for facts in facts {
        let bytes = source.bytes(facts.first);
        if !bytes.contains(&b'_') {
            let group = Group {
                has_plain: true,
                last: 0,
            };
            groups.insert(Vec::from_slice(alloc, bytes)?, group)?;
        }
    }
    Ok(groups)
}

/// The number of the next name of a group that is renamed, whose bytes these are.
fn next_suffix(
    alloc: Global,
    groups: &mut IndexMap<Vec<u8>, Group>,
    known: &IndexMap<&[u8], usize>,
    bytes: &[u8],
) -> Result<u32, Memory> {
    let dotted = with_dots(alloc, bytes, 1)?;
    let group = groups.get(&dotted).copied().unwrap_or_default();
    let mut last = group.last;
    if last == 0 && !group.has_plain {
        last = 1;
    } else {
        last = last.max(1);
        for _ in 0..known.len().saturating_add(1) {
            last = last.saturating_add(1);
            let text = with_dots(alloc, bytes, last)?;
            if known.get(text.as_slice()).is_none() {
                break;
            }
        }
    }
    groups.insert(dotted, Group { last, ..group })?;
    Ok(last)
}
