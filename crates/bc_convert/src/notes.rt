//! The changes and complaints found in a source. Methods that allocate return nothing: a failed allocation is
//! remembered and reported by `finished`. Code that puts text around tokens therefore needs no `?`, which would be
//! expensive to prove.

use crate::bytes::is_name_byte;
use crate::complaint::{Complaint, Fault};
use crate::kind::Kind;
use crate::lexeme::next_old_comment;
use crate::numbers::decimal;
use crate::replacement::Replacement;
use crate::source::TokenizedText;
use bc_word::Memory;
use indexmap::IndexMap;
use std::alloc::Global;

/// The changes to a token: the text before it, last byte first, the text instead of it and after it, and whether the blanks before
/// it are removed.
#[derive(Drop)]
struct Slot {
    before: Vec<u8>,
    instead: Option<Vec<u8>>,
    after: Vec<u8>,
    takes_gap: bool,
}

impl Slot {
    /// A token that doesn't change.
    fn new(alloc: Global) -> Slot {
        Slot {
            before: Vec::new(alloc),
            instead: None,
            after: Vec::new(alloc),
            takes_gap: false,
        }
    }

    /// Whether the token doesn't change.
    fn is_untouched(&self) -> bool {
        self.before.is_empty() && self.instead.is_none() && self.after.is_empty() && !self.takes_gap
    }

    /// Puts bytes before the text that is already before the token.
    fn put_before(&mut self, bytes: &[u8]) -> Result<(), Memory> {
        for byte in bytes.iter().rev() {
            self.before.push(*byte)?;
        }
        Ok(())
    }

    /// Replaces the token.
    fn replace(&mut self, alloc: Global, bytes: &[u8]) -> Result<(), Memory> {
        self.instead = Some(Vec::from_slice(alloc, bytes)?);
        Ok(())
    }
}

/// A declaration after commands at index `at`, in a list from `from` up to `to`. It begins a block that ends with the
/// list.
#[derive(Clone, Copy)]
pub struct LateBlock {
    pub from: usize,
    pub at: usize,
    pub to: usize,
}

/// What a token is to a GOTO.
#[derive(Clone, Copy)]
enum Role {
    None,
    Label,
    Destination,
}

/// The changes and complaints found up to here.
#[derive(Drop)]
pub struct Notes {
    alloc: Global,
    slots: Vec<Slot>,
    complaints: Vec<Complaint>,
    /// For the number of each name of a label, the indices of its labels.
    labels: IndexMap<usize, Vec<usize>>,
    /// The indices of the destinations of GOTO.
    destinations: Vec<usize>,
    /// For each token, what it is to a GOTO.
    roles: Vec<Role>,
    blocks: Vec<LateBlock>,
    /// For the number of each name, whether a `*(` after it was looked at.
    stars: Vec<bool>,
    /// The number of the last new name.
    fresh: u32,
    /// The index after the last nest that was reported as too deep.
    told_until: usize,
    /// Whether an allocation failed. Then everything else here is void.
    is_refused: bool,
}

impl Notes {
    /// Empty notes for this number of tokens.
    pub fn new(alloc: Global, count: usize) -> Result<Notes, Memory> {
        let mut slots = Vec::new(alloc);
        for _ in 0..count {
            slots.push(Slot::new(alloc))?;
        }
        Ok(Notes {
            alloc,
            slots,
            complaints: Vec::new(alloc),
            labels: IndexMap::new(alloc),
            destinations: Vec::new(alloc),
            roles: vec![in alloc; Role::None; count]?,
            blocks: Vec::new(alloc),
            stars: vec![in alloc; false; count]?,
            fresh: 0,
            told_until: 0,
            is_refused: false,
        })
    }

    /// The allocator.
    pub fn alloc(&self) -> Global {
        self.alloc
    }

    /// Remembers that an allocation failed.
    pub fn refuse(&mut self) {
        self.is_refused = true;
    }

    /// The value of a result; `None` if an allocation failed, which is remembered.
    pub fn made<T: Drop>(&mut self, made: Result<T, Memory>) -> Option<T> {
        match made {
            Ok(value) => Some(value),
            Err(_) => {
                self.refuse();
                None
            }
        }
    }

    /// Puts bytes before a token and before all that was put there earlier.
    pub fn put_before(&mut self, index: usize, bytes: &[u8]) {
        if index < self.slots.len() {
            let slot = &mut self.slots[index];
            if slot.put_before(bytes).is_err() {
                self.refuse();
            }
        }
    }

    /// Puts bytes after the token that precedes index `end`, and after all that was put there earlier.
    pub fn put_after(&mut self, end: usize, bytes: &[u8]) {
        if 0 < end && end <= self.slots.len() {
            let slot = &mut self.slots[end - 1];
            if slot.after.extend_from_slice(bytes).is_err() {
                self.refuse();
            }
        }
    }

    /// Puts these texts before a token one after the other, so that the last one comes first.
    pub fn put_all_before(&mut self, index: usize, texts: &[&[u8]]) {
        for bytes in texts {
            self.put_before(index, bytes);
        }
    }

    /// Puts these texts, in this order, after the token that precedes index `end`.
    pub fn put_all_after(&mut self, end: usize, texts: &[&[u8]]) {
        for bytes in texts {
            self.put_after(end, bytes);
        }
    }

    /// Puts a number after the token that precedes index `end`.
    pub fn put_number_after(&mut self, end: usize, number: u32) {
        let digits = decimal(self.alloc, i64::from(number));
        if let Some(digits) = self.made(digits) {
            self.put_after(end, digits.as_bytes());
        }
    }

    /// Replaces a token.
    pub fn replace(&mut self, index: usize, bytes: &[u8]) {
        if index < self.slots.len() {
            let slot = &mut self.slots[index];
            if slot.replace(self.alloc, bytes).is_err() {
                self.refuse();
            }
        }
    }

    /// Removes the blanks before a token, unless there is a comment or a line break among them.
    pub fn take_gap(&mut self, source: TokenizedText<'_>, index: usize) {
        if index < self.slots.len() && is_plain_gap(source.gap(index)) {
            let slot = &mut self.slots[index];
            slot.takes_gap = true;
        }
    }

    /// Drops what was put around a token.
    pub fn clear(&mut self, index: usize) {
        if index < self.slots.len() {
            let slot = &mut self.slots[index];
            slot.before = Vec::new(self.alloc);
            slot.after = Vec::new(self.alloc);
        }
    }

    /// Drops what was put after a token.
    pub fn clear_after(&mut self, index: usize) {
        if index < self.slots.len() {
            let slot = &mut self.slots[index];
            slot.after = Vec::new(self.alloc);
        }
    }

    /// Removes a token and the blanks before it.
    pub fn take_out(&mut self, source: TokenizedText<'_>, index: usize) {
        self.clear(index);
        self.replace(index, &[]);
        self.take_gap(source, index);
    }

    /// The new text of the tokens in a range, with a single space for each gap.
    pub fn rendered(&mut self, source: TokenizedText<'_>, from: usize, to: usize) -> Vec<u8> {
        let mut whole = Vec::new(self.alloc);
        if self.render(source, from, to, &mut whole).is_err() {
            self.refuse();
        }
        whole
    }

    /// Appends that text.
    fn render(
        &self,
        source: TokenizedText<'_>,
        from: usize,
        to: usize,
        whole: &mut Vec<u8>,
    ) -> Result<(), Memory> {
        for index in from..to {
            if let Some(slot) = self.slots.get(index) {
                if index != from && !source.gap(index).is_empty() && !slot.takes_gap {
                    whole.push(b' ')?;
                }
                put_token(whole, slot, source.bytes(index))?;
            }
        }
        Ok(())
    }

    /// Reports that the construct that begins at a token can't be converted. Nesting that is too deep is reported
    /// once, where it was found first.
    pub fn complain(&mut self, source: TokenizedText<'_>, index: usize, fault: Fault) {
        if fault == Fault::TooDeep {
            if index < self.told_until {
                return;
            }
            self.told_until = nest_end(source, index);
        }
        let complaint = Complaint {
            start: source.start(index),
            end: source.end(index),
            fault,
        };
        if self.complaints.push(complaint).is_err() {
            self.refuse();
        }
    }

    /// Whether any token changes.
    pub fn has_changes(&self) -> bool {
        for slot in self.slots.iter() {
            if !slot.is_untouched() {
                return true;
            }
        }
        false
    }

    /// Whether the token at an index changes.
    pub fn is_changed(&self, index: usize) -> bool {
        matches!(self.slots.get(index), Some(slot) if !slot.is_untouched())
    }

    /// Notes a label.
    pub fn note_label(&mut self, source: TokenizedText<'_>, index: usize) {
        self.set_role(index, Role::Label);
        if self.add_label(source.name_number(index), index).is_err() {
            self.refuse();
        }
    }

    /// Adds a label whose name has this number.
    fn add_label(&mut self, name: usize, index: usize) -> Result<(), Memory> {
        match self.labels.get_mut(&name) {
            Some(labels) => labels.push(index)?,
            None => {
                let mut labels = Vec::new(self.alloc);
                labels.push(index)?;
                self.labels.insert(name, labels)?;
            }
        }
        Ok(())
    }

    /// Notes what a token is to a GOTO.
    fn set_role(&mut self, index: usize, role: Role) {
        if index < self.roles.len() {
            self.roles[index] = role;
        }
    }

    /// Notes the destination of a GOTO.
    pub fn note_destination(&mut self, index: usize) {
        self.set_role(index, Role::Destination);
        if self.destinations.push(index).is_err() {
            self.refuse();
        }
    }

    /// Notes a declaration after commands that begins a block.
    pub fn note_block(&mut self, block: LateBlock) {
        if self.blocks.push(block).is_err() {
            self.refuse();
        }
    }

    /// Whether such a block ends before the token at an index.
    pub fn ends_late_block(&self, index: usize) -> bool {
        for block in self.blocks.iter() {
            if block.to == index {
                return true;
            }
        }
        false
    }

    /// Whether the token at `destination` is the destination of a GOTO that comes before such a block, with its label
    /// inside the block.
    pub fn is_parted(&self, source: TokenizedText<'_>, destination: usize) -> bool {
        if !matches!(self.roles.get(destination), Some(Role::Destination)) {
            return false;
        }
        for block in self.blocks.iter() {
            if block.from <= destination
                && destination < block.at
                && self.has_label(source, *block, destination)
            {
                return true;
            }
        }
        false
    }

    /// Whether the label of a destination is in a block and in no bracket inside it.
    fn has_label(&self, source: TokenizedText<'_>, block: LateBlock, destination: usize) -> bool {
        for label in self.labels_like(source, destination).iter() {
            if block.at <= *label && *label < block.to && !is_enclosed(source, block.at, *label) {
                return true;
            }
        }
        false
    }

    /// Whether `*(` after the name at an index is looked at for the first time. Other operands are always new.
    pub fn is_new_star(&mut self, source: TokenizedText<'_>, index: usize) -> bool {
        if source.kind(index) != Kind::Name {
            return true;
        }
        let name = source.name_number(index);
        if name >= self.stars.len() || self.stars[name] {
            return false;
        }
        self.stars[name] = true;
        true
    }

    /// The indices of the destinations of GOTO.
    pub fn destinations(&self) -> &[usize] {
        self.destinations.as_slice()
    }

    /// Drops all changes.
    pub fn drop_changes(&mut self) {
        let alloc = self.alloc;
        for slot in &mut self.slots {
            *slot = Slot::new(alloc);
        }
    }

    /// Drops all complaints.
    pub fn drop_complaints(&mut self) {
        self.complaints = Vec::new(self.alloc);
    }

    /// The indices of the labels with the name at an index.
    pub fn labels_like(&self, source: TokenizedText<'_>, index: usize) -> &[usize] {
        match self.labels.get(&source.name_number(index)) {
            Some(labels) => labels.as_slice(),
            None => &[],
        }
    }

    /// Whether a label or the destination of a GOTO is at an index.
    pub fn is_label_or_destination(&self, index: usize) -> bool {
        matches!(self.roles.get(index), Some(Role::Label | Role::Destination))
    }

    /// A name that the source doesn't have; empty if an allocation failed.
    pub fn fresh_name(&mut self, source: TokenizedText<'_>) -> Vec<u8> {
        match self.next_name(source) {
            Ok(name) => name,
            Err(_) => {
                self.refuse();
                Vec::new(self.alloc)
            }
        }
    }

    /// The next numbered name that the source doesn't have.
    fn next_name(&mut self, source: TokenizedText<'_>) -> Result<Vec<u8>, Memory> {
        for _ in 0..source.tokens.len() {
            self.fresh = self.fresh.saturating_add(1);
            if !is_taken(source, self.fresh) {
                break;
            }
        }
        self.numbered()
    }

    /// The name with the current number.
    fn numbered(&self) -> Result<Vec<u8>, Memory> {
        let digits = decimal(self.alloc, i64::from(self.fresh))?;
        let mut name = Vec::from_slice(self.alloc, b"TEMP.")?;
        name.extend_from_slice(digits.as_bytes())?;
        Ok(name)
    }

    /// The replacements, one for each token that changes, and the complaints.
    ///
    /// # Errors
    ///
    /// `Memory` if an allocation failed, now or earlier.
    pub fn finished(
        self,
        source: TokenizedText<'_>,
    ) -> Result<(Vec<Replacement>, Vec<Complaint>), Memory> {
        if self.is_refused {
            return Err(Memory);
        }
        let replacements = replacements(self.alloc, source, self.slots.as_slice())?;
        Ok((replacements, self.complaints))
    }
}

/// A replacement for each token that changes.
fn replacements(
    alloc: Global,
    source: TokenizedText<'_>,
    slots: &[Slot],
) -> Result<Vec<Replacement>, Memory> {
    let mut replacements = Vec::new(alloc);
    for (index, slot) in slots.iter().enumerate() {
        put_old_comments(alloc, &mut replacements, source, index)?;
        if !slot.is_untouched() {
            replacements.push(replacement(alloc, source, index, slot)?)?;
        }
    }
    put_old_comments(alloc, &mut replacements, source, slots.len())?;
    Ok(replacements)
}

/// Appends a replacement for the beginning of each comment with `\\` before a token.
fn put_old_comments(
    alloc: Global,
    replacements: &mut Vec<Replacement>,
    source: TokenizedText<'_>,
    index: usize,
) -> Result<(), Memory> {
    let gap = source.gap(index);
    let start = source.start(index).saturating_sub(gap.len());
    let mut from: usize = 0;
    for _ in 0..gap.len() {
        let Some((at, end)) = next_old_comment(gap, from) else {
            break;
        };
        from = end;
        replacements.push(Replacement {
            start: start.saturating_add(at),
            end: start.saturating_add(at).saturating_add(2),
            text: Vec::from_slice(alloc, b"//")?,
        })?;
    }
    Ok(())
}

/// The replacement for a token.
fn replacement(
    alloc: Global,
    source: TokenizedText<'_>,
    index: usize,
    slot: &Slot,
) -> Result<Replacement, Memory> {
    let mut text = Vec::new(alloc);
    put_apart(&mut text, source, index, slot)?;
    let start = source.start(index);
    let gap = source.gap(index).len();
    Ok(Replacement {
        start: if slot.takes_gap {
            start.saturating_sub(gap)
        } else {
            start
        },
        end: source.end(index),
        text,
    })
}

/// Appends the new text of a token, and a space if the text would run into what follows.
fn put_apart(
    text: &mut Vec<u8>,
    source: TokenizedText<'_>,
    index: usize,
    slot: &Slot,
) -> Result<(), Memory> {
    put_token(text, slot, source.bytes(index))?;
    if needs_blank(text.as_slice(), source, index) {
        text.push(b' ')?;
    }
    Ok(())
}

/// Whether a new text would run into the byte after the token.
fn needs_blank(text: &[u8], source: TokenizedText<'_>, index: usize) -> bool {
    let last = text.last().copied();
    let next = source.text.get(source.end(index)).copied();
    match (last, next) {
        (Some(last), Some(next)) => {
            let is_bracket = text.ends_with(b"$(".as_slice()) || text.ends_with(b"$)".as_slice());
            is_name_byte(next) && (is_bracket || is_name_byte(last))
        }
        _ => false,
    }
}

/// Appends the new text of a token.
fn put_token(whole: &mut Vec<u8>, slot: &Slot, bytes: &[u8]) -> Result<(), Memory> {
    for byte in slot.before.iter().rev() {
        whole.push(*byte)?;
    }
    match &slot.instead {
        Some(instead) => whole.extend_from_slice(instead.as_slice())?,
        None => whole.extend_from_slice(bytes)?,
    }
    whole.extend_from_slice(slot.after.as_slice())?;
    Ok(())
}

/// Whether there are only blanks between two tokens, and at least one.
fn is_plain_gap(gap: &[u8]) -> bool {
    !gap.is_empty() && gap.iter().all(|byte| *byte == b' ' || *byte == b'\t')
}

/// Whether a section bracket that opens between two indices closes after the second one.
fn is_enclosed(source: TokenizedText<'_>, from: usize, index: usize) -> bool {
    source
        .context(index)
        .section
        .is_some_and(|section| section >= from)
}

/// The index after the outermost bracket around a token, or after the token if there is none.
fn nest_end(source: TokenizedText<'_>, index: usize) -> usize {
    let outermost = (0..index).find(|at| source.partner(*at) >= index && opens(source, *at));
    outermost
        .map_or(index, |at| source.partner(at))
        .saturating_add(1)
}

/// Whether the token at an index is an opening bracket.
fn opens(source: TokenizedText<'_>, index: usize) -> bool {
    matches!(source.kind(index), Kind::OpenRound | Kind::OpenSection)
}

/// Whether the source has the new name with this number already.
fn is_taken(source: TokenizedText<'_>, number: u32) -> bool {
    match usize::try_from(number) {
        Ok(number) => source.names.taken.get(number).copied().unwrap_or(false),
        Err(_) => false,
    }
}
