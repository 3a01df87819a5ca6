//! The parts of an image, built segment by segment.

ghost use Rattle.std.specs.Prelude.{◌≡◌, ◌+◌, ◌-◌, ◌≤◌, ◌++◌, ◌∷◌, [], None, vec_len, length, replicate, OnOk, IfOk, IfErr, find, is_none};
ghost use Rattle.std.specs.List.{filter_map};
ghost use Rattle.bc_machine_defs.specs.Places.{address_in};
ghost use Rattle.bc_text_items.specs.Sizes.{size_of_all};
ghost use Rattle.bc_link.specs.Labels.{labels_of, uses_of, use_of};
ghost use Rattle.bc_link.specs.Linked.{IsRefusal};
ghost use Rattle.bc_link.specs.Store.{boot};
ghost use Rattle.bc_link.specs.Layout.{stack_base_of};
ghost use Rattle.bc_link.specs.Refusals.{label_unset_from};

use crate::label_table::LabelTable;
use crate::layout::{FIRST_ADDRESS, label_places};
use crate::link_error::LinkError;
use crate::store::{push_items, set_globals};
use bc_machine_defs::{Image, Places, SegmentPlace, Words};
use bc_text_items::{Base, Item, Segment};
use bc_word::{Memory, Word};
use std::alloc::Global;

/// `LIG1`, which loads the address of the routine in global 1: function 0, indirect 4096, base G 1024, address 1.
const LOAD_START: u16 = 5121;

/// `K2`, which calls it: function 6 times 8192, address 2.
const CALL_START: u16 = 49_154;

/// `X22`, which ends the run: function 7 times 8192, operation 22.
const FINISH: u16 = 57_366;

/// The label that the item refers to, if it refers to one.
fn label_used(item: &Item) -> Option<Word>
    ensures { result ≡ use_of item.now }
{
    match item {
        Item::DataLabel(label) | Item::Global { label, .. } => Some(*label),
        Item::Operation { base, number, .. } if *base == Base::Label => Some(*number),
        _ => None,
    }
}

/// The first label that the items refer to and that isn't in the table.
fn unset_label(items: &[Item], labels: &LabelTable) -> Option<Word>
    ensures { result ≡ find (λ m. is_none (address_in m labels.now)) (uses_of items.now) }
{
    for item in items {
        if let Some(label) = label_used(item) {
            if labels.address(label).is_none() {
                return Some(label);
            }
        }
    }
    None
}

/// The three words of `LIG1 K2 X22`: call the routine in global 1, and end the run. The vector has room for the whole store.
///
/// `Memory` if an allocation fails.
fn boot_words(alloc: Global) -> Result<Vec<Word>, Memory>
    ensures words { IfOk result (λ words. words.items ≡ boot) }
    ensures length { IfOk result (λ words. vec_len words ≡ 3) }
{
    let mut words = Vec::with_capacity(alloc, 65_536)?;
    words.push(Word::new(LOAD_START))?;
    words.push(Word::new(CALL_START))?;
    words.push(Word::new(FINISH))?;
    Ok(words)
}

/// Appends zeros up to this number of words.
///
/// `Memory` if an allocation fails.
fn fill_up(words: &mut Vec<Word>, length: usize) -> Result<(), Memory>
    requires { vec_len words.old ≤ length }
    ensures words { OnOk result (words.new.items ≡ words.old.items ++ replicate (length - vec_len words.old) 0) }
    ensures length { OnOk result (vec_len words.new ≡ length) }
{
    words.resize(length, Word::new(0))?;
    Ok(())
}

/// The parts of an image for the segments that have been added.
#[derive(Drop)]
pub struct Draft {
    /// The 512 cells of the globals.
    pub globals: Vec<Word>,
    /// The words of the segments, which begin at address 520.
    pub code: Vec<Word>,
    /// Where the segments and their labels are.
    pub places: Vec<SegmentPlace>,
}

impl Draft {
    ghost use Rattle.bc_link.specs.Drafts.{next_start, Added, Becomes, IsUnsetIn, IsImageOf};

    /// The draft without any segment. `Memory` if an allocation fails.
    fn new(alloc: Global) -> Result<Draft, Memory>
        ensures globals { IfOk result (λ d. d.globals.items ≡ replicate 512 0) }
        ensures cells { IfOk result (λ d. vec_len d.globals ≡ 512) }
        ensures code { IfOk result (λ d. (d.code.items ≡ []) × (vec_len d.code ≡ 0)) }
        ensures places { IfOk result (λ d. d.places.items ≡ []) }
    {
        let mut globals = Vec::with_capacity(alloc, 512)?;
        globals.resize(512, Word::new(0))?;
        Ok(Draft {
            globals,
            code: Vec::new(alloc),
            places: Vec::new(alloc),
        })
    }

    /// Adds a segment, whose number is `number`. There must be room for it.
    ///
    /// `LabelUnset` if it refers to a label that it doesn't set; `Memory` if an allocation fails.
    fn add(&mut self, alloc: Global, number: usize, segment: &Segment) -> Result<(), LinkError>
        requires room { next_start self.old + size_of_all segment.now ≤ 65472 }
        requires cells { vec_len self.old.globals ≡ 512 }
        ensures ok { OnOk result (Added self.old self.new segment.now) }
        ensures err { IfErr result (IsUnsetIn number segment.now) }
    {
        let start = FIRST_ADDRESS + self.code.len() as u16;
        let items = segment.items();
        let labels = LabelTable::new(alloc, label_places(alloc, start, items)?)?;
        if let Some(label) = unset_label(items, &labels) {
            return Err(LinkError::LabelUnset(number, label));
        }
        set_globals(self.globals.as_mut_slice(), items, &labels);
        push_items(&mut self.code, items, &labels)?;
        self.places.push(SegmentPlace {
            start: Word::new(start),
            labels: labels.into_labels(),
        })?;
        Ok(())
    }

    /// The draft of all these segments. There must be room for them.
    ///
    /// `LabelUnset` for the first label that a segment refers to but doesn't set; `Memory` if an allocation fails.
    pub fn of(alloc: Global, segments: &[Segment]) -> Result<Draft, LinkError>
        requires { stack_base_of segments.now ≤ 65472 }
        ensures ok { IfOk result (λ d. Becomes d (length segments.now) [] segments.now) }
        ensures err { IfErr result (IsRefusal (label_unset_from 0 segments.now)) }
    {
        let mut draft = Draft::new(alloc)?;
        for (number, segment) in segments.iter().enumerate() {
            draft.add(alloc, number, segment)?;
        }
        Ok(draft)
    }

    /// The image of the draft. `stack_base` must be the address after the last segment.
    ///
    /// `Memory` if an allocation fails.
    pub fn into_image(self, alloc: Global, stack_base: u16) -> Result<Image, Memory>
        requires cells { vec_len self.globals ≡ 512 }
        requires following { stack_base ≡ next_start self }
        ensures { IfOk result (λ image. IsImageOf self stack_base image) }
    {
        let mut words = boot_words(alloc)?;
        fill_up(&mut words, 8)?;
        words.extend_from_slice(self.globals.as_slice())?;
        words.extend_from_slice(self.code.as_slice())?;
        fill_up(&mut words, 65_536)?;
        Ok(Image {
            words: Words::new(words),
            stack_base: Word::new(stack_base),
            places: Places::new(self.places),
        })
    }
}
