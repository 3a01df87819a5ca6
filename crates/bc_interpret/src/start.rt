//! The store at the start of a run: the globals, and the words of statics, tables and strings; all other cells are dead.
//!
//! `Memory` is returned if an allocation fails, or if a number is too large for its type, which no section of an accepted source causes.

ghost use Rattle.std.specs.Prelude.{◌≡◌, ◌+◌, ◌*◌, ◌∷◌, length, map, slice_get, slice_index, slice_set, IfOk, OnOk};
ghost use Rattle.bc_core.specs.View.{place_of};
ghost use Rattle.bc_core.specs.Words.{string_words, data_words};
ghost use Rattle.bc_core.specs.Map.{standing};
ghost use Rattle.bc_core.specs.Primitive.{primitives, address_among};
ghost use Rattle.bc_core.specs.Start.{setting, start_cell as cell_at_start, cells_from};
ghost use Rattle.bc_core.specs.Store.{Set};
ghost use Rattle.bc_interpret_store.specs.Cells.{cell_view};
ghost use Rattle.bc_interpret_steps.specs.Sections.{placed_of, program_of};
ghost use Rattle.bc_interpret.specs.Starting.{HasData, HasSetting, Sets, IsStart, AreDead, written, places_in, filled_with};

use crate::table::{address_of, label_after};
use bc_core::Place;
use bc_interpret_steps::{Section, addresses};
use bc_interpret_store::{Cell, Store, cell_at};
use bc_word::Memory;
use std::alloc::Global;

/// Byte `k` of a string; byte 0 is its length, and the bytes after the last one are 0.
fn byte_of(bytes: &[u8], k: usize) -> usize
    ensures { result ≡ slice_index (length bytes.now ∷ bytes.now) k }
{
    if k == 0 {
        return bytes.len();
    }
    match bytes.get(k - 1) {
        Some(byte) => usize::from(*byte),
        None => 0,
    }
}

/// The word of two bytes; `Memory` if it doesn't fit, which no two bytes cause.
fn word_of_bytes(high: usize, low: usize) -> Result<u16, Memory>
    ensures { IfOk result (λ word. word ≡ high * 256 + low) }
{
    let front = high.checked_mul(256).ok_or(Memory)?;
    let word = front.checked_add(low).ok_or(Memory)?;
    u16::try_from(word).map_err(|_| Memory)
}

/// The word at this index of a string's words. `Memory` only if the string is longer than 255 bytes.
#[tactic(auto, using(crate::proofs::Starting::no_packed_word))]
fn word_of_string(bytes: &[u8], index: u16) -> Result<Option<u16>, Memory>
    ensures { IfOk result (λ word. word ≡ slice_get (string_words bytes.now) index) }
{
    let at = 2 * usize::from(index);
    if at > bytes.len() {
        return Ok(None);
    }
    let word = word_of_bytes(byte_of(bytes, at), byte_of(bytes, at + 1))?;
    Ok(Some(word))
}

/// The word at this index of a place's words.
fn word_of(place: &Place, index: u16) -> Result<Option<u16>, Memory>
    ensures { IfOk result (λ word. word ≡ slice_get (data_words (place_of place.now)) index) }
{
    match place {
        Place::Routine(_) => Ok(None),
        Place::Static(word) => {
            if index == 0 {
                return Ok(Some(word.get()));
            }
            Ok(None)
        }
        Place::Table(words) => match words.get(usize::from(index)) {
            Some(word) => Ok(Some(word.get())),
            None => Ok(None),
        },
        Place::Text(bytes) => Ok(word_of_string(bytes, index)?),
    }
}

/// The next index of a word; `Memory` if there is none, which no accepted source causes.
fn index_after(index: u16) -> Result<u16, Memory>
    ensures { IfOk result (λ r. r ≡ index + 1) }
{
    index.checked_add(1).ok_or(Memory)
}

/// The address of the word at this index of words that begin at address `from`, which may be past the last cell.
fn address_within(from: u16, index: u16) -> usize
    ensures { result ≡ from + index }
{
    usize::from(from) + usize::from(index)
}

/// Puts a word at this address. Does nothing past the last cell.
#[tactic(auto, using(bc_interpret_store::proofs::Cells::cell_put, bc_interpret_store::proofs::Cells::beyond))]
fn put(cells: &mut Vec<Cell>, address: usize, word: u16)
    ensures { map cell_view cells.new.items ≡ slice_set (map cell_view cells.old.items) address (Set word) }
{
    if address >= cells.len() {
        return;
    }
    cells[address] = Cell::Set(word);
}

/// Puts the words of a place that begins at address `from`.
fn put_place(place: &Place, from: u16, cells: &mut Vec<Cell>) -> Result<(), Memory>
    ensures { OnOk result (map cell_view cells.new.items ≡ written (data_words (place_of place.now)) from (map cell_view cells.old.items)) }
{
    let mut index = 0;
    while let Some(word) = word_of(place, index)? {
        let address = address_within(from, index);
        put(cells, address, word);
        index = index_after(index)?;
    }
    Ok(())
}

/// Puts the words of all places of a section, those of the first place last, since they win.
fn put_section(section: &Section<'_>, cells: &mut Vec<Cell>) -> Result<(), Memory>
    ensures { OnOk result (map cell_view cells.new.items ≡ filled_with (places_in (placed_of section.now)) (map cell_view cells.old.items)) }
{
    let mut left = section.places;
    while let Some((place, earlier)) = left.split_last() {
        let from = address_of(section, left.len());
        put_place(place, from, cells)?;
        left = earlier;
    }
    Ok(())
}

/// Puts the words of all places of the program, those of the first section last.
fn put_data(sections: &[Section<'_>], cells: &mut Vec<Cell>) -> Result<(), Memory>
    ensures { OnOk result (map cell_view cells.new.items ≡ filled_with (standing (program_of sections.now)) (map cell_view cells.old.items)) }
{
    let mut left = sections.len();
    while left > 0 {
        left -= 1;
        put_section(&sections[left], cells)?;
    }
    Ok(())
}

/// 65,536 dead cells.
fn dead_cells(alloc: Global) -> Result<Vec<Cell>, Memory>
    ensures { IfOk result (λ cells. AreDead 65536 (map cell_view cells.items)) }
{
    let mut cells = Vec::new(alloc);
    cells.resize(65536, Cell::Dead)?;
    Ok(cells)
}

/// The words of all places of the program, each at its address. All other cells are dead.
fn data_of(alloc: Global, sections: &[Section<'_>]) -> Result<Vec<Cell>, Memory>
    ensures { IfOk result (λ cells. HasData (program_of sections.now) (map cell_view cells.items)) }
{
    let mut cells = dead_cells(alloc)?;
    put_data(sections, &mut cells)?;
    Ok(cells)
}

/// Whether a place is a routine that sets this global to its address.
fn is_setting(place: &Place, global: u16) -> bool
    ensures { Sets (place_of place.now) global result }
{
    match place {
        Place::Routine(routine) => routine.global == Some(global),
        Place::Static(_) | Place::Table(_) | Place::Text(_) => false,
    }
}

/// The address of the first routine of a section that sets this global.
fn setting_in(section: &Section<'_>, global: u16) -> Result<Option<u16>, Memory>
    ensures { IfOk result (λ address. HasSetting (placed_of section.now) global address) }
{
    let mut label = 1;
    let mut left = section.places;
    while let [place, following @ ..] = left {
        if is_setting(place, global) {
            return Ok(Some(address_of(section, label)));
        }
        label = label_after(label)?;
        left = following;
    }
    Ok(None)
}

/// The address of the primitive to which this global is set, if there is one.
fn primitive_of(global: u16) -> Option<u16>
    ensures { result ≡ address_among primitives global }
{
    match global {
        11 => Some(addresses::SELECT_INPUT),
        12 => Some(addresses::SELECT_OUTPUT),
        13 => Some(addresses::READ_BYTE),
        14 => Some(addresses::WRITE_BYTE),
        15 => Some(addresses::FIND_INPUT),
        16 => Some(addresses::FIND_OUTPUT),
        17 => Some(addresses::END_INPUT),
        18 => Some(addresses::END_OUTPUT),
        _ => None,
    }
}

/// The address of the first routine of the program that sets this global, or else that of the primitive.
fn setting_of(sections: &[Section<'_>], global: u16) -> Result<Option<u16>, Memory>
    ensures { IfOk result (λ address. address ≡ setting (standing (program_of sections.now)) global) }
{
    let mut left = sections;
    while let [section, following @ ..] = left {
        let found = setting_in(section, global)?;
        if found.is_some() {
            return Ok(found);
        }
        left = following;
    }
    Ok(primitive_of(global))
}

/// The cell at this address at the start of the run.
#[tactic(auto, using(bc_interpret_store::proofs::Cells::cell_seen))]
fn start_cell(sections: &[Section<'_>], words: &Vec<Cell>, address: u16) -> Result<Cell, Memory>
    requires { HasData (program_of sections.now) (map cell_view words.now.items) }
    ensures { IfOk result (λ cell. cell_view cell ≡ cell_at_start (standing (program_of sections.now)) address) }
{
    if address >= 8 && address < 520 {
        return match setting_of(sections, address - 8)? {
            Some(word) => Ok(Cell::Set(word)),
            None => Ok(Cell::Set(0)),
        };
    }
    Ok(cell_at(words, address))
}

/// A number as an address; `Memory` if it is above 65,535.
fn address_of_number(number: u32) -> Result<u16, Memory>
    ensures { IfOk result (λ address. address ≡ number) }
{
    u16::try_from(number).map_err(|_| Memory)
}

/// The cells of the first `count` addresses at the start of the run of these sections.
fn start_cells(
    alloc: Global,
    sections: &[Section<'_>],
    words: &Vec<Cell>,
    count: u32,
) -> Result<Vec<Cell>, Memory>
    requires { HasData (program_of sections.now) (map cell_view words.now.items) }
    ensures { IfOk result (λ cells. map cell_view cells.items ≡ cells_from count 0 (standing (program_of sections.now))) }
{
    let mut cells = Vec::with_capacity(alloc, count as usize)?;
    for number in 0..count {
        let address = address_of_number(number)?;
        let cell = start_cell(sections, words, address)?;
        cells.push(cell)?;
    }
    Ok(cells)
}

/// The store at the start of the run of these sections.
pub(crate) fn start_store(alloc: Global, sections: &[Section<'_>]) -> Result<Store, Memory>
    ensures { IfOk result (λ store. IsStart (program_of sections.now) store) }
{
    let words = data_of(alloc, sections)?;
    let cells = start_cells(alloc, sections, &words, 65536)?;
    Ok(Store::new(cells))
}
