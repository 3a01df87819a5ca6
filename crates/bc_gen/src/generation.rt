//! The public call `generate`, and the code of a section's routines and data.
ghost use Rattle.std.specs.Prelude.{◌≡◌, ◌++◌, ◌∷◌, ◌≤◌, ◌<◌, IfOk, IfErr, IfSome, map, length};
ghost use Rattle.std.specs.List.{All, AllZip};
ghost use Rattle.bc_text_items.specs.declared.item.Item.TheVariants as item;
ghost use Rattle.bc_core.specs.Level.{level_after_parameters};
ghost use Rattle.bc_core.specs.View.{body_of, place_of, section};
ghost use Rattle.bc_rules_defs.specs.View.{entry as entry_view};
ghost use Rattle.bc_cert_write.specs.Workings.{WorkedOut};
ghost use Rattle.bc_gen_defs.specs.Bodies.{body_exits, emit_body};
ghost use Rattle.bc_gen_defs.specs.Entries.{Plain, section_entries};
ghost use Rattle.bc_gen_defs.specs.Section.{emit_routines, data_items, setting, setting_items, section_items, labels_suffice};
ghost use Rattle.bc_gen.specs.Chosen.{coding};
ghost use Rattle.bc_gen.specs.Room.{room_in, BodyHasRoom, RoutineHasRoom, SettingHasRoom, StringHasRoom};
ghost use Rattle.bc_gen.specs.Surroundings.{exits_of, roots_in};
ghost use Rattle.bc_gen.specs.Writing.{Writes};

use crate::context::Around;
use crate::gen_error::GenError;
use crate::items::RETURN;
use crate::marked_items::{Apart, separated};
use crate::writer::Writer;
use bc_cert_write::Workings;
use bc_core::{Body, Core, Place, Routine};
use bc_rules_defs::Entry;
use bc_text_items::{GlobalNumber, Item, Segment};
use bc_word::{Memory, Word};
use std::alloc::Global;

/// The code of a section.
#[derive(Debug, Drop)]
pub struct Generated {
    /// The items of the routines, the data, and the settings of globals.
    pub items: Segment,
    /// An entry for each root in the order of the code, a root before those in its VALOFs. Their `segment` is 0.
    pub entries: Vec<Entry>,
    /// For each entry, data that the writer of the certificate would otherwise compute again.
    pub workings: Vec<Workings>,
}

/// Generates the items of a section, where each root has the code of the derivation with the fewest words, and an entry for each root.
///
/// Returns `TooManyLabels` only if the section takes more than 20,000 labels; such a section never gets items. Returns `Memory` only if
/// an allocation failed: the invariant of `Core` ensures that all other numbers in the code fit.
pub fn generate(alloc: Global, core: &Core) -> Result<Generated, GenError>
    ensures items { IfOk result (λ found. found.items ≡ section_items coding (section core.now)) }
    ensures entries { IfOk result (λ found. map entry_view found.entries.items ≡ section_entries coding (section core.now)) }
    ensures worked { IfOk result (λ found. AllZip WorkedOut (map entry_view found.entries.items) found.workings.items) }
    ensures labels { IfOk result (λ _. labels_suffice coding (section core.now)) }
    ensures refused { IfErr result (λ fault. fault ≡ GenError.TooManyLabels → ¬ labels_suffice coding (section core.now)) }
{
    let places = core.places();
    let mut writer = Writer {
        alloc,
        parts: Vec::new(alloc),
        next: 1,
    };
    writer.take(places.len())?;
    let around = Around::body(core.valofs(), 0, 0);
    writer.routines(&around, places)?;
    let Apart {
        mut items,
        entries,
        workings,
    } = separated(alloc, writer.parts)?;
    put_data(&mut items, places)?;
    put_settings(&mut items, places)?;
    Ok(Generated {
        items: Segment::new(items),
        entries,
        workings,
    })
}

impl Writer {
    /// Writes the routines, each with the label of its place.
    fn routines(&mut self, around: &Around<'_>, places: &[Place]) -> Result<(), GenError>
        requires few { length places.now ≤ 20000 }
        requires outside { exits_of around.now ≡ body_exits 0 }
        requires room { All (RoutineHasRoom (room_in around.now)) (map place_of places.now) }
        ensures { Writes result self.old self.new (emit_routines Plain (roots_in around.now) 0 (map place_of places.now) self.old.next) }
    {
        let mut label = 0u16;
        for place in places {
            label += 1;
            if let Place::Routine(routine) = place {
                self.label(label)?;
                self.routine(around, routine)?;
            }
        }
        Ok(())
    }

    /// Writes the code of a routine.
    fn routine(&mut self, around: &Around<'_>, routine: &Routine) -> Result<(), GenError>
        requires outside { exits_of around.now ≡ body_exits 0 }
        requires level { level_after_parameters routine.now.parameters ≤ 65535 }
        requires room { BodyHasRoom (room_in around.now) (body_of routine.now.body) (level_after_parameters routine.now.parameters) }
        ensures { Writes result self.old self.new
            (emit_body Plain (roots_in around.now) (body_of routine.now.body) (level_after_parameters routine.now.parameters) self.old.next) }
    {
        let level = 2 + routine.parameters;
        match &routine.body {
            Body::Value(value) => {
                self.value(around, level, value)?;
                self.execute(RETURN)
            }
            Body::Commands(block) => {
                self.block(around, level, block)?;
                self.return_zero()
            }
        }
    }
}

/// Appends the statics, tables and strings, each with the label of its place.
fn put_data(items: &mut Vec<Item>, places: &[Place]) -> Result<(), Memory>
    requires few { length places.now ≤ 20000 }
    requires room { All StringHasRoom (map place_of places.now) }
    ensures { IfOk result (λ _. items.new.items ≡ items.old.items ++ data_items 0 (map place_of places.now)) }
{
    let mut label = 0u16;
    for place in places {
        label += 1;
        match place {
            Place::Routine(_) => {}
            Place::Static(word) => {
                items.push(Item::Label(Word::new(label)))?;
                items.push(Item::Data(*word))?;
            }
            Place::Table(words) => {
                items.push(Item::Label(Word::new(label)))?;
                put_words(items, words)?;
            }
            Place::Text(bytes) => {
                items.push(Item::Label(Word::new(label)))?;
                put_string(items, bytes)?;
            }
        }
    }
    Ok(())
}

/// Appends the words of a table.
fn put_words(items: &mut Vec<Item>, words: &[Word]) -> Result<(), Memory>
    ensures { IfOk result (λ _. items.new.items ≡ items.old.items ++ map item.Data words.now) }
{
    for word in words {
        items.push(Item::Data(*word))?;
    }
    Ok(())
}

/// Appends the length of a string and its bytes.
fn put_string(items: &mut Vec<Item>, bytes: &[u8]) -> Result<(), Memory>
    requires { length bytes.now ≤ 255 }
    ensures { IfOk result (λ _. items.new.items ≡ items.old.items ++ item.Byte (length bytes.now) ∷ map item.Byte bytes.now) }
{
    items.push(Item::Byte(bytes.len() as u8))?;
    for byte in bytes {
        items.push(Item::Byte(*byte))?;
    }
    Ok(())
}

/// Appends the settings of globals by routines.
fn put_settings(items: &mut Vec<Item>, places: &[Place]) -> Result<(), Memory>
    requires few { length places.now ≤ 20000 }
    requires room { All SettingHasRoom (map place_of places.now) }
    ensures { IfOk result (λ _. items.new.items ≡ items.old.items ++ setting_items 0 (map place_of places.now)) }
{
    let mut label = 0u16;
    for place in places {
        label += 1;
        if let Place::Routine(routine) = place {
            put_setting(items, routine.global, label)?;
        }
    }
    Ok(())
}

/// Appends the setting of a global to a routine's label, if the routine sets one.
fn put_setting(items: &mut Vec<Item>, global: Option<u16>, label: u16) -> Result<(), Memory>
    requires { IfSome global (λ n. n < 512) }
    ensures { IfOk result (λ _. items.new.items ≡ items.old.items ++ setting global label) }
{
    let Some(global) = global else { return Ok(()) };
    let Some(number) = GlobalNumber::new(global) else {
        unreachable!()
    };
    Ok(items.push(Item::Global {
        number,
        label: Word::new(label),
    })?)
}
