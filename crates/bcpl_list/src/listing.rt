//! The listing as a whole: the boot code, the globals, and the segments item by item.

use crate::label_index::LabelIndex;
use crate::page::Page;
use crate::references::{Manner, Reference, of_label, references};
use crate::strings::{run_after, say_bytes};
use bc_machine_defs::Image;
use bc_text_items::{Base, Function, Item, Segment};
use bc_word::{Memory, Word};
use bcpl_places::{addresses, instruction, is_long, library_name};
use std::alloc::Global;

/// A note on the code that begins at an item.
#[derive(Clone, Copy)]
pub struct Note<'p> {
    /// The index of the segment in the program.
    pub segment: usize,
    /// The index of the item in its segment.
    pub item: usize,
    /// The text of the note.
    pub said: &'p str,
}

/// The name of the segments of a text.
#[derive(Clone, Copy)]
pub struct TextName<'p> {
    /// The name.
    pub name: &'p str,
    /// The number of segments up to the last one of the text.
    pub end: usize,
}

/// The name of a segment.
pub fn name_of<'p>(names: &[TextName<'p>], segment: usize) -> &'p str {
    let text = names.partition_point(|text| text.end <= segment);
    match names.get(text) {
        Some(text) => text.name,
        None => "unnamed",
    }
}

/// A linked program.
#[derive(Clone, Copy)]
pub struct ListedProgram<'p> {
    /// The segments, beginning with the primitives.
    pub segments: &'p [Segment],
    /// The names of the texts, in order; the first one is for the primitives.
    pub names: &'p [TextName<'p>],
    /// The image of the segments.
    pub image: &'p Image,
    /// The notes, in the order of segments and items.
    pub notes: &'p [Note<'p>],
}

/// The address of global 0.
const FIRST_CELL: usize = 8;

/// The number of globals.
const GLOBALS: usize = 512;

/// What the words of the boot code do.
const BOOT: [&str; 3] = [
    "load the routine in global 1",
    "call it, with its frame at 2",
    "finish the run",
];

/// The largest number of references to a label in one line.
const IN_A_LINE: usize = 4;

/// An item that sets a global.
#[derive(Clone, Copy, PartialEq, Eq, PartialOrd, Ord)]
struct Setting {
    number: u16,
    label: u16,
    segment: usize,
}

/// A segment with the address of each item, its labels and the references to them.
#[derive(Drop)]
struct Listed<'p> {
    segment: usize,
    items: &'p [Item],
    addresses: Vec<usize>,
    labels: LabelIndex,
    references: Vec<Reference>,
}

/// How many bytes of a listing are held before they are taken.
const LONG: usize = 65_536;

/// The listing of a linked program while it is written: the boot code, the cells of the globals that are set, and the
/// segments. Each word has a line with its address, its value, its item and a description. A label has a separate line, with
/// what it labels and the references to it. Two bytes share a word. Its text is taken in parts, since it may be longer than
/// the program.
#[derive(Drop)]
pub struct Listing<'p> {
    alloc: Global,
    page: Page,
    program: ListedProgram<'p>,
    /// The number of notes written so far.
    told: usize,
}

/// The word at an address, or 0 if there is none.
fn word_at(image: &Image, address: usize) -> u16 {
    match image.words.as_slice().get(address) {
        Some(word) => word.get(),
        None => 0,
    }
}

/// The library's name for a global and a separator, or two empty texts.
fn known_name(number: u16) -> (&'static str, &'static str) {
    match library_name(number) {
        Some(name) => (name, ", "),
        None => ("", ""),
    }
}

/// Whether an operation is a jump.
fn is_jump(function: Function) -> bool {
    matches!(
        function,
        Function::Jump | Function::JumpIfTrue | Function::JumpIfFalse
    )
}

/// The item with this index, if it is a byte that shares the word at `address` with the byte before it.
fn second_byte(listed: &Listed<'_>, index: usize, address: usize) -> Option<u8> {
    let next = listed.addresses.as_slice().get(index)?;
    match listed.items.get(index)? {
        Item::Byte(second) if *next == address => Some(*second),
        _ => None,
    }
}

/// Whether the item with this index is the second byte of a word.
fn is_second_byte(listed: &Listed<'_>, index: usize, last: Option<usize>) -> bool {
    let address = listed.addresses.as_slice().get(index).copied();
    matches!(listed.items.get(index), Some(Item::Byte(_))) && address == last
}

impl<'p> Listing<'p> {
    /// Begins the line of a word: its address and value.
    fn begin_word(&mut self, address: usize) {
        let word = word_at(self.program.image, address);
        self.page.add_column(address);
        self.page.add(" ");
        self.page.add_column(usize::from(word));
    }

    /// Begins a line for an item that takes no words.
    fn begin_alone(&mut self) {
        self.page.add("             ");
        self.page.begin_item();
    }

    /// Adds a word of the boot code.
    fn add_boot_word(&mut self, address: usize, said: &str) {
        let word = Word::new(word_at(self.program.image, address));
        let following = Word::new(word_at(self.program.image, address.saturating_add(1)));
        let Ok(item) = instruction(self.alloc, word, following) else {
            return self.page.refuse();
        };
        self.begin_word(address);
        self.page.begin_item();
        self.page.add(item.as_str());
        self.page.say(said);
        self.page.end_line();
    }

    /// Adds the boot code.
    fn add_boot(&mut self) {
        self.page
            .add("/ boot\n/ addr   word  item           / what it is\n");
        for (address, said) in BOOT.iter().enumerate() {
            self.add_boot_word(address, said);
        }
    }

    /// The items that set globals, sorted by number.
    fn settings(&self) -> Result<Vec<Setting>, Memory> {
        let mut settings = Vec::new(self.alloc);
        for (segment, listed) in self.program.segments.iter().enumerate() {
            for item in listed.items() {
                if let Item::Global { number, label } = item {
                    settings.push(Setting {
                        number: number.get(),
                        label: label.get(),
                        segment,
                    })?;
                }
            }
        }
        settings.sort_unstable();
        Ok(settings)
    }

    /// Adds the cells of the globals that are set.
    fn add_globals(&mut self) {
        let last = FIRST_CELL.saturating_add(GLOBALS).saturating_sub(1);
        self.page.add("\n/ globals that are set; their cells are ");
        self.page.add_number(FIRST_CELL);
        self.page.add(" to ");
        self.page.add_number(last);
        self.page.end_line();
        match self.settings() {
            Ok(settings) => self.add_settings(settings.as_slice()),
            Err(_) => self.page.refuse(),
        }
    }

    /// Adds the cells of these globals.
    fn add_settings(&mut self, settings: &[Setting]) {
        for setting in settings {
            self.add_setting(*setting);
        }
    }

    /// Adds the cell of a global that is set, with the library's name for it, if any.
    fn add_setting(&mut self, setting: Setting) {
        let number = usize::from(setting.number);
        let (known, sign) = known_name(setting.number);
        let name = self.name_of(setting.segment);
        self.begin_word(FIRST_CELL.saturating_add(number));
        self.page.begin_item();
        self.page.add("G");
        self.page.add_number(number);
        self.page.add("L");
        self.page.add_number(usize::from(setting.label));
        self.page.say(known);
        self.page.say(sign);
        self.page.say_number("of segment ", setting.segment);
        self.page.say(", ");
        self.page.say(name);
        self.page.end_line();
    }

    /// The name of a segment.
    fn name_of(&self, segment: usize) -> &'p str {
        name_of(self.program.names, segment)
    }

    /// Adds a note.
    fn add_note(&mut self, said: &str) {
        self.page.add("/ ");
        self.page.add(said);
        self.page.end_line();
    }

    /// Adds the notes up to this item that were not added yet.
    fn add_notes(&mut self, segment: usize, item: usize) {
        let notes = self.program.notes;
        for index in self.told..notes.len() {
            let note = &notes[index];
            if note.segment > segment || (note.segment == segment && note.item > item) {
                return;
            }
            self.add_note(note.said);
            self.told = index.saturating_add(1);
        }
    }

    /// Adds a reference to a label.
    fn say_use(&mut self, reference: Reference) {
        let at = reference.at;
        match reference.manner {
            Manner::Global => self.page.say_number("global ", at),
            Manner::Operation(letter) => self.say_operation(letter, at),
            Manner::Data => self.page.say_number("word at ", at),
        }
    }

    /// Adds the operation with this letter at this address.
    fn say_operation(&mut self, letter: char, at: usize) {
        self.page.say("");
        self.page.add_sign(letter);
        self.page.say_number(" at ", at);
    }

    /// Adds the references to a label.
    fn say_uses(&mut self, references: &[Reference]) {
        for (index, reference) in references.iter().enumerate() {
            if index > 0 {
                self.page.say(", ");
            }
            self.say_use(*reference);
        }
    }

    /// Adds further lines with references to a label.
    fn add_uses(&mut self, references: &[Reference]) {
        for some in references.chunks(IN_A_LINE) {
            self.begin_alone();
            self.say_uses(some);
            self.page.end_line();
        }
    }

    /// Adds a label: what it labels, and the references to it in the same line or in further ones.
    fn add_label(&mut self, listed: &Listed<'p>, index: usize, label: u16) {
        self.begin_alone();
        self.page.add_number(usize::from(label));
        self.say_run(run_after(listed.items, index));
        let uses = of_label(listed.references.as_slice(), label);
        let beside = if self.page.said() == 0 {
            uses.len().min(IN_A_LINE)
        } else {
            0
        };
        let (front, others) = uses.split_at(beside);
        self.say_uses(front);
        self.page.end_line();
        self.add_uses(others);
    }

    /// Describes the bytes or words of data after a label, if there are any.
    fn say_run(&mut self, run: &[Item]) {
        match run.first() {
            Some(Item::Byte(_)) => say_bytes(&mut self.page, run),
            Some(Item::Data(_) | Item::DataLabel(_)) => self.say_words(run.len()),
            _ => {}
        }
    }

    /// Describes a run of words of data.
    fn say_words(&mut self, count: usize) {
        self.page.say_number("", count);
        self.page.say(if count == 1 {
            " word of data"
        } else {
            " words of data"
        });
    }

    /// Adds `word` and the address of a label, if it has one.
    fn say_address(&mut self, listed: &Listed<'p>, label: Word, word: &str) {
        if let Some(address) = listed.labels.address(label.get()) {
            self.page.say_number(word, usize::from(address));
        }
    }

    /// Adds the target of a jump, or the address that an operation uses.
    fn say_target(&mut self, listed: &Listed<'p>, function: Function, label: Word) {
        let word = if is_jump(function) { "to " } else { "at " };
        self.say_address(listed, label, word);
    }

    /// Describes a global: its number, its name in the library, and its initial value if it is set.
    fn say_global(&mut self, number: u16) {
        let index = usize::from(number);
        let begins = word_at(self.program.image, FIRST_CELL.saturating_add(index));
        self.page.say_number("global ", index);
        if let Some(name) = library_name(number) {
            self.page.say(", ");
            self.page.say(name);
        }
        if index < GLOBALS && begins != 0 {
            self.page.say_number(", initially ", usize::from(begins));
        }
    }

    /// Describes the label or global of an operation or a word of data.
    fn say_of(&mut self, listed: &Listed<'p>, item: &Item) {
        match item {
            Item::Operation {
                function,
                base: Base::Label,
                number,
                ..
            } => self.say_target(listed, *function, *number),
            Item::Operation {
                base: Base::G,
                number,
                ..
            } => self.say_global(number.get()),
            Item::DataLabel(label) => self.say_address(listed, *label, "at "),
            _ => {}
        }
    }

    /// Adds an item that takes words, at this address.
    fn add_operation(&mut self, listed: &Listed<'p>, item: &Item, address: usize) {
        self.begin_word(address);
        self.page.begin_item();
        self.page.add_item(item);
        self.say_of(listed, item);
        self.page.end_line();
        if is_long(item) {
            self.begin_word(address.saturating_add(1));
            self.page.end_line();
        }
    }

    /// Adds a byte as an item.
    fn add_byte(&mut self, front: &str, byte: u8) {
        self.page.add(front);
        self.page.add_number(usize::from(byte));
    }

    /// Adds a byte, and the one that shares its word.
    fn add_bytes(&mut self, first: u8, second: Option<u8>, address: usize) {
        self.begin_word(address);
        self.page.begin_item();
        self.add_byte("C", first);
        if let Some(second) = second {
            self.add_byte(" C", second);
        }
        self.page.end_line();
    }

    /// Adds an item, with its index and its address.
    fn add_at(&mut self, listed: &Listed<'p>, index: usize, item: &Item, address: usize) {
        match item {
            Item::Label(label) => self.add_label(listed, index, label.get()),
            Item::Global { .. } => {}
            Item::Byte(first) => {
                let second = second_byte(listed, index.saturating_add(1), address);
                self.add_bytes(*first, second, address);
            }
            _ => self.add_operation(listed, item, address),
        }
    }

    /// Adds the item with this index.
    fn add(&mut self, listed: &Listed<'p>, index: usize) {
        let item = listed.items.get(index);
        let address = listed.addresses.as_slice().get(index).copied();
        if let (Some(item), Some(address)) = (item, address) {
            self.add_notes(listed.segment, index);
            self.add_at(listed, index, item, address);
        }
    }

    /// Collects what is needed to list a segment.
    fn listed(
        &self,
        segment: usize,
        items: &'p [Item],
        start: usize,
    ) -> Result<Listed<'p>, Memory> {
        let (addresses, _) = addresses(self.alloc, start, items)?;
        let references = references(self.alloc, items, addresses.as_slice())?;
        Ok(Listed {
            segment,
            items,
            addresses,
            labels: LabelIndex::new(self.alloc, self.program.image, segment)?,
            references,
        })
    }

    /// Adds the line before a segment, which begins at this address.
    fn add_head(&mut self, segment: usize, start: usize) {
        let name = self.name_of(segment);
        self.page.add("\n/ segment ");
        self.page.add_number(segment);
        self.page.add(", ");
        self.page.add(name);
        self.page.add(": begins at ");
        self.page.add_number(start);
        self.page.add("\n");
    }

    /// Adds the items of a segment.
    fn add_items(&mut self, listed: &Listed<'p>) {
        let mut last = None;
        for index in 0..listed.items.len() {
            let is_second = is_second_byte(listed, index, last);
            last = match listed.items.get(index) {
                Some(Item::Byte(_)) if !is_second => {
                    listed.addresses.as_slice().get(index).copied()
                }
                _ => None,
            };
            if !is_second {
                self.add(listed, index);
            }
        }
        self.add_notes(listed.segment, listed.items.len());
    }

    /// The listing of a program, up to its first segment.
    pub fn new(alloc: Global, program: ListedProgram<'p>) -> Listing<'p> {
        let mut listing = Listing {
            alloc,
            page: Page::new(alloc),
            program,
            told: 0,
        };
        listing.add_boot();
        listing.add_globals();
        listing
    }

    /// Whether the text is long enough to be taken.
    pub fn is_long(&self) -> bool {
        self.page.text().len() > LONG
    }

    /// The text since it was taken; empty if an allocation failed.
    pub fn text(&self) -> &str {
        self.page.text()
    }

    /// Forgets the text, which was taken.
    pub fn clear(&mut self) {
        self.page.clear();
    }

    /// Ends the listing. `Memory` if an allocation failed.
    pub fn finish(self) -> Result<(), Memory> {
        self.page.finish()
    }

    /// Adds the segment with this index.
    pub fn add_segment(&mut self, segment: usize) {
        let segments = self.program.segments;
        let items: &'p [Item] = match segments.get(segment) {
            Some(segment) => segment.items(),
            None => &[],
        };
        let start = match self.program.image.places.as_slice().get(segment) {
            Some(place) => usize::from(place.start.get()),
            None => 0,
        };
        self.add_head(segment, start);
        match self.listed(segment, items, start) {
            Ok(listed) => self.add_items(&listed),
            Err(_) => self.page.refuse(),
        }
    }

    /// Adds the end of the image.
    pub fn add_end(&mut self) {
        let base = self.program.image.stack_base.get();
        self.page.add("\n/ the stack begins at ");
        self.page.add_number(usize::from(base));
        self.page.end_line();
    }
}
