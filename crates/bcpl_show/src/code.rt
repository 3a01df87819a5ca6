//! The listing `code`: each source line, followed by the INTCODE of its expressions and commands.
use crate::lines::{Files, Lines};
use crate::marks::{Marks, Owner};
use crate::outline::Outline;
use crate::page::{Field, Page, WIDTH};
use crate::rule_legend::NamedRules;
use crate::shown_code::ShownItem;
use crate::shown_derivation::ShownDerivation;
use crate::sizes::{words_of_items, words_of_pieces};
use bc_core::{Core, Place};
use bc_lex_tokens::Token;
use bc_parse_tree::{Section, leaves_of};
use bc_rules::code_of;
use bc_rules_defs::Entry;
use bc_text_items::Item;
use bc_word::Memory;
use std::alloc::Global;

/// The column of items.
const ITEMS: usize = 8;

/// The column of descriptions.
const SAID: usize = 44;

/// The number of columns that a source line may take.
const LINE: usize = 88;

/// The number of columns that a name, a string or a line of another file may take.
const SHOWN: usize = 50;

/// The labels of the sizes at the end.
const SIZES: [&str; 8] = [
    "words of roots",
    "words of commands",
    "words of data",
    "words of this segment",
    "cells before all segments",
    "words of the primitives",
    "words of the library",
    "is their sum, where the stack begins if this file is the whole program",
];

/// A section with its code, as the compiler produced them.
#[derive(Clone, Copy)]
pub struct CodeListing<'p, 's> {
    /// The sources and their paths.
    pub files: Files<'p, 's>,
    /// The index of the file among the sources.
    pub main: usize,
    /// The tokens of the section.
    pub tokens: &'p [Token<'s>],
    /// Its tree.
    pub section: &'p Section<'s>,
    /// Its resolved tree.
    pub core: &'p Core,
    /// The items of its segment.
    pub items: &'p [Item],
    /// The entries of its segment.
    pub entries: &'p [Entry],
    /// The number of words before its segment: the first cells, the primitives, and the library.
    pub first: [u64; 3],
}

/// The sizes of the parts of a segment, in words.
#[derive(Clone, Copy)]
struct Sizes {
    roots: u64,
    commands: u64,
    data: u64,
}

/// A line of a file: the index of the file and the number of the line.
#[derive(Clone, Copy)]
struct Line {
    file: usize,
    number: usize,
}

/// The listing while it is written.
#[derive(Drop)]
struct Listing<'p, 's> {
    page: Page,
    program: CodeListing<'p, 's>,
    text: &'s [u8],
    lines: &'p Lines,
    leaves: &'p [Token<'s>],
    marks: &'p Marks,
    /// The leaf of each place.
    places: &'p [usize],
    /// For each root, whether some of its items were listed.
    begun: Vec<bool>,
    /// The number of lines of the file that were listed.
    told: usize,
    /// The line that was listed last.
    last: Option<Line>,
    sizes: Sizes,
    /// The rules of the derivations that were listed.
    rules: NamedRules,
}

impl<'p, 's> Listing<'p, 's> {
    /// Lists a line of the file.
    fn tell(&mut self, number: usize) {
        let line = self.lines.line(self.text, number);
        let sign = if line.is_empty() { " |" } else { " | " };
        let file = self.program.main;
        self.last = Some(Line { file, number });
        self.page.add_line(&[
            Field::Text("/ "),
            Field::Number(number as u64, 4),
            Field::Text(sign),
            Field::Front(line, LINE),
        ]);
    }

    /// Whether this line was listed last.
    fn is_last(&self, file: usize, number: usize) -> bool {
        match self.last {
            Some(last) => last.file == file && last.number == number,
            None => false,
        }
    }

    /// Lists a line of another file, unless it was listed last.
    fn tell_elsewhere(&mut self, file: usize, at: usize) {
        let text = self.program.files.text(file);
        let Ok(lines) = Lines::new(self.page.alloc(), text) else {
            return self.page.refuse();
        };
        let number = lines.number_at(at);
        if self.is_last(file, number) {
            return;
        }
        self.last = Some(Line { file, number });
        self.page.add_line(&[
            Field::Text("/ "),
            Field::Text(self.program.files.path(file)),
            Field::Text(":"),
            Field::Number(number as u64, 0),
            Field::Text(" | "),
            Field::Front(lines.line(text, number), SHOWN),
        ]);
    }

    /// Lists all lines up to this one that were not listed yet.
    fn tell_further(&mut self, number: usize) {
        for line in self.told..number {
            self.tell(line.saturating_add(1));
        }
        self.told = number;
    }

    /// Lists all lines up to this one that were not listed yet. If there are none, lists this line again.
    fn tell_up_to(&mut self, number: usize) {
        if number > self.told {
            return self.tell_further(number);
        }
        let main = self.program.main;
        if !self.is_last(main, number) {
            self.tell(number);
        }
    }

    /// Lists the line of a leaf.
    fn tell_leaf(&mut self, leaf: usize) {
        let Some(token) = self.leaves.get(leaf).copied() else {
            return;
        };
        if token.file == self.program.main {
            self.tell_up_to(self.lines.number_at(token.start));
        } else {
            self.tell_elsewhere(token.file, token.start);
        }
    }

    /// The text of an item.
    fn text_of(&mut self, item: &Item) -> String {
        let item = ShownItem(item);
        match format!(in self.page.alloc(); "{item}") {
            Ok(text) => text,
            Err(_) => self.refused(),
        }
    }

    /// Notes that an allocation failed, and returns an empty text.
    fn refused(&mut self) -> String {
        self.page.refuse();
        String::new(self.page.alloc())
    }

    /// Whether an item of this many columns begins a new line: a label does, and an item that would pass the limit.
    fn is_further(&self, item: &Item, columns: usize, limit: usize) -> bool {
        let column = self.page.column();
        let following = column.saturating_add(columns).saturating_add(1);
        column > 0 && (matches!(item, Item::Label(_)) || following > limit)
    }

    /// Adds an item to the current line.
    fn put_item(&mut self, item: &Item, text: &str) {
        let before = if matches!(item, Item::Label(_)) {
            Field::Text("")
        } else if self.page.column() < ITEMS {
            Field::Column(ITEMS)
        } else {
            Field::Text(" ")
        };
        self.page.add_all(&[before, Field::Text(text)]);
    }

    /// Adds an item, on a new line if necessary.
    fn add_item(&mut self, item: &Item) {
        let text = self.text_of(item);
        if self.is_further(item, text.len(), WIDTH) {
            self.page.end_line();
        }
        self.put_item(item, text.as_str());
    }

    /// Ends a line with a description.
    fn end_line(&mut self, said: &str) {
        if said.is_empty() {
            return self.page.end_line();
        }
        self.page.add_line(&[Field::Column(SAID), Field::Text("/ "), Field::Text(said)]);
    }

    /// Describes the items that follow in separate lines.
    fn say_before(&mut self, said: &str) {
        self.page
            .add_all(&[Field::Column(ITEMS), Field::Text("/ ")]);
        self.page.add_words(said, "        /   ");
        self.page.end_line();
    }

    /// Adds items in lines up to this column, with a description after the first line.
    fn put_items(&mut self, items: &[Item], said: &str, limit: usize) {
        let mut left = said;
        for item in items {
            let text = self.text_of(item);
            if self.is_further(item, text.len(), limit) {
                self.end_line(left);
                left = "";
            }
            self.put_item(item, text.as_str());
        }
        self.end_line(left);
    }

    /// Adds items with a description: after the first line, or before all lines if it is too long for that.
    fn add_items(&mut self, items: &[Item], said: &str) {
        let is_after = SAID.saturating_add(said.len()).saturating_add(2) <= WIDTH;
        if is_after {
            return self.put_items(items, said, SAID - 1);
        }
        self.say_before(said);
        self.put_items(items, "", WIDTH);
    }

    /// The index after the run of items with the same owner that begins at `from`.
    fn end_of_run(&self, from: usize) -> usize {
        let following = from.saturating_add(1);
        let Some(owner) = self.marks.owners.get(from).copied() else {
            return following;
        };
        for end in following..self.marks.owners.len() {
            match self.marks.owners.get(end).copied() {
                Some(other) if other == owner => {}
                _ => return end,
            }
        }
        self.marks.owners.len().max(following)
    }

    /// Whether items of this root were listed before. From now on they were.
    fn is_begun(&mut self, index: usize) -> bool {
        match self.begun.get_mut(index) {
            Some(is_begun) => {
                let was_begun = *is_begun;
                *is_begun = true;
                was_begun
            }
            None => false,
        }
    }

    /// Adds items of a root, with its size and rules.
    fn add_root(&mut self, index: usize, items: &[Item]) {
        if let Some(leaf) = self.marks.leaves.get(index).copied() {
            self.tell_leaf(leaf);
        }
        let entries = self.program.entries;
        match entries.get(index) {
            None => self.add_items(items, ""),
            Some(_) if self.is_begun(index) => self.add_items(items, "continued after a VALOF"),
            Some(entry) => self.add_entry(entry, items),
        }
    }

    /// Adds the first items of a root.
    fn add_entry(&mut self, entry: &Entry, items: &[Item]) {
        let alloc = self.page.alloc();
        let words = words_of_entry(alloc, entry);
        let words = self.counted(words);
        self.sizes.roots = self.sizes.roots.saturating_add(words);
        self.rules.note_all(&entry.derivation);
        let rules = ShownDerivation(&entry.derivation);
        let unit = unit(words);
        match format!(in alloc; "{words} {unit} by {rules}") {
            Ok(said) => self.add_items(items, said.as_str()),
            Err(_) => self.page.refuse(),
        }
    }

    /// A number of words, or 0 if counting them failed.
    fn counted(&mut self, words: Result<u64, Memory>) -> u64 {
        match words {
            Ok(words) => words,
            Err(_) => {
                self.page.refuse();
                0
            }
        }
    }

    /// Adds items that belong to a command itself.
    fn add_own(&mut self, index: usize, items: &[Item]) {
        let Some(own) = self.marks.own.get(index).copied() else {
            return self.add_items(items, "");
        };
        self.tell_leaf(own.leaf);
        let words = words_of_items(self.page.alloc(), items);
        let words = self.counted(words);
        self.sizes.commands = self.sizes.commands.saturating_add(words);
        self.add_counted(items, words, own.what.words());
    }

    /// Adds items of this size with a description.
    fn add_counted(&mut self, items: &[Item], words: u64, what: &str) {
        if words == 0 {
            return self.add_items(items, what);
        }
        let unit = unit(words);
        match format!(in self.page.alloc(); "{words} {unit}: {what}") {
            Ok(said) => self.add_items(items, said.as_str()),
            Err(_) => self.page.refuse(),
        }
    }

    /// The token at the leaf of this place, if there is one.
    fn token_of_place(&self, label: u16) -> Option<Token<'s>> {
        let index = usize::from(label).checked_sub(1)?;
        let leaf = self.places.get(index)?;
        self.leaves.get(*leaf).copied()
    }

    /// Describes the place whose data follow.
    fn tell_place(&mut self, label: u16) {
        let Some(token) = self.token_of_place(label) else {
            return;
        };
        let index = usize::from(label).saturating_sub(1);
        let what = match self.program.core.places().get(index) {
            Some(Place::Static(_)) => "static ",
            Some(Place::Table(_)) => "",
            Some(Place::Text(_)) => "string ",
            Some(Place::Routine(_)) | None => return,
        };
        self.page.add_all(&[
            Field::Text("/ "),
            Field::Text(what),
            Field::Front(token.text, SHOWN),
        ]);
        self.tell_line_of(token);
    }

    /// Ends a line with the place of a token.
    fn tell_line_of(&mut self, token: Token<'s>) {
        if token.file == self.program.main {
            let number = self.lines.number_at(token.start);
            return self.page.add_line(&[Field::Text(" on line "), Field::Number(number as u64, 0)]);
        }
        let text = self.program.files.text(token.file);
        let Ok(lines) = Lines::new(self.page.alloc(), text) else {
            return self.page.refuse();
        };
        self.page.add_line(&[
            Field::Text(" in "),
            Field::Text(self.program.files.path(token.file)),
            Field::Text(":"),
            Field::Number(lines.number_at(token.start) as u64, 0),
        ]);
    }

    /// Adds an item that sets a global.
    fn add_setting(&mut self, item: &Item, label: u16) {
        self.add_item(item);
        let name: &[u8] = match self.token_of_place(label) {
            Some(token) => token.text,
            None => b"",
        };
        self.page.add_line(&[
            Field::Column(SAID),
            Field::Text("/ "),
            Field::Front(name, SHOWN),
        ]);
    }

    /// Adds a label, after a description of its place.
    fn add_place(&mut self, item: &Item, label: u16) {
        self.page.end_begun();
        self.tell_place(label);
        self.add_item(item);
    }

    /// Adds an item of the section itself.
    fn add_datum(&mut self, item: &Item) {
        match item {
            Item::Label(label) => self.add_place(item, label.get()),
            Item::Global { label, .. } => {
                self.page.end_begun();
                self.add_setting(item, label.get());
            }
            _ => self.add_item(item),
        }
    }

    /// Adds the items of the section itself: its data, and the globals that it sets.
    fn add_data(&mut self, items: &[Item]) {
        let words = words_of_items(self.page.alloc(), items);
        let words = self.counted(words);
        self.sizes.data = self.sizes.data.saturating_add(words);
        for item in items {
            self.add_datum(item);
        }
        self.page.end_begun();
    }

    /// Adds the run of items that begins at `from`. Returns the index after it.
    fn add_run(&mut self, from: usize) -> usize {
        let end = self.end_of_run(from);
        let all = self.program.items;
        if let Some(items) = all.get(from..end) {
            self.add_owned(self.marks.owners.get(from).copied(), items);
        }
        end
    }

    /// Adds items of this owner.
    fn add_owned(&mut self, owner: Option<Owner>, items: &[Item]) {
        match owner {
            Some(Owner::Root(index)) => self.add_root(index, items),
            Some(Owner::Command(index)) => self.add_own(index, items),
            Some(Owner::Section) => {
                self.tell_further(self.lines.count(self.text));
                self.add_data(items);
            }
            None => {}
        }
    }

    /// Adds all items, the end of the segment, and the sizes.
    fn add_all(&mut self) {
        let count = self.program.items.len();
        let mut at: usize = 0;
        for _ in 0..count {
            if at >= count {
                break;
            }
            at = self.add_run(at);
        }
        self.page.add_line(&[Field::Text("Z")]);
        self.add_sizes();
        self.rules.add(&mut self.page);
    }

    /// Adds a line with a size.
    fn add_size(&mut self, words: u64, what: &str) {
        self.page.add_line(&[
            Field::Text("/ "),
            Field::Number(words, 6),
            Field::Text("  "),
            Field::Text(what),
        ]);
    }

    /// Adds the sizes of all parts, and the address at which the stack begins.
    fn add_sizes(&mut self) {
        let Sizes {
            roots,
            commands,
            data,
        } = self.sizes;
        let [cells, primitives, library] = self.program.first;
        let own = roots.saturating_add(commands).saturating_add(data);
        let sum = own
            .saturating_add(cells)
            .saturating_add(primitives)
            .saturating_add(library);
        let words = [roots, commands, data, own, cells, primitives, library, sum];
        for (words, what) in words.iter().zip(&SIZES) {
            self.add_size(*words, what);
        }
    }
}

/// The size of a root's code, in words.
pub(crate) fn words_of_entry(alloc: Global, entry: &Entry) -> Result<u64, Memory> {
    let pieces = code_of(
        alloc,
        &entry.root,
        &entry.derivation,
        entry.target,
        entry.first,
    )?;
    Ok(words_of_pieces(pieces.as_slice()))
}

/// The unit for this number of words.
pub fn unit(words: u64) -> &'static str {
    if words == 1 { "word" } else { "words" }
}

/// What the listing needs besides the program.
#[derive(Clone, Copy)]
struct Beside<'p, 's> {
    lines: &'p Lines,
    leaves: &'p [Token<'s>],
    marks: &'p Marks,
    places: &'p [usize],
}

/// The listing of a program's code.
fn listed<'p, 's>(
    alloc: Global,
    program: CodeListing<'p, 's>,
    beside: Beside<'p, 's>,
) -> Result<Vec<u8>, Memory> {
    let Beside {
        lines,
        leaves,
        marks,
        places,
    } = beside;
    let mut listing = Listing {
        page: Page::new(alloc),
        program,
        text: program.files.text(program.main),
        lines,
        leaves,
        marks,
        places,
        begun: vec![in alloc; false; program.entries.len()]?,
        told: 0,
        last: None,
        sizes: Sizes {
            roots: 0,
            commands: 0,
            data: 0,
        },
        rules: NamedRules::new(),
    };
    listing.add_all();
    listing.page.into_text()
}

/// The listing of a program's code, with the owners of its items.
fn listed_by_marks(
    alloc: Global,
    program: CodeListing<'_, '_>,
    outline: &Outline,
    marks: &Marks,
) -> Result<Vec<u8>, Memory> {
    let lines = Lines::new(alloc, program.files.text(program.main))?;
    let leaves = leaves_of(alloc, program.tokens)?;
    let beside = Beside {
        lines: &lines,
        leaves: leaves.as_slice(),
        marks,
        places: outline.places.as_slice(),
    };
    listed(alloc, program, beside)
}

/// The listing of a program's code, with the steps of its outline.
fn listed_by_steps(
    alloc: Global,
    program: CodeListing<'_, '_>,
    outline: &Outline,
) -> Result<Vec<u8>, Memory> {
    let marks = Marks::new(alloc, outline, program.items.len(), program.entries)?;
    listed_by_marks(alloc, program, outline, &marks)
}

/// The listing `code` of a section: each source line as a comment before its code, then labels, data, and the sizes.
/// Without its comments it is the text of the segment. `Memory` if an allocation fails.
pub fn code_listing(alloc: Global, program: CodeListing<'_, '_>) -> Result<Vec<u8>, Memory> {
    let outline = Outline::new(alloc, program.section)?;
    listed_by_steps(alloc, program, &outline)
}
