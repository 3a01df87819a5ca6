//! The listing `scopes`: the frame of each routine; statics, tables and strings; globals. `bc_scope_places` finds where they are.

use crate::lines::{Files, Lines};
use crate::page::{Field, Page};
use bc_core::{Core, Place, Routine};
use bc_lex_tokens::{Symbol, Token, TokenKind};
use bc_parse_tree::{Section, is_leaf, leaves_of};
use bc_scope_places::{GlobalSite, Sites, VariableSite, sites_of};
use bc_text_items::{Base, Item};
use bc_word::Memory;
use std::alloc::Global;

/// The number of columns that a name or a string may take.
const SHOWN: usize = 50;

/// The text before the frames.
const KEPT: &str =
    "Offset 0 of each frame has the address of the caller's frame, offset 1 the return address.\n\
    The level of a name is the first offset after its cells, where the next cells are allocated.\n\n";

/// Another segment of the program, which may set globals.
#[derive(Clone, Copy)]
pub struct Setter<'p> {
    /// Its name.
    pub name: &'p str,
    /// Its items.
    pub items: &'p [Item],
}

/// A section, as the compiler read it.
#[derive(Clone, Copy)]
pub struct Scopes<'p, 's> {
    /// The sources and their paths.
    pub files: Files<'p, 's>,
    /// The index of the file among the sources.
    pub main: usize,
    /// The tokens of the section.
    pub tokens: &'p [Token<'s>],
    /// Its tree.
    pub section: &'p Section<'s>,
    /// Its resolved tree.
    pub core: &'p Core,
    /// The items of its segment.
    pub items: &'p [Item],
    /// The other segments of the program.
    pub setters: &'p [Setter<'p>],
}

/// A routine of the section.
#[derive(Clone, Copy)]
struct Frame<'p> {
    /// Its label.
    label: u64,
    /// The leaf of its name.
    leaf: usize,
    /// Its resolved tree.
    routine: &'p Routine,
}

/// The kind of a variable's cells.
#[derive(Clone, Copy)]
enum Cells {
    /// A parameter.
    Parameter,
    /// A variable.
    Variable,
    /// A variable that points to a vector, and the vector's cells. This is the greatest subscript.
    Vector(u64),
    /// The variable of a FOR, and its limit.
    Counter,
}

/// The listing while it is written.
#[derive(Drop)]
struct Listing<'p, 's> {
    page: Page,
    scopes: Scopes<'p, 's>,
    lines: &'p Lines,
    leaves: &'p [Token<'s>],
    /// For each leaf, whether it is the variable of a FOR.
    counters: &'p [bool],
    sites: &'p Sites,
}

/// For each leaf, whether it is the variable of a FOR. `Memory` if an allocation fails.
fn counters_of(alloc: Global, tokens: &[Token<'_>]) -> Result<Vec<bool>, Memory> {
    let mut counters = Vec::new(alloc);
    let mut is_counter = false;
    for token in tokens {
        if is_leaf(token.kind) {
            counters.push(is_counter)?;
        }
        is_counter = matches!(token.kind, TokenKind::Symbol(Symbol::For));
    }
    Ok(counters)
}

/// Whether `global` is this number.
fn is_number(global: Option<u16>, wanted: u16) -> bool {
    match global {
        Some(number) => number == wanted,
        None => false,
    }
}

/// Whether an item uses or sets this global.
fn names_global(item: &Item, wanted: u16) -> bool {
    match item {
        Item::Operation {
            base: Base::G,
            number,
            ..
        } => number.get() == wanted,
        Item::Global { number, .. } => number.get() == wanted,
        _ => false,
    }
}

/// Whether a segment sets this global.
fn sets(items: &[Item], wanted: u16) -> bool {
    for item in items {
        if let Item::Global { number, .. } = item {
            if number.get() == wanted {
                return true;
            }
        }
    }
    false
}

impl<'p, 's> Listing<'p, 's> {
    /// Ends a line with the place of a leaf.
    fn end_line(&mut self, leaf: usize) {
        if let Some(token) = self.leaves.get(leaf) {
            self.add_token(token);
        }
        self.page.end_line();
    }

    /// Adds the place of a token: its line, with the file's name if that is another file. For a file of the library
    /// it is just the name.
    fn add_token(&mut self, token: &Token<'s>) {
        let files = self.scopes.files;
        if token.file == self.scopes.main {
            let number = self.lines.number_at(token.start) as u64;
            return self
                .page
                .add_all(&[Field::Text("line "), Field::Number(number, 0)]);
        }
        self.page.add_text(files.path(token.file));
        if token.file >= files.library {
            self.add_line_of(token);
        }
    }

    /// Adds the number of a token's line in another file.
    fn add_line_of(&mut self, token: &Token<'s>) {
        let text = self.scopes.files.text(token.file);
        let Ok(lines) = Lines::new(self.page.alloc(), text) else {
            return self.page.refuse();
        };
        let number = lines.number_at(token.start) as u64;
        self.page
            .add_all(&[Field::Text(":"), Field::Number(number, 0)]);
    }

    /// The leaf of the place with this label.
    fn leaf_of(&self, label: u64) -> usize {
        match self.sites.label(label) {
            Some(leaf) => leaf as usize,
            None => usize::MAX,
        }
    }

    /// The kind of the cells of a variable in this frame.
    fn cells_of(&self, frame: Frame<'p>, site: VariableSite) -> Cells {
        let leaf = site.leaf as usize;
        let last_parameter = frame
            .leaf
            .saturating_add(usize::from(frame.routine.parameters));
        if site.cells > 1 {
            Cells::Vector(site.cells.saturating_sub(2))
        } else if leaf <= last_parameter {
            Cells::Parameter
        } else if self.counters.get(leaf).copied().unwrap_or(false) {
            Cells::Counter
        } else {
            Cells::Variable
        }
    }

    /// Adds the description of a variable's cells, and the place where it is declared.
    fn end_row(&mut self, cells: Cells, leaf: usize) {
        match cells {
            Cells::Parameter => return self.page.add_line(&[Field::Text("parameter")]),
            Cells::Variable => self.page.add_text("variable, "),
            Cells::Counter => self.page.add_text("FOR variable and its limit, "),
            Cells::Vector(last) => self.add_vector(last),
        }
        self.end_line(leaf);
    }

    /// Adds the description of a vector with this greatest subscript.
    fn add_vector(&mut self, last: u64) {
        self.page.add_all(&[
            Field::Text("vector 0 to "),
            Field::Number(last, 0),
            Field::Text(" after its own cell, "),
        ]);
    }

    /// Adds the row of a variable in this frame.
    fn add_row(&mut self, frame: Frame<'p>, site: VariableSite) {
        let cells = self.cells_of(frame, site);
        let count = match cells {
            Cells::Counter => 2,
            _ => site.cells,
        };
        let leaf = site.leaf as usize;
        let name = self.text_at(leaf);
        self.page.add_all(&[
            Field::Number(site.offset, 8),
            Field::Number(count, 8),
            Field::Number(site.offset.saturating_add(count), 8),
            Field::Text("  "),
            Field::Front(name, SHOWN),
            Field::Column(44),
            Field::Text(" "),
        ]);
        self.end_row(cells, leaf);
    }

    /// Adds the heading of a frame: its routine.
    fn add_routine(&mut self, frame: Frame<'p>) {
        let name = self.text_at(frame.leaf);
        self.page.add_all(&[
            Field::Text("routine "),
            Field::Front(name, SHOWN),
            Field::Text(", L"),
            Field::Number(frame.label, 0),
        ]);
        if let Some(number) = frame.routine.global {
            let number = Field::Number(u64::from(number), 0);
            self.page.add_all(&[Field::Text(", sets global "), number]);
        }
        self.page.add_text(", ");
        self.end_line(frame.leaf);
    }

    /// Adds a frame with its rows.
    fn add_frame(&mut self, frame: Frame<'p>) {
        self.add_routine(frame);
        let sites = self.sites;
        let mut head = "  offset   cells   level  name\n";
        for site in &sites.variables {
            if site.routine == frame.label {
                self.page.add_lines(head);
                head = "";
                self.add_row(frame, *site);
            }
        }
        self.page.end_line();
    }

    /// Adds all frames.
    fn add_frames(&mut self) {
        let places = self.scopes.core.places();
        let mut head = KEPT;
        let mut label: u64 = 0;
        for place in places {
            label = label.saturating_add(1);
            if let Place::Routine(routine) = place {
                self.page.add_lines(head);
                head = "";
                self.add_frame(Frame {
                    label,
                    leaf: self.leaf_of(label),
                    routine,
                });
            }
        }
    }

    /// The text of the token at a leaf.
    fn text_at(&self, leaf: usize) -> &'s [u8] {
        match self.leaves.get(leaf) {
            Some(token) => token.text,
            None => b"",
        }
    }

    /// Adds what is at a label: a static, a table or a string.
    fn add_place(&mut self, place: &Place, text: &[u8]) {
        match place {
            Place::Static(word) => self.add_static(text, word.get()),
            Place::Table(words) => self.add_table(words.len() as u64),
            Place::Text(_) => self.add_string(text),
            Place::Routine(_) => {}
        }
    }

    /// Adds a static with its initial value.
    fn add_static(&mut self, name: &[u8], value: u16) {
        self.page.add_all(&[
            Field::Text("static "),
            Field::Front(name, SHOWN),
            Field::Text(" = "),
            Field::Number(u64::from(value), 0),
        ]);
    }

    /// Adds a table with this number of words.
    fn add_table(&mut self, count: u64) {
        let unit = if count == 1 { " word" } else { " words" };
        self.page.add_all(&[
            Field::Text("table of "),
            Field::Number(count, 0),
            Field::Text(unit),
        ]);
    }

    /// Adds a string.
    fn add_string(&mut self, text: &[u8]) {
        self.page
            .add_all(&[Field::Text("string "), Field::Front(text, SHOWN)]);
    }

    /// Adds the line of a static, a table or a string.
    fn add_datum(&mut self, label: u64, place: &Place) {
        self.page.add_all(&[
            Field::Text("  L"),
            Field::Number(label, 0),
            Field::Column(10),
        ]);
        let leaf = self.leaf_of(label);
        self.add_place(place, self.text_at(leaf));
        self.page.add_text(", ");
        self.end_line(leaf);
    }

    /// Adds all statics, tables and strings.
    fn add_data(&mut self) {
        let places = self.scopes.core.places();
        let mut head = "statics, tables and strings\n";
        let mut label: u64 = 0;
        for place in places {
            label = label.saturating_add(1);
            if !matches!(place, Place::Routine(_)) {
                self.page.add_lines(head);
                head = "";
                self.add_datum(label, place);
            }
        }
        if head.is_empty() {
            self.page.end_line();
        }
    }

    /// The label of the section's routine that sets a global, if there is one.
    fn setting(&self, number: u16) -> Option<u64> {
        let mut label: u64 = 0;
        for place in self.scopes.core.places() {
            label = label.saturating_add(1);
            if let Place::Routine(routine) = place {
                if is_number(routine.global, number) {
                    return Some(label);
                }
            }
        }
        None
    }

    /// The name of the other segment that sets a global, if there is one.
    fn setter(&self, number: u16) -> &'p str {
        for setter in self.scopes.setters {
            if sets(setter.items, number) {
                return setter.name;
            }
        }
        "no routine here"
    }

    /// Adds which routine or segment sets a global.
    fn add_setting(&mut self, number: u16) {
        let setter = self.setter(number);
        self.page.add_text("set by ");
        match self.setting(number) {
            Some(label) => self
                .page
                .add_all(&[Field::Text("L"), Field::Number(label, 0)]),
            None => self.page.add_text(setter),
        }
    }

    /// Adds the line of a global.
    fn add_global(&mut self, site: GlobalSite) {
        let leaf = site.leaf as usize;
        let name = self.text_at(leaf);
        self.page.add_all(&[
            Field::Number(u64::from(site.number), 8),
            Field::Text("  "),
            Field::Front(name, SHOWN),
            Field::Column(44),
            Field::Text(" "),
        ]);
        self.add_setting(site.number);
        self.page.add_text("; ");
        self.end_line(leaf);
    }

    /// Whether a global is listed: it is declared in the file, used or set.
    fn is_listed(&self, site: GlobalSite) -> bool {
        let is_here = match self.leaves.get(site.leaf as usize) {
            Some(token) => token.file == self.scopes.main,
            None => false,
        };
        is_here || self.is_in_items(site.number)
    }

    /// Whether the section's code uses or sets a global. The code of an expression has each global that the expression has.
    fn is_in_items(&self, number: u16) -> bool {
        for item in self.scopes.items {
            if names_global(item, number) {
                return true;
            }
        }
        false
    }

    /// Adds the globals.
    fn add_globals(&mut self) {
        let sites = self.sites;
        let mut head = "globals declared, used or set here\n";
        for site in &sites.globals {
            if self.is_listed(*site) {
                self.page.add_lines(head);
                head = "";
                self.add_global(*site);
            }
        }
    }
}

/// The listing `scopes` of a section: the frame of each routine, then statics, tables and strings, then globals.
/// `Memory` if an allocation fails.
pub fn scope_listing(alloc: Global, scopes: Scopes<'_, '_>) -> Result<Vec<u8>, Memory> {
    let Some(sites) = sites_of(alloc, scopes.section)? else {
        return Ok(Vec::new(alloc));
    };
    let lines = Lines::new(alloc, scopes.files.text(scopes.main))?;
    let leaves = leaves_of(alloc, scopes.tokens)?;
    let counters = counters_of(alloc, scopes.tokens)?;
    let mut listing = Listing {
        page: Page::new(alloc),
        scopes,
        lines: &lines,
        leaves: leaves.as_slice(),
        counters: counters.as_slice(),
        sites: &sites,
    };
    listing.add_frames();
    listing.add_data();
    listing.add_globals();
    listing.page.into_text()
}
