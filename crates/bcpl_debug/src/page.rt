//! The page of a recorded run: the template with the recording as JSON.

use crate::json::Json;
use crate::names::{Names, Routine, Variable};
use crate::parts::{TO_END, TO_RECORDING};
use crate::places::SitePlace;
use crate::program::DebugProgram;
use crate::scope::GLOBALS;
use crate::session::RecordedRun;
use crate::stream::{bytes_of, state_of};
use base64::engine::general_purpose::STANDARD;
use bc_interpret_record::{Cause, Cell, Ending, NO_SITE, Outcome, Recording, StopKind};
use bc_word::Memory;
use bcpl_places::Span;
use bcpl_wild::Mistake;
use std::alloc::Global;

/// A recorded run of a program with this input.
#[derive(Clone, Copy)]
pub struct PageOf<'p, 's> {
    /// The program.
    pub program: &'p DebugProgram<'p, 's>,
    /// The run.
    pub run: &'p RecordedRun<'s>,
    /// Its input.
    pub input: &'p [u8],
}

/// The name of a kind of places.
fn kind_of(kind: StopKind) -> &'static str {
    match kind {
        StopKind::Assign => "assign",
        StopKind::Call => "call",
        StopKind::If => "if",
        StopKind::Test => "test",
        StopKind::While => "while",
        StopKind::Repeat => "repeat",
        StopKind::For => "for",
        StopKind::Switch => "switch",
        StopKind::ResultIs => "resultis",
        StopKind::Break => "break",
        StopKind::Loop => "loop",
        StopKind::EndCase => "endcase",
        StopKind::Return => "return",
        StopKind::Goto => "goto",
        StopKind::Finish => "finish",
        StopKind::Let => "let",
        StopKind::Body => "body",
        StopKind::End => "end",
    }
}

/// Appends a file, a start and an end of a span, or -1, 0 and 0.
fn add_span(json: &mut Json, span: Option<Span>) {
    match span {
        Some(span) => {
            json.number(span.file as u64);
            json.number(span.start as u64);
            json.number(span.end as u64)
        }
        None => {
            json.word("-1");
            json.number(0);
            json.number(0)
        }
    }
}

/// Appends a place.
fn add_place(json: &mut Json, place: &SitePlace) {
    json.open("[");
    add_span(json, place.span);
    json.ascii(kind_of(place.kind));
    if place.root == usize::MAX {
        json.word("-1");
    } else {
        json.number(place.root as u64);
    }
    json.close("]");
}

/// Appends the fields of a span.
fn add_span_fields(json: &mut Json, span: Option<Span>) {
    json.key("file");
    match span {
        Some(span) => json.number(span.file as u64),
        None => json.word("-1"),
    }
    json.field("start", span.map_or(0, |span| span.start as u64));
    json.field("end", span.map_or(0, |span| span.end as u64));
}

impl PageOf<'_, '_> {
    /// The names of the program.
    fn names(&self) -> &Names<'_> {
        &self.run.names
    }

    /// The recording.
    fn recording(&self) -> &Recording {
        &self.run.recording
    }

    /// Appends the sources.
    fn add_files(&self, json: &mut Json) {
        json.open_field("files", "[");
        let program = self.program;
        let sources = program.named.sources;
        for (index, source) in sources.iter().enumerate() {
            json.open("{");
            json.ascii_field("name", program.path(index));
            json.bytes_field("text", source.text);
            json.truth_field("library", index < program.library);
            json.close("}");
        }
        json.close("]");
    }

    /// Appends the places; the one that isn't known comes last.
    fn add_places(&self, json: &mut Json) {
        json.open_field("places", "[");
        for place in &self.names().places {
            add_place(json, place);
        }
        let unknown = SitePlace {
            span: None,
            kind: StopKind::End,
            section: 0,
            root: usize::MAX,
            leaf: 0,
        };
        add_place(json, &unknown);
        json.close("]");
    }

    /// Appends a variable of a routine.
    fn add_variable(&self, json: &mut Json, variable: &Variable<'_>) {
        json.open("{");
        json.bytes_field("name", variable.name);
        json.field("offset", variable.offset);
        json.field("cells", variable.cells);
        json.truth_field("parameter", variable.is_parameter);
        let (start, end) = match variable.span {
            Some(span) => (span.start, span.end),
            None => (0, 0),
        };
        json.field("start", start as u64);
        json.field("end", end as u64);
        json.field("from", variable.from as u64);
        json.field("to", variable.to as u64);
        json.close("}");
    }

    /// Appends a routine.
    fn add_routine(&self, json: &mut Json, routine: &Routine<'_>) {
        json.open("{");
        json.bytes_field("name", routine.name);
        add_span_fields(json, routine.span);
        json.field("address", u64::from(routine.address));
        json.known_field("global", routine.global.map(|number| u64::from(number)));
        json.truth_field("library", self.program.is_library(routine.section));
        json.open_field("variables", "[");
        for variable in &routine.variables {
            self.add_variable(json, variable);
        }
        json.close("]");
        json.close("}");
    }

    /// Appends the routines.
    fn add_routines(&self, json: &mut Json) {
        json.open_field("routines", "[");
        for routine in &self.names().routines {
            self.add_routine(json, routine);
        }
        json.close("]");
    }

    /// Appends the globals.
    fn add_globals(&self, json: &mut Json) {
        json.open_field("globals", "[");
        for global in &self.names().globals {
            json.open("{");
            json.field("number", u64::from(global.number));
            json.bytes_field("name", global.name);
            json.truth_field("library", !global.is_own(self.program));
            json.close("}");
        }
        json.close("]");
    }

    /// Appends the statics.
    fn add_statics(&self, json: &mut Json) {
        json.open_field("statics", "[");
        for found in &self.names().statics {
            json.open("{");
            json.bytes_field("name", found.name);
            json.field("address", u64::from(found.address));
            add_span_fields(json, found.span);
            json.truth_field("library", self.program.is_library(found.section));
            json.close("}");
        }
        json.close("]");
    }

    /// Appends strings and tables.
    fn add_data(&self, json: &mut Json) {
        json.open_field("data", "[");
        for datum in &self.names().data {
            json.open("{");
            json.ascii_field("kind", if datum.is_string { "string" } else { "table" });
            json.field("address", u64::from(datum.address));
            json.field("cells", datum.cells as u64);
            add_span_fields(json, datum.span);
            json.close("}");
        }
        json.close("]");
    }

    /// Appends the cells at the first stop, in runs.
    fn add_cells(&self, json: &mut Json) {
        json.open_field("cells", "[");
        let mut is_open = false;
        for (address, cell) in self.recording().first.iter().enumerate() {
            if *cell == Cell::Dead {
                if is_open {
                    json.close("]");
                }
                is_open = false;
            } else {
                if !is_open {
                    json.open("[");
                    json.number(address as u64);
                }
                is_open = true;
                json.number(state_of(*cell));
            }
        }
        if is_open {
            json.close("]");
        }
        json.close("]");
    }

    /// The number of the place of a site.
    fn place_number(&self, site: u32) -> u32 {
        if site == NO_SITE {
            self.unknown()
        } else {
            site
        }
    }

    /// The number of the place that isn't known.
    fn unknown(&self) -> u32 {
        u32::try_from(self.names().places.len()).unwrap_or(0)
    }

    /// Appends the frames at the first stop.
    fn add_frames(&self, json: &mut Json) {
        json.open_field("frames", "[");
        for frame in &self.recording().frames {
            json.open("[");
            let routine = self.names().routine_at(frame.routine).unwrap_or(0);
            json.number(routine as u64);
            json.number(u64::from(frame.base));
            json.number(u64::from(self.place_number(frame.caller)));
            json.close("]");
        }
        json.close("]");
    }

    /// Appends the state at the first stop.
    fn add_before(&self, json: &mut Json) {
        json.field("dropped", self.recording().dropped as u64);
        json.open_field("before", "{");
        self.add_cells(json);
        self.add_frames(json);
        let (output, taken) = match self.recording().stops.first() {
            Some(stop) => (stop.output, stop.taken),
            None => (0, 0),
        };
        json.bytes_field(
            "output",
            self.recording().output.get(..output).unwrap_or(&[]),
        );
        json.field("taken", taken as u64);
        json.close("}");
    }

    /// For each address the number of the routine there, plus 1.
    fn routine_numbers(&self, alloc: Global) -> Result<Vec<u32>, Memory> {
        let mut numbers = Vec::new(alloc);
        numbers.resize(65536, 0u32)?;
        let mut number = 1u32;
        for routine in &self.names().routines {
            if let Some(at) = numbers.get_mut(usize::from(routine.address)) {
                *at = number;
            }
            number = number.saturating_add(1);
        }
        Ok(numbers)
    }

    /// Appends the stops.
    fn add_stops(&self, alloc: Global, json: &mut Json) -> Result<(), Memory> {
        json.field("count", self.recording().stops.len() as u64);
        let routines = self.routine_numbers(alloc)?;
        let bytes = bytes_of(alloc, self.recording(), routines.as_slice(), self.unknown())?;
        let text = STANDARD.encode(alloc, bytes.as_slice())?;
        json.plain_field("stops", text.as_str());
        Ok(())
    }

    /// Appends how the run ended.
    fn add_end(&self, json: &mut Json) {
        let (kind, text, address) = self.ending();
        json.open_field("end", "{");
        json.ascii_field("kind", kind);
        json.ascii_field("text", text);
        json.ascii_field("lines", self.run.end_lines.as_str());
        let place = match self.recording().stops.last() {
            Some(stop) => Some(u64::from(self.place_number(stop.site))),
            None => None,
        };
        json.known_field("place", place);
        json.known_field("address", address);
        json.close("}");
    }

    /// A word and a sentence on how the run ended, and the address of the access that ended it.
    fn ending(&self) -> (&'static str, &'static str, Option<u64>) {
        if let Some(mistake) = self.run.mistake {
            let address = u64::from(address_of_mistake(mistake));
            return ("strict", "The strict run stopped here.", Some(address));
        }
        let outcome = self.run.interpreted.outcome;
        let (kind, text) = ending_of(outcome);
        (kind, text, address_of(outcome))
    }

    /// The names of the files of the mains, without their folders.
    fn title(&self, alloc: Global) -> Result<String, Memory> {
        let mut title = String::new(alloc);
        for main in self.program.mains {
            if *main >= self.program.library {
                if !title.is_empty() {
                    title.push_str(" ")?;
                }
                title.push_str(file_name(self.program.path(*main)))?;
            }
        }
        Ok(title)
    }
}

/// The name of a file without its folder.
fn file_name(path: &str) -> &str {
    match path.rsplit_once('/') {
        Some((_, name)) => name,
        None => path,
    }
}

/// A word and a sentence on how a run ended.
fn ending_of(outcome: Outcome) -> (&'static str, &'static str) {
    match outcome {
        Outcome::Ended(Ending::Finished) => ("finished", ""),
        Outcome::Ended(Ending::ZeroDivide) => ("zero", "The run divided by 0."),
        Outcome::Going => ("turns", "The run used up its turns."),
        Outcome::Wild(_) => ("wild", "The run met a wild access."),
        Outcome::Device => ("device", "The run wrote more than the debugger keeps."),
    }
}

/// The address of a wild access.
fn address_of(outcome: Outcome) -> Option<u64> {
    match outcome {
        Outcome::Wild(Cause::Unset(address) | Cause::Dead(address) | Cause::NoCell(address)) => {
            Some(u64::from(address))
        }
        _ => None,
    }
}

/// The address of the access that a mistake is.
fn address_of_mistake(mistake: Mistake) -> u16 {
    match mistake {
        Mistake::Outside(outside) => outside.start.wrapping_add(outside.index),
        Mistake::Constant(address) => address,
        Mistake::NoGlobal(number) | Mistake::UnsetGlobal(number) => GLOBALS.saturating_add(number),
    }
}

impl PageOf<'_, '_> {
    /// Appends all parts of the recording.
    fn add_parts(&self, alloc: Global, json: &mut Json) -> Result<(), Memory> {
        let title = self.title(alloc)?;
        json.ascii_field("program", title.as_str());
        json.truth_field("tame", self.program.is_tame);
        self.add_files(json);
        self.add_places(json);
        self.add_routines(json);
        self.add_globals(json);
        self.add_statics(json);
        self.add_data(json);
        json.field("stack", u64::from(self.program.image.stack_base.get()));
        json.bytes_field("input", self.input);
        self.add_before(json);
        self.add_stops(alloc, json)?;
        self.add_end(json);
        Ok(())
    }
}

/// The recording of a run as JSON. `Memory` if an allocation fails.
pub fn recording_of(alloc: Global, page: &PageOf<'_, '_>) -> Result<String, Memory> {
    let mut json = Json::new(alloc);
    json.open("{");
    json.field("version", 2);
    page.add_parts(alloc, &mut json)?;
    json.close("}");
    json.finish()
}

/// Appends a part of the template.
fn add_part(text: &mut String, part: &[&str]) -> Result<(), Memory> {
    for piece in part {
        text.push_str(piece)?;
    }
    Ok(())
}

/// The page of a run. `Memory` if an allocation fails.
pub fn page_of(alloc: Global, page: &PageOf<'_, '_>) -> Result<String, Memory> {
    let recording = recording_of(alloc, page)?;
    let mut text = String::new(alloc);
    add_part(&mut text, TO_RECORDING)?;
    text.push_str(recording.as_str())?;
    add_part(&mut text, TO_END)?;
    Ok(text)
}
