//! Messages that exist as text, as JSON objects: what is said about arguments, files, INTCODE texts, certificates and
//! machine runs. A line `PATH:LINE:COLUMN: SENTENCE` begins an object, and the lines after it belong to it.

use crate::json_message::Label;
use bc_word::Memory;
use serde_json::{Value, json};
use std::alloc::Global;

/// A line of a text that names a place.
#[derive(Clone, Copy)]
struct PlacedLine<'a> {
    file: &'a str,
    line: u64,
    column: u64,
    sentence: &'a str,
}

/// The place that a line names, and its sentence.
fn placed_line(line: &str) -> Option<PlacedLine<'_>> {
    let (place, sentence) = line.split_once(": ")?;
    let (place, column) = place.rsplit_once(':')?;
    let (file, number) = place.rsplit_once(':')?;
    Some(PlacedLine {
        file,
        line: number.parse::<u64>().ok()?,
        column: column.parse::<u64>().ok()?,
        sentence,
    })
}

/// What is to become an object.
#[derive(Drop)]
struct Entry<'a> {
    place: Option<PlacedLine<'a>>,
    /// The column after the place.
    end: u64,
    sentence: &'a str,
    help: Option<&'a str>,
    related: Vec<Value>,
    details: Vec<Value>,
}

impl<'a> Entry<'a> {
    /// An entry that begins with this line.
    fn new(alloc: Global, line: &'a str) -> Entry<'a> {
        let place = placed_line(line);
        Entry {
            place,
            end: match place {
                Some(placed) => placed.column,
                None => 0,
            },
            sentence: match place {
                Some(placed) => placed.sentence,
                None => line,
            },
            help: None,
            related: Vec::new(alloc),
            details: Vec::new(alloc),
        }
    }

    /// Takes the number of carets below the place.
    fn mark(&mut self, carets: u64) {
        if let Some(placed) = self.place
            && self.end == placed.column
        {
            self.end = placed.column.saturating_add(carets);
        }
    }

    /// Adds a related place.
    fn relate(&mut self, alloc: Global, placed: PlacedLine<'_>) -> Result<(), Memory> {
        let value = json!(in alloc; {
            "file": placed.file,
            "line": placed.line,
            "column": placed.column,
            "message": placed.sentence
        })?;
        Ok(self.related.push(value)?)
    }

    /// Adds a further line.
    fn add(&mut self, alloc: Global, line: &'a str) -> Result<(), Memory> {
        if let Some(help) = line.strip_prefix("  help: ") {
            self.help = Some(help);
            return Ok(());
        }
        if let Some(carets) = carets_of(line) {
            self.mark(carets);
            return Ok(());
        }
        if is_excerpt(line) {
            return Ok(());
        }
        match placed_line(line.trim_start()) {
            Some(placed) => self.relate(alloc, placed),
            None => Ok(self.details.push(json!(in alloc; line)?)?),
        }
    }

    /// The object.
    fn into_value(self, alloc: Global, label: Label<'_>) -> Result<Value, Memory> {
        let Entry {
            place,
            end,
            sentence,
            help,
            related,
            details,
        } = self;
        let help = match help {
            Some(help) => json!(in alloc; help)?,
            None => Value::Null,
        };
        let related = Value::from(related);
        let details = Value::from(details);
        let severity = label.severity.name();
        let code = label.code;
        let value = match place {
            Some(placed) => json!(in alloc; {
                "severity": severity,
                "code": code,
                "file": placed.file,
                "line": placed.line,
                "column": placed.column,
                "end": end,
                "message": sentence,
                "help": help,
                "related": related,
                "details": details
            })?,
            None => json!(in alloc; {
                "severity": severity,
                "code": code,
                "message": sentence,
                "help": help,
                "related": related,
                "details": details
            })?,
        };
        Ok(value)
    }
}

/// The number of carets, if the line is a mark below an excerpt.
fn carets_of(line: &str) -> Option<u64> {
    let mark = line.trim_start().strip_prefix('|')?.trim_start();
    for byte in mark.as_bytes() {
        if *byte != b'^' {
            return None;
        }
    }
    if mark.is_empty() {
        None
    } else {
        Some(mark.len() as u64)
    }
}

/// Whether the line is an excerpt: a number and a bar.
fn is_excerpt(line: &str) -> bool {
    match line.trim_start().split_once(" | ") {
        Some((number, _)) => number.parse::<u64>().is_ok(),
        None => false,
    }
}

/// Objects as they are being written.
#[derive(Drop)]
struct Objects<'a> {
    alloc: Global,
    label: Label<'a>,
    entry: Option<Entry<'a>>,
    lines: String,
}

impl<'a> Objects<'a> {
    /// Writes the current entry.
    fn flush(&mut self) -> Result<(), Memory> {
        if let Some(entry) = self.entry.take() {
            let value = entry.into_value(self.alloc, self.label)?;
            let line = value.to_string(self.alloc)?;
            self.add_object(line.as_str())?;
        }
        Ok(())
    }

    /// Adds the line of an object.
    fn add_object(&mut self, object: &str) -> Result<(), Memory> {
        self.lines.push_str(object)?;
        Ok(self.lines.push_str("\n")?)
    }

    /// Takes a line.
    fn take(&mut self, line: &'a str) -> Result<(), Memory> {
        if line.starts_with('{') {
            self.flush()?;
            return self.add_object(line);
        }
        let begins = !line.starts_with(' ') && placed_line(line).is_some();
        if begins || self.entry.is_none() {
            self.flush()?;
            self.entry = Some(Entry::new(self.alloc, line));
            return Ok(());
        }
        let alloc = self.alloc;
        match &mut self.entry {
            Some(entry) => entry.add(alloc, line),
            None => Ok(()),
        }
    }
}

/// The lines with the messages of a text as JSON objects. Lines that are objects already stay as they are. Returns
/// `Memory` if an allocation fails.
pub fn text_objects<'a>(alloc: Global, label: Label<'a>, text: &'a str) -> Result<String, Memory> {
    let mut objects = Objects {
        alloc,
        label,
        entry: None,
        lines: String::new(alloc),
    };
    for line in text.lines() {
        objects.take(line)?;
    }
    objects.flush()?;
    Ok(objects.lines)
}
