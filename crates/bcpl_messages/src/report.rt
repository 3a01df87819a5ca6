//! A message as lines of text, with excerpts of the sources.

use crate::draft::{Fill, add_sentence};
use crate::message::{Message, Note};
use bc_lex::Source;
use bc_word::Memory;
use bcpl_places::{Excerpt, LineIndex, Span, column_at, way_to};
use std::alloc::Global;

/// The sources of a program, with the paths under which they are printed.
#[derive(Clone, Copy)]
pub struct Named<'a, 's> {
    /// All sources.
    pub sources: &'a [Source<'s>],
    /// The path of each source, in the order of `sources`.
    pub paths: &'a [&'a str],
}

impl<'a, 's> Named<'a, 's> {
    /// The text of a source; empty if there is no such source.
    fn text(&self, file: usize) -> &'s [u8] {
        match self.sources.get(file) {
            Some(source) => source.text,
            None => b"",
        }
    }

    /// The path of a source; empty if there is none.
    fn path(&self, file: usize) -> &'a str {
        match self.paths.get(file) {
            Some(path) => path,
            None => "",
        }
    }
}

/// The printed lines, as they are being built.
#[derive(Drop)]
struct MessageLines<'a, 's> {
    alloc: Global,
    named: Named<'a, 's>,
    lines: String,
}

impl MessageLines<'_, '_> {
    /// Appends a sentence in which each `{}` is replaced by the next of these parts.
    fn say(&mut self, sentence: &str, parts: &[Fill<'_>]) -> Result<(), Memory> {
        add_sentence(&mut self.lines, sentence, parts)
    }

    /// Appends `PATH:LINE:COLUMN: `.
    fn add_position(&mut self, index: &mut LineIndex, span: Span) -> Result<(), Memory> {
        let text = self.named.text(span.file);
        let at = span.start.min(text.len());
        let line = index.line(self.alloc, span.file, text, at)?;
        let start = line.start.min(at);
        let column = column_at(self.alloc, &text[start..], at - start)?;
        let path = self.named.path(span.file);
        self.say(
            "{}:{}:{}: ",
            &[
                Fill::Text(path),
                Fill::Number(line.number as u64),
                Fill::Number(column as u64),
            ],
        )
    }

    /// Appends the line of a span, with a mark below it.
    fn add_excerpt(&mut self, index: &mut LineIndex, span: Span) -> Result<(), Memory> {
        let text = self.named.text(span.file);
        let line = index.line(self.alloc, span.file, text, span.start)?;
        let excerpt = Excerpt::new(self.alloc, text, line, span.start, span.end)?;
        writeln!(self.lines, "{excerpt}")?;
        Ok(())
    }

    /// Appends a position with a sentence, and the line there.
    fn add_place(
        &mut self,
        index: &mut LineIndex,
        span: Span,
        sentence: &str,
    ) -> Result<(), Memory> {
        self.add_position(index, span)?;
        self.say("{}\n", &[Fill::Text(sentence)])?;
        self.add_excerpt(index, span)
    }

    /// Appends the line for a GET that led to a file.
    fn add_get(&mut self, index: &mut LineIndex, get: Span) -> Result<(), Memory> {
        let text = self.named.text(get.file);
        let line = index.line(self.alloc, get.file, text, get.start)?;
        let path = self.named.path(get.file);
        self.say(
            "  GET from {}:{}\n",
            &[Fill::Text(path), Fill::Number(line.number as u64)],
        )
    }

    /// Appends these GETs.
    fn add_gets(&mut self, index: &mut LineIndex, gets: &[Span]) -> Result<(), Memory> {
        for get in gets {
            self.add_get(index, *get)?;
        }
        Ok(())
    }

    /// Appends the GETs that led from a main to a file.
    fn add_way(&mut self, index: &mut LineIndex, main: usize, file: usize) -> Result<(), Memory> {
        if main == file {
            return Ok(());
        }
        let way = way_to(self.alloc, self.named.sources, main, file)?;
        self.add_gets(index, way.as_slice())
    }

    /// Appends what is wrong, with its position if it has one.
    fn add_first(&mut self, index: &mut LineIndex, message: &Message) -> Result<(), Memory> {
        let sentence = message.sentence.as_str();
        match message.span {
            Some(span) => {
                self.add_place(index, span, sentence)?;
                self.add_way(index, message.main, span.file)
            }
            None => self.say("{}\n", &[Fill::Text(sentence)]),
        }
    }

    /// Appends a related place.
    fn add_note(&mut self, index: &mut LineIndex, note: &Note) -> Result<(), Memory> {
        self.say("  ", &[])?;
        self.add_place(index, note.span, note.sentence.as_str())
    }

    /// Appends the help, if there is one.
    fn add_help(&mut self, help: &Option<String>) -> Result<(), Memory> {
        match help {
            Some(help) => self.say("  help: {}\n", &[Fill::Text(help.as_str())]),
            None => Ok(()),
        }
    }

    /// Appends all lines of a message.
    fn add_all(&mut self, index: &mut LineIndex, message: &Message) -> Result<(), Memory> {
        self.add_first(index, message)?;
        for note in &message.notes {
            self.add_note(index, note)?;
        }
        self.add_help(&message.help)
    }
}

/// The lines of a message: position and sentence, the source line with a mark, the GETs that led there, related places,
/// and the help. Returns `Memory` if an allocation fails.
pub fn message_lines(
    alloc: Global,
    named: Named<'_, '_>,
    message: &Message,
) -> Result<String, Memory> {
    let mut index = LineIndex::new(alloc);
    message_lines_by(alloc, named, &mut index, message)
}

/// The same for one of several messages. The index has the lines of these sources.
pub fn message_lines_by(
    alloc: Global,
    named: Named<'_, '_>,
    index: &mut LineIndex,
    message: &Message,
) -> Result<String, Memory> {
    let mut all = MessageLines {
        alloc,
        named,
        lines: String::new(alloc),
    };
    all.add_all(index, message)?;
    Ok(all.lines)
}
