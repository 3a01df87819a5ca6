//! Where a session is, as text.

use crate::ending::end_words;
use crate::printout::Printout;
use crate::session::Session;
use crate::values::{add_bytes, add_cell};
use bc_interpret_record::Frame;
use bcpl_messages::Fill;
use bcpl_places::{Span, column_at, line_at};

/// The greatest number of characters of a command that are shown.
const MOST_SHOWN: usize = 70;

/// Appends the first line of these bytes, cut off if it is long.
fn add_line(out: &mut Printout, bytes: &[u8]) {
    for byte in bytes.iter().take(MOST_SHOWN) {
        match *byte {
            b'\n' | b'\r' => {
                out.text(" ..");
                return;
            }
            b'\t' => out.text(" "),
            byte => out.character(byte),
        }
    }
    if bytes.len() > MOST_SHOWN {
        out.text(" ..");
    }
}

/// The last byte before an offset that isn't a blank.
fn sign_before(text: &[u8], offset: usize) -> Option<u8> {
    let before = text.get(..offset)?;
    for byte in before.iter().rev() {
        if *byte != b' ' {
            return Some(*byte);
        }
    }
    None
}

/// The first byte from an offset on that isn't a blank.
fn sign_from(text: &[u8], offset: usize) -> Option<u8> {
    for byte in text.get(offset..)? {
        if *byte != b' ' {
            return Some(*byte);
        }
    }
    None
}

impl Session<'_, '_> {
    /// The number of the line at which a span begins.
    pub(crate) fn line_of(&self, span: Span) -> usize {
        let text = self.program.text(span.file);
        line_at(text, span.start.min(text.len())).number
    }

    /// Appends `FILE:LINE:COLUMN`.
    pub(crate) fn add_position(&self, out: &mut Printout, span: Span) {
        let text = self.program.text(span.file);
        let at = span.start.min(text.len());
        let line = line_at(text, at);
        let start = line.start.min(at);
        let Ok(column) = column_at(self.alloc, &text[start..], at - start) else {
            return out.refuse();
        };
        out.fill(
            "{}:{}:{}",
            &[
                Fill::Text(self.program.path(span.file)),
                Fill::Number(line.number as u64),
                Fill::Number(column as u64),
            ],
        );
    }

    /// Appends the name of a call's routine.
    pub(crate) fn add_routine(&self, out: &mut Printout, frame: Frame) {
        let routine = self.run.names.routine_at(frame.routine);
        match routine.and_then(|index| self.run.names.routines.get(index)) {
            Some(routine) => out.characters(routine.name),
            None => out.text("the library"),
        }
    }

    /// Appends the position and the text of a site's command.
    pub(crate) fn add_site(&self, out: &mut Printout, site: u32) {
        let span = match self.place(site) {
            Some(place) => place.span,
            None => None,
        };
        let Some(span) = span else {
            return out.text("at an unknown place");
        };
        self.add_position(out, span);
        let text = self.program.text(span.file);
        let is_later = sign_before(text, span.start) == Some(b',');
        out.text(if is_later { "  .., " } else { "  " });
        add_line(out, text.get(span.start..span.end).unwrap_or(b""));
        if sign_from(text, span.end) == Some(b',') {
            out.text(", ..");
        }
    }

    /// Appends the number of the stop with this index.
    pub(crate) fn add_number(&self, out: &mut Printout, at: usize) {
        let number = at
            .saturating_add(self.run.recording.dropped)
            .saturating_add(1);
        out.fill("#{} ", &[Fill::Number(number as u64)]);
    }

    /// Appends where the stop with this index is, whose newest call is this one.
    pub(crate) fn add_stop(&self, out: &mut Printout, at: usize, frame: Option<Frame>) {
        self.add_number(out, at);
        if let Some(frame) = frame {
            self.add_routine(out, frame);
            out.text(" ");
        }
        let stops = self.run.recording.stops.as_slice();
        let site = stops.get(at).map_or(u32::MAX, |stop| stop.site);
        self.add_site(out, site);
        out.text("\n");
    }

    /// Appends what the program wrote between two amounts of output.
    fn add_written(&self, out: &mut Printout, from: usize, to: usize) {
        let output = self.run.recording.output.as_slice();
        if let Some(bytes) = output.get(from..to)
            && !bytes.is_empty()
        {
            out.text("  wrote ");
            add_bytes(out, bytes);
            out.text("\n");
        }
    }

    /// Appends how the run ended.
    fn add_end(&self, out: &mut Printout) {
        self.add_number(out, self.moment.at);
        out.say(end_words(self.run.interpreted.outcome, self.run.mistake));
        out.text(self.run.end_lines.as_str());
    }

    /// Appends where the session is. `written` is the amount of output that was shown before.
    pub(crate) fn show(&self, out: &mut Printout, written: usize) {
        let now = self.stop().map_or(0, |stop| stop.output);
        self.add_written(out, written, now);
        if self.is_at_end() {
            self.add_end(out);
        } else {
            self.add_stop(out, self.moment.at, self.frame(0));
        }
    }

    /// Appends how a watched cell changed.
    pub(crate) fn add_change(&self, out: &mut Printout, at: usize, address: u16) {
        for change in self.run.recording.changes_of(at) {
            if change.address == address {
                add_cell(out, change.old);
                out.text(" -> ");
                add_cell(out, change.new);
            }
        }
    }
}
