//! The commands of the debugger that print: values, calls, names, lines and output.

use crate::breakpoints::{Breakpoint, Target};
use crate::commands::number_or;
use crate::evaluate::{EvaluationError, address_of, value_of};
use crate::names::GlobalName;
use crate::printout::Printout;
use crate::scope::Meaning;
use crate::session::Session;
use crate::values::{Format, add_cell, add_value, add_variable, format_of};
use crate::words::Word;
use bc_interpret_record::{Cell, NO_SITE};
use bcpl_messages::Fill;
use bcpl_places::line_at;

/// Appends a line about the cell at this address.
fn say_cell(out: &mut Printout, sentence: &str, address: u16) {
    out.fill(sentence, &[Fill::Number(u64::from(address))]);
}

/// Appends why an expression has no value.
pub(crate) fn add_error(out: &mut Printout, error: &EvaluationError) {
    match error {
        EvaluationError::Syntax => out.say("this isn't an expression"),
        EvaluationError::NoName(name) => out.fill(
            "{} isn't in scope\n",
            &[Fill::Text(name.as_str())],
        ),
        EvaluationError::NoSmallName(name, capitals) => out.fill(
            "{} isn't in scope; {} is\n",
            &[Fill::Text(name.as_str()), Fill::Text(capitals.as_str())],
        ),
        EvaluationError::Unset(address) => {
            say_cell(out, "the cell at {} was never set\n", *address)
        }
        EvaluationError::Dead(address) => say_cell(out, "no cell is at {}\n", *address),
        EvaluationError::ZeroDivide => out.say("this divides by 0"),
        EvaluationError::Calls => out.say(
            "calls, VALOF, TABLE and strings have no value here: the program would have to run",
        ),
        EvaluationError::NoCell => out.say(
            "@, watch and last take a name or an expression that has a cell",
        ),
        EvaluationError::Memory => out.refuse(),
    }
}

/// The format and the expression that an argument of `print` names.
fn asked_value(argument: &str) -> (Option<Format>, &str) {
    match argument.strip_prefix('/') {
        Some(rest) => match rest.split_once(' ') {
            Some((letter, text)) => (format_of(letter), text.trim()),
            None => (None, ""),
        },
        None => (Some(Format::Any), argument),
    }
}

impl Session<'_, '_> {
    /// Prints a variable that is named alone; false if the argument isn't one.
    fn print_variable(&self, argument: &str, out: &mut Printout) -> bool {
        let scope = self.scope();
        let Some((variable, address)) = scope.local(argument.as_bytes()) else {
            return false;
        };
        out.text(argument);
        out.text(" = ");
        add_variable(out, &scope, &variable, address);
        out.text("\n");
        true
    }

    /// Prints the value of an expression in this format.
    fn print_value(&self, text: &str, format: Format, out: &mut Printout) {
        match value_of(self.alloc, &self.scope(), text) {
            Ok(value) => {
                out.text(text);
                out.text(" = ");
                add_value(out, &self.scope(), value, format);
                out.text("\n");
            }
            Err(error) => add_error(out, &error),
        }
    }

    /// Prints the value of an expression.
    pub(crate) fn print(&self, argument: &str, out: &mut Printout) {
        let (format, text) = asked_value(argument);
        let Some(format) = format else {
            return out.say("print/F E: F is d, u, x, o, c, s, t or v");
        };
        if text.is_empty() {
            return out.say("an expression is expected, as in: print N+1");
        }
        if format == Format::Any && self.print_variable(text, out) {
            return;
        }
        self.print_value(text, format, out);
    }

    /// Appends the parameters of a call with their values.
    fn add_arguments(&self, out: &mut Printout, number: usize) {
        let scope = self.scope_of(number);
        out.text("(");
        let mut follows = false;
        for index in 0..scope.count() {
            if let Some((variable, address)) = scope.variable(index)
                && variable.is_parameter
            {
                out.text(if follows { ", " } else { "" });
                follows = true;
                out.characters(variable.name);
                out.text("=");
                add_cell(out, scope.cell(address));
            }
        }
        out.text(")");
    }

    /// Appends the call with this number.
    fn add_call(&self, out: &mut Printout, number: usize) {
        let Some(frame) = self.frame(number) else {
            return;
        };
        out.text(if number == self.selected { "*" } else { " " });
        out.number(number as u64);
        out.text(" ");
        self.add_routine(out, frame);
        self.add_arguments(out, number);
        if frame.site != NO_SITE {
            out.text(" at ");
            self.add_site(out, frame.site);
        }
        out.text("\n");
    }

    /// Prints the calls that the run is in, the newest first.
    pub(crate) fn backtrace(&self, out: &mut Printout) {
        let depth = self.depth();
        if depth == 0 {
            return out.say("the run is in no call");
        }
        for number in 0..depth.min(30) {
            self.add_call(out, number);
        }
        if depth > 30 {
            out.fill(" .. {} calls in all\n", &[Fill::Number(depth as u64)]);
        }
    }

    /// Selects a call.
    pub(crate) fn select(&mut self, word: Word, argument: &str, out: &mut Printout) {
        if self.depth() == 0 {
            return out.say("the run is in no call");
        }
        if word == Word::Down && self.selected == 0 {
            return out.say("this is the innermost call");
        }
        let wanted = match word {
            Word::Up => Some(self.selected.saturating_add(1)),
            Word::Down => Some(self.selected.saturating_sub(1)),
            _ => number_or(argument, self.selected),
        };
        match wanted {
            Some(number) if number < self.depth() => {
                self.selected = number;
                self.listed = 0;
                self.add_call(out, number);
            }
            _ if word == Word::Up => out.say("this is the outermost call"),
            _ => out.say("there is no such call; backtrace lists the calls"),
        }
    }

    /// Prints the names of the selected call.
    fn info_locals(&self, out: &mut Printout) {
        let scope = self.scope();
        let mut is_empty = true;
        for index in 0..scope.count() {
            if let Some((variable, address)) = scope.variable(index)
                && scope.address_of_local(variable.name) == Some(address)
            {
                out.characters(variable.name);
                out.text(" = ");
                add_variable(out, &scope, &variable, address);
                out.text("\n");
                is_empty = false;
            }
        }
        if is_empty {
            out.say("no variables are in scope");
        }
    }

    /// Appends a name with the value of its cell.
    fn add_named(&self, out: &mut Printout, name: &[u8], address: u16) {
        let scope = self.scope();
        out.characters(name);
        out.text(" = ");
        match scope.cell(address) {
            Cell::Set(word) => add_value(out, &scope, word, Format::Any),
            cell => add_cell(out, cell),
        }
        out.text("\n");
    }

    /// Whether a global is one to list: one that the program's own sources declare, for the first time, and that holds no routine.
    fn is_listed(&self, index: usize, found: &GlobalName<'_>) -> bool {
        let program = &self.program;
        let before = self.run.names.globals.get(..index).unwrap_or(&[]);
        let is_again = before.iter().any(|other| other.number == found.number
            && other.is_own(program));
        let holds_routine = match self.moment.cell(found.number.saturating_add(8)) {
            Cell::Set(word) => self.run.names.routine_at(word).is_some(),
            Cell::Unset | Cell::Dead => false,
        };
        found.is_own(program) && !is_again && !holds_routine
    }

    /// Prints the statics and globals that the program's own sources declare.
    fn info_globals(&self, out: &mut Printout) {
        for found in &self.run.names.statics {
            if !self.program.is_library(found.section) {
                self.add_named(out, found.name, found.address);
            }
        }
        for (index, found) in self.run.names.globals.iter().enumerate() {
            if self.is_listed(index, found) {
                self.add_named(out, found.name, found.number.saturating_add(8));
            }
        }
    }

    /// Prints the routines of the program's own sources.
    fn info_routines(&self, out: &mut Printout) {
        for routine in &self.run.names.routines {
            if !self.program.is_library(routine.section) {
                out.characters(routine.name);
                out.text(" ");
                if let Some(span) = routine.span {
                    self.add_position(out, span);
                }
                out.text("\n");
            }
        }
    }

    /// Prints the breakpoints.
    fn info_breakpoints(&self, out: &mut Printout) {
        if self.breakpoints.is_empty() {
            return out.say("there are no breakpoints");
        }
        for breakpoint in &self.breakpoints {
            self.add_breakpoint_line(out, breakpoint);
        }
    }

    /// Appends a breakpoint or a watch.
    fn add_breakpoint_line(&self, out: &mut Printout, breakpoint: &Breakpoint) {
        let kind = match &breakpoint.target {
            Target::Cell { .. } => "watch",
            _ => "break",
        };
        out.fill(
            "{} {} {}",
            &[
                Fill::Number(breakpoint.number as u64),
                Fill::Text(kind),
                Fill::Text(breakpoint.text.as_str()),
            ],
        );
        match &breakpoint.target {
            Target::Line { file, line, .. } => self.add_file_line(out, ", at ", *file, *line),
            Target::Routine(_) => {}
            Target::Cell { address, .. } => say_cell(out, ", the cell at {}", *address),
        }
        out.text("\n");
    }

    /// Appends the place of a breakpoint on a line, after this text.
    pub(crate) fn add_file_line(&self, out: &mut Printout, before: &str, file: usize, line: usize) {
        out.text(before);
        out.text(self.program.path(file));
        out.text(":");
        out.number(line as u64);
    }

    /// Prints what an argument of `info` names.
    pub(crate) fn info(&self, argument: &str, out: &mut Printout) {
        if argument.is_empty() {
            out.say("info breakpoints, info locals, info globals or info routines");
        } else if "breakpoints".starts_with(argument) {
            self.info_breakpoints(out);
        } else if "locals".starts_with(argument) {
            self.info_locals(out);
        } else if "globals".starts_with(argument) {
            self.info_globals(out);
        } else if "routines".starts_with(argument) {
            self.info_routines(out);
        } else {
            out.say("info breakpoints, info locals, info globals or info routines");
        }
    }

    /// The file and the line of the selected call.
    pub(crate) fn current_line(&self) -> Option<(usize, usize)> {
        let frame = self.frame(self.selected)?;
        let span = self.place(frame.site)?.span?;
        Some((span.file, self.line_of(span)))
    }

    /// The file and the line of the routine with this name.
    fn routine_line(&self, name: &str) -> Option<(usize, usize)> {
        let span = self
            .run
            .names
            .routines
            .get(self.routine_named(name)?)?
            .span?;
        Some((span.file, self.line_of(span)))
    }

    /// The file and the first line that `list` with this argument prints. Without one it goes on where it ended.
    fn lines_to_list(&self, argument: &str) -> Option<(usize, usize)> {
        if argument.is_empty() && self.listed > 0 {
            return Some((self.listed_file, self.listed));
        }
        let (file, current) = match self.current_line() {
            Some(place) => place,
            None => (self.program.library, 1),
        };
        let (file, line) = match number_or(argument, current) {
            Some(line) => (file, line),
            None => self.routine_line(argument)?,
        };
        Some((file, line.saturating_sub(5).max(1)))
    }

    /// Prints lines of the source around a line.
    pub(crate) fn list(&mut self, argument: &str, out: &mut Printout) {
        let Some((file, first)) = self.lines_to_list(argument) else {
            return out.fill(
                "there is no routine {}; list takes a line or a routine\n",
                &[Fill::Text(argument)],
            );
        };
        let count = lines_in(self.program.text(file));
        if first > count {
            return out.fill("there are {} lines\n", &[Fill::Number(count as u64)]);
        }
        let current = match self.current_line() {
            Some((here, current)) if here == file => current,
            _ => 0,
        };
        self.add_lines(out, file, first, current);
        self.listed = first.saturating_add(10);
        self.listed_file = file;
    }

    /// Appends ten lines of a source.
    fn add_lines(&self, out: &mut Printout, file: usize, first: usize, current: usize) {
        let text = self.program.text(file);
        let mut start = 0usize;
        for number in 1..first.saturating_add(10) {
            if start >= text.len() {
                return;
            }
            let line = line_at(text, start.min(text.len()));
            if number >= first {
                out.text(if number == current { "-> " } else { "   " });
                out.line_number(number);
                out.text("  ");
                add_source(out, text.get(start..line.end).unwrap_or(b""));
            }
            start = after_line(text, start);
        }
    }

    /// Prints what the program has written.
    pub(crate) fn output(&self, out: &mut Printout) {
        let count = self.stop().map_or(0, |stop| stop.output);
        let bytes = self.run.recording.output.get(..count).unwrap_or(b"");
        for byte in bytes {
            match *byte {
                b'\n' => out.text("\n"),
                b'\t' => out.text("\t"),
                byte => out.character(byte),
            }
        }
        match bytes.last() {
            Some(b'\n') | None => {}
            Some(_) => out.text("\n"),
        }
    }

    /// The address that an argument names: a number, or an expression with a cell. Says so if it names none.
    pub(crate) fn address(&self, argument: &str, out: &mut Printout) -> Option<u16> {
        if argument.is_empty() {
            out.say("a name or an address is expected");
            return None;
        }
        if let Ok(address) = argument.parse::<u16>() {
            return Some(address);
        }
        if let Some(Meaning::Cell(address)) = self.scope().meaning(argument.as_bytes()) {
            return Some(address);
        }
        match address_of(self.alloc, &self.scope(), argument) {
            Ok(address) => Some(address),
            Err(error) => {
                add_error(out, &error);
                None
            }
        }
    }

    /// The last stop up to here right before which the cell at this address changed.
    fn last_change(&self, address: u16) -> Option<usize> {
        for at in (1..=self.moment.at).rev() {
            let changes = self.run.recording.changes_of(at);
            if changes.iter().any(|change| change.address == address) {
                return Some(at);
            }
        }
        None
    }

    /// Says which command changed a cell last.
    pub(crate) fn last(&self, argument: &str, out: &mut Printout) {
        let Some(address) = self.address(argument, out) else {
            return;
        };
        match self.last_change(address) {
            Some(at) => {
                out.text(argument);
                out.text(" ");
                self.add_change(out, at, address);
                out.text(" by ");
                self.add_stop(out, self.writer_of(at, address), None);
            }
            None => out.say(if self.run.recording.dropped > 0 {
                "it wasn't changed since the recording begins"
            } else {
                "it wasn't changed since the start of the run"
            }),
        }
    }

    /// Says whether stepping goes into the library's routines.
    pub(crate) fn set_library(&mut self, argument: &str, out: &mut Printout) {
        match argument {
            "on" => self.enters_library = true,
            "off" => self.enters_library = false,
            "" => {}
            _ => return out.say("library on or library off"),
        }
        out.say(if self.enters_library {
            "step and next go into the library's routines"
        } else {
            "step and next go over the library's routines"
        });
    }

    /// Adds a line to the program's input.
    pub(crate) fn add_input(&mut self, argument: &str, out: &mut Printout) {
        let added = self.input.standard.extend_from_slice(argument.as_bytes());
        let ended = self.input.standard.push(b'\n');
        if added.is_err() || ended.is_err() {
            return out.refuse();
        }
        self.is_stale = true;
        out.say("the next run reads it; run starts again");
    }
}

/// The number of lines of a text.
fn lines_in(text: &[u8]) -> usize {
    let mut count: usize = 0;
    for byte in text {
        if *byte == b'\n' {
            count = count.saturating_add(1);
        }
    }
    match text.last() {
        Some(b'\n') | None => count,
        Some(_) => count.saturating_add(1),
    }
}

/// Appends a line of a source.
fn add_source(out: &mut Printout, line: &[u8]) {
    for byte in line {
        match *byte {
            b'\t' => out.text("    "),
            byte => out.character(byte),
        }
    }
    out.text("\n");
}

/// The offset after the line feed that ends the line at this offset.
fn after_line(text: &[u8], start: usize) -> usize {
    match text.iter().skip(start).position(|byte| *byte == b'\n') {
        Some(count) => start.saturating_add(count).saturating_add(1),
        None => text.len(),
    }
}
