//! The commands that add and delete breakpoints and watches.

use crate::asking::add_error;
use crate::breakpoints::{Breakpoint, Target};
use crate::commands::split_at_blank;
use crate::evaluate::value_of;
use crate::printout::Printout;
use crate::session::Session;
use bc_word::Memory;
use bcpl_messages::Fill;
use bcpl_places::line_at;

/// How many lines after the asked one are tried.
const MOST_LINES: usize = 20;

/// Whether a word is `if`, in small or capital letters.
fn is_if(word: &str) -> bool {
    matches!(word, "if" | "IF" | "If")
}

/// The place and the condition that an argument of `break` names. The place is empty if it names none. No condition if none follows `if`.
fn parts_of(argument: &str) -> (&str, Option<&str>) {
    let (place, rest) = split_at_blank(argument);
    let (word, condition) = split_at_blank(rest.trim());
    if is_if(place) {
        return ("", some_text(rest));
    }
    if is_if(word) {
        return (place, some_text(condition));
    }
    (argument, Some(""))
}

/// A text without the blanks around it, unless it is empty.
fn some_text(text: &str) -> Option<&str> {
    let text = text.trim();
    if text.is_empty() { None } else { Some(text) }
}

impl Session<'_, '_> {
    /// The file that a path names, or the end of one.
    fn file_named(&self, path: &str) -> Option<usize> {
        if path.is_empty() {
            return None;
        }
        for (index, known) in self.program.named.paths.iter().enumerate() {
            if *known == path || known.ends_with(path) {
                return Some(index);
            }
        }
        None
    }

    /// The file in which a breakpoint without a file is: that of the current line, or the first one that isn't the library's.
    fn file_here(&self) -> usize {
        match self.current_line() {
            Some((file, _)) if file >= self.program.library => file,
            _ => self.program.library,
        }
    }

    /// The sites of the first command on a line.
    fn sites_on(&self, file: usize, line: usize) -> Result<Vec<u32>, Memory> {
        let mut sites = Vec::new(self.alloc);
        let mut first = usize::MAX;
        let text = self.program.text(file);
        let mut number = 0u32;
        for place in &self.run.names.places {
            if let Some(span) = place.span
                && span.file == file
                && line_at(text, span.start.min(text.len())).number == line
                && span.start <= first
            {
                if span.start < first {
                    sites.clear();
                }
                first = span.start;
                sites.push(number)?;
            }
            number = number.saturating_add(1);
        }
        Ok(sites)
    }

    /// The first line from this one on that has a command, with its sites.
    fn line_with_command(&self, file: usize, line: usize) -> Result<Option<Target>, Memory> {
        for after in 0..MOST_LINES {
            let line = line.saturating_add(after);
            let sites = self.sites_on(file, line)?;
            if !sites.is_empty() {
                return Ok(Some(Target::Line { file, line, sites }));
            }
        }
        Ok(None)
    }

    /// The index of the routine with this name: of several that of the selected call's section, or else the first one that isn't the
    /// library's.
    pub(crate) fn routine_named(&self, name: &str) -> Option<usize> {
        let here = self.scope().section();
        let mut own = None;
        let mut other = None;
        for (index, routine) in self.run.names.routines.iter().enumerate() {
            if routine.name == name.as_bytes() {
                if Some(routine.section) == here {
                    return Some(index);
                }
                if self.program.is_library(routine.section) {
                    other = Some(index);
                } else if own.is_none() {
                    own = Some(index);
                }
            }
        }
        match own {
            Some(index) => Some(index),
            None => other,
        }
    }

    /// The index of the routine with this name that is declared in this file.
    fn routine_in(&self, file: usize, name: &str) -> Option<usize> {
        for (index, routine) in self.run.names.routines.iter().enumerate() {
            if let Some(span) = routine.span
                && span.file == file
                && routine.name == name.as_bytes()
            {
                return Some(index);
            }
        }
        None
    }

    /// Whether several routines of the program's own have the name of this one.
    fn has_namesake(&self, index: usize) -> bool {
        let routines = self.run.names.routines.as_slice();
        let Some(this) = routines.get(index) else {
            return false;
        };
        for (other, routine) in routines.iter().enumerate() {
            if other != index
                && routine.name == this.name
                && !self.program.is_library(routine.section)
            {
                return true;
            }
        }
        false
    }

    /// What a breakpoint on a line stops at. Says so if neither the line nor those after it have a command.
    fn line_target(&self, file: usize, line: usize, out: &mut Printout) -> Option<Target> {
        match self.line_with_command(file, line) {
            Ok(Some(target)) => Some(target),
            Ok(None) => {
                out.fill(
                    "no command is on line {} or the lines after it\n",
                    &[Fill::Number(line as u64)],
                );
                None
            }
            Err(_) => {
                out.refuse();
                None
            }
        }
    }

    /// What a breakpoint stops at that names no place: the current line, in whatever file it is.
    fn target_here(&self, out: &mut Printout) -> Option<Target> {
        match self.current_line() {
            Some((file, line)) => self.line_target(file, line, out),
            None => {
                out.say("a line or a routine is expected, as in: break 12");
                None
            }
        }
    }

    /// What a breakpoint on a line of a file stops at, if there is such a file.
    fn file_target(&self, file: Option<usize>, line: usize, out: &mut Printout) -> Option<Target> {
        match file {
            Some(file) => self.line_target(file, line, out),
            None => {
                out.say("no source has this name");
                None
            }
        }
    }

    /// What a breakpoint on this routine stops at; `name` is what was asked for.
    fn routine_target(
        &self,
        index: Option<usize>,
        name: &str,
        out: &mut Printout,
    ) -> Option<Target> {
        match index.and_then(|index| self.run.names.routines.get(index)) {
            Some(routine) => Some(Target::Routine(routine.address)),
            None => {
                out.fill(
                    "there is no routine {}; break takes a line, FILE:LINE or a routine\n",
                    &[Fill::Text(name)],
                );
                None
            }
        }
    }

    /// What a breakpoint stops at, given its place.
    fn target(&self, text: &str, out: &mut Printout) -> Option<Target> {
        if text.is_empty() {
            return self.target_here(out);
        }
        let (file, line) = match text.rsplit_once(':') {
            Some((path, line)) => (self.file_named(path), line),
            None => (Some(self.file_here()), text),
        };
        if let Ok(line) = line.parse::<usize>() {
            return self.file_target(file, line, out);
        }
        let index = match file {
            Some(file) if line.len() < text.len() => self.routine_in(file, line),
            _ => self.routine_named(text),
        };
        self.routine_target(index, text, out)
    }

    /// Whether a condition is an expression that the debugger can compute. If it isn't, says why. Whether its names are in scope, and its
    /// cells set, is seen only where the breakpoint is reached.
    fn is_condition(&self, condition: &str, out: &mut Printout) -> bool {
        if condition.is_empty() {
            return true;
        }
        match value_of(self.alloc, &self.scope_of(0), condition) {
            Ok(_) => true,
            Err(error) => {
                let is_lasting = error.is_lasting();
                if is_lasting {
                    add_error(out, &error);
                }
                !is_lasting
            }
        }
    }

    /// Appends why a condition has no value here, if it has none: a breakpoint stops then, too.
    pub(crate) fn add_condition_error(&self, out: &mut Printout, condition: &str) {
        if condition.is_empty() {
            return;
        }
        match value_of(self.alloc, &self.scope_of(0), condition) {
            Ok(_) => {}
            Err(error) => {
                out.text("its condition has no value here: ");
                add_error(out, &error);
            }
        }
    }

    /// How a breakpoint is shown: as it was asked for, or by its line if nothing was named.
    fn text_of(&self, argument: &str, target: &Target) -> Result<String, Memory> {
        let alloc = self.alloc;
        match target {
            Target::Line { line, .. } if argument.is_empty() => Ok(format!(in alloc; "{line}")?),
            _ => Ok(String::from_str(alloc, argument)?),
        }
    }

    /// Appends where a routine is declared, if others have its name.
    fn add_place_if_ambiguous(&self, out: &mut Printout, address: u16) {
        let Some(index) = self.run.names.routine_at(address) else {
            return;
        };
        if self.has_namesake(index)
            && let Some(routine) = self.run.names.routines.get(index)
            && let Some(span) = routine.span
        {
            self.add_file_line(out, " at ", span.file, self.line_of(span));
        }
    }

    /// Appends a breakpoint that is added.
    fn add_added(&self, out: &mut Printout, text: &str, target: &Target) {
        out.fill(
            "breakpoint {}: {}",
            &[Fill::Number(self.next_number as u64), Fill::Text(text)],
        );
        match target {
            Target::Line { file, line, .. } => self.add_file_line(out, " at ", *file, *line),
            Target::Routine(address) => self.add_place_if_ambiguous(out, *address),
            Target::Cell { .. } => {}
        }
        out.text("\n");
    }

    /// Adds a breakpoint: on the current line if the argument names no place. It says so if `tells`.
    pub(crate) fn add_breakpoint(&mut self, argument: &str, out: &mut Printout, tells: bool) {
        let (place, condition) = parts_of(argument);
        let Some(condition) = condition else {
            return out.say("an expression is expected after if, as in: break 12 if N > 3");
        };
        if !self.is_condition(condition, out) {
            return;
        }
        let Some(target) = self.target(place, out) else {
            return;
        };
        let Ok(text) = self.text_of(argument, &target) else {
            return out.refuse();
        };
        if tells {
            self.add_added(out, text.as_str(), &target);
        }
        self.keep(target, text.as_str(), condition, out);
    }

    /// Keeps a breakpoint.
    fn keep(&mut self, target: Target, text: &str, condition: &str, out: &mut Printout) {
        let number = self.next_number;
        match self.kept(target, text, condition) {
            Ok(()) => self.next_number = number.saturating_add(1),
            Err(_) => out.refuse(),
        }
    }

    /// Adds a breakpoint to the list.
    fn kept(&mut self, target: Target, text: &str, condition: &str) -> Result<(), Memory> {
        let text = String::from_str(self.alloc, text)?;
        let condition = String::from_str(self.alloc, condition)?;
        Ok(
            self.breakpoints.push(Breakpoint {
                number: self.next_number,
                target,
                text,
                condition,
            })?,
        )
    }

    /// Adds a watch.
    pub(crate) fn watch(&mut self, argument: &str, out: &mut Printout) {
        let Some(address) = self.address(argument, out) else {
            return;
        };
        out.fill(
            "watch {}: {}, the cell at {}\n",
            &[
                Fill::Number(self.next_number as u64),
                Fill::Text(argument),
                Fill::Number(u64::from(address)),
            ],
        );
        let owner = match self.scope().local(argument.as_bytes()) {
            Some(_) => self.frame(self.selected),
            None => None,
        };
        self.keep(Target::Cell { address, owner }, argument, "", out);
    }

    /// Deletes the breakpoint with the number that a word is.
    fn delete_one(&mut self, word: &str, out: &mut Printout) {
        let number = word.parse::<usize>().ok();
        let index = self
            .breakpoints
            .iter()
            .position(|breakpoint| Some(breakpoint.number) == number);
        match index {
            Some(index) => {
                if index < self.breakpoints.len() {
                    let _deleted = self.breakpoints.remove(index);
                }
            }
            None => out.fill(
                "there is no breakpoint {}; info breakpoints lists them\n",
                &[Fill::Text(word)],
            ),
        }
    }

    /// Deletes breakpoints by their numbers, or all of them.
    pub(crate) fn delete(&mut self, argument: &str, out: &mut Printout) {
        if argument.is_empty() {
            let had_none = self.breakpoints.is_empty();
            self.breakpoints.clear();
            return out.say(if had_none {
                "there are no breakpoints"
            } else {
                "all breakpoints are deleted"
            });
        }
        let mut rest = argument;
        for _each in 0..argument.len() {
            if rest.is_empty() {
                return;
            }
            let (word, following) = split_at_blank(rest);
            self.delete_one(word, out);
            rest = following.trim();
        }
    }
}
