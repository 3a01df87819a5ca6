//! The commands of the debugger that move, and the call that runs one command.

use crate::breakpoints::Target;
use crate::moving::{Aim, Halt, Way};
use crate::printout::Printout;
use crate::session::{Session, SessionError};
use crate::words::{WORDS, Word, WordSpec, word_like, word_of};
use bc_word::Memory;
use bcpl_messages::Fill;
use std::alloc::Global;

/// What follows a command.
#[derive(Clone, Copy, Debug, PartialEq, Eq)]
pub enum Flow {
    /// The next command.
    On,
    /// Nothing: the session is over.
    Quit,
}

/// The number that an argument is; `otherwise` if there is none.
pub(crate) fn number_or(argument: &str, otherwise: usize) -> Option<usize> {
    if argument.is_empty() {
        return Some(otherwise);
    }
    argument.parse::<usize>().ok()
}

/// How often a command is to move: the number that its argument is, at least 1, or once if there is none.
fn count_of(argument: &str) -> Option<usize> {
    match number_or(argument, 1) {
        Some(count) if count > 0 => Some(count),
        _ => None,
    }
}

/// Appends a command with its short forms and what follows it, and from column 32 on what it does: in the next line if the command is too
/// long.
fn add_help(alloc: Global, out: &mut Printout, spec: &WordSpec) {
    let mut names = Printout::new(alloc);
    let mut follows = false;
    for name in spec.names {
        names.text(if follows { ", " } else { "" });
        names.text(*name);
        follows = true;
    }
    if !spec.arguments.is_empty() {
        names.text(" ");
        names.text(spec.arguments);
    }
    let Ok(names) = names.finish() else {
        return out.refuse();
    };
    if names.len() < 32 {
        out.column(names.as_str());
    } else {
        out.say(names.as_str());
        out.column("");
    }
    out.say(spec.help);
}

/// The text before the first blank or tab, and the text after it.
pub(crate) fn split_at_blank(line: &str) -> (&str, &str) {
    match (line.split_once(' '), line.split_once('\t')) {
        (Some(blank), Some(tab)) if tab.0.len() < blank.0.len() => tab,
        (Some(parts), _) => parts,
        (None, Some(parts)) => parts,
        (None, None) => (line, ""),
    }
}

/// A command and what follows it: its argument, or its format and its argument.
fn split(line: &str) -> (&str, &str) {
    let (head, rest) = split_at_blank(line);
    let argument = rest.trim();
    match head.split_once('/') {
        Some((word, _)) => (word, line.strip_prefix(word).unwrap_or("")),
        None => (head, argument),
    }
}

/// Appends which commands a cut off name may be, or that it is none.
fn add_unknown(out: &mut Printout, name: &str) {
    let mut follows = false;
    for spec in &WORDS {
        if let Some(full) = spec.name_like(name) {
            out.text(if follows { ", " } else { name });
            out.text(if follows { "" } else { " is ambiguous: " });
            out.text(full);
            follows = true;
        }
    }
    if follows {
        out.text("\n");
    } else {
        out.fill(
            "there is no command {}; help lists the commands\n",
            &[Fill::Text(name)],
        );
    }
}

/// Whether a command goes on in the run, which nothing can at its end.
fn goes_on(word: Word) -> bool {
    matches!(
        word,
        Word::Continue | Word::Step | Word::Next | Word::Finish | Word::Until
    )
}

impl Session<'_, '_> {
    /// The amount of output at the stop.
    fn written(&self) -> usize {
        self.stop().map_or(0, |stop| stop.output)
    }

    /// Appends how a watched cell changed, where a watch ended a move.
    fn add_watched(&self, out: &mut Printout, address: u16, way: Way) {
        let at = match way {
            Way::Forward => self.moment.at,
            Way::Back => self.moment.at.saturating_add(1),
        };
        out.text(" ");
        self.add_change(out, at, address);
        out.text("\n");
    }

    /// Appends which breakpoint ended a move.
    fn add_hit(&self, out: &mut Printout, index: usize, way: Way) {
        let Some(breakpoint) = self.breakpoints.get(index) else {
            return;
        };
        let kind = match &breakpoint.target {
            Target::Cell { .. } => "watch",
            _ => "breakpoint",
        };
        out.fill(
            "{} {}: {}",
            &[
                Fill::Text(kind),
                Fill::Number(breakpoint.number as u64),
                Fill::Text(breakpoint.text.as_str()),
            ],
        );
        match &breakpoint.target {
            Target::Cell { address, .. } => self.add_watched(out, *address, way),
            _ => {
                out.text("\n");
                self.add_condition_error(out, breakpoint.condition.as_str());
            }
        }
    }

    /// Moves until the aim or a breakpoint is reached.
    fn travelled(&mut self, way: Way, aim: Aim, out: &mut Printout) -> Halt {
        match self.travel(way, aim) {
            Ok(halt) => halt,
            Err(_) => {
                out.refuse();
                Halt::Edge
            }
        }
    }

    /// Moves, and says where the session is then.
    fn moved(&mut self, way: Way, aim: Aim, out: &mut Printout) {
        let before = self.written();
        let halt = self.travelled(way, aim, out);
        self.arrive(halt, way, before, out);
    }

    /// Says what ended a move, and where the session is. `before` is the amount of output before the move.
    fn arrive(&mut self, halt: Halt, way: Way, before: usize, out: &mut Printout) {
        self.listed = 0;
        match halt {
            Halt::Breakpoint(index) => self.add_hit(out, index, way),
            Halt::Edge if way == Way::Back => self.add_edge(out),
            Halt::Edge | Halt::Aim => {}
        }
        let written = match way {
            Way::Forward => before,
            Way::Back => self.written(),
        };
        self.show(out, written);
    }

    /// Goes on this way to a breakpoint, as often as the argument says.
    fn went_on(&mut self, way: Way, argument: &str, out: &mut Printout) {
        let Some(count) = count_of(argument) else {
            return out.say("a number from 1 on is expected, as in: continue 3");
        };
        let before = self.written();
        let mut last = Halt::Aim;
        for _each in 0..count {
            last = self.travelled(way, Aim::Breakpoint, out);
            if matches!(last, Halt::Edge) {
                break;
            }
        }
        self.arrive(last, way, before, out);
    }

    /// Appends how many stops before the recording were dropped, if any were.
    fn add_dropped(&self, out: &mut Printout) {
        let dropped = self.run.recording.dropped;
        if dropped > 0 {
            out.fill(
                "the recording begins at #{}: {} stops before it were dropped\n",
                &[
                    Fill::Number(dropped.saturating_add(1) as u64),
                    Fill::Number(dropped as u64),
                ],
            );
        }
    }

    /// Appends that the recording begins here.
    fn add_edge(&self, out: &mut Printout) {
        if self.run.recording.dropped == 0 {
            out.say("this is the start of the run");
        } else {
            self.add_dropped(out);
        }
    }

    /// Moves `count` times; a breakpoint ends it.
    fn move_times(&mut self, way: Way, is_over: bool, count: usize, out: &mut Printout) {
        let before = self.written();
        let mut last = Halt::Aim;
        for _each in 0..count {
            let aim = if is_over {
                Aim::Within(self.depth())
            } else {
                Aim::Any
            };
            last = self.travelled(way, aim, out);
            if !matches!(last, Halt::Aim) {
                break;
            }
        }
        self.arrive(last, way, before, out);
    }

    /// Moves as a stepping command says.
    fn stepped(&mut self, word: Word, argument: &str, out: &mut Printout) {
        let Some(count) = count_of(argument) else {
            return out.say("a number from 1 on is expected, as in: step 3");
        };
        match word {
            Word::Step => self.move_times(Way::Forward, false, count, out),
            Word::Next => self.move_times(Way::Forward, true, count, out),
            Word::ReverseStep => self.move_times(Way::Back, false, count, out),
            _ => self.move_times(Way::Back, true, count, out),
        }
    }

    /// Moves until the current call is left.
    fn left(&mut self, way: Way, out: &mut Printout) {
        let within = self.depth().saturating_sub(self.selected).saturating_sub(1);
        self.moved(way, Aim::Within(within), out);
    }

    /// Starts again, and says if that fails.
    fn started(&mut self, out: &mut Printout) -> bool {
        match self.restart() {
            Ok(()) => {
                self.listed = 0;
                self.add_dropped(out);
                true
            }
            Err(SessionError::Memory) => {
                out.refuse();
                false
            }
            Err(SessionError::Differs | SessionError::Streams(_)) => {
                out.say("the run can't be recorded: two runs differ, which is a mistake in bcpl");
                false
            }
        }
    }

    /// Runs from the start to the first breakpoint or the end.
    fn ran(&mut self, out: &mut Printout) {
        if !self.started(out) {
            return;
        }
        match self.hit(Way::Forward) {
            Some(index) => {
                self.add_hit(out, index, Way::Forward);
                self.show(out, 0);
            }
            None => self.moved(Way::Forward, Aim::Breakpoint, out),
        }
    }

    /// Goes to the first command.
    fn begun(&mut self, out: &mut Printout) {
        if !self.started(out) {
            return;
        }
        let is_shown = match self.stop() {
            Some(stop) => self.is_shown(stop.site, self.enters_library),
            None => false,
        };
        if is_shown || self.is_at_end() {
            self.show(out, 0);
        } else {
            self.moved(Way::Forward, Aim::Any, out);
        }
    }

    /// Goes to the stop with this number, if there is one.
    fn went_to_number(&mut self, number: usize, out: &mut Printout) {
        let dropped = self.run.recording.dropped;
        let first = dropped.saturating_add(1);
        let last = dropped.saturating_add(self.run.recording.stops.len());
        if number < first || number > last {
            return out.fill(
                "the stops are {} to {}\n",
                &[Fill::Number(first as u64), Fill::Number(last as u64)],
            );
        }
        if self.go_to(number.saturating_sub(first)).is_err() {
            out.refuse();
        }
        let written = self.written();
        self.show(out, written);
    }

    /// Goes to the stop with the number that an argument is.
    fn went_to(&mut self, argument: &str, out: &mut Printout) {
        let digits = argument.strip_prefix('#').unwrap_or(argument);
        match digits.parse::<usize>() {
            Ok(number) => self.went_to_number(number, out),
            Err(_) => out.say("the number of a stop is expected, as in: goto 12"),
        }
    }

    /// Runs a command that moves.
    fn move_as(&mut self, word: Word, argument: &str, out: &mut Printout) {
        if goes_on(word) && self.is_at_end() {
            return out.say("this is the end of the run; reverse-step goes back, run starts again");
        }
        match word {
            Word::Run => self.ran(out),
            Word::Start => self.begun(out),
            Word::Continue => self.went_on(Way::Forward, argument, out),
            Word::ReverseContinue => self.went_on(Way::Back, argument, out),
            Word::Finish => self.left(Way::Forward, out),
            Word::ReverseFinish => self.left(Way::Back, out),
            Word::Until => self.ran_until(argument, out),
            Word::Goto => self.went_to(argument, out),
            _ => self.stepped(word, argument, out),
        }
    }

    /// Goes on to a line.
    fn ran_until(&mut self, argument: &str, out: &mut Printout) {
        if argument.is_empty() {
            return out.say("a line is expected, as in: until 12");
        }
        let count = self.breakpoints.len();
        self.add_breakpoint(argument, out, false);
        if self.breakpoints.len() == count {
            return;
        }
        let before = self.written();
        let halt = match self.travelled(Way::Forward, Aim::Site(count), out) {
            Halt::Breakpoint(index) if index >= count => Halt::Aim,
            halt => halt,
        };
        let _removed = self.breakpoints.pop();
        self.next_number = self.next_number.saturating_sub(1);
        self.arrive(halt, Way::Forward, before, out);
    }

    /// Appends the commands.
    fn help(&self, out: &mut Printout) {
        for spec in &WORDS {
            add_help(self.alloc, out, spec);
        }
        out.say("An empty line repeats the command before.");
    }

    /// Appends how long the recorded run is.
    fn add_length(&self, out: &mut Printout) {
        let dropped = self.run.recording.dropped;
        let count = self.run.recording.stops.len();
        let all = dropped.saturating_add(count);
        out.fill("The run has {} stops", &[Fill::Number(all as u64)]);
        if dropped > 0 {
            out.fill("; the last {} are recorded", &[Fill::Number(count as u64)]);
        }
        out.say(". Type run or start to begin, help for the commands.");
    }

    /// Says how long the recorded run is. It is printed when a session begins at a terminal.
    ///
    /// `Memory` if an allocation fails.
    pub fn greet(&self, out: &mut String) -> Result<(), Memory> {
        let mut printout = Printout::new(self.alloc);
        self.add_length(&mut printout);
        let text = printout.finish()?;
        Ok(out.push_str(text.as_str())?)
    }

    /// Runs a command.
    fn obey(&mut self, word: Word, argument: &str, out: &mut Printout) -> Flow {
        match word {
            Word::Quit => return Flow::Quit,
            Word::Help => self.help(out),
            Word::Break => self.add_breakpoint(argument, out, true),
            Word::Watch => self.watch(argument, out),
            Word::Delete => self.delete(argument, out),
            Word::Info => self.info(argument, out),
            Word::Print => self.print(argument, out),
            Word::Backtrace => self.backtrace(out),
            Word::Frame | Word::Up | Word::Down => self.select(word, argument, out),
            Word::List => self.list(argument, out),
            Word::Output => self.output(out),
            Word::Last => self.last(argument, out),
            Word::Input => self.add_input(argument, out),
            Word::Library => self.set_library(argument, out),
            _ => self.move_as(word, argument, out),
        }
        Flow::On
    }

    /// Runs a line that has a command.
    fn obey_line(&mut self, line: &str, out: &mut Printout) -> Flow {
        let (name, argument) = split(line);
        let word = match word_of(name) {
            Some(word) => Some(word),
            None => word_like(name),
        };
        match word {
            Some(word) => self.obey(word, argument, out),
            None => {
                add_unknown(out, name);
                Flow::On
            }
        }
    }

    /// Runs a line that has a command, and appends what it prints.
    fn answer(&mut self, line: &str, out: &mut String) -> Result<Flow, Memory> {
        let mut printout = Printout::new(self.alloc);
        let flow = self.obey_line(line, &mut printout);
        let text = printout.finish()?;
        out.push_str(text.as_str())?;
        Ok(flow)
    }

    /// Runs a command, and appends what it prints. An empty line repeats the command before; a line that begins with `#` is a comment.
    ///
    /// `Memory` if an allocation fails.
    pub fn command(&mut self, line: &str, out: &mut String) -> Result<Flow, Memory> {
        let line = line.trim();
        if line.starts_with('#') {
            return Ok(Flow::On);
        }
        if !line.is_empty() {
            self.repeated = String::from_str(self.alloc, line)?;
            return self.answer(line, out);
        }
        let again = String::from_str(self.alloc, self.repeated.as_str())?;
        if again.is_empty() {
            return Ok(Flow::On);
        }
        self.answer(again.as_str(), out)
    }
}
