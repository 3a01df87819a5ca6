//! Tries the cases in the files that its arguments name, and reports those whose answer isn't the expected one.
#![tactic(auto)]

mod answer;
mod answers;
mod arithmetic;
mod case;
mod derivations;
mod escapes;
mod expressions;
mod growth;
mod linking;
mod machines;
mod number;
mod rules;
mod streams;
mod sweeps;
mod tokens;

use crate::answer::Answer;
use crate::answers::add_answer;
use crate::case::{Case, belongs, is_silent};
use crate::escapes::expanded;
use crate::number::count;
use std::{env, fs, io};

/// Whether an answer is the expected one, as it is written or with its escapes and repetitions expanded.
fn is_wanted(found: &mut Answer, case: &Case) -> bool {
    let wanted = case.wanted();
    if found.text() == wanted {
        return true;
    }
    let wanted = expanded(&mut found.growth, wanted);
    found.text().as_bytes() == wanted.as_slice()
}

/// Computes the answer of a case into `found`, and returns whether it is the expected one.
fn is_answered(found: &mut Answer, case: &Case) -> bool {
    add_answer(found, case.kind.as_str(), case.input.as_str());
    is_wanted(found, case)
}

/// The number of cases of a file, how many of them have another answer than expected, and the lines about those.
#[derive(Drop)]
struct Report {
    cases: u64,
    differ: u64,
    lines: Answer,
}

impl Report {
    /// Reports the answer of a case that isn't the expected one, after `between`.
    fn tell(&mut self, case: &Case, between: &str, found: &str) {
        count(&mut self.differ);
        self.lines.say(case.kind.as_str());
        self.lines.say(", ");
        self.lines.say(case.name.as_str());
        self.lines.say(":");
        self.lines.say(between);
        self.lines.say(found);
        self.lines.say("\n");
    }

    /// Tries a case, and reports its answer if it isn't the expected one, or that memory ran out.
    fn try_case(&mut self, case: &Case) {
        count(&mut self.cases);
        let mut found = Answer::new(self.lines.alloc());
        let is_answered = is_answered(&mut found, case);
        if case.is_refused() || found.growth.is_refused() {
            self.tell(case, " ", "no memory");
        } else if !is_answered {
            self.tell(case, "\n", found.text());
        }
    }

    /// Tries the current case, if there is one.
    fn end_case(&mut self, case: &Case) {
        if case.is_begun {
            self.try_case(case);
        }
    }

    /// Takes a line that begins a case or a kind of cases, which ends the current case.
    fn begin(&mut self, case: &mut Case, line: &str) {
        self.end_case(case);
        case.begin(line);
    }

    /// Takes the next line of a file.
    fn read(&mut self, case: &mut Case, line: &str) {
        if is_silent(line) {
            return;
        }
        if belongs(line) {
            case.add(line);
        } else {
            self.begin(case, line);
        }
    }

    /// Tries the cases of a text.
    fn try_cases(&mut self, text: &str) {
        let mut case = Case::new(self.lines.alloc());
        for line in text.lines() {
            self.read(&mut case, line);
        }
        self.end_case(&case);
    }

    /// The lines about cases with another answer, or a line that there was no memory for them.
    fn told(&self) -> &str {
        if self.lines.growth.is_refused() {
            "no memory\n"
        } else {
            self.lines.text()
        }
    }
}

/// Tries the cases of a file, and prints how many there are and how many have another answer than expected. Returns the error if the
/// file can't be read or the output fails.
fn try_file(rt: &HostRuntime, path: &str) -> io::Result<()> {
    let text = fs::read_to_string(rt, path)?;
    let mut report = Report {
        cases: 0,
        differ: 0,
        lines: Answer::new(rt.alloc()),
    };
    report.try_cases(text.as_str());
    let cases = report.cases;
    let differ = report.differ;
    let lines = report.told();
    println!(rt; "{lines}{path}: {cases} cases, {differ} of them answer otherwise")
}

/// Tries the files of cases that the arguments name, one after another. Returns the error of the first file that can't be read.
fn main(rt: HostRuntime) -> io::Result<()> {
    let paths: Vec<String> = env::args(&rt)?.skip(1).collect(rt.alloc())?;
    for path in &paths {
        try_file(&rt, path.as_str())?;
    }
    Ok(())
}
