//! Reads the values of parsed arguments, and notes the faults that the argument parser doesn't check for.

use crate::arguments::{ArgumentError, Binding};
use crate::numbers::number_of;
use clap::ArgMatches;
use std::alloc::Global;

/// What an option with a number accepts.
const NUMBER_ACCEPTS: &str =
    "a number is written in decimal digits, or as 1_000_000, 1e6, 10M or 2k";

/// A fault in arguments that the parser accepted.
#[derive(Clone, Copy)]
enum Fault<'a> {
    /// The value of an option is invalid.
    Value {
        value: &'a str,
        accepts: &'static str,
    },
    /// An allocation failed.
    Memory,
}

/// Reads the arguments of a command. The first fault is kept; values read after it are meaningless.
#[derive(Drop)]
pub struct ArgumentReader<'m, 'a> {
    alloc: Global,
    matches: &'m ArgMatches<'a>,
    /// The value of the environment variable `BCPL_PLACES`, if it is set.
    pub setting: Option<&'a str>,
    fault: Option<Fault<'a>>,
}

impl<'m, 'a> ArgumentReader<'m, 'a> {
    /// Begins to read these matches. `setting` is the value of the environment variable `BCPL_PLACES`.
    pub fn new(
        alloc: Global,
        matches: &'m ArgMatches<'a>,
        setting: Option<&'a str>,
    ) -> ArgumentReader<'m, 'a> {
        ArgumentReader {
            alloc,
            matches,
            setting,
            fault: None,
        }
    }

    /// Keeps a fault, unless there is one already.
    fn note(&mut self, fault: Fault<'a>) {
        if self.fault.is_none() {
            self.fault = Some(fault);
        }
    }

    /// Notes that `value` is invalid; `accepts` says what its option accepts.
    pub fn refuse(&mut self, value: &'a str, accepts: &'static str) {
        self.note(Fault::Value { value, accepts });
    }

    /// The value of an argument, if it is given.
    pub fn value(&self, name: &str) -> Option<&'a str> {
        self.matches.get_str(name)
    }

    /// The number of an argument, or `default` if it isn't given.
    pub fn number(&mut self, name: &str, default: u64) -> u64 {
        let Some(text) = self.value(name) else {
            return default;
        };
        match self.matches.get_one::<u64>(name).or(number_of(text)) {
            Some(number) => number,
            None => {
                self.refuse(text, NUMBER_ACCEPTS);
                default
            }
        }
    }

    /// Whether an option without a value is given.
    pub fn flag(&self, name: &str) -> bool {
        self.matches.get_flag(name)
    }

    /// Adds the values of an argument to `values`, in order.
    pub fn add_values(&mut self, values: &mut Vec<&'a str>, name: &str) {
        let found = self.matches.get_strs(name).unwrap_or(&[]);
        if values.extend_from_slice(found).is_err() {
            self.note(Fault::Memory);
        }
    }

    /// The values of an argument, in order.
    pub fn values(&mut self, name: &str) -> Vec<&'a str> {
        let mut values = Vec::new(self.alloc);
        self.add_values(&mut values, name);
        values
    }

    /// Splits `value` at its first `=` and adds the binding; without a `=` it is invalid.
    fn add_binding(
        &mut self,
        bindings: &mut Vec<Binding<'a>>,
        value: &'a str,
        accepts: &'static str,
    ) {
        let Some((name, path)) = value.split_once('=') else {
            return self.refuse(value, accepts);
        };
        if bindings.push(Binding { name, path }).is_err() {
            self.note(Fault::Memory);
        }
    }

    /// The bindings of an option; `accepts` says what it accepts.
    pub fn bindings(&mut self, name: &str, accepts: &'static str) -> Vec<Binding<'a>> {
        let mut bindings = Vec::new(self.alloc);
        let matches = self.matches;
        for value in matches.get_strs(name).unwrap_or(&[]) {
            self.add_binding(&mut bindings, value, accepts);
        }
        bindings
    }

    /// The first fault, if there was one.
    pub fn end(self) -> Result<(), ArgumentError<'a>> {
        match self.fault {
            None => Ok(()),
            Some(Fault::Value { value, accepts }) => Err(ArgumentError::Option { value, accepts }),
            Some(Fault::Memory) => Err(ArgumentError::Memory),
        }
    }
}
