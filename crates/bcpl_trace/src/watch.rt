//! What is recorded about a run.

use crate::change::{Change, cell, change_of};
use crate::counts::Counts;
use crate::high::{High, highest_of};
use crate::written::Written;
use bc_machine::Machine;
use bc_machine_defs::End;
use bc_word::{Memory, Word};
use bcpl_places::instruction;
use std::alloc::Global;
use std::io;
use std::io::Write;

/// The instructions to trace, counted from 1.
#[derive(Clone, Copy, PartialEq, Eq)]
pub struct Window {
    /// The number of the first instruction.
    pub from: u64,
    /// How many instructions to trace.
    pub count: u64,
}

/// The function of calls, as the upper bits of a word.
const CALL: u16 = 6;

/// The number of words with the same function.
const OF_A_FUNCTION: u16 = 8192;

/// The first line of a trace.
const HEAD: &str =
    "/   number   addr   word  instruction       A      B      C      P  what was written\n";

/// An instruction that is about to be executed.
#[derive(Clone, Copy)]
pub struct Seen {
    /// Its address.
    pub address: u16,
    word: Word,
    following: Word,
    change: Change,
    /// The highest cell of its words and of the cells that it reads.
    highest: u16,
}

/// The records of a run: the trace, which is written as the run goes on, the count of each instruction, and how much of
/// the store was used.
pub struct Watch {
    alloc: Global,
    window: Option<Window>,
    /// The number of executed instructions.
    number: u64,
    counts: Counts,
    high: High,
    written: Written,
    /// Whether every line of the trace was written.
    is_whole: bool,
}

impl Drop for Watch {
    fn drop(self) {
        let Watch {
            alloc: _,
            window: _,
            number: _,
            counts: _,
            high: _,
            written: _,
            is_whole: _,
        } = self;
    }
}

/// What a trace says about the end of a run at an instruction.
fn said_of_end(end: &End) -> Option<&'static str> {
    match end {
        End::Finished => Some("the run finishes"),
        End::ZeroDivide => Some("not executed: division by 0"),
        End::BadInstruction(_) => Some("not executed: not an instruction"),
        End::Device => Some("not executed: an input or output failed"),
        End::BudgetSpent => None,
    }
}

/// Writes what an instruction changed, and ends the line.
fn write_change<W: Write>(machine: &Machine, change: Change, out: &mut W) -> io::Result<()> {
    match change {
        Change::Nothing => out.write_all(b"\n"),
        Change::Cell(address) => {
            let word = cell(machine, address);
            writeln!(out, "  {word} at {address}")
        }
        Change::Links(address) => {
            let following = address.wrapping_add(1);
            let link = cell(machine, address);
            let back = cell(machine, following);
            writeln!(out, "  {link} at {address}, {back} at {following}")
        }
        Change::Byte(byte) => writeln!(out, "  the byte {byte}"),
    }
}

impl Seen {
    /// The next instruction of a machine.
    pub fn of(machine: &Machine) -> Seen {
        let address = machine.address();
        let following = Word::new(address.get().wrapping_add(1));
        Seen {
            address: address.get(),
            word: machine.word(address),
            following: machine.word(following),
            change: change_of(machine),
            highest: highest_of(machine),
        }
    }
}

impl Watch {
    /// No records yet. Without a window there is no trace. `Memory` if an allocation fails.
    pub fn new(alloc: Global, window: Option<Window>) -> Result<Watch, Memory> {
        Ok(Watch {
            alloc,
            window,
            number: 0,
            counts: Counts::new(alloc)?,
            high: High::new(),
            written: Written::new(alloc)?,
            is_whole: true,
        })
    }

    /// The number of executed instructions.
    pub fn number(&self) -> u64 {
        self.number
    }

    /// The counts of instructions and calls.
    pub fn counts(&self) -> &Counts {
        &self.counts
    }

    /// How much of the store was used.
    pub fn high(&self) -> High {
        self.high
    }

    /// The cells that were written.
    pub fn written(&self) -> &Written {
        &self.written
    }

    /// Whether every line of the trace was written.
    pub fn is_whole(&self) -> bool {
        self.is_whole
    }

    /// Whether the last instruction is to be traced.
    fn is_traced(&self) -> bool {
        match self.window {
            Some(window) => {
                self.is_whole
                    && self.number >= window.from
                    && self.number - window.from < window.count
            }
            None => false,
        }
    }

    /// Writes the line of an instruction after which the machine is in this state.
    fn write_line<W: Write>(
        &self,
        seen: &Seen,
        machine: &Machine,
        end: &End,
        out: &mut W,
    ) -> io::Result<()> {
        let Ok(text) = instruction(self.alloc, seen.word, seen.following) else {
            return Err(io::Error::from(io::ErrorKind::OutOfMemory));
        };
        let number = self.number;
        let address = seen.address;
        let word = seen.word.get();
        write!(out, "{number:>10} {address:>6} {word:>6}  {text:<10}")?;
        let registers = machine.registers();
        let a = registers.a;
        let b = registers.b;
        let c = registers.c;
        let p = registers.p;
        write!(out, " {a:>6} {b:>6} {c:>6} {p:>6}")?;
        match said_of_end(end) {
            Some(said) => writeln!(out, "  {said}"),
            None => write_change(machine, seen.change, out),
        }
    }

    /// Writes the first line of the trace.
    pub fn begin<W: Write>(&mut self, out: &mut W) {
        if self.window.is_some() {
            self.is_whole = out.write_all(HEAD.as_bytes()).is_ok();
        }
    }

    /// Records an instruction after which the machine is in this state. `end` is `BudgetSpent` unless the instruction
    /// ended the run.
    pub fn note<W: Write>(&mut self, seen: &Seen, machine: &Machine, end: &End, out: &mut W) {
        self.number = self.number.saturating_add(1);
        self.counts.add_time(seen.address);
        let frame = machine.registers().p;
        self.high = self.high.with(seen.highest, seen.change, frame);
        self.written.add(seen.change);
        if seen.word.get() / OF_A_FUNCTION == CALL {
            self.counts.add_call(machine.address().get());
        }
        if self.is_traced() {
            self.is_whole = self.write_line(seen, machine, end, out).is_ok();
        }
    }
}
