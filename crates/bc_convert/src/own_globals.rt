//! The numbers of a program's own globals. Those that EXTLIB has too become free ones, in all files alike.

use crate::complaint::Fault;
use crate::kind::Kind;
use crate::library::library_name;
use crate::names::{declares, is_declared_global, is_first_free};
use crate::notes::Notes;
use crate::numbers::{decimal, value_of_number};
use crate::source::TokenizedText;

/// The numbers of a program's own globals.
#[derive(Clone, Copy, Default)]
pub struct OwnGlobals {
    /// A bit for each number below 512.
    bits: [u64; 8],
    /// A number isn't visible in the source.
    has_unknown: bool,
}

/// The number of a global: its value, or none if the source doesn't show it.
type Number = Option<u32>;

/// The bit of a number among those of its 64.
fn bit_of(number: u32) -> u64 {
    1u64.wrapping_shl(number % 64)
}

/// Whether EXTLIB has the global with this number.
fn is_further(number: u32) -> bool {
    matches!(number, 30..=58 | 92..=99)
}

/// The number of the global that the name at an index declares, if the one before it in the list has the number `last`.
fn number_at(source: TokenizedText<'_>, index: usize, last: Number) -> Number {
    let value = index.saturating_add(2);
    let end = index.saturating_add(3);
    if source.kind(index.saturating_add(1)) != Kind::Colon {
        return match last {
            Some(last) => Some(last.saturating_add(1)),
            None => None,
        };
    }
    if source.kind(end).level() > 0 && !source.is_separated(end) {
        return None;
    }
    if is_first_free(source, value) {
        return Some(200);
    }
    value_of_number(source, value).ok()
}

/// Whether the name at an index declares a global of the program's own.
fn declares_own_global(source: TokenizedText<'_>, index: usize) -> bool {
    library_name(source.bytes(index)).is_none()
}

impl OwnGlobals {
    /// The numbers in a source.
    pub fn of(source: TokenizedText<'_>) -> OwnGlobals {
        let mut own = OwnGlobals::default();
        let mut last = None;
        for index in 1..source.tokens.len() {
            if source.kind(index) == Kind::Global {
                last = None;
            }
            if is_declared_global(source, index) && declares(source, index) {
                last = number_at(source, index, last);
                if declares_own_global(source, index) {
                    own.note(last);
                }
            }
        }
        own
    }

    /// Adds a number.
    fn note(&mut self, number: Number) {
        match number {
            Some(number) if number < 512 => {
                let place = (number / 64) as usize;
                if place < 8 {
                    self.bits[place] |= bit_of(number);
                }
            }
            _ => self.has_unknown = true,
        }
    }

    /// Whether a number is among them.
    fn has(&self, number: u32) -> bool {
        match self.bits.get((number / 64) as usize) {
            Some(bits) => *bits & bit_of(number) != 0,
            None => false,
        }
    }

    /// The numbers of two sets of sources.
    pub fn with(self, other: OwnGlobals) -> OwnGlobals {
        let mut both = self;
        for (place, bits) in other.bits.iter().enumerate() {
            if place < 8 {
                both.bits[place] |= *bits;
            }
        }
        both.has_unknown = self.has_unknown || other.has_unknown;
        both
    }

    /// Whether EXTLIB has one of them too.
    pub fn clashes(&self) -> bool {
        for number in 30..100u32 {
            if is_further(number) && self.has(number) {
                return true;
            }
        }
        false
    }

    /// How much must be added to the numbers that EXTLIB has too, so that they are free: the least multiple of 100. `None` if
    /// there is none, or if not all numbers are known.
    fn distance(&self) -> Option<u32> {
        if self.has_unknown {
            return None;
        }
        for hundreds in 1..5u32 {
            let distance = hundreds.saturating_mul(100);
            if self.is_free(distance) {
                return Some(distance);
            }
        }
        None
    }

    /// Whether the numbers that EXTLIB has too are free if this much is added.
    fn is_free(&self, distance: u32) -> bool {
        for number in 30..100u32 {
            if is_further(number) && self.has(number) && self.has(number.saturating_add(distance)) {
                return false;
            }
        }
        true
    }
}

/// Gives the global at an index, whose number is `number`, one that is greater by `distance`.
fn put_number(
    source: TokenizedText<'_>,
    notes: &mut Notes,
    index: usize,
    number: u32,
    distance: u32,
) {
    let new = number.saturating_add(distance);
    let digits = decimal(notes.alloc(), i64::from(new));
    let Some(digits) = notes.made(digits) else {
        return;
    };
    if source.kind(index.saturating_add(1)) == Kind::Colon {
        notes.replace(index.saturating_add(2), digits.as_bytes());
    } else {
        notes.clear_after(index);
        notes.put_all_after(index.saturating_add(1), &[b":", digits.as_bytes()]);
    }
}

/// The number of the global that the name at an index declares, if the program declares it by itself and EXTLIB has it too.
fn clashing_number(source: TokenizedText<'_>, index: usize, number: Number) -> Number {
    let number = number?;
    if is_further(number) && declares_own_global(source, index) {
        Some(number)
    } else {
        None
    }
}

/// Moves the global at an index by a distance, if there is one. Returns what must be reported.
fn move_global(
    source: TokenizedText<'_>,
    notes: &mut Notes,
    index: usize,
    number: u32,
    distance: Option<u32>,
) -> Fault {
    match distance {
        Some(distance) => {
            put_number(source, notes, index, number, distance);
            Fault::GlobalMoved
        }
        None => Fault::GlobalKept,
    }
}

/// Moves or reports the globals of a source that EXTLIB has too. The first one is reported, also if all are moved.
pub fn move_globals(source: TokenizedText<'_>, notes: &mut Notes, own: OwnGlobals, may_move: bool) {
    let distance = if may_move { own.distance() } else { None };
    let mut last = None;
    let mut is_reported = false;
    for index in 1..source.tokens.len() {
        if source.kind(index) == Kind::Global {
            last = None;
        }
        if !is_declared_global(source, index) || !declares(source, index) {
            continue;
        }
        last = number_at(source, index, last);
        if let Some(number) = clashing_number(source, index, last) {
            let fault = move_global(source, notes, index, number, distance);
            if !is_reported {
                notes.complain(source, index, fault);
            }
            is_reported = true;
        }
    }
}
