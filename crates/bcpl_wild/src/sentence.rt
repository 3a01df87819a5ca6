//! The sentence on a wild access, and the help.

use crate::message::Met;
use crate::owner::{GLOBALS, Owner, OwnerKind};
use bc_interpret_pure::Cause;
use bcpl_messages::{Draft, Fill};

/// What a run does with a byte of a string or vector.
#[derive(Clone, Copy, PartialEq, Eq)]
pub enum ByteAccess {
    /// Nothing.
    None,
    /// It is in GETBYTE.
    Read,
    /// It is in GETBYTE, which a routine of the library called that writes a string.
    Written,
    /// It is in PUTBYTE.
    Stored,
    /// It is in PUTBYTE, and met a cell after the vector that PUTBYTE was given.
    StoredAfter,
}

impl ByteAccess {
    /// The help if there is no cell for the byte.
    fn help(self) -> Option<&'static str> {
        match self {
            ByteAccess::None => None,
            ByteAccess::Read => Some(
                "a string has the bytes 0, its length, to GETBYTE(S, 0); VEC N has the bytes 0 to 2*N+1",
            ),
            ByteAccess::Written => Some(
                "byte 0 of a string is the number of its characters; was it set, as in PUTBYTE(S, 0, N)?",
            ),
            ByteAccess::Stored | ByteAccess::StoredAfter => Some(AFTER),
        }
    }
}

/// The help for a byte that is stored after the end of a vector or string.
const AFTER: &str =
    "VEC N has the bytes 0 to 2*N+1, and a string those up to its length; this byte is after them";

/// What is known about a wild access, apart from its cause.
#[derive(Clone, Copy)]
pub struct WildContext<'k> {
    /// What the address belongs to, if that is known.
    pub owner: Option<&'k Owner>,
    /// Whether it is a parameter for which the call passes no argument.
    pub is_not_handed: bool,
    /// Whether the reported place is the access itself, rather than the whole expression.
    pub is_exact: bool,
    /// What the run does with a byte of a string or vector.
    pub bytes: ByteAccess,
    /// Whether the program calls GETVEC.
    pub has_pool: bool,
}

impl WildContext<'_> {
    /// The words for the place.
    fn place(&self) -> &'static str {
        if self.is_exact {
            "here"
        } else {
            "in this expression"
        }
    }
}

/// Adds the sentence on what was met, without the routine's name.
pub fn say(draft: &mut Draft, met: &Met<'_>, known: WildContext<'_>) {
    match met.cause {
        Cause::Unset(address) => say_unset(draft, known, address),
        Cause::Dead(address) => say_no_cell(draft, known, address, Access::READ),
        Cause::NoCell(address) => say_no_cell(draft, known, address, Access::WRITTEN),
        Cause::NotRoutine(value) => say_no_routine(draft, met, known, value),
        Cause::FrameTooLarge(_) => say_too_large(draft, met.calls),
        Cause::Malformed => draft.say("the program has a part that no source can produce", &[]),
    }
}

/// Adds the sentence on a read of something without a value.
fn say_unset(draft: &mut Draft, known: WildContext<'_>, address: u16) {
    say_whose(draft, known, address);
    let sentence = if known.is_not_handed {
        " is read {}, but the call passes no argument for it"
    } else {
        " is read {}, but nothing was ever stored in it"
    };
    draft.say(sentence, &[Fill::Text(known.place())]);
}

/// Whether the call of this value, which isn't a routine, is the first call of the run, that of global 1. Then every
/// call that the run is in is of this value.
fn is_first_call(met: &Met<'_>, value: u16) -> bool {
    met.standings
        .iter()
        .all(|standing| standing.routine == value)
}

/// Adds the sentence on a call of something that isn't a routine.
fn say_no_routine(draft: &mut Draft, met: &Met<'_>, known: WildContext<'_>, value: u16) {
    let sentence = if is_first_call(met, value) {
        "no routine sets global 1, so the run has nothing to call"
    } else {
        "the value {} is called {}, but no routine has that address"
    };
    let value = Fill::Number(u64::from(value));
    draft.say(sentence, &[value, Fill::Text(known.place())]);
}

/// Adds the sentence on a call without room for its frame; `calls` is its depth.
fn say_too_large(draft: &mut Draft, calls: usize) {
    draft.say(
        "this call, at the {}{} level of nesting, would need cells beyond the end of the store",
        &[Fill::Number(calls as u64), Fill::Text(ending(calls))],
    );
}

/// The words for an access to something that isn't a cell.
#[derive(Clone, Copy)]
struct Access {
    /// What was done to it.
    verb: &'static str,
    /// What can't be done with code.
    forbidden: &'static str,
}

impl Access {
    const READ: Access = Access {
        verb: "read",
        forbidden: "can't be read as a vector",
    };

    const WRITTEN: Access = Access {
        verb: "written",
        forbidden: "can't be written to",
    };
}

/// Adds the sentence on a read or a write of something that isn't a cell.
fn say_no_cell(draft: &mut Draft, known: WildContext<'_>, address: u16, access: Access) {
    match known.owner {
        Some(owner) => say_of_owner(draft, known, owner, access),
        None => say_gone(draft, known, address, access),
    }
}

/// The same, if it is known what the address belongs to.
fn say_of_owner(draft: &mut Draft, known: WildContext<'_>, owner: &Owner, access: Access) {
    let place = Fill::Text(known.place());
    let text = Fill::Text(owner.text.as_str());
    let verb = Fill::Text(access.verb);
    let forbidden = Fill::Text(access.forbidden);
    match owner.kind {
        OwnerKind::Code => draft.say(
            "the value of {} is the address of its code, which {}",
            &[text, forbidden],
        ),
        OwnerKind::WithinCode => draft.say(
            "the code of {} is {} {}, but code {}",
            &[text, verb, place, forbidden],
        ),
        OwnerKind::After => draft.say("the cell {} {} is {}", &[verb, place, text]),
        OwnerKind::Cell | OwnerKind::Variable { .. } | OwnerKind::Element { .. } => draft.say(
            "{} is {} {}, but the program has no cell there now",
            &[text, verb, place],
        ),
    }
}

/// The same, if it isn't known.
fn say_gone(draft: &mut Draft, known: WildContext<'_>, address: u16, access: Access) {
    draft.say(
        "the address {} is {} {}, but the program has no cell there now",
        &[
            Fill::Number(u64::from(address)),
            Fill::Text(access.verb),
            Fill::Text(known.place()),
        ],
    );
}

/// Adds what the address belongs to, or the address itself if that isn't known.
fn say_whose(draft: &mut Draft, known: WildContext<'_>, address: u16) {
    match known.owner {
        Some(owner) => draft.say("{}", &[Fill::Text(owner.text.as_str())]),
        None => draft.say("the address {}", &[Fill::Number(u64::from(address))]),
    }
}

/// The ending of an ordinal number: 1st, 2nd, 3rd, 4th.
pub fn ending(number: usize) -> &'static str {
    match (number / 10 % 10, number % 10) {
        (1, _) => "th",
        (_, 1) => "st",
        (_, 2) => "nd",
        (_, 3) => "rd",
        _ => "th",
    }
}

/// The help for a wild access.
pub fn help(met: &Met<'_>, known: WildContext<'_>) -> Option<&'static str> {
    let is_code = match known.owner {
        Some(owner) => matches!(owner.kind, OwnerKind::Code | OwnerKind::WithinCode),
        None => false,
    };
    match met.cause {
        Cause::Unset(_) if known.is_not_handed => Some(
            "a parameter has a value only if the call passes an argument for it",
        ),
        Cause::Unset(_) if known.bytes == ByteAccess::StoredAfter => Some(AFTER),
        Cause::Unset(_) if known.bytes == ByteAccess::Stored => Some(
            "PUTBYTE keeps the other byte of its word, so set the word before, as in V!0 := 0",
        ),
        Cause::Unset(_) => Some(
            "assign a value to a variable, or to a cell of a vector, before you read it",
        ),
        Cause::Dead(_) | Cause::NoCell(_) if is_code => Some(
            "call a routine by parentheses after its name; use `!` with vectors, tables and strings",
        ),
        Cause::Dead(address) | Cause::NoCell(address) if address < GLOBALS => {
            Some(if known.has_pool {
                "there is no vector at this address; was the address set, and did GETVEC have a pool?"
            } else {
                "there is no vector at this address; was it set, as in LET V = VEC 10, or changed by an index that is too large, as --strict reports it?"
            })
        }
        Cause::Dead(_) | Cause::NoCell(_) if known.bytes != ByteAccess::None => known.bytes.help(),
        Cause::Dead(_) | Cause::NoCell(_) if known.owner.is_none() => Some(
            "TABLE 1, 2, 3 has the cells 0 to 2, and VEC 2 has them too; character I of the string S is GETBYTE(S, I)",
        ),
        Cause::Dead(_) | Cause::NoCell(_) => Some(
            "VEC N has the cells 0 to N; vectors and variables are gone once their block or routine is left",
        ),
        Cause::NotRoutine(0) if is_first_call(met, 0) => Some(
            "a run begins with START, in upper case; write GET \"LIBHDR\" and LET START() BE ..",
        ),
        Cause::NotRoutine(0) => Some(
            "a global that no routine sets is 0; is a file of the program missing?",
        ),
        Cause::FrameTooLarge(_) => Some(
            "nested calls share the store with their vectors; does the recursion end?",
        ),
        Cause::NotRoutine(_) => Some(
            "call a routine by its name, or through a cell that holds the value of a routine",
        ),
        Cause::Malformed => None,
    }
}
