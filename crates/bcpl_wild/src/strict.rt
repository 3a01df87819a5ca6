//! The message for an access that ended a strict run.

use crate::message::{Stand, WildProgram, placed_message};
use crate::naming::{constant_at, vector_at};
use crate::owner::name_of_global;
use bc_interpret_strict::{Mistake, Outside};
use bc_interpret_trace::Standing;
use bc_word::Memory;
use bcpl_messages::{Draft, Fill, Message};
use std::alloc::Global;

/// The help for an index that leaves its vector.
const OUTSIDE: &str =
    "VEC N has the cells 0 to N; --strict reports an index that leaves them, even if it hits a cell of something else";

/// The help for an index that leaves its table or string.
const OUTSIDE_CONSTANT: &str =
    "the characters of a string S are GETBYTE(S, 1) to GETBYTE(S, GETBYTE(S, 0)); TABLE 1, 2, 3 has the cells 0 to 2";

/// The help for a global that no source names.
const NO_GLOBAL: &str =
    "the addresses 8 to 519 are those of the globals; was the address of a vector never set?";

/// The help for a write into a string.
const CONSTANT: &str = "copy the string into a vector, and write there";

/// The help for a global that nothing set.
const UNSET_GLOBAL: &str =
    "a global that no routine sets is 0 when the run begins; assign a value to it before you read it";

/// This text, or another one if there is none.
fn or_text<'t>(text: Option<&'t String>, otherwise: &'t str) -> &'t str {
    match text {
        Some(text) => text.as_str(),
        None => otherwise,
    }
}

/// The object that an index leaves, as a part of a sentence.
fn object_text(
    draft: &mut Draft,
    program: &WildProgram<'_, '_>,
    standings: &[Standing],
    outside: Outside,
) -> String {
    if outside.is_vector {
        let text = vector_at(draft, program, standings, outside.start.saturating_sub(1));
        return draft.filled(
            "{}",
            &[Fill::Text(or_text(text.as_ref(), "a vector of an older call"))],
        );
    }
    match constant_at(draft, program, outside.start) {
        Some(text) if text == b"TABLE".as_slice() => draft.filled("a TABLE", &[]),
        Some(text) => draft.filled("the string {}", &[Fill::Shown(text)]),
        None => draft.filled("a table or string", &[]),
    }
}

/// The sentence on an index that leaves its object.
fn outside_sentence(
    draft: &mut Draft,
    program: &WildProgram<'_, '_>,
    standings: &[Standing],
    outside: Outside,
) -> String {
    let text = object_text(draft, program, standings, outside);
    let index = outside.index.cast_signed();
    let sign = if index < 0 { "-" } else { "" };
    let last = outside.cells.saturating_sub(1);
    draft.filled(
        "{} has the cells 0 to {}, but cell {}{} is used in this expression",
        &[
            Fill::Text(text.as_str()),
            Fill::Number(last as u64),
            Fill::Text(sign),
            Fill::Number(u64::from(index.unsigned_abs())),
        ],
    )
}

/// The sentence on a global that nothing set.
fn unset_global_sentence(draft: &mut Draft, program: &WildProgram<'_, '_>, number: u16) -> String {
    let name = name_of_global(draft, program, number);
    draft.filled(
        "the global {} is read in this expression, but nothing set it",
        &[Fill::Shown(name.unwrap_or(b""))],
    )
}

/// The sentence on a mistake.
fn sentence_of(
    draft: &mut Draft,
    program: &WildProgram<'_, '_>,
    standings: &[Standing],
    mistake: Mistake,
) -> String {
    match mistake {
        Mistake::Outside(outside) => outside_sentence(draft, program, standings, outside),
        Mistake::NoGlobal(number) => draft.filled(
            "global {} is used through an address in this expression, but no source names it",
            &[Fill::Number(u64::from(number))],
        ),
        Mistake::Constant(_) => draft.filled(
            "a word of a string is written in this expression, but a string is a constant",
            &[],
        ),
        Mistake::UnsetGlobal(number) => unset_global_sentence(draft, program, number),
    }
}

/// What to do about a mistake.
fn help_on(mistake: Mistake) -> &'static str {
    match mistake {
        Mistake::Outside(outside) if outside.is_vector => OUTSIDE,
        Mistake::Outside(_) => OUTSIDE_CONSTANT,
        Mistake::NoGlobal(_) => NO_GLOBAL,
        Mistake::Constant(_) => CONSTANT,
        Mistake::UnsetGlobal(_) => UNSET_GLOBAL,
    }
}

/// The message for a mistake that ended a strict run which was here. Returns `Memory` if an allocation fails.
pub fn strict_message(
    alloc: Global,
    program: &WildProgram<'_, '_>,
    stand: Stand<'_>,
    mistake: Mistake,
) -> Result<Message, Memory> {
    let mut draft = Draft::new(alloc, 0);
    let sentence = sentence_of(&mut draft, program, stand.standings, mistake);
    let _message = draft.into_message()?;
    let message = placed_message(alloc, program, stand, sentence)?;
    message.helped(alloc, Some(help_on(mistake)))
}
