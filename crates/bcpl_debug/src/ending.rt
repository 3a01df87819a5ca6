//! What is printed about the end of a run.

use crate::program::{DebugProgram, wild_program};
use bc_interpret_record::{Ending, Interpreted, Outcome};
use bc_word::Memory;
use bcpl_messages::{Message, message_lines};
use bcpl_wild::{Met, Mistake, Stand, placed_message, wild_message};
use std::alloc::Global;

/// The message about the end of a run; `None` if it finished.
fn message_of(
    alloc: Global,
    program: &DebugProgram<'_, '_>,
    run: &Interpreted,
) -> Result<Option<Message>, Memory> {
    let wild_program = wild_program(program);
    let standings = run.trail.standings.as_slice();
    let calls = run.trail.calls;
    let sentence = match run.outcome {
        Outcome::Ended(Ending::Finished) => return Ok(None),
        Outcome::Wild(cause) => {
            let met = Met {
                cause,
                standings,
                calls,
            };
            return Ok(Some(wild_message(alloc, &wild_program, &met)?));
        }
        Outcome::Ended(Ending::ZeroDivide) => "this divides by 0",
        Outcome::Going => "the run was here when it used up its turns",
        Outcome::Device => "the run wrote more than the debugger keeps",
    };
    let stand = Stand { standings, calls };
    let sentence = String::from_str(alloc, sentence)?;
    Ok(Some(placed_message(alloc, &wild_program, stand, sentence)?))
}

/// What is printed about the end of a run; empty if it finished.
pub(crate) fn end_lines(
    alloc: Global,
    program: &DebugProgram<'_, '_>,
    run: &Interpreted,
) -> Result<String, Memory> {
    match message_of(alloc, program, run)? {
        Some(message) => message_lines(alloc, program.named, &message),
        None => Ok(String::new(alloc)),
    }
}

/// How a run ended, in a few words.
pub(crate) fn end_words(outcome: Outcome, mistake: Option<Mistake>) -> &'static str {
    if mistake.is_some() {
        return "the strict run stopped here";
    }
    match outcome {
        Outcome::Ended(Ending::Finished) => "the run finished",
        Outcome::Ended(Ending::ZeroDivide) => "the run divided by 0",
        Outcome::Going => "the run used up its turns",
        Outcome::Wild(_) => "the run met a wild access",
        Outcome::Device => "the run wrote too much",
    }
}
