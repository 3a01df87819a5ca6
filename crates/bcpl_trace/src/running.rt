//! The recorded run of a machine, one instruction at a time.

ghost use Rattle.std.specs.Prelude.{◌≡◌, None};
ghost use Rattle.bc_machine.specs.Ran.{Ran, held_state, kept_end};

use crate::watch::{Seen, Watch};
use bc_machine::{Machine, Streams};
use bc_machine_defs::End;
use std::io::Write;

/// The end of a run of one instruction, or `None` if the machine is still running.
fn met(end: &End) -> Option<End>
    ensures { result ≡ kept_end end.now }
{
    match *end {
        End::BudgetSpent => None,
        other => Some(other),
    }
}

/// Runs at most `budget` instructions and returns how the run ended, exactly as `Machine::run` does. Records each
/// instruction in `watch` and writes the trace to `out`. If writing fails, the run continues without a trace.
pub fn run_watched<S: Streams, W: Write>(
    machine: &mut Machine,
    streams: &mut S,
    budget: u64,
    watch: &mut Watch,
    out: &mut W,
) -> End
    requires { machine.old.ended ≡ None }
    ensures run { Ran (S.known streams.old) (S.known streams.new) budget
        (held_state machine.old (S.content streams.old)) (held_state machine.new (S.content streams.new))
        result (S.failures streams.old) (S.failures streams.new) }
    ensures ended { machine.new.ended ≡ kept_end result }
{
    watch.begin(out);
    let mut left = budget;
    while left > 0 {
        let seen = Seen::of(machine);
        let end = machine.run(streams, 1);
        watch.note(&seen, machine, &end, out);
        if let Some(end) = met(&end) {
            return end;
        }
        left -= 1;
    }
    End::BudgetSpent
}
