//! The laws that the interpreter depends on. Each is the contract of a function that does nothing.

ghost use Rattle.bc_interpret_defs.specs.Laws.{FuelNeverEnds, WorthIsValue, QuietStepsKeep, QuietStepsLessen, StepsKeep, StepsLessen, MachineMeans, MachineIsRight, FailuresName};

/// The fuel that bounds the nesting of calls never runs out before the turns do: any two amounts greater than
/// the remaining turns give the same outcome.
pub fn fuel_never_ends()
    ensures { FuelNeverEnds }
{}

/// Each step of the machine preserves the meaning of the current work followed by its continuations.
pub fn steps_keep()
    ensures { StepsKeep }
{}

/// Each step of the machine takes a turn or decreases the weight of the remaining work.
pub fn steps_lessen()
    ensures { StepsLessen }
{}

/// After some number of steps the machine reaches the meaning of the sections.
pub fn machine_means()
    ensures { MachineMeans }
{}

/// Whatever result the machine reaches is the meaning of the sections.
pub fn machine_is_right()
    ensures { MachineIsRight }
{}

/// The worth of a pure expression (one with no call and no VALOF) is its value and its truth.
pub fn worth_is_value()
    ensures { WorthIsValue }
{}

/// Each step of the machine for pure expressions preserves the meaning of the remaining work.
pub fn quiet_steps_keep()
    ensures { QuietStepsKeep }
{}

/// Each step of the machine for pure expressions decreases the weight of the remaining work.
pub fn quiet_steps_lessen()
    ensures { QuietStepsLessen }
{}

/// If a pure expression fails with a wild access, it is wild because of the cell that is named.
pub fn failures_name()
    ensures { FailuresName }
{}
