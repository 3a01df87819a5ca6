//! Laws of the machine. Each is the contract of a function that does nothing.

ghost use Rattle.bc_machine_defs.specs.Laws.{StopsLeaveState, RunsAdd, ComesIsRunning};

/// An instruction that ends the run changes nothing, and the end is never `BudgetSpent` or `Device`.
pub fn stops_leave_state()
    ensures { StopsLeaveState }
{}

/// A run of `n + m` instructions is a run of `n`, followed by one of `m` if the machine is still running.
pub fn runs_add()
    ensures { RunsAdd }
{}

/// The machine is still running after `n` instructions exactly if `n` instructions were executed.
pub fn comes_is_running()
    ensures { ComesIsRunning }
{}
