//! The theorems about the meaning. Each is the contract of a function that does nothing.

ghost use Rattle.bc_core.specs.Laws.{CallsAreTidy, CallFreeIsCalm, MoreTurnsGoFurther};

/// A call that returns has given back exactly the cells of its frame, and has written no cell that wasn't live.
/// Whatever a call results in, each output keeps the bytes that it had, and may have more.
pub fn calls_are_tidy()
    ensures { CallsAreTidy }
{}

/// With more turns, a run that has ended is the same, and so is a wild one. A run that was going has an output at
/// least as long, unless it is wild.
pub fn more_turns_go_further()
    ensures { MoreTurnsGoFurther }
{}

/// An expression without call and VALOF changes neither cells nor streams, takes no turn, and never runs out of
/// turns. This holds for its value and for its truth.
pub fn call_free_is_calm()
    ensures { CallFreeIsCalm }
{}
