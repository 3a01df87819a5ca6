//! Laws of the simulation. Each is the contract of a function with an empty body.

ghost use Rattle.bc_right.specs.steps.Free.{FreeOperandsExchange, FreeSidesExchange};
ghost use Rattle.bc_right.specs.steps.Keeping.{WordsAreKept};

/// If an operator's operands are free, evaluating the right one first gives the same, or the source is wild. They are free if neither
/// contains a call or a VALOF, or one is a number or an address.
pub fn free_operands_exchange()
    ensures { FreeOperandsExchange }
{}

/// If the sides of an assignment are free, evaluating the address first gives the same, or the source is wild.
pub fn free_sides_exchange()
    ensures { FreeSidesExchange }
{}

/// If the machine's registers and store hold words at first, they do after any number of instructions.
pub fn words_are_kept()
    ensures { WordsAreKept }
{}
