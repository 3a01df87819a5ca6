//! The law of whole programs, from parsed sections. It is the contract of a function with an empty body.

ghost use Rattle.bc_right.specs.sections.Whole.{SectionsRun};

/// For every list of sections without fault and within the parser's limits, every choice of derivations by either rule table, all inputs
/// of bytes and every number of turns: if the linker's definition gives an image for the primitives followed by the sections' items, the
/// run of the machine from its start has the same output and ending as the sections' meaning, or the meaning is wild.
pub fn sections_run()
    ensures { SectionsRun }
{}
