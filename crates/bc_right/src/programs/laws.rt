//! Laws of linked programs. Each is the contract of a function with an empty body.

ghost use Rattle.bc_right.specs.programs.Linked.{LinkedMapIsMap, ProgramsRun};

/// If the linker's definition gives an image for the primitives followed by the sections' items, the run of the machine from the
/// image's start does what the sections mean.
pub fn programs_run()
    ensures { ProgramsRun }
{}

/// If the linker refuses nothing, the addresses in its image are a map: statics, tables, strings and the first words of routines don't
/// overlap, and all are between the globals and the stack.
pub fn linked_map_is_map()
    ensures { LinkedMapIsMap }
{}
