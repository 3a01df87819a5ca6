//! The law, as the contract of a function that computes nothing.

ghost use Rattle.bc_tame_built.specs.Laws.{TamePrograms};

/// Take a program that `build` accepts from LIBHDR, BLIB and further files, with BLIB as the first main. If the other mains are tame
/// together, and there is room above the stack's base, then every run of the image has the output and the ending that the sources mean.
pub fn tame_programs()
    ensures { TamePrograms }
{}
