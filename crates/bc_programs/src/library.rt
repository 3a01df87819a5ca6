//! The library in a built program: its routines do what their laws say. The law is the contract of a function that does nothing.

ghost use Rattle.bc_programs.specs.library.Laws.{BuiltProgramsHaveTheLibrary};

/// Every program that `build` accepts from LIBHDR, BLIB and further files, with BLIB as its first main, has the library as its first
/// section, and under the addresses of its image each of the six routines does what its law says.
pub fn built_programs_have_the_library()
    ensures { BuiltProgramsHaveTheLibrary }
{}
