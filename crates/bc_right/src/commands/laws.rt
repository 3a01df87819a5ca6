//! Laws of the code of commands. Each is the contract of a function with an empty body.

ghost use Rattle.bc_right.specs.commands.Exits.{CommandsLand};
ghost use Rattle.bc_right.specs.commands.Calls.{CallsLand};
ghost use Rattle.bc_right.specs.commands.Library.{PrimitivesLand};
ghost use Rattle.bc_right.specs.commands.Section.{SectionsStand};
ghost use Rattle.bc_right.specs.commands.Whole.{RunsAreSame, MeaningIsRun};

/// The code of a command does what the command means, if the code of its roots does.
pub fn commands_land()
    ensures { CommandsLand }
{}

/// Calls do what they mean, if the routines' code is in the store.
pub fn calls_land()
    ensures { CallsLand }
{}

/// The code of the primitives does what they mean.
pub fn primitives_land()
    ensures { PrimitivesLand }
{}

/// If the code of the sections is in the store, that of each routine is at the routine's address.
pub fn sections_stand()
    ensures { SectionsStand }
{}

/// A whole run of the machine does what the source means, if boot code, routines and primitives are in the store.
pub fn runs_are_same()
    ensures { RunsAreSame }
{}

/// The same stated for sections: the meaning of sections is what the machine does, if their code and their first cells are in the store.
pub fn meaning_is_run()
    ensures { MeaningIsRun }
{}
