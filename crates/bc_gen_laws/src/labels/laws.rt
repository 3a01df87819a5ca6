//! Laws of the labels of a section's items. Each is the contract of a function with an empty body.

ghost use Rattle.bc_gen_laws.specs.labels.Laws.{LabelsStandOnce, LabelsAreThoseTaken, OnlyGlobalsAndSizeAreRefused};

/// The items of a section set no label twice, and set each label that they use, whatever derivations its code comes from.
pub fn labels_stand_once()
    ensures { LabelsStandOnce }
{}

/// The labels set are the numbers from 1 to the last label that the section takes, each once.
pub fn labels_are_those_taken()
    ensures { LabelsAreThoseTaken }
{}

/// The linker refuses such sections only for a global that is set twice or for their size, never for a label.
pub fn only_globals_and_size_are_refused()
    ensures { OnlyGlobalsAndSizeAreRefused }
{}
