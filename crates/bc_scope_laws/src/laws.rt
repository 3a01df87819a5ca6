//! The theorems about the translation of sections. Each is the contract of a function that does nothing.

ghost use Rattle.bc_scope_laws.specs.Laws.{SectionsKeepTheirMeaning, ExpressionsKeepTheirMeaning, CommandsKeepTheirMeaning, LevelsAreTheSections, FramesAreTheSections, NumbersRise, WidthsAskNoNumbers, FaultsAskNoNumbers, SectionsFit, WordsAreKept};

/// A list of sections means what the list of their translations means, for every map of addresses, all inputs and
/// every number of turns.
pub fn sections_keep_their_meaning()
    ensures { SectionsKeepTheirMeaning }
{}

/// The translation of an expression means what the expression means, as a value and as a test.
pub fn expressions_keep_their_meaning()
    ensures { ExpressionsKeepTheirMeaning }
{}

/// The translation of a command means what the command means.
pub fn commands_keep_their_meaning()
    ensures { CommandsKeepTheirMeaning }
{}

/// The levels in a translation are those of the section: after declarations, and of both sides of an assignment. A
/// translated call has as many arguments as the call.
pub fn levels_are_the_sections()
    ensures { LevelsAreTheSections }
{}

/// The frame sizes in a translation are those of the section, routine by routine.
pub fn frames_are_the_sections()
    ensures { FramesAreTheSections }
{}

/// In text order, the places of a section are labelled 1, 2, .. and its VALOFs numbered 0, 1, ..
pub fn numbers_rise()
    ensures { NumbersRise }
{}

/// Widths don't depend on numbers: a walk that counts places, VALOFs and labels finds the widths of the definition,
/// whatever numbers the names in scope have.
pub fn widths_ask_no_numbers()
    ensures { WidthsAskNoNumbers }
{}

/// Faults depend neither on numbers nor on levels: a walk that counts both finds the faults of the definition.
pub fn faults_ask_no_numbers()
    ensures { FaultsAskNoNumbers }
{}

/// The translation of a section without fault, with at most 524,288 definitions, commands and expressions, is well
/// formed, as `Core` requires.
pub fn sections_fit()
    ensures { SectionsFit }
{}

/// If the numbers of a section are words and its strings are bytes, the same holds of its translation.
pub fn words_are_kept()
    ensures { WordsAreKept }
{}
