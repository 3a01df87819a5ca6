//! Laws about derivations with the fewest words. Each is the contract of a function with an empty body.

ghost use Rattle.bc_select_defs.specs.Laws.{NothingBeatsTheChosen, ChosenAtEachStep, ChoicesAreLeast, OneLeastDerivation, OneLeastWords};

/// No derivation of a root has fewer words than the chosen one. Of those with as few words, none begins with a rule of a lower
/// number.
pub fn nothing_beats_the_chosen()
    ensures { NothingBeatsTheChosen }
{}

/// The same holds of each part of the chosen derivation, and of the parts of its parts, for their expressions at their levels.
pub fn chosen_at_each_step()
    ensures { ChosenAtEachStep }
{}

/// The choice of an expression for an aim has the words of some derivation, no derivation has fewer, and its rule has the
/// lowest number with which a derivation of these words begins. If there is no choice, there is no derivation.
pub fn choices_are_least()
    ensures { ChoicesAreLeast }
{}

/// A root has only one least derivation: any two have the same rules, the same words and the same code.
pub fn one_least_derivation()
    ensures { OneLeastDerivation }
{}

/// An expression has only one least number of words for an aim and a level: any two are equal.
pub fn one_least_words()
    ensures { OneLeastWords }
{}
