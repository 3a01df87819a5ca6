//! Laws of derivations. Each is the contract of a function with an empty body.

ghost use Rattle.bc_rules_defs.specs.Laws.{WordsAreCost, WordsOfCode, ShapeTells, TwoHasAll};
ghost use Rattle.bc_rules_defs.specs.Takes.{TableHasParts};

/// The code of a root's derivation takes as many words as its cost says.
pub fn words_are_cost()
    ensures { WordsAreCost }
{}

/// The code of an expression's or test's derivation takes as many words as its cost at that level says.
pub fn words_of_code()
    ensures { WordsOfCode }
{}

/// Two derivations of a root with the same tree of rule names have the same code, number of words and number of labels.
pub fn shape_tells()
    ensures { ShapeTells }
{}

/// Each derivation by either table is also one by table 2, with the same rules and the same code.
pub fn two_has_all()
    ensures { TwoHasAll }
{}

/// `Rule::takes` gives the rule's parts at each expression and each assignment to which the rule applies.
pub fn table_has_parts()
    ensures { TableHasParts }
{}
