//! The theorems about trees that are read from closed lists.
ghost use Rattle.bc_parse_defs.specs.Laws.{ReadIsSpelled, ReadNestsLittle};

/// If a list is read as a section, the grammar allows this list as a spelling of the tree.
pub fn read_is_spelled()
    ensures { ReadIsSpelled }
{}

/// A tree that is read as a section nests at most 200 deep.
pub fn read_nests_little()
    ensures { ReadNestsLittle }
{}
