//! Laws of the roots of a section. Each is the contract of a function with an empty body.

ghost use Rattle.bc_gen_laws.specs.roots.Laws.{EntriesAreOfTheRoots, SizeIsByTheRoots};

/// Whichever derivations are chosen, the entries of a section belong to its roots in the order of the walk: one entry for each
/// occurrence of a root in the commands.
pub fn entries_are_of_the_roots()
    ensures { EntriesAreOfTheRoots }
{}

/// Whichever derivations are chosen, the items of a section take the fixed words of its commands and data, and for each of its roots
/// the words of the root's derivation.
pub fn size_is_by_the_roots()
    ensures { SizeIsByTheRoots }
{}
