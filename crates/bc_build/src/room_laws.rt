//! The roots of a section without fault have room in the lines of a certificate. Each law is the contract of a function with an empty
//! body.

ghost use Rattle.bc_build.specs.RoomLaws.{RootsAreShallow, RootsHaveLevels, RootsHaveFewNodes, LabelsHaveRoom, NodesHaveRoom, RootWordsHaveRoom};

/// In a section with nesting depth at most 200, with or without faults, the nodes of each root nest at most 400 deep.
pub fn roots_are_shallow()
    ensures { RootsAreShallow }
{}

/// Each node of each root of a section without fault is at a level of at most 32,768, whatever derivations its code comes from.
pub fn roots_have_levels()
    ensures { RootsHaveLevels }
{}

/// In a section without fault and with at most 524,288 definitions, commands and expressions, each root has at most 2^32 nodes, whatever
/// derivations its code comes from.
pub fn roots_have_few_nodes()
    ensures { RootsHaveFewNodes }
{}

/// If the labels of a section suffice, no root takes a label after the last one.
pub fn labels_have_room()
    ensures { LabelsHaveRoom }
{}

/// The lines of a root have room if its levels are at most 32,768, its numbers fit into words, its nodes nest at most 400 deep, and there
/// are at most 2^32 of them.
pub fn nodes_have_room()
    ensures { NodesHaveRoom }
{}

/// The number of words of the chosen derivation of a root with at most 2^32 nodes has room in a line: it is below 2^64.
pub fn root_words_have_room()
    ensures { RootWordsHaveRoom }
{}
