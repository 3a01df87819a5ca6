//! Laws about the lines of an entry. Each is the contract of a function that does nothing.

ghost use Rattle.bc_cert_write.specs.Laws.{NodesInOrder, NumbersAreLeast};

/// A root's derivation has one node line for each node of the root, in the order of the nodes.
pub fn nodes_in_order()
    ensures { NodesInOrder }
{}

/// Each number of a node line is the fewest words of the node's derivations for its aim, and `-` means that there is none.
pub fn numbers_are_least()
    ensures { NumbersAreLeast }
{}
