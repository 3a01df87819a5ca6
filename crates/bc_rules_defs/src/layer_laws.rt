//! The law of layers. It is the contract of a function with an empty body.

ghost use Rattle.bc_rules_defs.specs.LayerLaws.{CodeIsThatOfLayers};

/// The code of a derivation consists of its rule's own pieces and the code of its parts, as `layers` lists them.
pub fn code_is_that_of_layers()
    ensures { CodeIsThatOfLayers }
{}
