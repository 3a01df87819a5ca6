//! The laws of the rule table. Each is the contract of a function with an empty body.

ghost use Rattle.bc_right.specs.rules.Right.{DerivationsAreRight};
ghost use Rattle.bc_right.specs.rules.Single.{EachDerivationIsRight};

/// Whichever derivations are chosen for the roots, their code does what the roots mean, wherever it is placed.
pub fn derivations_are_right()
    ensures { DerivationsAreRight }
{}

/// The code of each single derivation, wherever it is placed, does what its expression, test or assignment means. In mode Push, B then
/// holds what A held before. No cell changes except those that the source changes.
pub fn each_derivation_is_right()
    ensures { EachDerivationIsRight }
{}
