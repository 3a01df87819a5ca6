//! The law of sizes. It is the contract of a function with an empty body.

ghost use Rattle.bc_gen_laws.specs.sizes.Sizes.{SectionsHaveTheirSize};

/// The items of a section take as many words as `section_size` computes from its commands, its data and the derivations of its roots.
pub fn sections_have_their_size()
    ensures { SectionsHaveTheirSize }
{}
