//! Scopes, as definitions: what names mean where they are used, what a section means, its translation to offsets,
//! labels and numbers, and its first fault. There is no code; `bc_scope` and the crates below it compute what these
//! definitions say.
#![tactic(auto)]
