//! Theorems about scopes: the translation of a section means what the section means; that of a section without fault
//! is well formed, as `Core` requires; and the bytes of a string are those that its text spells.
#![tactic(auto)]

pub mod laws;
pub mod string_laws;
