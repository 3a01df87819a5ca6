//! Scopes: what each name means at each point of a section, what declarations add, and how a section's routines, data, VALOFs
//! and labels are numbered.
#![tactic(auto)]

mod constants;
mod declaring;
mod error;
mod numbering;
mod numbers;
mod refused;
mod scope;
mod sides;

pub use constants::{constant, constant_in, operator};
pub use declaring::{
    Prior, Priors, count, declare_entry, declare_let, declare_let_pending, declare_list,
    declare_parameters, declare_pending, has_vector, priors_of_let,
};
pub use error::ScopeError;
pub use numbering::{after_block, after_definition, after_entry, labels_in};
pub use numbers::{Numbers, short, sum};
pub use scope::{Meant, Scope, ScopeMark};
pub use sides::{is_operand, side_levels};
