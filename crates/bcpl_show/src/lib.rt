//! The listings of `bcpl show`: the tokens, the spelling, the tree and the code of a source, and what its names mean.
//!
//! Other crates use its pages, its source lines, the owners of items, and the text forms of roots, derivations, code and bytes.
#![tactic(auto)]

mod code;
mod costs;
mod forms;
mod lines;
mod marks;
mod outline;
mod page;
mod rule_legend;
mod scopes;
mod shown_bytes;
mod shown_code;
mod shown_derivation;
mod shown_expression;
mod sizes;
mod spelling;
mod syntax;
mod tokens;

pub use bc_parse_tree::leaves_of;
pub use code::{CodeListing, code_listing, unit};
pub use costs::{CostedSection, RootCost, root_costs};
pub use forms::{TreeForm, syntax_listing};
pub use lines::{Files, Lines};
pub use marks::{Marks, Own, Owner};
pub use outline::{Outline, Purpose, RootLeaves, Step, Work};
pub use page::{Field, Page};
pub use scopes::{Scopes, Setter, scope_listing};
pub use shown_bytes::ShownBytes;
pub use shown_code::{ShownItem, ShownPiece};
pub use shown_derivation::ShownDerivation;
pub use shown_expression::{ShownExpression, ShownRoot, sign};
pub use sizes::{words_of_items, words_of_pieces};
pub use spelling::source_listing;
pub use tokens::token_listing;
