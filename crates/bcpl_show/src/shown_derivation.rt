//! Derivations as text.

use bc_rules_defs::Derivation;
use std::fmt;

/// Prints a derivation: the name of its rule or, if it has parts, the name and the parts in parentheses, as in `(V6
/// V1)`.
#[derive(Drop)]
pub struct ShownDerivation<'d>(pub &'d Derivation);

impl fmt::Display for ShownDerivation<'_> {
    fn fmt<W: fmt::Write>(&self, f: &mut fmt::Formatter<W>) -> fmt::Result {
        write_derivation(f, self.0)
    }
}

/// Prints a derivation and, recursively, its parts.
fn write_derivation<W: fmt::Write>(
    f: &mut fmt::Formatter<W>,
    derivation: &Derivation,
) -> fmt::Result {
    let rule = derivation.rule;
    if derivation.parts.is_empty() {
        return write!(f, "{rule:?}");
    }
    write!(f, "({rule:?}")?;
    for part in &derivation.parts {
        f.write_char(' ')?;
        write_derivation(f, part)?;
    }
    f.write_char(')')
}
