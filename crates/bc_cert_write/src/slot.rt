//! Which of a rule's parts derives which part of a node: rules list their parts in the order of the code, nodes in that of the source.

ghost use Rattle.std.specs.Prelude.{◌≡◌};
ghost use Rattle.bc_cert_write.specs.Walked.{first_slot as first_of, second_slot as second_of, third_slot as third_of};

use bc_rules_defs::Takes;

/// Which part of a rule derives a part of a node.
#[derive(Clone, Copy)]
pub enum Slot {
    /// None: the rule doesn't derive this part.
    Nowhere,
    /// The first.
    First,
    /// The second.
    Second,
    /// The third.
    Third,
}

/// Which part of a rule derives the first part of a node, by what the rule takes.
#[inline]
pub fn first_slot(takes: Takes) -> Slot
    ensures { result ≡ first_of takes }
{
    match takes {
        Takes::Nothing | Takes::Second(_) => Slot::Nowhere,
        Takes::First(_) | Takes::InOrder(_, _) | Takes::Choice(_) | Takes::Call => Slot::First,
        Takes::Turned(_, _) => Slot::Second,
    }
}

/// The same for the second part of a node.
#[inline]
pub fn second_slot(takes: Takes) -> Slot
    ensures { result ≡ second_of takes }
{
    match takes {
        Takes::Nothing | Takes::First(_) => Slot::Nowhere,
        Takes::Second(_) | Takes::Turned(_, _) => Slot::First,
        Takes::InOrder(_, _) | Takes::Choice(false) | Takes::Call => Slot::Second,
        Takes::Choice(true) => Slot::Third,
    }
}

/// The same for the third part of a node.
#[inline]
pub fn third_slot(takes: Takes) -> Slot
    ensures { result ≡ third_of takes }
{
    match takes {
        Takes::Nothing
        | Takes::First(_)
        | Takes::Second(_)
        | Takes::InOrder(_, _)
        | Takes::Turned(_, _) => Slot::Nowhere,
        Takes::Choice(true) => Slot::Second,
        Takes::Choice(false) | Takes::Call => Slot::Third,
    }
}
