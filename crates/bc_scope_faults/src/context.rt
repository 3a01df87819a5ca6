//! What the walk of a part knows of the parts around it, apart from the names in scope.
use crate::judging::Allowed;

/// Where an expression is.
#[derive(Clone, Copy)]
pub struct ExpressionContext {
    /// Whether it is part of a constant. A label's name is then no fault by itself.
    pub in_constant: bool,
    /// The level at which it is evaluated.
    pub level: u64,
}

/// Where a block or a command is.
#[derive(Clone, Copy)]
pub struct CommandContext {
    /// Which commands are allowed there.
    pub allowed: Allowed,
    /// The level at which it is executed.
    pub level: u64,
}

/// Where the items of a command list are.
#[derive(Clone, Copy)]
pub struct ListContext {
    /// Whether it is the list of a SWITCHON, which may have CASEs and a DEFAULT.
    pub cases: bool,
    /// Where its commands are.
    pub commands: CommandContext,
}
