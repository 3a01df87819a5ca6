//! What can be chosen about a layout.

/// What can be chosen about a layout.
#[derive(Clone, Copy, Debug)]
pub struct Style {
    /// How many characters a line should have at most.
    pub width: usize,
}

impl Style {
    /// The width of lines if none is chosen.
    pub const WIDTH: usize = 100;
}
