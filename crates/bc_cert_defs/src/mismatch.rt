//! Why a verdict doesn't fit the segments it is compared with.

use thiserror::Error;

/// Why a verdict doesn't fit its segments. Each variant has the number of the first entry at fault, counted from 0.
///
/// If several things are wrong with that entry, `Order` takes precedence over `OutsideText`, and that over `CodeDiffers`.
#[derive(Clone, Copy, Debug, PartialEq, Eq, Hash, Error)]
pub enum Mismatch {
    /// The items are not the entry's code.
    #[error("entry {0}: the items in the text are not its code")]
    CodeDiffers(u64),
    /// The text has no such segment, or not all of the entry's items are within it.
    #[error("entry {0}: the text has no such items")]
    OutsideText(u64),
    /// The entry's place, its segment and item, is before that of the preceding entry.
    #[error("entry {0}: its items begin before those of the previous entry")]
    Order(u64),
}
