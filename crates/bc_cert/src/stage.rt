//! Which line may come next.

use bc_cert_defs::Head;
use bc_cert_read::Rooted;

/// Which line may come next.
#[derive(Drop)]
pub enum Stage {
    /// The header.
    Header,
    /// The `E` line of an entry, or the end line.
    Between,
    /// A node line or the root line of the entry with this `E` line.
    Nodes(Head),
    /// The code line of the entry with this `E` line and root.
    Code(Head, Box<Rooted>),
    /// No line: the end line was read.
    End,
}
