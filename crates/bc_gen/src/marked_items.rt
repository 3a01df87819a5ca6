//! Code with a mark where each root's code begins, and the pass that separates items and entries.
ghost use Rattle.std.specs.Prelude.{◌≡◌, IfOk, map};
ghost use Rattle.std.specs.List.{AllZip};
ghost use Rattle.bc_rules_defs.specs.View.{entry as entry_view};
ghost use Rattle.bc_cert_write.specs.Workings.{WorkedOut};
ghost use Rattle.bc_gen_defs.specs.Entries.{plain_items, count_items as count_of, entries_from, entry_at};
ghost use Rattle.bc_gen.specs.Parts.{mark as mark_view, parts as parts_view};

use crate::root_mark::RootMark;
use bc_cert_write::Workings;
use bc_rules_defs::Entry;
use bc_text_items::Item;
use bc_word::Memory;
use std::alloc::Global;

/// An item, or the mark where a root's code begins.
#[derive(Debug, Drop)]
pub(crate) enum MarkedItem {
    /// An item.
    Item(Item),
    /// The code of a root begins here.
    Begins(Box<RootMark>),
}

/// The number of items among these parts.
pub(crate) fn count_items(parts: &[MarkedItem]) -> u64
    ensures { result ≡ count_of (parts_view parts.now) }
{
    let mut count = 0;
    for part in parts {
        match part {
            MarkedItem::Item(_) => count += 1,
            MarkedItem::Begins(_) => {}
        }
    }
    count
}

/// A section's items, the entries of its roots, and the workings of each entry.
#[derive(Drop)]
pub(crate) struct Apart {
    /// The items.
    pub(crate) items: Vec<Item>,
    /// The entries, in the order of the code.
    pub(crate) entries: Vec<Entry>,
    /// The workings of each entry, at the same index.
    pub(crate) workings: Vec<Workings>,
}

/// Separates the items from the entries of the roots and their workings.
pub(crate) fn separated(alloc: Global, parts: Vec<MarkedItem>) -> Result<Apart, Memory>
    ensures items { IfOk result (λ r. r.items.items ≡ plain_items (parts_view parts.items)) }
    ensures entries { IfOk result (λ r. map entry_view r.entries.items ≡ entries_from 0 (parts_view parts.items)) }
    ensures worked { IfOk result (λ r. AllZip WorkedOut (map entry_view r.entries.items) r.workings.items) }
{
    let count = count_items(&parts) as usize;
    let roots = parts.len().saturating_sub(count);
    let mut items = Vec::with_capacity(alloc, count)?;
    let mut entries = Vec::with_capacity(alloc, roots)?;
    let mut workings = Vec::with_capacity(alloc, roots)?;
    for part in parts {
        match part {
            MarkedItem::Item(item) => items.push(item)?,
            MarkedItem::Begins(mark) => {
                let (entry, worked) = entry(items.len() as u64, Box::into_inner(mark));
                entries.push(entry)?;
                workings.push(worked)?;
            }
        }
    }
    Ok(Apart {
        items,
        entries,
        workings,
    })
}

/// The entry of a root whose code begins at the item with this index, and its workings.
fn entry(item: u64, mark: RootMark) -> (Entry, Workings)
    ensures entry { entry_view result.0 ≡ entry_at item (mark_view mark) }
    ensures worked { WorkedOut (entry_view result.0) result.1 }
{
    let entry = Entry {
        segment: 0,
        item,
        target: mark.target,
        first: mark.first,
        root: mark.root,
        derivation: mark.derivation,
        bodies: mark.bodies,
    };
    (entry, mark.workings)
}
