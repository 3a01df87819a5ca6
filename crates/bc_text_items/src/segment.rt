//! A segment: the code of one source.

ghost use Rattle.std.specs.Prelude.{◌≡◌};

use crate::item::Item;
use std::marker::Model;

/// A segment, which is a list of items; in contracts it is that list. The `Z` that ends it in a text isn't an item.
#[derive(Debug, Drop)]
pub struct Segment {
    items: Vec<Item>,
}

impl Model for Segment {
    ghost use Rattle.std.specs.Prelude.{List};
    ghost use Rattle.bc_text_items.specs.declared.item.Item.{Item};

    ghost Value = { List Item };

    ghost view = { λ s. s.items.items };
}

impl Segment {
    /// A segment of these items.
    pub fn new(items: Vec<Item>) -> Segment
        ensures { result ≡ items.items }
    {
        Segment { items }
    }

    /// The items of the segment.
    pub fn items(&self) -> &[Item]
        ensures { result.now ≡ self.now }
    {
        self.items.as_slice()
    }
}
