//! A table of labels that is searched in constant time, while contracts see a list of pairs.

ghost use Rattle.std.specs.Prelude.{◌≡◌, IfOk};
ghost use Rattle.bc_machine_defs.specs.Places.{address_in};
ghost use Rattle.bc_link.specs.Labels.{label_address};

use bc_machine_defs::Labels;
use bc_word::{Memory, Word};
use indexmap::IndexMap;
use std::alloc::Global;
use std::marker::Model;

/// Labels with their addresses. A look-up takes constant time.
///
/// In contracts the table is a list of pairs of a label and its address. The first of several pairs with one label counts.
#[derive(Drop)]
pub struct LabelTable {
    /// All pairs, in order.
    pairs: Vec<(Word, Word)>,
    /// The address of each label, from its first pair.
    addresses: IndexMap<Word, Word>,
}

impl Model for LabelTable {
    ghost use Rattle.std.specs.Prelude.{◌≡◌, ℕ, List, nat_eq};
    ghost use Rattle.indexmap.specs.IndexMap.{get};
    ghost use Rattle.bc_machine_defs.specs.Places.{address_in};

    ghost Value = { List (ℕ × ℕ) };

    ghost view = { λ t. t.pairs.items };

    ghost invariant = { λ t. (label : ℕ) → get nat_eq t.addresses label ≡ address_in label t.pairs.items };
}

impl LabelTable {
    /// A table of these pairs of a label and its address. `Memory` if an allocation fails.
    pub fn new(alloc: Global, pairs: Vec<(Word, Word)>) -> Result<LabelTable, Memory>
        ensures { IfOk result (λ table. table ≡ pairs.items) }
    {
        let mut addresses = IndexMap::new(alloc);
        for pair in &pairs {
            if !addresses.contains_key(&pair.0) {
                addresses.insert(pair.0, pair.1)?;
            }
        }
        Ok(LabelTable { pairs, addresses })
    }

    /// The address of this label, or `None` if it isn't in the table.
    pub fn address(&self, label: Word) -> Option<Word>
        ensures { result ≡ address_in label self.now }
    {
        self.addresses.get(&label).copied()
    }

    /// The address of this label, or 0 if it isn't in the table.
    pub fn address_or_zero(&self, label: Word) -> Word
        ensures { result ≡ label_address self.now label }
    {
        self.address(label).unwrap_or(Word::new(0))
    }

    /// The labels and their addresses. Allocates nothing.
    pub fn into_labels(self) -> Labels
        ensures { result ≡ self }
    {
        Labels::new(self.pairs)
    }
}
