//! Laws of the words that items become. Each is the contract of a function that does nothing: a proof cites it by the function's name,
//! and a call of it produces no code.

ghost use Rattle.std.specs.Prelude.{ℕ, List};
ghost use Rattle.bc_text_items.specs.declared.item.Item.{Item};
ghost use Rattle.bc_text_items.specs.Laws.{BeginsWithNoByte, HasItsSize, StandApart};

/// Items become as many words as their size says, whatever addresses labels have.
pub fn assembled_has_its_size()
    ensures { (address : ℕ → ℕ) (items : List Item) → HasItsSize address items }
{}

/// A list of items may be split before any item but a byte: the words, the size, the places of labels and the settings of the whole are
/// those of the parts.
pub fn parts_stand_apart()
    ensures { (address : ℕ → ℕ) (start : ℕ) (items others : List Item) → BeginsWithNoByte others → StandApart address start items others }
{}
