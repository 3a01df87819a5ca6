//! Laws of texts, independent of any code that reads or prints them. Each is the contract of a function that does nothing: a proof cites
//! it by the function's name, and a call of it produces no code.

ghost use Rattle.std.specs.Prelude.{List, ℕ};
ghost use Rattle.bc_text_items.specs.declared.item.Item.{Item};
ghost use Rattle.bc_text.specs.declared.text_error.TextError.{TextError};
ghost use Rattle.bc_text.specs.Laws.{IsOneText, HasOneFault, IsTextOrFault, IsFirst};
ghost use Rattle.bc_text.specs.Printed.{ReadsBack};

/// Bytes are a text of at most one list of segments, and if they are a text, they have no fault.
pub fn one_text()
    ensures { (bytes : List ℕ) → IsOneText bytes }
{}

/// Bytes have at most one fault.
pub fn one_fault()
    ensures { (bytes : List ℕ) → HasOneFault bytes }
{}

/// Bytes are a text, or they have a fault.
pub fn text_or_fault()
    ensures { (bytes : List ℕ) → IsTextOrFault bytes }
{}

/// A fault within bytes stays their fault however they go on, and no text begins with them. Bytes without a fault can be continued to a
/// text. So a fault is known at the first byte after which no text is possible.
pub fn fault_is_first()
    ensures { (bytes : List ℕ) → IsFirst bytes }
{}

/// Segments that are printed one after another are a text of these segments.
pub fn printed_reads_back()
    ensures { (segments : List (List Item)) → ReadsBack segments }
{}
