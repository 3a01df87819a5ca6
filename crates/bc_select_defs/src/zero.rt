//! Whether an operand is the number 0. It is a separate file because the checker of certificates uses it too.

ghost use Rattle.std.specs.Prelude.{◌≡◌};
ghost use Rattle.bc_select_defs.specs.Choices.{zero_number};

use bc_word::Word;

/// Whether there is a number and it is 0.
pub fn is_zero_number(number: Option<Word>) -> bool
    ensures { result ≡ zero_number number }
{
    match number {
        None => false,
        Some(n) => n.get() == 0,
    }
}
