//! The type `Word`.
ghost use Rattle.std.specs.Prelude.{◌≡◌, ◌<◌, ℕ, ℤ};
ghost use Rattle.bc_word.specs.Words.{signed, negated, complemented};

use std::marker::Model;

/// A word of 16 bits: the only type of the language, and the content of a cell of the machine's store.
///
/// Contracts see a word as a natural number from 0 to 65,535.
#[derive(Clone, Copy, Debug, Default, PartialEq, Eq, Hash, PartialOrd, Ord)]
pub struct Word {
    bits: u16,
}

impl Model for Word {
    ghost use Rattle.std.specs.Prelude.{ℕ, ◌<◌};

    ghost Value = { ℕ };

    ghost view = { λ w. w.bits };

    ghost invariant = { λ w. w.bits < 65536 };

    ghost inverse = { λ n. record { bits = n } };
}

impl Word {
    /// The word with this unsigned number.
    #[inline(always)]
    pub const fn new(number: u16) -> Word
        ensures { result ≡ number }
    {
        Word { bits: number }
    }

    /// The word as an unsigned number, 0 to 65,535.
    #[inline(always)]
    pub const fn get(self) -> u16
        ensures same { result ≡ self }
        ensures below { self < 65536 }
    {
        self.bits
    }

    /// The word as a signed number in two's complement, -32,768 to 32,767.
    #[inline(always)]
    pub fn signed(self) -> i16
        ensures { result ≡ signed self }
    {
        self.get().cast_signed()
    }

    /// The negation, wrapped: -32,768 is its own negation. This is the machine's operation X2.
    #[inline(always)]
    pub fn negated(self) -> Word
        ensures { result ≡ negated self }
    {
        Word {
            bits: self.get().wrapping_neg(),
        }
    }

    /// The word with every bit inverted. This is NOT, and the machine's operation X3.
    #[inline(always)]
    pub fn complemented(self) -> Word
        ensures { result ≡ complemented self }
    {
        Word { bits: !self.get() }
    }
}

impl From<u16> for Word {
    ghost from_gives = { λ n w. w ≡ n };

    #[inline(always)]
    fn from(number: u16) -> Word {
        Word::new(number)
    }
}

impl From<Word> for u16 {
    ghost from_gives = { λ w n. n ≡ w };

    #[inline(always)]
    fn from(word: Word) -> u16 {
        word.bits
    }
}
