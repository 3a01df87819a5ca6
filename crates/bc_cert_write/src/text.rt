//! The buffer in which the lines of an entry are collected.

ghost use Rattle.std.specs.Prelude.{◌≡◌, ◌++◌, ◌∷◌, OnOk, []};
ghost use Rattle.std.specs.Fmt.{decimal};

use bc_word::Memory;
use itoa::Buffer;
use std::alloc::Global;

/// A text that only grows, until it is cleared. The methods that append return `Memory` if an allocation fails.
#[derive(Drop)]
pub struct Text {
    bytes: Vec<u8>,
}

impl Text {
    /// An empty text.
    pub fn new(alloc: Global) -> Text
        ensures { result.bytes.items ≡ [] }
    {
        Text {
            bytes: Vec::new(alloc),
        }
    }

    /// Empties the text and keeps its memory for the next entry.
    pub fn clear(&mut self)
        ensures { self.new.bytes.items ≡ [] }
    {
        self.bytes.clear();
    }

    /// Appends bytes.
    pub fn push(&mut self, bytes: &[u8]) -> Result<(), Memory>
        ensures { OnOk result (self.new.bytes.items ≡ self.old.bytes.items ++ bytes.now) }
    {
        Ok(self.bytes.extend_from_slice(bytes)?)
    }

    /// Appends a number in decimal digits. Most numbers of a certificate have one digit, so these are appended without formatting.
    #[inline(always)]
    #[tactic(auto, using(std::proofs::lemmas::Fmt::decimal_digit))]
    pub fn number(&mut self, number: u64) -> Result<(), Memory>
        ensures { OnOk result (self.new.bytes.items ≡ self.old.bytes.items ++ decimal number) }
    {
        if number < 10 {
            return Ok(self.bytes.push(b'0' + number as u8)?);
        }
        self.digits(number)
    }

    /// Appends a number of any size. Most numbers that come here are levels with two digits, so these are appended without formatting.
    #[tactic(auto, using(crate::proofs::Digits::two_digits))]
    fn digits(&mut self, number: u64) -> Result<(), Memory>
        ensures { OnOk result (self.new.bytes.items ≡ self.old.bytes.items ++ decimal number) }
    {
        if number >= 10 && number < 100 {
            let tens = b'0' + (number / 10) as u8;
            let ones = b'0' + (number % 10) as u8;
            return self.push(&[tens, ones]);
        }
        self.formatted(number)
    }

    /// Appends a number by formatting it.
    fn formatted(&mut self, number: u64) -> Result<(), Memory>
        ensures { OnOk result (self.new.bytes.items ≡ self.old.bytes.items ++ decimal number) }
    {
        let mut buffer = Buffer::new();
        self.push(buffer.format(number).as_bytes())
    }

    /// Appends a byte followed by a number in decimal digits.
    #[inline(always)]
    #[tactic(auto, using(std::proofs::lemmas::Fmt::decimal_digit))]
    pub fn marked(&mut self, mark: u8, number: u64) -> Result<(), Memory>
        ensures { OnOk result (self.new.bytes.items ≡ self.old.bytes.items ++ mark ∷ decimal number) }
    {
        if number < 10 {
            return self.push(&[mark, b'0' + number as u8]);
        }
        self.push(&[mark])?;
        self.digits(number)
    }

    /// Appends bytes followed by a number in decimal digits.
    pub fn lettered(&mut self, letters: &[u8], number: u64) -> Result<(), Memory>
        ensures { OnOk result (self.new.bytes.items ≡ self.old.bytes.items ++ (letters.now ++ decimal number)) }
    {
        self.push(letters)?;
        self.number(number)
    }

    /// The bytes of the text.
    pub fn as_slice(&self) -> &[u8]
        ensures { result.now ≡ self.now.bytes.items }
    {
        self.bytes.as_slice()
    }
}
