//! The names and numbers of streams.

ghost use Rattle.std.specs.Prelude.{◌≡◌, ◌≤◌, ℕ, List, map, cond, nat_le, length};
ghost use Rattle.bc_machine_defs.specs.StreamStart.{first_number};
ghost use Rattle.std.specs.List.{position_from, list_any};
ghost use Rattle.std.specs.Str.{bytes_eq};
ghost use Rattle.bc_machine_defs.specs.StreamCalls.{number_or_none};
ghost use Rattle.bc_machine.specs.Refusal.{refusal_in};

use crate::faults::StreamsError;
use bc_word::Word;

/// A device with the name by which its stream is found.
#[derive(Drop)]
pub struct Named<T> {
    /// The name. Streams reject one of more than 255 bytes.
    pub name: Vec<u8>,
    /// The device: the bytes of an input in memory, a reader or a writer.
    pub device: T,
}

/// The name of an output, and whether the output has been ended.
#[derive(Drop)]
pub struct NamedOutput {
    /// The name.
    pub name: Vec<u8>,
    /// Whether the output has been ended, and drops what is written to it.
    pub ended: bool,
}

/// Something with the name of a stream.
pub trait HasName {
    ghost name_of: { Self → List ℕ };

    /// The bytes of the name.
    fn name(&self) -> &[u8]
        ensures { result.now ≡ name_of self.now };
}

impl<T> HasName for Named<T> {
    ghost name_of = { λ n. n.name.items };

    fn name(&self) -> &[u8] {
        self.name.as_slice()
    }
}

impl HasName for NamedOutput {
    ghost name_of = { λ o. o.name.items };

    fn name(&self) -> &[u8] {
        self.name.as_slice()
    }
}

impl HasName for Vec<u8> {
    ghost name_of = { λ n. n.items };

    fn name(&self) -> &[u8] {
        self.as_slice()
    }
}

/// Whether one of these streams has this name.
fn is_among<N: HasName>(table: &[N], name: &[u8]) -> bool
    ensures { result ≡ list_any (λ known. bytes_eq known name.now) (map N.name_of table.now) }
{
    for stream in table {
        if stream.name() == name {
            return true;
        }
    }
    false
}

/// Why these names can't be the names of a table, by the first name that is wrong; `None` if they can.
pub fn refusal<N: HasName>(table: &[N]) -> Option<StreamsError>
    ensures { result ≡ refusal_in (map N.name_of table.now) }
{
    for (i, stream) in table.iter().enumerate() {
        if stream.name().len() > 255 {
            return Some(StreamsError::NameTooLong);
        }
        if is_among(&table[..i], stream.name()) {
            return Some(StreamsError::NameTwice);
        }
    }
    None
}

/// The number of the first stream with this name, counted from 1; 0 if there is none or the number doesn't fit into a word.
pub fn number_of<N: HasName>(table: &[N], name: &[u8]) -> Word
    ensures { result ≡ number_or_none (position_from (λ known. bytes_eq known name.now) 1 (map N.name_of table.now)) }
{
    for (i, stream) in table.iter().enumerate() {
        if stream.name() == name {
            return if i < 65535 {
                Word::new((i + 1) as u16)
            } else {
                Word::new(0)
            };
        }
    }
    Word::new(0)
}

/// The number if a table of this many streams has it, else 0.
pub fn chosen(number: Word, streams: usize) -> u16
    ensures number { result ≡ cond (nat_le number streams) number 0 }
    ensures within { result ≤ streams }
{
    if number.get() as usize <= streams {
        number.get()
    } else {
        0
    }
}

/// The number of a table's first stream: 1, or 0 if the table is empty.
pub fn number_of_first<N: HasName>(table: &[N]) -> u16
    ensures number { result ≡ first_number table.now }
    ensures within { result ≤ length table.now }
{
    if table.is_empty() { 0 } else { 1 }
}
