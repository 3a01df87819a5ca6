//! The image of a linked program, from which the machine starts. It is in this crate so that the linker needn't depend on the interpreter.

ghost use Rattle.std.specs.Prelude.{◌≡◌, ◌<◌, ◌≤◌, ℕ, List, length, vec_len, slice_index, IfOk};
ghost use Rattle.bc_machine_defs.specs.Places.{address_in};

use bc_word::{Memory, Word};
use std::alloc::Global;
use std::marker::Model;

/// The 65,536 words of a store. In contracts they are a list, indexed by address.
#[derive(Drop)]
pub struct Words {
    words: Vec<Word>,
}

impl Model for Words {
    ghost use Rattle.std.specs.Prelude.{◌≡◌, ℕ, List, vec_len};

    ghost Value = { List ℕ };

    ghost view = { λ w. w.words.items };

    ghost invariant = { λ w. vec_len w.words ≡ 65536 };
}

impl Words {
    /// A store of these words, of which there must be exactly 65,536. The index of a word is its address.
    pub fn new(words: Vec<Word>) -> Words
        requires { vec_len words ≡ 65536 }
        ensures { result ≡ words.items }
    {
        Words { words }
    }

    /// The word at this address.
    pub fn get(&self, address: Word) -> Word
        ensures { result ≡ slice_index self.now address }
    {
        self.words[address.get() as usize]
    }

    /// All words, indexed by address.
    pub fn as_slice(&self) -> &[Word]
        ensures words { result.now ≡ self.now }
        ensures length { length result.now ≡ 65536 }
    {
        self.words.as_slice()
    }

    /// A copy of the words as numbers. Not inlined, since inlining it makes the interpreter's loop slower (docs/PERFORMANCE.md).
    ///
    /// `Memory` if an allocation fails.
    #[inline(never)]
    pub fn to_numbers(&self, alloc: Global) -> Result<Vec<u16>, Memory>
        ensures numbers { IfOk result (λ numbers. numbers.items ≡ self.now) }
        ensures length { IfOk result (λ numbers. vec_len numbers ≡ 65536) }
    {
        let mut numbers = Vec::with_capacity(alloc, self.words.len())?;
        for word in &self.words {
            numbers.push(word.get())?;
        }
        Ok(numbers)
    }
}

/// The addresses of a segment's labels. In contracts they are a list of pairs of a label and its address.
#[derive(Drop)]
pub struct Labels {
    pairs: Vec<(Word, Word)>,
}

impl Model for Labels {
    ghost use Rattle.std.specs.Prelude.{ℕ, List};

    ghost Value = { List (ℕ × ℕ) };

    ghost view = { λ l. l.pairs.items };
}

impl Labels {
    /// A table of these pairs of a label and its address.
    pub fn new(pairs: Vec<(Word, Word)>) -> Labels
        ensures { result ≡ pairs.items }
    {
        Labels { pairs }
    }

    /// The pairs of a label and its address.
    pub fn as_slice(&self) -> &[(Word, Word)]
        ensures { result.now ≡ self.now }
    {
        self.pairs.as_slice()
    }

    /// The address of this label, or `None` if the segment doesn't set it. The first of several pairs with the label counts.
    pub fn address(&self, label: Word) -> Option<Word>
        ensures { result ≡ address_in label self.now }
    {
        for pair in &self.pairs {
            if label == pair.0 {
                return Some(pair.1);
            }
        }
        None
    }
}

/// Where a segment is in the store.
#[derive(Drop)]
pub struct SegmentPlace {
    /// The address of its first word.
    pub start: Word,
    /// The addresses of its labels.
    pub labels: Labels,
}

/// Where the segments of an image are. In contracts it is the list of the segments' places, in the order of the segments.
#[derive(Drop)]
pub struct Places {
    segments: Vec<SegmentPlace>,
}

impl Model for Places {
    ghost use Rattle.std.specs.Prelude.{List};
    ghost use Rattle.bc_machine_defs.specs.declared.image.SegmentPlace.{SegmentPlace};

    ghost Value = { List SegmentPlace };

    ghost view = { λ p. p.segments.items };
}

impl Places {
    /// The places of the segments, in their order.
    pub fn new(segments: Vec<SegmentPlace>) -> Places
        ensures { result ≡ segments.items }
    {
        Places { segments }
    }

    /// The places of the segments, in their order.
    pub fn as_slice(&self) -> &[SegmentPlace]
        ensures { result.now ≡ self.now }
    {
        self.segments.as_slice()
    }
}

/// The image of a linked program.
#[derive(Drop)]
pub struct Image {
    /// The words of the store at the start.
    pub words: Words,
    /// The address at which the stack begins.
    pub stack_base: Word,
    /// Where the segments are.
    pub places: Places,
}
