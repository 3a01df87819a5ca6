//! The names that EXTHDR adds to those of LIBHDR, for messages and the conversion of old sources. The gate checks that they are those
//! of the text.

/// The names that EXTHDR declares and LIBHDR doesn't.
const NAMES: [&str; 34] = [
    "WRITED",
    "WRITEU",
    "WRITEOCT",
    "WRITEHEX",
    "WRITET",
    "NEWPAGE",
    "READN",
    "TERMINATOR",
    "UNRDCH",
    "INPUT",
    "OUTPUT",
    "PACKSTRING",
    "UNPACKSTRING",
    "CAPITALCH",
    "COMPSTRING",
    "INITVEC",
    "GETVEC",
    "FREEVEC",
    "MULDIV",
    "RESULT2",
    "RANDOM",
    "RANDOMISE",
    "STOP",
    "REWIND",
    "WRITEO",
    "RDARGS",
    "TESTFLAGS",
    "COMPCH",
    "TIME",
    "MAPSTORE",
    "FIRSTFREEGLOBAL",
    "BYTESPERWORD",
    "MAXINT",
    "MININT",
];

/// The name in EXTHDR, but not in LIBHDR, that equals `word` if case is ignored, or `None`.
pub fn further_word(word: &[u8]) -> Option<&'static str> {
    for name in NAMES {
        if word.eq_ignore_ascii_case(name.as_bytes()) {
            return Some(name);
        }
    }
    None
}

/// A different bit for each name that EXTHDR declares and LIBHDR doesn't, if `word` equals it with case ignored; otherwise 0.
pub fn further_bit(word: &[u8]) -> u64 {
    let mut bit: u64 = 1;
    for name in NAMES {
        if word.eq_ignore_ascii_case(name.as_bytes()) {
            return bit;
        }
        bit = bit.saturating_mul(2);
    }
    0
}

/// Whether EXTHDR declares exactly this name and LIBHDR doesn't.
pub fn is_of_further_library(name: &[u8]) -> bool {
    match further_word(name) {
        Some(known) => known.as_bytes() == name,
        None => false,
    }
}
