//! The reserved words of old dialects.

use crate::kind::Kind;

/// A word that is reserved in some old dialect.
#[derive(Clone, Copy)]
pub struct ReservedWord {
    /// The word in upper case.
    pub text: &'static [u8],
    /// Its kind.
    pub kind: Kind,
    /// How this dialect spells it.
    pub spelling: &'static [u8],
    /// Whether it may be a name in this dialect.
    pub is_name_now: bool,
}

/// The number of reserved words.
pub const MOST_WORDS: usize = 66;

static RESERVED: [ReservedWord; 66] = [
    ReservedWord {
        text: b"AND",
        kind: Kind::And,
        spelling: b"AND",
        is_name_now: false,
    },
    ReservedWord {
        text: b"BE",
        kind: Kind::Be,
        spelling: b"BE",
        is_name_now: false,
    },
    ReservedWord {
        text: b"BREAK",
        kind: Kind::Jump,
        spelling: b"BREAK",
        is_name_now: false,
    },
    ReservedWord {
        text: b"BY",
        kind: Kind::Joint,
        spelling: b"BY",
        is_name_now: false,
    },
    ReservedWord {
        text: b"CASE",
        kind: Kind::Case,
        spelling: b"CASE",
        is_name_now: false,
    },
    ReservedWord {
        text: b"DEFAULT",
        kind: Kind::Default,
        spelling: b"DEFAULT",
        is_name_now: false,
    },
    ReservedWord {
        text: b"DO",
        kind: Kind::Joint,
        spelling: b"DO",
        is_name_now: false,
    },
    ReservedWord {
        text: b"ELSE",
        kind: Kind::Joint,
        spelling: b"ELSE",
        is_name_now: false,
    },
    ReservedWord {
        text: b"ENDCASE",
        kind: Kind::Jump,
        spelling: b"ENDCASE",
        is_name_now: false,
    },
    ReservedWord {
        text: b"EQ",
        kind: Kind::Relation,
        spelling: b"EQ",
        is_name_now: false,
    },
    ReservedWord {
        text: b"EQV",
        kind: Kind::Equivalence,
        spelling: b"EQV",
        is_name_now: false,
    },
    ReservedWord {
        text: b"FALSE",
        kind: Kind::Constant,
        spelling: b"FALSE",
        is_name_now: false,
    },
    ReservedWord {
        text: b"FINISH",
        kind: Kind::Jump,
        spelling: b"FINISH",
        is_name_now: false,
    },
    ReservedWord {
        text: b"FOR",
        kind: Kind::For,
        spelling: b"FOR",
        is_name_now: false,
    },
    ReservedWord {
        text: b"GE",
        kind: Kind::Relation,
        spelling: b"GE",
        is_name_now: false,
    },
    ReservedWord {
        text: b"GET",
        kind: Kind::Get,
        spelling: b"GET",
        is_name_now: false,
    },
    ReservedWord {
        text: b"GLOBAL",
        kind: Kind::Global,
        spelling: b"GLOBAL",
        is_name_now: false,
    },
    ReservedWord {
        text: b"GOTO",
        kind: Kind::Goto,
        spelling: b"GOTO",
        is_name_now: false,
    },
    ReservedWord {
        text: b"GR",
        kind: Kind::Relation,
        spelling: b"GR",
        is_name_now: false,
    },
    ReservedWord {
        text: b"IF",
        kind: Kind::Command,
        spelling: b"IF",
        is_name_now: false,
    },
    ReservedWord {
        text: b"INTO",
        kind: Kind::Joint,
        spelling: b"INTO",
        is_name_now: false,
    },
    ReservedWord {
        text: b"LE",
        kind: Kind::Relation,
        spelling: b"LE",
        is_name_now: false,
    },
    ReservedWord {
        text: b"LET",
        kind: Kind::Let,
        spelling: b"LET",
        is_name_now: false,
    },
    ReservedWord {
        text: b"LOGAND",
        kind: Kind::Conjunction,
        spelling: b"LOGAND",
        is_name_now: false,
    },
    ReservedWord {
        text: b"LOGOR",
        kind: Kind::Disjunction,
        spelling: b"LOGOR",
        is_name_now: false,
    },
    ReservedWord {
        text: b"LOOP",
        kind: Kind::Jump,
        spelling: b"LOOP",
        is_name_now: false,
    },
    ReservedWord {
        text: b"LS",
        kind: Kind::Relation,
        spelling: b"LS",
        is_name_now: false,
    },
    ReservedWord {
        text: b"LSHIFT",
        kind: Kind::Shift,
        spelling: b"LSHIFT",
        is_name_now: false,
    },
    ReservedWord {
        text: b"MANIFEST",
        kind: Kind::Manifest,
        spelling: b"MANIFEST",
        is_name_now: false,
    },
    ReservedWord {
        text: b"NE",
        kind: Kind::Relation,
        spelling: b"NE",
        is_name_now: false,
    },
    ReservedWord {
        text: b"NEQV",
        kind: Kind::Equivalence,
        spelling: b"NEQV",
        is_name_now: false,
    },
    ReservedWord {
        text: b"NOT",
        kind: Kind::Not,
        spelling: b"NOT",
        is_name_now: false,
    },
    ReservedWord {
        text: b"OR",
        kind: Kind::Joint,
        spelling: b"OR",
        is_name_now: false,
    },
    ReservedWord {
        text: b"REM",
        kind: Kind::Divide,
        spelling: b"REM",
        is_name_now: false,
    },
    ReservedWord {
        text: b"REPEAT",
        kind: Kind::Repeat,
        spelling: b"REPEAT",
        is_name_now: false,
    },
    ReservedWord {
        text: b"REPEATUNTIL",
        kind: Kind::RepeatTest,
        spelling: b"REPEATUNTIL",
        is_name_now: false,
    },
    ReservedWord {
        text: b"REPEATWHILE",
        kind: Kind::RepeatTest,
        spelling: b"REPEATWHILE",
        is_name_now: false,
    },
    ReservedWord {
        text: b"RESULTIS",
        kind: Kind::Command,
        spelling: b"RESULTIS",
        is_name_now: false,
    },
    ReservedWord {
        text: b"RETURN",
        kind: Kind::Jump,
        spelling: b"RETURN",
        is_name_now: false,
    },
    ReservedWord {
        text: b"RSHIFT",
        kind: Kind::Shift,
        spelling: b"RSHIFT",
        is_name_now: false,
    },
    ReservedWord {
        text: b"STATIC",
        kind: Kind::Static,
        spelling: b"STATIC",
        is_name_now: false,
    },
    ReservedWord {
        text: b"SWITCHON",
        kind: Kind::Command,
        spelling: b"SWITCHON",
        is_name_now: false,
    },
    ReservedWord {
        text: b"TABLE",
        kind: Kind::Table,
        spelling: b"TABLE",
        is_name_now: false,
    },
    ReservedWord {
        text: b"TEST",
        kind: Kind::Command,
        spelling: b"TEST",
        is_name_now: false,
    },
    ReservedWord {
        text: b"THEN",
        kind: Kind::Joint,
        spelling: b"THEN",
        is_name_now: false,
    },
    ReservedWord {
        text: b"TO",
        kind: Kind::To,
        spelling: b"TO",
        is_name_now: false,
    },
    ReservedWord {
        text: b"TRUE",
        kind: Kind::Constant,
        spelling: b"TRUE",
        is_name_now: false,
    },
    ReservedWord {
        text: b"UNLESS",
        kind: Kind::Command,
        spelling: b"UNLESS",
        is_name_now: false,
    },
    ReservedWord {
        text: b"UNTIL",
        kind: Kind::Command,
        spelling: b"UNTIL",
        is_name_now: false,
    },
    ReservedWord {
        text: b"VALOF",
        kind: Kind::Valof,
        spelling: b"VALOF",
        is_name_now: false,
    },
    ReservedWord {
        text: b"VEC",
        kind: Kind::Vec,
        spelling: b"VEC",
        is_name_now: false,
    },
    ReservedWord {
        text: b"WHILE",
        kind: Kind::Command,
        spelling: b"WHILE",
        is_name_now: false,
    },
    ReservedWord {
        text: b"ABS",
        kind: Kind::Abs,
        spelling: b"ABS",
        is_name_now: true,
    },
    ReservedWord {
        text: b"EXTERNAL",
        kind: Kind::Foreign,
        spelling: b"EXTERNAL",
        is_name_now: true,
    },
    ReservedWord {
        text: b"IFNOT",
        kind: Kind::Joint,
        spelling: b"ELSE",
        is_name_now: true,
    },
    ReservedWord {
        text: b"IFSO",
        kind: Kind::Joint,
        spelling: b"THEN",
        is_name_now: true,
    },
    ReservedWord {
        text: b"LV",
        kind: Kind::Address,
        spelling: b"@",
        is_name_now: true,
    },
    ReservedWord {
        text: b"MOD",
        kind: Kind::Divide,
        spelling: b"REM",
        is_name_now: true,
    },
    ReservedWord {
        text: b"NEEDS",
        kind: Kind::Header,
        spelling: b"NEEDS",
        is_name_now: true,
    },
    ReservedWord {
        text: b"NIL",
        kind: Kind::Constant,
        spelling: b"0",
        is_name_now: true,
    },
    ReservedWord {
        text: b"OF",
        kind: Kind::Foreign,
        spelling: b"OF",
        is_name_now: true,
    },
    ReservedWord {
        text: b"RV",
        kind: Kind::Content,
        spelling: b"!",
        is_name_now: true,
    },
    ReservedWord {
        text: b"SECTION",
        kind: Kind::Header,
        spelling: b"SECTION",
        is_name_now: true,
    },
    ReservedWord {
        text: b"SLCT",
        kind: Kind::Foreign,
        spelling: b"SLCT",
        is_name_now: true,
    },
    ReservedWord {
        text: b"STRUCTURE",
        kind: Kind::Foreign,
        spelling: b"STRUCTURE",
        is_name_now: true,
    },
    ReservedWord {
        text: b"XOR",
        kind: Kind::Equivalence,
        spelling: b"NEQV",
        is_name_now: true,
    },
];

/// Whether a word has no upper-case letter.
pub fn is_small(word: &[u8]) -> bool {
    for byte in word.iter() {
        if byte.is_ascii_uppercase() {
            return false;
        }
    }
    true
}

/// Whether a word is spelled in upper case, or, if `small`, in lower case.
fn is_spelled(word: &[u8], capitals: &[u8], small: bool) -> bool {
    word == capitals || small && is_small(word) && is_same_word(word, capitals)
}

/// Whether two words are the same, ignoring case.
pub fn is_same_word(one: &[u8], other: &[u8]) -> bool {
    if one.len() != other.len() {
        return false;
    }
    for (a, b) in one.iter().zip(other) {
        if a.to_ascii_uppercase() != b.to_ascii_uppercase() {
            return false;
        }
    }
    true
}

/// The reserved word that a word spells, if any, with its index. `small` says whether lower case counts.
pub fn reserved_place(word: &[u8], small: bool) -> Option<(usize, &'static ReservedWord)> {
    for (index, candidate) in RESERVED.iter().enumerate() {
        if is_spelled(word, candidate.text, small) {
            return Some((index, candidate));
        }
    }
    None
}

/// The reserved word that a word spells, if any. `small` says whether lower case counts.
pub fn reserved(word: &[u8], small: bool) -> Option<&'static ReservedWord> {
    match reserved_place(word, small) {
        Some((_, found)) => Some(found),
        None => None,
    }
}
