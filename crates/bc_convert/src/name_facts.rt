//! What the places of each name show together.

/// What all places of a name show together.
#[derive(Clone, Copy, Default)]
pub struct NameFacts {
    /// The first token with this name.
    pub first: usize,
    /// The name is declared: after LET, AND or FOR, as a parameter, or in a list of GLOBAL, MANIFEST or STATIC.
    pub is_declared: bool,
    /// It is declared other than by GLOBAL.
    pub is_own: bool,
    /// It is declared as a routine.
    pub is_routine: bool,
    /// It is called.
    pub is_called: bool,
    /// It is set up as a vector.
    pub is_vector: bool,
    /// It is followed by a star and a parenthesis.
    pub has_star: bool,
    /// It is used as a number. This is only known of names that are followed by a star and a parenthesis.
    pub is_number: bool,
    /// The number that it gets once its underlines are dots, so that it is unique. 1 means none.
    pub suffix: u32,
    /// Its value, if it is declared by MANIFEST with a number.
    pub value: Option<u32>,
    /// It is declared by MANIFEST.
    pub is_constant: bool,
    /// It is declared as a field of a word.
    pub is_field: bool,
}

impl NameFacts {
    /// What these places and others of the same name show together. The first place is the earlier one.
    pub fn with(self, other: NameFacts) -> NameFacts {
        NameFacts {
            is_declared: self.is_declared || other.is_declared,
            is_own: self.is_own || other.is_own,
            is_routine: self.is_routine || other.is_routine,
            is_called: self.is_called || other.is_called,
            is_vector: self.is_vector || other.is_vector,
            has_star: self.has_star || other.has_star,
            is_number: self.is_number || other.is_number,
            value: self.value.or(other.value),
            is_constant: self.is_constant || other.is_constant,
            is_field: self.is_field || other.is_field,
            ..self
        }
    }
}

/// The names of a text. By default there are none.
#[derive(Clone, Copy)]
pub struct NameTable<'s> {
    /// For each token that is a name its number in `facts`, for any other the number of tokens.
    pub numbers: &'s [usize],
    /// The facts about each name, in the order of the first places.
    pub facts: &'s [NameFacts],
    /// For each number whether a name consists of TEMP, a dot and this number. Numbers past the end are free.
    pub taken: &'s [bool],
    /// The text gets no header but the library's.
    pub gets_library_alone: bool,
}

impl<'s> NameTable<'s> {
    /// A table without names.
    pub fn empty() -> NameTable<'s> {
        NameTable {
            numbers: &[],
            facts: &[],
            taken: &[],
            gets_library_alone: false,
        }
    }
}
