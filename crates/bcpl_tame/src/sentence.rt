//! What the check can't accept, and what it would need.

use bc_tame_check::Cause;

/// The number and the name of a cause, for scripts.
pub fn number_of(cause: Cause) -> (u32, &'static str) {
    match cause {
        Cause::Indirection => (1, "Indirection"),
        Cause::Address => (2, "Address"),
        Cause::Call => (3, "Call"),
        Cause::Arguments => (4, "Arguments"),
        Cause::Format => (5, "Format"),
        Cause::Recursion => (6, "Recursion"),
        Cause::LibraryGlobal => (7, "LibraryGlobal"),
        Cause::OwnGlobal => (8, "OwnGlobal"),
        Cause::Table => (9, "Table"),
        Cause::NoStart => (10, "NoStart"),
        Cause::Stack => (11, "Stack"),
        Cause::Size => (12, "Size"),
        Cause::Sections => (13, "Sections"),
        Cause::RoutineGlobal => (14, "RoutineGlobal"),
        Cause::Index => (15, "Index"),
        Cause::Unset => (16, "Unset"),
    }
}

/// What is wrong, as far as the check knows.
pub(crate) fn sentence(cause: Cause) -> &'static str {
    match cause {
        Cause::Indirection => { "not known to be tame: this reads or writes a cell by its address" }
        Cause::Address => {
            "not known to be tame: this uses a routine or the address of a static as a value"
        }
        Cause::Call => { "not known to be tame: this calls a routine that the check doesn't know" }
        Cause::Arguments => {
            "not known to be tame: this call has more or fewer arguments than the routine has parameters"
        }
        Cause::Format => {
            "not known to be tame: the check doesn't know the string that this needs, or a format takes more or other arguments"
        }
        Cause::Recursion => {
            "not known to be tame: this routine can call itself, directly or through others"
        }
        Cause::LibraryGlobal => {
            "not known to be tame: this assigns a global that holds a routine of the library"
        }
        Cause::OwnGlobal => {
            "not known to be tame: this routine sets a global that the library or another routine sets"
        }
        Cause::Table => "not known to be tame: the section has a TABLE",
        Cause::NoStart => { "not known to be tame: no file has a START without parameters" }
        Cause::Stack => {
            "not known to be tame: its routines need more cells than the store has above the program"
        }
        Cause::Size => {
            "not known to be tame: its routines need too many cells, or it nests too deep"
        }
        Cause::Sections => "not known to be tame: the program has another library",
        Cause::RoutineGlobal => {
            "not known to be tame: this assigns a global that holds a routine of the program"
        }
        Cause::Index => {
            "not known to be tame: this index isn't bounded by numbers and FORs, or may be outside of its vector or table"
        }
        Cause::Unset => {
            "not known to be tame: this cell of a vector may not be set yet, or holds a string"
        }
    }
}

/// What the check would need.
pub(crate) fn help(cause: Cause) -> &'static str {
    match cause {
        Cause::Indirection => {
            "the check follows V!I for a VEC or TABLE of a block that assigns none of its vectors and tables; `bcpl interpret` checks one run"
        }
        Cause::Address => {
            "the check follows numbers, strings, vectors and tables; a routine can be called by its name or its global"
        }
        Cause::Call => {
            "the check accepts the program's routines by name or global, and of the library those for streams and for writing"
        }
        Cause::Arguments => "give each parameter exactly one argument",
        Cause::Format => {
            "use string constants, or a routine that returns one; a format takes at most four arguments, and strings for %S"
        }
        Cause::Recursion => {
            "the check knows no bound for the depth of calls; a loop may do the same"
        }
        Cause::LibraryGlobal | Cause::RoutineGlobal => "use a variable or another global",
        Cause::OwnGlobal => "give the routine another global",
        Cause::Table => "use variables",
        Cause::NoStart => "define START() in a file that begins with GET \"LIBHDR\"",
        Cause::Stack | Cause::Size => { "use fewer variables, or fewer calls inside calls" }
        Cause::Sections => "the check takes BLIB and the files, without --library",
        Cause::Index => {
            "make the index of numbers and of the variables of FORs between numbers, which nothing assigns, by +, - and *"
        }
        Cause::Unset => {
            "set the cell before, in this list, by a number as index, or all cells by FOR I = 0 TO N DO V!I := E; a cell that holds a string can't be set again"
        }
    }
}
