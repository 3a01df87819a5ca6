//! What the routines of BLIB do. Each law is the contract of a function that does nothing.
//!
//! Each holds for every program with BLIB as its first section, every map of its addresses, and every store in which the library can be
//! called. A call takes exactly the stated turns, and changes nothing but what the law names.

ghost use Rattle.bc_library_laws.specs.Laws.{NewlineWritesALineBreak, WritenWritesItsNumber, GetbyteGivesItsByte, WritesWritesItsString, PutbyteSetsItsByte, WritefWritesItsPieces, AProgramPrintsItsNumber};

/// `NEWLINE()` writes the byte 10.
pub fn newline_writes_a_line_break()
    ensures { NewlineWritesALineBreak }
{}

/// `WRITEN(w)` writes w as a signed number in decimal.
pub fn writen_writes_its_number()
    ensures { WritenWritesItsNumber }
{}

/// `GETBYTE(s, i)` returns byte i of the bytes packed at s, if the word with that byte is set.
pub fn getbyte_gives_its_byte()
    ensures { GetbyteGivesItsByte }
{}

/// `WRITES(s)` writes the bytes of the string at s.
pub fn writes_writes_its_string()
    ensures { WritesWritesItsString }
{}

/// `PUTBYTE(s, i, c)` sets byte i of the bytes packed at s to the low byte of c, if the word with that byte is set. It changes no other
/// byte.
pub fn putbyte_sets_its_byte()
    ensures { PutbyteSetsItsByte }
{}

/// `WRITEF(s, ..)` writes the pieces of the format at s. The pieces take their words from the further arguments, at most four.
pub fn writef_writes_its_pieces()
    ensures { WritefWritesItsPieces }
{}

/// The program `START() BE WRITEN(w)` prints w and finishes, for every w, map and input and every sufficient number of turns.
pub fn a_program_prints_its_number()
    ensures { AProgramPrintsItsNumber }
{}
