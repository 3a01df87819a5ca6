//! What routines of EXTLIB do. Each law is the contract of a function that does nothing.
//!
//! Each holds for every program whose first two sections are BLIB and EXTLIB, every map of its addresses, and every store in which
//! EXTLIB can be called. A call takes exactly the stated turns, and changes nothing but what the law names.

ghost use Rattle.bc_library_laws.specs.extension.Laws.{UnpackstringUnpacksItsString, CompstringComparesStrings, PackstringPacksItsString, WritedWritesItsNumber, WriteuWritesItsNumber, WriteoctWritesItsDigits, WritehexWritesItsDigits};
ghost use Rattle.bc_library_laws.specs.extension.Reading.{RdchGivesTheNextByte, RdchGivesACharacterOnceMore, RdchKeepsNothingOfOthers, ReadnReadsItsNumber, ReadnBeginsWithACharacterTakenBack, EveryInputIsAText};

/// `UNPACKSTRING(s, v)` sets the cells of the vector v to the length and the bytes of the string s.
pub fn unpackstring_unpacks_its_string()
    ensures { UnpackstringUnpacksItsString }
{}

/// `PACKSTRING(v, s)` packs into the vector s the string that is unpacked at v, and returns the last index of s.
pub fn packstring_packs_its_string()
    ensures { PackstringPacksItsString }
{}

/// `COMPSTRING(s, t)` returns -1, 0 or 1: how the strings at s and t compare, letter by letter without regard to case.
pub fn compstring_compares_strings()
    ensures { CompstringComparesStrings }
{}

/// `WRITED(w, width)` writes w as a signed number in decimal, at the right of a field of any width but 32,767. A negative width counts
/// as 0.
pub fn writed_writes_its_number()
    ensures { WritedWritesItsNumber }
{}

/// `WRITEU(w, width)` writes w as an unsigned number in decimal, at the right of such a field.
pub fn writeu_writes_its_number()
    ensures { WriteuWritesItsNumber }
{}

/// `WRITEOCT(w, count)` writes the last `count` octal digits of w, at most 21,846; none for a negative count but -32,768.
pub fn writeoct_writes_its_digits()
    ensures { WriteoctWritesItsDigits }
{}

/// `WRITEHEX(w, count)` writes the last `count` hexadecimal digits of w, at most 16,384; none for a negative count but -32,768.
pub fn writehex_writes_its_digits()
    ensures { WritehexWritesItsDigits }
{}

/// `RDCH()` returns the next byte of the selected input, ENDSTREAMCH at its end, and keeps it for UNRDCH; if no character was taken back.
pub fn rdch_gives_the_next_byte()
    ensures { RdchGivesTheNextByte }
{}

/// After UNRDCH it returns the last character once more, and takes nothing from the input.
pub fn rdch_gives_a_character_once_more()
    ensures { RdchGivesACharacterOnceMore }
{}

/// Of an input whose number isn't from 1 to 31 it returns the next byte, and keeps nothing.
pub fn rdch_keeps_nothing_of_others()
    ensures { RdchKeepsNothingOfOthers }
{}

/// `READN()` passes over blanks, and returns the number after them modulo 65,536: a sign, if there is one, and digits. It takes the byte
/// after it too, into TERMINATOR.
pub fn readn_reads_its_number()
    ensures { ReadnReadsItsNumber }
{}

/// After UNRDCH the number begins with the character that was taken back.
pub fn readn_begins_with_a_character_taken_back()
    ensures { ReadnBeginsWithACharacterTakenBack }
{}

/// All bytes begin with such a number, so these laws leave out no bytes of an input.
pub fn every_input_is_a_text()
    ensures { EveryInputIsAText }
{}
