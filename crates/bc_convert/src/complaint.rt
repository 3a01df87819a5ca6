//! What can't be converted, with the messages for it.

use std::fmt;

/// A construct that can't be converted.
#[derive(Clone, Copy, PartialEq, Eq)]
pub enum Fault {
    /// A call of LEVEL or LONGJUMP.
    LongJump,
    /// A call of APTOVEC.
    VectorOfAnySize,
    /// A call of a routine for coroutines.
    Coroutine,
    /// The name of a label, used as a value.
    LabelAsValue,
    /// A GOTO whose destination isn't a name.
    GotoOfValue,
    /// SLCT, OF, `::` or a structure.
    Field,
    /// EXTERNAL.
    External,
    /// `<>`.
    JoinedCommands,
    /// A floating-point number or operator.
    Floating,
    /// A number over 65,535.
    NumberTooLarge,
    /// A digit that its base doesn't have.
    BadNumber,
    /// A character constant that doesn't have exactly one character.
    NotOneCharacter,
    /// An unknown escape.
    BadEscape,
    /// A string with more than 255 characters.
    StringTooLong,
    /// A comment, a string or a constant that is not closed.
    Unclosed,
    /// A character with which no token begins.
    UnknownByte,
    /// A full stop after a section, with another section after it.
    SectionEnd,
    /// A bracket that nothing closes.
    OpenBracket,
    /// A list of assignments, one of them to a byte.
    ByteInList,
    /// An assignment with an operator whose left side has a call.
    CallOnTheLeft,
    /// A chain of relations with calls in it.
    CallInChain,
    /// An operand too long to be written out twice.
    TooLongToRepeat,
    /// ABS of something other than a number, where a constant is required.
    ConstantAbs,
    /// A list of assignments with an operator.
    OperatorInList,
    /// A GOTO to a label after a later declaration.
    LabelInBlock,
    /// A range of cases that isn't a range of constants, or has over 256 of them.
    CaseRange,
    /// The first name of a GLOBAL, without a number.
    FirstGlobal,
    /// A declaration after a command in the list of a SWITCHON.
    LateDeclaration,
    /// Nesting too deep to be read.
    TooDeep,
    /// `*(` after something that isn't a vector, in a source where `*(` begins a subscript.
    StarProduct,
    /// A WRITEF whose format isn't a string, with LIBHDR.
    HiddenFormat,
    /// A call of WRITEF that needs EXTHDR, where LIBHDR was chosen.
    FurtherCall,
    /// Something that needs EXTHDR, in a source with its own header, where no source gets the library's header.
    NoHeader,
    /// GETVEC, where nothing sets up its pool.
    NoPool,
    /// `%` that may mean `|`.
    PercentOr,
    /// A line of a list of names that has only one name.
    NameAlone,
    /// An old name that an earlier line of a list of names has.
    NameTwice,
    /// A new name that neither library has.
    NoLibraryName,
    /// `*(` that was taken for a subscript.
    StarSubscript,
    /// `*(` that was left as a product, in a program in which it is a subscript elsewhere.
    StarLeft,
    /// `@` in a source that may be written for the Alto.
    AltoContent,
    /// An escape that is octal in some dialects.
    OctalEscape,
    /// A number that may be octal.
    OctalNumber,
    /// A shift by 16 or more.
    LongShift,
    /// A parameter of START.
    StartParameter,
    /// A GOTO out of a VALOF.
    JumpOutOfValof,
    /// A value outside routines that isn't a constant.
    OuterValue,
    /// A header that wasn't found, in a source that may be lawful.
    UnseenHeader,
    /// Something that an older system may read in another way, in a source that builds as it is.
    OldMeaning,
    /// A sign of conditional compilation for a part that isn't closed.
    OpenCondition,
    /// A tag of conditional compilation that nothing sets.
    TagNotSet,
    /// A CASE or DEFAULT that can't be put into the list of its SWITCHON.
    NestedCase,
    /// START, where a pool for GETVEC was put.
    PoolAdded,
    /// A global of the program's own whose number EXTLIB has too, and was changed.
    GlobalMoved,
    /// One whose number can't be changed.
    GlobalKept,
    /// A product of constants over 65,535.
    WideProduct,
    /// A value of a TABLE that isn't a constant.
    TableValue,
    /// A step of a FOR that isn't a constant.
    StepValue,
    /// SELECTON.
    Choice,
}

/// The message and the remedy for each fault, in the order of the faults.
static WORDS: [(&str, &str); 59] = [
    (
        "a jump can't leave a routine in this dialect",
        "instead of LEVEL and LONGJUMP, set a flag that each routine checks after a call",
    ),
    (
        "the size of a vector must be a constant in this dialect",
        "instead of APTOVEC, declare a vector of the largest size with VEC, or allocate one with GETVEC",
    ),
    (
        "this dialect has no coroutines",
        "keep the routine's state in statics, and call it again for each step",
    ),
    (
        "a label can't be used as a value in this dialect",
        "store a number instead, and choose the label by SWITCHON",
    ),
    (
        "GOTO needs the name of a label in this dialect",
        "choose the label by SWITCHON",
    ),
    (
        "this dialect has no fields of words",
        "write a shift and a mask, for example (W>>4)&15",
    ),
    (
        "this dialect has no EXTERNAL; files share names as globals",
        "declare each name by GLOBAL with the same number in all files",
    ),
    (
        "no sign joins two commands into one in this dialect",
        "write them between $( and $), separated by ;",
    ),
    (
        "this dialect has no floating-point numbers",
        "use integers in smaller units, or MULDIV of EXTLIB",
    ),
    (
        "this number is over 65535, and a word has 16 bits",
        "store it in two words",
    ),
    (
        "this number has a digit that its base lacks",
        "write it in decimal",
    ),
    (
        "a character constant must have exactly one character",
        "write a string, or one constant for each character",
    ),
    (
        "this dialect doesn't have this escape",
        "write the character with WRCH and its number instead",
    ),
    (
        "this string has over 255 characters",
        "split it into two strings",
    ),
    (
        "the comment, string or constant that begins here isn't closed",
        "add its closing sign",
    ),
    (
        "no token can begin with this character",
        "remove it, or write what it means",
    ),
    (
        "this full stop ends a section, but a file can have only one section in this dialect",
        "move everything after it to another file, and remove it",
    ),
    (
        "this bracket isn't closed, or no closing bracket has its tag",
        "add the closing bracket, or correct its tag",
    ),
    (
        "this list assigns to a byte, which needs a call of PUTBYTE",
        "write separate assignments",
    ),
    (
        "the left side would be evaluated twice, and it contains a call",
        "store its address in a variable first",
    ),
    (
        "the middle of this chain of relations would be evaluated twice, and it contains a call",
        "store its value in a variable first",
    ),
    (
        "this operand would be written out several times, and it is over 200 bytes long",
        "store its value in a variable first",
    ),
    (
        "a constant can't contain ABS in this dialect",
        "write its value",
    ),
    (
        "this list is assigned to with an operator",
        "write separate assignments",
    ),
    (
        "the label is now inside a block, and this GOTO is outside",
        "move the names of the later LET to the head of the enclosing block, and assign to them where the LET is",
    ),
    (
        "this isn't a range of at most 256 numbers or characters",
        "write out the cases, or test the range by IF in DEFAULT",
    ),
    (
        "this global has no number, and no entry before it has one",
        "write a colon and its number after the name",
    ),
    (
        "a declaration can't follow commands in this list",
        "write $( before it and $) after the last command that needs it",
    ),
    (
        "this is nested too deeply to be converted",
        "split it into smaller parts, or convert it by hand",
    ),
    (
        "*( follows a number here, but is a subscript elsewhere in this program",
        "it was left as a product; if it is a subscript, write ! instead of *",
    ),
    (
        "this format isn't a string, so the letters after % in it are unknown",
        "use --header exthdr, whose WRITEF knows all letters, or --header libhdr if it has only %N, %S and %C",
    ),
    (
        "the WRITEF of LIBHDR knows only %N, %S and %C, and takes at most four arguments after the format",
        "use --header exthdr, or write the parts with separate calls",
    ),
    (
        "this needs EXTHDR, but no source in this conversion gets the library's header",
        "convert all files of the program together, including the header that gets the library's",
    ),
    (
        "GETVEC returns 0 until INITVEC has set up its pool, and no source calls INITVEC",
        "at the beginning of START write LET POOL = VEC 4000, then INITVEC(POOL, 4000)",
    ),
    (
        "this % may mean | rather than a byte of a string",
        "write | instead, or GETBYTE(S, I) if it is byte I of S",
    ),
    (
        "this line has only one name",
        "write after it, separated by blanks, its name in this dialect's library",
    ),
    (
        "this name is already in an earlier line",
        "remove one of the two lines",
    ),
    (
        "neither LIBHDR nor EXTHDR has the new name of this one",
        "use a name listed in docs/library.md, all in upper case, or declare a routine with the old name in the source",
    ),
    (
        "this *( is taken for a subscript, here and wherever this source has it after the same name",
        "if it is a product, write a space after the * and convert the source again",
    ),
    (
        "*( is a subscript elsewhere in this program, but was left as a product in this source",
        "if it is a subscript, write ! instead of *",
    ),
    (
        "@ takes an address here, but the contents of a cell in the dialect of the Alto",
        "if it means rv, write ! instead of @",
    ),
    (
        "this escape is taken for decimal, but some dialects have octal ones",
        "if it is octal, write *O instead of * and convert the source again",
    ),
    (
        "this number is taken for decimal, but it looks octal, and no number in this source has a digit 8 or 9",
        "if the numbers in this source are octal, write # before each of them",
    ),
    (
        "a shift by 16 or more gives 0, since a word has 16 bits",
        "store the value in two words",
    ),
    (
        "START is called without arguments in this dialect, so this parameter has no value",
        "remove it, or read the value from an input stream",
    ),
    (
        "a jump can't leave a VALOF in this dialect",
        "set a variable, leave the VALOF by RESULTIS, and test the variable after it",
    ),
    (
        "a value outside routines must be a constant in this dialect",
        "declare the name by STATIC, and assign to it at the beginning of START",
    ),
    (
        "this header was not found, and with it the source may be lawful, so nothing was changed",
        "convert the header together with this source, or put it into the same folder",
    ),
    (
        "an older system may read this in another way, but the source builds as it is, so nothing was changed",
        "if it was written for an older system, name that by --dialect",
    ),
    (
        "no $> with the same tag follows, so it is unknown which part this controls",
        "write the missing $> with the tag at the end of that part, and convert the source again",
    ),
    (
        "nothing sets the tag of this conditional compilation, so it counts as not set; the parts left out became comments",
        "if it must be set, convert the old source again with --define and the tag; with a --define no tag is reported",
    ),
    (
        "in this dialect a CASE or DEFAULT must be directly in the list of its SWITCHON",
        "move it into the list, and put the commands that several cases share into a routine",
    ),
    (
        "GETVEC needs a pool in this dialect, so a vector of 4000 words was put at the beginning of START",
        "if GETVEC returns 0, write a larger size there in both places",
    ),
    (
        "EXTLIB has globals from 30 to 58 and 92 to 99, so this number and others of the program's own were raised",
        "if a file that isn't converted here declares them too, write the same numbers there",
    ),
    (
        "EXTLIB has a global with this number too",
        "write a number from 100 on that is free, in all files of the program",
    ),
    (
        "this product is over 65535, and a word has 16 bits",
        "use smaller sizes, or store the value in two words",
    ),
    (
        "the values of a TABLE must be constants in this dialect",
        "declare a vector with VEC, and assign the values to its words",
    ),
    (
        "the step of a FOR must be a constant in this dialect",
        "write a loop with WHILE, and add the step at its end",
    ),
    (
        "this dialect has no SELECTON",
        "write VALOF and SWITCHON, with RESULTIS in each case",
    ),
];

impl Fault {
    /// The message and the remedy.
    fn words(self) -> (&'static str, &'static str) {
        WORDS.get(self as usize).copied().unwrap_or(("", ""))
    }

    /// What to do by hand.
    pub fn remedy(self) -> &'static str {
        self.words().1
    }
}

impl fmt::Display for Fault {
    fn fmt<W: fmt::Write>(&self, f: &mut fmt::Formatter<W>) -> fmt::Result {
        f.write_str(self.words().0)
    }
}

/// A construct that can't be converted: its fault, and the bytes from `start` up to `end` with which it begins.
#[derive(Clone, Copy)]
pub struct Complaint {
    pub start: usize,
    pub end: usize,
    pub fault: Fault,
}
