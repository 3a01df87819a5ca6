//! The ids of findings. Written by tools/catalogue from catalogue/*.txt; edit those.

/// `{4s} binds tighter than {0s}: this is {1} {0s} ({2} {4s} {3})`
pub const LOOSE_RELATION: u16 = 0;

/// `{0s} {2} is a condition by itself here, and always true`
pub const CONSTANT_CONDITION: u16 = 1;

/// `this is always true: {3} differs from one of the two at least`
pub const ALWAYS_DIFFERENT: u16 = 2;

/// `this is never true: {3} can't be both`
pub const NEVER_BOTH: u16 = 3;

/// `{1} is a string, and its address is compared here`
pub const COMPARED_STRING: u16 = 4;

/// `this compares the addresses of two strings`
pub const COMPARED_STRINGS: u16 = 5;

/// `{2} is never TRUE: TRUE is -1, and FALSE is 0`
pub const NEVER_TRUE: u16 = 6;

/// `{1} is a truth value, and never {2}: TRUE is -1, and FALSE is 0`
pub const COMPARED_TRUTH: u16 = 7;

/// `{1} is a routine, and without parentheses it isn't called`
pub const UNCALLED_ROUTINE: u16 = 8;

/// `this compares the addresses of two vectors`
pub const COMPARED_VECTORS: u16 = 9;

/// `{1} is the address of its cells, and never 0`
pub const VECTOR_AND_ZERO: u16 = 10;

/// `this is never true: no number is greater than 32767`
pub const NEVER_GREATER: u16 = 11;

/// `this is never true: no number is less than -32768`
pub const NEVER_LESS: u16 = 12;

/// `this is always true: no number is greater than 32767`
pub const ALWAYS_LESS: u16 = 13;

/// `this is always true: no number is less than -32768`
pub const ALWAYS_GREATER: u16 = 14;

/// `this adds the addresses of two vectors`
pub const ADDED_VECTORS: u16 = 15;

/// `this adds to the address of a string`
pub const ADDED_STRING: u16 = 16;

/// `this adds the addresses of two strings`
pub const ADDED_STRINGS: u16 = 17;

/// `NOT {n} is {mi}, which is true`
pub const INVERTED_NUMBER: u16 = 18;

/// `{1} is {1k}, whose address is always true`
pub const STRING_AS_CONDITION: u16 = 19;

/// `{1} is {1k}, whose address is always true`
pub const VECTOR_AS_CONDITION: u16 = 20;

/// `{1} is a string, and a word of it holds two characters`
pub const WORD_OF_STRING: u16 = 21;

/// `{1} is a number here, and ! takes it for an address`
pub const LOADED_NUMBER: u16 = 22;

/// `{1} is a truth value, and ! takes it for an address`
pub const LOADED_TRUTH: u16 = 23;

/// `this is always true: each {3} meets one of the two`
pub const MEETS_ONE: u16 = 24;

/// `this is never true: no {3} meets both`
pub const MEETS_BOTH: u16 = 25;

/// `this compares {1} with the character that is read, and assigns nothing`
pub const KEPT_BY_RELATION: u16 = 26;

/// `{0} is one number, and not one character or the other`
pub const EQUAL_TO_ONE_OF: u16 = 27;

/// `{0} is one number, and not one character or the other`
pub const DIFFERS_FROM_EACH: u16 = 28;

/// `{1} is never TRUE, which is -1 and has all bits`
pub const MASKED_TRUTH: u16 = 29;

/// `{1} never returns TRUE, which is -1: it returns other numbers`
pub const RETURNED_NUMBERS: u16 = 30;

/// `{1} is -1, and not 1, if {2} is negative and odd`
pub const ODD_REMAINDER: u16 = 31;

/// `{4s} binds tighter than {0s}: this is {1} {0s} ({2} {4s} {3})`
pub const RELATION_AFTER_SHIFT: u16 = 32;

/// `{4s} binds tighter than {0s}: this is ({1} {4s} {2}) {0s} {3}`
pub const RELATION_BEFORE_SHIFT: u16 = 33;

/// `{0} is -1 if it is true, and not 1`
pub const COUNTED_TRUTH: u16 = 34;

/// `{0} doesn't fit into 16 bits`
pub const LARGE_SUM: u16 = 35;

/// `{0} is {n}: a quotient drops its fraction`
pub const DROPPED_FRACTION: u16 = 36;

/// `{0} doesn't fit into 16 bits`
pub const LARGE_PRODUCT: u16 = 37;

/// `the quotient drops its fraction before it is multiplied`
pub const LATE_PRODUCT: u16 = 38;

/// `{0} is a character, whose code isn't the digit that it shows`
pub const CHARACTER_AS_DIGIT: u16 = 39;

/// `{1} is a character, and {0} is a number`
pub const CHARACTER_AND_NUMBER: u16 = 40;

/// `{0} is the address of cells that are gone after this`
pub const LOST_CELLS: u16 = 41;

/// `{1} has only the cells 0 to {n}`
pub const BEYOND_CELLS: u16 = 42;

/// `{1} has only the cell 0`
pub const BEYOND_CELL: u16 = 43;

/// `{2} comes to {mi} here, but {1} has only the cells 0 to {n}`
pub const COUNTED_BEYOND_CELLS: u16 = 44;

/// `{2} comes to {mi} here, but {1} has only the cell 0`
pub const COUNTED_BEYOND_CELL: u16 = 45;

/// `{1} is a string, and a word of it holds two characters`
pub const START_OF_STRING: u16 = 46;

/// `{1} is a string, and a word of it holds two characters`
pub const BYTE_OF_STRING: u16 = 47;

/// `{1} is a number here, and not the address of a vector`
pub const INDEXED_NUMBER: u16 = 48;

/// `{1} is a number here, and not the address of a vector`
pub const INDEXED_STATIC: u16 = 49;

/// `{1} is the address of the variable {2t}, not that of its cells`
pub const ADDRESS_OF_ADDRESS: u16 = 50;

/// `this divides by 0`
pub const DIVISION_BY_ZERO: u16 = 51;

/// `a word has 16 bits, so this shift gives 0`
pub const LARGE_SHIFT: u16 = 52;

/// `{2t} takes {w} here, but {0} is {0k}`
pub const ARGUMENT_OF_OTHER_KIND: u16 = 100;

/// `a call has parentheses, as in {3t}()`
pub const ROUTINE_FOR_VALUE: u16 = 101;

/// `a call has parentheses, as in {0}()`
pub const UNNAMED_ROUTINE_FOR_VALUE: u16 = 102;

/// `a character is in single quotes: '{0c}'`
pub const STRING_OF_CHARACTER: u16 = 103;

/// `WRITES and %S write a string`
pub const STRING_FOR_CHARACTER: u16 = 104;

/// `a number has no quotes; WRITES and %S write a string`
pub const STRING_FOR_NUMBER: u16 = 105;

/// `no operator repeats a string; write it in a FOR, as in FOR I = 1 TO 20 DO WRITES("-")`
pub const REPEATED_STRING: u16 = 106;

/// `WRITEN and %N write a number`
pub const NUMBER_FOR_STRING: u16 = 107;

/// `WRCH and %C write a character; a string is in double quotes`
pub const CHARACTER_FOR_STRING: u16 = 108;

/// `an element of it is written {0}!0, {0}!1 and so on`
pub const VECTOR_FOR_VALUE: u16 = 109;

/// `the value is taken for an address, whatever it is`
pub const VALUE_FOR_ADDRESS: u16 = 110;

/// `the arguments are the string, the number of the byte, and the character: GETBYTE(S, I), PUTBYTE(S, I, CH)`
pub const BYTES_OF_STRING: u16 = 111;

/// `FINDINPUT opens a stream: SELECTINPUT(FINDINPUT({0}))`
pub const SELECTED_INPUT: u16 = 112;

/// `FINDOUTPUT opens a stream: SELECTOUTPUT(FINDOUTPUT({0}))`
pub const SELECTED_OUTPUT: u16 = 113;

/// `WRITEN takes a number here, but {0} is the address of a cell`
pub const CELL_ADDRESS: u16 = 114;

/// `WRCH takes a character here, but {0} is a number of one digit`
pub const LAST_DIGIT: u16 = 115;

/// `{n} is read signed here, as {ni}`
pub const SIGNED_NUMBER: u16 = 116;

/// `this call passes {n} argument{ns}, but {1t} has {m} parameter{ms}`
pub const MISSING_ARGUMENTS: u16 = 117;

/// `this call passes {n} argument{ns}, but {1t} has {m} parameter{ms}`
pub const FURTHER_ARGUMENTS: u16 = 118;

/// `this call passes {n} argument{ns}, but {1t} has {m} parameter{ms}`
pub const FURTHER_ARGUMENTS_WRITTEN: u16 = 119;

/// `this call passes {n} argument{ns}, but {1t} has {m} parameter{ms}`
pub const FURTHER_ARGUMENTS_READ: u16 = 120;

/// `WRITES writes %{nc} as it is, and no value`
pub const PLAIN_FORMAT: u16 = 121;

/// `the format writes {0} with %{nc}, which takes {w}, but it is {0k}`
pub const FORMAT_OF_OTHER_KIND: u16 = 122;

/// `this format writes {n} argument{ns}, but {m} follows it`
pub const SURPLUS_ARGUMENT: u16 = 123;

/// `this format writes {n} argument{ns}, but {m} follow it`
pub const SURPLUS_ARGUMENTS: u16 = 124;

/// `this format takes {n} arguments, but WRITEF writes {m} at most`
pub const FORMAT_OF_MANY: u16 = 125;

/// `no width comes before a letter: WRITEF writes {nc} for %{nc}, and no argument`
pub const MISPLACED_WIDTH: u16 = 126;

/// `the % before `{nc}` in this format isn't written`
pub const LOST_PERCENT: u16 = 127;

/// `this puts one character into a word of {1t}, but a string has two in each word`
pub const UNPACKED_STRING: u16 = 128;

/// `WRITES writes as many characters as byte 0 of {0} says, and nothing sets it to their number`
pub const UNSET_LENGTH: u16 = 129;

/// `this passes the address of the variable {0}, not that of its cells`
pub const PASSED_ADDRESS: u16 = 130;

/// `{0} is a variable here, and hides the routine {0}`
pub const CALLED_VARIABLE: u16 = 131;

/// `this FOR does nothing: it counts up, and {0} is greater than {1}`
pub const EMPTY_COUNT_UP: u16 = 200;

/// `this FOR does nothing: it counts down, and {0} is less than {1}`
pub const EMPTY_COUNT_DOWN: u16 = 201;

/// `this FOR never ends: BY 0 doesn't change its variable`
pub const STEP_ZERO: u16 = 202;

/// `this FOR never ends: no number is greater than 32767`
pub const ENDLESS_COUNT_UP: u16 = 203;

/// `this FOR never ends: no number is less than -32768`
pub const ENDLESS_COUNT_DOWN: u16 = 204;

/// `{0} is a character, whose code isn't the digit that it shows`
pub const READ_LIMIT: u16 = 205;

/// `this VALOF can end without a RESULTIS`
pub const VALOF_WITHOUT_END: u16 = 206;

/// `this VALOF has no RESULTIS, so its value is always 0`
pub const VALOF_WITHOUT_RESULT: u16 = 207;

/// `control falls from the commands before into this {0}`
pub const FALL_THROUGH: u16 = 208;

/// `this command is never reached: {1t} ends the run by FINISH`
pub const AFTER_FINISH: u16 = 209;

/// `this loop has no second round: its body always leaves it`
pub const SINGLE_ROUND: u16 = 210;

/// `each call of {1} calls {1} again, without end`
pub const ENDLESS_RECURSION: u16 = 211;

/// `this is another {0t}, which is never read`
pub const HIDDEN_VARIABLE: u16 = 212;

/// `this FOR has another {0t}, which hides that of the FOR around it`
pub const SAME_COUNTER: u16 = 213;

/// `{0t} has no effect: it assigns only to its parameters, which are copies of the arguments`
pub const CHANGED_COPIES: u16 = 214;

/// `this is the new {0t}, which has no value yet`
pub const HIDDEN_BY_NEW: u16 = 215;

/// `this is the new {0t}, which has no value yet`
pub const OWN_VALUE: u16 = 216;

/// `each call has a new {1t}, which is 0 first, so this always gives 1`
pub const LOST_COUNT: u16 = 217;

/// `{1} has its new value here: an assignment works pair by pair, from left to right`
pub const CROSSED_ASSIGNMENT: u16 = 218;

/// `this comes after the IF, not in it: {1} is all that depends on its condition`
pub const REST_OF_SWAP: u16 = 219;

/// `this loop does nothing: {0} is true from the start`
pub const TRUE_FROM_START: u16 = 220;

/// `this loop does nothing: {0} is false from the start`
pub const FALSE_FROM_START: u16 = 221;

/// `{1} steps over {2}: it grows by {n} in each round`
pub const PASSED_LIMIT: u16 = 222;

/// `a run passes no arguments to START, so {0t} has no value`
pub const START_PARAMETER: u16 = 223;

/// `this loop doesn't end if the input ends: {1} is ENDSTREAMCH then`
pub const UNENDED_UNTIL: u16 = 224;

/// `this loop doesn't end if the input ends: {1} is ENDSTREAMCH then`
pub const UNENDED_WHILE: u16 = 225;

/// `{0} is ENDSTREAMCH in the last round, and no character`
pub const WRITTEN_END: u16 = 226;

/// `this reads another character: the one that was compared before is lost`
pub const SECOND_READ: u16 = 227;

/// `{0t} is never used: FINDINPUT finds an input, and doesn't select it`
pub const UNUSED_INPUT: u16 = 228;

/// `{0t} is never used: FINDOUTPUT finds an output, and doesn't select it`
pub const UNUSED_OUTPUT: u16 = 229;

/// `this BREAK leaves the loop around the SWITCHON`
pub const CLOSING_BREAK: u16 = 230;

/// `{0} counts from 0, and byte 0 of a string is its length`
pub const COUNTED_FROM_LENGTH: u16 = 231;

/// `the value of {1} isn't used, and it does nothing else`
pub const DROPPED_VALUE: u16 = 232;

/// `this reads a character and drops it, and the loop reads others`
pub const TWO_READS: u16 = 233;

/// `this replaces the address of the vector {0} by that of a string, and copies nothing`
pub const REPLACED_BY_STRING: u16 = 234;

/// `this replaces the address of the vector {0}, and copies no cell`
pub const REPLACED_BY_VECTOR: u16 = 235;

/// `this replaces the address of the vector {0} by a number`
pub const REPLACED_BY_NUMBER: u16 = 236;

/// `{0} is true for each character, and at the end of the input`
pub const CHARACTER_AS_CONDITION: u16 = 237;

/// `{1} isn't 0 at the end of the input`
pub const COMPARED_END: u16 = 238;
