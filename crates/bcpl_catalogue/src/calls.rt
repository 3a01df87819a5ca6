//! The texts of findings, a line for each id. Written by tools/catalogue from catalogue/calls.txt; edit that.

/// The texts.
pub const CALLS: &str = "
^2t^ takes ^w^ here, but ^0^ is ^0k^
@@a call has parentheses, as in ^3t^()
@@a call has parentheses, as in ^0^()
@@a character is in single quotes: '^0c^'
@@WRITES and %S write a string
@@a number has no quotes; WRITES and %S write a string
@@no operator repeats a string; write it in a FOR, as in FOR I = 1 TO 20 DO WRITES(\"-\")
@@WRITEN and %N write a number
@@WRCH and %C write a character; a string is in double quotes
@@an element of it is written ^0^!0, ^0^!1 and so on
@@the value is taken for an address, whatever it is
@@the arguments are the string, the number of the byte, and the character: GETBYTE(S, I), PUTBYTE(S, I, CH)
@@FINDINPUT opens a stream: SELECTINPUT(FINDINPUT(^0^))
@@FINDOUTPUT opens a stream: SELECTOUTPUT(FINDOUTPUT(^0^))
WRITEN takes a number here, but ^0^ is the address of a cell@@the value of the cell is ^1^!^2^
WRCH takes a character here, but ^0^ is a number of one digit@@the character that shows it is '0' + ^0^
^n^ is read signed here, as ^ni^@@a word holds -32768 to 32767; only = and ~= compare the others as you mean them
this call passes ^n^ argument^ns^, but ^1t^ has ^m^ parameter^ms^@@a parameter without an argument has no value
this call passes ^n^ argument^ns^, but ^1t^ has ^m^ parameter^ms^@@the arguments after the last parameter are lost
this call passes ^n^ argument^ns^, but ^1t^ has ^m^ parameter^ms^@@the others are lost; WRITEF writes several values, as in WRITEF(\"%S %N*N\", S, N)
this call passes ^n^ argument^ns^, but ^1t^ has ^m^ parameter^ms^@@what it reads is its value, as in X := RDCH(), or X := READN() with EXTHDR
WRITES writes %^nc^ as it is, and no value@@WRITEF writes a value for each %N, as in WRITEF(\"%N*N\", X)
the format writes ^0^ with %^nc^, which takes ^w^, but it is ^0k^
this format writes ^n^ argument^ns^, but ^m^ follows it@@each argument needs a % with its letter: %N, %S or %C
this format writes ^n^ argument^ns^, but ^m^ follow it@@each argument needs a % with its letter: %N, %S or %C
this format takes ^n^ arguments, but WRITEF writes ^m^ at most@@write the others with another WRITEF
no width comes before a letter: WRITEF writes ^nc^ for %^nc^, and no argument@@write %N; with GET \"EXTHDR\" and --library ext, %I^nc^ writes a number in a field of ^nc^
the % before `^nc^` in this format isn't written@@a percent sign is written %%
this puts one character into a word of ^1t^, but a string has two in each word@@PUTBYTE(^1t^, I, 'A') sets character I, and PUTBYTE(^1t^, 0, N) the length; set the words to 0 before
WRITES writes as many characters as byte 0 of ^0^ says, and nothing sets it to their number@@the characters are the bytes 1 to N, after PUTBYTE(^0^, 0, N); no 0 is needed at the end
this passes the address of the variable ^0^, not that of its cells@@^0^ is an address already: leave out the @
^0^ is a variable here, and hides the routine ^0^@@give the variable another name@@the variable is declared here";
