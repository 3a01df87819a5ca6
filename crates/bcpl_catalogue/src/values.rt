//! The texts of findings, a line for each id. Written by tools/catalogue from catalogue/values.txt; edit that.

/// The texts.
pub const VALUES: &str = "
^4s^ binds tighter than ^0s^: this is ^1^ ^0s^ (^2^ ^4s^ ^3^)@@write (^1^ ^0s^ ^2^) ^4s^ ^3^
^0s^ ^2^ is a condition by itself here, and always true@@write ^1^ ^4s^ ^3^ ^0s^ ^1^ ^4s^ ^2^
this is always true: ^3^ differs from one of the two at least@@write ^1^ & ^2^
this is never true: ^3^ can't be both@@write ^1^ | ^2^
^1^ is a string, and its address is compared here@@the character is in single quotes: '^1c^'
this compares the addresses of two strings@@COMPSTRING of EXTHDR compares what is in them: COMPSTRING(S, T) = 0 if they are equal
^2^ is never TRUE: TRUE is -1, and FALSE is 0@@use TRUE and FALSE for truth values
^1^ is a truth value, and never ^2^: TRUE is -1, and FALSE is 0@@write ^1^ or NOT ^1^ as the condition
^1^ is a routine, and without parentheses it isn't called@@a call is written ^1^() or ^1^(A, B)
this compares the addresses of two vectors@@compare the cells in a FOR, as in ^1^!I = ^2^!I
^1^ is the address of its cells, and never 0@@the first cell is written ^1^!0
this is never true: no number is greater than 32767@@a word holds -32768 to 32767, and after 32767 comes -32768
this is never true: no number is less than -32768@@a word holds -32768 to 32767, and after 32767 comes -32768
this is always true: no number is greater than 32767@@a word holds -32768 to 32767, and after 32767 comes -32768
this is always true: no number is less than -32768@@a word holds -32768 to 32767, and after 32767 comes -32768
this adds the addresses of two vectors@@add the cells in a FOR, as in ^1^!I + ^2^!I
this adds to the address of a string@@no operator joins a string and a number; WRITEF writes both, as in WRITEF(\"n = %N*N\", N)
this adds the addresses of two strings@@no operator joins strings; write one after the other, or copy them byte by byte with PUTBYTE
NOT ^n^ is ^mi^, which is true@@NOT inverts each bit; for truth values, use TRUE and FALSE
^1^ is ^1k^, whose address is always true@@its length is GETBYTE(^1^, 0)
^1^ is ^1k^, whose address is always true@@its first cell is written ^1^!0
^1^ is a string, and a word of it holds two characters@@the string itself is ^1^; its length is GETBYTE(^1^, 0), and its first character GETBYTE(^1^, 1)
^1^ is a number here, and ! takes it for an address@@the value of ^1^ is written ^1^, and its address @^1^
^1^ is a truth value, and ! takes it for an address@@write NOT ^1^
this is always true: each ^3^ meets one of the two@@write ^1^ & ^2^
this is never true: no ^3^ meets both@@write ^1^ | ^2^
this compares ^1^ with the character that is read, and assigns nothing@@write ^1^ := RDCH() as a command: before the loop, and at the end of its body
^0^ is one number, and not one character or the other@@compare with each: ^1^ = ^2^ | ^1^ = ^3^
^0^ is one number, and not one character or the other@@compare with each: ^1^ ~= ^2^ & ^1^ ~= ^3^
^1^ is never TRUE, which is -1 and has all bits@@write (^1^) ~= 0
^1^ never returns TRUE, which is -1: it returns other numbers@@use TRUE and FALSE for truth values
^1^ is -1, and not 1, if ^2^ is negative and odd@@write (^2^ & 1) = 1, which is true for all odd numbers
^4s^ binds tighter than ^0s^: this is ^1^ ^0s^ (^2^ ^4s^ ^3^)@@write (^1^ ^0s^ ^2^) ^4s^ ^3^
^4s^ binds tighter than ^0s^: this is (^1^ ^4s^ ^2^) ^0s^ ^3^@@write ^1^ ^4s^ (^2^ ^0s^ ^3^)
^0^ is -1 if it is true, and not 1@@to count 1, write (^0^ -> 1, 0)
^0^ doesn't fit into 16 bits@@numbers are -32768 to 32767
^0^ is ^n^: a quotient drops its fraction@@multiply first, as in X * ^1^ / ^2^
^0^ doesn't fit into 16 bits@@numbers are -32768 to 32767; MULDIV(A, B, C) of EXTHDR computes A*B/C with larger products
the quotient drops its fraction before it is multiplied@@multiply first, as in PART * 100 / ALL
^0^ is a character, whose code isn't the digit that it shows@@the number that a digit shows is ^0^ - '0'
^1^ is a character, and ^0^ is a number@@the character that shows this digit is '^0^'
^0^ is the address of cells that are gone after this@@take the vector as a parameter from the caller, or from GETVEC of EXTHDR
^1^ has only the cells 0 to ^n^@@VEC N has the cells 0 to N; what is after them belongs to other variables
^1^ has only the cell 0@@VEC N has the cells 0 to N; what is after them belongs to other variables
^2^ comes to ^mi^ here, but ^1^ has only the cells 0 to ^n^@@VEC N has the cells 0 to N; what is after them belongs to other variables
^2^ comes to ^mi^ here, but ^1^ has only the cell 0@@VEC N has the cells 0 to N; what is after them belongs to other variables
^1^ is a string, and a word of it holds two characters@@the length of ^1^ is GETBYTE(^1^, 0), and its first character GETBYTE(^1^, 1)
^1^ is a string, and a word of it holds two characters@@the character with the number ^2^ is GETBYTE(^1^, ^2^)
^1^ is a number here, and not the address of a vector@@a vector is declared as LET ^1^ = VEC 10
^1^ is a number here, and not the address of a vector@@declare a vector in START, as in LET W = VEC 10, and assign ^1^ := W
^1^ is the address of the variable ^2t^, not that of its cells@@^2t^ is an address already: leave out the @
this divides by 0@@a run that comes here ends
a word has 16 bits, so this shift gives 0@@shift by 0 to 15 places";
