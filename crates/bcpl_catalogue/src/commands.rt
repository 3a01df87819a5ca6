//! The texts of findings, a line for each id. Written by tools/catalogue from catalogue/commands.txt; edit that.

/// The texts.
pub const COMMANDS: &str = "
this FOR does nothing: it counts up, and ^0^ is greater than ^1^@@to count down, write BY -1 after the limit
this FOR does nothing: it counts down, and ^0^ is less than ^1^@@to count up, leave out BY
this FOR never ends: BY 0 doesn't change its variable@@to count by 1, leave out BY
this FOR never ends: no number is greater than 32767@@after 32767 comes -32768; count to 32766, or leave the loop by BREAK
this FOR never ends: no number is less than -32768@@before -32768 comes 32767; count to -32767, or leave the loop by BREAK
^0^ is a character, whose code isn't the digit that it shows@@the number that a digit shows is ^0^ - '0'; READN of EXTHDR reads a number
this VALOF can end without a RESULTIS@@its value is 0 then; end it with a RESULTIS for what is left
this VALOF has no RESULTIS, so its value is always 0@@give it a value with RESULTIS E; declare a routine without a value with BE
control falls from the commands before into this ^0^@@end the commands before with ENDCASE; if you mean to fall through, say so in a comment before the label
this command is never reached: ^1t^ ends the run by FINISH@@RETURN leaves a routine; FINISH ends the whole run
this loop has no second round: its body always leaves it@@leave the loop under a condition only; what is for the end comes after the loop
each call of ^1^ calls ^1^ again, without end@@test for the last case before this call, as in LET F(N) = N = 0 -> 0, N + F(N - 1)
this is another ^0t^, which is never read@@to assign to the one that exists, leave out LET and write :=@@it hides the ^0t^ that is declared here
this FOR has another ^0t^, which hides that of the FOR around it@@give the variable of one of them another name
^0t^ has no effect: it assigns only to its parameters, which are copies of the arguments@@pass addresses, as in SWAP(@X, @Y), and assign to !A in the routine
this is the new ^0t^, which has no value yet@@a variable is already in scope in its own initial value; give it another name@@it hides the ^0t^ that is declared here
this is the new ^0t^, which has no value yet@@a variable is already in scope in its own initial value; give it another name
each call has a new ^1t^, which is 0 first, so this always gives 1@@to keep a value from call to call, declare it outside of the routine: STATIC $( ^1t^ = 0 $)
^1^ has its new value here: an assignment works pair by pair, from left to right@@keep the old value in another variable before, as in T := ^1^, and use T here
this comes after the IF, not in it: ^1^ is all that depends on its condition@@write a body of several commands as $( .. $)
this loop does nothing: ^0^ is true from the start@@WHILE goes on while its condition is true, and UNTIL while it is false
this loop does nothing: ^0^ is false from the start@@WHILE goes on while its condition is true, and UNTIL while it is false
^1^ steps over ^2^: it grows by ^n^ in each round@@write UNTIL ^1^ >= ^2^, or WHILE ^1^ < ^2^
a run passes no arguments to START, so ^0t^ has no value@@declare it as LET START() BE ..; a program reads its input with RDCH, or READN of EXTHDR
this loop doesn't end if the input ends: ^1^ is ENDSTREAMCH then@@write ^0^ | ^1^ = ENDSTREAMCH
this loop doesn't end if the input ends: ^1^ is ENDSTREAMCH then@@write ^0^ & ^1^ ~= ENDSTREAMCH
^0^ is ENDSTREAMCH in the last round, and no character@@read before the loop, as in ^0^ := RDCH(), and again as the last command of its body
this reads another character: the one that was compared before is lost@@read once, as in LET CH = RDCH(), and compare CH in each condition
^0t^ is never used: FINDINPUT finds an input, and doesn't select it@@write SELECTINPUT(^0t^) before you read from it
^0t^ is never used: FINDOUTPUT finds an output, and doesn't select it@@write SELECTOUTPUT(^0t^) before you write to it
this BREAK leaves the loop around the SWITCHON@@end the commands of a CASE with ENDCASE
^0^ counts from 0, and byte 0 of a string is its length@@the characters are the bytes from 1 on, as in FOR I = 1 TO GETBYTE(S, 0)
the value of ^1^ isn't used, and it does nothing else@@to keep the value, assign it, as in X := F(1); WRITEN writes a number
this reads a character and drops it, and the loop reads others@@each RDCH() reads the next character; keep it in a variable, as in CH := RDCH()
this replaces the address of the vector ^0^ by that of a string, and copies nothing@@copy the bytes in a FOR from 0 to GETBYTE(T, 0), as in PUTBYTE(^0^, I, GETBYTE(T, I))
this replaces the address of the vector ^0^, and copies no cell@@copy the cells in a FOR, as in ^0^!I := ^1^!I
this replaces the address of the vector ^0^ by a number@@a cell is assigned to as in ^0^!0 := 1, and all of them by a FOR
^0^ is true for each character, and at the end of the input@@write ^0^ ~= ENDSTREAMCH, which RDCH returns at the end
^1^ isn't 0 at the end of the input@@RDCH returns ENDSTREAMCH there, as in UNTIL ^1^ = ENDSTREAMCH DO ..";
