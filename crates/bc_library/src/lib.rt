//! The standard library of the language as source text, and the names that its header declares.
#![tactic(auto)]

mod names;

pub use names::{is_of_library, library_name, library_word};

/// The header: the declarations that a program includes with `GET "LIBHDR"`.
pub const LIBHDR: &str = "\
GLOBAL $( START:1; SELECTINPUT:11; SELECTOUTPUT:12; RDCH:13; WRCH:14
FINDINPUT:15; FINDOUTPUT:16; ENDREAD:17; ENDWRITE:18; GETBYTE:20
PUTBYTE:21; WRITES:22; WRITEN:23; NEWLINE:24; WRITEF:25 $)
MANIFEST $( ENDSTREAMCH=-1 $)
";

/// The routines of the library that are written in BCPL. The others are primitives of the machine.
pub const BLIB: &str = r#"GET "LIBHDR"
LET GETBYTE(S,I) = (I&1)=0 -> S!(I>>1)>>8, S!(I>>1)&255
AND PUTBYTE(S,I,C) BE
$( LET P = S+(I>>1)
   !P := (I&1)=0 -> (!P&255)|(C<<8), (!P&#XFF00)|(C&255) $)
AND WRITES(S) BE FOR I=1 TO GETBYTE(S,0) DO WRCH(GETBYTE(S,I))
AND NEWLINE() BE WRCH('*N')
AND WRITEN(N) BE
$( IF N<0 DO
   $( WRCH('-'); IF N/10 NE 0 DO WRITEN(-(N/10))
      WRCH('0'-(N REM 10)); RETURN $)
   IF N>9 DO WRITEN(N/10)
   WRCH('0'+(N REM 10)) $)
AND WRITEF(F,A,B,C,D) BE
$( LET T,I,N = @A,1,GETBYTE(F,0)
   UNTIL I>N DO
   $( LET K = GETBYTE(F,I)
      I := I+1
      TEST K='%' & I<=N THEN
      $( SWITCHON GETBYTE(F,I) INTO
         $( CASE 'N': WRITEN(!T); ENDCASE
            CASE 'S': WRITES(!T); ENDCASE
            CASE 'C': WRCH(!T); ENDCASE
            DEFAULT: WRCH(GETBYTE(F,I)); T := T-1 $)
         T := T+1; I := I+1 $)
      ELSE WRCH(K) $) $)
"#;
