//! The extension library as source text: EXTHDR and EXTLIB. The texts are those in the folder `library`, byte for byte.
#![tactic(auto)]

mod names;

pub use names::{further_bit, further_word, is_of_further_library};

/// The header: the declarations that a program includes with `GET "EXTHDR"`. It includes LIBHDR.
pub const EXTHDR: &str =
    r#"// The header of the further library EXTLIB. It gets LIBHDR; of the names that both have, these are the ones that count.
GET "LIBHDR"

GLOBAL $(
WRITEF:30; WRITED:31; WRITEU:32; WRITEOCT:33; WRITEHEX:34; WRITET:35; NEWPAGE:36
READN:37; TERMINATOR:38; UNRDCH:39; RDCH:40
SELECTINPUT:41; SELECTOUTPUT:42; INPUT:43; OUTPUT:44; ENDREAD:45; ENDWRITE:46
PACKSTRING:47; UNPACKSTRING:48; CAPITALCH:49; COMPSTRING:50
INITVEC:51; GETVEC:52; FREEVEC:53
MULDIV:54; RESULT2:55; RANDOM:56; RANDOMISE:57; STOP:58
FINDINPUT:92; REWIND:93; WRITEO:94; RDARGS:95; TESTFLAGS:96; COMPCH:97; TIME:98; MAPSTORE:99
$)

MANIFEST $( FIRSTFREEGLOBAL=100; BYTESPERWORD=2; MAXINT=32767; MININT=#X8000 $)
"#;

/// The routines of the extension library, which are compiled after those of BLIB.
pub const EXTLIB: &str =
    r#"// A further library, after BLIB. A program that gets EXTHDR calls these routines; each is described in docs/library.md.
GET "EXTHDR"

// The primitives that routines of this file replace, under the names by which these call them.
GLOBAL $( PRIMITIVE.SELECTINPUT:11; PRIMITIVE.SELECTOUTPUT:12; PRIMITIVE.RDCH:13
PRIMITIVE.FINDINPUT:15; PRIMITIVE.ENDREAD:17; PRIMITIVE.ENDWRITE:18 $)

MANIFEST $(
NOTHING = -2           // in place of a character: none has been read
LASTSTREAM = 31        // the greatest number of an input whose last character is kept
ISENDED = 2            // of the words that KEPT keeps: whether ENDREAD ended the input,
NAMED = 3              // and the string by which FINDINPUT found it, or 0
LASTTIME = 9           // how often an input may be read
REQUIRED = 1           // the letters A, K and S of a key,
KEYED = 2
SWITCH = 4
UNFILLED = 7           // and their sum, which is below all addresses
WORDITEM = 1           // what READITEM finds
QUOTEDITEM = 2
EQUALSITEM = 3
LINEEND = 4
NOITEM = 5
$)

STATIC $(
INPUTNOW = 1           // the numbers of the selected streams
OUTPUTNOW = 1
POOL = 0               // where GETVEC's first block begins, or 0
SEED = 1               // of RANDOM, never 0
ARGUMENTCH = 0         // the next character of RDARGS
$)

// ---- Streams

// Four words for each input: its last character, whether RDCH gives that once more, and those with names above.
LET KEPT(N) = VALOF
$( LET CELLS = TABLE -2,0,0,0, -2,0,0,0, -2,0,0,0, -2,0,0,0, -2,0,0,0, -2,0,0,0, -2,0,0,0, -2,0,0,0,
                     -2,0,0,0, -2,0,0,0, -2,0,0,0, -2,0,0,0, -2,0,0,0, -2,0,0,0, -2,0,0,0, -2,0,0,0,
                     -2,0,0,0, -2,0,0,0, -2,0,0,0, -2,0,0,0, -2,0,0,0, -2,0,0,0, -2,0,0,0, -2,0,0,0,
                     -2,0,0,0, -2,0,0,0, -2,0,0,0, -2,0,0,0, -2,0,0,0, -2,0,0,0, -2,0,0,0, -2,0,0,0
   RESULTIS N<1 | N>LASTSTREAM -> 0, CELLS + 4*N $)

AND RDCH() = VALOF
$( LET P = KEPT(INPUTNOW)
   IF P=0 RESULTIS PRIMITIVE.RDCH()
   TEST P!1 THEN P!1 := FALSE ELSE !P := PRIMITIVE.RDCH()
   RESULTIS !P $)

AND UNRDCH() = VALOF
$( LET P = KEPT(INPUTNOW)
   IF P=0 RESULTIS FALSE
   IF !P=NOTHING | P!1 RESULTIS FALSE
   P!1 := TRUE
   RESULTIS TRUE $)

AND SELECTINPUT(N) BE
$( PRIMITIVE.SELECTINPUT(N)
   INPUTNOW := N $)

AND SELECTOUTPUT(N) BE
$( PRIMITIVE.SELECTOUTPUT(N)
   OUTPUTNOW := N $)

AND INPUT() = INPUTNOW

AND OUTPUT() = OUTPUTNOW

AND ENDREAD() BE
$( LET P = KEPT(INPUTNOW)
   UNLESS P=0 DO P!0, P!1, P!ISENDED := NOTHING, FALSE, TRUE
   PRIMITIVE.ENDREAD()
   INPUTNOW := 0 $)

AND ENDWRITE() BE
$( PRIMITIVE.ENDWRITE()
   OUTPUTNOW := 0 $)

// Packs into V the name S with a dot and a digit after it, and gives V.
AND NAMEAGAIN(S, DIGIT, V) = VALOF
$( LET N = GETBYTE(S,0)
   FOR I = 0 TO (N+2)>>1 DO V!I := 0
   FOR I = 1 TO N DO PUTBYTE(V, I, GETBYTE(S,I))
   PUTBYTE(V, N+1, '.'); PUTBYTE(V, N+2, '0'+DIGIT)
   PUTBYTE(V, 0, N+2)
   RESULTIS V $)

// An input can't be read twice, so the file is connected again, as DATA.2 after DATA. Gives the first one that wasn't ended, or the
// last one that is connected.
AND FINDINPUT(S) = VALOF
$( LET V = VEC 127 AND N = PRIMITIVE.FINDINPUT(S)
   FOR I = 2 TO LASTTIME+1 DO
   $( LET P, AGAIN = KEPT(N), 0
      IF P=0 RESULTIS N
      P!NAMED := S
      IF NOT P!ISENDED | I>LASTTIME | GETBYTE(S,0)>253 RESULTIS N
      AGAIN := PRIMITIVE.FINDINPUT(NAMEAGAIN(S, I, V))
      IF AGAIN=0 RESULTIS N
      N := AGAIN $)
   RESULTIS N $)

AND ISFRESH(N) = VALOF
$( LET P = KEPT(N)
   RESULTIS P=0 -> TRUE, NOT P!ISENDED $)

AND REWIND() BE
$( LET P, S, NONE = KEPT(INPUTNOW), 0, 0
   IF INPUTNOW=0 RETURN
   UNLESS P=0 DO
   $( IF !P=NOTHING & NOT P!ISENDED RETURN
      S := P!NAMED=0 & INPUTNOW=1 -> "SYSIN", P!NAMED $)
   UNLESS S=0 DO
   $( LET N = 0
      ENDREAD()
      N := FINDINPUT(S)
      IF ISFRESH(N) DO $( SELECTINPUT(N); RETURN $) $)
   SELECTOUTPUT(1)
   TEST S=0 THEN WRITES("*NREWIND: an input that FINDINPUT didn't find*N")
   ELSE WRITEF("*NREWIND: connect the file of %S once more, as %S.2, or .3 and so on*N", S, S)
   NONE := 1/NONE $)

// ---- Numbers in and out

AND READN() = VALOF
$( LET SUM, NEGATIVE = 0, FALSE
   TERMINATOR := RDCH() REPEATWHILE TERMINATOR='*S' | TERMINATOR='*T' | TERMINATOR='*N' |
                                    TERMINATOR='*C' | TERMINATOR='*P'
   IF TERMINATOR='-' | TERMINATOR='+' DO
   $( NEGATIVE := TERMINATOR='-'
      TERMINATOR := RDCH() $)
   WHILE '0'<=TERMINATOR & TERMINATOR<='9' DO
   $( SUM := 10*SUM + TERMINATOR - '0'
      TERMINATOR := RDCH() $)
   RESULTIS NEGATIVE -> -SUM, SUM $)

// Writes N, read unsigned, with a sign in front where it is wanted, to the right of a field.
AND PUTNUMBER(N, HASSIGN, WIDTH) BE
$( LET DIGITS = VEC 4
   LET COUNT = 0
   $( LET QUOTIENT = (N>>1)/5
      DIGITS!COUNT := N - 10*QUOTIENT
      COUNT := COUNT + 1
      N := QUOTIENT $) REPEATUNTIL N=0
   FOR I = COUNT + (HASSIGN -> 1, 0) + 1 TO WIDTH DO WRCH('*S')
   IF HASSIGN DO WRCH('-')
   FOR I = COUNT-1 TO 0 BY -1 DO WRCH('0' + DIGITS!I) $)

AND WRITED(N, WIDTH) BE TEST N<0 THEN PUTNUMBER(-N, TRUE, WIDTH) ELSE PUTNUMBER(N, FALSE, WIDTH)

AND WRITEU(N, WIDTH) BE PUTNUMBER(N, FALSE, WIDTH)

AND WRITEOCT(N, COUNT) BE FOR I = COUNT-1 TO 0 BY -1 DO WRCH('0' + ((N>>(3*I)) & 7))

AND WRITEO(N) BE
$( UNLESS (N>>3)=0 DO WRITEO(N>>3)
   WRCH('0' + (N&7)) $)

AND WRITEHEX(N, COUNT) BE FOR I = COUNT-1 TO 0 BY -1 DO
$( LET DIGIT = (N>>(4*I)) & 15
   WRCH(DIGIT<10 -> '0'+DIGIT, 'A'-10+DIGIT) $)

AND NEWPAGE() BE WRCH('*P')

// ---- Strings and characters

AND WRITET(S, WIDTH) BE
$( WRITES(S)
   FOR I = GETBYTE(S,0)+1 TO WIDTH DO WRCH('*S') $)

AND CAPITALCH(C) = 'a'<=C & C<='z' -> C-'a'+'A', C

AND COMPCH(A, B) = CAPITALCH(A) - CAPITALCH(B)

AND COMPSTRING(S, T) = VALOF
$( LET M, N = GETBYTE(S,0), GETBYTE(T,0)
   FOR I = 1 TO (M<N -> M, N) DO
   $( LET A, B = CAPITALCH(GETBYTE(S,I)), CAPITALCH(GETBYTE(T,I))
      UNLESS A=B RESULTIS A<B -> -1, 1 $)
   RESULTIS M=N -> 0, (M<N -> -1, 1) $)

AND PACKSTRING(V, S) = VALOF
$( LET N = V!0 & 255
   FOR I = 0 TO N>>1 DO S!I := 0
   PUTBYTE(S, 0, N)
   FOR I = 1 TO N DO PUTBYTE(S, I, V!I)
   RESULTIS N>>1 $)

AND UNPACKSTRING(S, V) BE FOR I = 0 TO GETBYTE(S,0) DO V!I := GETBYTE(S,I)

// The width that a letter or a digit of a format means.
AND WIDTHOF(C) = VALOF
$( LET CAPITAL = CAPITALCH(C)
   IF '0'<=C & C<='9' RESULTIS C-'0'
   IF 'A'<=CAPITAL & CAPITAL<='Z' RESULTIS CAPITAL-'A'+10
   RESULTIS 0 $)

// Writes the part of a format from I on, up to the sign that closes it, where it is wanted. Gives the place after that sign.
AND PUTPART(F, I, CLOSE, ISWANTED) = VALOF
$( UNTIL I>GETBYTE(F,0) DO
   $( LET C = GETBYTE(F,I)
      IF C=CLOSE RESULTIS I+1
      IF ISWANTED DO WRCH(C)
      I := I+1 $)
   RESULTIS I $)

AND WRITEF(F, A1, A2, A3, A4, A5, A6, A7, A8, A9, A10, A11) BE
$( LET T, I, N = @A1, 1, GETBYTE(F,0)
   UNTIL I>N DO
   $( LET C = GETBYTE(F,I)
      I := I+1
      TEST C NE '%' | I>N THEN WRCH(C)
      ELSE
      $( LET WIDTH = I<N -> WIDTHOF(GETBYTE(F,I+1)), 0
         LET TAKEN = 1
         I := I+1
         SWITCHON CAPITALCH(GETBYTE(F,I-1)) INTO
         $( CASE 'N': WRITEN(!T); ENDCASE
            CASE 'S': WRITES(!T); ENDCASE
            CASE 'C': WRCH(!T); ENDCASE
            CASE 'I': WRITED(!T, WIDTH); I := I+1; ENDCASE
            CASE 'U': WRITEU(!T, WIDTH); I := I+1; ENDCASE
            CASE 'O': WRITEOCT(!T, WIDTH); I := I+1; ENDCASE
            CASE 'X': WRITEHEX(!T, WIDTH); I := I+1; ENDCASE
            CASE 'T': WRITET(!T, WIDTH); I := I+1; ENDCASE
            CASE 'P': IF I<=N DO
                      $( LET CLOSE = GETBYTE(F,I)
                         I := PUTPART(F, I+1, CLOSE, !T=1)
                         I := PUTPART(F, I, CLOSE, !T NE 1) $)
                      ENDCASE
            CASE '+': ENDCASE
            CASE '-': TAKEN := -1; ENDCASE
            DEFAULT: TAKEN := 0; WRCH(GETBYTE(F,I-1)) $)
         T := T+TAKEN $) $) $)

// ---- Arguments

// Whether a character ends an item that has no quotes.
AND ENDSITEM(CH) = VALOF SWITCHON CH INTO
$( CASE '*S': CASE '*T': CASE '*C': CASE '*N': CASE ';': CASE '=': CASE ENDSTREAMCH: RESULTIS TRUE
   DEFAULT: RESULTIS FALSE $)

// Packs an item into V, which has the cells 0 to UPB. ARGUMENTCH is its first character, and then the one after it. Gives FALSE if there
// are too many characters.
AND PACKITEM(V, UPB, ISQUOTED) = VALOF
$( LET N = 0
   IF UPB<0 RESULTIS FALSE
   V!0 := 0
   UNTIL ISQUOTED -> ARGUMENTCH='*"' | ARGUMENTCH='*N' | ARGUMENTCH=ENDSTREAMCH, ENDSITEM(ARGUMENTCH) DO
   $( LET CH = ARGUMENTCH
      IF ISQUOTED & CH='**' DO
      $( ARGUMENTCH := RDCH()
         IF ARGUMENTCH='*N' | ARGUMENTCH=ENDSTREAMCH RESULTIS FALSE
         CH := CAPITALCH(ARGUMENTCH)='N' -> '*N', ARGUMENTCH $)
      N := N+1
      IF N>255 | (N>>1)>UPB RESULTIS FALSE
      V!(N>>1) := (N&1)=0 -> CH<<8, V!(N>>1) | CH
      ARGUMENTCH := RDCH() $)
   V!0 := V!0 | (N<<8)
   RESULTIS TRUE $)

// Takes an item of a line into V, which has the cells 0 to UPB, and gives what it is.
AND READITEM(V, UPB) = VALOF
$( WHILE ARGUMENTCH='*S' | ARGUMENTCH='*T' | ARGUMENTCH='*C' DO ARGUMENTCH := RDCH()
   SWITCHON ARGUMENTCH INTO
   $( CASE '*N': CASE ';': CASE ENDSTREAMCH: RESULTIS LINEEND
      CASE '=': ARGUMENTCH := RDCH()
                RESULTIS EQUALSITEM
      CASE '*"': ARGUMENTCH := RDCH()
                 UNLESS PACKITEM(V, UPB, TRUE) & ARGUMENTCH='*"' RESULTIS NOITEM
                 ARGUMENTCH := RDCH()
                 RESULTIS QUOTEDITEM
      DEFAULT: RESULTIS PACKITEM(V, UPB, FALSE) -> WORDITEM, NOITEM $) $)

// The number of the key that the string S is, or -1.
AND KEYNUMBER(KEYS, S) = VALOF
$( LET KEY, I, N = 0, 1, GETBYTE(KEYS,0)
   UNTIL I>N DO
   $( LET J, CH, ISTHIS = 1, 0, TRUE
      UNTIL I>N DO
      $( CH := GETBYTE(KEYS,I)
         IF CH=',' | CH='/' | CH='=' BREAK
         IF J>GETBYTE(S,0) -> TRUE, COMPCH(CH, GETBYTE(S,J)) NE 0 DO ISTHIS := FALSE
         I, J := I+1, J+1 $)
      IF ISTHIS & J>GETBYTE(S,0) RESULTIS KEY
      UNTIL I>N | CH=',' | CH='=' DO
      $( I := I+1
         UNLESS I>N DO CH := GETBYTE(KEYS,I) $)
      IF CH=',' DO KEY := KEY+1
      I := I+1 $)
   RESULTIS -1 $)

// Sets a cell of V for each key to the sum of its letters. Gives the number of keys, or 0 if V has too few cells.
AND PUTKEYS(KEYS, V, UPB) = VALOF
$( LET N = 0
   IF UPB<0 RESULTIS 0
   V!0 := 0
   FOR I = 1 TO GETBYTE(KEYS,0) DO
   $( LET CH = CAPITALCH(GETBYTE(KEYS,I))
      IF CH=',' DO
      $( N := N+1
         IF N>UPB RESULTIS 0
         V!N := 0 $)
      IF I>1 -> GETBYTE(KEYS,I-1)='/', FALSE DO
         V!N := V!N | (CH='A' -> REQUIRED, CH='K' -> KEYED, CH='S' -> SWITCH, 0) $)
   RESULTIS N+1 $)

AND ISUNFILLED(VALUE) = 0<=VALUE & VALUE<=UNFILLED

// The number of the first of N keys whose value may come without the key, or -1.
AND NEXTKEY(V, N) = VALOF
$( FOR I = 0 TO N-1 DO IF ISUNFILLED(V!I) & (V!I & (KEYED+SWITCH))=0 RESULTIS I
   RESULTIS -1 $)

// Takes items up to the line's end into V, of which the first COUNT cells have the letters of the keys. Gives the address after the last
// one, or 0 if they aren't those that the keys ask for.
AND TAKEITEMS(KEYS, V, COUNT, LAST) = VALOF
$( LET FREE = V+COUNT
   ARGUMENTCH := RDCH()
   $( LET ITEM, KEY = READITEM(FREE, LAST-FREE), -1
      IF ITEM=LINEEND BREAK
      IF ITEM=WORDITEM DO KEY := KEYNUMBER(KEYS, FREE)
      TEST KEY<0 THEN KEY := NEXTKEY(V, COUNT)
      ELSE
      $( UNLESS ISUNFILLED(V!KEY) RESULTIS 0
         IF (V!KEY & SWITCH) NE 0 DO $( V!KEY := TRUE; LOOP $)
         ITEM := READITEM(FREE, LAST-FREE)
         IF ITEM=EQUALSITEM DO ITEM := READITEM(FREE, LAST-FREE) $)
      UNLESS KEY>=0 & (ITEM=WORDITEM | ITEM=QUOTEDITEM) RESULTIS 0
      V!KEY := FREE
      FREE := FREE + (GETBYTE(FREE,0)>>1) + 1 $) REPEAT
   FOR I = 0 TO COUNT-1 DO IF ISUNFILLED(V!I) DO
   $( IF (V!I & REQUIRED) NE 0 RESULTIS 0
      V!I := 0 $)
   RESULTIS FREE $)

AND RDARGS(KEYS, V, UPB) = VALOF
$( LET COUNT, FREE = PUTKEYS(KEYS, V, UPB), 0
   UNLESS COUNT=0 DO FREE := TAKEITEMS(KEYS, V, COUNT, V+UPB)
   IF COUNT=0 DO ARGUMENTCH := RDCH()
   UNTIL ARGUMENTCH='*N' | ARGUMENTCH=';' | ARGUMENTCH=ENDSTREAMCH DO ARGUMENTCH := RDCH()
   RESULTIS FREE $)

// ---- Vectors
// A pool is a row of blocks, and after the last one a 0. The first word of a block has its size, an even number of words, and one
// more where the block is in use.

AND INITVEC(V, UPB) BE
$( LET SIZE = UPB & #XFFFE
   TEST SIZE=0 THEN POOL := 0
   ELSE $( POOL := V; V!0 := SIZE; V!SIZE := 0 $) $)

AND GETVEC(UPB) = VALOF
$( LET SIZE = (UPB+3) & #XFFFE
   LET P = POOL
   IF P=0 | UPB<0 | UPB>32764 RESULTIS 0
   UNTIL !P=0 DO
   $( IF (!P & 1)=0 DO
      $( UNTIL P!(!P)=0 | (P!(!P) & 1)=1 DO !P := !P + P!(!P)
         IF !P>=SIZE DO
         $( UNLESS !P=SIZE DO P!SIZE := !P - SIZE
            !P := SIZE+1
            RESULTIS P+1 $) $)
      P := P + (!P & #XFFFE) $)
   RESULTIS 0 $)

AND FREEVEC(V) BE UNLESS V=0 DO (V-1)!0 := (V-1)!0 & #XFFFE

// ---- Arithmetic

// Whether A is less than B, both read unsigned.
AND ISBELOW(A, B) = (A NEQV #X8000) < (B NEQV #X8000)

// A and B are double words, the high word first: B is added to A.
AND ADDDOUBLE(A, B) BE
$( A!1 := A!1 + B!1
   A!0 := A!0 + B!0 + (ISBELOW(A!1, B!1) -> 1, 0) $)

// The product of A and B, read unsigned, becomes the double word P.
AND PUTPRODUCT(P, A, B) BE
$( LET FACTOR = VEC 1
   P!0, P!1 := 0, 0
   FACTOR!0, FACTOR!1 := 0, A
   UNTIL B=0 DO
   $( IF (B&1)=1 DO ADDDOUBLE(P, FACTOR)
      FACTOR!0 := (FACTOR!0<<1) | (FACTOR!1>>15)
      FACTOR!1 := FACTOR!1<<1
      B := B>>1 $) $)

// The double word P is divided by C, all read unsigned: P!1 is then the low word of the quotient, and P!0 the remainder.
AND DIVIDEDOUBLE(P, C) BE
$( LET HIGH, LOW, CARRY = P!0, P!1, 0
   LET REST = 0
   FOR I = 1 TO 32 DO
   $( CARRY := REST>>15
      REST := (REST<<1) | (HIGH>>15)
      HIGH := (HIGH<<1) | (LOW>>15)
      LOW := LOW<<1
      IF CARRY=1 | NOT ISBELOW(REST, C) DO $( REST := REST-C; LOW := LOW|1 $) $)
   P!0, P!1 := REST, LOW $)

AND MAGNITUDE(N) = N<0 -> -N, N

AND MULDIV(A, B, C) = VALOF
$( LET P = VEC 1
   IF C=0 RESULTIS A/C
   PUTPRODUCT(P, MAGNITUDE(A), MAGNITUDE(B))
   DIVIDEDOUBLE(P, MAGNITUDE(C))
   RESULT2 := (A NEQV B)<0 -> -P!0, P!0
   RESULTIS (A NEQV B NEQV C)<0 -> -P!1, P!1 $)

// ---- Chance

AND RANDOM(N) = VALOF
$( LET P = VEC 1
   IF N<1 RESULTIS 0
   SEED := SEED NEQV (SEED<<7)
   SEED := SEED NEQV (SEED>>9)
   SEED := SEED NEQV (SEED<<8)
   PUTPRODUCT(P, SEED, N)
   RESULTIS P!0 + 1 $)

AND RANDOMISE(N) BE SEED := N=0 -> 1, N

// ---- The end

AND STOP(CODE) BE FINISH

// ---- What a program can't have here: a user who interrupts it, a clock, a map of the store

AND TESTFLAGS(FLAGS) = FALSE

AND TIME() = 0

AND MAPSTORE() BE RETURN
"#;
