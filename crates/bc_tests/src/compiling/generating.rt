//! The generator with allocations that fail.

use crate::compiling::sections::{Answer, Asked, answered};

/// A section for which `generate` allocates in every way that it can.
const TEXT: &[u8] = b"GLOBAL $( START:1; G:100 $); STATIC $( S = 7 $); LET F(A) = A -> G, S; \
      LET START() BE $( LET V = VEC 3; L: FOR I = 1 TO 3 DO F(I, \"AB\", TABLE 1, 2); \
      SWITCHON G INTO $( CASE 1: G!1 := VALOF $( M: RESULTIS 7; GOTO M $); DEFAULT: ENDCASE $); \
      TEST G THEN V!G := 1 OR GOTO L; LOOP REPEATWHILE G $)";

#[test]
fn growth_is_given(rt: HostRuntime) {
    assert_eq!(rt; answered(rt.alloc(), Asked::Code, TEXT), Answer::Right);
}

/// Under `tests/stress/failed-allocations` each allocation fails in turn. The result must be right, or a failed allocation.
#[test]
fn refused_growth_is_memory(rt: HostRuntime) {
    assert!(rt; answered(rt.alloc(), Asked::Code, TEXT).is_lawful());
}
