//! The parser with allocations that fail.

use crate::compiling::sections::{Answer, Asked, answered};

/// A section for which `parse` allocates in every way that it can.
const TEXT: &[u8] =
    b"MANIFEST $( N = 1 $); LET F(P, Q) = -P -> Q, TABLE 1 AND S() BE $(A $( CASE N: F('A') REPEATWHILE A+B*C; B := C $)A REPEATUNTIL D REPEAT";

#[test]
fn growth_is_given(rt: HostRuntime) {
    assert_eq!(rt; answered(rt.alloc(), Asked::Tree, TEXT), Answer::Right);
}

/// Under `tests/stress/failed-allocations` each allocation fails in turn. The result must be right, or a failed allocation.
#[test]
fn refused_growth_is_memory(rt: HostRuntime) {
    assert!(rt; answered(rt.alloc(), Asked::Tree, TEXT).is_lawful());
}
