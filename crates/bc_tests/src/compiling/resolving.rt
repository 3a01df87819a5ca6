//! Resolving names, with allocations that fail.

use crate::compiling::names::known;
use crate::compiling::sections::{Answer, Asked, answered};
use std::alloc::Global;

/// Sections for which `resolve` allocates in every way that it can.
const TEXTS: [&[u8]; 2] = [
    b"MANIFEST $( M = 2 $); STATIC $( S = 'A' $); GLOBAL $( G:100 $)",
    b"LET F(X) = VALOF $( LET V = VEC 2; L: V!0, X := X, TABLE 1, 2; \
      SWITCHON X INTO $( CASE 1: ENDCASE; DEFAULT: FOR I = 1 TO 3 DO V!I := F(I, \"AB\") $); GOTO L $) AND P() BE F(@F(1)!2) REPEATWHILE P() = 0",
];

/// The first answer about the texts that isn't `Right`.
fn resolved(alloc: Global) -> Answer {
    for text in TEXTS {
        let found = answered(alloc, Asked::Code, text);
        if found != Answer::Right {
            return found;
        }
    }
    Answer::Right
}

/// The same, after the test of scopes with many names.
fn grown(alloc: Global) -> Answer {
    match Answer::of(known(alloc)) {
        Answer::Right => resolved(alloc),
        other => other,
    }
}

#[test]
fn growth_is_given(rt: HostRuntime) {
    assert_eq!(rt; grown(rt.alloc()), Answer::Right);
}

/// Under `tests/stress/failed-allocations` each allocation fails in turn. The result must be right, or a failed allocation.
#[test]
fn refused_growth_is_memory(rt: HostRuntime) {
    assert!(rt; grown(rt.alloc()).is_lawful());
}
