//! Checks a certificate from a reader and returns its verdict.

ghost use Rattle.std.specs.Prelude.{OnOk};
ghost use Rattle.bc_cert.specs.Answer.{IsAnswer, IsShort};

use crate::checker::Checker;
use bc_cert_defs::{CheckFault, Verdict};
use std::alloc::Global;
use std::io::Read;

/// The greatest number of bytes of a certificate, 2^30.
pub const LIMIT: usize = 1_073_741_824;

/// Checks a certificate, which is read once, in pieces of 4096 bytes, and returns what it says.
///
/// Returns the first fault if the bytes aren't an accepted certificate, `Read` if `input` fails or has more than 2^30 bytes, and
/// `Memory` if an allocation fails. The lines of a piece are judged before more is read, so a fault of a line takes precedence over a
/// later failure of `input`.
pub fn check<R: Read + Drop>(alloc: Global, mut input: R) -> Result<Verdict, CheckFault>
    ensures answer { IsAnswer (R.Read.remaining input) result }

    // An accepted certificate has at most 2^30 bytes.
    ensures bound { OnOk result (IsShort (R.Read.remaining input)) }
{
    let mut checker = Checker::new(alloc);
    let mut piece = [0u8; 4096];
    let mut left = LIMIT;
    for _ in 0..=LIMIT {
        let Ok(count) = input.read(&mut piece) else {
            return Err(CheckFault::Read);
        };
        if count == 0 {
            return checker.finish();
        }
        let kept = count.min(left);
        if let Err(fault) = checker.feed(&piece[..kept]) {
            return Err(fault);
        }
        if kept < count {
            return Err(CheckFault::Read);
        }
        left -= kept;
    }
    Err(CheckFault::Read)
}
