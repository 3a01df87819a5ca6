//! Checks a certificate from a reader and returns only the sums of its verdict.

ghost use Rattle.std.specs.Prelude.{OnOk};
ghost use Rattle.bc_cert.specs.Answer.{IsShort, IsSumsAnswer};

use crate::checker::Checker;
use crate::checking::LIMIT;
use crate::sums::Sums;
use bc_cert_defs::CheckFault;
use std::alloc::Global;
use std::io::Read;

/// Checks a certificate like `check`, and returns the sums of its verdict instead of the verdict.
///
/// Entries are dropped after each piece of the input, so memory is needed for one entry and one piece at a time, however long the
/// certificate is. The faults are those of `check`.
pub fn check_sums<R: Read + Drop>(alloc: Global, mut input: R) -> Result<Sums, CheckFault>
    ensures answer { IsSumsAnswer (R.Read.remaining input) result }

    // An accepted certificate has at most 2^30 bytes.
    ensures bound { OnOk result (IsShort (R.Read.remaining input)) }
{
    let mut checker = Checker::new(alloc);
    let mut piece = [0u8; 4096];
    let mut words: u64 = 0;
    let mut left = LIMIT;
    for _ in 0..=LIMIT {
        let Ok(count) = input.read(&mut piece) else {
            return Err(CheckFault::Read);
        };
        if count == 0 {
            return checker.sums(words);
        }
        let kept = count.min(left);
        if let Err(fault) = checker.feed(&piece[..kept]) {
            return Err(fault);
        }
        words = checker.forget(words);
        if kept < count {
            return Err(CheckFault::Read);
        }
        left -= kept;
    }
    Err(CheckFault::Read)
}
