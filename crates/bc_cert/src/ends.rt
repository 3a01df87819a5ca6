//! Splits bytes at the first LF.

ghost use Rattle.std.specs.Prelude.{◌≡◌, ◌≤◌, ◌+◌, length, IfSome};
ghost use Rattle.bc_cert_read.specs.Fields.{cut as cut_of};
ghost use Rattle.bc_cert_read.specs.View.{cut as seen_cut};

/// The bytes before the first LF, and those after it. Without an LF: all bytes and None.
#[inline(always)]
pub fn first_line(text: &[u8]) -> (&[u8], Option<&[u8]>)
    ensures exact { seen_cut result ≡ cut_of 10 text.now }
    ensures shorter { IfSome result.1 (λ rest. length rest.now + 1 ≤ length text.now) }
{
    for at in 0..text.len() {
        if text[at] == b'\n' {
            return (text.split_at(at).0, Some(text.split_at(at + 1).1));
        }
    }
    (text, None)
}
