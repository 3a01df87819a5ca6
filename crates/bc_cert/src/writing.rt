//! Writes a certificate: the calls of `bc_cert_write`, with the promise that the certificate is accepted.

ghost use Rattle.std.specs.Prelude.{◌≡◌, List, OnOk, IfErr, map};
ghost use Rattle.std.specs.List.{AllByRecursion, AllZip};
ghost use Rattle.std.specs.Io.KnownBytes.{Appends};
ghost use Rattle.bc_text.specs.Printed.{AppendsFront};
ghost use Rattle.bc_rules_defs.specs.View.{entry as entry_seen};
ghost use Rattle.bc_cert_write.specs.Certificate.{Derived, entry_of, certificate};
ghost use Rattle.bc_cert_write.specs.Workings.{WorkedOut};
ghost use Rattle.bc_cert_laws.specs.Entries.{Says};
ghost use Rattle.bc_cert_laws.specs.Written.{HasFewest, HasRoom, verdict_of};

use bc_cert_write::{CertFault, Workings};
use bc_rules_defs::Entry;
use std::alloc::Global;
use std::io::Write;

/// Writes the certificate of the entries by table 2: the header, the lines of each entry, and the end line.
///
/// Each entry's derivation must be one of its root by table 2; otherwise nothing is promised. If no derivation of a root has fewer words
/// than the entry's, and the numbers are within the bounds of the lines, the certificate is accepted and says exactly these entries.
///
/// Returns `Write` if the writer returns an error or takes nothing. Returns `Memory` if an allocation fails, and at an entry for which
/// `bc_cert_write::workings_of` returns `NoRoom`: its root has more than 2^32 nodes, or an offset in the frame or a label of its code
/// would be over 65,535. After an error the writer has taken the first bytes of the certificate.
pub fn write_cert<W: Write>(alloc: Global, entries: &[Entry], out: &mut W) -> Result<(), CertFault>
    ensures written { (ds : List Derived) → map entry_seen entries.now ≡ map entry_of ds
        → OnOk result (Appends (W.contents out.old) (W.contents out.new) (certificate ds)) }
    ensures front { (ds : List Derived) → map entry_seen entries.now ≡ map entry_of ds → AppendsFront (W.contents out.old) (W.contents out.new)
        (certificate ds) }
    ensures accepted { (ds : List Derived) → map entry_seen entries.now ≡ map entry_of ds → AllByRecursion HasFewest ds → AllByRecursion HasRoom ds
        → Says (certificate ds) (verdict_of ds) }
{
    bc_cert_write::write_cert(alloc, entries, out)
}

/// Writes the certificate like `write_cert`, for a caller that has the workings already: the n-th are those of the n-th entry.
/// `Memory` then means that an allocation failed, since no number can lack room.
pub fn write_worked<W: Write>(
    alloc: Global,
    entries: &[Entry],
    workings: &[Workings],
    out: &mut W,
) -> Result<(), CertFault>
    requires { AllZip WorkedOut (map entry_seen entries.now) workings.now }
    ensures written { (ds : List Derived) → map entry_seen entries.now ≡ map entry_of ds
        → OnOk result (Appends (W.contents out.old) (W.contents out.new) (certificate ds)) }
    ensures front { (ds : List Derived) → map entry_seen entries.now ≡ map entry_of ds → AppendsFront (W.contents out.old) (W.contents out.new)
        (certificate ds) }
    ensures accepted { (ds : List Derived) → map entry_seen entries.now ≡ map entry_of ds → AllByRecursion HasFewest ds → AllByRecursion HasRoom ds
        → Says (certificate ds) (verdict_of ds) }
{
    bc_cert_write::write_worked(alloc, entries, workings, out)
}
