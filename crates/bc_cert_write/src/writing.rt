//! Writes a certificate to a writer, an entry at a time.

ghost use Rattle.std.specs.Prelude.{◌≡◌, List, OnOk, IfOk, IfErr, map};
ghost use Rattle.std.specs.List.{AllZip};
ghost use Rattle.std.specs.Io.KnownBytes.{Appends};
ghost use Rattle.bc_text.specs.Printed.{AppendsFront};
ghost use Rattle.bc_rules_defs.specs.View.{entry as entry_seen};
ghost use Rattle.bc_rules_defs.specs.declared.rule.Table.TheVariants.{Two};
ghost use Rattle.bc_cert_defs.specs.Text.{header_line, end_line};
ghost use Rattle.bc_cert_write.specs.Certificate.{Derived, entry_of, certificate};
ghost use Rattle.bc_cert_write.specs.Workings.{WorkedOut};
ghost use Rattle.bc_cert_write.specs.declared.cert_fault.CertFault.TheVariants as faults;

use crate::cert_fault::CertFault;
use crate::entry_text::entry_text;
use crate::text::Text;
use crate::workings::{Workings, workings_of};
use bc_rules_defs::Entry;
use bc_word::Memory;
use std::alloc::Global;
use std::io::Write;

/// Writes the certificate of the entries by table 2: the header, the lines of each entry, and the end line.
///
/// Each entry's derivation must be one of its root by table 2; otherwise nothing is promised. The writer gets the lines of one
/// entry at a time.
///
/// Returns `Write` if the writer returns an error or takes nothing. Returns `Memory` if an allocation fails, and at an entry for
/// which `workings_of` returns `NoRoom`: its root has more than 2^32 nodes, or an offset in the frame or a label of its code
/// would be over 65,535. After an error the writer has taken the first bytes of the certificate.
pub fn write_cert<W: Write>(alloc: Global, entries: &[Entry], out: &mut W) -> Result<(), CertFault>
    ensures written { (ds : List Derived) → map entry_seen entries.now ≡ map entry_of ds
        → OnOk result (Appends (W.contents out.old) (W.contents out.new) (certificate ds)) }
    ensures front { (ds : List Derived) → map entry_seen entries.now ≡ map entry_of ds → AppendsFront (W.contents out.old) (W.contents out.new)
        (certificate ds) }
{
    begin(out)?;
    let mut text = Text::new(alloc);
    for entry in entries {
        let workings = workings_of(alloc, entry)?;
        entry_text(alloc, entry, &workings, &mut text)?;
        put(out, text.as_slice())?;
    }
    last_line(&mut text, entries.len() as u64)?;
    put(out, text.as_slice())
}

/// Writes the certificate like `write_cert`, for a caller that has the workings already: the n-th are those of the n-th entry.
/// `Memory` then means that an allocation failed, since no number can lack room.
pub fn write_worked<W: Write>(
    alloc: Global,
    entries: &[Entry],
    workings: &[Workings],
    out: &mut W,
) -> Result<(), CertFault>
    requires { AllZip WorkedOut (map entry_seen entries.now) workings.now }
    ensures written { (ds : List Derived) → map entry_seen entries.now ≡ map entry_of ds
        → OnOk result (Appends (W.contents out.old) (W.contents out.new) (certificate ds)) }
    ensures front { (ds : List Derived) → map entry_seen entries.now ≡ map entry_of ds → AppendsFront (W.contents out.old) (W.contents out.new)
        (certificate ds) }
{
    begin(out)?;
    let mut text = Text::new(alloc);
    for (i, entry) in entries.iter().enumerate() {
        entry_text(alloc, entry, &workings[i], &mut text)?;
        put(out, text.as_slice())?;
    }
    last_line(&mut text, entries.len() as u64)?;
    put(out, text.as_slice())
}

/// Writes the header.
fn begin<W: Write>(out: &mut W) -> Result<(), CertFault>
    ensures written { OnOk result (Appends (W.contents out.old) (W.contents out.new) (header_line Two)) }
    ensures front { AppendsFront (W.contents out.old) (W.contents out.new) (header_line Two) }
    ensures fault { IfErr result (λ fault. fault ≡ faults.Write) }
{
    put(out, b"BCPLCERT 2\n")
}

/// Replaces the text by the end line. Returns `Memory` if an allocation fails.
fn last_line(text: &mut Text, entries: u64) -> Result<(), Memory>
    ensures { OnOk result (text.new.bytes.items ≡ end_line entries) }
{
    text.clear();
    text.push(b"Z ")?;
    text.number(entries)?;
    text.push(b"\n")
}

/// Writes all of the bytes. After an error the writer has taken the first of them.
fn put<W: Write>(out: &mut W, bytes: &[u8]) -> Result<(), CertFault>
    ensures written { OnOk result (Appends (W.contents out.old) (W.contents out.new) bytes.now) }
    ensures front { AppendsFront (W.contents out.old) (W.contents out.new) bytes.now }
    ensures fault { IfErr result (λ fault. fault ≡ faults.Write) }
{
    let mut taken = 0;
    while taken < bytes.len() {
        match out.write(&bytes[taken..]) {
            Ok(0) | Err(_) => return Err(CertFault::Write),
            Ok(more) => taken += more,
        }
    }
    Ok(())
}
