//! Laws about certificates. Each is the contract of a function that does nothing.

ghost use Rattle.bc_cert_laws.specs.Laws.{AcceptedIsLeast, CertificateIsSaid, HaveCertificate, JudgedIsSaid, LongerFaults, OneAnswer, SaysIsReached};

/// The function that the checker computes returns a verdict exactly if the bytes say it, and a fault exactly if it is their first one.
pub fn judged_is_said()
    ensures { JudgedIsSaid }
{}

/// All bytes either say exactly one verdict or have exactly one first fault, never both.
pub fn one_answer()
    ensures { OneAnswer }
{}

/// The two definitions of an accepted certificate agree: bytes as a whole say a verdict exactly if their lines, taken one by one, are
/// right and lead to the end with this verdict.
pub fn says_is_reached()
    ensures { SaysIsReached }
{}

/// The certificate of derivations by table 2 that have the fewest words is accepted, if its numbers have room, and says these entries.
pub fn certificate_is_said()
    ensures { CertificateIsSaid }
{}

/// A first fault remains the first one if more bytes follow. The exceptions are the two faults that depend on where the bytes end: an
/// incomplete first line, and a missing end line.
pub fn longer_faults()
    ensures { LongerFaults }
{}

/// Each entry of an accepted certificate has the code of a derivation of its root by the table of the header, with as many words as it
/// states, and no derivation of the root has fewer.
pub fn accepted_is_least()
    ensures { AcceptedIsLeast }
{}

/// Entries whose rules are derivations of their roots by table 2 are the entries of some derivations, so there is a certificate that
/// `write_cert` writes for them.
pub fn have_certificate()
    ensures { HaveCertificate }
{}
