//! The texts of EXTHDR and EXTLIB, and which section the text of EXTLIB is. The law is the contract of a function that does nothing.

ghost use Rattle.std.specs.Prelude.{◌≡◌};
ghost use Rattle.bc_library_laws.specs.extension.Texts.{source, header};
ghost use Rattle.bc_library_laws.specs.extension.TextLaws.{ExtensionIsTheSection};

/// If LIBHDR, BLIB, EXTHDR and EXTLIB are the first four files, then whatever files follow, the section of EXTLIB resolves to the one of
/// which `laws` speaks.
pub fn extension_is_the_section()
    ensures { ExtensionIsTheSection }
{}

/// The bytes of EXTLIB, as `bc_library_ext` has them. The contract ties them to the definition of the law.
pub fn extension_text() -> &'static [u8]
    ensures { result.now ≡ source }
{
    bc_library_ext::EXTLIB.as_bytes()
}

/// The bytes of EXTHDR, as `bc_library_ext` has them. The contract ties them to the definition of the law.
pub fn header_text() -> &'static [u8]
    ensures { result.now ≡ header }
{
    bc_library_ext::EXTHDR.as_bytes()
}
