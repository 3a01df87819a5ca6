//! The texts of LIBHDR and BLIB, and which section the text of BLIB is. The law is the contract of a function that does nothing.

ghost use Rattle.std.specs.Prelude.{◌≡◌};
ghost use Rattle.bc_library_laws.specs.Texts.{source, header};
ghost use Rattle.bc_library_laws.specs.TextLaws.{LibraryIsTheSection};

/// If LIBHDR and BLIB are the first two files, then whatever files follow, the section of BLIB resolves to the library of
/// which `laws` speaks.
pub fn library_is_the_section()
    ensures { LibraryIsTheSection }
{}

/// The bytes of BLIB, as `bc_library` has them. The contract ties them to the definition of the law.
pub fn library_text() -> &'static [u8]
    ensures { result.now ≡ source }
{
    bc_library::BLIB.as_bytes()
}

/// The bytes of LIBHDR, as `bc_library` has them. The contract ties them to the definition of the law.
pub fn header_text() -> &'static [u8]
    ensures { result.now ≡ header }
{
    bc_library::LIBHDR.as_bytes()
}
