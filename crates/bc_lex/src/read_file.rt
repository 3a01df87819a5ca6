//! What is kept of a file that a GET named, so that later GETs of it copy its tokens. Without this, a few files with n GETs each could make n^8 GETs.
ghost use Rattle.std.specs.Prelude.{◌≡◌, ◌≤◌, IfSome};
ghost use Rattle.std.specs.List.{Contains};

/// A file that a GET named and that was read to its end.
#[derive(Clone, Copy, Debug)]
pub struct ReadFile {
    /// The index of the file.
    pub file: usize,
    /// How deep GETs could nest in it. Where they can nest as deep or deeper, the file has the same tokens.
    pub levels: usize,
    /// The index of its first token in the list of tokens.
    pub start: usize,
    /// The index after its last token.
    pub end: usize,
}

/// An earlier reading of this file that has the tokens that it has where GETs can nest `levels` deep in it.
pub fn earlier_reading(files: &[ReadFile], file: usize, levels: usize) -> Option<ReadFile>
    ensures { IfSome result (λ r. Contains files.now r × (r.file ≡ file) × (r.levels ≤ levels)) }
{
    for read in files {
        if read.file == file && read.levels <= levels {
            return Some(*read);
        }
    }
    None
}
