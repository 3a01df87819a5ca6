//! Laws about built programs. Each is the contract of a function that computes nothing.

ghost use Rattle.std.specs.Prelude.{ℕ, List, Some};
ghost use Rattle.bc_text_items.specs.declared.item.Item.{Item};
ghost use Rattle.bc_machine_defs.specs.declared.image.Image.{Image};
ghost use Rattle.bc_machine_defs.specs.declared.state.End.{End};
ghost use Rattle.bc_run.specs.Runs.{IsRunOf};
ghost use Rattle.bc_build.specs.Text.{text_of, ReadsAs, IsRunFrom};
ghost use Rattle.bc_build.specs.Taken.{CertificateIsTaken};
ghost use Rattle.bc_build.specs.Generated.{GeneratedRuns};
ghost use Rattle.bc_parse_tree.specs.Tree.{Declarations};
ghost use Rattle.bc_build.specs.Runs.{RunsAsMeant};
ghost use Rattle.bc_build.specs.Ended.{EndsAsMeant};

use bc_machine::Streams;

/// A run of the printed text of segments by `run_text` is a run from their image.
pub fn text_runs<S: Streams>()
    ensures { (segments : List (List Item)) (image : Image) (steps : ℕ) (old new : S) (end : End) → ReadsAs segments image
        → IsRunOf (Some (text_of segments)) steps (S.known old) (S.known new) (S.content old) (S.content new) (S.failures old) (S.failures new) end
        → IsRunFrom image steps (S.known old) (S.known new) (S.content old) (S.content new) (S.failures old) (S.failures new) end }
{}

/// A run of at most `steps` instructions from an image that `build` returned, over streams whose content is known. If it finished or
/// met a zero divisor, the meaning of the sections has that ending and the output that was written, or it is wild. If it met an invalid
/// instruction, the meaning is wild. `Machine::run` does such runs, and by `text_runs` so does `run_text`.
pub fn run_ends_as_meant<S: Streams>()
    ensures { (sections : List Declarations) (image : Image) (steps : ℕ) (old new : S) (end : End)
        → RunsAsMeant sections image → S.known old
        → IsRunFrom image steps (S.known old) (S.known new) (S.content old) (S.content new) (S.failures old) (S.failures new) end
        → EndsAsMeant sections image (S.content old) steps (S.content new) end }
{}

/// The certificate of a build is accepted: if `check` returns Ok on the bytes that `write_cert` wrote for it, the verdict is the expected
/// one, and `check_against` finds no mismatch. The only possible errors of `check` are that the reader failed or memory ran out.
pub fn certificate_is_taken()
    ensures { CertificateIsTaken }
{
    bc_cert_laws::laws::one_answer();
}

/// The items that `generate` returns for any well-formed `Core`s, linked after the primitives, run as the `Core`s mean.
pub fn generated_runs()
    ensures { GeneratedRuns }
{
    bc_right::programs::laws::programs_run();
}
