//! The public call `interpret`: resolves the mains of a program that was built, and runs them by their meaning.

ghost use Rattle.std.specs.Prelude.{◌≡◌, ◌≤◌, ◌<◌, length, map, All, IfOk, List};
ghost use Rattle.bc_machine.specs.Rose.{Rose};
ghost use Rattle.bc_lex.specs.Files.{files_of};
ghost use Rattle.bc_parse_tree.specs.Tree.{Declarations};
ghost use Rattle.bc_core.specs.View.{section as section_view};
ghost use Rattle.bc_build.specs.Built.{IsBuilt};
ghost use Rattle.bc_build.specs.Parsed.{AreParsed};
ghost use Rattle.bc_build.specs.Runs.{RunsAsMeant};
ghost use Rattle.bc_interpret.specs.declared.run.Outcome.TheVariants as outcomes;
ghost use Rattle.bc_interpret_sources.specs.Programs.{IsImageOf, MeansOn, NamesOn, RunsOn};
ghost use Rattle.bc_interpret_sources.specs.Resolving.{AreTranslated, IsResolved};

use bc_build::{Built, Image, Source};
use bc_core::Core;
use bc_interpret::{Interpreted, Observer, Unobserved};
use bc_lex::lex;
use bc_machine::Streams;
use bc_parse::parse;
use bc_scope::resolve;
use bc_word::Memory;
use std::alloc::Global;

/// A program that was built.
#[derive(Clone, Copy)]
pub struct BuiltProgram<'p> {
    /// Its sources.
    pub sources: &'p [Source<'p>],
    /// Its mains, as indexes of the sources.
    pub mains: &'p [usize],
    /// Its image, from which the addresses of routines and data are taken.
    pub image: &'p Image,
}

impl<'p> BuiltProgram<'p> {
    /// The program that `bc_build::build` built from these mains, which are indexes of the sources.
    #[tactic(auto, using(crate::proofs::Resolved::built_is_image))]
    pub fn built(
        sources: &'p [Source<'p>],
        mains: &'p [usize],
        built: &'p Built,
    ) -> BuiltProgram<'p>
        requires built { IsBuilt (files_of sources.now) mains.now built.now }
        requires runs { (sections : List Declarations) → AreParsed (files_of sources.now) mains.now sections → RunsAsMeant sections built.now.image }
        ensures sources { result.sources.now ≡ sources.now }
        ensures mains { result.mains.now ≡ mains.now }
        ensures image { IsImageOf (files_of result.sources.now) result.mains.now result.image.now }
    {
        BuiltProgram {
            sources,
            mains,
            image: &built.image,
        }
    }
}

/// Lexes, parses and resolves a main again.
///
/// `Memory` if an allocation fails, or if the main has a fault, which a main that was built hasn't.
fn resolved(alloc: Global, sources: &[Source<'_>], main: usize) -> Result<Core, Memory>
    requires { main < length sources.now }
    ensures { IfOk result (λ core. IsResolved (files_of sources.now) main (section_view core)) }
{
    let tokens = match lex(alloc, sources, main) {
        Ok(tokens) => tokens,
        Err(_) => return Err(Memory),
    };
    let section = match parse(alloc, tokens.as_slice()) {
        Ok(section) => section,
        Err(_) => return Err(Memory),
    };
    match resolve(alloc, &section) {
        Ok(core) => Ok(core),
        Err(_) => Err(Memory),
    }
}

/// Lexes, parses and resolves all these mains.
///
/// `Memory` as for one main.
fn all_resolved(alloc: Global, sources: &[Source<'_>], mains: &[usize]) -> Result<Vec<Core>, Memory>
    requires { All (λ main. main < length sources.now) mains.now }
    ensures { IfOk result (λ cores. AreTranslated (files_of sources.now) mains.now (map section_view cores.items)) }
{
    let mut cores = Vec::new(alloc);
    for main in mains {
        let core = resolved(alloc, sources, *main)?;
        cores.push(core)?;
    }
    Ok(cores)
}

/// Runs the program by the meaning of its sources, for at most `turns` turns, and returns the outcome and where the run was then.
///
/// The outcome `Device` comes only if the streams' count of failures rose or is at its greatest value.
///
/// `Memory` if an allocation fails.
pub fn interpret<S: Streams>(
    alloc: Global,
    program: &BuiltProgram<'_>,
    streams: &mut S,
    turns: u64,
) -> Result<Interpreted, Memory>
    requires mains { All (λ main. main < length program.now.sources.now) program.now.mains.now }
    requires built { IsImageOf (files_of program.now.sources.now) program.now.mains.now program.now.image.now }

    // If the content of the streams is known, the outcome and the output are what the sections mean, or a device failed.
    ensures means { IfOk result (λ i. MeansOn S.known S.content program.now turns streams.old streams.new i.outcome) }

    // If the content is known and the run is wild, the machine reaches a step that is wild with the reported cause, and the trail has the
    // calls that are open during that step.
    ensures names { IfOk result (λ i. NamesOn S.known S.content program.now turns streams.old i) }

    // If the content is known, the image's run has the same ending and output, or goes on as well; nothing is said of a wild run.
    ensures runs { IfOk result (λ i. RunsOn S.known S.content program.now turns streams.old streams.new i.outcome) }
    ensures known { IfOk result (λ i. S.known streams.old → S.known streams.new) }
    ensures failed { IfOk result (λ i. i.outcome ≡ outcomes.Device → Rose (S.failures streams.old) (S.failures streams.new)) }
    ensures counted { IfOk result (λ i. S.failures streams.old ≤ S.failures streams.new) }
{
    let mut unobserved = Unobserved;
    interpret_observed(alloc, program, streams, turns, &mut unobserved)
}

/// Runs the program like `interpret`, and lets an observer see each step. What the observer does has no effect on the outcome and the output.
///
/// The outcome `Device` comes only if the streams' count of failures rose or is at its greatest value.
///
/// `Memory` if an allocation fails.
pub fn interpret_observed<S: Streams, O: Observer>(
    alloc: Global,
    program: &BuiltProgram<'_>,
    streams: &mut S,
    turns: u64,
    observer: &mut O,
) -> Result<Interpreted, Memory>
    requires mains { All (λ main. main < length program.now.sources.now) program.now.mains.now }
    requires built { IsImageOf (files_of program.now.sources.now) program.now.mains.now program.now.image.now }

    // If the content of the streams is known, the outcome and the output are what the sections mean, or a device failed.
    ensures means { IfOk result (λ i. MeansOn S.known S.content program.now turns streams.old streams.new i.outcome) }

    // If the content is known and the run is wild, the machine reaches a step that is wild with the reported cause, and the trail has the
    // calls that are open during that step.
    ensures names { IfOk result (λ i. NamesOn S.known S.content program.now turns streams.old i) }

    // If the content is known, the image's run has the same ending and output, or goes on as well; nothing is said of a wild run.
    ensures runs { IfOk result (λ i. RunsOn S.known S.content program.now turns streams.old streams.new i.outcome) }
    ensures known { IfOk result (λ i. S.known streams.old → S.known streams.new) }
    ensures failed { IfOk result (λ i. i.outcome ≡ outcomes.Device → Rose (S.failures streams.old) (S.failures streams.new)) }
    ensures counted { IfOk result (λ i. S.failures streams.old ≤ S.failures streams.new) }
{
    bc_scope_laws::laws::sections_keep_their_meaning();
    let cores = all_resolved(alloc, program.sources, program.mains)?;
    let interpreted = bc_interpret::interpret_observed(
        alloc,
        cores.as_slice(),
        program.image,
        streams,
        turns,
        observer,
    )?;
    Ok(interpreted)
}
