//! The first fault of declarations, and the frame cells that they take. `blocks.rt` says what these functions take and return.
ghost use Rattle.std.specs.Prelude.{◌++◌};
ghost use Rattle.bc_parse_tree.specs.View.{exp_view, block_view, declaration_view, declarations_view, definition_view, definitions_view, entries_view};
ghost use Rattle.bc_scope_defs.specs.Scoping.{names_of};
ghost use Rattle.bc_scope_faults.specs.Kept.{Keeps, Grows};
ghost use Rattle.bc_scope_faults.specs.Seen.{names_view};
ghost use Rattle.bc_scope_faults.specs.Walked.{Walks, WalksOn, Entered, Defined, DeclaredBy};
ghost use Rattle.bc_scope_faults.specs.Walk.{here};
ghost use Rattle.bc_scope_faults.specs.Parts.{of_entries, of_definition, of_definitions, of_function, of_routine, of_let, of_declaration, of_declarations};

use crate::blocks::block;
use crate::context::{CommandContext, ExpressionContext};
use crate::expressions::{check_constant, expression, initials};
use crate::judging::{
    Allowed, check_entry, check_parameters, declare_all_once, declare_once, level_of, names_in,
    require_allowed,
};
use crate::progress::{Extent, Progress, also_fits};
use bc_parse_tree::{Block, Constant, Declaration, Definition, Exp, Storage};
use bc_scope_names::{
    Scope, ScopeError, after_definition, after_entry, declare_entry, declare_let,
    declare_parameters, declare_pending, priors_of_let,
};
use indexmap::IndexSet;

/// The entries of a MANIFEST, STATIC or GLOBAL, each with the names of those before it.
#[inline(never)]
#[cycle(faults)]
#[tactic(auto, using(crate::proofs::Frames::along, bc_scope_names::proofs::Extends::left, crate::proofs::Kept::keeping))]
fn entries<'s>(
    scope: &mut Scope<'s>,
    progress: &mut Progress,
    storage: Storage,
    list: &[Constant<'s>],
) -> Result<(), ScopeError<'s>>
    ensures answer { Entered result progress.old progress.new scope.new (of_entries storage (entries_view list.now) (here scope.old progress.old)) }
    ensures kept { Grows result scope.old scope.new }
{
    let mut before = IndexSet::new(scope.alloc());
    for entry in list {
        declare_once(&mut before, entry.name)?;
        check_constant(scope, *progress, &entry.value)?;
        check_entry(scope, storage, entry.name, &entry.value)?;
        declare_entry(scope, storage, progress.at, entry)?;
        progress.at = after_entry(storage, progress.at)?;
    }
    Ok(())
}

/// One definition of a LET, whose names must differ from those in `before`, to which they are added.
#[cycle(faults)]
#[tactic(auto, using(crate::proofs::Frames::along, crate::proofs::Kept::keeping))]
fn definition<'s>(
    scope: &mut Scope<'s>,
    before: &mut IndexSet<&'s [u8]>,
    progress: &mut Progress,
    tree: &Definition<'s>,
    level: u64,
) -> Result<u64, ScopeError<'s>>
    ensures answer { Defined result progress.old progress.new
        (of_definition (names_view before.old.keys) (definition_view tree.now) level
        (here scope.old progress.old))
        (names_view before.new.keys) (names_view before.old.keys ++ names_of (definition_view tree.now)) }
    ensures kept { Keeps result scope.old scope.new }
{
    match tree {
        Definition::Variables(names, values) => {
            declare_all_once(before, names)?;
            let width = initials(scope, progress, values, level)?;
            require_allowed(scope.is_inside())?;
            Ok(width)
        }
        Definition::Vector(name, greatest) => {
            declare_once(before, name)?;
            check_constant(scope, *progress, greatest)?;
            require_allowed(scope.is_inside())?;
            Ok(0)
        }
        Definition::Function(name, parameters, value) => {
            declare_once(before, name)?;
            function(scope, progress, parameters, value)?;
            Ok(0)
        }
        Definition::Routine(name, parameters, body) => {
            declare_once(before, name)?;
            routine(scope, progress, parameters, body)?;
            Ok(0)
        }
    }
}

/// A routine that is an expression: its parameters, then its value. Its own frame is checked after those of routines inside it.
#[inline(never)]
#[cycle(faults)]
#[tactic(auto, using(crate::proofs::Frames::frames_last, bc_scope_names::proofs::Extends::left, crate::proofs::Kept::keeping))]
fn function<'s>(
    scope: &mut Scope<'s>,
    progress: &mut Progress,
    parameters: &[&'s [u8]],
    value: &Exp<'s>,
) -> Result<(), ScopeError<'s>>
    ensures answer { WalksOn result progress.old progress.new (of_function (names_view parameters.now) (exp_view value.now) (here scope.old progress.old)) }
    ensures kept { Keeps result scope.old scope.new }
{
    check_parameters(scope.alloc(), parameters)?;
    let mark = scope.mark();
    declare_parameters(scope, parameters)?;
    progress.at = progress.at.after_place()?;
    let level = level_of(parameters)?;
    let context = ExpressionContext {
        in_constant: false,
        level,
    };
    let width = expression(scope, progress, context, value)?;
    scope.leave(mark);
    progress.fits = also_fits(progress.fits, level.max(width));
    Ok(())
}

/// A routine that is a block: its parameters, then its body. Its own frame is checked after those of routines inside it.
#[cycle(faults)]
#[tactic(auto, using(crate::proofs::Frames::frames_last, bc_scope_names::proofs::Extends::left, crate::proofs::Kept::keeping))]
fn routine<'s>(
    scope: &mut Scope<'s>,
    progress: &mut Progress,
    parameters: &[&'s [u8]],
    body: &Block<'s>,
) -> Result<(), ScopeError<'s>>
    ensures answer { WalksOn result progress.old progress.new (of_routine (names_view parameters.now) (block_view body.now) (here scope.old progress.old)) }
    ensures kept { Keeps result scope.old scope.new }
{
    check_parameters(scope.alloc(), parameters)?;
    let mark = scope.mark();
    declare_parameters(scope, parameters)?;
    progress.at = progress.at.after_place()?;
    let level = level_of(parameters)?;
    let context = CommandContext {
        allowed: Allowed::routine(),
        level,
    };
    let width = block(scope, progress, context, body)?;
    scope.leave(mark);
    progress.fits = also_fits(progress.fits, level.max(width));
    Ok(())
}

/// The definitions of a LET whose names are already in scope, all at the level after its cells.
#[cycle(faults)]
#[tactic(auto, using(crate::proofs::Frames::along, crate::proofs::Kept::keeping))]
fn definitions<'s>(
    scope: &mut Scope<'s>,
    progress: &mut Progress,
    list: &[Definition<'s>],
    level: u64,
) -> Result<u64, ScopeError<'s>>
    ensures answer { Walks result progress.old progress.new (of_definitions (definitions_view list.now) level (here scope.old progress.old)) }
    ensures kept { Keeps result scope.old scope.new }
{
    let mut before = IndexSet::with_capacity(scope.alloc(), names_in(list))?;
    let mut width = 0u64;
    for tree in list {
        width = width.max(definition(scope, &mut before, progress, tree, level)?);
    }
    Ok(width)
}

/// A LET: adds its names, and walks its definitions with them in scope. The constants of its vectors may see the final names,
/// because only the kind of a name matters in a constant, not its number.
#[cycle(faults)]
#[tactic(auto, using(crate::proofs::Anywhere::frames_of_own, bc_scope_names::proofs::Extends::left, crate::proofs::Kept::keeping))]
fn definitions_of_let<'s>(
    scope: &mut Scope<'s>,
    progress: &mut Progress,
    list: &[Definition<'s>],
    level: u64,
) -> Result<Extent, ScopeError<'s>>
    ensures answer { DeclaredBy result progress.old progress.new scope.new (of_let (definitions_view list.now) level (here scope.old progress.old)) }
    ensures kept { Grows result scope.old scope.new }
{
    let priors = priors_of_let(scope, list)?;
    let level = declare_let(scope, &priors, progress.at, level, list)?;
    let width = definitions(scope, progress, list, level)?;
    Ok(Extent {
        level,
        width: level.max(width),
    })
}

/// One declaration.
#[cycle(faults)]
#[tactic(auto, using(bc_scope_names::proofs::Extends::left, crate::proofs::Kept::keeping))]
fn declaration<'s>(
    scope: &mut Scope<'s>,
    progress: &mut Progress,
    tree: &Declaration<'s>,
    level: u64,
) -> Result<Extent, ScopeError<'s>>
    ensures answer { DeclaredBy result progress.old progress.new scope.new
        (of_declaration (declaration_view tree.now) level (here scope.old progress.old)) }
    ensures kept { Grows result scope.old scope.new }
{
    match tree {
        Declaration::Constants(storage, list) => {
            declare_pending(scope, *storage, list)?;
            entries(scope, progress, *storage, list)?;
            Ok(Extent { level, width: 0 })
        }
        Declaration::Let(list) => definitions_of_let(scope, progress, list, level),
    }
}

/// Walks declarations, each with the names of those before it, and adds their names to the scope.
#[inline(never)]
#[cycle(faults)]
#[tactic(auto, using(crate::proofs::Frames::along, bc_scope_names::proofs::Extends::left, crate::proofs::Kept::keeping))]
pub fn declarations<'s>(
    scope: &mut Scope<'s>,
    progress: &mut Progress,
    list: &[Declaration<'s>],
    level: u64,
) -> Result<Extent, ScopeError<'s>>
    ensures answer { DeclaredBy result progress.old progress.new scope.new
        (of_declarations (declarations_view list.now) level (here scope.old progress.old)) }
    ensures kept { Grows result scope.old scope.new }
{
    let mut following = level;
    let mut width = 0u64;
    for tree in list {
        let extent = declaration(scope, progress, tree, following)?;
        following = extent.level;
        width = width.max(extent.width);
    }
    Ok(Extent {
        level: following,
        width,
    })
}
