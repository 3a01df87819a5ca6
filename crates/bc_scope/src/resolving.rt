//! The public call `resolve`.
ghost use Rattle.std.specs.Prelude.{◌≡◌, ◌≤◌};
ghost use Rattle.bc_parse_tree.specs.View.{section_view};
ghost use Rattle.bc_parse_tree.specs.Size.{declarations_size};
ghost use Rattle.bc_scope.specs.Resolving.{Resolves};

use bc_core::Core;
use bc_parse_tree::Section;
use bc_scope_faults::judge;
use bc_scope_names::{Scope, ScopeError};
use bc_scope_translate::translate;
use std::alloc::Global;

/// Resolves a section of at most 60,000 definitions, commands and expressions, and returns its translation.
///
/// Fails with the first fault in text order, where the parts of a construct come before the construct itself; with
/// `FrameTooLarge` and then `TooManyPlaces` only if there is no other fault; or with `Memory` when an allocation fails.
pub fn resolve<'s>(alloc: Global, section: &Section<'s>) -> Result<Core, ScopeError<'s>>
    requires { declarations_size (section_view section.now) ≤ 60000 }
    ensures { Resolves result (section_view section.now) }
{
    let mut scope = Scope::new(alloc);
    judge(&mut scope, &section.declarations)?;
    let found = translate(&mut scope, &section.declarations)?;
    if found.places.len() > 8000 {
        return Err(ScopeError::TooManyPlaces);
    }
    Ok(Core::new(found.places, found.valofs))
}
