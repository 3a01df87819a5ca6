//! The places and VALOFs of a section that were found up to some point.
ghost use Rattle.std.specs.Prelude.{◌≡◌, IfOk};
ghost use Rattle.bc_core.specs.View.{place_of, valof_of};
ghost use Rattle.bc_scope_defs.specs.Found.{section_start};
ghost use Rattle.bc_scope_defs.specs.Scope.{after_place};
ghost use Rattle.bc_scope_names.specs.View.{numbers_view};
ghost use Rattle.bc_scope_translate.specs.Finding.{core_view, nothing, with_place, with_valof};

use bc_core::{Place, Valof};
use bc_scope_names::Numbers;
use bc_word::Memory;
use std::alloc::Global;

/// The part of a section's translation that was found up to here.
#[derive(Debug, Drop)]
pub struct Gathered {
    /// The next numbers.
    pub at: Numbers,
    /// The places, labelled from 1 in text order.
    pub places: Vec<Place>,
    /// The VALOFs, numbered from 0 in text order.
    pub valofs: Vec<Valof>,
}

#[tactic(auto, unfolding(crate::specs::Finding::core_view))]
impl Gathered {
    /// Nothing found yet.
    pub fn new(alloc: Global) -> Gathered
        ensures { (core_view result ≡ nothing) × (numbers_view result.at ≡ section_start) }
    {
        Gathered {
            at: Numbers::start(),
            places: Vec::new(alloc),
            valofs: Vec::new(alloc),
        }
    }

    /// Adds a place, and moves the numbers past it. Fails with `Memory` when an allocation fails or a number exceeds 64 bits.
    pub fn place(&mut self, place: Place) -> Result<(), Memory>
        ensures { IfOk result (λ _. (core_view self.new ≡ with_place (core_view self.old) (place_of place))
            × (numbers_view self.new.at ≡ after_place (numbers_view self.old.at))) }
    {
        let following = self.at.after_place()?;
        self.places.push(place)?;
        self.at = following;
        Ok(())
    }

    /// Adds a VALOF, whose number was already taken by `go_on_at`. Fails with `Memory` when an allocation fails.
    pub fn valof(&mut self, valof: Valof) -> Result<(), Memory>
        ensures { IfOk result (λ _. (core_view self.new ≡ with_valof (core_view self.old) (valof_of valof)) × (self.new.at ≡ self.old.at)) }
    {
        Ok(self.valofs.push(valof)?)
    }

    /// Sets the next numbers.
    pub fn go_on_at(&mut self, at: Numbers)
        ensures { (core_view self.new ≡ core_view self.old) × (self.new.at ≡ at) }
    {
        self.at = at;
    }
}
