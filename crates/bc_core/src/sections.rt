//! A resolved section as a whole, with what always holds of it.
ghost use Rattle.std.specs.Prelude.{◌≡◌, IsTrue};
ghost use Rattle.bc_core.specs.View.{section};
ghost use Rattle.bc_core.specs.WellFormed.{is_core};

use crate::command::{Place, Valof};
use std::marker::Model;

/// A resolved section: its places, labelled 1, 2, .. in text order, and its VALOFs, numbered 0, 1, .. in text order.
///
/// Contracts see it as the pair of these two lists. It is always well formed: its labels, numbers and jump targets
/// exist, each VALOF has its level, no frame has more than 32,768 cells, and no root has more than 2^20 nodes.
/// `is_core` is the exact definition.
#[derive(Debug, Drop)]
pub struct Core {
    places: Vec<Place>,
    valofs: Vec<Valof>,
}

impl Model for Core {
    ghost use Rattle.std.specs.Prelude.{List, IsTrue};
    ghost use Rattle.std.specs.Coded.{coded×, coded_list};
    ghost use Rattle.bc_core.specs.declared.command.Place.{Place};
    ghost use Rattle.bc_core.specs.declared.command.Valof.{Valof};
    ghost use Rattle.bc_core.specs.contracts.command.Place as place_contract;
    ghost use Rattle.bc_core.specs.contracts.command.Valof as valof_contract;

    ghost Value = { List Place × List Valof };

    ghost coded = { coded× (coded_list place_contract.the_row.coded) (coded_list valof_contract.the_row.coded) };

    ghost use Rattle.bc_core.specs.View.{section};
    ghost use Rattle.bc_core.specs.WellFormed.{is_core};

    ghost view = { λ a. (a.places.items, a.valofs.items) };

    ghost invariant = { λ a. IsTrue (is_core (section (a.places.items, a.valofs.items))) };
}

impl Core {
    /// The section with these places and VALOFs. The caller must prove that they are well formed.
    pub fn new(places: Vec<Place>, valofs: Vec<Valof>) -> Core
        requires { IsTrue (is_core (section (places.items, valofs.items))) }
        ensures { result ≡ (places.items, valofs.items) }
    {
        Core { places, valofs }
    }

    /// The places, by their labels; the first has the label 1.
    pub fn places(&self) -> &[Place]
        ensures places { result.now ≡ self.now.0 }
        ensures fits { IsTrue (is_core (section self.now)) }
    {
        self.places.as_slice()
    }

    /// The VALOFs, by their numbers; the first has the number 0.
    pub fn valofs(&self) -> &[Valof]
        ensures valofs { result.now ≡ self.now.1 }
        ensures fits { IsTrue (is_core (section self.now)) }
    {
        self.valofs.as_slice()
    }
}
