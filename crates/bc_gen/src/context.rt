//! The context of a command: the VALOFs of its section, and the labels to which it may jump.
ghost use Rattle.std.specs.Prelude.{◌≡◌};
ghost use Rattle.bc_gen_defs.specs.Bodies.{body_exits};
ghost use Rattle.bc_gen.specs.Surroundings.{label_in, exits_of, roots_in, roots_of, valofs_in};

use bc_core::Valof;

/// A label of the source, by its number, with its label among the items.
#[derive(Clone, Copy, Debug)]
pub(crate) struct Numbered {
    /// The number of the source's label.
    pub(crate) number: u16,
    /// Its label among the items.
    pub(crate) label: u16,
}

/// The label of the first entry with this number, or `without` if there is none.
pub(crate) fn label_of(list: &[Numbered], number: u16, without: u16) -> u16
    ensures { result ≡ label_in list.now number without }
{
    for each in list {
        if each.number == number {
            return each.label;
        }
    }
    without
}

/// The context of a command.
#[derive(Clone, Copy)]
pub(crate) struct Around<'a> {
    /// All VALOFs of the section.
    pub(crate) valofs: &'a [Valof],
    /// The least number that a VALOF may have here. VALOFs within a VALOF's body have greater numbers, so the recursion ends.
    pub(crate) least: usize,
    /// The label to which BREAK jumps.
    pub(crate) broken: u16,
    /// The label to which LOOP jumps.
    pub(crate) looped: u16,
    /// The label to which ENDCASE jumps.
    pub(crate) cases: u16,
    /// The label to which RESULTIS jumps.
    pub(crate) resulted: u16,
    /// The source's labels, those of inner lists first.
    pub(crate) labels: &'a [Numbered],
}

impl<'a> Around<'a> {
    /// The context at the beginning of a body whose RESULTIS jumps to the label `resulted`.
    pub(crate) fn body(valofs: &'a [Valof], least: usize, resulted: u16) -> Around<'a>
        ensures exits { exits_of result ≡ body_exits resulted }
        ensures roots { roots_in result ≡ roots_of (valofs_in valofs.entry.now) least }
        ensures valofs { result.valofs.now ≡ valofs.entry.now }
        ensures least { result.least ≡ least }
    {
        Around {
            valofs,
            least,
            broken: 0,
            looped: 0,
            cases: 0,
            resulted,
            labels: &[],
        }
    }

    /// The context in the body of a loop, with the labels for BREAK and LOOP.
    pub(crate) fn in_loop(&self, broken: u16, looped: u16) -> Around<'a>
        ensures { result ≡ record self.now { broken = broken; looped = looped } }
    {
        Around {
            broken,
            looped,
            ..*self
        }
    }
}
