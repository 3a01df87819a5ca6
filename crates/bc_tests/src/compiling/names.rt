//! Calls about names that no source leads to by itself: what names mean at a place, constants, side levels, labels, and many names.

use crate::compiling::sections::{Answer, Asked, answered};
use bc_parse_tree::{Block, Command, Declaration, Definition, Exp, Section};
use bc_scope_names::{
    Meant, Numbers, Scope, constant_in, declare_let, declare_let_pending, declare_parameters,
    labels_in, priors_of_let, side_levels,
};
use bc_word::{Memory, Word};
use std::alloc::Global;

/// A name and its meaning.
#[derive(Clone, Copy)]
struct Meaning {
    name: &'static [u8],
    meant: Meant,
}

/// Whether each of these names has the meaning beside it.
fn are_known(scope: &Scope<'_>, wanted: &[Meaning]) -> bool {
    for known in wanted {
        if scope.meant_by(known.name) != known.meant {
            return false;
        }
    }
    true
}

/// A LET outside routines.
const LET: &[u8] = b"LET A, B = 1, 2 AND V = VEC 3 AND F() = A AND G() = A";

/// What its names mean where its constants are evaluated.
const PENDING: [Meaning; 3] = [
    Meaning {
        name: b"V",
        meant: Meant::Variable(0),
    },
    Meaning {
        name: b"F",
        meant: Meant::Routine(1),
    },
    Meaning {
        name: b"G",
        meant: Meant::Global(7),
    },
];

/// What they mean after it.
const DECLARED: [Meaning; 6] = [
    Meaning {
        name: b"A",
        meant: Meant::Variable(5),
    },
    Meaning {
        name: b"B",
        meant: Meant::Variable(6),
    },
    Meaning {
        name: b"V",
        meant: Meant::Variable(7),
    },
    Meaning {
        name: b"F",
        meant: Meant::Routine(1),
    },
    Meaning {
        name: b"G",
        meant: Meant::Global(7),
    },
    Meaning {
        name: b"H",
        meant: Meant::Undeclared,
    },
];

/// What they mean in a routine inside it with the parameter A.
const INSIDE: [Meaning; 3] = [
    Meaning {
        name: b"A",
        meant: Meant::Variable(2),
    },
    Meaning {
        name: b"B",
        meant: Meant::StrayVariable,
    },
    Meaning {
        name: b"F",
        meant: Meant::Routine(1),
    },
];

/// What they mean in a routine inside that one.
const DEEPER: [Meaning; 2] = [
    Meaning {
        name: b"A",
        meant: Meant::OuterVariable,
    },
    Meaning {
        name: b"B",
        meant: Meant::StrayVariable,
    },
];

/// Whether the names of a LET mean the right thing where its constants are evaluated.
fn is_pending<'s>(scope: &mut Scope<'s>, list: &[Definition<'s>]) -> Result<bool, Memory> {
    let before = scope.mark();
    declare_let_pending(scope, list)?;
    let is_right = are_known(scope, &PENDING);
    scope.leave(before);
    Ok(is_right)
}

/// Whether they mean the right thing after it, with variables from offset 5 up to 12.
fn is_declared<'s>(scope: &mut Scope<'s>, list: &[Definition<'s>]) -> Result<bool, Memory> {
    let priors = priors_of_let(scope, list)?;
    let is_undeclared = scope.meant_by(b"V") == Meant::Undeclared;
    let following = declare_let(scope, &priors, Numbers::start(), 5, list)?;
    Ok(is_undeclared && following == 12 && are_known(scope, &DECLARED))
}

/// Whether they mean the right thing in a routine inside it, in a routine inside that one, and after both.
fn is_known_inside(scope: &mut Scope<'_>) -> Result<bool, Memory> {
    let outside = scope.mark();
    declare_parameters(scope, &[b"A"])?;
    let is_inside = are_known(scope, &INSIDE);
    declare_parameters(scope, &[b"C"])?;
    let is_deeper = are_known(scope, &DEEPER);
    scope.leave(outside);
    Ok(is_inside && is_deeper && are_known(scope, &DECLARED))
}

/// Whether the names of this LET, after the declaration of a global, mean the right thing everywhere.
fn is_let<'s>(alloc: Global, list: &[Definition<'s>]) -> Result<bool, Memory> {
    let mut scope = Scope::new(alloc);
    scope.declare(b"G", Meant::Global(7))?;
    let is_right = is_pending(&mut scope, list)? && is_declared(&mut scope, list)?;
    Ok(is_right && is_known_inside(&mut scope)?)
}

/// The definitions of a declaration if it is a LET; else none.
fn definitions_in<'t, 's>(declaration: &'t Declaration<'s>) -> &'t [Definition<'s>] {
    match declaration {
        Declaration::Let(list) => list.as_slice(),
        Declaration::Constants(_, _) => &[],
    }
}

/// The definitions of a section that consists of one LET.
fn definitions<'t, 's>(section: &'t Section<'s>) -> &'t [Definition<'s>] {
    match section.declarations.as_slice() {
        [declaration] => definitions_in(declaration),
        _ => &[],
    }
}

/// Whether the names of the LET that the section is mean the right thing everywhere.
pub fn of_let(alloc: Global, section: &Section<'_>) -> Result<bool, Memory> {
    is_let(alloc, definitions(section))
}

/// A LET outside routines after a global: what its names mean in its constants, after it, and in routines inside it.
#[test]
fn a_let_is_declared(rt: HostRuntime) {
    assert_eq!(rt; answered(rt.alloc(), Asked::Let, LET), Answer::Right);
}

/// The block of a definition that is a routine.
fn block_in<'t, 's>(definition: &'t Definition<'s>) -> Option<&'t Block<'s>> {
    match definition {
        Definition::Routine(_, _, block) => Some(block),
        _ => None,
    }
}

/// The block of a section that consists of one routine.
fn block<'t, 's>(section: &'t Section<'s>) -> Option<&'t Block<'s>> {
    match definitions(section) {
        [definition] => block_in(definition),
        _ => None,
    }
}

/// A routine with one assignment.
const ASSIGNMENT: &[u8] = b"LET F() BE X, X!2 := N - 2, X * 2";

/// Whether the first of two expressions is the constant 5, and the second isn't a constant.
fn are_constants(scope: &Scope<'_>, values: &[Exp<'_>]) -> bool {
    match values {
        [first, second] => {
            constant_in(scope, first) == Some(Word::new(5)) && constant_in(scope, second).is_none()
        }
        _ => false,
    }
}

/// Whether the levels and constants of an assignment are right, if N is the constant 7 and X a variable.
fn are_sides(alloc: Global, places: &[Exp<'_>], values: &[Exp<'_>]) -> Result<bool, Memory> {
    let mut scope = Scope::new(alloc);
    scope.declare(b"N", Meant::Constant(7))?;
    scope.declare(b"X", Meant::Variable(2))?;
    let levels = side_levels(alloc, &scope, places, 4)?;
    Ok(levels.as_slice() == [4, 5].as_slice() && are_constants(&scope, values))
}

/// The command of a block of one command.
fn command<'t, 's>(block: &'t Block<'s>) -> Option<&'t Command<'s>> {
    match block.items.as_slice() {
        [item] => item.command.as_ref(),
        _ => None,
    }
}

/// The same for a section that consists of a routine with one assignment.
pub fn of_assignment(alloc: Global, section: &Section<'_>) -> Result<bool, Memory> {
    match block(section).and_then(command) {
        Some(Command::Assign(places, values)) => are_sides(alloc, places, values),
        _ => Ok(false),
    }
}

/// `N - 2` is a constant and `X * 2` isn't; the sides of an assignment to `X!2` are one level higher than those to `X`.
#[test]
fn parts_of_an_assignment(rt: HostRuntime) {
    assert_eq!(rt;
        answered(rt.alloc(), Asked::Assignment, ASSIGNMENT),
        Answer::Right
    );
}

/// Whether the block of a section that consists of one routine has two labels.
pub fn of_labels(section: &Section<'_>) -> Result<bool, Memory> {
    match block(section) {
        Some(block) => Ok(labels_in(block.items.as_slice())? == 2),
        None => Ok(false),
    }
}

/// `L: DEFAULT: M:` has two named labels.
#[test]
fn labels_are_counted(rt: HostRuntime) {
    assert_eq!(rt;
        answered(
            rt.alloc(),
            Asked::Labels,
            b"LET F() BE $( L: DEFAULT: M: $)"
        ),
        Answer::Right
    );
}

/// A hundred names of two letters each.
const NAMES: &[u8] =
    b"A0A1A2A3A4A5A6A7A8A9B0B1B2B3B4B5B6B7B8B9C0C1C2C3C4C5C6C7C8C9D0D1D2D3D4D5D6D7D8D9E0E1E2E3E4E5E6E7E8E9\
      F0F1F2F3F4F5F6F7F8F9G0G1G2G3G4G5G6G7G8G9H0H1H2H3H4H5H6H7H8H9I0I1I2I3I4I5I6I7I8I9J0J1J2J3J4J5J6J7J8J9";

/// Declares all names with this meaning.
fn declare_all(scope: &mut Scope<'_>, meant: Meant) -> Result<(), Memory> {
    for name in NAMES.chunks(2) {
        scope.declare(name, meant)?;
    }
    Ok(())
}

/// Whether all names have this meaning.
fn all_mean(scope: &Scope<'_>, meant: Meant) -> bool {
    for name in NAMES.chunks(2) {
        if scope.meant_by(name) != meant {
            return false;
        }
    }
    true
}

/// All names are constants. In a VALOF they are declared as labels too, and in a VALOF inside it they must be labels outside of their
/// VALOF. After both they must be constants again.
fn known_in_valofs(scope: &mut Scope<'_>) -> Result<bool, Memory> {
    let outside = scope.mark();
    scope.enter_valof()?;
    declare_all(scope, Meant::Label(5))?;
    scope.enter_valof()?;
    let is_outside = all_mean(scope, Meant::LabelOutside);
    scope.leave(outside);
    Ok(is_outside && all_mean(scope, Meant::Constant(4)))
}

/// All names are variables. In a routine inside they must be variables of an outer routine. Declared there as constants, they must be
/// constants, before and after VALOFs too. After the routine they must be variables again.
fn known_in_routine(scope: &mut Scope<'_>) -> Result<bool, Memory> {
    let outside = scope.mark();
    scope.enter_routine()?;
    let is_outer = all_mean(scope, Meant::OuterVariable);
    declare_all(scope, Meant::Constant(4))?;
    let is_inner = all_mean(scope, Meant::Constant(4)) && known_in_valofs(scope)?;
    scope.leave(outside);
    Ok(is_outer && is_inner && all_mean(scope, Meant::Variable(3)))
}

/// Whether a hundred variables of a routine mean the right thing in it, and in routines and VALOFs inside it.
pub fn known(alloc: Global) -> Result<bool, Memory> {
    let mut scope = Scope::new(alloc);
    scope.enter_routine()?;
    declare_all(&mut scope, Meant::Variable(3))?;
    known_in_routine(&mut scope)
}

/// A hundred names mean the right thing inside and outside of routines and VALOFs.
#[test]
fn many_names_are_known(rt: HostRuntime) {
    assert_eq!(rt; known(rt.alloc()), Ok(true));
}
