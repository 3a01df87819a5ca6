//! The scope of a section. There is only one: the walk adds names as it enters a block, LET or routine, and takes them back as it
//! leaves.
ghost use Rattle.std.specs.Prelude.{◌≡◌, ◌-◌, ◌≤◌, [], None, IfOk, take, length};
ghost use Rattle.bc_scope_defs.specs.Scope.{meant_by, with_name};
ghost use Rattle.bc_scope_defs.specs.Scoping.{around_routine, around_valof, in_routine, in_valof};
ghost use Rattle.bc_scope_names.specs.View.{meant_view, scope_view, Declares};
ghost use Rattle.bc_scope_names.specs.Crossing.{seen};
ghost use Rattle.bc_scope_names.specs.Index.{newest, after_routine};

use bc_word::Memory;
use indexmap::IndexMap;
use std::alloc::Global;
use std::marker::Model;

/// The meaning of a name at one point of a section.
#[derive(Clone, Copy, Debug, PartialEq, Eq)]
pub enum Meant {
    /// A manifest, by its value.
    Constant(u16),
    /// A manifest of the current declaration, whose value isn't known yet.
    Pending,
    /// A static, by its label.
    Static(u64),
    /// A global, by its number.
    Global(u16),
    /// A routine, by its label.
    Routine(u64),
    /// A variable, by its offset in the frame.
    Variable(u64),
    /// A label of a command list, by its number.
    Label(u64),
    /// A variable of an enclosing routine, which can't be used here.
    OuterVariable,
    /// A label of an enclosing routine, which can't be used here.
    OuterLabel,
    /// In a routine: a variable declared outside all routines.
    StrayVariable,
    /// In a routine: a label outside all routines.
    StrayLabel,
    /// A label outside the innermost VALOF. A GOTO can't jump to it.
    LabelOutside,
    /// No declaration is in scope.
    Undeclared,
}

/// A name with its meaning.
#[derive(Clone, Copy, Debug, PartialEq, Eq)]
pub struct Named<'s> {
    /// The name as it is spelled in the source.
    pub name: &'s [u8],
    /// Its meaning where it was declared.
    pub meant: Meant,
}

/// The meaning by a name's newest entry, and the number of entries before that one.
#[derive(Clone, Copy, Debug, PartialEq, Eq)]
struct Bound {
    meant: Meant,
    place: usize,
}

/// How many entries, counted from the oldest, lie outside all routines (0 where there is no routine), outside the innermost
/// routine, and outside the innermost VALOF. An entry before a border is seen through that routine or VALOF.
#[derive(Clone, Copy, Debug, PartialEq, Eq)]
struct Borders {
    outermost: usize,
    routine: usize,
    valof: usize,
}

/// One change of a scope, with what it replaced, so that it can be undone without a search.
#[derive(Clone, Copy, Debug, PartialEq, Eq)]
enum Entry<'s> {
    /// A name was declared: with its position in the index, and what it meant before.
    Name {
        named: Named<'s>,
        position: usize,
        hidden: Option<Bound>,
    },
    /// A routine began, inside these borders.
    Routine(Borders),
    /// A VALOF began, inside these borders.
    Valof(Borders),
}

/// A state of a scope to which `leave` can return.
#[derive(Clone, Copy, Debug, PartialEq, Eq)]
pub struct ScopeMark {
    entries: usize,
}

/// The names in scope at one point of a section; a later one hides an earlier one.
///
/// Contracts see a scope as its entries, oldest first. One scope serves a whole section: what a block, LET or routine adds is
/// taken back at its end, which costs as much as adding it did.
#[derive(Drop)]
pub struct Scope<'s> {
    alloc: Global,
    entries: Vec<Entry<'s>>,
    /// The newest entry of each name; `None` after its last entry was taken back. No name is ever removed, so each keeps its
    /// position.
    index: IndexMap<&'s [u8], Option<Bound>>,
    borders: Borders,
}

impl<'s> Model for Scope<'s> {
    ghost use Rattle.std.specs.Prelude.{◌≡◌, List, All};
    ghost use Rattle.bc_scope_names.specs.declared.scope.Entry.{Entry};
    ghost use Rattle.bc_scope_names.specs.Index.{Finds, CanUndo, HasPosition, borders_of, names, no_borders};

    ghost Value = { List Entry };

    ghost view = { λ s. s.entries.items };

    ghost invariant = { λ s.
        Finds s.index s.entries.items
        × (s.borders ≡ borders_of 0 s.entries.items no_borders)
        × CanUndo s.entries.items
        × All (HasPosition (names s.index)) s.entries.items };
}

impl<'s> Scope<'s> {
    /// A scope without names. Allocates nothing yet.
    pub fn new(alloc: Global) -> Scope<'s>
        ensures { result ≡ [] }
    {
        Scope {
            alloc,
            entries: Vec::new(alloc),
            index: IndexMap::new(alloc),
            borders: Borders {
                outermost: 0,
                routine: 0,
                valof: 0,
            },
        }
    }

    /// The allocator that the scope was made with.
    pub fn alloc(&self) -> Global {
        self.alloc
    }

    /// The newest entry of a name.
    fn newest(&self, name: &[u8]) -> Option<Bound>
        ensures { result ≡ newest 0 self.now name.now None }
    {
        match self.index.get(name) {
            Some(newest) => *newest,
            None => None,
        }
    }

    /// The meaning of a name here; `Undeclared` if no declaration of it is in scope.
    #[tactic(auto, unfolding(crate::specs::View::scope_view), using(crate::proofs::Names::meant_is))]
    pub fn meant_by(&self, name: &[u8]) -> Meant
        ensures { meant_view result ≡ meant_by (scope_view self.now) name.now }
    {
        match self.newest(name) {
            Some(bound) => seen(self.borders, bound),
            None => Meant::Undeclared,
        }
    }

    /// Whether this point of the section is inside a routine.
    #[tactic(auto, unfolding(crate::specs::View::scope_view), using(crate::proofs::Names::inside_is))]
    pub fn is_inside(&self) -> bool
        ensures { result ≡ (scope_view self.now).inside }
    {
        self.borders.outermost != 0
    }

    /// Adds a name. Fails with `Memory` when an allocation fails.
    pub fn declare(&mut self, name: &'s [u8], meant: Meant) -> Result<(), Memory>
        ensures { IfOk result (λ _. Declares self.old self.new (with_name name.entry.now (meant_view meant) (scope_view self.old))) }
    {
        // Reserved first, so that the push can't fail after the index has changed.
        self.entries.reserve(1)?;
        let place = self.entries.len();
        let (position, hidden) = self.index.insert_full(name, Some(Bound { meant, place }))?;
        let entry = Entry::Name {
            named: Named { name, meant },
            position,
            hidden: hidden.flatten(),
        };
        match self.entries.push(entry) {
            Ok(()) => Ok(()),
            Err(_) => unreachable!(),
        }
    }

    /// Enters a routine: in it, the variables and labels known up to here can't be used. Fails with `Memory` when an allocation
    /// fails.
    pub fn enter_routine(&mut self) -> Result<(), Memory>
        ensures { IfOk result (λ _. Declares self.old self.new (in_routine (scope_view self.old))) }
    {
        self.entries.push(Entry::Routine(self.borders))?;
        self.borders = after_routine(self.entries.len(), self.borders);
        Ok(())
    }

    /// Enters a VALOF: in it, no GOTO can jump to the labels known up to here. Fails with `Memory` when an allocation fails.
    pub fn enter_valof(&mut self) -> Result<(), Memory>
        ensures { IfOk result (λ _. Declares self.old self.new (in_valof (scope_view self.old))) }
    {
        self.entries.push(Entry::Valof(self.borders))?;
        self.borders.valof = self.entries.len();
        Ok(())
    }

    /// The current state, to which `leave` can return.
    pub fn mark(&self) -> ScopeMark
        ensures { result.entries ≡ length self.now }
    {
        ScopeMark {
            entries: self.entries.len(),
        }
    }

    /// Takes back the last entry, and restores what it hid.
    fn leave_last(&mut self)
        ensures { self.new ≡ take (length self.old - 1) self.old }
    {
        let Some(last) = self.entries.pop() else {
            return;
        };
        match last {
            Entry::Name {
                position,
                hidden,
                ..
            } => {
                let (_, newest) = self.index.pair_mut(position);
                *newest = hidden;
            }
            Entry::Routine(borders) => self.borders = borders,
            Entry::Valof(borders) => self.borders = borders,
        }
    }

    /// Takes back everything added since the mark, and restores what it hid. Allocates nothing, so it can't fail.
    pub fn leave(&mut self, mark: ScopeMark)
        ensures { self.new ≡ take mark.entries self.old }
    {
        while self.entries.len() > mark.entries {
            self.leave_last();
        }
    }
}

/// The borders after entering a routine, whose entry is the last of `entries`.
fn after_routine(entries: usize, borders: Borders) -> Borders
    ensures { result ≡ after_routine entries borders }
{
    Borders {
        outermost: if borders.outermost == 0 {
            entries
        } else {
            borders.outermost
        },
        routine: entries,
        valof: borders.valof,
    }
}

/// The meaning of a name inside these borders.
fn seen(borders: Borders, bound: Bound) -> Meant
    ensures { meant_view result ≡ seen borders bound }
{
    if bound.place < borders.outermost {
        meant_in_routine(false, bound.meant)
    } else if bound.place < borders.routine {
        meant_in_routine(true, bound.meant)
    } else if bound.place < borders.valof {
        meant_in_valof(bound.meant)
    } else {
        bound.meant
    }
}

/// The meaning inside a routine of a name from around it. `inside` says whether the routine is itself inside another routine.
fn meant_in_routine(inside: bool, meant: Meant) -> Meant
    ensures { meant_view result ≡ around_routine inside (meant_view meant) }
{
    match meant {
        Meant::Variable(_) => {
            if inside {
                Meant::OuterVariable
            } else {
                Meant::StrayVariable
            }
        }
        Meant::Label(_) | Meant::LabelOutside => {
            if inside {
                Meant::OuterLabel
            } else {
                Meant::StrayLabel
            }
        }
        Meant::Constant(_)
        | Meant::Pending
        | Meant::Static(_)
        | Meant::Global(_)
        | Meant::Routine(_)
        | Meant::OuterVariable
        | Meant::OuterLabel
        | Meant::StrayVariable
        | Meant::StrayLabel
        | Meant::Undeclared => meant,
    }
}

/// The meaning inside a VALOF of a name from around it.
fn meant_in_valof(meant: Meant) -> Meant
    ensures { meant_view result ≡ around_valof (meant_view meant) }
{
    match meant {
        Meant::Label(_) => Meant::LabelOutside,
        _ => meant,
    }
}
