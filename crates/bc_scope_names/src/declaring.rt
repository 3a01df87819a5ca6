//! The names that declarations add to a scope. Each call fails with `Memory` when an allocation fails or a number exceeds 64 bits.
ghost use Rattle.std.specs.Prelude.{◌≡◌, ◌+◌, [], drop, map, None, IfOk};
ghost use Rattle.bc_scope_defs.specs.Scope.{with_name};
ghost use Rattle.bc_parse_tree.specs.View.{exps_view, definition_view, definitions_view, label_view, labels_view, item_view, items_view, constant_view, entries_view};
ghost use Rattle.bc_scope_defs.specs.Numbering.{labels_of, labels_of_item};
ghost use Rattle.bc_scope_defs.specs.Scoping.{any_numbers, pending, meant_as, in_entry, count, before_let, cells_of_all, variables, in_let, in_label, in_labels, in_item, in_list};
ghost use Rattle.bc_scope_defs.specs.Found.{global_of, in_parameters};
ghost use Rattle.bc_scope_names.specs.View.{meant_view, scope_view, numbers_view, Declares, Extends};
ghost use Rattle.bc_scope_names.specs.Priors.{global_before, globals_before, greatest_of, all_greatest_of, is_vector, has_vector, ArePriors, first_global, prior_at, cells_by, routine_by, declared_by, own_by};

use crate::constants::{constant, constant_in};
use crate::numbering::{after_definition, labels_named};
use crate::numbers::{Numbers, sum};
use crate::scope::{Meant, Scope};
use bc_parse_tree::{Constant, Definition, Exp, Item, Label, Storage};
use bc_word::{Memory, Word};

/// Adds one name of a constant declaration, as it is before its value is known.
fn declare_pending_entry<'s>(
    scope: &mut Scope<'s>,
    storage: Storage,
    entry: &Constant<'s>,
) -> Result<(), Memory>
    ensures { IfOk result (λ _. Declares scope.old scope.new
        (with_name (constant_view entry.now).0 (meant_as storage any_numbers None) (scope_view scope.old))) }
{
    scope.declare(entry.name, meant_as(storage, Numbers::start(), None))
}

/// Adds all names of a MANIFEST, STATIC or GLOBAL declaration before any value is known: each name gets its kind, but no
/// manifest has a value, statics have the first label and globals the number 0.
#[tactic(auto, using(crate::proofs::Extends::extends_on, crate::proofs::Extends::extends_self))]
pub fn declare_pending<'s>(
    scope: &mut Scope<'s>,
    storage: Storage,
    entries: &[Constant<'s>],
) -> Result<(), Memory>
    ensures { IfOk result (λ _. Declares scope.old scope.new (pending storage (entries_view entries.now) (scope_view scope.old))) }
{
    for entry in entries {
        declare_pending_entry(scope, storage, entry)?;
    }
    Ok(())
}

/// The meaning of a name of a MANIFEST, STATIC or GLOBAL declaration. `at` has the label of a static. `value` is the constant
/// after the name; without one, a manifest is pending and a global has the number 0.
pub fn meant_as(storage: Storage, at: Numbers, value: Option<Word>) -> Meant
    ensures { meant_view result ≡ meant_as storage (numbers_view at) value }
{
    match storage {
        Storage::Manifest => match value {
            None => Meant::Pending,
            Some(value) => Meant::Constant(value.get()),
        },
        Storage::Static => Meant::Static(at.place),
        Storage::Global => match value {
            None => Meant::Global(0),
            Some(value) => Meant::Global(value.get()),
        },
    }
}

/// Adds the name of one entry with its final meaning. Its constant is evaluated in `scope` as it was before the call.
pub fn declare_entry<'s>(
    scope: &mut Scope<'s>,
    storage: Storage,
    at: Numbers,
    entry: &Constant<'s>,
) -> Result<(), Memory>
    ensures { IfOk result (λ _. Declares scope.old scope.new
        (in_entry storage (numbers_view at) (constant_view entry.now).0 (constant_view entry.now).1 (scope_view scope.old))) }
{
    let value = constant_in(scope, &entry.value);
    scope.declare(entry.name, meant_as(storage, at, value))
}

/// The number of expressions in a list.
#[tactic(auto, using(crate::proofs::Counts::count_seen))]
pub fn count(list: &[Exp<'_>]) -> u64
    ensures { result ≡ count (exps_view list.now) }
{
    list.len() as u64
}

/// The facts about a LET's definitions that must be found before the LET adds its names.
#[derive(Debug, Drop)]
pub struct Priors {
    /// For each definition the number of the global that it sets. Only a routine whose name already means a global sets one.
    pub globals: Vec<Option<u16>>,
    /// For each definition the greatest index of its vector; 0 for definitions other than vectors.
    pub greatest: Vec<u16>,
}

/// The facts about one definition that must be found before its LET adds its names.
#[derive(Clone, Copy, Debug, PartialEq, Eq)]
pub struct Prior {
    /// The number of the global that it sets, if it is a routine whose name already means a global.
    pub global: Option<u16>,
    /// The greatest index of its vector; 0 for a definition other than a vector.
    pub greatest: u16,
}

impl Priors {
    /// The values for definition `i`, counted from 0; no global and 0 where there are no more than `i`.
    #[tactic(auto, using(std::proofs::lemmas::List::drop_more, std::proofs::lemmas::List::drop_all))]
    pub fn at(&self, i: u64) -> Prior
        ensures { result ≡ prior_at (drop i self.now.globals.items) (drop i self.now.greatest.items) }
    {
        let i = i as usize;
        Prior {
            global: if i < self.globals.len() {
                self.globals[i]
            } else {
                None
            },
            greatest: if i < self.greatest.len() {
                self.greatest[i]
            } else {
                0
            },
        }
    }
}

/// The number of the global that a name means.
fn global_of(meant: Meant) -> Option<u16>
    ensures { result ≡ global_of (meant_view meant) }
{
    match meant {
        Meant::Global(number) => Some(number),
        _ => None,
    }
}

/// The global that a definition sets, if it is a routine whose name means a global in `scope`.
fn global_before(scope: &Scope<'_>, definition: &Definition<'_>) -> Option<u16>
    ensures { result ≡ global_before (scope_view scope.now) (definition_view definition.now) }
{
    match definition {
        Definition::Variables(_, _) | Definition::Vector(_, _) => None,
        Definition::Function(name, _, _) | Definition::Routine(name, _, _) => {
            global_of(scope.meant_by(name))
        }
    }
}

/// The global that each definition sets.
fn globals_before(
    scope: &Scope<'_>,
    definitions: &[Definition<'_>],
) -> Result<Vec<Option<u16>>, Memory>
    ensures { IfOk result (λ gs. gs.items ≡ globals_before (scope_view scope.now) (definitions_view definitions.now)) }
{
    let mut globals = Vec::with_capacity(scope.alloc(), definitions.len())?;
    for definition in definitions {
        globals.push(global_before(scope, definition))?;
    }
    Ok(globals)
}

/// The greatest index of a vector, by the names in `constants`; 0 for other definitions.
fn greatest_of(constants: &Scope<'_>, definition: &Definition<'_>) -> u16
    ensures { result ≡ greatest_of (scope_view constants.now) (definition_view definition.now) }
{
    match definition {
        Definition::Vector(_, greatest) => constant(constants, greatest).get(),
        Definition::Variables(_, _)
        | Definition::Function(_, _, _)
        | Definition::Routine(_, _, _) => 0,
    }
}

/// The greatest index of each definition that is a vector, else 0.
fn all_greatest_of(
    constants: &Scope<'_>,
    definitions: &[Definition<'_>],
) -> Result<Vec<u16>, Memory>
    ensures { IfOk result (λ ws. ws.items ≡ all_greatest_of (scope_view constants.now) (definitions_view definitions.now)) }
{
    let mut greatest = Vec::with_capacity(constants.alloc(), definitions.len())?;
    for definition in definitions {
        greatest.push(greatest_of(constants, definition))?;
    }
    Ok(greatest)
}

/// Whether a definition is a vector.
fn is_vector(definition: &Definition<'_>) -> bool
    ensures { result ≡ is_vector (definition_view definition.now) }
{
    match definition {
        Definition::Vector(_, _) => true,
        Definition::Variables(_, _)
        | Definition::Function(_, _, _)
        | Definition::Routine(_, _, _) => false,
    }
}

/// Whether a LET declares a vector. Only vectors have constants, so only they look up the LET's own names.
pub fn has_vector(definitions: &[Definition<'_>]) -> bool
    ensures { result ≡ has_vector (definitions_view definitions.now) }
{
    for definition in definitions {
        if is_vector(definition) {
            return true;
        }
    }
    false
}

/// The global that definition `i` sets, counted from 0; `None` where there are no more than `i`.
#[tactic(auto, using(std::proofs::lemmas::List::drop_more, std::proofs::lemmas::List::drop_all))]
fn global_at(globals: &[Option<u16>], i: u64) -> Option<u16>
    ensures { result ≡ first_global (drop i globals.now) }
{
    let i = i as usize;
    if i < globals.len() { globals[i] } else { None }
}

/// Adds the names of definition `i` of a LET as constants see them: only their kind matters, so numbers and offsets are 0.
fn declare_own_definition<'s>(
    scope: &mut Scope<'s>,
    globals: &[Option<u16>],
    i: u64,
    definition: &Definition<'s>,
) -> Result<(), Memory>
    ensures { IfOk result (λ _. Declares scope.old scope.new
        (declared_by (prior_at (drop i globals.now) []) any_numbers 0 (definition_view definition.now) (scope_view scope.old))) }
{
    let prior = Prior {
        global: global_at(globals, i),
        greatest: 0,
    };
    declare_definition(scope, prior, Numbers::start(), 0, definition)
}

/// Adds the names of all definitions of a LET as its constants see them.
fn declare_own<'s>(
    scope: &mut Scope<'s>,
    globals: &[Option<u16>],
    definitions: &[Definition<'s>],
) -> Result<(), Memory>
    ensures { IfOk result (λ _. Declares scope.old scope.new (own_by globals.now (definitions_view definitions.now) (scope_view scope.old))) }
{
    let mut i = 0u64;
    for definition in definitions {
        declare_own_definition(scope, globals, i, definition)?;
        i = sum(i, 1)?;
    }
    Ok(())
}

/// Adds the names of a LET as the constants of its vectors see them: as variables and routines, none of them a constant.
#[tactic(auto, using(crate::proofs::Lets::own_is))]
pub fn declare_let_pending<'s>(
    scope: &mut Scope<'s>,
    definitions: &[Definition<'s>],
) -> Result<(), Memory>
    ensures { IfOk result (λ _. Declares scope.old scope.new (before_let (definitions_view definitions.now) (scope_view scope.old))) }
{
    let globals = globals_before(scope, definitions)?;
    declare_own(scope, &globals, definitions)
}

/// The greatest index of each vector of a LET, and 0 for other definitions. Leaves `scope` as it was.
#[tactic(auto, using(crate::proofs::Extends::left, crate::proofs::Lets::greatest_anywhere))]
fn greatest_of_let<'s>(
    scope: &mut Scope<'s>,
    definitions: &[Definition<'s>],
) -> Result<Vec<u16>, Memory>
    ensures { IfOk result (λ ws.
        (ws.items ≡ all_greatest_of (before_let (definitions_view definitions.now) (scope_view scope.old)) (definitions_view definitions.now))
        × (scope.new ≡ scope.old)) }
{
    if !has_vector(definitions) {
        return all_greatest_of(scope, definitions);
    }
    let mark = scope.mark();
    declare_let_pending(scope, definitions)?;
    let greatest = all_greatest_of(scope, definitions)?;
    scope.leave(mark);
    Ok(greatest)
}

/// Finds what `declare_let` needs, with the names that are in scope before the LET. Leaves `scope` as it was.
pub fn priors_of_let<'s>(
    scope: &mut Scope<'s>,
    definitions: &[Definition<'s>],
) -> Result<Priors, Memory>
    ensures { IfOk result (λ priors. ArePriors priors (scope_view scope.old) (definitions_view definitions.now) × (scope.new ≡ scope.old)) }
{
    let globals = globals_before(scope, definitions)?;
    let greatest = greatest_of_let(scope, definitions)?;
    Ok(Priors { globals, greatest })
}

/// The number of frame cells that a definition takes. A vector with greatest index n takes n + 2: its variable, and n + 1 cells.
fn cells_by(prior: Prior, definition: &Definition<'_>) -> Result<u64, Memory>
    ensures { IfOk result (λ n. n ≡ cells_by prior (definition_view definition.now)) }
{
    match definition {
        Definition::Variables(_, values) => Ok(count(values)),
        Definition::Vector(_, _) => sum(u64::from(prior.greatest), 2),
        Definition::Function(_, _, _) | Definition::Routine(_, _, _) => Ok(0),
    }
}

/// Adds variables with consecutive offsets in the frame, beginning at `offset`.
#[tactic(auto, using(crate::proofs::Extends::extends_on, crate::proofs::Extends::extends_self))]
pub fn declare_variables<'s>(
    scope: &mut Scope<'s>,
    names: &[&'s [u8]],
    offset: u64,
) -> Result<(), Memory>
    ensures { IfOk result (λ _. Declares scope.old scope.new (variables (map (λ n. n.now) names.now) offset (scope_view scope.old))) }
{
    let mut offset = offset;
    for name in names {
        scope.declare(name, Meant::Variable(offset))?;
        offset = sum(offset, 1)?;
    }
    Ok(())
}

/// Adds a routine with this label. A routine whose name already means a global sets that global, and adds no name.
#[tactic(auto, using(crate::proofs::Extends::extends_on, crate::proofs::Extends::extends_self))]
fn declare_routine<'s>(
    scope: &mut Scope<'s>,
    global: Option<u16>,
    name: &'s [u8],
    label: u64,
) -> Result<(), Memory>
    ensures { IfOk result (λ _. Declares scope.old scope.new (routine_by global name.entry.now label (scope_view scope.old))) }
{
    match global {
        Some(_) => Ok(()),
        None => scope.declare(name, Meant::Routine(label)),
    }
}

/// Adds the names of one definition, whose numbers begin at `at` and whose cells begin at `offset`.
#[tactic(auto, using(crate::proofs::Extends::extends_on, crate::proofs::Extends::extends_self))]
fn declare_definition<'s>(
    scope: &mut Scope<'s>,
    prior: Prior,
    at: Numbers,
    offset: u64,
    definition: &Definition<'s>,
) -> Result<(), Memory>
    ensures { IfOk result (λ _. Declares scope.old scope.new
        (declared_by prior (numbers_view at) offset (definition_view definition.now) (scope_view scope.old))) }
{
    match definition {
        Definition::Variables(names, _) => declare_variables(scope, names, offset),
        Definition::Vector(name, _) => scope.declare(name, Meant::Variable(offset)),
        Definition::Function(name, _, _) | Definition::Routine(name, _, _) => {
            declare_routine(scope, prior.global, name, at.place)
        }
    }
}

/// Adds the names of a LET whose numbers begin at `at` and whose first free frame offset is `level`. `priors` must be what
/// `priors_of_let` found for it. Returns the first free offset after it.
#[tactic(auto, using(crate::proofs::Extends::extends_on, crate::proofs::Extends::extends_self, crate::proofs::Lets::all_cells_are, crate::proofs::Lets::all_declared_is))]
pub fn declare_let<'s>(
    scope: &mut Scope<'s>,
    priors: &Priors,
    at: Numbers,
    level: u64,
    definitions: &[Definition<'s>],
) -> Result<u64, Memory>
    requires { ArePriors priors.now (scope_view scope.old) (definitions_view definitions.now) }
    ensures { IfOk result (λ following.
        (following ≡ level + cells_of_all (before_let (definitions_view definitions.now) (scope_view scope.old)) (definitions_view definitions.now))
        × Declares scope.old scope.new (in_let (scope_view scope.old) (numbers_view at) level (definitions_view definitions.now))) }
{
    let mut at = at;
    let mut offset = level;
    let mut i = 0u64;
    for definition in definitions {
        let prior = priors.at(i);
        declare_definition(scope, prior, at, offset, definition)?;
        offset = sum(offset, cells_by(prior, definition)?)?;
        i = sum(i, 1)?;
        // The numbers after the last definition aren't needed, and finding them may walk over a large body.
        if i < definitions.len() as u64 {
            after_definition(&mut at, definition)?;
        }
    }
    Ok(offset)
}

/// Enters a routine and adds its parameters, whose offsets begin at 2. Variables and labels around the routine can't be used
/// in it.
#[tactic(auto, using(crate::proofs::Extends::extends_on, crate::proofs::Extends::extends_self))]
pub fn declare_parameters<'s>(scope: &mut Scope<'s>, parameters: &[&'s [u8]]) -> Result<(), Memory>
    ensures { IfOk result (λ _. Declares scope.old scope.new (in_parameters (map (λ n. n.now) parameters.now) (scope_view scope.old))) }
{
    scope.enter_routine()?;
    declare_variables(scope, parameters, 2)
}

/// Adds a label with this number. CASE and DEFAULT add no name.
#[tactic(auto, using(crate::proofs::Extends::extends_self))]
fn declare_label<'s>(scope: &mut Scope<'s>, number: u64, label: &Label<'s>) -> Result<(), Memory>
    ensures known { IfOk result (λ _. scope_view scope.new ≡ in_label number (label_view label.now) (scope_view scope.old)) }
    ensures kept { IfOk result (λ _. Extends scope.old scope.new) }
{
    match label {
        Label::Name(name) => scope.declare(name, Meant::Label(number)),
        Label::Case(_) => Ok(()),
        Label::Default => Ok(()),
    }
}

/// Adds the labels before a command, numbered from `number`, and returns the next number.
#[tactic(auto, using(crate::proofs::Extends::extends_on, crate::proofs::Extends::extends_self))]
fn declare_labels<'s>(
    scope: &mut Scope<'s>,
    number: u64,
    labels: &[Label<'s>],
) -> Result<u64, Memory>
    ensures { IfOk result (λ n.
        Declares scope.old scope.new (in_labels number (labels_view labels.now) (scope_view scope.old))
        × (n ≡ number + labels_of (labels_view labels.now))) }
{
    let mut number = number;
    for label in labels {
        declare_label(scope, number, label)?;
        number = sum(number, labels_named(label))?;
    }
    Ok(number)
}

/// Adds the labels before an item's command, numbered from `number`, and returns the next number.
fn declare_item<'s>(scope: &mut Scope<'s>, number: u64, item: &Item<'s>) -> Result<u64, Memory>
    ensures { IfOk result (λ n.
        Declares scope.old scope.new (in_item number (item_view item.now) (scope_view scope.old))
        × (n ≡ number + labels_of_item (item_view item.now))) }
{
    declare_labels(scope, number, &item.labels)
}

/// Adds all labels of a command list, numbered from `number`.
#[tactic(auto, using(crate::proofs::Extends::extends_self))]
pub fn declare_list<'s>(
    scope: &mut Scope<'s>,
    number: u64,
    items: &[Item<'s>],
) -> Result<(), Memory>
    ensures { IfOk result (λ _. Declares scope.old scope.new (in_list number (items_view items.now) (scope_view scope.old))) }
{
    let mut number = number;
    for item in items {
        number = declare_item(scope, number, item)?;
    }
    Ok(())
}
