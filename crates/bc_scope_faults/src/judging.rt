//! Faults that a part has by itself, whatever is inside it. None of these functions walks into a part.
ghost use Rattle.std.specs.Prelude.{◌≡◌, true, None, length, drop, [], ◌∷◌, ◌++◌, IfOk};
ghost use Rattle.bc_parse_tree.specs.View.{exp_view, exps_view};
ghost use Rattle.bc_scope_defs.specs.FramesAlong.{all_held, widest};
ghost use Rattle.bc_scope_defs.specs.Faults.{AMisplaced, unless, allowed_in_routine, allowed_in_valof, in_a_loop, in_a_switch, name_fault, jump_fault, is_cell, has_cell, is_label, names_label, has_address, address_fault, all_have_cells, twice_fault, all_twice_fault, none_met, case_fault, default_fault, entry_fault};
ghost use Rattle.bc_scope_names.specs.View.{meant_view, scope_view};
ghost use Rattle.bc_core.specs.Level.{level_after_parameters};
ghost use Rattle.bc_scope_faults.specs.Parts.{head_level, side_width};
ghost use Rattle.bc_scope_faults.specs.Judged.{Judges, Passes};
ghost use Rattle.bc_scope_faults.specs.Seen.{allowed_view, names_view, met_view};

use bc_parse_tree::{BinaryOp, Definition, Exp, Storage, UnaryOp};
use bc_scope_names::{Meant, Scope, ScopeError, constant, is_operand, sum};
use bc_word::{Memory, Word};
use indexmap::IndexSet;
use std::alloc::Global;

/// The commands that are allowed at one point of a routine or VALOF, of those that aren't allowed everywhere.
#[derive(Clone, Copy, Debug, PartialEq, Eq)]
pub struct Allowed {
    /// BREAK and LOOP are allowed.
    pub in_loop: bool,
    /// ENDCASE is allowed.
    pub in_cases: bool,
    /// RESULTIS is allowed.
    pub in_valof: bool,
    /// RETURN is allowed.
    pub may_return: bool,
}

impl Allowed {
    /// The commands allowed in the body of a routine: RETURN.
    pub fn routine() -> Allowed
        ensures { allowed_view result ≡ allowed_in_routine }
    {
        Allowed {
            in_loop: false,
            in_cases: false,
            in_valof: false,
            may_return: true,
        }
    }

    /// The commands allowed in the body of a VALOF: RESULTIS.
    pub fn valof() -> Allowed
        ensures { allowed_view result ≡ allowed_in_valof }
    {
        Allowed {
            in_loop: false,
            in_cases: false,
            in_valof: true,
            may_return: false,
        }
    }

    /// Also allows BREAK and LOOP, for the body of a loop.
    pub fn in_a_loop(self) -> Allowed
        ensures { allowed_view result ≡ in_a_loop (allowed_view self) }
    {
        Allowed {
            in_loop: true,
            in_cases: self.in_cases,
            in_valof: self.in_valof,
            may_return: self.may_return,
        }
    }

    /// Also allows ENDCASE, for the list of a SWITCHON.
    pub fn in_a_switch(self) -> Allowed
        ensures { allowed_view result ≡ in_a_switch (allowed_view self) }
    {
        Allowed {
            in_loop: self.in_loop,
            in_cases: true,
            in_valof: self.in_valof,
            may_return: self.may_return,
        }
    }
}

/// Fails with `Misplaced` unless `allowed`.
pub fn require_allowed<'s>(allowed: bool) -> Result<(), ScopeError<'s>>
    ensures { Passes result (unless allowed AMisplaced) }
{
    if allowed {
        Ok(())
    } else {
        Err(ScopeError::Misplaced)
    }
}

/// Checks a name in an expression, by its meaning there. Fails with `Undeclared`, with `DynamicFree` for a variable or label of
/// an enclosing routine, or with `Misplaced` for a label that isn't in a constant. A label in a constant passes here, because
/// the constant as a whole is then at fault.
pub fn check_name<'s>(in_constant: bool, name: &'s [u8], meant: Meant) -> Result<(), ScopeError<'s>>
    ensures { Passes result (name_fault in_constant name.entry.now (meant_view meant)) }
{
    match meant {
        Meant::Undeclared => Err(ScopeError::Undeclared(name)),
        Meant::OuterVariable | Meant::OuterLabel => Err(ScopeError::DynamicFree(name)),
        Meant::Label(_) | Meant::StrayLabel | Meant::LabelOutside => {
            require_allowed(in_constant)
        }
        Meant::Constant(_)
        | Meant::Pending
        | Meant::Static(_)
        | Meant::Global(_)
        | Meant::Routine(_)
        | Meant::Variable(_)
        | Meant::StrayVariable => Ok(()),
    }
}

/// Checks the name after a GOTO, by its meaning there. Fails with `Undeclared`, with `DynamicFree` for a label of an enclosing
/// routine, or with `Misplaced` for a name that isn't a label and for a label outside the VALOF or outside all routines.
pub fn check_goto<'s>(name: &'s [u8], meant: Meant) -> Result<(), ScopeError<'s>>
    ensures { Passes result (jump_fault name.entry.now (meant_view meant)) }
{
    match meant {
        Meant::Label(_) => Ok(()),
        Meant::Undeclared => Err(ScopeError::Undeclared(name)),
        Meant::OuterLabel => Err(ScopeError::DynamicFree(name)),
        Meant::Constant(_)
        | Meant::Pending
        | Meant::Static(_)
        | Meant::Global(_)
        | Meant::Routine(_)
        | Meant::Variable(_)
        | Meant::OuterVariable
        | Meant::StrayVariable
        | Meant::StrayLabel
        | Meant::LabelOutside => Err(ScopeError::Misplaced),
    }
}

/// Whether a name with this meaning has a cell.
fn is_cell(meant: Meant) -> bool
    ensures { result ≡ is_cell (meant_view meant) }
{
    match meant {
        Meant::Static(_) | Meant::Global(_) | Meant::Variable(_) | Meant::StrayVariable => true,
        Meant::Constant(_)
        | Meant::Pending
        | Meant::Routine(_)
        | Meant::Label(_)
        | Meant::OuterVariable
        | Meant::OuterLabel
        | Meant::StrayLabel
        | Meant::LabelOutside
        | Meant::Undeclared => false,
    }
}

/// Whether a name with this meaning is a label that isn't in an enclosing routine.
fn is_label(meant: Meant) -> bool
    ensures { result ≡ is_label (meant_view meant) }
{
    match meant {
        Meant::Label(_) | Meant::StrayLabel | Meant::LabelOutside => true,
        Meant::Constant(_)
        | Meant::Pending
        | Meant::Static(_)
        | Meant::Global(_)
        | Meant::Routine(_)
        | Meant::Variable(_)
        | Meant::OuterVariable
        | Meant::OuterLabel
        | Meant::StrayVariable
        | Meant::Undeclared => false,
    }
}

/// Whether an expression is the name of such a label.
fn names_label(scope: &Scope<'_>, e: &Exp<'_>) -> bool
    ensures { result ≡ names_label (scope_view scope.now) (exp_view e.now) }
{
    match e {
        Exp::Name(name) => is_label(scope.meant_by(name)),
        Exp::Unary(_, _)
        | Exp::Bin(_, _, _)
        | Exp::Num(_)
        | Exp::Character(_)
        | Exp::String(_)
        | Exp::True
        | Exp::False
        | Exp::Table(_)
        | Exp::Valof(_)
        | Exp::Cond { .. }
        | Exp::Call(_, _) => false,
    }
}

/// Whether an expression has a cell: it is a variable, static or global, `!E` or `E1!E2`.
pub fn has_cell(scope: &Scope<'_>, e: &Exp<'_>) -> bool
    ensures { result ≡ has_cell (scope_view scope.now) (exp_view e.now) }
{
    match e {
        Exp::Name(name) => is_cell(scope.meant_by(name)),
        Exp::Unary(UnaryOp::Load, _) | Exp::Bin(BinaryOp::Index, _, _) => true,
        Exp::Unary(_, _)
        | Exp::Bin(_, _, _)
        | Exp::Num(_)
        | Exp::Character(_)
        | Exp::String(_)
        | Exp::True
        | Exp::False
        | Exp::Table(_)
        | Exp::Valof(_)
        | Exp::Cond { .. }
        | Exp::Call(_, _) => false,
    }
}

/// Whether `@` may be applied to an expression. In a constant a label's name passes too, because the constant as a whole is then
/// at fault.
fn has_address(scope: &Scope<'_>, in_constant: bool, e: &Exp<'_>) -> bool
    ensures { result ≡ has_address in_constant (scope_view scope.now) (exp_view e.now) }
{
    has_cell(scope, e) || (in_constant && names_label(scope, e))
}

/// Checks the operand of a unary operator. Fails with `NotAssignable` for `@` of an expression without a cell.
pub fn check_address<'s>(
    scope: &Scope<'s>,
    in_constant: bool,
    sign: UnaryOp,
    operand: &Exp<'s>,
) -> Result<(), ScopeError<'s>>
    ensures { Passes result (address_fault in_constant (scope_view scope.now) sign (exp_view operand.now)) }
{
    match sign {
        UnaryOp::Address => {
            if has_address(scope, in_constant, operand) {
                Ok(())
            } else {
                Err(ScopeError::NotAssignable)
            }
        }
        UnaryOp::Not | UnaryOp::Neg | UnaryOp::Load => Ok(()),
    }
}

/// Whether all these expressions have cells.
pub fn all_have_cells(scope: &Scope<'_>, places: &[Exp<'_>]) -> bool
    ensures { result ≡ all_have_cells (scope_view scope.now) (exps_view places.now) }
{
    for place in places {
        if !has_cell(scope, place) {
            return false;
        }
    }
    true
}

/// Adds a name to those that must differ. Fails with `DeclaredTwice` if it is already there, or with `Memory` when an allocation
/// fails.
pub fn declare_once<'s>(
    before: &mut IndexSet<&'s [u8]>,
    name: &'s [u8],
) -> Result<(), ScopeError<'s>>
    ensures { Judges result (twice_fault (names_view before.old.keys) name.entry.now)
        (λ _. names_view before.new.keys ≡ names_view before.old.keys ++ name.entry.now ∷ []) }
{
    if before.insert(name)? {
        Ok(())
    } else {
        Err(ScopeError::DeclaredTwice(name))
    }
}

/// Adds names to those that must differ. Fails with `DeclaredTwice` at the first that is already there, or with `Memory` when an
/// allocation fails.
pub fn declare_all_once<'s>(
    before: &mut IndexSet<&'s [u8]>,
    names: &[&'s [u8]],
) -> Result<(), ScopeError<'s>>
    ensures { Judges result (all_twice_fault (names_view before.old.keys) (names_view names.now))
        (λ _. names_view before.new.keys ≡ names_view before.old.keys ++ names_view names.now) }
{
    for name in names {
        declare_once(before, name)?;
    }
    Ok(())
}

/// The number of names that a LET declares, at most the greatest `usize`. It is only used to reserve room.
pub fn names_in(list: &[Definition<'_>]) -> usize {
    let mut names = 0usize;
    for tree in list {
        names = names.saturating_add(match tree {
            Definition::Variables(declared, _) => declared.len(),
            Definition::Vector(_, _)
            | Definition::Function(_, _, _)
            | Definition::Routine(_, _, _) => 1,
        });
    }
    names
}

/// Checks the parameters of a routine. Fails with `DeclaredTwice` at the first repeated one, or with `Memory` when an allocation
/// fails.
pub fn check_parameters<'s>(alloc: Global, names: &[&'s [u8]]) -> Result<(), ScopeError<'s>>
    ensures { Passes result (all_twice_fault [] (names_view names.now)) }
{
    let mut before = IndexSet::with_capacity(alloc, names.len())?;
    declare_all_once(&mut before, names)
}

/// The labels of a command list up to here.
#[derive(Debug, Drop)]
pub struct Met<'s> {
    /// The named labels.
    pub names: IndexSet<&'s [u8]>,
    /// The values of its CASEs.
    pub values: IndexSet<u16>,
    /// Whether it has a DEFAULT.
    pub default: bool,
}

impl<'s> Met<'s> {
    /// No labels yet. Allocates nothing.
    pub fn new(alloc: Global) -> Met<'s>
        ensures { met_view result ≡ none_met }
    {
        Met {
            names: IndexSet::new(alloc),
            values: IndexSet::new(alloc),
            default: false,
        }
    }

    /// Adds a CASE with its value. Fails with `Misplaced` if the list isn't that of a SWITCHON, with `CaseTwice` if the value is
    /// already there, or with `Memory` when an allocation fails.
    pub fn case(&mut self, in_cases: bool, value: Word) -> Result<(), ScopeError<'s>>
        ensures { Judges result (case_fault in_cases (met_view self.old) value)
            (λ _. met_view self.new ≡
            record { names = (met_view self.old).names; values = (met_view self.old).values ++ value ∷ []; default = self.old.default }) }
    {
        require_allowed(in_cases)?;
        if self.values.insert(value.get())? {
            Ok(())
        } else {
            Err(ScopeError::CaseTwice)
        }
    }

    /// Adds a DEFAULT. Fails with `Misplaced` if the list isn't that of a SWITCHON, or with `CaseTwice` if it already has one.
    pub fn default(&mut self, in_cases: bool) -> Result<(), ScopeError<'s>>
        ensures { Judges result (default_fault in_cases (met_view self.old))
            (λ _. met_view self.new ≡ record { names = (met_view self.old).names; values = (met_view self.old).values; default = true }) }
    {
        require_allowed(in_cases)?;
        if self.default {
            return Err(ScopeError::CaseTwice);
        }
        self.default = true;
        Ok(())
    }

    /// Adds a named label. Fails with `DeclaredTwice` if the name is already there, or with `Memory` when an allocation fails.
    pub fn name(&mut self, name: &'s [u8]) -> Result<(), ScopeError<'s>>
        ensures { Judges result (twice_fault (met_view self.old).names name.entry.now)
            (λ _. met_view self.new ≡
            record { names = (met_view self.old).names ++ name.entry.now ∷ []; values = (met_view self.old).values; default = self.old.default }) }
    {
        declare_once(&mut self.names, name)
    }
}

/// Checks the constant of an entry. Fails with `GlobalNumber` if the number of a global exceeds 511.
pub fn check_entry<'s>(
    scope: &Scope<'s>,
    storage: Storage,
    name: &'s [u8],
    value: &Exp<'s>,
) -> Result<(), ScopeError<'s>>
    ensures { Passes result (entry_fault storage (scope_view scope.now) name.entry.now (exp_view value.now)) }
{
    match storage {
        Storage::Global => {
            if constant(scope, value).get() < 512 {
                Ok(())
            } else {
                Err(ScopeError::GlobalNumber(name))
            }
        }
        Storage::Manifest | Storage::Static => Ok(()),
    }
}

/// For each pair of an assignment at `level`, the frame size that holding its address and value needs: 0 if the address is an
/// operand, else `level` + 2. Fails with `Memory` when an allocation fails or a number exceeds 64 bits.
pub fn all_held(
    alloc: Global,
    scope: &Scope<'_>,
    places: &[Exp<'_>],
    level: u64,
) -> Result<Vec<u64>, Memory>
    ensures { IfOk result (λ hs. hs.items ≡ all_held (scope_view scope.now) (exps_view places.now) level) }
{
    let mut held = Vec::new(alloc);
    for place in places {
        let above = sum(level, 2)?;
        held.push(if is_operand(scope, place) { 0 } else { above })?;
    }
    Ok(held)
}

/// The frame size that an assignment needs, by those of its pairs: for holding them, and for their addresses and values.
#[tactic(auto, using(crate::proofs::WidestPair::widest_places, crate::proofs::WidestPair::widest_values))]
pub fn widest(held: &[u64], places: &[u64], values: &[u64]) -> u64
    ensures { result ≡ widest held.now places.now values.now }
{
    let mut widest = 0u64;
    let mut i = 0usize;
    while i < held.len() && i < places.len() && i < values.len() {
        widest = widest.max(held[i].max(values[i].max(places[i])));
        i += 1;
    }
    widest
}

/// The level of pair `i`, counted from 0; 0 if there are no more than `i` levels.
#[tactic(auto, using(std::proofs::lemmas::List::drop_more, std::proofs::lemmas::List::drop_all))]
pub fn level_at(levels: &[u64], i: u64) -> u64
    ensures { result ≡ head_level (drop i levels.now) }
{
    let i = i as usize;
    if i < levels.len() { levels[i] } else { 0 }
}

/// Adds the frame size of an expression of pair `i`, if there is a pair `i`. Fails with `Memory` when an allocation fails.
#[tactic(auto, using(std::proofs::lemmas::List::drop_more, std::proofs::lemmas::List::drop_all))]
pub fn push_width<'s>(
    widths: &mut Vec<u64>,
    levels: &[u64],
    i: u64,
    width: u64,
) -> Result<(), ScopeError<'s>>
    ensures { Judges result None (λ _. widths.new.items ≡ widths.old.items ++ side_width (drop i levels.now) width) }
{
    let i = i as usize;
    if i < levels.len() {
        widths.push(width)?;
    }
    Ok(())
}

/// The first level after the parameters of a routine, which begin at offset 2. Fails with `Memory` if it exceeds 64 bits.
#[tactic(auto, using(crate::proofs::Lists::names_counted))]
pub fn level_of<'s>(parameters: &[&'s [u8]]) -> Result<u64, Memory>
    ensures { IfOk result (λ n. n ≡ level_after_parameters (length (names_view parameters.now))) }
{
    sum(2, parameters.len() as u64)
}
