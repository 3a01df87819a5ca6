//! Where control goes: which commands can end, which lists of items can be left at their end, and which CASEs are
//! reached from the one before.

use crate::kinds::Kinds;
use bc_word::Memory;
use bcpl_index::{Form, Sort, Tree};
use std::alloc::Global;

/// How many indexes of an ascending list are before this one.
fn count_before(list: &[usize], from: usize) -> usize {
    list.partition_point(|at| *at < from)
}

/// Whether an ascending list has an index from the first to before the second.
fn has_between(list: &[usize], from: usize, to: usize) -> bool {
    match list.get(count_before(list, from)) {
        Some(at) => *at < to,
        None => false,
    }
}

/// Which of the SWITCHONs a node is, if it is one.
fn switch_at(tree: &Tree<'_>, at: usize) -> Option<usize> {
    let switches = &tree.marks().switches;
    let found = count_before(switches.as_slice(), at);
    match switches.get(found) {
        Some(switch) if *switch == at => Some(found),
        _ => None,
    }
}

/// Whether a BREAK, LOOP or ENDCASE in a loop or SWITCHON belongs to it, and not to an inner one.
fn belongs(tree: &Tree<'_>, leaving: usize, at: usize) -> bool {
    let is_case = matches!(tree.form(leaving), Form::EndCase);
    let mut node = leaving;
    for _ in at..leaving {
        node = tree.parent(node);
        let is_owner = match tree.form(node) {
            Form::SwitchOn => is_case,
            Form::Repeat
            | Form::RepeatWhile
            | Form::RepeatUntil
            | Form::While
            | Form::Until
            | Form::For => !is_case,
            _ => false,
        };
        if is_owner {
            break;
        }
    }
    node == at
}

/// What is known of the list of a SWITCHON.
#[derive(Clone, Copy, Default)]
pub struct Cases {
    /// How many labelled items are reached from the item before.
    pub falls: usize,
    /// How many labelled items after the first aren't.
    pub stops: usize,
    /// The first item that is reached from the one before.
    pub first: Option<usize>,
    /// Whether there is a DEFAULT.
    has_default: bool,
}

/// Where control goes in a section.
#[derive(Drop)]
pub struct Flow {
    /// For each list of items and each item, whether control reaches its end.
    reached: Vec<bool>,
    /// What is known of each SWITCHON's list.
    cases: Vec<Cases>,
}

/// That control reaches the ends of this many nodes.
fn all_reached(alloc: Global, count: usize) -> Result<Vec<bool>, Memory> {
    let mut reached = Vec::new(alloc);
    reached.resize(count, true)?;
    Ok(reached)
}

impl Flow {
    /// Finds where control goes. Records in `kinds` which routines return. Returns `Memory` if an allocation fails.
    pub fn of(alloc: Global, tree: &Tree<'_>, kinds: &mut Kinds) -> Result<Flow, Memory> {
        let mut flow = Flow {
            reached: all_reached(alloc, tree.len())?,
            cases: Vec::new(alloc),
        };
        for at in &tree.marks().switches {
            flow.reach(*at, false);
            flow.cases.push(Cases::default())?;
        }
        for at in tree.commands() {
            flow.close(tree, kinds, *at);
        }
        Ok(flow)
    }

    /// Whether control reaches the end of a list of items or an item.
    pub fn is_reached(&self, at: usize) -> bool {
        match self.reached.get(at) {
            Some(is_reached) => *is_reached,
            None => false,
        }
    }

    /// What is known of the list of a SWITCHON.
    pub fn cases(&self, tree: &Tree<'_>, at: usize) -> Cases {
        match switch_at(tree, at) {
            Some(number) => self.cases_of(number),
            None => Cases::default(),
        }
    }

    /// What is known of the list of the SWITCHON with this number.
    fn cases_of(&self, number: usize) -> Cases {
        match self.cases.get(number) {
            Some(cases) => *cases,
            None => Cases::default(),
        }
    }

    /// Whether a BREAK or ENDCASE leaves this loop or SWITCHON, or a LOOP goes to the test at its end.
    fn is_left(&self, tree: &Tree<'_>, at: usize) -> bool {
        let breaks = tree.marks().breaks.as_slice();
        let has_test = matches!(tree.form(at), Form::RepeatWhile | Form::RepeatUntil);
        for number in count_before(breaks, at)..breaks.len() {
            let Some(leaving) = breaks.get(number) else {
                return false;
            };
            if *leaving >= tree.end(at) {
                return false;
            }
            let may_leave = has_test || !matches!(tree.form(*leaving), Form::Loop);
            if may_leave && belongs(tree, *leaving, at) {
                return true;
            }
        }
        false
    }

    /// Whether a node contains a jump out of it.
    pub fn has_jump(&self, tree: &Tree<'_>, at: usize) -> bool {
        has_between(tree.marks().jumps.as_slice(), at, tree.end(at))
    }

    /// Whether a call is among the nodes from the first to before the second.
    pub fn has_call(&self, tree: &Tree<'_>, from: usize, to: usize) -> bool {
        has_between(tree.marks().calls.as_slice(), from, to)
    }

    /// Records whether control reaches the end of a list or an item.
    fn reach(&mut self, at: usize, is_reached: bool) {
        if let Some(known) = self.reached.get_mut(at) {
            *known = is_reached;
        }
    }

    /// Records what a node means for its parent, once its own parts were visited.
    fn close(&mut self, tree: &Tree<'_>, kinds: &mut Kinds, at: usize) {
        match tree.form(at) {
            Form::Item => self.item(tree, at, tree.parent(at)),
            Form::Default => self.default(tree, tree.parent(tree.parent(at))),
            _ => self.command(tree, kinds, at, tree.parent(at)),
        }
    }

    /// A command of an item, or the block of a routine.
    fn command(&mut self, tree: &Tree<'_>, kinds: &mut Kinds, at: usize, parent: usize) {
        match tree.form(parent) {
            Form::Item => {
                let ends = self.ends(tree, kinds, at);
                self.reach(parent, ends);
            }
            Form::Routine if matches!(tree.form(at), Form::Block) => {
                self.routine(tree, kinds, parent, at);
            }
            _ => {}
        }
    }

    /// Records that a SWITCHON has a DEFAULT.
    fn default(&mut self, tree: &Tree<'_>, at: usize) {
        if let Some(number) = switch_at(tree, at)
            && let Some(cases) = self.cases.get_mut(number)
        {
            cases.has_default = true;
        }
    }

    /// An item of a list.
    fn item(&mut self, tree: &Tree<'_>, at: usize, parent: usize) {
        let is_entered = self.is_reached(parent);
        let label = tree.form(tree.first(at));
        let is_labelled = matches!(label, Form::Case | Form::Default | Form::Label);
        if matches!(tree.form(parent), Form::SwitchOn)
            && matches!(label, Form::Case | Form::Default)
            && at != tree.second(parent)
        {
            self.case(tree, at, parent, is_entered);
        }
        let is_reached = (is_entered || is_labelled) && self.is_reached(at);
        self.reach(parent, is_reached);
    }

    /// A labelled item of a SWITCHON, after the first.
    fn case(&mut self, tree: &Tree<'_>, at: usize, parent: usize, is_entered: bool) {
        let Some(number) = switch_at(tree, parent) else {
            return;
        };
        let Some(cases) = self.cases.get_mut(number) else {
            return;
        };
        if is_entered {
            cases.falls = cases.falls.saturating_add(1);
            if cases.first.is_none() {
                cases.first = Some(at);
            }
        } else {
            cases.stops = cases.stops.saturating_add(1);
        }
    }

    /// Records whether a routine with this block returns.
    fn routine(&self, tree: &Tree<'_>, kinds: &mut Kinds, at: usize, block: usize) {
        let has_return = has_between(tree.marks().returns.as_slice(), at, tree.end(at));
        let returns = has_return || self.is_reached(block);
        if let Some(index) = kinds.names.index_at(at) {
            kinds.names.set_returns(index, returns);
        }
    }

    /// Whether control can go on after a command.
    fn ends(&self, tree: &Tree<'_>, kinds: &Kinds, at: usize) -> bool {
        match tree.form(at) {
            Form::Break
            | Form::Loop
            | Form::EndCase
            | Form::Return
            | Form::Finish
            | Form::ResultIs
            | Form::Goto => false,
            Form::Do => returns(tree, kinds, tree.first(tree.first(at))),
            Form::Block => self.is_reached(at),
            Form::Test => self.is_reached(tree.second(at)) || self.is_reached(tree.third(at)),
            Form::Repeat => self.is_left(tree, at),
            Form::RepeatWhile | Form::RepeatUntil => {
                let body = tree.first(at);
                !matches!(tree.form(body), Form::Block)
                    || self.is_reached(body)
                    || self.is_left(tree, at)
            }
            Form::While => {
                !matches!(tree.form(tree.first(at)), Form::True) || self.is_left(tree, at)
            }
            Form::Until => {
                !matches!(tree.form(tree.first(at)), Form::False) || self.is_left(tree, at)
            }
            Form::SwitchOn => {
                !self.cases(tree, at).has_default || self.is_reached(at) || self.is_left(tree, at)
            }
            _ => true,
        }
    }
}

/// Whether a call of this expression is known to be able to return.
fn returns(tree: &Tree<'_>, kinds: &Kinds, called: usize) -> bool {
    let Some(declared) = kinds.names.at(called) else {
        return false;
    };
    match (declared.sort, tree.form(declared.node)) {
        (Sort::Routine, Form::Function) => true,
        (Sort::Routine, _) => declared.returns,
        (Sort::Global, _) => {
            let name = tree.text(declared.node);
            declared.is_library && name != b"STOP".as_slice() || name == b"WRITEF".as_slice()
        }
        _ => false,
    }
}
