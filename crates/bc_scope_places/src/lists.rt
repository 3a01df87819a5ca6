//! The walk over blocks and command lists. Functions that return a number return the frame size that a part needs, in cells; all fail
//! with `End` if the walk ends.
use crate::leaves::Leaves;
use crate::walk::{Beside, End, PlaceWalk};
use bc_parse_tree::{Block, Item, Label};
use bc_scope_faults::CommandContext;
use bc_scope_names::{ScopeError, constant, declare_list};
use indexmap::IndexMap;
use std::alloc::Global;

/// The state of a walk in a command list: whether it is that of a SWITCHON, its labels up to here with their leaves, and the index in
/// `Walk::known` of its next named label.
#[derive(Drop)]
struct OfList<'s> {
    cases: bool,
    names: IndexMap<&'s [u8], u64>,
    values: IndexMap<u16, Leaves>,
    default: Option<Leaves>,
    next: usize,
}

impl<'s> OfList<'s> {
    /// The state at the start of a list.
    fn new(alloc: Global, cases: bool, next: usize) -> OfList<'s> {
        OfList {
            cases,
            names: IndexMap::new(alloc),
            values: IndexMap::new(alloc),
            default: None,
            next,
        }
    }
}

impl<'s> PlaceWalk<'s> {
    /// Walks a block.
    #[cycle(places)]
    pub fn block(&mut self, context: CommandContext, tree: &Block<'s>) -> Result<u64, End> {
        let mark = self.mark();
        let extent = self.declarations(&tree.declarations, context.level)?;
        let inside = CommandContext {
            level: extent.level,
            ..context
        };
        let width = self.list(false, inside, &tree.items)?;
        self.leave(mark);
        Ok(extent.width.max(width))
    }

    /// Walks a command list, with its labels in scope. `cases` says that it is the list of a SWITCHON, which may have CASE and
    /// DEFAULT.
    #[cycle(places)]
    pub fn list(
        &mut self,
        cases: bool,
        context: CommandContext,
        items: &[Item<'s>],
    ) -> Result<u64, End> {
        declare_list(&mut self.scope, 0, items)?;
        let next = self.known();
        self.know_all_labels(items)?;
        let mut of_list = OfList::new(self.alloc, cases, next);
        self.listed(&mut of_list, context, items)
    }

    /// The items of a list whose labels are already in scope.
    #[cycle(places)]
    fn listed(
        &mut self,
        of_list: &mut OfList<'s>,
        context: CommandContext,
        items: &[Item<'s>],
    ) -> Result<u64, End> {
        let mut width = 0u64;
        for tree in items {
            width = width.max(self.item(of_list, context, tree)?);
        }
        Ok(width)
    }

    /// Adds the named labels of a list to `Walk::known`, before the walk has met them.
    fn know_all_labels(&mut self, items: &[Item<'s>]) -> Result<(), End> {
        for item in items {
            self.know_labels(&item.labels)?;
        }
        Ok(())
    }

    /// One item: its labels, then its command if it has one.
    #[cycle(places)]
    fn item(
        &mut self,
        of_list: &mut OfList<'s>,
        context: CommandContext,
        tree: &Item<'s>,
    ) -> Result<u64, End> {
        match &tree.command {
            Some(labelled) => {
                self.labels(of_list, &tree.labels)?;
                self.command(context, labelled)
            }
            None => {
                self.labels(of_list, &tree.labels)?;
                Ok(0)
            }
        }
    }

    /// Adds the named labels of one item.
    fn know_labels(&mut self, labels: &[Label<'s>]) -> Result<(), End> {
        for label in labels {
            match label {
                Label::Name(name) => self.know(name)?,
                Label::Case(_) | Label::Default => {}
            }
        }
        Ok(())
    }

    /// The labels of an item.
    #[cycle(places)]
    fn labels(&mut self, of_list: &mut OfList<'s>, list: &[Label<'s>]) -> Result<(), End> {
        for tree in list {
            self.label(of_list, tree)?;
        }
        Ok(())
    }

    /// One label.
    #[cycle(places)]
    fn label(&mut self, of_list: &mut OfList<'s>, tree: &Label<'s>) -> Result<(), End> {
        let leaf = self.leaf();
        match tree {
            Label::Case(value) => {
                let value_at = self.constant(value)?;
                let at = Leaves {
                    first: leaf,
                    last: value_at.last,
                    signs: 0,
                    calls: value_at.calls,
                };
                let number = constant(&self.scope, value).get();
                self.case(of_list, number, at)
            }
            Label::Default => self.default(of_list, Leaves::one(leaf)),
            Label::Name(name) => self.name_label(of_list, name, leaf),
        }
    }

    /// Reports `Misplaced` for a CASE or DEFAULT outside the list of a SWITCHON.
    fn in_switch(&mut self, cases: bool, at: Leaves) -> Result<(), End> {
        if cases {
            Ok(())
        } else {
            self.stop(ScopeError::Misplaced, at, Beside::Nothing)
        }
    }

    /// A CASE with its value. If it is misplaced, the fault covers only the word CASE.
    fn case(&mut self, of_list: &mut OfList<'s>, value: u16, at: Leaves) -> Result<(), End> {
        self.in_switch(of_list.cases, Leaves::one(at.first))?;
        match of_list.values.insert(value, at)? {
            Some(first) => self.stop(ScopeError::CaseTwice, at, Beside::First(first)),
            None => Ok(()),
        }
    }

    /// A DEFAULT.
    fn default(&mut self, of_list: &mut OfList<'s>, at: Leaves) -> Result<(), End> {
        self.in_switch(of_list.cases, at)?;
        if let Some(first) = of_list.default {
            self.stop(ScopeError::CaseTwice, at, Beside::First(first))?;
        }
        of_list.default = Some(at);
        Ok(())
    }

    /// A named label.
    fn name_label(
        &mut self,
        of_list: &mut OfList<'s>,
        name: &'s [u8],
        leaf: u64,
    ) -> Result<(), End> {
        self.once(&mut of_list.names, name, leaf)?;
        self.declared_at(of_list.next, leaf)?;
        of_list.next = of_list.next.saturating_add(1);
        Ok(())
    }
}
