//! The walk over commands. Each function returns the frame size that a command needs, in cells, and fails with `End` if the walk ends.
use crate::expressions::Side;
use crate::leaves::Leaves;
use crate::walk::{Beside, End, PlaceWalk};
use bc_parse_tree::{Block, Command, Exp, Item};
use bc_scope_faults::{CommandContext, ExpressionContext, all_held, check_goto, has_cell, widest};
use bc_scope_names::{Meant, ScopeError, side_levels};

/// The context of a loop's body, where the loop is.
fn in_a_loop(context: CommandContext) -> CommandContext {
    CommandContext {
        allowed: context.allowed.in_a_loop(),
        ..context
    }
}

impl<'s> PlaceWalk<'s> {
    /// Walks a command.
    #[cycle(places)]
    pub fn command(&mut self, context: CommandContext, tree: &Command<'s>) -> Result<u64, End> {
        match tree {
            Command::Assign(places, values) => self.assignment(places, values, context.level),
            Command::Call(routine, values) => self.called(routine, values, context.level),
            Command::Block(body) => self.block(context, body),
            Command::Break | Command::Loop => self.word(context.allowed.in_loop),
            Command::EndCase => self.word(context.allowed.in_cases),
            Command::Return => self.word(context.allowed.may_return),
            Command::Finish => self.word(true),
            Command::ResultIs(value) => self.result_is(context, value),
            Command::Goto(name) => self.goto(name),
            Command::Repeat(body) => self.command(in_a_loop(context), body),
            Command::RepeatWhile(body, test) | Command::RepeatUntil(body, test) => {
                self.repeated(in_a_loop(context), body, test)
            }
            Command::If(test, body) | Command::Unless(test, body) => {
                self.guarded(context, test, body)
            }
            Command::While(test, body) | Command::Until(test, body) => {
                self.guarded(in_a_loop(context), test, body)
            }
            Command::Test { test, this, that } => self.chosen(context, test, this, that),
            Command::For { .. } => self.turns(context, tree),
            Command::SwitchOn(value, list) => self.switch(context, value, list),
        }
    }

    /// A call as a command, which is a root.
    #[cycle(places)]
    fn called(&mut self, routine: &Exp<'s>, values: &[Exp<'s>], level: u64) -> Result<u64, End> {
        self.record.root(self.leaves)?;
        let context = ExpressionContext {
            in_constant: false,
            level,
        };
        self.call(context, routine, values)
    }

    /// A loop that tests after its command.
    #[cycle(places)]
    fn repeated(
        &mut self,
        context: CommandContext,
        body: &Command<'s>,
        test: &Exp<'s>,
    ) -> Result<u64, End> {
        let body = self.command(context, body)?;
        Ok(body.max(self.rooted(test, context.level)?))
    }

    /// A TEST with its two blocks.
    #[cycle(places)]
    fn chosen(
        &mut self,
        context: CommandContext,
        test: &Exp<'s>,
        this: &Block<'s>,
        that: &Block<'s>,
    ) -> Result<u64, End> {
        let this = self.guarded(context, test, this)?;
        Ok(this.max(self.block(context, that)?))
    }

    /// A FOR. Takes the whole command, to have few parameters; another command is ignored.
    #[cycle(places)]
    fn turns(&mut self, context: CommandContext, tree: &Command<'s>) -> Result<u64, End> {
        let Command::For {
            variable,
            start,
            limit,
            step,
            body,
        } = tree
        else {
            return Ok(0);
        };
        let leaf = self.leaf();
        let ends = self.ends(start, limit, context.level)?;
        if let Some(by) = step {
            let _at = self.constant(by)?;
        }
        let body = self.counted(context, variable, leaf, body)?;
        Ok(ends.max(body))
    }

    /// A command of one word, which is at fault unless `allowed`.
    fn word(&mut self, allowed: bool) -> Result<u64, End> {
        let leaf = self.leaf();
        self.allowed(allowed, leaf)?;
        Ok(0)
    }

    /// Reports `Misplaced` at this leaf unless `allowed`.
    fn allowed(&mut self, allowed: bool, leaf: u64) -> Result<(), End> {
        if allowed {
            Ok(())
        } else {
            self.stop(ScopeError::Misplaced, Leaves::one(leaf), Beside::Nothing)
        }
    }

    /// RESULTIS.
    #[cycle(places)]
    fn result_is(&mut self, context: CommandContext, value: &Exp<'s>) -> Result<u64, End> {
        let leaf = self.leaf();
        self.record.root(leaf)?;
        let before = ExpressionContext {
            in_constant: false,
            level: context.level,
        };
        let width = self.expression(before, value)?;
        self.allowed(context.allowed.in_valof, leaf)?;
        Ok(width)
    }

    /// GOTO and its label.
    fn goto(&mut self, name: &'s [u8]) -> Result<u64, End> {
        let _word = self.leaf();
        let leaf = self.leaf();
        let meant = self.scope.meant_by(name);
        self.judged(check_goto(name, meant), leaf)?;
        Ok(0)
    }

    /// An expression and then a block.
    #[cycle(places)]
    fn guarded(
        &mut self,
        context: CommandContext,
        test: &Exp<'s>,
        body: &Block<'s>,
    ) -> Result<u64, End> {
        let test = self.rooted(test, context.level)?;
        Ok(test.max(self.block(context, body)?))
    }

    /// An assignment: its addresses, then its values, then that each address has a cell.
    #[cycle(places)]
    fn assignment(
        &mut self,
        places: &[Exp<'s>],
        values: &[Exp<'s>],
        level: u64,
    ) -> Result<u64, End> {
        let levels = side_levels(self.alloc, &self.scope, places, level)?;
        let held = all_held(self.alloc, &self.scope, places, level)?;
        self.sides(places, values, &levels, &held)
    }

    /// The two sides of an assignment; `levels` and `held` have the level of each pair, and the frame size that holding it needs.
    #[cycle(places)]
    fn sides(
        &mut self,
        places: &[Exp<'s>],
        values: &[Exp<'s>],
        levels: &[u64],
        held: &[u64],
    ) -> Result<u64, End> {
        let addresses = self.side(places, levels)?;
        self.note_roots(&addresses.leaves)?;
        let contents = self.contents(values, levels, places, &addresses.leaves)?;
        Ok(widest(held, &addresses.widths, &contents))
    }

    /// The values of an assignment, and then the check of `places`, which are at `leaves`. Returns the frame size that each value
    /// needs.
    #[cycle(places)]
    fn contents(
        &mut self,
        values: &[Exp<'s>],
        levels: &[u64],
        places: &[Exp<'s>],
        leaves: &[Leaves],
    ) -> Result<Vec<u64>, End> {
        let Side { widths, .. } = self.side(values, levels)?;
        self.assignable(places, leaves)?;
        Ok(widths)
    }

    /// Records a root at the first leaf of each of these.
    fn note_roots(&mut self, leaves: &[Leaves]) -> Result<(), End> {
        for at in leaves {
            self.record.root(at.first)?;
        }
        Ok(())
    }

    /// Reports `NotAssignable` at the first of these expressions that has no cell.
    fn assignable(&mut self, places: &[Exp<'s>], leaves: &[Leaves]) -> Result<(), End> {
        for (place, at) in places.iter().zip(leaves.iter()) {
            if !has_cell(&self.scope, place) {
                self.stop(ScopeError::NotAssignable, *at, Beside::Nothing)?;
            }
        }
        Ok(())
    }

    /// The start and the limit of a FOR. They are computed above its two cells, and so are its own test and its step.
    #[cycle(places)]
    fn ends(&mut self, start: &Exp<'s>, limit: &Exp<'s>, level: u64) -> Result<u64, End> {
        let above = level.saturating_add(2);
        let start = self.rooted(start, above)?;
        let limit = self.rooted(limit, above)?;
        Ok(above.saturating_add(2).max(start.max(limit)))
    }

    /// The body of a FOR with this variable, which is declared at `leaf`.
    #[cycle(places)]
    fn counted(
        &mut self,
        context: CommandContext,
        variable: &'s [u8],
        leaf: u64,
        body: &Block<'s>,
    ) -> Result<u64, End> {
        let mark = self.mark();
        self.scope
            .declare(variable, Meant::Variable(context.level))?;
        self.known_cell(variable, leaf, context.level)?;
        let inside = CommandContext {
            allowed: context.allowed.in_a_loop(),
            level: context.level.saturating_add(2),
        };
        let width = self.block(inside, body)?;
        self.leave(mark);
        Ok(width)
    }

    /// SWITCHON and its list.
    #[cycle(places)]
    fn switch(
        &mut self,
        context: CommandContext,
        value: &Exp<'s>,
        list: &[Item<'s>],
    ) -> Result<u64, End> {
        let value = self.rooted(value, context.level)?;
        let mark = self.mark();
        let inside = CommandContext {
            allowed: context.allowed.in_a_switch(),
            ..context
        };
        let list = self.list(true, inside, list)?;
        self.leave(mark);
        Ok(value.max(list))
    }
}
