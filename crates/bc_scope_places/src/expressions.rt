//! The walk over expressions. Functions that return a number return the frame size that an expression needs, in cells; all fail with
//! `End` if the walk ends.
use crate::leaves::Leaves;
use crate::walk::{Beside, End, PlaceWalk};
use bc_parse_tree::{Block, Exp, UnaryOp};
use bc_scope_faults::{
    Allowed, CommandContext, ExpressionContext, check_address, check_name, level_at,
};
use bc_scope_names::{ScopeError, constant_in};
use bc_word::Memory;

impl<'s> PlaceWalk<'s> {
    /// Walks an expression.
    #[cycle(places)]
    pub fn expression(&mut self, context: ExpressionContext, e: &Exp<'s>) -> Result<u64, End> {
        match e {
            Exp::Name(name) => self.name(context.in_constant, name),
            Exp::Num(_) | Exp::Character(_) | Exp::True | Exp::False => Ok(self.plain()),
            Exp::String(_) => self.string(),
            Exp::Table(values) => self.table(values),
            Exp::Valof(body) => self.valof(body, context.level),
            Exp::Unary(sign, operand) => self.unary(context, *sign, operand),
            Exp::Bin(_, left, right) => self.binary(context, left, right),
            Exp::Cond { test, this, that } => self.condition(context, test, this, that),
            Exp::Call(routine, values) => self.call(context, routine, values),
        }
    }

    /// A leaf that takes no cells.
    fn plain(&mut self) -> u64 {
        let _leaf = self.leaf();
        0
    }

    /// A string, which is a place.
    fn string(&mut self) -> Result<u64, End> {
        let leaf = self.leaf();
        self.place(leaf)?;
        Ok(0)
    }

    /// A TABLE, which is a place, and its constants.
    #[cycle(places)]
    fn table(&mut self, values: &[Exp<'s>]) -> Result<u64, End> {
        let leaf = self.leaf();
        self.constants(values)?;
        self.place(leaf)?;
        Ok(0)
    }

    /// A binary operator, with its operands one level above.
    #[cycle(places)]
    fn binary(
        &mut self,
        context: ExpressionContext,
        left: &Exp<'s>,
        right: &Exp<'s>,
    ) -> Result<u64, End> {
        let above = ExpressionContext {
            level: context.level.saturating_add(1),
            ..context
        };
        let left = self.expression(above, left)?;
        let right = self.expression(above, right)?;
        Ok(context.level.saturating_add(2).max(left.max(right)))
    }

    /// `test -> this, that`, all at the same level.
    #[cycle(places)]
    fn condition(
        &mut self,
        context: ExpressionContext,
        test: &Exp<'s>,
        this: &Exp<'s>,
        that: &Exp<'s>,
    ) -> Result<u64, End> {
        let test = self.expression(context, test)?;
        let this = self.expression(context, this)?;
        let that = self.expression(context, that)?;
        Ok(test.max(this.max(that)))
    }

    /// Walks an expression that is a root.
    #[cycle(places)]
    pub fn rooted(&mut self, e: &Exp<'s>, level: u64) -> Result<u64, End> {
        self.record.root(self.leaves)?;
        let context = ExpressionContext {
            in_constant: false,
            level,
        };
        self.expression(context, e)
    }

    /// A name in an expression.
    fn name(&mut self, in_constant: bool, name: &'s [u8]) -> Result<u64, End> {
        let leaf = self.leaf();
        let meant = self.scope.meant_by(name);
        self.judged(check_name(in_constant, name, meant), leaf)?;
        Ok(0)
    }

    /// A VALOF.
    #[cycle(places)]
    fn valof(&mut self, body: &Block<'s>, level: u64) -> Result<u64, End> {
        let _word = self.leaf();
        let mark = self.mark();
        self.scope.enter_valof()?;
        let outside = self.record.into_valof();
        let context = CommandContext {
            allowed: Allowed::valof(),
            level,
        };
        let width = self.block(context, body)?;
        self.record.back(outside);
        self.leave(mark);
        Ok(width)
    }

    /// A unary operator with its operand. The operand of `@` must have a cell.
    #[cycle(places)]
    fn unary(
        &mut self,
        context: ExpressionContext,
        sign: UnaryOp,
        operand: &Exp<'s>,
    ) -> Result<u64, End> {
        let first = self.leaves;
        let width = self.expression(context, operand)?;
        match check_address(&self.scope, context.in_constant, sign, operand) {
            Ok(()) => {}
            Err(fault) => {
                let at = Leaves::expression(first, self.last(first), operand);
                self.stop(fault, at, Beside::Nothing)?;
            }
        }
        Ok(width)
    }

    /// Walks a call, in an expression or as a command.
    #[cycle(places)]
    pub fn call(
        &mut self,
        context: ExpressionContext,
        called: &Exp<'s>,
        values: &[Exp<'s>],
    ) -> Result<u64, End> {
        let first = ExpressionContext {
            level: context.level.saturating_add(2),
            ..context
        };
        let above = ExpressionContext {
            level: first.level.saturating_add(values.len() as u64),
            ..context
        };
        let called = self.expression(above, called)?;
        let values = self.arguments(first, values)?;
        Ok(above.level.max(called.max(values)))
    }

    /// Arguments, each one level above the one before it. `context` is that of the first.
    #[cycle(places)]
    fn arguments(&mut self, context: ExpressionContext, list: &[Exp<'s>]) -> Result<u64, End> {
        let mut width = 0u64;
        let mut above = context;
        for e in list {
            width = width.max(self.expression(above, e)?);
            above.level = above.level.saturating_add(1);
        }
        Ok(width)
    }

    /// Walks a constant: first the faults inside it, then `NotConstant`. Returns its leaves.
    #[cycle(places)]
    pub fn constant(&mut self, e: &Exp<'s>) -> Result<Leaves, End> {
        let first = self.leaves;
        let context = ExpressionContext {
            in_constant: true,
            level: 0,
        };
        let _width = self.expression(context, e)?;
        let at = Leaves::expression(first, self.last(first), e);
        if constant_in(&self.scope, e).is_none() {
            self.stop(ScopeError::NotConstant, at, Beside::Nothing)?;
        }
        Ok(at)
    }

    /// The constants of a TABLE.
    #[cycle(places)]
    fn constants(&mut self, list: &[Exp<'s>]) -> Result<(), End> {
        for e in list {
            let _at = self.constant(e)?;
        }
        Ok(())
    }

    /// Walks the initial values of variables, all at the same level.
    #[cycle(places)]
    pub fn initials(&mut self, list: &[Exp<'s>], level: u64) -> Result<u64, End> {
        let mut width = 0u64;
        for e in list {
            width = width.max(self.rooted(e, level)?);
        }
        Ok(width)
    }

    /// Walks one side of an assignment, each expression at its level in `levels`.
    #[cycle(places)]
    pub fn side(&mut self, list: &[Exp<'s>], levels: &[u64]) -> Result<Side, End> {
        let mut side = Side {
            widths: Vec::new(self.alloc),
            leaves: Vec::new(self.alloc),
        };
        for e in list {
            let first = self.leaves;
            let context = ExpressionContext {
                in_constant: false,
                level: level_at(levels, side.widths.len() as u64),
            };
            let width = self.expression(context, e)?;
            side.add(width, Leaves::expression(first, self.last(first), e))?;
        }
        Ok(side)
    }
}

/// The expressions on one side of an assignment.
#[derive(Drop)]
pub struct Side {
    /// The frame size that each needs.
    pub widths: Vec<u64>,
    /// The leaves of each.
    pub leaves: Vec<Leaves>,
}

impl Side {
    /// Adds an expression. Fails with `Memory` when an allocation fails.
    fn add(&mut self, width: u64, leaves: Leaves) -> Result<(), Memory> {
        self.widths.push(width)?;
        Ok(self.leaves.push(leaves)?)
    }
}
