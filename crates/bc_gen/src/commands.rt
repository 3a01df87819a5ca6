//! The code of commands, with one function for each form.
//!
//! Most of them, and those of `roots.rt`, call one another and are proved as one cycle.
ghost use Rattle.std.specs.Prelude.{◌≡◌, ◌+◌, ◌≤◌, IfOk, map, [], ◌∷◌};
ghost use Rattle.bc_core.specs.Tree as tree;
ghost use Rattle.bc_core.specs.Commands as forms;
ghost use Rattle.bc_core.specs.View.{exp, variable as variable_view, declarations as declarations_view, command as command_view, items as items_view, items_before, block_of};
ghost use Rattle.bc_core.specs.Level.{cells_of as cells_of_variable, cells_of_all as cells_of_variables, cells_declared};
ghost use Rattle.bc_core.specs.Command.{step_of_for as step_of};
ghost use Rattle.bc_gen_defs.specs.Emit.{emit, emit_block, emit_items, emit_variables, emit_declarations, entries_in, table_of, end_of_for as end_of, zero_item, execute as execute_item};
ghost use Rattle.bc_gen_defs.specs.Entries.{Plain};
ghost use Rattle.bc_gen.specs.Room.{room_in, RootHasRoom, VariablesHaveRoom, DeclarationsHaveRoom, CommandHasRoom, BlockHasRoom, ItemsHaveRoom};
ghost use Rattle.bc_gen.specs.Surroundings.{initial_of, roots_in, exits_of};
ghost use Rattle.bc_gen.specs.Writing.{Writes, Puts};

use crate::context::{Around, label_of};
use crate::gen_error::GenError;
use crate::items::{FINISH, RETURN, SWITCH};
use crate::list_labels::entry_after;
use crate::roots::Jump;
use crate::writer::Writer;
use bc_core::{
    Block, Command, Condition, CoreExp, Declaration, ListItem, Root, Variable, copy_expression,
};
use bc_word::{Memory, Op, Word};
use std::alloc::Global;

/// The expression for the variable at this offset of the frame.
fn variable(alloc: Global, offset: u16) -> Result<Box<CoreExp>, Memory>
    ensures { IfOk result (λ e. exp e.value ≡ tree.Load (tree.Frame offset)) }
{
    let address = Box::new(alloc, CoreExp::Frame(offset))?;
    Ok(Box::new(alloc, CoreExp::Load(address))?)
}

/// The test that ends a FOR whose variable is at this offset: it is greater than its limit, or less if the step is negative.
fn end_of_for(alloc: Global, by: Word, offset: u16) -> Result<CoreExp, Memory>
    requires { offset + 1 ≤ 65535 }
    ensures { IfOk result (λ e. exp e ≡ end_of by offset) }
{
    let op = if by.get() < 32768 {
        Op::Greater
    } else {
        Op::Less
    };
    let variable_now = variable(alloc, offset)?;
    Ok(CoreExp::Bin(op, variable_now, variable(alloc, offset + 1)?))
}

/// The sum of the step and a FOR's variable, which is at this offset.
fn step_of_for(alloc: Global, by: Word, offset: u16) -> Result<CoreExp, Memory>
    ensures { IfOk result (λ e. exp e ≡ step_of by offset) }
{
    let variable_now = variable(alloc, offset)?;
    let step = Box::new(alloc, CoreExp::Num(by))?;
    Ok(CoreExp::Bin(Op::Add, variable_now, step))
}

/// The number of cells that a variable takes: its own and those of its vector.
fn cells_of(variable: &Variable) -> u16
    requires { cells_of_variable (variable_view variable.now) ≤ 65535 }
    ensures { result ≡ cells_of_variable (variable_view variable.now) }
{
    match variable {
        Variable::Value(_) => 1,
        Variable::Vector(greatest) => greatest.get() + 2,
    }
}

/// The number of cells that variables take.
fn cells_of_all(variables: &[Variable]) -> u16
    requires { cells_of_variables (map variable_view variables.now) ≤ 65535 }
    ensures { result ≡ cells_of_variables (map variable_view variables.now) }
{
    let mut cells = 0u16;
    for each in variables {
        cells += cells_of(each);
    }
    cells
}

/// The initial value of a variable at this offset; for a vector, the address of the cell after its own.
fn initial(alloc: Global, variable: &Variable, offset: u16) -> Result<CoreExp, Memory>
    requires { offset + 1 ≤ 65535 }
    ensures { IfOk result (λ e. exp e ≡ initial_of (variable_view variable.now) offset) }
{
    match variable {
        Variable::Value(value) => Ok(copy_expression(alloc, value)?),
        Variable::Vector(_) => Ok(CoreExp::Frame(offset + 1)),
    }
}

impl Writer {
    /// Writes the code of a command, where `level` is the next free offset of the frame.
    #[cycle(commands)]
    pub(crate) fn command(
        &mut self,
        around: &Around<'_>,
        level: u16,
        command: &Command,
    ) -> Result<(), GenError>
        requires { CommandHasRoom (room_in around.now) (command_view command.now) level }
        ensures { Writes result self.old self.new (emit Plain (roots_in around.now) (command_view command.now) level (exits_of around.now) self.old.next) }
    {
        match command {
            Command::Call(call) => self.value(around, level, call),
            Command::Assign { value, address } => self.assign(around, level, value, address),
            Command::If(condition, body) => self.if_command(around, level, condition, body),
            Command::Test(test, this, that) => self.test_command(around, level, test, this, that),
            Command::While(condition, body) => self.while_loop(around, level, condition, body),
            Command::Repeat(body) => self.repeat(around, level, body),
            Command::RepeatWhile(body, condition) => {
                self.repeat_while(around, level, body, condition)
            }
            Command::For {
                start,
                limit,
                by,
                body,
            } => self.for_loop(around, level, start, limit, *by, body),
            Command::SwitchOn(value, list) => self.switchon(around, level, value, list),
            Command::Break => self.jump(around.broken),
            Command::Loop => self.jump(around.looped),
            Command::EndCase => self.jump(around.cases),
            Command::Return => self.return_zero(),
            Command::ResultIs(value) => self.resultis(around, level, value),
            Command::Finish => self.execute(FINISH),
            Command::Goto(number) => self.jump(label_of(around.labels, *number, 0)),
            Command::Nested(body) => self.block(around, level, body),
        }
    }

    /// Writes `L0 X4`, the return from a routine declared with BE.
    pub(crate) fn return_zero(&mut self) -> Result<(), GenError>
        ensures { Puts result self.old self.new (Plain zero_item ∷ Plain (execute_item 4) ∷ []) }
    {
        self.zero()?;
        self.execute(RETURN)
    }

    /// Writes the code of an assignment.
    #[cycle(commands)]
    fn assign(
        &mut self,
        around: &Around<'_>,
        level: u16,
        value: &CoreExp,
        address: &CoreExp,
    ) -> Result<(), GenError>
        requires { RootHasRoom (room_in around.now) (tree.Assign level (exp value.now) (exp address.now)) }
        ensures { Writes result self.old self.new (roots_in around.now (tree.Assign level (exp value.now) (exp address.now)) 0 self.old.next) }
    {
        let value = copy_expression(self.alloc, value)?;
        let address = copy_expression(self.alloc, address)?;
        let root = Root::Assign {
            level,
            value,
            address,
        };
        self.root(around, root, 0)
    }

    /// Writes the assignment of a value to the cell at this offset.
    #[cycle(commands)]
    fn set(
        &mut self,
        around: &Around<'_>,
        level: u16,
        value: CoreExp,
        offset: u16,
    ) -> Result<(), GenError>
        requires { RootHasRoom (room_in around.now) (tree.Assign level (exp value) (tree.Frame offset)) }
        ensures { Writes result self.old self.new (roots_in around.now (tree.Assign level (exp value) (tree.Frame offset)) 0 self.old.next) }
    {
        let root = Root::Assign {
            level,
            value,
            address: CoreExp::Frame(offset),
        };
        self.root(around, root, 0)
    }

    /// Writes the code of IF and UNLESS.
    #[cycle(commands)]
    fn if_command(
        &mut self,
        around: &Around<'_>,
        level: u16,
        condition: &Condition,
        body: &Block,
    ) -> Result<(), GenError>
        requires { CommandHasRoom (room_in around.now) (forms.If condition.now.sense (exp condition.now.test) (block_of body.now)) level }
        ensures { Writes result self.old self.new
            (emit Plain (roots_in around.now) (forms.If condition.now.sense (exp condition.now.test) (block_of body.now)) level
            (exits_of around.now) self.old.next) }
    {
        let past = self.take(1)?;
        let out = Jump {
            sense: !condition.sense,
            target: past,
        };
        self.test(around, level, &condition.test, out)?;
        self.block(around, level, body)?;
        self.label(past)
    }

    /// Writes the code of TEST.
    #[cycle(commands)]
    fn test_command(
        &mut self,
        around: &Around<'_>,
        level: u16,
        test: &CoreExp,
        this: &Block,
        that: &Block,
    ) -> Result<(), GenError>
        requires { CommandHasRoom (room_in around.now) (forms.Test (exp test.now) (block_of this.now) (block_of that.now)) level }
        ensures { Writes result self.old self.new
            (emit Plain (roots_in around.now) (forms.Test (exp test.now) (block_of this.now) (block_of that.now)) level
            (exits_of around.now) self.old.next) }
    {
        let other = self.take(1)?;
        let past = self.take(1)?;
        let out = Jump {
            sense: false,
            target: other,
        };
        self.test(around, level, test, out)?;
        self.block(around, level, this)?;
        self.jump(past)?;
        self.label(other)?;
        self.block(around, level, that)?;
        self.label(past)
    }

    /// Writes the code of WHILE and UNTIL.
    #[cycle(commands)]
    fn while_loop(
        &mut self,
        around: &Around<'_>,
        level: u16,
        condition: &Condition,
        body: &Block,
    ) -> Result<(), GenError>
        requires { CommandHasRoom (room_in around.now) (forms.While condition.now.sense (exp condition.now.test) (block_of body.now)) level }
        ensures { Writes result self.old self.new
            (emit Plain (roots_in around.now) (forms.While condition.now.sense (exp condition.now.test) (block_of body.now)) level
            (exits_of around.now) self.old.next) }
    {
        let again = self.take(1)?;
        let past = self.take(1)?;
        self.label(again)?;
        let out = Jump {
            sense: !condition.sense,
            target: past,
        };
        self.test(around, level, &condition.test, out)?;
        self.block(&around.in_loop(past, again), level, body)?;
        self.jump(again)?;
        self.label(past)
    }

    /// Writes the code of REPEAT.
    #[cycle(commands)]
    fn repeat(&mut self, around: &Around<'_>, level: u16, body: &Block) -> Result<(), GenError>
        requires { CommandHasRoom (room_in around.now) (forms.Repeat (block_of body.now)) level }
        ensures { Writes result self.old self.new
            (emit Plain (roots_in around.now) (forms.Repeat (block_of body.now)) level (exits_of around.now) self.old.next) }
    {
        let again = self.take(1)?;
        let past = self.take(1)?;
        self.label(again)?;
        self.block(&around.in_loop(past, again), level, body)?;
        self.jump(again)?;
        self.label(past)
    }

    /// Writes the code of REPEATWHILE and REPEATUNTIL.
    #[cycle(commands)]
    fn repeat_while(
        &mut self,
        around: &Around<'_>,
        level: u16,
        body: &Block,
        condition: &Condition,
    ) -> Result<(), GenError>
        requires { CommandHasRoom (room_in around.now) (forms.RepeatWhile (block_of body.now) condition.now.sense (exp condition.now.test)) level }
        ensures { Writes result self.old self.new
            (emit Plain (roots_in around.now) (forms.RepeatWhile (block_of body.now) condition.now.sense (exp condition.now.test)) level
            (exits_of around.now) self.old.next) }
    {
        let again = self.take(1)?;
        let past = self.take(1)?;
        let onward = self.take(1)?;
        self.label(again)?;
        self.block(&around.in_loop(past, onward), level, body)?;
        self.label(onward)?;
        let back = Jump {
            sense: condition.sense,
            target: again,
        };
        self.test(around, level, &condition.test, back)?;
        self.label(past)
    }

    /// Writes the code of FOR.
    #[cycle(commands)]
    fn for_loop(
        &mut self,
        around: &Around<'_>,
        offset: u16,
        start: &CoreExp,
        limit: &CoreExp,
        by: Word,
        body: &Block,
    ) -> Result<(), GenError>
        requires { CommandHasRoom (room_in around.now) (forms.For (exp start.now) (exp limit.now) by (block_of body.now)) offset }
        ensures { Writes result self.old self.new
            (emit Plain (roots_in around.now) (forms.For (exp start.now) (exp limit.now) by (block_of body.now)) offset
            (exits_of around.now) self.old.next) }
    {
        let again = self.take(1)?;
        let past = self.take(1)?;
        let onward = self.take(1)?;
        let level = offset + 2;
        let start = copy_expression(self.alloc, start)?;
        self.set(around, level, start, offset)?;
        let limit = copy_expression(self.alloc, limit)?;
        self.set(around, level, limit, offset + 1)?;
        self.label(again)?;
        let end = end_of_for(self.alloc, by, offset)?;
        let out = Jump {
            sense: true,
            target: past,
        };
        self.test(around, level, &end, out)?;
        self.block(&around.in_loop(past, onward), level, body)?;
        self.label(onward)?;
        let step = step_of_for(self.alloc, by, offset)?;
        self.set(around, level, step, offset)?;
        self.jump(again)?;
        self.label(past)
    }

    /// Writes the code of SWITCHON.
    #[cycle(commands)]
    fn switchon(
        &mut self,
        around: &Around<'_>,
        level: u16,
        value: &CoreExp,
        list: &[ListItem],
    ) -> Result<(), GenError>
        requires { CommandHasRoom (room_in around.now) (forms.SwitchOn (exp value.now) (items_view list.now)) level }
        ensures { Writes result self.old self.new (emit Plain (roots_in around.now) (forms.SwitchOn (exp value.now) (items_view list.now)) level
            (exits_of around.now) self.old.next) }
    {
        let past = self.take(1)?;
        let found = self.case_labels(list, past)?;
        self.value(around, level, value)?;
        let labels = self.list_labels(list, around.labels)?;
        let within = Around {
            cases: past,
            labels: &labels,
            ..*around
        };
        self.execute(SWITCH)?;
        self.data(Word::new(found.count))?;
        self.data_label(found.default)?;
        self.table(found.first, list)?;
        self.list(&within, level, list, found.first)?;
        self.label(past)
    }

    /// Writes the value and the address of each CASE, where the first CASE or DEFAULT has this label.
    fn table(&mut self, first: u16, list: &[ListItem]) -> Result<(), GenError>
        requires { first + entries_in (items_view list.now) ≤ 65535 }
        ensures { Puts result self.old self.new (table_of Plain (items_view list.now) first) }
    {
        let mut entry = first;
        for item in list {
            let label = entry;
            entry = entry_after(item, entry);
            if let ListItem::Case(value) = item {
                self.data(*value)?;
                self.data_label(label)?;
            }
        }
        Ok(())
    }

    /// Writes the code of RESULTIS.
    #[cycle(commands)]
    fn resultis(&mut self, around: &Around<'_>, level: u16, value: &CoreExp) -> Result<(), GenError>
        requires { CommandHasRoom (room_in around.now) (forms.ResultIs (exp value.now)) level }
        ensures { Writes result self.old self.new
            (emit Plain (roots_in around.now) (forms.ResultIs (exp value.now)) level (exits_of around.now) self.old.next) }
    {
        self.value(around, level, value)?;
        self.jump(around.resulted)
    }

    /// Writes the code of a block.
    #[cycle(commands)]
    pub(crate) fn block(
        &mut self,
        around: &Around<'_>,
        level: u16,
        block: &Block,
    ) -> Result<(), GenError>
        requires { BlockHasRoom (room_in around.now) (block_of block.now) level }
        ensures { Writes result self.old self.new (emit_block Plain (roots_in around.now) (block_of block.now) level (exits_of around.now) self.old.next) }
    {
        let labels = self.list_labels(&block.list, around.labels)?;
        let inner = self.declarations(around, level, &block.declarations)?;
        let within = Around {
            labels: &labels,
            ..*around
        };
        self.list(&within, inner, &block.list, 0)
    }

    /// Writes the code of declarations, and returns the next free offset after their variables.
    #[cycle(commands)]
    fn declarations(
        &mut self,
        around: &Around<'_>,
        level: u16,
        declarations: &[Declaration],
    ) -> Result<u16, GenError>
        requires { DeclarationsHaveRoom (room_in around.now) (declarations_view declarations.now) level }
        ensures written { Writes result self.old self.new (emit_declarations (roots_in around.now) (declarations_view declarations.now) level self.old.next) }
        ensures following { IfOk result (λ found. found ≡ level + cells_declared (declarations_view declarations.now)) }
    {
        let mut level = level;
        for declaration in declarations {
            let inner = level + cells_of_all(&declaration.variables);
            self.variables(around, inner, &declaration.variables, level)?;
            level = inner;
        }
        Ok(level)
    }

    /// Writes the code of variables whose cells begin at this offset.
    #[cycle(commands)]
    fn variables(
        &mut self,
        around: &Around<'_>,
        level: u16,
        variables: &[Variable],
        offset: u16,
    ) -> Result<(), GenError>
        requires room { VariablesHaveRoom (room_in around.now) (map variable_view variables.now) offset level }
        requires offsets { offset + cells_of_variables (map variable_view variables.now) ≤ 65535 }
        ensures { Writes result self.old self.new (emit_variables (roots_in around.now) (map variable_view variables.now) offset level self.old.next) }
    {
        let mut offset = offset;
        for variable in variables {
            let value = initial(self.alloc, variable, offset)?;
            self.set(around, level, value, offset)?;
            offset += cells_of(variable);
        }
        Ok(())
    }

    /// Writes the code of a list whose first CASE or DEFAULT has this label.
    #[cycle(commands)]
    fn list(
        &mut self,
        around: &Around<'_>,
        level: u16,
        list: &[ListItem],
        first: u16,
    ) -> Result<(), GenError>
        requires room { ItemsHaveRoom (room_in around.now) (items_view list.now) level }
        requires entries { first + entries_in (items_view list.now) ≤ 65535 }
        ensures { Writes result self.old self.new (emit_items Plain (roots_in around.now) (items_view list.now) level
            (exits_of around.now) first self.old.next) }
    {
        let mut entry = first;
        for item in list {
            self.list_item(around, level, item, entry)?;
            entry = entry_after(item, entry);
        }
        Ok(())
    }

    /// Writes the code of an item of a list, where the next CASE or DEFAULT has this label.
    #[cycle(commands)]
    fn list_item(
        &mut self,
        around: &Around<'_>,
        level: u16,
        item: &ListItem,
        entry: u16,
    ) -> Result<(), GenError>
        requires { ItemsHaveRoom (room_in around.now) (items_before item.now forms.no_item) level }
        ensures { Writes result self.old self.new (emit_items Plain (roots_in around.now) (items_before item.now forms.no_item) level
            (exits_of around.now) entry self.old.next) }
    {
        match item {
            ListItem::Command(command) => self.command(around, level, command),
            ListItem::Case(_) | ListItem::Default => self.label(entry),
            ListItem::Label(number) => self.label(label_of(around.labels, *number, 0)),
        }
    }
}
