//! A copy of a section in which the accesses can be seen.
//!
//! A step evaluates an expression without call and VALOF as a whole. So in the copy the index of an access has a VALOF, whose value 0 is added:
//! the steps then give the base, the index and the address to a continuation each. A VALOF takes no turn, and this one has no cells.

use crate::tags::{DeclaredVector, DeclaredVectors, Tags};
use bc_core::{
    Block, Body, Command, Condition, CoreExp, Declaration, ListItem, Place, Routine, Valof,
    Variable, copy_expression, operand,
};
use bc_word::{Memory, Op, Word};
use std::alloc::Global;

/// The numbers of the globals that the primitives set.
const PRIMITIVES: [u16; 8] = [11, 12, 13, 14, 15, 16, 17, 18];

/// A copy of a section.
#[derive(Drop)]
pub(crate) struct CopiedSection {
    /// Its places.
    pub places: Vec<Place>,
    /// Its VALOFs.
    pub valofs: Vec<Valof>,
}

/// Whether an expression has a call or a VALOF.
#[cycle(calls)]
fn has_call(e: &CoreExp) -> bool {
    match e {
        CoreExp::Num(_) | CoreExp::Frame(_) | CoreExp::Glob(_) | CoreExp::Place(_) => false,
        CoreExp::Load(part) | CoreExp::Neg(part) | CoreExp::Not(part) => has_call(part),
        CoreExp::Bin(_, left, right) => has_call(left) || has_call(right),
        CoreExp::Cond(condition, this, that) => {
            has_call(condition) || has_call(this) || has_call(that)
        }
        CoreExp::Call(_, _) | CoreExp::Valof(_) => true,
    }
}

/// Whether an expression is a number.
fn is_number(e: &CoreExp) -> bool {
    matches!(e, CoreExp::Num(_))
}

/// Whether an expression is the address of a global.
fn is_global(e: &CoreExp) -> bool {
    matches!(e, CoreExp::Glob(_))
}

/// The vectors of a block, appended to `vectors`. Returns their number.
///
/// `Memory` if an allocation fails.
fn vectors_of(block: &Block, vectors: &mut Vec<DeclaredVector>) -> Result<usize, Memory> {
    let mut before_end = 0u32;
    let mut count = 0usize;
    for declaration in block.declarations.iter().rev() {
        for variable in declaration.variables.iter().rev() {
            if let Variable::Vector(greatest) = variable {
                let cells = u32::from(greatest.get()).saturating_add(1);
                before_end = before_end.saturating_add(cells);
                vectors.push(DeclaredVector { before_end, cells })?;
                count = count.saturating_add(1);
            }
            before_end = before_end.saturating_add(1);
        }
    }
    Ok(count)
}

/// Copies sections.
#[derive(Drop)]
pub(crate) struct Copier {
    alloc: Global,
    /// The tags.
    tags: Tags,
    /// For each global whether a routine or a primitive sets it before the run.
    routines: Vec<bool>,
    /// For each label of the section, counted from 1, whether it is that of a static.
    statics: Vec<bool>,
    /// The number of the section's VALOF with the value 0; `None` if it has too many others.
    zero: Option<u16>,
}

impl Copier {
    /// A copier of sections none of whose routines sets a global.
    ///
    /// `Memory` if an allocation fails.
    pub fn new(alloc: Global) -> Result<Copier, Memory> {
        let mut routines = Vec::new(alloc);
        routines.resize(512, false)?;
        let mut copier = Copier {
            alloc,
            tags: Tags::new(alloc),
            routines,
            statics: Vec::new(alloc),
            zero: None,
        };
        for number in PRIMITIVES.iter() {
            copier.note_global(*number);
        }
        Ok(copier)
    }

    /// The tags, and for each global whether a routine or a primitive sets it before the run.
    pub fn into_parts(self) -> (Tags, Vec<bool>) {
        let Copier { tags, routines, .. } = self;
        (tags, routines)
    }

    /// Notes that a routine sets a global.
    fn note_global(&mut self, number: u16) {
        if let Some(entry) = self.routines.get_mut(usize::from(number)) {
            *entry = true;
        }
    }

    /// Notes the globals that the routines of a section set. Call it for each section before one is copied.
    pub fn note_routines(&mut self, places: &[Place]) {
        for place in places {
            if let Place::Routine(routine) = place
                && let Some(number) = routine.global
            {
                self.note_global(number);
            }
        }
    }

    /// Whether a routine sets a global.
    fn is_routine(&self, number: u16) -> bool {
        self.routines
            .get(usize::from(number))
            .copied()
            .unwrap_or(false)
    }

    /// Whether a label is that of a static.
    fn is_static(&self, label: u16) -> bool {
        match usize::from(label).checked_sub(1) {
            Some(index) => self.statics.get(index).copied().unwrap_or(false),
            None => false,
        }
    }

    /// An expression with this one's value that has a VALOF or a call, so that its value is seen. One that has is kept as it is.
    fn seen(&self, e: CoreExp) -> Result<CoreExp, Memory> {
        let Some(zero) = self.zero else {
            return Ok(e);
        };
        if has_call(&e) {
            return Ok(e);
        }
        let zero = Box::new(self.alloc, CoreExp::Valof(zero))?;
        Ok(CoreExp::Bin(Op::Add, Box::new(self.alloc, e)?, zero))
    }

    /// An address of an access, whose index is seen.
    fn sum(&self, op: Op, base: CoreExp, index: CoreExp) -> Result<CoreExp, Memory> {
        let index = self.seen(index)?;
        let base = Box::new(self.alloc, base)?;
        Ok(CoreExp::Bin(op, base, Box::new(self.alloc, index)?))
    }

    /// A copy of an expression, in a box.
    #[cycle(copying)]
    fn boxed(&self, e: &CoreExp) -> Result<Box<CoreExp>, Memory> {
        let copy = self.expression(e)?;
        Ok(Box::new(self.alloc, copy)?)
    }

    /// A copy of an expression.
    #[cycle(copying)]
    fn expression(&self, e: &CoreExp) -> Result<CoreExp, Memory> {
        match e {
            CoreExp::Num(_)
            | CoreExp::Frame(_)
            | CoreExp::Glob(_)
            | CoreExp::Place(_)
            | CoreExp::Valof(_) => copy_expression(self.alloc, e),
            CoreExp::Load(address) => {
                let address = self.loaded(address)?;
                Ok(CoreExp::Load(Box::new(self.alloc, address)?))
            }
            CoreExp::Neg(part) => Ok(CoreExp::Neg(self.boxed(part)?)),
            CoreExp::Not(part) => Ok(CoreExp::Not(self.boxed(part)?)),
            CoreExp::Bin(op, left, right) => {
                let left = self.boxed(left)?;
                Ok(CoreExp::Bin(*op, left, self.boxed(right)?))
            }
            CoreExp::Cond(condition, this, that) => {
                let condition = self.boxed(condition)?;
                let this = self.boxed(this)?;
                Ok(CoreExp::Cond(condition, this, self.boxed(that)?))
            }
            CoreExp::Call(arguments, routine) => {
                let copies = self.arguments(arguments)?;
                let routine = self.called(routine)?;
                Ok(CoreExp::Call(copies, Box::new(self.alloc, routine)?))
            }
        }
    }

    /// Copies of the arguments of a call.
    #[cycle(copying)]
    fn arguments(&self, arguments: &[CoreExp]) -> Result<Vec<CoreExp>, Memory> {
        let mut copies = Vec::new(self.alloc);
        for argument in arguments {
            copies.push(self.expression(argument)?)?;
        }
        Ok(copies)
    }

    /// A copy of the expression whose value is called. A global that holds the routine isn't checked: a value that is no routine is reported
    /// anyway.
    #[cycle(copying)]
    fn called(&self, routine: &CoreExp) -> Result<CoreExp, Memory> {
        match routine {
            CoreExp::Load(address) if is_global(address) => copy_expression(self.alloc, routine),
            _ => self.expression(routine),
        }
    }

    /// A copy of the address of a read.
    #[cycle(copying)]
    fn loaded(&self, address: &CoreExp) -> Result<CoreExp, Memory> {
        match address {
            CoreExp::Frame(_) | CoreExp::Place(_) => copy_expression(self.alloc, address),
            CoreExp::Glob(number) if self.is_routine(*number) => {
                copy_expression(self.alloc, address)
            }
            _ => self.accessed(address),
        }
    }

    /// A copy of the address of an access, which is seen.
    #[cycle(copying)]
    fn accessed(&self, address: &CoreExp) -> Result<CoreExp, Memory> {
        match address {
            CoreExp::Bin(Op::Add, left, right) if is_number(left) => {
                let base = self.expression(right)?;
                self.sum(Op::Add, base, self.expression(left)?)
            }
            CoreExp::Bin(Op::Add, left, right) => {
                let base = self.expression(left)?;
                self.sum(Op::Add, base, self.expression(right)?)
            }
            CoreExp::Bin(Op::Subtract, left, right) => {
                let base = self.expression(left)?;
                self.sum(Op::Subtract, base, self.expression(right)?)
            }
            _ => {
                let copy = self.expression(address)?;
                self.seen(copy)
            }
        }
    }

    /// Whether an address is that of a variable whose accesses aren't looked at.
    fn is_variable(&self, address: &CoreExp) -> bool {
        match address {
            CoreExp::Frame(_) => true,
            CoreExp::Glob(number) => self.is_routine(*number),
            CoreExp::Place(label) => self.is_static(*label),
            _ => false,
        }
    }

    /// A copy of the address of an assignment of this value. A value with a call is evaluated at a level that depends on the form of the
    /// address, so then a simple address stays as it is. It is given to a continuation then anyway.
    fn assigned(&self, value: &CoreExp, address: &CoreExp) -> Result<CoreExp, Memory> {
        if self.is_variable(address) || (has_call(value) && operand(address).is_some()) {
            return copy_expression(self.alloc, address);
        }
        self.accessed(address)
    }

    /// A copy of a condition.
    fn condition(&self, condition: &Condition) -> Result<Condition, Memory> {
        Ok(Condition {
            sense: condition.sense,
            test: self.expression(&condition.test)?,
        })
    }

    /// A copy of a declaration.
    fn declaration(&self, declaration: &Declaration) -> Result<Declaration, Memory> {
        let mut variables = Vec::new(self.alloc);
        for variable in &declaration.variables {
            variables.push(match variable {
                Variable::Value(e) => Variable::Value(self.expression(e)?),
                Variable::Vector(greatest) => Variable::Vector(*greatest),
            })?;
        }
        Ok(Declaration { variables })
    }

    /// Appends the tag of a block's vectors to its list, if it has some.
    fn tag_vectors(&mut self, block: &Block, list: &mut Vec<ListItem>) -> Result<(), Memory> {
        let first = self.tags.vectors.len();
        let count = vectors_of(block, &mut self.tags.vectors)?;
        if count == 0 {
            return Ok(());
        }
        self.tags.append(DeclaredVectors { first, count }, list)
    }

    /// Copies of declarations.
    fn declarations(&self, declarations: &[Declaration]) -> Result<Vec<Declaration>, Memory> {
        let mut copies = Vec::new(self.alloc);
        for declaration in declarations {
            copies.push(self.declaration(declaration)?)?;
        }
        Ok(copies)
    }

    /// A copy of a block with this copy of its list.
    fn block_of(
        &self,
        block: &Block,
        list: Result<Vec<ListItem>, Memory>,
    ) -> Result<Block, Memory> {
        let list = list?;
        let declarations = self.declarations(block.declarations.as_slice())?;
        Ok(Block { declarations, list })
    }

    /// A copy of a block.
    #[cycle(commands)]
    fn block(&mut self, block: &Block) -> Result<Block, Memory> {
        let mut list = Vec::new(self.alloc);
        self.tag_vectors(block, &mut list)?;
        let list = self.items(&block.list, list);
        self.block_of(block, list)
    }

    /// Appends the copy of a command to a list.
    fn add_command(
        &self,
        copy: Result<Command, Memory>,
        list: &mut Vec<ListItem>,
    ) -> Result<(), Memory> {
        Ok(list.push(ListItem::Command(copy?))?)
    }

    /// Appends a copy of an item that is no command.
    fn add_mark(&self, item: &ListItem, list: &mut Vec<ListItem>) -> Result<(), Memory> {
        Ok(list.push(match item {
            ListItem::Case(word) => ListItem::Case(*word),
            ListItem::Label(label) => ListItem::Label(*label),
            _ => ListItem::Default,
        })?)
    }

    /// This list with copies of items after it.
    #[cycle(commands)]
    fn items(&mut self, items: &[ListItem], list: Vec<ListItem>) -> Result<Vec<ListItem>, Memory> {
        let mut list = list;
        for item in items {
            match item {
                ListItem::Command(command) => {
                    let copy = self.command(command);
                    self.add_command(copy, &mut list)?;
                }
                _ => self.add_mark(item, &mut list)?,
            }
        }
        Ok(list)
    }

    /// A copy of an assignment.
    fn assignment(&self, value: &CoreExp, address: &CoreExp) -> Result<Command, Memory> {
        let address = self.assigned(value, address)?;
        let value = self.expression(value)?;
        Ok(Command::Assign { value, address })
    }

    /// A copy of a SWITCHON with this copy of its body.
    fn switch_of(
        &self,
        value: &CoreExp,
        list: Result<Vec<ListItem>, Memory>,
    ) -> Result<Command, Memory> {
        let list = list?;
        Ok(Command::SwitchOn(self.expression(value)?, list))
    }

    /// A copy of a TEST with these copies of its bodies.
    fn test_of(
        &self,
        test: &CoreExp,
        this: Result<Block, Memory>,
        that: Result<Block, Memory>,
    ) -> Result<Command, Memory> {
        let this = this?;
        let that = that?;
        Ok(Command::Test(self.expression(test)?, this, that))
    }

    /// A copy of an IF with this copy of its body.
    fn if_of(&self, condition: &Condition, body: Result<Block, Memory>) -> Result<Command, Memory> {
        let body = body?;
        Ok(Command::If(self.condition(condition)?, body))
    }

    /// A copy of a WHILE with this copy of its body.
    fn while_of(
        &self,
        condition: &Condition,
        body: Result<Block, Memory>,
    ) -> Result<Command, Memory> {
        let body = body?;
        Ok(Command::While(self.condition(condition)?, body))
    }

    /// A copy of a REPEATWHILE with this copy of its body.
    fn repeat_while_of(
        &self,
        body: Result<Block, Memory>,
        condition: &Condition,
    ) -> Result<Command, Memory> {
        let body = body?;
        Ok(Command::RepeatWhile(body, self.condition(condition)?))
    }

    /// A copy of a FOR with this copy of its body.
    fn for_of(
        &self,
        range: (&CoreExp, &CoreExp, Word),
        body: Result<Block, Memory>,
    ) -> Result<Command, Memory> {
        let (start, limit, by) = range;
        let body = body?;
        let start = self.expression(start)?;
        let limit = self.expression(limit)?;
        Ok(Command::For {
            start,
            limit,
            by,
            body,
        })
    }

    /// A copy of a command.
    #[cycle(commands)]
    fn command(&mut self, command: &Command) -> Result<Command, Memory> {
        match command {
            Command::Call(call) => Ok(Command::Call(self.expression(call)?)),
            Command::Assign { value, address } => self.assignment(value, address),
            Command::ResultIs(value) => Ok(Command::ResultIs(self.expression(value)?)),
            Command::If(_, _) | Command::Test(_, _, _) | Command::While(_, _) => {
                self.conditional(command)
            }
            Command::Repeat(_) | Command::RepeatWhile(_, _) | Command::For { .. } => {
                self.looped(command)
            }
            Command::SwitchOn(value, items) => {
                let list = self.items(items, Vec::new(self.alloc));
                self.switch_of(value, list)
            }
            Command::Nested(block) => Ok(Command::Nested(self.block(block)?)),
            Command::Break => Ok(Command::Break),
            Command::Loop => Ok(Command::Loop),
            Command::EndCase => Ok(Command::EndCase),
            Command::Return => Ok(Command::Return),
            Command::Finish => Ok(Command::Finish),
            Command::Goto(label) => Ok(Command::Goto(*label)),
        }
    }

    /// A copy of an IF, TEST or WHILE; another command as a FINISH, which doesn't occur.
    #[cycle(commands)]
    fn conditional(&mut self, command: &Command) -> Result<Command, Memory> {
        match command {
            Command::If(condition, body) => {
                let body = self.block(body);
                self.if_of(condition, body)
            }
            Command::Test(test, this, that) => {
                let this = self.block(this);
                let that = self.block(that);
                self.test_of(test, this, that)
            }
            Command::While(condition, body) => {
                let body = self.block(body);
                self.while_of(condition, body)
            }
            _ => Ok(Command::Finish),
        }
    }

    /// A copy of a REPEAT, REPEATWHILE or FOR; another command as a FINISH, which doesn't occur.
    #[cycle(commands)]
    fn looped(&mut self, command: &Command) -> Result<Command, Memory> {
        match command {
            Command::Repeat(body) => Ok(Command::Repeat(self.block(body)?)),
            Command::RepeatWhile(body, condition) => {
                let body = self.block(body);
                self.repeat_while_of(body, condition)
            }
            Command::For {
                start,
                limit,
                by,
                body,
            } => {
                let body = self.block(body);
                self.for_of((start, limit, *by), body)
            }
            _ => Ok(Command::Finish),
        }
    }

    /// A copy of a routine.
    fn routine(&mut self, routine: &Routine) -> Result<Routine, Memory> {
        let body = match &routine.body {
            Body::Value(e) => Body::Value(self.expression(e)?),
            Body::Commands(block) => Body::Commands(self.block(block)?),
        };
        Ok(Routine {
            global: routine.global,
            parameters: routine.parameters,
            body,
        })
    }

    /// A copy of a place.
    fn place(&mut self, place: &Place) -> Result<Place, Memory> {
        match place {
            Place::Routine(routine) => Ok(Place::Routine(self.routine(routine)?)),
            Place::Static(word) => Ok(Place::Static(*word)),
            Place::Table(words) => {
                let mut copy = Vec::new(self.alloc);
                for word in words {
                    copy.push(*word)?;
                }
                Ok(Place::Table(copy))
            }
            Place::Text(bytes) => {
                let mut copy = Vec::new(self.alloc);
                copy.extend_from_slice(bytes)?;
                Ok(Place::Text(copy))
            }
        }
    }

    /// Notes which labels of a section are those of statics, and the number of the VALOF that is added to its own.
    fn begin(&mut self, places: &[Place], valofs: &[Valof]) -> Result<(), Memory> {
        self.statics.clear();
        for place in places {
            self.statics.push(matches!(place, Place::Static(_)))?;
        }
        self.zero = u16::try_from(valofs.len()).ok();
        Ok(())
    }

    /// A VALOF with the value 0.
    fn zero_valof(&self) -> Result<Valof, Memory> {
        let mut list = Vec::new(self.alloc);
        list.push(ListItem::Command(Command::ResultIs(CoreExp::Num(Word::new(0)))))?;
        Ok(Valof {
            level: 0,
            body: Block {
                declarations: Vec::new(self.alloc),
                list,
            },
        })
    }

    /// A copy of a section.
    ///
    /// `Memory` if an allocation fails.
    pub fn section(&mut self, places: &[Place], valofs: &[Valof]) -> Result<CopiedSection, Memory> {
        self.begin(places, valofs)?;
        let mut new_places = Vec::new(self.alloc);
        for place in places {
            new_places.push(self.place(place)?)?;
        }
        let mut new_valofs = Vec::new(self.alloc);
        for valof in valofs {
            new_valofs.push(Valof {
                level: valof.level,
                body: self.block(&valof.body)?,
            })?;
        }
        new_valofs.push(self.zero_valof()?)?;
        Ok(CopiedSection {
            places: new_places,
            valofs: new_valofs,
        })
    }
}
