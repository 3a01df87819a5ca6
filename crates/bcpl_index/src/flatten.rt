//! The walk over a section's tree that lists its nodes. Each function takes one tree, whose size is the measure.

use crate::node::{Form, Node};
use bc_parse_tree::{
    Block, Command, Constant, Declaration, Definition, Exp, Item, Label, Section, Storage,
};
use bc_word::Memory;
use std::alloc::Global;

/// The nodes of some forms, each list in text order.
#[derive(Drop)]
pub struct Marks {
    /// BREAK, LOOP and ENDCASE.
    pub breaks: Vec<usize>,
    /// BREAK, RETURN, FINISH, GOTO and RESULTIS.
    pub jumps: Vec<usize>,
    /// RETURN.
    pub returns: Vec<usize>,
    /// RESULTIS.
    pub results: Vec<usize>,
    /// Calls.
    pub calls: Vec<usize>,
    /// SWITCHONs.
    pub switches: Vec<usize>,
}

impl Marks {
    /// No nodes.
    fn new(alloc: Global) -> Marks {
        Marks {
            breaks: Vec::new(alloc),
            jumps: Vec::new(alloc),
            returns: Vec::new(alloc),
            results: Vec::new(alloc),
            calls: Vec::new(alloc),
            switches: Vec::new(alloc),
        }
    }

    /// Adds a node, if it has one of these forms.
    fn add(&mut self, at: usize, form: Form) -> Result<(), Memory> {
        match form {
            Form::Break => {
                self.breaks.push(at)?;
                self.jumps.push(at)?;
            }
            Form::Loop | Form::EndCase => self.breaks.push(at)?,
            Form::Return => {
                self.returns.push(at)?;
                self.jumps.push(at)?;
            }
            Form::Finish | Form::Goto => self.jumps.push(at)?,
            Form::ResultIs => {
                self.results.push(at)?;
                self.jumps.push(at)?;
            }
            Form::Call => self.calls.push(at)?,
            Form::SwitchOn => self.switches.push(at)?,
            _ => {}
        }
        Ok(())
    }
}

/// The nodes of a section.
#[derive(Drop)]
pub struct Flat {
    /// The nodes in text order, parents before children. The first one is the section.
    pub nodes: Vec<Node>,
    /// The indexes of expressions, and of what gives names their values, children before parents.
    pub valued: Vec<usize>,
    /// The indexes of commands, blocks, items and DEFAULTs, children before parents.
    pub commands: Vec<usize>,
    /// The nodes of some forms.
    pub marks: Marks,
    leaves: usize,
    parent: usize,
    /// Whether an allocation failed. Then the rest is void.
    is_refused: bool,
}

/// Lists the nodes of a section of about `count` nodes. Returns `Memory` if an allocation fails.
pub fn flatten(alloc: Global, section: &Section<'_>, count: usize) -> Result<Flat, Memory> {
    let mut flat = Flat {
        nodes: Vec::with_capacity(alloc, count)?,
        valued: Vec::with_capacity(alloc, count)?,
        commands: Vec::new(alloc),
        marks: Marks::new(alloc),
        leaves: 0,
        parent: 0,
        is_refused: false,
    };
    let at = flat.open(Form::Nothing);
    flat.declarations(&section.declarations);
    flat.close(at);
    if flat.is_refused {
        return Err(Memory);
    }
    Ok(flat)
}

impl Flat {
    /// Adds a node without descendants, with this number of leaves up to its end. Returns its index.
    fn add(&mut self, form: Form, last: usize) -> usize {
        let index = self.nodes.len();
        let node = Node {
            form,
            parent: self.parent,
            first: self.leaves,
            last,
            end: index.saturating_add(1),
        };
        if self.nodes.push(node).is_err() {
            self.is_refused = true;
        }
        index
    }

    /// Begins a node. Returns its index, which `close` needs.
    fn open(&mut self, form: Form) -> usize {
        let leaves = self.leaves;
        let index = self.add(form, leaves);
        self.parent = index;
        index
    }

    /// Ends a node.
    fn close(&mut self, index: usize) {
        let end = self.nodes.len();
        let last = self.leaves;
        let mut parent = 0;
        if let Some(node) = self.nodes.get_mut(index) {
            node.end = end;
            node.last = last;
            parent = node.parent;
        }
        self.parent = parent;
    }

    /// Lists a node as an expression, or as what gives names their values.
    fn list_valued(&mut self, index: usize) {
        if self.valued.push(index).is_err() {
            self.is_refused = true;
        }
    }

    /// Lists a node as a command, block, item or DEFAULT.
    fn list_command(&mut self, index: usize) {
        if self.commands.push(index).is_err() {
            self.is_refused = true;
        }
    }

    /// Lists a node among those of its form.
    fn mark(&mut self, index: usize, form: Form) {
        if self.marks.add(index, form).is_err() {
            self.is_refused = true;
        }
    }

    /// Ends an expression, or what gives names their values.
    fn close_valued(&mut self, index: usize) {
        self.close(index);
        self.list_valued(index);
    }

    /// Ends a command, block, item or DEFAULT.
    fn close_command(&mut self, index: usize) {
        self.close(index);
        self.list_command(index);
    }

    /// Passes a leaf.
    fn leaf(&mut self) {
        self.leaves = self.leaves.saturating_add(1);
    }

    /// Begins a node whose first leaf is a word or name.
    fn begin(&mut self, form: Form) -> usize {
        let at = self.open(form);
        self.leaf();
        at
    }

    /// A node of one leaf. Returns its index.
    fn single(&mut self, form: Form) -> usize {
        let last = self.leaves.saturating_add(1);
        let index = self.add(form, last);
        self.leaf();
        index
    }

    /// An expression of one leaf.
    fn single_valued(&mut self, form: Form) {
        let index = self.single(form);
        self.list_valued(index);
    }

    /// A command of one word.
    fn single_command(&mut self, form: Form) {
        let marked = form;
        let index = self.single(form);
        self.list_command(index);
        self.mark(index, marked);
    }

    /// An expression that is one leaf.
    fn constant(&mut self, e: &Exp<'_>) {
        match e {
            Exp::Name(_) => self.single_valued(Form::Name),
            Exp::Num(word) => self.single_valued(Form::Number(*word)),
            Exp::Character(word) => self.single_valued(Form::Character(*word)),
            Exp::String(_) => self.single_valued(Form::String),
            Exp::True => self.single_valued(Form::True),
            Exp::False => self.single_valued(Form::False),
            _ => {}
        }
    }

    #[cycle(flattening)]
    fn expression(&mut self, e: &Exp<'_>) {
        match e {
            Exp::Table(values) => {
                let at = self.begin(Form::Table);
                self.expressions(values);
                self.close_valued(at);
            }
            Exp::Valof(body) => {
                let at = self.begin(Form::Valof);
                self.block(body);
                self.close(at);
            }
            Exp::Unary(sign, operand) => {
                let at = self.open(Form::Unary(*sign));
                self.expression(operand);
                self.close_valued(at);
            }
            Exp::Bin(sign, left, right) => {
                let at = self.open(Form::Bin(*sign));
                self.expression(left);
                self.expression(right);
                self.close_valued(at);
            }
            Exp::Cond { test, this, that } => {
                let at = self.open(Form::Cond);
                self.expression(test);
                self.expression(this);
                self.expression(that);
                self.close_valued(at);
            }
            Exp::Call(called, values) => {
                let at = self.open(Form::Call);
                self.mark(at, Form::Call);
                self.expression(called);
                self.expressions(values);
                self.close_valued(at);
            }
            _ => self.constant(e),
        }
    }

    #[cycle(flattening)]
    fn expressions(&mut self, list: &[Exp<'_>]) {
        for e in list {
            self.expression(e);
        }
    }

    #[cycle(flattening)]
    fn block(&mut self, tree: &Block<'_>) {
        let at = self.open(Form::Block);
        self.declarations(&tree.declarations);
        self.items(&tree.items);
        self.close_command(at);
    }

    #[cycle(flattening)]
    fn declarations(&mut self, list: &[Declaration<'_>]) {
        for tree in list {
            match tree {
                Declaration::Constants(storage, constants) => self.entries(*storage, constants),
                Declaration::Let(definitions) => self.definitions(definitions),
            }
        }
    }

    #[cycle(flattening)]
    fn entries(&mut self, storage: Storage, list: &[Constant<'_>]) {
        for tree in list {
            let at = self.begin(Form::Entry(storage));
            self.expression(&tree.value);
            self.close_valued(at);
        }
    }

    #[cycle(flattening)]
    fn definitions(&mut self, list: &[Definition<'_>]) {
        let at = self.open(Form::Let);
        for tree in list {
            self.definition(tree);
        }
        self.close(at);
    }

    #[cycle(flattening)]
    fn definition(&mut self, tree: &Definition<'_>) {
        match tree {
            Definition::Variables(names, values) => {
                let at = self.open(Form::Variables);
                self.variables(names);
                self.expressions(values);
                self.close_valued(at);
            }
            Definition::Vector(_, greatest) => {
                let at = self.begin(Form::Vector);
                self.leaf();
                self.expression(greatest);
                self.close_valued(at);
            }
            Definition::Function(_, parameters, value) => {
                let at = self.begin(Form::Function);
                self.parameters(parameters);
                self.expression(value);
                self.close_valued(at);
            }
            Definition::Routine(_, parameters, body) => {
                let at = self.begin(Form::Routine);
                self.parameters(parameters);
                self.block(body);
                self.close(at);
            }
        }
    }

    /// The names of variables.
    fn variables(&mut self, names: &[&[u8]]) {
        for _ in names {
            self.single(Form::Variable);
        }
    }

    /// The names of parameters.
    fn parameters(&mut self, names: &[&[u8]]) {
        for _ in names {
            self.single(Form::Parameter);
        }
    }

    #[cycle(flattening)]
    fn items(&mut self, list: &[Item<'_>]) {
        for item in list {
            let at = self.open(Form::Item);
            for label in &item.labels {
                self.label(label);
            }
            if let Some(command) = &item.command {
                self.command(command);
            }
            self.close_command(at);
        }
    }

    #[cycle(flattening)]
    fn label(&mut self, label: &Label<'_>) {
        match label {
            Label::Case(value) => {
                let at = self.begin(Form::Case);
                self.expression(value);
                self.close(at);
            }
            Label::Default => self.single_command(Form::Default),
            Label::Name(_) => {
                self.single(Form::Label);
            }
        }
    }

    /// A command of one word.
    fn word(&mut self, command: &Command<'_>) {
        match command {
            Command::Break => self.single_command(Form::Break),
            Command::Loop => self.single_command(Form::Loop),
            Command::EndCase => self.single_command(Form::EndCase),
            Command::Return => self.single_command(Form::Return),
            Command::Finish => self.single_command(Form::Finish),
            Command::Goto(_) => {
                let at = self.begin(Form::Goto);
                self.leaf();
                self.close_command(at);
                self.mark(at, Form::Goto);
            }
            _ => {}
        }
    }

    /// A command that contains no others.
    #[cycle(flattening)]
    fn simple(&mut self, command: &Command<'_>) {
        match command {
            Command::Assign(places, values) => {
                let at = self.open(Form::Assign);
                let side = self.open(Form::Places);
                self.expressions(places);
                self.close(side);
                let side = self.open(Form::Values);
                self.expressions(values);
                self.close(side);
                self.close_command(at);
                self.list_valued(at);
            }
            Command::Call(called, values) => {
                let at = self.open(Form::Do);
                let call = self.open(Form::Call);
                self.mark(call, Form::Call);
                self.expression(called);
                self.expressions(values);
                self.close_valued(call);
                self.close_command(at);
            }
            Command::ResultIs(value) => {
                let at = self.begin(Form::ResultIs);
                self.mark(at, Form::ResultIs);
                self.expression(value);
                self.close_command(at);
            }
            _ => self.word(command),
        }
    }

    /// A test and a block.
    #[cycle(flattening)]
    fn guarded(&mut self, command: &Command<'_>) {
        match command {
            Command::If(test, body) => {
                let at = self.open(Form::If);
                self.expression(test);
                self.block(body);
                self.close_command(at);
            }
            Command::Unless(test, body) => {
                let at = self.open(Form::Unless);
                self.expression(test);
                self.block(body);
                self.close_command(at);
            }
            Command::While(test, body) => {
                let at = self.open(Form::While);
                self.expression(test);
                self.block(body);
                self.close_command(at);
            }
            Command::Until(test, body) => {
                let at = self.open(Form::Until);
                self.expression(test);
                self.block(body);
                self.close_command(at);
            }
            _ => self.simple(command),
        }
    }

    /// A loop other than WHILE and UNTIL.
    #[cycle(flattening)]
    fn repeated(&mut self, command: &Command<'_>) {
        match command {
            Command::Repeat(body) => {
                let at = self.open(Form::Repeat);
                self.command(body);
                self.close_command(at);
            }
            Command::RepeatWhile(body, test) => {
                let at = self.open(Form::RepeatWhile);
                self.command(body);
                self.expression(test);
                self.close_command(at);
            }
            Command::RepeatUntil(body, test) => {
                let at = self.open(Form::RepeatUntil);
                self.command(body);
                self.expression(test);
                self.close_command(at);
            }
            _ => self.guarded(command),
        }
    }

    #[cycle(flattening)]
    fn counted(&mut self, command: &Command<'_>) {
        let Command::For {
            variable: _,
            start,
            limit,
            step,
            body,
        } = command
        else {
            return self.repeated(command);
        };
        let at = self.open(Form::For);
        self.single(Form::Variable);
        self.expression(start);
        self.expression(limit);
        if let Some(by) = step {
            self.expression(by);
        }
        self.block(body);
        self.close_command(at);
        self.list_valued(at);
    }

    #[cycle(flattening)]
    fn command(&mut self, command: &Command<'_>) {
        match command {
            Command::Block(body) => self.block(body),
            Command::Test { test, this, that } => {
                let at = self.open(Form::Test);
                self.expression(test);
                self.block(this);
                self.block(that);
                self.close_command(at);
            }
            Command::SwitchOn(of, list) => {
                let at = self.open(Form::SwitchOn);
                self.mark(at, Form::SwitchOn);
                self.expression(of);
                self.items(list);
                self.close_command(at);
            }
            _ => self.counted(command),
        }
    }
}
