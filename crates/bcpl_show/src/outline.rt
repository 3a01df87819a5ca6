//! The steps of a section's code: in which order the roots and the items of commands come, and where the source has
//! them.

use bc_parse_tree::{Command, Definition, Exp, Section, Storage};
use bc_word::Memory;
use bcpl_places::{PartRole, PartVisit, TreePart, visits_of};
use std::alloc::Global;

/// Code that is generated in one step.
#[derive(Clone, Copy)]
pub struct Step {
    /// The leaf where the source has it.
    pub leaf: usize,
    /// What is generated.
    pub work: Work,
}

/// Which leaves a root is translated from, for a reader who wants to know which text a node comes from.
#[derive(Clone, Copy)]
pub struct RootLeaves {
    /// The leaf at which the value of an assignment, or any other root as a whole, begins.
    pub value: usize,
    /// The leaf at which the address of an assignment begins, if the source has it.
    pub address: Option<usize>,
    /// Whether the source spells the value. It doesn't for a vector and for the test and the step of a FOR loop; then
    /// only the loop's variable is in the source.
    pub is_written: bool,
}

/// A root, or items of a command itself.
#[derive(Clone, Copy)]
pub enum Work {
    /// The code of a root.
    Root(RootLeaves),
    /// This many items for this purpose.
    Own(usize, Purpose),
}

/// The purpose of items that belong to a command itself.
#[derive(Clone, Copy)]
pub enum Purpose {
    /// The label of a routine.
    Routine,
    /// The return at the end of a routine.
    End,
    /// The label after a VALOF's body.
    Valof,
    /// The label where an iteration of a loop starts.
    Turn,
    /// The label that LOOP jumps to.
    Onward,
    /// The jump back to the start of a loop, and the label that BREAK jumps to.
    Back,
    /// The label that BREAK jumps to.
    After,
    /// The label after a choice.
    Join,
    /// The jump past ELSE, and its label.
    Past,
    /// The values of a switch, with their labels.
    Switch,
    /// The label that ENDCASE jumps to.
    Switched,
    /// A label of the source, a CASE or DEFAULT.
    Label,
    /// BREAK.
    Break,
    /// LOOP.
    Loop,
    /// ENDCASE.
    EndCase,
    /// GOTO.
    Goto,
    /// RESULTIS.
    ResultIs,
    /// RETURN.
    Return,
    /// FINISH.
    Finish,
}

/// The descriptions of the purposes, in order.
const WORDS: [&str; 19] = [
    "routine",
    "return at the end",
    "end of the VALOF",
    "the loop starts here",
    "LOOP jumps here",
    "jump back; BREAK jumps past it",
    "BREAK jumps here",
    "continues here",
    "jump past ELSE",
    "switch",
    "ENDCASE jumps here",
    "label",
    "BREAK",
    "LOOP",
    "ENDCASE",
    "GOTO",
    "RESULTIS",
    "RETURN",
    "FINISH",
];

impl Purpose {
    /// The description for listings.
    pub fn words(self) -> &'static str {
        WORDS.get(self as usize).copied().unwrap_or("")
    }
}

/// The steps of a section.
#[derive(Drop)]
pub struct Outline {
    alloc: Global,
    /// The steps of each body. Routines and VALOFs have one.
    pub bodies: Vec<Vec<Step>>,
    /// The bodies of the routines, in text order.
    pub routines: Vec<usize>,
    /// The bodies of the VALOFs, by number.
    pub valofs: Vec<usize>,
    /// The leaf of each place: the name of a routine or static, the word TABLE, or a string.
    pub places: Vec<usize>,
    /// For each TABLE and VALOF, its first leaf and the leaf after it, in the order in which they end.
    pub extents: Vec<(usize, usize)>,
    /// The bodies that the walk is in, innermost last.
    open: Vec<usize>,
    /// Whether an allocation failed. Then the outline is void.
    is_refused: bool,
}

impl Outline {
    /// The steps of a section. `Memory` if an allocation fails.
    pub fn new(alloc: Global, section: &Section<'_>) -> Result<Outline, Memory> {
        let visits = visits_of(alloc, section)?;
        let mut outline = Outline {
            alloc,
            bodies: Vec::new(alloc),
            routines: Vec::new(alloc),
            valofs: Vec::new(alloc),
            places: Vec::new(alloc),
            extents: Vec::new(alloc),
            open: Vec::new(alloc),
            is_refused: false,
        };
        let _outside = outline.enter();
        for visit in &visits {
            if visit.is_end {
                outline.end(*visit);
            } else {
                outline.begin(*visit);
            }
        }
        if outline.is_refused {
            return Err(Memory);
        }
        Ok(outline)
    }

    /// Notes whether an allocation failed.
    fn note(&mut self, is_refused: bool) {
        if is_refused {
            self.is_refused = true;
        }
    }

    /// Enters a new body and returns its index.
    fn enter(&mut self) -> usize {
        let body = self.bodies.len();
        let is_refused = self.bodies.push(Vec::new(self.alloc)).is_err();
        self.note(is_refused);
        let is_refused = self.open.push(body).is_err();
        self.note(is_refused);
        body
    }

    /// Leaves the current body.
    fn leave(&mut self) {
        let _body = self.open.pop();
    }

    /// The index of the current body.
    fn current(&self) -> usize {
        self.open.last().copied().unwrap_or(0)
    }

    /// Adds a step to the current body.
    fn step(&mut self, leaf: usize, work: Work) {
        let body = self.current();
        if let Some(steps) = self.bodies.get_mut(body) {
            let is_refused = steps.push(Step { leaf, work }).is_err();
            self.note(is_refused);
        }
    }

    /// Adds items of a command itself, which the source has at this leaf.
    fn own(&mut self, leaf: usize, count: usize, what: Purpose) {
        self.step(leaf, Work::Own(count, what));
    }

    /// Adds a root at this leaf that isn't an assignment, or assigns to the cell of the name at `address`.
    fn root(&mut self, leaf: usize, address: Option<usize>) {
        let reading = RootLeaves {
            value: leaf,
            address,
            is_written: true,
        };
        self.step(leaf, Work::Root(reading));
    }

    /// Adds an assignment to the cell of the name at this leaf. `value` is the leaf of what its value is about.
    fn assignment(&mut self, leaf: usize, value: usize, is_written: bool) {
        let reading = RootLeaves {
            value,
            address: Some(leaf),
            is_written,
        };
        self.step(leaf, Work::Root(reading));
    }

    /// Sets where the value of an assignment begins. Its root is one of the last `remaining` steps, the first of them.
    fn value_begins(&mut self, remaining: usize, value: usize) {
        let body = self.current();
        let Some(steps) = self.bodies.get_mut(body) else {
            return;
        };
        let index = steps.len().saturating_sub(remaining);
        if let Some(step) = steps.get_mut(index) {
            if let Work::Root(reading) = &mut step.work {
                reading.value = value;
            }
        }
    }

    /// Adds the leaf of a place.
    fn place(&mut self, leaf: usize) {
        let is_refused = self.places.push(leaf).is_err();
        self.note(is_refused);
    }

    /// Records a TABLE or VALOF that ends here.
    fn extent(&mut self, visit: PartVisit<'_, '_>) {
        let is_refused = self.extents.push((visit.first, visit.leaves)).is_err();
        self.note(is_refused);
    }

    /// Begins a part.
    fn begin(&mut self, visit: PartVisit<'_, '_>) {
        let first = visit.first;
        self.begin_role(first, visit.role);
        match visit.part {
            TreePart::Expression(e) => self.begin_expression(first, e),
            TreePart::Command(command) => self.begin_command(first, command),
            TreePart::Label(_) => self.own(first, 1, Purpose::Label),
            TreePart::Constant(Storage::Static, _) => self.place(first),
            TreePart::Definition(definition) => self.begin_definition(first, definition),
            TreePart::Constant(_, _) | TreePart::Block | TreePart::Constants(_) | TreePart::Let =>
                {}
        }
    }

    /// Ends a part.
    fn end(&mut self, visit: PartVisit<'_, '_>) {
        let last = visit.leaves.saturating_sub(1);
        match visit.part {
            TreePart::Expression(e) => self.end_expression(visit, e),
            TreePart::Command(command) => self.end_command(visit, command),
            TreePart::Definition(definition) => self.end_definition(last, definition),
            _ => {}
        }
        self.end_role(last, visit.role);
    }

    /// Adds the root that a part at this leaf is, by its role.
    fn begin_role(&mut self, first: usize, role: PartRole) {
        match role {
            PartRole::Whole | PartRole::Switched(_) | PartRole::Limit(_) => self.root(first, None),
            PartRole::Again => {
                self.own(first.saturating_sub(1), 1, Purpose::Onward);
                self.root(first, None);
            }
            PartRole::Initial(name) => self.root(first, Some(name)),
            PartRole::Address => self.root(first, Some(first)),
            PartRole::Assigned(remaining) => self.value_begins(remaining, first),
            PartRole::Plain | PartRole::Then | PartRole::Else | PartRole::Do | PartRole::Alone => {}
        }
    }

    /// Adds what follows a part that ends with this leaf, by its role.
    fn end_role(&mut self, last: usize, role: PartRole) {
        match role {
            PartRole::Switched(cases) => {
                let items = cases.saturating_mul(2).saturating_add(3);
                self.own(last, items, Purpose::Switch);
            }
            PartRole::Limit(variable) => {
                self.own(last, 1, Purpose::Turn);
                self.assignment(variable, variable, false);
            }
            PartRole::Then => self.own(last, 2, Purpose::Past),
            _ => {}
        }
    }

    /// Begins an expression.
    fn begin_expression(&mut self, first: usize, e: &Exp<'_>) {
        match e {
            Exp::String(_) | Exp::Table(_) => self.place(first),
            Exp::Valof(_) => {
                let body = self.enter();
                let is_refused = self.valofs.push(body).is_err();
                self.note(is_refused);
            }
            _ => {}
        }
    }

    /// Ends an expression.
    fn end_expression(&mut self, visit: PartVisit<'_, '_>, e: &Exp<'_>) {
        match e {
            Exp::Table(_) => self.extent(visit),
            Exp::Valof(_) => {
                self.own(visit.leaves.saturating_sub(1), 1, Purpose::Valof);
                self.leave();
                self.extent(visit);
            }
            _ => {}
        }
    }

    /// Begins a definition. The root of a vector isn't in the source.
    fn begin_definition(&mut self, first: usize, definition: &Definition<'_>) {
        match definition {
            Definition::Variables(_, _) => {}
            Definition::Vector(_, _) => self.assignment(first, first.saturating_add(1), false),
            Definition::Function(_, _, _) | Definition::Routine(_, _, _) => {
                let body = self.enter();
                let is_refused = self.routines.push(body).is_err();
                self.note(is_refused);
                self.place(first);
                self.own(first, 1, Purpose::Routine);
            }
        }
    }

    /// Ends a definition whose last leaf is `last`.
    fn end_definition(&mut self, last: usize, definition: &Definition<'_>) {
        match definition {
            Definition::Variables(_, _) | Definition::Vector(_, _) => {}
            Definition::Function(_, _, _) => {
                self.own(last, 1, Purpose::End);
                self.leave();
            }
            Definition::Routine(_, _, _) => {
                self.own(last, 2, Purpose::End);
                self.leave();
            }
        }
    }

    /// Begins a command. The root of a FOR is in the source: it is its variable and the first value.
    fn begin_command(&mut self, first: usize, command: &Command<'_>) {
        match command {
            Command::Call(_, _) => self.root(first, None),
            Command::Break => self.own(first, 1, Purpose::Break),
            Command::Loop => self.own(first, 1, Purpose::Loop),
            Command::EndCase => self.own(first, 1, Purpose::EndCase),
            Command::Return => self.own(first, 2, Purpose::Return),
            Command::Finish => self.own(first, 1, Purpose::Finish),
            Command::Goto(_) => self.own(first.saturating_add(1), 1, Purpose::Goto),
            Command::While(_, _)
            | Command::Until(_, _)
            | Command::Repeat(_)
            | Command::RepeatWhile(_, _)
            | Command::RepeatUntil(_, _) => self.own(first, 1, Purpose::Turn),
            Command::For { .. } => self.assignment(first, first.saturating_add(1), true),
            _ => {}
        }
    }

    /// Ends a command.
    fn end_command(&mut self, visit: PartVisit<'_, '_>, command: &Command<'_>) {
        let last = visit.leaves.saturating_sub(1);
        match command {
            Command::ResultIs(_) => self.own(last, 1, Purpose::ResultIs),
            Command::If(_, _) | Command::Unless(_, _) | Command::Test { .. } => {
                self.own(last, 1, Purpose::Join);
            }
            Command::While(_, _) | Command::Until(_, _) | Command::Repeat(_) => {
                self.own(last, 2, Purpose::Back);
            }
            Command::RepeatWhile(_, _) | Command::RepeatUntil(_, _) => {
                self.own(last, 1, Purpose::After);
            }
            Command::SwitchOn(_, _) => self.own(last, 1, Purpose::Switched),
            Command::For { .. } => self.turned(visit.first),
            _ => {}
        }
    }

    /// Adds the end of a FOR. `variable` is the leaf of its variable.
    fn turned(&mut self, variable: usize) {
        self.own(variable, 1, Purpose::Onward);
        self.assignment(variable, variable, false);
        self.own(variable, 2, Purpose::Back);
    }
}
