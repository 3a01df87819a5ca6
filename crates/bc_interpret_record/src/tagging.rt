//! A copy of a section in which each command can be seen as it is begun.
//!
//! In the copy each command, and each LET with initial values, has a label to which nothing jumps. Its number, the *tag*, says which command it
//! is. The tag of a command follows it in its list; that of the last command is the first item of its list. So the two innermost continuations
//! show the tag of a command that is begun. A pure assignment is performed by the step that goes on with its list, which pushes no continuation
//! for it. So its tag precedes it where the items begin with which that step goes on: after the tag of the command before, and at the beginning
//! of a body. Anywhere else an assignment is in a block of its own.
//!
//! The meaning is the same: such a block declares nothing, and a label to which nothing jumps does nothing. `record_run` compares the two runs.

use crate::site::{InBody, StopKind, StopSite};
use bc_core::{
    Block, Body, Command, Condition, CoreExp, Declaration, ListItem, Place, Routine, Valof,
    Variable, copy_expression,
};
use bc_interpret_steps::{ExitRest, Rest};
use bc_word::{Memory, Word};
use std::alloc::Global;

/// The tag of site 0. Those of the others are below it. The labels of a section are numbered from 0 on.
const FIRST_TAG: u16 = 65535;

/// The greatest number of sites of a program. Commands after them can't be stopped at.
const MOST_SITES: usize = 40_000;

/// The site of a tag. That of another label isn't the number of a site.
fn site_of(tag: u16) -> u32 {
    u32::from(FIRST_TAG - tag)
}

/// The site of the command whose continuation is `rest`, above `below`; `None` if it has no tag.
pub(crate) fn site_begun(rest: &Rest<'_>, below: &Rest<'_>) -> Option<u32> {
    let Rest::Exit(ExitRest::Follows(_, following)) = rest else {
        return None;
    };
    match following {
        [ListItem::Label(tag), ..] => Some(site_of(*tag)),
        [] => site_of_last(below),
        _ => None,
    }
}

/// The site of the last command of the list whose continuation this is; `None` if it has no tag.
fn site_of_last(rest: &Rest<'_>) -> Option<u32> {
    let Rest::Exit(ExitRest::Listed(_, items)) = rest else {
        return None;
    };
    match items {
        [ListItem::Label(tag), ListItem::Label(own), ..] if tag == own => None,
        [ListItem::Label(tag), ..] => Some(site_of(*tag)),
        _ => None,
    }
}

/// The site of the assignment with which these items of a list begin, after a tag; `None` if they begin otherwise.
pub(crate) fn site_next(items: &[ListItem]) -> Option<u32> {
    match items {
        [
            ListItem::Label(_),
            ListItem::Label(tag),
            ListItem::Command(_),
            ..
        ] => Some(site_of(*tag)),
        _ => None,
    }
}

/// A section with tags.
#[derive(Drop)]
pub(crate) struct TaggedSection {
    /// Its places.
    pub places: Vec<Place>,
    /// Its VALOFs.
    pub valofs: Vec<Valof>,
}

/// A block without declarations.
fn bare(alloc: Global, list: Vec<ListItem>) -> Block {
    Block {
        declarations: Vec::new(alloc),
        list,
    }
}

/// A command in a block of its own.
fn alone(alloc: Global, command: Command) -> Result<Command, Memory> {
    let mut list = Vec::new(alloc);
    list.push(ListItem::Command(command))?;
    Ok(Command::Nested(bare(alloc, list)))
}

/// Whether an assignment of this value is always begun by a step of its own.
fn is_call(value: &CoreExp) -> bool {
    matches!(value, CoreExp::Call(_, _) | CoreExp::Valof(_))
}

/// A copy of a condition.
fn condition_of(alloc: Global, condition: &Condition) -> Result<Condition, Memory> {
    Ok(Condition {
        sense: condition.sense,
        test: copy_expression(alloc, &condition.test)?,
    })
}

/// A copy of a declaration.
fn declaration_of(alloc: Global, declaration: &Declaration) -> Result<Declaration, Memory> {
    let mut variables = Vec::new(alloc);
    for variable in &declaration.variables {
        variables.push(match variable {
            Variable::Value(e) => Variable::Value(copy_expression(alloc, e)?),
            Variable::Vector(greatest) => Variable::Vector(*greatest),
        })?;
    }
    Ok(Declaration { variables })
}

/// The number of initial values of a declaration.
fn values_of(declaration: &Declaration) -> u64 {
    let mut values = 0u64;
    for variable in &declaration.variables {
        if matches!(variable, Variable::Value(_)) {
            values = values.saturating_add(1);
        }
    }
    values
}

/// Copies sections and numbers their sites.
#[derive(Drop)]
pub(crate) struct Tagger {
    alloc: Global,
    /// The sites, by number.
    pub sites: Vec<StopSite>,
    section: usize,
    body: InBody,
    roots: u64,
    skipped: u64,
    /// Whether the item before in the list is the tag of the command before.
    follows_tag: bool,
    /// Whether the list is that of a body without declarations. Only known until its first command has been appended.
    begins_body: bool,
}

impl Tagger {
    /// A tagger without sites.
    pub fn new(alloc: Global) -> Tagger {
        Tagger {
            alloc,
            sites: Vec::new(alloc),
            section: 0,
            body: InBody::Routine(0),
            roots: 0,
            skipped: 0,
            follows_tag: false,
            begins_body: false,
        }
    }

    /// Enters a body.
    fn begin(&mut self, body: InBody) {
        self.body = body;
        self.roots = 0;
        self.skipped = 0;
    }

    /// Adds the site of what comes next, and returns its number.
    fn site(&mut self, kind: StopKind) -> Result<usize, Memory> {
        let number = self.sites.len();
        self.sites.push(StopSite {
            section: self.section,
            body: self.body,
            kind,
            root: self.roots,
            skipped: self.skipped,
        })?;
        Ok(number)
    }

    /// Adds the site of what comes next, and returns its tag; `None` if there are too many.
    fn tag(&mut self, kind: StopKind) -> Result<Option<u16>, Memory> {
        if self.sites.len() >= MOST_SITES {
            return Ok(None);
        }
        let number = self.site(kind)?;
        match u16::try_from(number) {
            Ok(number) => Ok(Some(FIRST_TAG - number)),
            Err(_) => Ok(None),
        }
    }

    /// Passes so many roots.
    fn pass(&mut self, roots: u64) {
        self.roots = self.roots.saturating_add(roots);
        self.skipped = 0;
    }

    /// Appends a command, and its tag after it.
    fn add(
        &mut self,
        tag: Option<u16>,
        command: Command,
        list: &mut Vec<ListItem>,
    ) -> Result<(), Memory> {
        list.push(ListItem::Command(command))?;
        self.follows_tag = tag.is_some();
        if let Some(tag) = tag {
            list.push(ListItem::Label(tag))?;
        }
        Ok(())
    }

    /// Appends a command, and its tag before it, after another tag.
    fn add_after(
        &mut self,
        tag: u16,
        command: Command,
        list: &mut Vec<ListItem>,
    ) -> Result<(), Memory> {
        if !self.follows_tag {
            list.push(ListItem::Label(tag))?;
        }
        list.push(ListItem::Label(tag))?;
        list.push(ListItem::Command(command))?;
        self.follows_tag = false;
        Ok(())
    }

    /// A list of one command with its tag.
    fn only(&self, tag: Option<u16>, command: Command) -> Result<Vec<ListItem>, Memory> {
        let mut list = Vec::new(self.alloc);
        if let Some(tag) = tag {
            list.push(ListItem::Label(tag))?;
        }
        list.push(ListItem::Command(command))?;
        Ok(list)
    }

    /// The tags of declarations; `None` for one without initial values.
    fn tags_of(&mut self, declarations: &[Declaration]) -> Result<Vec<Option<u16>>, Memory> {
        let mut tags = Vec::new(self.alloc);
        for declaration in declarations {
            let values = values_of(declaration);
            let tag = if values == 0 {
                None
            } else {
                self.tag(StopKind::Let)?
            };
            self.pass(values);
            tags.push(tag)?;
        }
        Ok(tags)
    }

    /// A block with these declarations, each in a block of its own, around a list.
    fn declared(
        &self,
        declarations: &[Declaration],
        tags: &[Option<u16>],
        list: Vec<ListItem>,
    ) -> Result<Block, Memory> {
        let mut inner = list;
        let mut left = declarations;
        let mut left_tags = tags;
        while let Some((declaration, before)) = left.split_last() {
            let Some((tag, tags_before)) = left_tags.split_last() else {
                return Ok(bare(self.alloc, inner));
            };
            let mut declarations = Vec::new(self.alloc);
            declarations.push(declaration_of(self.alloc, declaration)?)?;
            let block = Block {
                declarations,
                list: inner,
            };
            inner = self.only(*tag, Command::Nested(block))?;
            left = before;
            left_tags = tags_before;
        }
        Ok(bare(self.alloc, inner))
    }

    /// A block with tags.
    #[cycle(tagging)]
    fn block(&mut self, block: &Block) -> Result<Block, Memory> {
        let tags = self.tags_of(&block.declarations)?;
        let list = self.items(&block.list, false)?;
        self.declared(&block.declarations, tags.as_slice(), list)
    }

    /// The body of an IF, TEST, WHILE or FOR with tags.
    #[cycle(tagging)]
    fn body(&mut self, block: &Block) -> Result<Block, Memory> {
        if !block.declarations.is_empty() {
            return self.block(block);
        }
        let list = self.items(&block.list, true)?;
        Ok(bare(self.alloc, list))
    }

    /// A list with tags. If `is_body`, it is that of a body without declarations.
    #[cycle(tagging)]
    fn items(&mut self, items: &[ListItem], is_body: bool) -> Result<Vec<ListItem>, Memory> {
        let mut list = Vec::new(self.alloc);
        self.follows_tag = false;
        self.begins_body = is_body;
        for item in items {
            self.item(item, &mut list)?;
        }
        self.tag_last(&mut list)?;
        Ok(list)
    }

    /// Puts the tag of the last command, if it has one after it, before the first item, or in place of a first tag that is repeated.
    fn tag_last(&self, list: &mut Vec<ListItem>) -> Result<(), Memory> {
        if !self.follows_tag {
            return Ok(());
        }
        let Some(tag) = list.pop() else {
            return Ok(());
        };
        if let [ListItem::Label(first), ListItem::Label(second), ..] = list.as_slice()
            && first == second
            && let Some(place) = list.first_mut()
        {
            *place = tag;
            return Ok(());
        }
        list.insert(0, tag)?;
        Ok(())
    }

    /// Appends an item with its tags.
    #[cycle(tagging)]
    fn item(&mut self, item: &ListItem, list: &mut Vec<ListItem>) -> Result<(), Memory> {
        let entry = match item {
            ListItem::Command(command) => return self.command(command, list),
            ListItem::Case(word) => ListItem::Case(*word),
            ListItem::Default => ListItem::Default,
            ListItem::Label(label) => ListItem::Label(*label),
        };
        self.follows_tag = false;
        list.push(entry)?;
        Ok(())
    }

    /// Appends a command without a root.
    fn plain(
        &mut self,
        kind: StopKind,
        command: Command,
        list: &mut Vec<ListItem>,
    ) -> Result<(), Memory> {
        let tag = self.tag(kind)?;
        self.skipped = self.skipped.saturating_add(1);
        self.add(tag, command, list)
    }

    /// Appends a command of one root and no blocks.
    fn simple(
        &mut self,
        kind: StopKind,
        command: Command,
        list: &mut Vec<ListItem>,
    ) -> Result<(), Memory> {
        let tag = self.tag_of_root(kind)?;
        self.add(tag, command, list)
    }

    /// Appends an assignment.
    fn assignment(
        &mut self,
        value: &CoreExp,
        address: &CoreExp,
        list: &mut Vec<ListItem>,
    ) -> Result<(), Memory> {
        let alloc = self.alloc;
        let command = Command::Assign {
            value: copy_expression(alloc, value)?,
            address: copy_expression(alloc, address)?,
        };
        let tag = self.tag(StopKind::Assign)?;
        self.pass(1);
        let begins_body = self.begins_body && list.is_empty();
        match tag {
            Some(tag) if self.follows_tag || begins_body => self.add_after(tag, command, list),
            Some(tag) if !is_call(value) => self.add(Some(tag), alone(alloc, command)?, list),
            _ => self.add(tag, command, list),
        }
    }

    /// Adds the site of what comes next, which has one root, and returns its tag; `None` if there are too many.
    fn tag_of_root(&mut self, kind: StopKind) -> Result<Option<u16>, Memory> {
        let tag = self.tag(kind)?;
        self.pass(1);
        Ok(tag)
    }

    /// Appends a call.
    fn call(&mut self, call: &CoreExp, list: &mut Vec<ListItem>) -> Result<(), Memory> {
        let call = copy_expression(self.alloc, call)?;
        self.simple(StopKind::Call, Command::Call(call), list)
    }

    /// Appends a RESULTIS.
    fn result(&mut self, value: &CoreExp, list: &mut Vec<ListItem>) -> Result<(), Memory> {
        let value = copy_expression(self.alloc, value)?;
        self.simple(StopKind::ResultIs, Command::ResultIs(value), list)
    }

    /// Appends a SWITCHON with this body.
    fn add_switch(
        &mut self,
        tag: Option<u16>,
        value: &CoreExp,
        items: Result<Vec<ListItem>, Memory>,
        list: &mut Vec<ListItem>,
    ) -> Result<(), Memory> {
        let items = items?;
        let value = copy_expression(self.alloc, value)?;
        self.add(tag, Command::SwitchOn(value, items), list)
    }

    /// Appends a block with its tags.
    fn add_nested(
        &mut self,
        block: Result<Block, Memory>,
        list: &mut Vec<ListItem>,
    ) -> Result<(), Memory> {
        self.add(None, Command::Nested(block?), list)
    }

    /// Appends an IF or UNLESS with this body.
    fn add_if(
        &mut self,
        tag: Option<u16>,
        condition: &Condition,
        body: Result<Block, Memory>,
        list: &mut Vec<ListItem>,
    ) -> Result<(), Memory> {
        let body = body?;
        let condition = condition_of(self.alloc, condition)?;
        self.add(tag, Command::If(condition, body), list)
    }

    /// Appends a TEST with these bodies.
    fn add_test(
        &mut self,
        tag: Option<u16>,
        test: &CoreExp,
        bodies: (Result<Block, Memory>, Result<Block, Memory>),
        list: &mut Vec<ListItem>,
    ) -> Result<(), Memory> {
        let (this, that) = bodies;
        let this = this?;
        let that = that?;
        let test = copy_expression(self.alloc, test)?;
        self.add(tag, Command::Test(test, this, that), list)
    }

    /// Appends a WHILE or UNTIL with this body.
    fn add_while(
        &mut self,
        tag: Option<u16>,
        condition: &Condition,
        body: Result<Block, Memory>,
        list: &mut Vec<ListItem>,
    ) -> Result<(), Memory> {
        let body = body?;
        let condition = condition_of(self.alloc, condition)?;
        self.add(tag, Command::While(condition, body), list)
    }

    /// Appends a REPEAT with this body.
    fn add_repeat(
        &mut self,
        body: Result<Block, Memory>,
        list: &mut Vec<ListItem>,
    ) -> Result<(), Memory> {
        self.add(None, Command::Repeat(body?), list)
    }

    /// Appends a REPEATWHILE or REPEATUNTIL with this body.
    fn add_repeat_while(
        &mut self,
        condition: &Condition,
        body: Result<Block, Memory>,
        list: &mut Vec<ListItem>,
    ) -> Result<(), Memory> {
        let body = body?;
        let tag = self.tag_of_root(StopKind::Repeat)?;
        let condition = condition_of(self.alloc, condition)?;
        self.add(tag, Command::RepeatWhile(body, condition), list)
    }

    /// Appends a FOR with this body.
    fn add_for(
        &mut self,
        tag: Option<u16>,
        range: (&CoreExp, &CoreExp, Word),
        body: Result<Block, Memory>,
        list: &mut Vec<ListItem>,
    ) -> Result<(), Memory> {
        let (start, limit, by) = range;
        let body = body?;
        let start = copy_expression(self.alloc, start)?;
        let limit = copy_expression(self.alloc, limit)?;
        let command = Command::For {
            start,
            limit,
            by,
            body,
        };
        self.add(tag, command, list)
    }

    /// Appends a command with its tags.
    #[cycle(tagging)]
    fn command(&mut self, command: &Command, list: &mut Vec<ListItem>) -> Result<(), Memory> {
        match command {
            Command::Call(call) => self.call(call, list),
            Command::Assign { value, address } => self.assignment(value, address, list),
            Command::ResultIs(value) => self.result(value, list),
            Command::If(_, _) | Command::Test(_, _, _) | Command::While(_, _) => {
                self.conditional(command, list)
            }
            Command::Repeat(_) | Command::RepeatWhile(_, _) | Command::For { .. } => {
                self.looped(command, list)
            }
            Command::SwitchOn(value, items) => {
                let tag = self.tag_of_root(StopKind::Switch)?;
                let items = self.items(items, false);
                self.add_switch(tag, value, items, list)
            }
            Command::Nested(block) => {
                let block = self.block(block);
                self.add_nested(block, list)
            }
            Command::Break => self.plain(StopKind::Break, Command::Break, list),
            Command::Loop => self.plain(StopKind::Loop, Command::Loop, list),
            Command::EndCase => self.plain(StopKind::EndCase, Command::EndCase, list),
            Command::Return => self.plain(StopKind::Return, Command::Return, list),
            Command::Finish => self.plain(StopKind::Finish, Command::Finish, list),
            Command::Goto(label) => self.plain(StopKind::Goto, Command::Goto(*label), list),
        }
    }

    /// Appends an IF, TEST or WHILE with its tags; nothing for another command, which doesn't occur.
    #[cycle(tagging)]
    fn conditional(&mut self, command: &Command, list: &mut Vec<ListItem>) -> Result<(), Memory> {
        match command {
            Command::If(condition, body) => {
                let tag = self.tag_of_root(StopKind::If)?;
                let body = self.body(body);
                self.add_if(tag, condition, body, list)
            }
            Command::Test(test, this, that) => {
                let tag = self.tag_of_root(StopKind::Test)?;
                let this = self.body(this);
                let that = self.body(that);
                self.add_test(tag, test, (this, that), list)
            }
            Command::While(condition, body) => {
                let tag = self.tag_of_root(StopKind::While)?;
                let body = self.body(body);
                self.add_while(tag, condition, body, list)
            }
            _ => Ok(()),
        }
    }

    /// Appends a REPEAT, REPEATWHILE or FOR with its tags; nothing for another command, which doesn't occur.
    #[cycle(tagging)]
    fn looped(&mut self, command: &Command, list: &mut Vec<ListItem>) -> Result<(), Memory> {
        match command {
            Command::Repeat(body) => {
                let body = self.block(body);
                self.add_repeat(body, list)
            }
            Command::RepeatWhile(body, condition) => {
                let body = self.block(body);
                self.add_repeat_while(condition, body, list)
            }
            Command::For {
                start,
                limit,
                by,
                body,
            } => {
                let tag = self.tag(StopKind::For)?;
                self.pass(2);
                let body = self.body(body);
                self.add_for(tag, (start, limit, *by), body, list)
            }
            _ => Ok(()),
        }
    }

    /// A routine with its tags.
    fn routine(&mut self, routine: &Routine) -> Result<Routine, Memory> {
        let body = match &routine.body {
            Body::Value(e) => {
                let _site = self.site(StopKind::Body)?;
                Body::Value(copy_expression(self.alloc, e)?)
            }
            Body::Commands(block) => Body::Commands(self.block(block)?),
        };
        Ok(Routine {
            global: routine.global,
            parameters: routine.parameters,
            body,
        })
    }

    /// A place with its tags.
    fn place(&mut self, place: &Place) -> Result<Place, Memory> {
        match place {
            Place::Routine(routine) => Ok(Place::Routine(self.routine(routine)?)),
            Place::Static(word) => Ok(Place::Static(*word)),
            Place::Table(words) => {
                let mut copy = Vec::new(self.alloc);
                for word in words {
                    copy.push(*word)?;
                }
                Ok(Place::Table(copy))
            }
            Place::Text(bytes) => {
                let mut copy = Vec::new(self.alloc);
                copy.extend_from_slice(bytes)?;
                Ok(Place::Text(copy))
            }
        }
    }

    /// A section with tags. `Memory` if an allocation fails.
    pub fn section(
        &mut self,
        index: usize,
        places: &[Place],
        valofs: &[Valof],
    ) -> Result<TaggedSection, Memory> {
        self.section = index;
        let mut new_places = Vec::new(self.alloc);
        let mut label = 1u64;
        for place in places {
            self.begin(InBody::Routine(label));
            new_places.push(self.place(place)?)?;
            label = label.saturating_add(1);
        }
        let mut new_valofs = Vec::new(self.alloc);
        let mut number = 0u64;
        for valof in valofs {
            self.begin(InBody::Valof(number));
            new_valofs.push(Valof {
                level: valof.level,
                body: self.block(&valof.body)?,
            })?;
            number = number.saturating_add(1);
        }
        Ok(TaggedSection {
            places: new_places,
            valofs: new_valofs,
        })
    }
}
