//! The owner of each item of a segment: a root, a command or the section.

use crate::outline::{Outline, Purpose, RootLeaves, Step, Work};
use bc_rules::code_of;
use bc_rules_defs::{Entry, Piece};
use bc_word::Memory;
use std::alloc::Global;

/// The owner of an item.
#[derive(Clone, Copy, PartialEq, Eq)]
pub enum Owner {
    /// The root of the entry with this index.
    Root(usize),
    /// A command. This is an index into `Marks::own`.
    Command(usize),
    /// The section itself, for data and for globals that are set.
    Section,
}

/// A run of items that belong to a command itself.
#[derive(Clone, Copy)]
pub struct Own {
    /// The leaf where the source has the command.
    pub leaf: usize,
    /// The number of items.
    pub count: usize,
    /// What the items do.
    pub what: Purpose,
}

/// The owners of the items of a segment.
#[derive(Drop)]
pub struct Marks {
    /// The owner of each item.
    pub owners: Vec<Owner>,
    /// The leaf of each entry.
    pub leaves: Vec<usize>,
    /// The leaves that each entry's root is translated from.
    pub readings: Vec<RootLeaves>,
    /// The runs of items that belong to commands, in the order of the code.
    pub own: Vec<Own>,
}

/// What a root's code contains.
#[derive(Drop)]
struct Inside {
    /// The numbers of its VALOFs, in the order of the code.
    valofs: Vec<u64>,
}

impl Inside {
    /// Adds a VALOF. Returns the number of items in its body.
    fn add(&mut self, entry: &Entry, number: u64) -> Result<u64, Memory> {
        let count = count_at(entry, self.valofs.len());
        self.valofs.push(number)?;
        Ok(count)
    }
}

/// A position in the steps of a body.
#[derive(Clone, Copy)]
struct Cursor {
    body: usize,
    next: usize,
}

/// Makes `owner` the owner of the item with this index.
fn own_item(owners: &mut Vec<Owner>, at: u64, owner: Owner) {
    if let Some(cell) = owners.get_mut(at as usize) {
        *cell = owner;
    }
}

/// The number of items in the body of the root's VALOF with this index.
fn count_at(entry: &Entry, index: usize) -> u64 {
    match entry.bodies.get(index) {
        Some(count) => *count,
        None => 0,
    }
}

/// Makes a root the owner of its items. Returns what its code contains.
fn own_items(
    alloc: Global,
    owners: &mut Vec<Owner>,
    index: usize,
    entry: &Entry,
) -> Result<Inside, Memory> {
    let pieces = code_of(
        alloc,
        &entry.root,
        &entry.derivation,
        entry.target,
        entry.first,
    )?;
    let mut inside = Inside {
        valofs: Vec::new(alloc),
    };
    let mut at = entry.item;
    for piece in &pieces {
        at = match piece {
            Piece::Item(_) => {
                own_item(owners, at, Owner::Root(index));
                at.saturating_add(1)
            }
            Piece::Body(number) => at.saturating_add(inside.add(entry, *number)?),
        };
    }
    Ok(inside)
}

/// The number of steps and bodies.
fn count_of(outline: &Outline) -> usize {
    let mut count: usize = outline.bodies.len().saturating_add(1);
    for body in &outline.bodies {
        count = count.saturating_add(body.len());
    }
    count
}

/// The step at a position.
fn step_at(outline: &Outline, cursor: Cursor) -> Option<Step> {
    match outline.bodies.get(cursor.body) {
        Some(steps) => steps.get(cursor.next).copied(),
        None => None,
    }
}

/// Gives the items without a root to the commands, in order.
fn share(owners: &mut [Owner], steps: &[Own]) {
    let mut step: usize = 0;
    let mut taken: usize = 0;
    for owner in owners {
        if matches!(owner, Owner::Section) {
            if let Some(own) = steps.get(step) {
                *owner = Owner::Command(step);
                taken = taken.saturating_add(1);
                if taken >= own.count {
                    taken = 0;
                    step = step.saturating_add(1);
                }
            }
        }
    }
}

/// Makes the root of each entry the owner of its items. Returns what their code contains.
fn insides_of(
    alloc: Global,
    owners: &mut Vec<Owner>,
    entries: &[Entry],
) -> Result<Vec<Inside>, Memory> {
    let mut insides = Vec::new(alloc);
    for (index, entry) in entries.iter().enumerate() {
        insides.push(own_items(alloc, owners, index, entry)?)?;
    }
    Ok(insides)
}

/// Goes through the steps in the order of the code: a root comes before the steps of its VALOFs.
#[derive(Drop)]
struct Following<'o> {
    outline: &'o Outline,
    /// What the code of each root contains.
    insides: &'o [Inside],
    /// The bodies that are not finished; the current one is last.
    waiting: Vec<Cursor>,
    is_refused: bool,
}

impl Following<'_> {
    /// Adds a position to go on from.
    fn wait(&mut self, cursor: Cursor) {
        if self.waiting.push(cursor).is_err() {
            self.is_refused = true;
        }
    }

    /// Adds a body to begin with.
    fn enter(&mut self, body: usize) {
        self.wait(Cursor { body, next: 0 });
    }

    /// Adds all routines, so that the first comes first.
    fn enter_routines(&mut self) {
        for body in self.outline.routines.iter().rev() {
            self.enter(*body);
        }
    }

    /// Adds the bodies of these VALOFs, so that the first comes first.
    fn enter_valofs(&mut self, numbers: &[u64]) {
        for number in numbers.iter().rev() {
            if let Some(body) = self.outline.valofs.get(*number as usize) {
                self.enter(*body);
            }
        }
    }

    /// Takes the step at a position, if there is one.
    fn take(&mut self, marks: &mut Marks, cursor: Cursor) {
        let Some(step) = step_at(self.outline, cursor) else {
            return;
        };
        self.wait(Cursor {
            body: cursor.body,
            next: cursor.next.saturating_add(1),
        });
        self.enter_valofs(marks.inside(step, self.insides));
        if marks.add(step).is_err() {
            self.is_refused = true;
        }
    }

    /// Takes all steps.
    fn take_all(&mut self, marks: &mut Marks) {
        self.enter_routines();
        for _ in 0..count_of(self.outline) {
            let Some(cursor) = self.waiting.pop() else {
                break;
            };
            self.take(marks, cursor);
        }
    }
}

impl Marks {
    /// Records all roots and commands in the order of the code.
    fn follow(
        &mut self,
        alloc: Global,
        outline: &Outline,
        insides: &[Inside],
    ) -> Result<(), Memory> {
        let mut following = Following {
            outline,
            insides,
            waiting: Vec::new(alloc),
            is_refused: false,
        };
        following.take_all(self);
        if following.is_refused {
            return Err(Memory);
        }
        Ok(())
    }

    /// The numbers of the VALOFs of the next root, if the step is a root.
    fn inside<'i>(&self, step: Step, insides: &'i [Inside]) -> &'i [u64] {
        match (step.work, insides.get(self.leaves.len())) {
            (Work::Root(_), Some(inside)) => inside.valofs.as_slice(),
            _ => &[],
        }
    }

    /// Records a step.
    fn add(&mut self, step: Step) -> Result<(), Memory> {
        match step.work {
            Work::Own(count, what) => Ok(
                self.own.push(Own {
                    leaf: step.leaf,
                    count,
                    what,
                })?,
            ),
            Work::Root(reading) => {
                self.readings.push(reading)?;
                Ok(self.leaves.push(step.leaf)?)
            }
        }
    }

    /// The owners of `count` items with these entries. `Memory` if an allocation fails.
    pub fn new(
        alloc: Global,
        outline: &Outline,
        count: usize,
        entries: &[Entry],
    ) -> Result<Marks, Memory> {
        let mut owners = vec![in alloc; Owner::Section; count]?;
        let insides = insides_of(alloc, &mut owners, entries)?;
        let mut marks = Marks {
            owners,
            leaves: Vec::new(alloc),
            readings: Vec::new(alloc),
            own: Vec::new(alloc),
        };
        marks.follow(alloc, outline, insides.as_slice())?;
        share(&mut marks.owners, &marks.own);
        Ok(marks)
    }
}
