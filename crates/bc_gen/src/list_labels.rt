//! The labels of command lists: those of the source, and those of CASE and DEFAULT.
ghost use Rattle.std.specs.Prelude.{◌≡◌, ◌+◌, ◌++◌, ◌≤◌, IfOk, IfErr};
ghost use Rattle.bc_core.specs.View.{items};
ghost use Rattle.bc_gen_defs.specs.Emit.{labels_in, defaulted, cases_in, entries_in};
ghost use Rattle.bc_gen.specs.Surroundings.{label_pairs, next_entry};
ghost use Rattle.bc_gen.specs.Writing.{RunsOut};

use crate::context::Numbered;
use crate::gen_error::GenError;
use crate::writer::Writer;
use bc_core::ListItem;

/// The labels of a SWITCHON's list.
#[derive(Clone, Copy)]
pub(crate) struct CaseLabels {
    /// The label of the first CASE or DEFAULT. Each further one has the next label.
    pub(crate) first: u16,
    /// The label of the first DEFAULT, or that of the end if there is none.
    pub(crate) default: u16,
    /// The number of CASEs.
    pub(crate) count: u16,
}

/// The label of the next CASE or DEFAULT after an item. `entry` is that of the next one at or after the item.
pub(crate) fn entry_after(item: &ListItem, entry: u16) -> u16
    requires { next_entry item.now entry ≤ 65535 }
    ensures { result ≡ next_entry item.now entry }
{
    match item {
        ListItem::Case(_) | ListItem::Default => entry + 1,
        ListItem::Command(_) | ListItem::Label(_) => entry,
    }
}

impl Writer {
    /// Takes a label for each label in a list. Returns them, followed by those of the enclosing lists.
    pub(crate) fn list_labels(
        &mut self,
        list: &[ListItem],
        outer: &[Numbered],
    ) -> Result<Vec<Numbered>, GenError>
        ensures labels { IfOk result (λ found. found.items ≡ label_pairs (items list.now) self.old.next ++ outer.now) }
        ensures next { IfOk result (λ _. self.new.next ≡ self.old.next + labels_in (items list.now)) }
        ensures out { IfErr result (λ e. RunsOut e (self.old.next + labels_in (items list.now))) }
        ensures parts { self.new.parts ≡ self.old.parts }
    {
        let mut labels = Vec::new(self.alloc);
        for item in list {
            if let ListItem::Label(number) = item {
                let label = self.take(1)?;
                labels.push(Numbered {
                    number: *number,
                    label,
                })?;
            }
        }
        labels.extend_from_slice(outer)?;
        Ok(labels)
    }

    /// Takes a label for each CASE and DEFAULT in the list of a SWITCHON. `end` is the label after the SWITCHON.
    pub(crate) fn case_labels(
        &mut self,
        list: &[ListItem],
        end: u16,
    ) -> Result<CaseLabels, GenError>
        ensures first { IfOk result (λ found. found.first ≡ self.old.next) }
        ensures default { IfOk result (λ found. found.default ≡ defaulted (items list.now) self.old.next end) }
        ensures count { IfOk result (λ found. found.count ≡ cases_in (items list.now)) }
        ensures next { IfOk result (λ _. self.new.next ≡ self.old.next + entries_in (items list.now)) }
        ensures out { IfErr result (λ e. RunsOut e (self.old.next + entries_in (items list.now))) }
        ensures parts { self.new.parts ≡ self.old.parts }
    {
        let first = self.next;
        let mut count: u16 = 0;
        let mut default = None;
        for item in list {
            match item {
                ListItem::Case(_) => {
                    self.take(1)?;
                    count += 1;
                }
                ListItem::Default => {
                    let label = self.take(1)?;
                    default = default.or(Some(label));
                }
                ListItem::Command(_) | ListItem::Label(_) => {}
            }
        }
        Ok(CaseLabels {
            first,
            default: default.unwrap_or(end),
            count,
        })
    }
}
