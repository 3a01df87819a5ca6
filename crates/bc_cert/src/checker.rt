//! The state of a check, which judges one line after another as bytes arrive.

ghost use Rattle.std.specs.Prelude.{◌≡◌, ◌≤◌, ◌<◌, ◌+◌, ◌^◌, ◌++◌, map, length, [], Ok, OnOk, IfOk};
ghost use Rattle.bc_cert_defs.specs.View.{judged as judged_of, verdict as verdict_of};
ghost use Rattle.bc_cert_read.specs.Stacks.{AreParallel};
ghost use Rattle.bc_cert_read.specs.TreeView.{rooted as rooted_of, stack as stack_of, Gives, Steps};
ghost use Rattle.bc_cert_laws.specs.Judging.{start, place_of, line_step, begin_step, between_step, within_step, code_step, feed_from, finished};
ghost use Rattle.bc_cert.specs.View.{own, state, fed, verdict_so_far, table_alone, whole_line, summed, Kept};

use crate::code::{Heading, judge_code};
use crate::ends::first_line;
use crate::stage::Stage;
use crate::sums::Sums;
use bc_cert_defs::{CheckFault, Head, Judged, Verdict};
use bc_cert_read::{Position, Rooted, Stack, end_line, entry_line, header, node_line, root_line};
use bc_rules_defs::Table;
use bc_word::Memory;
use std::alloc::Global;
use std::mem;

/// The state of a check. After a call that returned a fault it has no meaning.
#[derive(Drop)]
pub struct Checker {
    alloc: Global,
    /// The bytes of the incomplete line at the end of the input read up to here.
    pub line: Vec<u8>,
    /// The number of complete lines before it.
    pub lines: u64,
    /// The rule table that the header names.
    pub table: Table,
    /// The accepted entries that weren't dropped.
    pub entries: Vec<Judged>,
    /// The number of accepted entries before these that were dropped by `forget`.
    pub passed: u32,
    /// Which line may come next.
    pub stage: Stage,
    /// The trees of the current entry that aren't parts of another one yet.
    pub trees: Stack,
    /// The number of node lines of the current entry up to here.
    pub nodes: u64,
}

impl Checker {
    /// The state before the first byte.
    pub fn new(alloc: Global) -> Checker
        ensures exact { fed result ≡ (start, []) }
        ensures parallel { AreParallel (state result).trees }
        ensures lines { (result.lines ≡ 0) × (result.nodes ≡ 0) }
        ensures passed { result.passed ≡ 0 }
    {
        Checker {
            alloc,
            line: Vec::new(alloc),
            lines: 0,
            table: Table::One,
            entries: Vec::new(alloc),
            passed: 0,
            stage: Stage::Header,
            trees: Stack::new(alloc),
            nodes: 0,
        }
    }

    /// Takes the next bytes of the input, and judges each line that they complete.
    ///
    /// Returns the fault of the first line that has one, or `Memory` if an allocation fails. A line is judged where it lies in `bytes`; it
    /// is copied only if it continues in the next bytes.
    pub fn feed(&mut self, bytes: &[u8]) -> Result<(), CheckFault>
        requires parallel { AreParallel (state self.old).trees }
        requires few { self.old.lines + length bytes.now < 2 ^ 62 }
        requires nodes { self.old.nodes ≤ self.old.lines }
        ensures exact { Steps (fed self.new) result (feed_from bytes.now (fed self.old)) }
        ensures parallel { OnOk result (AreParallel (state self.new).trees) }
        ensures few { OnOk result (self.new.lines ≤ self.old.lines + length bytes.now) }
        ensures nodes { OnOk result (self.new.nodes ≤ self.new.lines) }
        ensures passed { OnOk result (self.new.passed ≡ self.old.passed) }
    {
        let mut rest = bytes;
        for turn in 0..bytes.len() + 1 {
            let (line, following) = first_line(rest);
            let following = match following {
                Some(following) => following,
                None => return self.keep(line),
            };
            if let Err(fault) = self.end(line) {
                return Err(fault);
            }
            rest = following;
        }
        Ok(())
    }

    /// Keeps bytes of a line that continues in the next ones.
    fn keep(&mut self, bytes: &[u8]) -> Result<(), CheckFault>
        ensures exact { Steps (fed self.new) result (Ok (state self.old, self.old.line.items ++ bytes.now)) }
        ensures trees { OnOk result (stack_of self.new.trees ≡ stack_of self.old.trees) }
        ensures lines { OnOk result ((self.new.lines ≡ self.old.lines) × (self.new.nodes ≡ self.old.nodes)) }
        ensures passed { OnOk result (self.new.passed ≡ self.old.passed) }
    {
        self.line.extend_from_slice(bytes)?;
        Ok(())
    }

    /// Judges the incomplete line, completed by its last bytes.
    #[tactic(auto, using(crate::proofs::Steps::fails_more))]
    fn end(&mut self, last: &[u8]) -> Result<(), CheckFault>
        requires parallel { AreParallel (state self.old).trees }
        requires few { self.old.lines < 2 ^ 62 }
        requires nodes { self.old.nodes ≤ self.old.lines }
        ensures exact { Steps (fed self.new) result (whole_line (self.old.line.items ++ last.now) (state self.old)) }
        ensures parallel { OnOk result (AreParallel (state self.new).trees) }
        ensures few { OnOk result (self.new.lines ≤ self.old.lines + 1) }
        ensures nodes { OnOk result (self.new.nodes ≤ self.new.lines) }
        ensures passed { OnOk result (self.new.passed ≡ self.old.passed) }
    {
        if !self.line.is_empty() {
            self.line.extend_from_slice(last)?;
            let empty = Vec::new(self.alloc);
            let mut line = mem::replace(&mut self.line, empty);
            self.judge(line.as_slice())?;
            line.truncate(0);
            self.line = line;
            return Ok(());
        }
        self.judge(last)?;
        Ok(())
    }

    /// Drops the entries that are kept; from now on only their number counts. Returns the sum of `words` and the entries' words, at most
    /// 2^64 - 1.
    pub fn forget(&mut self, words: u64) -> u64
        requires few { self.old.passed + length self.old.entries.items < 2 ^ 32 }
        ensures own { own self.new ≡ record (own self.old) { entries = [] } }
        ensures kept { self.new.line.items ≡ self.old.line.items }
        ensures passed { self.new.passed ≡ self.old.passed + length self.old.entries.items }
        ensures words { result ≡ summed words (map judged_of self.old.entries.items) }
    {
        let words = sum_from(words, self.entries.as_slice());
        self.passed += self.entries.len() as u32;
        self.entries.truncate(0);
        words
    }

    /// Whether the input may end here. Returns `Header` if no line is complete, and `Truncated` if there is no end line or an incomplete
    /// line follows it.
    fn ended(&self) -> Result<(), CheckFault>
        ensures { Gives (λ _. verdict_so_far self.now) result (finished (own self.now, self.now.line.items)) }
    {
        match self.stage {
            Stage::Header => Err(CheckFault::Header),
            Stage::End => {
                if self.line.is_empty() {
                    Ok(())
                } else {
                    Err(CheckFault::Truncated)
                }
            }
            Stage::Between | Stage::Nodes(_) | Stage::Code(_, _) => Err(CheckFault::Truncated),
        }
    }

    /// The verdict at the end of the input, with the entries that are kept. Returns the same faults as `ended`.
    pub fn finish(self) -> Result<Verdict, CheckFault>
        ensures { Gives verdict_of result (finished (own self, self.line.items)) }
    {
        self.ended()?;
        Ok(Verdict {
            table: self.table,
            entries: self.entries,
        })
    }

    /// The sums at the end of the input. The caller has added up the words with `forget`. Returns the same faults as `ended`.
    pub fn sums(self, words: u64) -> Result<Sums, CheckFault>
        ensures exact { Gives (λ sums. table_alone sums (own self)) result (finished (own self, self.line.items)) }
        ensures sums { IfOk result (λ sums. (sums.entries ≡ self.passed) × (sums.words ≡ words)) }
    {
        self.ended()?;
        Ok(Sums {
            table: self.table,
            entries: u64::from(self.passed),
            words,
        })
    }

    /// The place of the line that is judged, which `lines` already counts.
    #[tactic(auto, using(crate::proofs::Lengths::counted_length))]
    fn place(&self) -> Position
        ensures { result ≡ place_of (state self.now) }
    {
        Position {
            line: self.lines,
            entry: u64::from(self.passed) + self.entries.as_slice().len() as u64,
            node: self.nodes,
        }
    }

    /// Judges a complete line, given without its LF.
    fn judge(&mut self, line: &[u8]) -> Result<(), CheckFault>
        requires parallel { AreParallel (state self.old).trees }
        requires few { self.old.lines < 2 ^ 62 }
        requires nodes { self.old.nodes ≤ self.old.lines }
        ensures exact { Steps (state self.new) result (line_step line.now (state self.old)) }
        ensures line { OnOk result (self.new.line.items ≡ self.old.line.items) }
        ensures parallel { OnOk result (AreParallel (state self.new).trees) }
        ensures few { OnOk result (self.new.lines ≡ self.old.lines + 1) }
        ensures nodes { OnOk result (self.new.nodes ≤ self.new.lines) }
        ensures passed { OnOk result (self.new.passed ≡ self.old.passed) }
    {
        self.lines += 1;
        let stage = mem::replace(&mut self.stage, Stage::End);
        let place = self.place();
        match stage {
            Stage::Header => self.begin(line),
            Stage::Between => self.between(line, place),
            Stage::Nodes(head) => self.within(head, line, place),
            Stage::Code(head, rooted) => self.code(head, rooted, line, place),
            Stage::End => Err(CheckFault::Line(place.line)),
        }
    }

    /// Judges the first line.
    fn begin(&mut self, line: &[u8]) -> Result<(), CheckFault>
        ensures exact { Steps (state self.new) result (begin_step line.now (state self.old)) }
        ensures kept { OnOk result (Kept self.old self.new) }
    {
        match header(line) {
            Some(table) => {
                self.table = table;
                self.stage = Stage::Between;
                Ok(())
            }
            None => Err(CheckFault::Header),
        }
    }

    /// Judges an `E` line or the `Z` line.
    fn between(&mut self, line: &[u8], place: Position) -> Result<(), CheckFault>
        ensures exact { Steps (state self.new) result (between_step line.now place (state self.old)) }
        ensures line { OnOk result (self.new.line.items ≡ self.old.line.items) }
        ensures parallel { AreParallel (state self.old).trees → OnOk result (AreParallel (state self.new).trees) }
        ensures lines { OnOk result (self.new.lines ≡ self.old.lines) }
        ensures passed { OnOk result (self.new.passed ≡ self.old.passed) }
        ensures nodes { OnOk result (self.new.nodes ≤ self.old.nodes) }
    {
        match entry_line(line) {
            Some(head) => {
                self.trees.clear();
                self.nodes = 0;
                self.stage = Stage::Nodes(head);
                Ok(())
            }
            None => {
                match end_line(line) {
                    Some(entries) => {
                        if entries == place.entry {
                            self.stage = Stage::End;
                            Ok(())
                        } else {
                            Err(CheckFault::Line(place.line))
                        }
                    }
                    None => Err(CheckFault::Line(place.line)),
                }
            }
        }
    }

    /// Judges a node line or a root line.
    fn within(&mut self, head: Head, line: &[u8], place: Position) -> Result<(), CheckFault>
        requires parallel { AreParallel (state self.old).trees }
        requires few { self.old.nodes < 2 ^ 62 }
        ensures exact { Steps (state self.new) result (within_step head line.now place (state self.old)) }
        ensures line { OnOk result (self.new.line.items ≡ self.old.line.items) }
        ensures parallel { OnOk result (AreParallel (state self.new).trees) }
        ensures lines { OnOk result (self.new.lines ≡ self.old.lines) }
        ensures passed { OnOk result (self.new.passed ≡ self.old.passed) }
        ensures nodes { OnOk result (self.new.nodes ≤ self.old.nodes + 1) }
    {
        match node_line(line) {
            Some(node) => {
                self.trees.node(self.alloc, self.table, &node, place)?;
                self.nodes += 1;
                self.stage = Stage::Nodes(head);
                Ok(())
            }
            None => match root_line(line) {
                Some(root) => {
                    let rooted = boxed(self.alloc, self.trees.root(self.alloc, root, place)?)?;
                    self.trees.clear();
                    self.stage = Stage::Code(head, rooted);
                    Ok(())
                }
                None => Err(CheckFault::Line(place.line)),
            },
        }
    }

    /// Judges a code line.
    #[tactic(auto, using(crate::proofs::Lengths::entries_pushed))]
    fn code(
        &mut self,
        head: Head,
        rooted: Box<Rooted>,
        line: &[u8],
        place: Position,
    ) -> Result<(), CheckFault>
        ensures exact { Steps (state self.new) result (code_step head (rooted_of rooted.value) line.now place (state self.old)) }
        ensures kept { OnOk result (Kept self.old self.new) }
    {
        let heading = Heading {
            table: self.table,
            head,
            place,
        };
        let judged = judge_code(self.alloc, heading, rooted, line)?;
        self.entries.push(judged)?;
        self.stage = Stage::Between;
        Ok(())
    }
}

/// Boxes a root. Dropping a large enum by value is expensive to prove, so `Stage` holds its root in a box.
fn boxed(alloc: Global, rooted: Rooted) -> Result<Box<Rooted>, Memory>
    ensures { IfOk result (λ new. rooted_of new.value ≡ rooted_of rooted) }
{
    Ok(Box::new(alloc, rooted)?)
}

/// The sum of `words` and the entries' words, at most 2^64 - 1.
fn sum_from(words: u64, entries: &[Judged]) -> u64
    ensures { result ≡ summed words (map judged_of entries.now) }
{
    let mut sum = words;
    for entry in entries {
        sum = sum.saturating_add(entry.words);
    }
    sum
}
