//! The candidate rules of a node for each aim. A candidate without words is a rule that doesn't apply.
#![tactic(auto, unfolding(bc_select_defs::specs::Options::least_from))]

ghost use Rattle.std.specs.Prelude.{◌≡◌, ◌∷◌, [], ◌++◌, None, true, false, cond, IfOk, OnOk};
ghost use Rattle.bc_rules_defs.specs.Free.{jumps_at as jumps_of};
ghost use Rattle.bc_select_defs.specs.Options.{least_from as least_of, words_of};
ghost use Rattle.bc_select_defs.specs.Choices.{by_value, number_tests as tests_of_number, not_tests as tests_of_not, pair_tests as tests_of_pair};
ghost use Rattle.bc_rules_defs.specs.declared.rule.Table.TheVariants.{Two};
ghost use Rattle.bc_candidates.specs.Lists.{pushes as pushes_of, values as values_of, least_words_of, beginnings, applying_lists, choices_of};

use crate::binary_candidates::{tests_on_false, tests_on_true};
use crate::candidate::{Beginning, Candidates};
use crate::sums::{candidate, plus};
use bc_core::Operand;
use bc_rules_defs::{Rule, jumps};
use bc_select::{Pair, alone, any_words, better};
use bc_select_defs::{Candidate, Choice, Choices};
use bc_word::{Memory, Word};
use std::alloc::Global;
use std::marker::Model;

/// The best of a choice and these candidates; the first one if several have as few words.
fn least_from(best: Option<Choice>, candidates: &[Candidate]) -> Option<Choice>
    ensures { result ≡ least_of best candidates.now }
{
    let Some((first, others)) = candidates.split_first() else {
        return best;
    };
    least_from(better(best, first.rule, first.words), others)
}

/// Appends the candidates that apply.
fn add_applying(found: &mut Vec<Beginning>, candidates: &[Candidate]) -> Result<(), Memory>
    ensures { OnOk result (found.new.items ≡ found.old.items ++ beginnings candidates.now) }
{
    let Some((first, others)) = candidates.split_first() else {
        return Ok(());
    };
    match first.words {
        None => add_applying(found, others),
        Some(words) => {
            let rule = first.rule;
            found.push(Beginning { rule, words })?;
            add_applying(found, others)
        }
    }
}

/// The candidates that apply.
fn applying(alloc: Global, candidates: &[Candidate]) -> Result<Vec<Beginning>, Memory>
    ensures { IfOk result (λ found. found.items ≡ beginnings candidates.now) }
{
    let mut found = Vec::new(alloc);
    add_applying(&mut found, candidates)?;
    Ok(found)
}

/// The candidate rules of a node as a value, in both modes.
#[derive(Drop)]
pub struct Values {
    any: Vec<Candidate>,
    push: Vec<Candidate>,
}

impl Values {
    /// The rules of a node that is this operand and has these rules of its own. Adds V1 and V0.
    pub fn new(
        alloc: Global,
        operand: Option<Operand>,
        own_pushes: &[Candidate],
        own_values: &[Candidate],
    ) -> Result<Values, Memory>
        ensures push { IfOk result (λ v. v.push.items ≡ pushes_of operand own_pushes.now) }
        ensures any { IfOk result (λ v. v.any.items ≡ values_of (pushes_of operand own_pushes.now) own_values.now) }
    {
        let mut push = Vec::new(alloc);
        push.push(candidate(Rule::V1, alone(operand)))?;
        push.extend_from_slice(own_pushes)?;
        let mut any = Vec::new(alloc);
        any.push(candidate(Rule::V0, any_words(least_from(None, push.as_slice()))))?;
        any.extend_from_slice(own_values)?;
        Ok(Values { any, push })
    }

    /// The least words of the value in mode Any.
    pub fn least(&self) -> Option<u64>
        ensures { result ≡ least_words_of self.now.any.items }
    {
        any_words(least_from(None, self.any.as_slice()))
    }

    /// The lists of a node with these rules for tests.
    fn with_tests(
        self,
        alloc: Global,
        on_false: &[Candidate],
        on_true: &[Candidate],
    ) -> Result<Lists, Memory>
        ensures { IfOk result (λ l. l ≡ record { any = self.any.items; push = self.push.items; on_false = on_false.now; on_true = on_true.now }) }
    {
        let Values { any, push } = self;
        Ok(Lists {
            any,
            push,
            on_false: Vec::from_slice(alloc, on_false)?,
            on_true: Vec::from_slice(alloc, on_true)?,
        })
    }

    /// The lists of a node whose only tests are by J6.
    pub fn tested_by_value(self, alloc: Global) -> Result<Lists, Memory>
        ensures { IfOk result (λ l. l ≡ record {
          any = self.any.items;
          push = self.push.items;
          on_false = by_value (least_words_of self.any.items) false;
          on_true = by_value (least_words_of self.any.items) true;
        }) }
    {
        let tests = [candidate(Rule::J6, plus(self.least(), 2)?)];
        self.with_tests(alloc, &tests, &tests)
    }

    /// The lists of a number.
    pub fn tested_as_number(self, alloc: Global, number: Word) -> Result<Lists, Memory>
        ensures { IfOk result (λ l. l ≡ record {
          any = self.any.items;
          push = self.push.items;
          on_false = tests_of_number number (least_words_of self.any.items) false;
          on_true = tests_of_number number (least_words_of self.any.items) true;
        }) }
    {
        let of_value = plus(self.least(), 2)?;
        let on_false = [
            candidate(Rule::J6, of_value),
            candidate(Rule::J7, Some(number_jump(false, number))),
        ];
        let on_true = [
            candidate(Rule::J6, of_value),
            candidate(Rule::J7, Some(number_jump(true, number))),
        ];
        self.with_tests(alloc, &on_false, &on_true)
    }

    /// The lists of NOT, whose part has these choices.
    pub fn tested_as_not(self, alloc: Global, part: &Choices) -> Result<Lists, Memory>
        ensures { IfOk result (λ l. l ≡ record {
          any = self.any.items;
          push = self.push.items;
          on_false = tests_of_not part.now (least_words_of self.any.items) false;
          on_true = tests_of_not part.now (least_words_of self.any.items) true;
        }) }
    {
        let on_false = [candidate(Rule::J1, any_words(part.on_true))];
        let on_true = [candidate(Rule::J1, any_words(part.on_false))];
        self.with_tests(alloc, &on_false, &on_true)
    }

    /// The lists of a binary operator.
    pub fn tested_as_pair(self, alloc: Global, pair: &Pair) -> Result<Lists, Memory>
        ensures { IfOk result (λ l. l ≡ record {
          any = self.any.items;
          push = self.push.items;
          on_false = tests_of_pair Two pair.now.op pair.now.left pair.now.right (least_words_of self.any.items) false;
          on_true = tests_of_pair Two pair.now.op pair.now.left pair.now.right (least_words_of self.any.items) true;
        }) }
    {
        let any = self.least();
        let on_false = tests_on_false(pair, any)?;
        let on_true = tests_on_true(pair, any)?;
        self.with_tests(alloc, &on_false, &on_true)
    }
}

/// The words of a test of this number by J7, to jump on `sense`.
fn number_jump(sense: bool, number: Word) -> u64
    ensures { result ≡ cond (jumps_of sense number) 2 0 }
{
    if jumps(sense, number) { 2 } else { 0 }
}

/// The candidate rules of a node for each aim. The view in contracts is a record of four lists.
#[derive(Drop)]
pub struct Lists {
    any: Vec<Candidate>,
    push: Vec<Candidate>,
    on_false: Vec<Candidate>,
    on_true: Vec<Candidate>,
}

impl Model for Lists {
    ghost use Rattle.bc_candidates.specs.Lists.{Lists as FourLists};

    ghost Value = { FourLists };

    ghost view = { λ l. record { any = l.any.items; push = l.push.items; on_false = l.on_false.items; on_true = l.on_true.items } };
}

impl Lists {
    /// The node's choices: the best candidate for each aim.
    pub fn choices(&self) -> Choices
        ensures { result ≡ choices_of self.now }
    {
        Choices {
            any: least_from(None, self.any.as_slice()),
            push: least_from(None, self.push.as_slice()),
            on_false: least_from(None, self.on_false.as_slice()),
            on_true: least_from(None, self.on_true.as_slice()),
        }
    }

    /// The candidates that apply.
    pub fn applying(&self, alloc: Global) -> Result<Candidates, Memory>
        ensures { IfOk result (λ c. c ≡ applying_lists self.now) }
    {
        Ok(Candidates {
            any: applying(alloc, self.any.as_slice())?,
            push: applying(alloc, self.push.as_slice())?,
            on_false: applying(alloc, self.on_false.as_slice())?,
            on_true: applying(alloc, self.on_true.as_slice())?,
        })
    }
}
