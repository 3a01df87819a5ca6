//! Sums of words, which are None if a rule doesn't apply.
//!
//! They return `Memory` if a sum would not fit into 64 bits. This can't happen for a root that fits into memory, and spares every
//! caller a bound.

ghost use Rattle.std.specs.Prelude.{◌≡◌, ◌+◌, IfOk};
ghost use Rattle.bc_select_defs.specs.Options.{plus as plus_of, more as more_of, sum as sum_of, candidate as candidate_of};

use bc_rules_defs::Rule;
use bc_select_defs::Candidate;
use bc_word::Memory;

/// The sum of two numbers.
pub fn add(x: u64, y: u64) -> Result<u64, Memory>
    ensures { IfOk result (λ n. n ≡ x + y) }
{
    match x.checked_add(y) {
        Some(sum) => Ok(sum),
        None => Err(Memory),
    }
}

/// k words more.
#[tactic(auto, unfolding(bc_select_defs::specs::Options::plus))]
pub fn plus(x: Option<u64>, k: u64) -> Result<Option<u64>, Memory>
    ensures { IfOk result (λ z. z ≡ plus_of x k) }
{
    match x {
        None => Ok(None),
        Some(x) => Ok(Some(add(x, k)?)),
    }
}

/// k words more, with the sum in the other order, as a definition has it.
#[tactic(auto, unfolding(bc_select_defs::specs::Options::more))]
pub fn more(k: u64, x: Option<u64>) -> Result<Option<u64>, Memory>
    ensures { IfOk result (λ z. z ≡ more_of k x) }
{
    match x {
        None => Ok(None),
        Some(x) => Ok(Some(add(k, x)?)),
    }
}

/// The sum of both words; None if either is None.
#[tactic(auto, unfolding(bc_select_defs::specs::Options::sum))]
pub fn sum(x: Option<u64>, y: Option<u64>) -> Result<Option<u64>, Memory>
    ensures { IfOk result (λ z. z ≡ sum_of x y) }
{
    match (x, y) {
        (Some(x), Some(y)) => Ok(Some(add(x, y)?)),
        (None, _) => Ok(None),
        (Some(_), None) => Ok(None),
    }
}

/// The sum of both words and k; None if either is None.
pub fn both(x: Option<u64>, y: Option<u64>, k: u64) -> Result<Option<u64>, Memory>
    ensures { IfOk result (λ z. z ≡ plus_of (sum_of x y) k) }
{
    plus(sum(x, y)?, k)
}

/// A rule with its words.
pub fn candidate(rule: Rule, words: Option<u64>) -> Candidate
    ensures { result ≡ candidate_of rule words }
{
    Candidate { rule, words }
}
