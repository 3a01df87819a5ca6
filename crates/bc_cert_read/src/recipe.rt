//! The parts that a rule derives at a node, and the words that it adds.

ghost use Rattle.std.specs.Prelude.{◌≡◌, Some};
ghost use Rattle.bc_cert_read.specs.Recipe.{recipe as recipe_of_words, adding, only_at};

use bc_rules_defs::Takes;
use bc_word::{Op, Word};

/// What a rule needs at a node.
#[derive(Clone, Copy)]
pub struct Recipe {
    /// The parts that it derives, and for which aims.
    pub takes: Takes,
    /// The words of its own, beside those of the parts.
    pub words: u64,
}

/// A rule that takes these parts and adds this number of words.
#[inline(always)]
pub fn makes(takes: Takes, words: u64) -> Option<Recipe>
    ensures { result ≡ recipe_of_words takes words }
{
    Some(Recipe { takes, words })
}

/// A rule that takes these parts and adds the words of an operand and `more`. None without an operand.
#[inline(always)]
pub fn with_operand(takes: Takes, operand: Option<u8>, more: u8) -> Option<Recipe>
    ensures { result ≡ adding takes operand more }
{
    match operand {
        Some(words) => makes(takes, u64::from(words) + u64::from(more)),
        None => None,
    }
}

/// The recipe if the operator is the wanted one.
#[inline(always)]
pub fn only(wanted: Op, op: Op, recipe: Option<Recipe>) -> Option<Recipe>
    ensures { result ≡ only_at wanted op recipe }
{
    if Word::from(op).get() == Word::from(wanted).get() {
        recipe
    } else {
        None
    }
}
