//! Cases about words, operators and symbols.

use crate::answer::Answer;
use crate::number::{next, short, word};
use bc_lex_tokens::Symbol;
use bc_word::{Op, Rel, Word, apply, complement, mirror};
use bcpl_show::sign;

/// The binary operator with this sign.
pub fn operator(text: &str) -> Option<Op> {
    for number in 5..22u16 {
        if let Ok(op) = Op::try_from(Word::new(number)) {
            if sign(op) == text {
                return Some(op);
            }
        }
    }
    None
}

/// Appends the value of `B OPERATOR A` as a signed number.
pub fn add_applied(answer: &mut Answer, input: &str) {
    let mut words = input.split_whitespace();
    let b = word(next(&mut words));
    let op = operator(next(&mut words));
    let a = word(next(&mut words));
    match op {
        Some(op) => add_value(answer, apply(op, b, a)),
        None => answer.say("no operator"),
    }
}

/// Appends a value as a signed number, or that there is none.
fn add_value(answer: &mut Answer, value: Option<Word>) {
    match value {
        Some(value) => answer.show(&value.signed()),
        None => answer.say("no value"),
    }
}

/// Appends a word as an unsigned and a signed number, its negative and its complement.
pub fn add_word(answer: &mut Answer, input: &str) {
    let word = word(input.lines().next().unwrap_or(""));
    let unsigned = word.get();
    answer.number(u64::from(unsigned));
    answer.signed(", signed ", word.signed());
    answer.signed(", negated ", word.negated().signed());
    answer.signed(", complemented ", word.complemented().signed());
    answer.numbered(", as a number ", u64::from(u16::from(Word::from(unsigned))));
}

/// The relation that an operator is. None for other operators.
fn relation(op: Op) -> Option<Rel> {
    match op {
        Op::Equal => Some(Rel::Equal),
        Op::NotEqual => Some(Rel::NotEqual),
        Op::Less => Some(Rel::Less),
        Op::GreaterEqual => Some(Rel::GreaterEqual),
        Op::Greater => Some(Rel::Greater),
        Op::LessEqual => Some(Rel::LessEqual),
        _ => None,
    }
}

/// The sign of an operator, or `none`.
fn sign_of(op: Option<Op>) -> &'static str {
    match op {
        Some(op) => sign(op),
        None => "none",
    }
}

/// The relation that holds exactly if this one doesn't. None for other operators.
fn opposite(op: Op) -> Option<Op> {
    Some(Op::from(complement(relation(op)?)))
}

/// Appends the operator with the number in an input, its number, its mirror and its complement.
pub fn add_operator(answer: &mut Answer, input: &str) {
    let number = short(input.lines().next().unwrap_or(""));
    match Op::try_from(Word::new(number)) {
        Ok(op) => add_relatives(answer, op),
        Err(_) => answer.say("no operator"),
    }
}

/// Appends an operator's sign, its number, its mirror and its complement.
fn add_relatives(answer: &mut Answer, op: Op) {
    answer.say(sign(op));
    answer.numbered(" ", u64::from(Word::from(op).get()));
    answer.say(", mirror ");
    answer.say(sign_of(mirror(op)));
    answer.say(", complement ");
    answer.say(sign_of(opposite(op)));
}

/// Appends the first spelling and the number of the symbol that the first field spells, and whether the second field spells it too.
pub fn add_symbol(answer: &mut Answer, input: &str) {
    let mut words = input.split_whitespace();
    let symbol = Symbol::spelled(next(&mut words).as_bytes());
    let other = Symbol::spelled(next(&mut words).as_bytes());
    match symbol {
        Some(symbol) => add_spelled(answer, symbol, other),
        None => answer.say("no symbol"),
    }
}

/// Whether both are the same symbol.
fn is_other(symbol: Symbol, other: Option<Symbol>) -> bool {
    match other {
        Some(other) => symbol.is(other),
        None => false,
    }
}

/// Appends a symbol's first spelling and number, and whether it is the other one.
fn add_spelled(answer: &mut Answer, symbol: Symbol, other: Option<Symbol>) {
    answer.bytes(symbol.spelling());
    answer.numbered(" ", u64::from(symbol.number()));
    answer.truth(", the second: ", is_other(symbol, other));
}
