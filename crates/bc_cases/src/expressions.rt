//! Reads expressions and roots in the form in which `bcpl_show` writes them, such as `(VALUE 3 (+ !P2 1))`.

use crate::arithmetic::operator;
use crate::growth::{Growth, both};
use crate::number::{short, word};
use bc_core::{CoreExp, Root};
use bc_word::{Op, Word};

/// What a parenthesis makes of the expressions in it.
#[derive(Clone, Copy)]
enum Head {
    Call,
    Neg,
    Not,
    Bin(Op),
    Cond,
}

/// An open parenthesis: what it makes, the number of `!` before it, and the number of expressions that were complete before it.
#[derive(Clone, Copy)]
struct Open {
    head: Head,
    loads: usize,
    first: usize,
}

/// What a parenthesis makes that begins with this word.
fn head_of(word: &str) -> Head {
    match word {
        "CALL" => Head::Call,
        "NEG" => Head::Neg,
        "NOT" => Head::Not,
        _ => match operator(word) {
            Some(op) => Head::Bin(op),
            None => Head::Cond,
        },
    }
}

/// The number after the letter of an expression without parentheses, or 0.
fn after_letter(text: &str) -> u16 {
    for letter in ['P', 'G', 'L', 'V'] {
        if let Some(number) = text.strip_prefix(letter) {
            return short(number);
        }
    }
    0
}

/// An expression without parentheses.
fn leaf(text: &str) -> CoreExp {
    let number = after_letter(text);
    match text.as_bytes().first() {
        Some(b'P') => CoreExp::Frame(number),
        Some(b'G') => CoreExp::Glob(number),
        Some(b'L') => CoreExp::Place(number),
        Some(b'V') => CoreExp::Valof(number),
        _ => CoreExp::Num(word(text)),
    }
}

/// Removes and returns the last expression after the first `first`, or 0 if there is none.
fn taken(done: &mut Vec<CoreExp>, first: usize) -> CoreExp {
    let zero = CoreExp::Num(Word::new(0));
    if done.len() > first {
        done.pop().unwrap_or(zero)
    } else {
        zero
    }
}

/// Replaces the expressions after the first `first` by one.
fn put(growth: &mut Growth, done: &mut Vec<CoreExp>, first: usize, e: CoreExp) {
    done.truncate(first);
    growth.push(done, e);
}

/// Replaces the last expression by its content.
fn load_once(growth: &mut Growth, done: &mut Vec<CoreExp>) {
    if let Some(e) = growth.boxed(taken(done, 0)) {
        growth.push(done, CoreExp::Load(e));
    }
}

/// Replaces the last expression by its content, this number of times.
fn load(growth: &mut Growth, done: &mut Vec<CoreExp>, loads: usize) {
    for _ in 0..loads {
        load_once(growth, done);
    }
}

/// A call: the first part is the routine, the others are its arguments.
fn call(growth: &mut Growth, done: &mut Vec<CoreExp>, first: usize) {
    let arguments = growth.following(done, first.saturating_add(1));
    if let Some(routine) = growth.boxed(taken(done, first)) {
        put(growth, done, first, CoreExp::Call(arguments, routine));
    }
}

/// The negative of the last part.
fn negation(growth: &mut Growth, done: &mut Vec<CoreExp>, first: usize) {
    if let Some(e) = growth.boxed(taken(done, first)) {
        put(growth, done, first, CoreExp::Neg(e));
    }
}

/// NOT of the last part.
fn opposite(growth: &mut Growth, done: &mut Vec<CoreExp>, first: usize) {
    if let Some(e) = growth.boxed(taken(done, first)) {
        put(growth, done, first, CoreExp::Not(e));
    }
}

/// Removes and boxes the last two parts.
fn pair(
    growth: &mut Growth,
    done: &mut Vec<CoreExp>,
    first: usize,
) -> Option<(Box<CoreExp>, Box<CoreExp>)> {
    let right = taken(done, first);
    let left = taken(done, first);
    growth.boxed_pair(left, right)
}

/// A binary operator with the last two parts.
fn binary(growth: &mut Growth, done: &mut Vec<CoreExp>, first: usize, op: Op) {
    if let Some((left, right)) = pair(growth, done, first) {
        put(growth, done, first, CoreExp::Bin(op, left, right));
    }
}

/// A condition with the last three parts.
fn condition(growth: &mut Growth, done: &mut Vec<CoreExp>, first: usize) {
    let parts = pair(growth, done, first);
    let condition = growth.boxed(taken(done, first));
    if let Some((condition, (this, that))) = both(condition, parts) {
        put(growth, done, first, CoreExp::Cond(condition, this, that));
    }
}

/// Replaces the expressions in a parenthesis by what it makes.
fn make(growth: &mut Growth, done: &mut Vec<CoreExp>, open: Open) {
    match open.head {
        Head::Call => call(growth, done, open.first),
        Head::Neg => negation(growth, done, open.first),
        Head::Not => opposite(growth, done, open.first),
        Head::Bin(op) => binary(growth, done, open.first, op),
        Head::Cond => condition(growth, done, open.first),
    }
}

/// Closes this parenthesis.
fn finish(growth: &mut Growth, done: &mut Vec<CoreExp>, open: Open) {
    make(growth, done, open);
    load(growth, done, open.loads);
}

/// Closes the innermost parenthesis.
fn close(growth: &mut Growth, done: &mut Vec<CoreExp>, open: &mut Vec<Open>) {
    if let Some(open) = open.pop() {
        finish(growth, done, open);
    }
}

/// Appends an expression without parentheses, after this number of `!`.
fn add_leaf(growth: &mut Growth, done: &mut Vec<CoreExp>, text: &str, loads: usize) {
    growth.push(done, leaf(text));
    load(growth, done, loads);
}

/// Opens a parenthesis, or appends an expression without one.
fn begin(growth: &mut Growth, done: &mut Vec<CoreExp>, open: &mut Vec<Open>, body: &str) {
    let inner = body.trim_start_matches('!');
    let loads = body.len().saturating_sub(inner.len());
    let first = done.len();
    match inner.strip_prefix('(') {
        Some(head) => growth.push(
            open,
            Open {
                head: head_of(head),
                loads,
                first,
            },
        ),
        None => add_leaf(growth, done, inner, loads),
    }
}

/// Takes a word with the parentheses that it opens and closes.
fn add_word(growth: &mut Growth, done: &mut Vec<CoreExp>, open: &mut Vec<Open>, word: &str) {
    let body = word.trim_end_matches(')');
    begin(growth, done, open, body);
    for _ in body.len()..word.len() {
        close(growth, done, open);
    }
}

/// Appends the expressions of a text, which are separated by blanks.
pub fn read_expressions(growth: &mut Growth, done: &mut Vec<CoreExp>, text: &str) {
    let mut open = Vec::new(growth.alloc());
    for word in text.split_whitespace() {
        add_word(growth, done, &mut open, word);
    }
}

/// The last expression of a text, or 0 if there is none, boxed. None if an allocation fails.
pub fn expression_of(growth: &mut Growth, text: &str) -> Option<Box<CoreExp>> {
    let mut done = Vec::new(growth.alloc());
    read_expressions(growth, &mut done, text);
    growth.boxed(taken(&mut done, 0))
}

/// The text before the first blank, and the text after it.
fn front(text: &str) -> (&str, &str) {
    text.split_once(' ').unwrap_or((text, ""))
}

/// Appends the expressions of a root's line.
pub fn read_root(growth: &mut Growth, done: &mut Vec<CoreExp>, line: &str) {
    let (_, after_form) = front(line);
    let (_, text) = front(after_form);
    read_expressions(growth, done, text.strip_suffix(')').unwrap_or(text));
}

/// A root that is the value of the last expression.
fn value(level: u16, done: &mut Vec<CoreExp>) -> Root {
    Root::Value {
        level,
        expression: taken(done, 0),
    }
}

/// A root that is a test of the last expression and jumps if that has this truth value.
fn test(level: u16, sense: bool, done: &mut Vec<CoreExp>) -> Root {
    Root::Test {
        level,
        sense,
        expression: taken(done, 0),
    }
}

/// A root that is an assignment: the last two expressions are its address and its value.
fn assignment(level: u16, done: &mut Vec<CoreExp>) -> Root {
    let value = taken(done, 0);
    Root::Assign {
        level,
        value,
        address: taken(done, 0),
    }
}

/// The root of a line such as `(VALUE 3 !P2)`, with the last of these expressions.
pub fn root_with(done: &mut Vec<CoreExp>, line: &str) -> Root {
    let (form, after_form) = front(line.strip_prefix('(').unwrap_or(line));
    let level = short(front(after_form).0);
    match form {
        "ASSIGN" => assignment(level, done),
        "TRUE" => test(level, true, done),
        "FALSE" => test(level, false, done),
        _ => value(level, done),
    }
}

/// The root of a line, boxed. None if an allocation fails.
pub fn root_of(growth: &mut Growth, line: &str) -> Option<Box<Root>> {
    let mut done = Vec::new(growth.alloc());
    read_root(growth, &mut done, line);
    growth.boxed(root_with(&mut done, line))
}
