//! What each kind of line says. Every reader returns None if the line isn't of its form; a line comes without its LF.

ghost use Rattle.std.specs.Prelude.{◌≡◌};
ghost use Rattle.bc_cert_read.specs.Lines.{header as header_of, entry_line as entry_line_of, end_line as end_line_of, node_line as node_line_of, root_line as root_line_of, assigned as assigned_of, form as form_of, lettered, sign, op_among, op_numbered};
ghost use Rattle.bc_cert_read.specs.Fields.{small as small_of, level as level_of};

use crate::Form;
use crate::chain::{Rules, rules_field};
use crate::fields::{field, following, level, number, number_or_none, small};
use bc_cert_defs::{Costs, Head};
use bc_rules_defs::{Rule, Table};
use bc_word::{Op, Word};

/// What a node line says.
#[derive(Clone, Copy)]
pub struct NodeLine {
    /// The level of the node, up to 32,768.
    pub level: u16,
    /// What the node is, without its parts.
    pub form: Form,
    /// The four stated numbers of words.
    pub costs: Costs,
    /// The rules that the derivation has at the node.
    pub rules: Rules,
}

/// What a root line says.
#[derive(Clone, Copy)]
pub enum RootLine {
    /// A value.
    Value,
    /// A test that jumps if its expression is true, or false.
    Test(bool),
    /// An assignment, with its rule (A1, A2 or A3) and its level.
    Assign(Rule, u16),
}

/// A header: the rule table that it names.
pub fn header(line: &[u8]) -> Option<Table>
    ensures { result ≡ header_of line.now }
{
    match line {
        [b'B', b'C', b'P', b'L', b'C', b'E', b'R', b'T', b' ', b'1'] => Some(Table::One),
        [b'B', b'C', b'P', b'L', b'C', b'E', b'R', b'T', b' ', b'2'] => Some(Table::Two),
        _ => None,
    }
}

/// An `E` line: `E segment item target first words`.
pub fn entry_line(line: &[u8]) -> Option<Head>
    ensures { result ≡ entry_line_of line.now }
{
    let (segment, rest) = field(following(line, b'E')?)?;
    let (item, rest) = field(rest)?;
    let (target, rest) = field(rest)?;
    let (first, words) = field(rest)?;
    let segment = number(segment)?;
    let item = number(item)?;
    let target = small(target)?;
    let first = small(first)?;
    let words = number(words)?;
    Some(Head {
        segment,
        item,
        target,
        first,
        words,
    })
}

/// A `Z` line: the number of entries.
pub fn end_line(line: &[u8]) -> Option<u64>
    ensures { result ≡ end_line_of line.now }
{
    number(following(line, b'Z')?)
}

/// A node line: `level form any push false true rules`.
pub fn node_line(line: &[u8]) -> Option<NodeLine>
    ensures { result ≡ node_line_of line.now }
{
    let (level_field, rest) = field(line)?;
    let (form_field, rest) = field(rest)?;
    let (any, rest) = field(rest)?;
    let (push, rest) = field(rest)?;
    let (on_false, rest) = field(rest)?;
    let (on_true, names) = field(rest)?;
    let level = level(level_field)?;
    let form = form(form_field)?;
    let any = number(any)?;
    let push = number_or_none(push)?;
    let on_false = number(on_false)?;
    let on_true = number(on_true)?;
    let rules = rules_field(names)?;
    Some(NodeLine {
        level,
        form,
        costs: Costs {
            any,
            push,
            on_false,
            on_true,
        },
        rules,
    })
}

/// All dyadic operators.
const OPERATORS: [Op; 17] = [
    Op::Multiply,
    Op::Divide,
    Op::Remainder,
    Op::Add,
    Op::Subtract,
    Op::Equal,
    Op::NotEqual,
    Op::Less,
    Op::GreaterEqual,
    Op::Greater,
    Op::LessEqual,
    Op::ShiftLeft,
    Op::ShiftRight,
    Op::And,
    Op::Or,
    Op::NotEquivalent,
    Op::Equivalent,
];

/// The first of these operators that has this number.
fn operator_among(operators: &[Op], number: u16) -> Option<Op>
    ensures { result ≡ op_among number operators.now }
{
    for op in operators {
        if Word::from(*op).get() == number {
            return Some(*op);
        }
    }
    None
}

/// The dyadic operator with this number.
fn operator(number: u16) -> Option<Op>
    ensures { result ≡ op_numbered number }
{
    operator_among(&OPERATORS, number)
}

/// The form of a node: a sign, or a letter and a number.
fn form(text: &[u8]) -> Option<Form>
    ensures { result ≡ form_of text.now }
{
    match text {
        [letter] => by_sign(*letter),
        [letter, digits @ ..] => match small(digits) {
            Some(number) => by_letter(*letter, number),
            None => None,
        },
        [] => None,
    }
}

/// A form that has no number.
fn by_sign(letter: u8) -> Option<Form>
    ensures { result ≡ sign letter }
{
    if letter == b'!' {
        Some(Form::Load)
    } else if letter == b'M' {
        Some(Form::Neg)
    } else if letter == b'~' {
        Some(Form::Not)
    } else if letter == b'?' {
        Some(Form::Cond)
    } else {
        None
    }
}

/// A form with a letter and a number.
fn by_letter(letter: u8, number: u16) -> Option<Form>
    ensures { result ≡ lettered letter number }
{
    if letter == b'N' {
        Some(Form::Num(Word::new(number)))
    } else if letter == b'P' {
        Some(Form::Frame(number))
    } else if letter == b'G' {
        Some(Form::Glob(number))
    } else if letter == b'L' {
        Some(Form::Place(number))
    } else if letter == b'V' {
        Some(Form::Valof(number))
    } else if letter == b'K' {
        Some(Form::Call(number))
    } else if letter == b'X' {
        match operator(number) {
            Some(op) => Some(Form::Bin(op)),
            None => None,
        }
    } else {
        None
    }
}

/// A root line: `R V`, `R F`, `R T`, or `R A1 level` to `R A3 level`.
pub fn root_line(line: &[u8]) -> Option<RootLine>
    ensures { result ≡ root_line_of line.now }
{
    match following(line, b'R')? {
        [letter] => {
            if *letter == b'V' {
                Some(RootLine::Value)
            } else if *letter == b'F' {
                Some(RootLine::Test(false))
            } else if *letter == b'T' {
                Some(RootLine::Test(true))
            } else {
                None
            }
        }
        [letter, number, blank, digits @ ..] => {
            if *letter == b'A' && *blank == b' ' {
                assignment(*number, digits)
            } else {
                None
            }
        }
        _ => None,
    }
}

/// The root line of an assignment, from the digit after `A` and the level.
fn assignment(number: u8, digits: &[u8]) -> Option<RootLine>
    ensures { result ≡ assigned_of number digits.now }
{
    let level = level(digits)?;
    if number == b'1' {
        Some(RootLine::Assign(Rule::A1, level))
    } else if number == b'2' {
        Some(RootLine::Assign(Rule::A2, level))
    } else if number == b'3' {
        Some(RootLine::Assign(Rule::A3, level))
    } else {
        None
    }
}
