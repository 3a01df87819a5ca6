//! What the rules of a listing mean: a line for each rule that it names, and the terms of their code. The page of
//! `explain` has the same texts in its script.

use crate::page::{Field, Page};
use bc_rules_defs::{Derivation, RULES, Rule};

/// Where each rule applies and its code, in the order of the table.
const MEANINGS: [(&str, &str); 34] = [
    ("any expression e", "Push(e)"),
    ("an operand o", "L o"),
    ("!e", "m(e) X1"),
    ("-e", "m(e) X2"),
    ("NOT e", "m(e) X3"),
    ("a + b, b an operand", "m(a) A b"),
    ("a + b, a an operand; free", "m(b) A a"),
    ("a + 0, a - 0, 0 + a", "m(a)"),
    ("a - n, n a number", "m(a) A -n"),
    ("a - b, b an operand", "m(a) X2 A b X2"),
    ("a - b, a an operand; free", "m(b) X2 A a"),
    ("a op b", "Any(a) Push(b) Xop"),
    ("a op b, op has a mirror; free", "Any(b) Push(a) Xmirror"),
    ("a - b; free", "Any(b) Push(a) X9 X2"),
    ("a op b, op has a mirror", "Any(a) SPs Any(b) LIPs Xmirror"),
    ("a op b; free", "Any(b) SPs Any(a) LIPs Xop"),
    ("a op b", "Any(a) SPs Any(b) SP(s+1) LIPs LIP(s+1) Xop"),
    ("a + b", "Any(a) SPs Any(b) AIPs"),
    ("a - b", "Any(a) SPs Any(b) X2 AIPs"),
    ("c -> x, y", "False(c, 1) Any(x) J 2 1: Any(y) 2:"),
    ("c -> x, y", "True(c, 1) Any(y) J 2 1: Any(x) 2:"),
    (
        "a call, or a VALOF",
        "Any(argument) SP(s+2+i) for each, Any(routine) Ks; or its body, 1:",
    ),
    ("NOT e", "on false True(e, t), on true False(e, t)"),
    ("a & b, on false", "False(a, t) False(b, t)"),
    ("a & b, on true", "False(a, 1) True(b, t) 1:"),
    ("a | b, on true", "True(a, t) True(b, t)"),
    ("a | b, on false", "True(a, 1) False(b, t) 1:"),
    (
        "a test with no NOT, & or | at the top",
        "on false Any(e) F t, on true Any(e) T t",
    ),
    ("a number", "J t if it has this truth value, else nothing"),
    ("c = 0, 0 = c", "on false Any(c) T t, on true Any(c) F t"),
    ("c NE 0, 0 NE c", "on false Any(c) F t, on true Any(c) T t"),
    ("the address an operand o", "Any(value) S o"),
    (
        "the address not an operand; value and address free",
        "Any(address) SPs Any(value) SIPs",
    ),
    (
        "the address not an operand",
        "Any(value) SPs Any(address) SP(s+1) LIPs SIP(s+1)",
    ),
];

/// The terms in the code of the rules.
const TERMS: &str = "\
/   Any(a) is the code of a as a value, Push(a) the same with the old A in B afterwards, and m(a)
/   the one of these that the whole has. False(a, t) and True(a, t) jump to t. s is the first free
/   offset of the frame. An operand is what one instruction takes. Free: in either order. A mirror
/   is the operator that gives the same with its operands exchanged.
";

/// Which rules a listing names.
#[derive(Drop)]
pub struct NamedRules {
    is_named: [bool; 34],
}

impl NamedRules {
    /// No rules.
    pub fn new() -> NamedRules {
        NamedRules {
            is_named: [false; 34],
        }
    }

    /// Notes a rule.
    fn note(&mut self, rule: Rule) {
        for (is_named, other) in self.is_named.iter_mut().zip(RULES.iter()) {
            if *other == rule {
                *is_named = true;
            }
        }
    }

    /// Notes the rules of a derivation.
    pub fn note_all(&mut self, derivation: &Derivation) {
        self.note(derivation.rule);
        for part in &derivation.parts {
            self.note_all(part);
        }
    }

    /// Adds a line for each of these rules, and the terms of their code.
    pub fn add(&self, page: &mut Page) {
        page.add_lines("/ the rules, with where each applies and its code\n");
        for (index, rule) in RULES.iter().enumerate() {
            if self.is_named.get(index).copied().unwrap_or(false) {
                add_rule(page, index, *rule);
            }
        }
        page.add_lines(TERMS);
    }
}

/// Adds the line of a rule.
fn add_rule(page: &mut Page, index: usize, rule: Rule) {
    let (place, code) = MEANINGS.get(index).copied().unwrap_or(("", ""));
    page.add_text("/   ");
    page.add(&[rule.letter()]);
    page.add_line(&[
        Field::Number(u64::from(rule.number()), 0),
        Field::Column(9),
        Field::Text(place),
        Field::Text(": "),
        Field::Text(code),
    ]);
}
