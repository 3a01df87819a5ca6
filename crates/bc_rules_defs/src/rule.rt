//! The rule table's names: the tables, the modes and aims of code, and the rules.

/// A rule table. Table 2 has the rules J8 and J9 in addition.
#[derive(Clone, Copy, Debug, PartialEq, Eq)]
pub enum Table {
    /// All rules but J8 and J9.
    One,
    /// All rules.
    Two,
}

/// How code loads a value into the register A.
#[derive(Clone, Copy, Debug, PartialEq, Eq)]
pub enum Mode {
    /// B may hold anything afterwards.
    Any,
    /// B holds afterwards what A held before.
    Push,
}

/// The purpose of an expression's code.
#[derive(Clone, Copy, Debug, PartialEq, Eq)]
pub enum Aim {
    /// It loads the expression's value, in this mode.
    Gets(Mode),
    /// It jumps to its target if the expression's truth is this sense; otherwise execution continues after the code.
    Jumps(bool),
}

/// A rule of the rule table, which `docs/rules.md` explains: V for values, J for tests, A for assignments. There is no V5.
///
/// Each variant gives the form of expression that the rule applies to, and the rule's code. In the code:
///
/// - `Any(a)` and `Push(a)` load the part a in that mode, and `m(a)` in the mode of the whole expression;
/// - `False(a, l)` and `True(a, l)` jump to the label l if the part a is false or true;
/// - s is the level, t the target of the whole test, and 1 and 2 are the rule's own labels, set by `1:` and `2:`;
/// - `X(op)` is the instruction of the operator op.
///
/// Two parts are free if they may be evaluated in either order. The mirror of an operator gives the same with its operands exchanged.
#[derive(Clone, Copy, Debug, PartialEq, Eq)]
pub enum Rule {
    /// V0: any expression in mode Any. Code: `Push(e)`.
    V0,
    /// V1: an operand o in mode Push. Code: `L o`.
    V1,
    /// V2: `!e`. Code: `m(e) X1`.
    V2,
    /// V3: `-e`. Code: `m(e) X2`.
    V3,
    /// V4: `NOT e` as a value. Code: `m(e) X3`.
    V4,
    /// V6: `a + b`, b an operand. Code: `m(a) A b`.
    V6,
    /// V7: `a + b`, a an operand, a and b free. Code: `m(b) A a`.
    V7,
    /// V8: `a + 0`, `a - 0` and `0 + a`. Code: `m(a)`. Of two zeros the right one is dropped.
    V8,
    /// V9: `a - n`, n a number. Code: `m(a) A k`, where k is the negation of n.
    V9,
    /// V10: `a - b`, b an operand. Code: `m(a) X2 A b X2`.
    V10,
    /// V11: `a - b`, a an operand, a and b free. Code: `m(b) X2 A a`.
    V11,
    /// V12: `a op b`. Code: `Any(a) Push(b) X(op)`.
    V12,
    /// V13: `a op b`, op has a mirror, a and b free. Code: `Any(b) Push(a) X(mirror)`.
    V13,
    /// V14: `a - b`, a and b free. Code: `Any(b) Push(a) X9 X2`.
    V14,
    /// V15: `a op b`, op has a mirror. Code: `Any(a) SPs Any(b) LIPs X(mirror)`.
    V15,
    /// V16: `a op b`, a and b free. Code: `Any(b) SPs Any(a) LIPs X(op)`.
    V16,
    /// V17: `a op b`. Code: `Any(a) SPs Any(b) SP(s+1) LIPs LIP(s+1) X(op)`.
    V17,
    /// V18: `a + b`. Code: `Any(a) SPs Any(b) AIPs`.
    V18,
    /// V19: `a - b`. Code: `Any(a) SPs Any(b) X2 AIPs`.
    V19,
    /// V20: `c -> x, y`. Code: `False(c, 1) Any(x) J 2 1: Any(y) 2:`.
    V20,
    /// V21: `c -> x, y`. Code: `True(c, 1) Any(y) J 2 1: Any(x) 2:`.
    V21,
    /// V22: a call. Code: `Any(argument) SP(s+2+i)` for each argument, counted by i from 0, then `Any(routine) Ks`.
    /// Also a VALOF. Code: its body, then `1:`.
    V22,
    /// J1: `NOT e` as a test. Code: `True(e, t)` to jump on false, `False(e, t)` to jump on true.
    J1,
    /// J2: `a & b`, to jump on false. Code: `False(a, t) False(b, t)`.
    J2,
    /// J3: `a & b`, to jump on true. Code: `False(a, 1) True(b, t) 1:`.
    J3,
    /// J4: `a | b`, to jump on true. Code: `True(a, t) True(b, t)`.
    J4,
    /// J5: `a | b`, to jump on false. Code: `True(a, 1) False(b, t) 1:`.
    J5,
    /// J6: a test whose outermost operator is not NOT, `&` or `|`. Code: `Any(e) F t` to jump on false, `Any(e) T t` to jump on true.
    J6,
    /// J7: a number as a test. Its truth is known: the code is `J t` if the test jumps, else nothing.
    J7,
    /// J8: `c = 0` and `0 = c`, by table 2 only. Code: `Any(c) T t` to jump on false, `Any(c) F t` to jump on true.
    J8,
    /// J9: `c NE 0` and `0 NE c`, by table 2 only. Code: `Any(c) F t` to jump on false, `Any(c) T t` to jump on true.
    J9,
    /// A1: an assignment whose address is an operand o. Code: `Any(value) S o`.
    A1,
    /// A2: an assignment whose address is no operand, value and address free. Code: `Any(address) SPs Any(value) SIPs`.
    A2,
    /// A3: an assignment whose address is no operand. Code: `Any(value) SPs Any(address) SP(s+1) LIPs SIP(s+1)`.
    A3,
}
