//! Values of expressions of BCPL over the names in scope, without calls.

use crate::manifests::Manifest;
use crate::scope::{DebugScope, Meaning};
use bc_interpret_record::Cell;
use bc_lex::{Source, lex};
use bc_lex_tokens::Token;
use bc_parse::parse;
use bc_parse_tree::{BinaryOp, Declaration, Definition, Exp, UnaryOp};
use bc_word::{Memory, Op, Word, apply};
use std::alloc::Global;

/// Why an expression has no value.
#[derive(Debug, Drop)]
pub enum EvaluationError {
    /// It isn't an expression.
    Syntax,
    /// No name in scope is this one.
    NoName(String),
    /// No name in scope is the first one, but the second one is, which is the same in capital letters.
    NoSmallName(String, String),
    /// The cell at this address was never set.
    Unset(u16),
    /// No cell is at this address.
    Dead(u16),
    /// It divides by 0.
    ZeroDivide,
    /// It has a call, a VALOF, a TABLE or a string.
    Calls,
    /// `@` is before something that has no cell.
    NoCell,
    /// An allocation failed.
    Memory,
}

impl EvaluationError {
    /// Whether the expression has no value anywhere, whatever the names mean and the cells hold.
    pub fn is_lasting(&self) -> bool {
        matches!(
            self,
            EvaluationError::Syntax | EvaluationError::Calls | EvaluationError::Memory
        )
    }
}

impl From<Memory> for EvaluationError {
    fn from(_refused: Memory) -> EvaluationError {
        EvaluationError::Memory
    }
}

/// The operator of a binary operator; `None` for `!`.
fn op_of(binary: &BinaryOp) -> Option<Op> {
    Some(match binary {
        BinaryOp::Equivalent => Op::Equivalent,
        BinaryOp::NotEquivalent => Op::NotEquivalent,
        BinaryOp::Or => Op::Or,
        BinaryOp::And => Op::And,
        BinaryOp::ShiftLeft => Op::ShiftLeft,
        BinaryOp::ShiftRight => Op::ShiftRight,
        BinaryOp::Equal => Op::Equal,
        BinaryOp::NotEqual => Op::NotEqual,
        BinaryOp::Less => Op::Less,
        BinaryOp::GreaterEqual => Op::GreaterEqual,
        BinaryOp::Greater => Op::Greater,
        BinaryOp::LessEqual => Op::LessEqual,
        BinaryOp::Add => Op::Add,
        BinaryOp::Subtract => Op::Subtract,
        BinaryOp::Multiply => Op::Multiply,
        BinaryOp::Divide => Op::Divide,
        BinaryOp::Remainder => Op::Remainder,
        BinaryOp::Index => return None,
    })
}

/// Computes values.
#[derive(Clone, Copy)]
struct Evaluation<'e, 's> {
    alloc: Global,
    scope: &'e DebugScope<'e, 's>,
}

/// The content of a cell.
fn content(scope: &DebugScope<'_, '_>, address: u16) -> Result<u16, EvaluationError> {
    match scope.cell(address) {
        Cell::Set(word) => Ok(word),
        Cell::Unset => Err(EvaluationError::Unset(address)),
        Cell::Dead => Err(EvaluationError::Dead(address)),
    }
}

impl Evaluation<'_, '_> {
    /// What a name means.
    fn name(&self, name: &[u8]) -> Result<Meaning, EvaluationError> {
        match self.scope.meaning(name) {
            Some(meaning) => Ok(meaning),
            None => Err(self.unknown(name)?),
        }
    }

    /// The error for a name that isn't in scope.
    fn unknown(&self, name: &[u8]) -> Result<EvaluationError, Memory> {
        let shown = bcpl_messages::shown(self.alloc, name)?;
        let capitals = shown.as_str().to_ascii_uppercase(self.alloc)?;
        let is_small = capitals.as_bytes() != name
            && self.scope.meaning(capitals.as_bytes()).is_some();
        Ok(if is_small {
            EvaluationError::NoSmallName(shown, capitals)
        } else {
            EvaluationError::NoName(shown)
        })
    }

    /// The value of an expression.
    #[cycle(evaluating)]
    fn value(&self, e: &Exp<'_>) -> Result<u16, EvaluationError> {
        match e {
            Exp::Name(name) => match self.name(name)? {
                Meaning::Cell(address) => content(self.scope, address),
                Meaning::Value(value) => Ok(value),
            },
            Exp::Num(word) | Exp::Character(word) => Ok(word.get()),
            Exp::True => Ok(65535),
            Exp::False => Ok(0),
            Exp::Unary(operator, operand) => self.unary(*operator, operand),
            Exp::Bin(operator, left, right) => {
                let left = self.value(left)?;
                let right = self.value(right)?;
                self.binary(operator, left, right)
            }
            Exp::Cond { test, this, that } => {
                if self.value(test)? != 0 {
                    self.value(this)
                } else {
                    self.value(that)
                }
            }
            Exp::String(_) | Exp::Table(_) | Exp::Valof(_) | Exp::Call(_, _) => {
                Err(EvaluationError::Calls)
            }
        }
    }

    /// The value of a binary operator.
    fn binary(&self, operator: &BinaryOp, left: u16, right: u16) -> Result<u16, EvaluationError> {
        match op_of(operator) {
            Some(op) => match apply(op, Word::new(left), Word::new(right)) {
                Some(word) => Ok(word.get()),
                None => Err(EvaluationError::ZeroDivide),
            },
            None => content(self.scope, left.wrapping_add(right)),
        }
    }

    /// The value of a unary operator.
    #[cycle(evaluating)]
    fn unary(&self, operator: UnaryOp, operand: &Exp<'_>) -> Result<u16, EvaluationError> {
        match operator {
            UnaryOp::Address => self.address(operand),
            UnaryOp::Not => Ok(Word::new(self.value(operand)?).complemented().get()),
            UnaryOp::Neg => Ok(self.value(operand)?.wrapping_neg()),
            UnaryOp::Load => {
                let address = self.value(operand)?;
                content(self.scope, address)
            }
        }
    }

    /// The address of the cell that an expression denotes.
    #[cycle(evaluating)]
    fn address(&self, e: &Exp<'_>) -> Result<u16, EvaluationError> {
        match e {
            Exp::Name(name) => match self.name(name)? {
                Meaning::Cell(address) => Ok(address),
                Meaning::Value(_) => Err(EvaluationError::NoCell),
            },
            Exp::Unary(UnaryOp::Load, operand) => self.value(operand),
            Exp::Bin(BinaryOp::Index, left, right) => {
                let left = self.value(left)?;
                Ok(left.wrapping_add(self.value(right)?))
            }
            _ => Err(EvaluationError::NoCell),
        }
    }
}

/// The value of a constant expression over those manifests of a section whose scope hasn't ended, the newest of which come last; `None` if it
/// has none.
pub(crate) fn constant_value(
    manifests: &[Manifest<'_>],
    section: usize,
    e: &Exp<'_>,
) -> Option<u16> {
    match e {
        Exp::Num(word) | Exp::Character(word) => Some(word.get()),
        Exp::True => Some(65535),
        Exp::False => Some(0),
        Exp::Name(name) => {
            for manifest in manifests.iter().rev() {
                if manifest.name == *name && manifest.section == section && manifest.is_outer() {
                    return Some(manifest.value);
                }
            }
            None
        }
        Exp::Unary(UnaryOp::Neg, operand) => {
            Some(constant_value(manifests, section, operand)?.wrapping_neg())
        }
        Exp::Unary(UnaryOp::Not, operand) => {
            let value = constant_value(manifests, section, operand)?;
            Some(Word::new(value).complemented().get())
        }
        Exp::Bin(operator, left, right) => {
            let left = constant_value(manifests, section, left)?;
            let right = constant_value(manifests, section, right)?;
            let op = op_of(operator)?;
            Some(apply(op, Word::new(left), Word::new(right))?.get())
        }
        _ => None,
    }
}

/// What is computed of an expression.
#[derive(Clone, Copy)]
enum Wanted {
    Value,
    Address,
}

/// Computes the value of the expression that is the only definition of a section.
fn of_section(
    evaluation: Evaluation<'_, '_>,
    declarations: &[Declaration<'_>],
    wanted: Wanted,
) -> Result<u16, EvaluationError> {
    let [declaration] = declarations else {
        return Err(EvaluationError::Syntax);
    };
    let Declaration::Let(list) = declaration else {
        return Err(EvaluationError::Syntax);
    };
    let [definition] = list.as_slice() else {
        return Err(EvaluationError::Syntax);
    };
    let Definition::Function(_, _, e) = definition else {
        return Err(EvaluationError::Syntax);
    };
    match wanted {
        Wanted::Value => evaluation.value(e),
        Wanted::Address => evaluation.address(e),
    }
}

/// A section with an expression as its only definition.
fn section_of(alloc: Global, text: &str) -> Result<Vec<u8>, Memory> {
    let mut section = Vec::new(alloc);
    section.extend_from_slice(b"LET START()=")?;
    section.extend_from_slice(text.as_bytes())?;
    Ok(section)
}

/// Reads the expression of a section, and computes its value or its address.
fn of_tokens(
    evaluation: Evaluation<'_, '_>,
    tokens: &[Token<'_>],
    wanted: Wanted,
) -> Result<u16, EvaluationError> {
    match parse(evaluation.alloc, tokens) {
        Ok(tree) => of_section(evaluation, &tree.declarations, wanted),
        Err(_) => Err(EvaluationError::Syntax),
    }
}

/// Reads an expression, and computes its value or its address.
fn computed(
    alloc: Global,
    scope: &DebugScope<'_, '_>,
    text: &str,
    wanted: Wanted,
) -> Result<u16, EvaluationError> {
    let section = section_of(alloc, text)?;
    let sources = [Source {
        name: b"",
        text: section.as_slice(),
    }];
    match lex(alloc, &sources, 0) {
        Ok(tokens) => of_tokens(Evaluation { alloc, scope }, tokens.as_slice(), wanted),
        Err(_) => Err(EvaluationError::Syntax),
    }
}

/// The value of an expression over the names in scope.
pub fn value_of(
    alloc: Global,
    scope: &DebugScope<'_, '_>,
    text: &str,
) -> Result<u16, EvaluationError> {
    computed(alloc, scope, text, Wanted::Value)
}

/// The address of the cell that an expression denotes.
pub fn address_of(
    alloc: Global,
    scope: &DebugScope<'_, '_>,
    text: &str,
) -> Result<u16, EvaluationError> {
    computed(alloc, scope, text, Wanted::Address)
}
