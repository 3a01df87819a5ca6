//! What each expression is, found from its parts and from what its names were given. Two passes are made: the second
//! one knows what the first one met of variables that are assigned, and of parameters.

use bc_parse_tree::{BinaryOp, Storage, UnaryOp};
use bc_scope_names::operator;
use bc_word::{Memory, Word, apply};
use bcpl_index::{Declared, Fact, Form, Kind, Names, Sort, Tree};
use std::alloc::Global;

/// What is known of the nodes of a section.
#[derive(Drop)]
pub struct Kinds {
    /// The declarations.
    pub names: Names,
    facts: Vec<Fact>,
    /// Whether this is the second pass.
    is_second: bool,
}

/// Whether an operator is a relation.
pub fn is_relation(sign: BinaryOp) -> bool {
    matches!(
        sign,
        BinaryOp::Equal
            | BinaryOp::NotEqual
            | BinaryOp::Less
            | BinaryOp::LessEqual
            | BinaryOp::Greater
            | BinaryOp::GreaterEqual
    )
}

/// What the values of an operator are, by those of its operands.
fn kind_of(sign: BinaryOp, left: Kind, right: Kind) -> Kind {
    match sign {
        BinaryOp::And | BinaryOp::Or | BinaryOp::Equivalent | BinaryOp::NotEquivalent => left.or(
            right,
        ),
        BinaryOp::Multiply | BinaryOp::Divide | BinaryOp::Remainder => Kind::Number,
        BinaryOp::ShiftLeft | BinaryOp::ShiftRight if left.is_plain() => Kind::Number,
        BinaryOp::Add | BinaryOp::Subtract if left.is_plain() && right.is_plain() => Kind::Number,
        _ if is_relation(sign) => Kind::Truth,
        _ => Kind::Unknown,
    }
}

/// The value of an operator, if those of its operands are known.
pub fn value_of(sign: BinaryOp, left: Option<Word>, right: Option<Word>) -> Option<Word> {
    apply(operator(sign)?, left?, right?)
}

/// The negative of a value.
fn negated(value: Option<Word>) -> Option<Word> {
    Some(value?.negated())
}

/// A value with each bit inverted.
fn complemented(value: Option<Word>) -> Option<Word> {
    Some(value?.complemented())
}

/// A value as a number.
fn number_of(value: Option<Word>) -> Option<u16> {
    Some(value?.get())
}

/// Nothing is known of this many nodes.
fn unknown_facts(alloc: Global, count: usize) -> Result<Vec<Fact>, Memory> {
    let mut facts = Vec::new(alloc);
    facts.resize(count, Fact::unknown())?;
    Ok(facts)
}

impl Kinds {
    /// What is known of the nodes of a section. Returns `Memory` if an allocation fails.
    pub fn of(alloc: Global, tree: &Tree<'_>, library: usize) -> Result<Kinds, Memory> {
        let mut kinds = Kinds {
            names: Names::of(alloc, tree, library)?,
            facts: unknown_facts(alloc, tree.len())?,
            is_second: false,
        };
        kinds.first_pass(tree);
        kinds.is_second = true;
        kinds.second_pass(tree);
        Ok(kinds)
    }

    /// Visits all expressions, and what gives names their values, children before parents.
    fn first_pass(&mut self, tree: &Tree<'_>) {
        for at in tree.valued() {
            self.visit(tree, *at, tree.form(*at));
        }
    }

    /// Visits those again of which the first pass found nothing.
    fn second_pass(&mut self, tree: &Tree<'_>) {
        for at in tree.valued() {
            if self.kind(*at) == Kind::Unknown {
                self.visit(tree, *at, tree.form(*at));
            }
        }
    }

    /// Finds what a node is, and records what it gives to names.
    fn visit(&mut self, tree: &Tree<'_>, at: usize, form: Form) {
        match form {
            Form::Name => {
                let fact = self.named(at);
                self.set(at, fact);
            }
            Form::Unary(sign) => {
                let fact = self.monadic(tree, at, sign);
                self.set(at, fact);
            }
            Form::Bin(sign) => {
                let fact = self.dyadic(tree, at, sign);
                self.set(at, fact);
            }
            Form::Cond => {
                let this = self.kind(tree.second(at));
                let either = this.or(self.kind(tree.third(at)));
                self.set(at, Fact::plain(either));
            }
            Form::Call => {
                let fact = Fact::plain(self.given(tree, at));
                self.set(at, fact);
                if !self.is_second {
                    self.arguments(tree, at);
                }
            }
            _ => self.give(tree, at, form),
        }
    }

    /// Records what is known of a node.
    fn set(&mut self, at: usize, fact: Fact) {
        if let Some(known) = self.facts.get_mut(at) {
            *known = fact;
        }
    }

    /// What is known of a node.
    pub fn fact(&self, at: usize) -> Fact {
        match self.facts.get(at) {
            Some(fact) => *fact,
            None => Fact::unknown(),
        }
    }

    /// What a node is.
    pub fn kind(&self, at: usize) -> Kind {
        match self.facts.get(at) {
            Some(fact) => fact.kind,
            None => Kind::Unknown,
        }
    }

    /// The value of a node, if it is known.
    pub fn value(&self, at: usize) -> Option<Word> {
        match self.facts.get(at) {
            Some(fact) => fact.value(),
            None => None,
        }
    }

    /// What a monadic operator gives.
    fn monadic(&self, tree: &Tree<'_>, at: usize, sign: UnaryOp) -> Fact {
        let operand = tree.first(at);
        let kind = self.kind(operand);
        match sign {
            UnaryOp::Neg if kind.is_plain() => {
                Fact::constant(Kind::Number, negated(self.value(operand)))
            }
            UnaryOp::Not if kind == Kind::Truth || kind == Kind::Number => {
                Fact::constant(kind, complemented(self.value(operand)))
            }
            UnaryOp::Address if self.is_local(operand) => {
                Fact::of(Kind::Local, self.names.index_at(operand))
            }
            _ => Fact::unknown(),
        }
    }

    /// Whether a node is the name of something in a routine's frame.
    fn is_local(&self, at: usize) -> bool {
        match self.names.at(at) {
            Some(declared) => matches!(
                declared.sort,
                Sort::Variable | Sort::Counter | Sort::Vector | Sort::Parameter
            ),
            None => false,
        }
    }

    /// What a dyadic operator gives.
    fn dyadic(&self, tree: &Tree<'_>, at: usize, sign: BinaryOp) -> Fact {
        let (left, right) = (tree.first(at), tree.second(at));
        Fact::constant(
            kind_of(sign, self.kind(left), self.kind(right)),
            value_of(sign, self.value(left), self.value(right)),
        )
    }

    /// What a call gives.
    fn given(&self, tree: &Tree<'_>, at: usize) -> Kind {
        let Some(declared) = self.names.at(tree.first(at)) else {
            return Kind::Unknown;
        };
        let is_routine = declared.sort == Sort::Routine || declared.is_library;
        if is_routine && !declared.is_assigned {
            declared.gives
        } else {
            Kind::Unknown
        }
    }

    /// What a name means as a value.
    fn named(&self, at: usize) -> Fact {
        let index = self.names.index_at(at);
        let Some(declared) = self.names.at(at) else {
            return Fact::unknown();
        };
        match declared.sort {
            Sort::Constant => declared.first,
            Sort::Routine if !declared.is_assigned => Fact::of(Kind::Routine, index),
            Sort::Global if declared.is_library && !declared.is_assigned => {
                Fact::of(Kind::Routine, index)
            }
            Sort::Vector if !declared.is_assigned && !declared.is_addressed => {
                declared.first.with_declaration(index)
            }
            Sort::Variable | Sort::Static | Sort::Counter | Sort::Parameter => self.held(declared),
            _ => Fact::unknown(),
        }
    }

    /// What a variable holds.
    fn held(&self, declared: &Declared) -> Fact {
        if declared.is_addressed {
            Fact::unknown()
        } else if !declared.is_assigned && declared.sort != Sort::Parameter {
            declared.first
        } else if self.is_second {
            Fact::plain(match declared.all {
                Some(kind) => kind,
                None => Kind::Unknown,
            })
        } else {
            Fact::unknown()
        }
    }

    /// Records what a declaration or an assignment gives to names, and what a constant is. The second pass leaves out what
    /// the first one found for good.
    fn give(&mut self, tree: &Tree<'_>, at: usize, form: Form) {
        match form {
            Form::Entry(storage) => self.entry(tree, at, storage),
            Form::Variables => self.variables(tree, at),
            Form::Vector => self.vector(tree, at),
            Form::For => self.counter(tree, at),
            Form::Function => self.function(tree, at),
            _ if self.is_second => {}
            Form::Assign => self.assignment(tree, at),
            _ => self.set(at, written(tree, at, form)),
        }
    }

    /// Records the first value of a name.
    fn begin(&mut self, index: Option<usize>, first: Fact) {
        let kind = first.kind;
        if let Some(index) = index {
            self.names.set_first(index, first);
        }
        self.add(index, kind);
    }

    /// Records a further value of a name.
    fn add(&mut self, index: Option<usize>, kind: Kind) {
        if let Some(index) = index
            && !self.is_second
        {
            self.names.add_kind(index, kind);
        }
    }

    /// An entry of a list of constants.
    fn entry(&mut self, tree: &Tree<'_>, at: usize, storage: Storage) {
        let fact = self.fact(tree.first(at));
        let index = self.names.index_at(at);
        match storage {
            Storage::Manifest => self.begin(index, fact),
            Storage::Static => self.begin(index, Fact::plain(fact.kind)),
            Storage::Global => {
                if let Some(index) = index {
                    self.names.set_number(index, number_of(fact.value()));
                }
            }
        }
    }

    /// Variables with their initial values.
    fn variables(&mut self, tree: &Tree<'_>, at: usize) {
        let end = tree.end(at);
        let mut value = tree.first(at);
        for node in tree.first(at)..end {
            if !matches!(tree.form(node), Form::Variable) {
                break;
            }
            value = tree.end(node);
        }
        for node in tree.first(at)..end {
            if !matches!(tree.form(node), Form::Variable) || value >= end {
                break;
            }
            let index = self.names.index_at(node);
            let fact = self.fact(value);
            self.begin(index, fact);
            value = tree.end(value);
        }
    }

    /// A vector.
    fn vector(&mut self, tree: &Tree<'_>, at: usize) {
        let fact = Fact::cells(Kind::Vector, self.value(tree.first(at)));
        let index = self.names.index_at(at);
        self.begin(index, fact);
    }

    /// The variable of a FOR, which is declared before its block.
    fn counter(&mut self, tree: &Tree<'_>, at: usize) {
        let node = tree.first(at);
        let start = tree.end(node);
        let kind = if matches!(tree.form(start), Form::Character(_)) {
            Kind::Character
        } else if self.kind(start).is_plain() {
            Kind::Number
        } else {
            Kind::Unknown
        };
        let index = self.names.index_at(node);
        self.begin(index, Fact::plain(kind));
    }

    /// An assignment.
    fn assignment(&mut self, tree: &Tree<'_>, at: usize) {
        let places = tree.first(at);
        let values = tree.second(at);
        let mut place = tree.first(places);
        let mut value = tree.first(values);
        for _ in places..values {
            if place >= values {
                break;
            }
            if let Form::Name = tree.form(place) {
                let index = self.names.index_at(place);
                let kind = self.kind(value);
                self.add(index, kind);
            }
            place = tree.end(place);
            value = tree.end(value);
        }
    }

    /// The arguments of a call, which the parameters are given.
    fn arguments(&mut self, tree: &Tree<'_>, at: usize) {
        let Some(declared) = self.names.at(tree.first(at)) else {
            return;
        };
        if declared.sort != Sort::Routine {
            return;
        }
        let node = declared.node;
        let is_other = declared.is_passed || declared.is_assigned || declared.sets_global;
        let end = tree.end(at);
        let mut argument = tree.second(at);
        for parameter in tree.first(node)..tree.end(node) {
            if !matches!(tree.form(parameter), Form::Parameter) || argument >= end {
                break;
            }
            let kind = if is_other {
                Kind::Unknown
            } else {
                self.kind(argument)
            };
            let index = self.names.index_at(parameter);
            self.add(index, kind);
            argument = tree.end(argument);
        }
    }

    /// What a routine returns.
    fn function(&mut self, tree: &Tree<'_>, at: usize) {
        let mut value = tree.first(at);
        for node in tree.first(at)..tree.end(at) {
            value = node;
            if !matches!(tree.form(node), Form::Parameter) {
                break;
            }
        }
        let gives = self.kind(value);
        if let Some(index) = self.names.index_at(at) {
            self.names.set_gives(index, gives);
        }
    }
}

/// What a constant that is written out is, or a table.
fn written(tree: &Tree<'_>, at: usize, form: Form) -> Fact {
    match form {
        Form::Number(word) => Fact::literal_at(at, word),
        Form::Character(word) => Fact::constant(Kind::Character, Some(word)),
        Form::String => Fact::plain(Kind::String),
        Form::True => Fact::constant(Kind::Truth, Some(Word::new(65535))),
        Form::False => Fact::constant(Kind::Truth, Some(Word::new(0))),
        Form::Table => Fact::cells(Kind::Table, greatest_of(tree, at)),
        _ => Fact::unknown(),
    }
}

/// The greatest subscript of a table.
fn greatest_of(tree: &Tree<'_>, at: usize) -> Option<Word> {
    let end = tree.end(at);
    let mut child = tree.first(at);
    let mut count: u16 = 0;
    for _ in at..end {
        if child >= end {
            break;
        }
        count = count.saturating_add(1);
        child = tree.end(child);
    }
    Some(Word::new(count.checked_sub(1)?))
}
