//! The tree of a section as a flat list of nodes, in text order, for the forms of the listing `tree`.

use bc_parse_tree::{BinaryOp, Command, Definition, Exp, Label, Section, Storage, UnaryOp};
use bc_word::Memory;
use bcpl_places::{PartRole, PartVisit, TreePart, visits_of};
use std::alloc::Global;

/// A node. The nodes below it follow it, with a greater depth.
#[derive(Clone, Copy)]
pub struct SyntaxNode {
    /// Its depth; a declaration of the section has depth 0.
    pub depth: usize,
    /// What it is.
    pub kind: &'static str,
    /// The leaf at which it begins, or its own leaf.
    pub leaf: usize,
    /// Whether the text of that leaf belongs to the node: a name, a number, a character or a string.
    pub has_text: bool,
}

/// The signs of the operators with two operands, in the order of the enum.
const BINARY: [&str; 18] = [
    "EQV", "NEQV", "|", "&", "<<", ">>", "=", "NE", "<", ">=", ">", "<=", "+", "-", "*", "/",
    "REM", "!",
];

/// The signs of the operators with one operand, in the order of the enum.
const UNARY: [&str; 4] = ["NOT", "-", "!", "@"];

/// The sign of an operator with two operands.
fn binary(operator: BinaryOp) -> &'static str {
    BINARY.get(operator as usize).copied().unwrap_or("")
}

/// The sign of an operator with one operand.
fn unary(operator: UnaryOp) -> &'static str {
    UNARY.get(operator as usize).copied().unwrap_or("")
}

/// The word that begins a list of constants.
fn storage_word(storage: Storage) -> &'static str {
    match storage {
        Storage::Manifest => "MANIFEST",
        Storage::Static => "STATIC",
        Storage::Global => "GLOBAL",
    }
}

/// What an expression is called.
fn expression_kind(e: &Exp<'_>) -> &'static str {
    match e {
        Exp::Name(_) => "name",
        Exp::Num(_) => "number",
        Exp::Character(_) => "character",
        Exp::String(_) => "string",
        Exp::True => "TRUE",
        Exp::False => "FALSE",
        Exp::Table(_) => "TABLE",
        Exp::Valof(_) => "VALOF",
        Exp::Unary(operator, _) => unary(*operator),
        Exp::Bin(operator, _, _) => binary(*operator),
        Exp::Cond { .. } => "->",
        Exp::Call(_, _) => "call",
    }
}

/// What a command is called. A block that is a command has its name from its role.
fn command_kind(command: &Command<'_>) -> &'static str {
    match command {
        Command::Assign(_, _) => ":=",
        Command::Call(_, _) => "call",
        Command::Block(_) => "",
        Command::Break => "BREAK",
        Command::Loop => "LOOP",
        Command::EndCase => "ENDCASE",
        Command::Return => "RETURN",
        Command::Finish => "FINISH",
        Command::ResultIs(_) => "RESULTIS",
        Command::Goto(_) => "GOTO",
        Command::Repeat(_) => "REPEAT",
        Command::RepeatWhile(_, _) => "REPEATWHILE",
        Command::RepeatUntil(_, _) => "REPEATUNTIL",
        Command::If(_, _) => "IF",
        Command::Unless(_, _) => "UNLESS",
        Command::While(_, _) => "WHILE",
        Command::Until(_, _) => "UNTIL",
        Command::Test { .. } => "TEST",
        Command::For { .. } => "FOR",
        Command::SwitchOn(_, _) => "SWITCHON",
    }
}

/// What a block is called; nothing if it isn't listed, because the node around it says enough.
fn block_kind(role: PartRole) -> &'static str {
    match role {
        PartRole::Then => "THEN",
        PartRole::Else => "ELSE",
        PartRole::Do => "DO",
        PartRole::Alone => "block",
        _ => "",
    }
}

/// What a definition is called. Variables have a node each.
fn definition_kind(definition: &Definition<'_>) -> &'static str {
    match definition {
        Definition::Variables(_, _) => "",
        Definition::Vector(_, _) => "vector",
        Definition::Function(_, _, _) => "function",
        Definition::Routine(_, _, _) => "routine",
    }
}

/// What a label is called.
fn label_kind(label: &Label<'_>) -> &'static str {
    match label {
        Label::Case(_) => "CASE",
        Label::Default => "DEFAULT",
        Label::Name(_) => "label",
    }
}

/// What a part is called; nothing if it isn't listed.
fn kind_of(visit: PartVisit<'_, '_>) -> &'static str {
    match visit.part {
        TreePart::Expression(e) => expression_kind(e),
        TreePart::Command(command) => command_kind(command),
        TreePart::Block => block_kind(visit.role),
        TreePart::Label(label) => label_kind(label),
        TreePart::Constants(storage) => storage_word(storage),
        TreePart::Constant(_, _) => "constant",
        TreePart::Let => "LET",
        TreePart::Definition(definition) => definition_kind(definition),
    }
}

/// Whether the text of its leaf belongs to a part.
fn has_text(part: TreePart<'_, '_>) -> bool {
    match part {
        TreePart::Expression(e) => {
            matches!(
                e,
                Exp::Name(_) | Exp::Num(_) | Exp::Character(_) | Exp::String(_)
            )
        }
        TreePart::Command(command) => matches!(command, Command::Goto(_) | Command::For { .. }),
        TreePart::Label(label) => matches!(label, Label::Name(_)),
        TreePart::Constant(_, _) | TreePart::Definition(_) => true,
        TreePart::Block | TreePart::Constants(_) | TreePart::Let => false,
    }
}

/// The leaf of a part: that of the label for GOTO, and the first one otherwise.
fn leaf_of(visit: PartVisit<'_, '_>) -> usize {
    match visit.part {
        TreePart::Command(Command::Goto(_)) => visit.first.saturating_add(1),
        _ => visit.first,
    }
}

/// The number of parameters that follow the name of a definition.
fn parameters_of(part: TreePart<'_, '_>) -> usize {
    match part {
        TreePart::Definition(
            Definition::Function(_, parameters, _) | Definition::Routine(_, parameters, _),
        ) => parameters.len(),
        _ => 0,
    }
}

/// The nodes of a tree while they are collected. Once an allocation has failed, they are void.
#[derive(Drop)]
struct Collected {
    nodes: Vec<SyntaxNode>,
    /// The depth of the next node.
    depth: usize,
    is_refused: bool,
}

/// The nodes of a section. `Memory` if an allocation fails.
pub fn syntax_of(alloc: Global, section: &Section<'_>) -> Result<Vec<SyntaxNode>, Memory> {
    let visits = visits_of(alloc, section)?;
    let mut collected = Collected {
        nodes: Vec::new(alloc),
        depth: 0,
        is_refused: false,
    };
    for visit in &visits {
        if visit.is_end {
            collected.end(*visit);
        } else {
            collected.begin(*visit);
        }
    }
    if collected.is_refused {
        return Err(Memory);
    }
    Ok(collected.nodes)
}

impl Collected {
    /// Adds a node of this kind at this leaf.
    fn push(&mut self, kind: &'static str, leaf: usize, has_text: bool) {
        let node = SyntaxNode {
            depth: self.depth,
            kind,
            leaf,
            has_text,
        };
        if self.nodes.push(node).is_err() {
            self.is_refused = true;
        }
    }

    /// Adds a node of this kind at this leaf. The following nodes are below it.
    fn open(&mut self, kind: &'static str, leaf: usize, has_text: bool) {
        self.push(kind, leaf, has_text);
        self.depth = self.depth.saturating_add(1);
    }

    /// Begins a part. An initial value is below the node of its variable.
    fn begin(&mut self, visit: PartVisit<'_, '_>) {
        if let PartRole::Initial(name) = visit.role {
            self.open("variable", name, true);
        }
        let kind = kind_of(visit);
        if !kind.is_empty() {
            self.open(kind, leaf_of(visit), has_text(visit.part));
        }
        let mut leaf = visit.first;
        for _ in 0..parameters_of(visit.part) {
            leaf = leaf.saturating_add(1);
            self.push("parameter", leaf, true);
        }
    }

    /// Ends a part, and the node of its variable.
    fn end(&mut self, visit: PartVisit<'_, '_>) {
        if let PartRole::Initial(_) = visit.role {
            self.depth = self.depth.saturating_sub(1);
        }
        if !kind_of(visit).is_empty() {
            self.depth = self.depth.saturating_sub(1);
        }
    }
}
