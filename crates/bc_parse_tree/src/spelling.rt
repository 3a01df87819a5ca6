//! The canonical spelling of a tree. There is one function for each type of tree, which appends the tree's tokens to
//! a list.
ghost use Rattle.std.specs.Prelude.{◌≡◌, ◌∷◌, [], ◌++◌, map, IfOk};
ghost use Rattle.bc_parse_tree.specs.Canonical.{whole, part_of, routine_of, after_first, after_commas, block_spelling, declarations_spelling, declaration_spelling, entries_spelling, definitions_spelling, definition_spelling, items_spelling, item_spelling, labels_spelling, label_spelling, command_spelling, section_spelling};
ghost use Rattle.bc_parse_tree.specs.Parts.{A, Name, kind_part, kind_parts};
ghost use Rattle.bc_parse_tree.specs.Spelling.{in_round, named};
ghost use Rattle.bc_parse_tree.specs.View.{exp_view, exps_view, command_view, block_view, declaration_view, declarations_view, definition_view, definitions_view, label_view, labels_view, item_view, items_view, constant_view, entries_view, section_view};
ghost use Rattle.bc_parse_tree.specs.Adds.{Adds, separator, joined};
ghost use Rattle.bc_lex_tokens.specs.declared.symbol.Symbol.TheVariants as sign;

use crate::{Block, Command, Constant, Declaration, Definition, Exp, Item, Label, Section, signs};
use bc_lex_tokens::{Symbol, TokenKind};
use bc_word::Memory;
use std::alloc::Global;

/// The canonical spelling of a section, as the kinds of its tokens.
///
/// Names and strings are slices of the source. Returns `Memory` if an allocation fails.
pub fn spell<'s>(alloc: Global, section: &Section<'s>) -> Result<Vec<TokenKind<'s>>, Memory>
    ensures { IfOk result (λ kinds. kind_parts kinds.items ≡ section_spelling (section_view section.now)) }
{
    let mut out = Vec::new(alloc);
    declarations(&mut out, &section.declarations)?;
    Ok(out)
}

/// Appends one token.
fn put<'s>(out: &mut Vec<TokenKind<'s>>, kind: TokenKind<'s>) -> Result<(), Memory>
    ensures { Adds result out.old out.new (kind_part kind.entry ∷ []) }
{
    Ok(out.push(kind)?)
}

/// Appends a symbol.
fn sign<'s>(out: &mut Vec<TokenKind<'s>>, symbol: Symbol) -> Result<(), Memory>
    ensures { Adds result out.old out.new (A symbol ∷ []) }
{
    put(out, TokenKind::Symbol(symbol))
}

/// Appends a name.
fn name<'s>(out: &mut Vec<TokenKind<'s>>, name: &'s [u8]) -> Result<(), Memory>
    ensures { Adds result out.old out.new (Name name.entry.now ∷ []) }
{
    put(out, TokenKind::Name(name))
}

/// A reserved word and a name.
fn worded_name<'s>(out: &mut Vec<TokenKind<'s>>, word: Symbol, text: &'s [u8]) -> Result<(), Memory>
    ensures { Adds result out.old out.new (A word ∷ Name text.entry.now ∷ []) }
{
    sign(out, word)?;
    name(out, text)
}

/// A reserved word and an opening section bracket.
fn opened<'s>(out: &mut Vec<TokenKind<'s>>, word: Symbol) -> Result<(), Memory>
    ensures { Adds result out.old out.new (A word ∷ A sign.OpenSection ∷ []) }
{
    sign(out, word)?;
    sign(out, Symbol::OpenSection)
}

/// The separator before an element of a list, which the first element doesn't have.
fn separate<'s>(out: &mut Vec<TokenKind<'s>>, is_first: bool, symbol: Symbol) -> Result<(), Memory>
    ensures { Adds result out.old out.new (separator is_first symbol) }
{
    if is_first { Ok(()) } else { sign(out, symbol) }
}

/// Names separated by commas.
#[tactic(auto, using(crate::proofs::Lists::named_is))]
fn names<'s>(out: &mut Vec<TokenKind<'s>>, names: &[&'s [u8]]) -> Result<(), Memory>
    ensures { Adds result out.old out.new (named (map (λ n. n.now) names.now)) }
{
    let mut is_first = true;
    for found in names {
        separate(out, is_first, Symbol::Comma)?;
        name(out, found)?;
        is_first = false;
    }
    Ok(())
}

/// Names separated by commas, in parentheses.
fn parameters<'s>(out: &mut Vec<TokenKind<'s>>, found: &[&'s [u8]]) -> Result<(), Memory>
    ensures { Adds result out.old out.new (in_round (named (map (λ n. n.now) found.now))) }
{
    sign(out, Symbol::OpenBracket)?;
    names(out, found)?;
    sign(out, Symbol::CloseBracket)
}

/// The name of a function or a routine, and its parameters.
fn heading<'s>(
    out: &mut Vec<TokenKind<'s>>,
    text: &'s [u8],
    found: &[&'s [u8]],
) -> Result<(), Memory>
    ensures { Adds result out.old out.new (Name text.entry.now ∷ in_round (named (map (λ n. n.now) found.now))) }
{
    name(out, text)?;
    parameters(out, found)
}

/// A name and `=`.
fn equated<'s>(out: &mut Vec<TokenKind<'s>>, text: &'s [u8]) -> Result<(), Memory>
    ensures { Adds result out.old out.new (Name text.entry.now ∷ A sign.Equal ∷ []) }
{
    name(out, text)?;
    sign(out, Symbol::Equal)
}

/// An expression in a place where it needs no parentheses.
#[cycle(spelling)]
fn whole<'s>(out: &mut Vec<TokenKind<'s>>, tree: &Exp<'s>) -> Result<(), Memory>
    ensures { Adds result out.old out.new (whole (exp_view tree.now)) }
{
    match tree {
        Exp::Name(text) => name(out, text),
        Exp::Num(number) => put(out, TokenKind::Number(number.get())),
        Exp::Character(byte) => put(out, TokenKind::Character(byte.get())),
        Exp::String(text) => put(out, TokenKind::String(text)),
        Exp::True => sign(out, Symbol::True),
        Exp::False => sign(out, Symbol::False),
        Exp::Table(constants) => listed(out, Symbol::Table, constants),
        Exp::Valof(body) => bodied(out, Symbol::ValueOf, body),
        Exp::Unary(operator, operand) => parted(out, signs::unary(*operator), operand),
        Exp::Bin(operator, left, right) => {
            part(out, left)?;
            parted(out, signs::binary(*operator), right)
        }
        Exp::Cond { test, this, that } => {
            part(out, test)?;
            parted(out, Symbol::Arrow, this)?;
            parted(out, Symbol::Comma, that)
        }
        Exp::Call(called, values) => {
            routine(out, called)?;
            arguments(out, values)
        }
    }
}

/// An expression as part of another one or of a list: in parentheses unless it is one token.
#[cycle(spelling)]
fn part<'s>(out: &mut Vec<TokenKind<'s>>, tree: &Exp<'s>) -> Result<(), Memory>
    ensures { Adds result out.old out.new (part_of (exp_view tree.now) (whole (exp_view tree.now))) }
{
    match tree {
        Exp::Name(_) | Exp::Num(_) | Exp::Character(_) | Exp::String(_) | Exp::True | Exp::False =>
            whole(out, tree),
        _ => bracketed(out, tree),
    }
}

/// A routine that is called: in parentheses unless it is a name.
#[cycle(spelling)]
fn routine<'s>(out: &mut Vec<TokenKind<'s>>, tree: &Exp<'s>) -> Result<(), Memory>
    ensures { Adds result out.old out.new (routine_of (exp_view tree.now) (whole (exp_view tree.now))) }
{
    match tree {
        Exp::Name(_) => whole(out, tree),
        _ => bracketed(out, tree),
    }
}

/// An expression in parentheses.
#[cycle(spelling)]
fn bracketed<'s>(out: &mut Vec<TokenKind<'s>>, tree: &Exp<'s>) -> Result<(), Memory>
    ensures { Adds result out.old out.new (in_round (whole (exp_view tree.now))) }
{
    sign(out, Symbol::OpenBracket)?;
    whole(out, tree)?;
    sign(out, Symbol::CloseBracket)
}

/// Expressions separated by commas.
#[cycle(spelling)]
fn expressions<'s>(out: &mut Vec<TokenKind<'s>>, list: &[Exp<'s>]) -> Result<(), Memory>
    ensures { Adds result out.old out.new (after_first (after_commas (exps_view list.now))) }
{
    let mut is_first = true;
    for each in list {
        separate(out, is_first, Symbol::Comma)?;
        part(out, each)?;
        is_first = false;
    }
    Ok(())
}

/// The arguments of a call, in parentheses.
#[cycle(spelling)]
fn arguments<'s>(out: &mut Vec<TokenKind<'s>>, list: &[Exp<'s>]) -> Result<(), Memory>
    ensures { Adds result out.old out.new (in_round (after_first (after_commas (exps_view list.now)))) }
{
    sign(out, Symbol::OpenBracket)?;
    expressions(out, list)?;
    sign(out, Symbol::CloseBracket)
}

/// A block in its section brackets.
#[cycle(spelling)]
#[tactic(auto, using(crate::proofs::Lists::declared_then_placed))]
fn block<'s>(out: &mut Vec<TokenKind<'s>>, body: &Block<'s>) -> Result<(), Memory>
    ensures { Adds result out.old out.new (block_spelling (block_view body.now)) }
{
    sign(out, Symbol::OpenSection)?;
    declarations(out, &body.declarations)?;
    items(out, &body.items, body.declarations.is_empty())?;
    sign(out, Symbol::CloseSection)
}

/// Declarations separated by semicolons.
#[cycle(spelling)]
fn declarations<'s>(out: &mut Vec<TokenKind<'s>>, list: &[Declaration<'s>]) -> Result<(), Memory>
    ensures { Adds result out.old out.new (after_first (declarations_spelling (declarations_view list.now))) }
{
    let mut is_first = true;
    for each in list {
        separate(out, is_first, Symbol::Semicolon)?;
        declaration(out, each)?;
        is_first = false;
    }
    Ok(())
}

/// A declaration: a list of constants, or a LET.
#[cycle(spelling)]
fn declaration<'s>(out: &mut Vec<TokenKind<'s>>, tree: &Declaration<'s>) -> Result<(), Memory>
    ensures { Adds result out.old out.new (declaration_spelling (declaration_view tree.now)) }
{
    match tree {
        Declaration::Constants(storage, constants) => {
            opened(out, signs::storage(*storage))?;
            entries(out, signs::entry(*storage), constants)?;
            sign(out, Symbol::CloseSection)
        }
        Declaration::Let(found) => {
            sign(out, Symbol::Let)?;
            definitions(out, found)
        }
    }
}

/// Names with their constants, separated by semicolons; `symbol` is written between name and constant.
#[cycle(spelling)]
fn entries<'s>(
    out: &mut Vec<TokenKind<'s>>,
    symbol: Symbol,
    constants: &[Constant<'s>],
) -> Result<(), Memory>
    ensures { Adds result out.old out.new (after_first (entries_spelling symbol (entries_view constants.now))) }
{
    let mut is_first = true;
    for constant in constants {
        separate(out, is_first, Symbol::Semicolon)?;
        name(out, constant.name)?;
        sign(out, symbol)?;
        part(out, &constant.value)?;
        is_first = false;
    }
    Ok(())
}

/// Definitions separated by AND.
#[cycle(spelling)]
fn definitions<'s>(out: &mut Vec<TokenKind<'s>>, list: &[Definition<'s>]) -> Result<(), Memory>
    ensures { Adds result out.old out.new (after_first (definitions_spelling (definitions_view list.now))) }
{
    let mut is_first = true;
    for each in list {
        separate(out, is_first, Symbol::And)?;
        definition(out, each)?;
        is_first = false;
    }
    Ok(())
}

/// One definition of a LET.
#[cycle(spelling)]
fn definition<'s>(out: &mut Vec<TokenKind<'s>>, tree: &Definition<'s>) -> Result<(), Memory>
    ensures { Adds result out.old out.new (definition_spelling (definition_view tree.now)) }
{
    match tree {
        Definition::Variables(variables, values) => {
            names(out, variables)?;
            listed(out, Symbol::Equal, values)
        }
        Definition::Vector(variable, greatest) => {
            equated(out, variable)?;
            parted(out, Symbol::Vector, greatest)
        }
        Definition::Function(function, found, value) => {
            heading(out, function, found)?;
            worded(out, Symbol::Equal, value)
        }
        Definition::Routine(routine, found, body) => {
            heading(out, routine, found)?;
            bodied(out, Symbol::Be, body)
        }
    }
}

/// Items separated by semicolons. If something precedes them in their block, they begin with a semicolon too.
#[cycle(spelling)]
fn items<'s>(
    out: &mut Vec<TokenKind<'s>>,
    list: &[Item<'s>],
    nothing_before: bool,
) -> Result<(), Memory>
    ensures { Adds result out.old out.new (joined nothing_before (items_spelling (items_view list.now))) }
{
    let mut is_first = nothing_before;
    for each in list {
        separate(out, is_first, Symbol::Semicolon)?;
        item(out, each)?;
        is_first = false;
    }
    Ok(())
}

/// The labels of an item, and its command if it has one.
#[cycle(spelling)]
fn item<'s>(out: &mut Vec<TokenKind<'s>>, tree: &Item<'s>) -> Result<(), Memory>
    ensures { Adds result out.old out.new (item_spelling (item_view tree.now)) }
{
    labels(out, &tree.labels)?;
    match &tree.command {
        Some(labelled) => command(out, labelled),
        None => Ok(()),
    }
}

/// Labels, each with its colon.
#[cycle(spelling)]
fn labels<'s>(out: &mut Vec<TokenKind<'s>>, list: &[Label<'s>]) -> Result<(), Memory>
    ensures { Adds result out.old out.new (labels_spelling (labels_view list.now)) }
{
    for each in list {
        label(out, each)?;
    }
    Ok(())
}

/// A label and its colon.
#[cycle(spelling)]
fn label<'s>(out: &mut Vec<TokenKind<'s>>, tree: &Label<'s>) -> Result<(), Memory>
    ensures { Adds result out.old out.new (label_spelling (label_view tree.now)) }
{
    match tree {
        Label::Case(constant) => parted(out, Symbol::Case, constant)?,
        Label::Default => sign(out, Symbol::Default)?,
        Label::Name(text) => name(out, text)?,
    }
    sign(out, Symbol::Colon)
}

/// A reserved word and an expression that needs no parentheses.
#[cycle(spelling)]
fn worded<'s>(out: &mut Vec<TokenKind<'s>>, word: Symbol, tree: &Exp<'s>) -> Result<(), Memory>
    ensures { Adds result out.old out.new (A word ∷ whole (exp_view tree.now)) }
{
    sign(out, word)?;
    whole(out, tree)
}

/// A symbol and an expression, in parentheses unless it is one token.
#[cycle(spelling)]
fn parted<'s>(out: &mut Vec<TokenKind<'s>>, word: Symbol, tree: &Exp<'s>) -> Result<(), Memory>
    ensures { Adds result out.old out.new (A word ∷ part_of (exp_view tree.now) (whole (exp_view tree.now))) }
{
    sign(out, word)?;
    part(out, tree)
}

/// A symbol and a list of expressions.
#[cycle(spelling)]
fn listed<'s>(out: &mut Vec<TokenKind<'s>>, word: Symbol, list: &[Exp<'s>]) -> Result<(), Memory>
    ensures { Adds result out.old out.new (A word ∷ after_first (after_commas (exps_view list.now))) }
{
    sign(out, word)?;
    expressions(out, list)
}

/// A reserved word and a block.
#[cycle(spelling)]
fn bodied<'s>(out: &mut Vec<TokenKind<'s>>, word: Symbol, body: &Block<'s>) -> Result<(), Memory>
    ensures { Adds result out.old out.new (A word ∷ block_spelling (block_view body.now)) }
{
    sign(out, word)?;
    block(out, body)
}

/// INTO and the items of a SWITCHON, in section brackets.
#[cycle(spelling)]
fn cases<'s>(out: &mut Vec<TokenKind<'s>>, list: &[Item<'s>]) -> Result<(), Memory>
    ensures { Adds result out.old out.new (A sign.Into ∷ A sign.OpenSection ∷ (after_first (items_spelling (items_view list.now)) ++ A sign.CloseSection
        ∷ [])) }
{
    opened(out, Symbol::Into)?;
    items(out, list, true)?;
    sign(out, Symbol::CloseSection)
}

/// A command. Every body is a block in section brackets.
#[cycle(spelling)]
fn command<'s>(out: &mut Vec<TokenKind<'s>>, tree: &Command<'s>) -> Result<(), Memory>
    ensures { Adds result out.old out.new (command_spelling (command_view tree.now)) }
{
    match tree {
        Command::Assign(places, values) => {
            expressions(out, places)?;
            listed(out, Symbol::Assign, values)
        }
        Command::Call(called, values) => {
            routine(out, called)?;
            arguments(out, values)
        }
        Command::Block(body) => block(out, body),
        Command::Break => sign(out, Symbol::Break),
        Command::Loop => sign(out, Symbol::Loop),
        Command::EndCase => sign(out, Symbol::EndCase),
        Command::Return => sign(out, Symbol::Return),
        Command::Finish => sign(out, Symbol::Finish),
        Command::ResultIs(value) => worded(out, Symbol::ResultIs, value),
        Command::Goto(label) => worded_name(out, Symbol::Goto, label),
        Command::Repeat(repeated) => {
            command(out, repeated)?;
            sign(out, Symbol::Repeat)
        }
        Command::RepeatWhile(repeated, test) => {
            command(out, repeated)?;
            worded(out, Symbol::RepeatWhile, test)
        }
        Command::RepeatUntil(repeated, test) => {
            command(out, repeated)?;
            worded(out, Symbol::RepeatUntil, test)
        }
        Command::If(test, body) => {
            worded(out, Symbol::If, test)?;
            bodied(out, Symbol::Do, body)
        }
        Command::Unless(test, body) => {
            worded(out, Symbol::Unless, test)?;
            bodied(out, Symbol::Do, body)
        }
        Command::While(test, body) => {
            worded(out, Symbol::While, test)?;
            bodied(out, Symbol::Do, body)
        }
        Command::Until(test, body) => {
            worded(out, Symbol::Until, test)?;
            bodied(out, Symbol::Do, body)
        }
        Command::Test { test, this, that } => {
            worded(out, Symbol::Test, test)?;
            bodied(out, Symbol::Do, this)?;
            bodied(out, Symbol::Else, that)
        }
        Command::For {
            variable,
            start,
            limit,
            step,
            body,
        } => {
            worded_name(out, Symbol::For, variable)?;
            worded(out, Symbol::Equal, start)?;
            worded(out, Symbol::To, limit)?;
            if let Some(by) = step {
                parted(out, Symbol::By, by)?;
            }
            bodied(out, Symbol::Do, body)
        }
        Command::SwitchOn(value, found) => {
            worded(out, Symbol::SwitchOn, value)?;
            cases(out, found)
        }
    }
}
