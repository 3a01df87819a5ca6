//! The code of roots, with the bodies of their VALOFs.
ghost use Rattle.std.specs.Prelude.{◌≡◌, ◌+◌, ◌++◌, ◌≤◌, IfOk, IfErr, map, drop, length};
ghost use Rattle.std.specs.List.{All};
ghost use Rattle.bc_core.specs.Tree as tree;
ghost use Rattle.bc_core.specs.View.{exp, root as root_view};
ghost use Rattle.bc_rules_defs.specs.View.{derivation as derivation_view};
ghost use Rattle.bc_rules.specs.Code.{IsCodeOf, cells_of_root};
ghost use Rattle.bc_gen_defs.specs.Bodies.{fill as fill_of, level_of, label_ahead as label_ahead_of};
ghost use Rattle.bc_gen_defs.specs.Entries.{Plain, count_items as count_of};
ghost use Rattle.bc_gen.specs.Chosen.{coding};
ghost use Rattle.bc_gen.specs.Parts.{parts as parts_view};
ghost use Rattle.bc_gen.specs.Room.{room_in, RootHasRoom, PieceHasRoom};
ghost use Rattle.bc_gen.specs.Surroundings.{one_piece, roots_in, bodies_of, valofs_in};
ghost use Rattle.bc_gen.specs.Writing.{RunsOut, Writes};

use crate::choice::{Choice, chosen, pieces_of};
use crate::context::Around;
use crate::gen_error::GenError;
use crate::marked_items::{MarkedItem, count_items};
use crate::root_mark::RootMark;
use crate::writer::Writer;
use bc_cert_write::Workings;
use bc_core::{CoreExp, Root, copy_expression};
use bc_rules::CodeFault;
use bc_rules_defs::{Derivation, Piece};
use bc_text_items::Item;

/// When a test jumps, and where to.
#[derive(Clone, Copy)]
pub(crate) struct Jump {
    /// The truth on which it jumps.
    pub(crate) sense: bool,
    /// The label to which it jumps.
    pub(crate) target: u16,
}

/// The label of a VALOF, which comes right after its body.
fn label_ahead(pieces: &[Piece]) -> u16
    ensures { result ≡ label_ahead_of pieces.now }
{
    match pieces.first() {
        Some(Piece::Item(Item::Label(label))) => label.get(),
        _ => 0,
    }
}

/// The elements of a list from this index on.
fn following<T>(list: &[T], at: usize) -> &[T]
    requires { at ≤ length list.now }
    ensures { result.now ≡ drop at list.now }
{
    list.split_at(at).1
}

impl Writer {
    /// Writes the code that loads the value of an expression.
    #[cycle(commands)]
    pub(crate) fn value(
        &mut self,
        around: &Around<'_>,
        level: u16,
        expression: &CoreExp,
    ) -> Result<(), GenError>
        requires { RootHasRoom (room_in around.now) (tree.Value level (exp expression.now)) }
        ensures { Writes result self.old self.new (roots_in around.now (tree.Value level (exp expression.now)) 0 self.old.next) }
    {
        let expression = copy_expression(self.alloc, expression)?;
        self.root(around, Root::Value { level, expression }, 0)
    }

    /// Writes the code that tests an expression and jumps.
    #[cycle(commands)]
    pub(crate) fn test(
        &mut self,
        around: &Around<'_>,
        level: u16,
        expression: &CoreExp,
        jump: Jump,
    ) -> Result<(), GenError>
        requires { RootHasRoom (room_in around.now) (tree.Test level jump.sense (exp expression.now)) }
        ensures { Writes result self.old self.new (roots_in around.now (tree.Test level jump.sense (exp expression.now)) jump.target self.old.next) }
    {
        let expression = copy_expression(self.alloc, expression)?;
        let root = Root::Test {
            level,
            sense: jump.sense,
            expression,
        };
        self.root(around, root, jump.target)
    }

    /// Writes a root's code. The mark is inserted before the code afterwards, since it has the numbers of items of the VALOFs' bodies.
    #[cycle(commands)]
    pub(crate) fn root(
        &mut self,
        around: &Around<'_>,
        root: Root,
        target: u16,
    ) -> Result<(), GenError>
        requires { RootHasRoom (room_in around.now) (root_view root) }
        ensures { Writes result self.old self.new (roots_in around.now (root_view root) target self.old.next) }
    {
        let Choice { derivation, rows } = chosen(self.alloc, &root)?;
        let first = self.next;
        let code = self.coded(&root, &derivation, target)?;
        let at = self.parts.len();
        let bodies = self.fill(around, &code)?;
        let mark = RootMark {
            target,
            first,
            root,
            derivation,
            bodies,
            workings: Workings { rows, code },
        };
        let begins = MarkedItem::Begins(Box::new(self.alloc, mark)?);
        Ok(self.parts.insert(at, begins)?)
    }

    /// The code of a root by this derivation. Takes the derivation's labels.
    fn coded(
        &mut self,
        root: &Root,
        derivation: &Derivation,
        target: u16,
    ) -> Result<Vec<Piece>, GenError>
        requires derivation { derivation_view derivation.now ≡ coding.derivation (root_view root.now) }
        requires cells { cells_of_root (root_view root.now) ≤ 65536 }
        ensures chosen { IfOk result (λ pieces. pieces.items ≡ coding.pieces (root_view root.now) target self.old.next) }
        ensures code { IfOk result (λ pieces. IsCodeOf (root_view root.now) (derivation_view derivation.now) target self.old.next pieces.items) }
        ensures next { IfOk result (λ _. self.new.next ≡ self.old.next + coding.labels (root_view root.now)) }
        ensures out { IfErr result (λ e. RunsOut e (self.old.next + coding.labels (root_view root.now))) }
        ensures parts { self.new.parts ≡ self.old.parts }
    {
        let first = self.next;
        match pieces_of(self.alloc, root, derivation, target, first) {
            Ok(coded) => {
                self.take_to(coded.next)?;
                Ok(coded.pieces)
            }
            Err(CodeFault::NoRoom) => Err(GenError::TooManyLabels),
            Err(CodeFault::Memory) => Err(GenError::Memory),
        }
    }

    /// Writes the pieces of a root with the bodies of its VALOFs filled in. Returns the number of items of each body.
    #[cycle(commands)]
    fn fill(&mut self, around: &Around<'_>, pieces: &[Piece]) -> Result<Vec<u64>, GenError>
        requires { All (PieceHasRoom (room_in around.now)) pieces.now }
        ensures written { let x = fill_of Plain (level_of (valofs_in around.now.valofs.now))
            (bodies_of (valofs_in around.now.valofs.now) around.now.least) pieces.now self.old.next in Writes result self.old self.new (x.0, x.1) }
        ensures counts { let x = fill_of Plain (level_of (valofs_in around.now.valofs.now))
            (bodies_of (valofs_in around.now.valofs.now) around.now.least) pieces.now self.old.next in
            IfOk result (λ bodies. bodies.items ≡ map count_of x.2) }
    {
        let mut bodies = Vec::new(self.alloc);
        for i in 0..pieces.len() {
            let label = label_ahead(following(pieces, i + 1));
            self.piece(around, pieces[i], label, &mut bodies)?;
        }
        Ok(bodies)
    }

    /// Writes a piece. If it is a body, appends the number of its items to `bodies`.
    #[cycle(commands)]
    fn piece(
        &mut self,
        around: &Around<'_>,
        piece: Piece,
        label: u16,
        bodies: &mut Vec<u64>,
    ) -> Result<(), GenError>
        requires { PieceHasRoom (room_in around.now) piece }
        ensures written { let vs = valofs_in around.now.valofs.now in
            let x = one_piece (level_of vs) (bodies_of vs around.now.least) piece label self.old.next in Writes result self.old self.new (x.0, x.1) }
        ensures counts { let vs = valofs_in around.now.valofs.now in
            let x = one_piece (level_of vs) (bodies_of vs around.now.least) piece label self.old.next in
            IfOk result (λ _. bodies.new.items ≡ bodies.old.items ++ map count_of x.2) }
    {
        match piece {
            Piece::Item(item) => self.put(item),
            Piece::Body(number) => {
                let count = self.body(around, number, label)?;
                Ok(bodies.push(count)?)
            }
        }
    }

    /// Writes the body of a VALOF, and returns the number of its items.
    #[cycle(commands)]
    fn body(&mut self, around: &Around<'_>, number: u64, label: u16) -> Result<u64, GenError>
        requires { room_in around.now number }
        ensures written { Writes result self.old self.new (let vs = valofs_in around.now.valofs.now in
            bodies_of vs around.now.least number (level_of vs number) label self.old.next) }
        ensures count { IfOk result (λ found. let vs = valofs_in around.now.valofs.now in
            found ≡ count_of (bodies_of vs around.now.least number (level_of vs number) label self.old.next).0) }
    {
        let before = self.parts.len();
        self.valof(around, number, label)?;
        Ok(count_items(following(&self.parts, before)))
    }

    /// Writes the body of a VALOF whose RESULTIS jumps to this label.
    #[cycle(commands)]
    fn valof(&mut self, around: &Around<'_>, number: u64, label: u16) -> Result<(), GenError>
        requires { room_in around.now number }
        ensures { Writes result self.old self.new (let vs = valofs_in around.now.valofs.now in
            bodies_of vs around.now.least number (level_of vs number) label self.old.next) }
    {
        let number = number as usize;
        if number < around.least {
            return Ok(());
        }
        match around.valofs.get(number) {
            None => Ok(()),
            Some(valof) => {
                let within = Around::body(around.valofs, number + 1, label);
                self.block(&within, valof.level, &valof.body)?;
                self.zero()
            }
        }
    }
}
