//! Constructors of the `Core` commands that hold blocks and lists. They are functions so that a proof about the cycle in
//! `blocks.rt` can use their contracts, without unfolding the views of trees.
ghost use Rattle.std.specs.Prelude.{◌≡◌};
ghost use Rattle.bc_core.specs.Commands.{If, Test, While, Repeat, RepeatWhile, For, SwitchOn, Nested};
ghost use Rattle.bc_core.specs.View.{exp, command, items, block_of};

use bc_core::{Block, Command, Condition, CoreExp, ListItem};
use bc_word::Word;

/// The command that is a block.
pub fn nested(block: Block) -> Command
    ensures { command result ≡ Nested (block_of block) }
{
    Command::Nested(block)
}

/// IF or UNLESS, by the sense of the test.
pub fn conditional(test: Condition, block: Block) -> Command
    ensures { command result ≡ If test.sense (exp test.test) (block_of block) }
{
    Command::If(test, block)
}

/// TEST.
pub fn chosen(test: CoreExp, this: Block, that: Block) -> Command
    ensures { command result ≡ Test (exp test) (block_of this) (block_of that) }
{
    Command::Test(test, this, that)
}

/// WHILE or UNTIL, by the sense of the test.
pub fn looped(test: Condition, block: Block) -> Command
    ensures { command result ≡ While test.sense (exp test.test) (block_of block) }
{
    Command::While(test, block)
}

/// REPEAT.
pub fn forever(block: Block) -> Command
    ensures { command result ≡ Repeat (block_of block) }
{
    Command::Repeat(block)
}

/// REPEATWHILE or REPEATUNTIL, by the sense of the test.
pub fn repeated(block: Block, test: Condition) -> Command
    ensures { command result ≡ RepeatWhile (block_of block) test.sense (exp test.test) }
{
    Command::RepeatWhile(block, test)
}

/// FOR from `start` to `limit` in steps of `by`.
pub fn counting(start: CoreExp, limit: CoreExp, by: Word, body: Block) -> Command
    ensures { command result ≡ For (exp start) (exp limit) by (block_of body) }
{
    Command::For {
        start,
        limit,
        by,
        body,
    }
}

/// SWITCHON `of`, with the items of its list.
pub fn switch(of: CoreExp, list: Vec<ListItem>) -> Command
    ensures { command result ≡ SwitchOn (exp of) (items list.items) }
{
    Command::SwitchOn(of, list)
}
