//! How many cells of the frame the evaluation of a root uses, and whether their offsets fit into a word.

ghost use Rattle.std.specs.Prelude.{◌≡◌, ◌≤◌, ◌+◌, min, nat_le, length};
ghost use Rattle.std.specs.Option.{SomeIff};
ghost use Rattle.bc_core.specs.Tree.{Assign};
ghost use Rattle.bc_core.specs.View.{exp, args, root as root_of};
ghost use Rattle.bc_rules.specs.Code.{cells_of_root};
ghost use Rattle.bc_rules.specs.Levels.{cells as cells_of, cells_of_all};

use bc_core::{CoreExp, Root, operand};

/// The cap of all counts: more cells than a word can address.
const TOO_MANY: u32 = 65_537;

/// The number of cells of the frame, up to the greatest offset that the evaluation of an expression at this level uses. The bodies
/// of VALOFs don't count. Capped at 65,537.
#[cycle(cells)]
#[tactic(auto, using(crate::proofs::Counts::call_cells, crate::proofs::Counts::count_args))]
fn cells(e: &CoreExp, level: u32) -> u32
    requires { level ≤ 65536 }
    ensures { result ≡ min (cells_of (exp e.now) level) 65537 }
{
    match e {
        CoreExp::Load(e) => cells(e, level),
        CoreExp::Neg(e) => cells(e, level),
        CoreExp::Not(e) => cells(e, level),
        CoreExp::Bin(_, a, b) => {
            if level > 65_534 {
                return TOO_MANY;
            }
            (level + 2)
                .max(cells(a, level + 1))
                .max(cells(b, level + 1))
        }
        CoreExp::Cond(c, x, y) => cells(c, level).max(cells(x, level)).max(cells(y, level)),
        CoreExp::Call(arguments, routine) => match after_arguments(level, arguments.len()) {
            Some(following) => following
                .max(cells_of_arguments(arguments, level + 2))
                .max(cells(routine, following)),
            None => TOO_MANY,
        },
        CoreExp::Num(_)
        | CoreExp::Frame(_)
        | CoreExp::Glob(_)
        | CoreExp::Place(_)
        | CoreExp::Valof(_) => 0,
    }
}

/// The level after `count` arguments of a call; None if it is over 65,536.
fn after_arguments(level: u32, count: usize) -> Option<u32>
    requires { level ≤ 65536 }
    ensures { SomeIff result (level + 2 + count ≤ 65536) (level + 2 + count) }
{
    if level > 65_534 || count > (65_534 - level) as usize {
        return None;
    }
    Some(level + 2 + count as u32)
}

/// The number of cells that the arguments of a call use, where the first one is at this level. Capped at 65,537.
#[cycle(cells)]
#[tactic(auto, using(crate::proofs::Counts::cells_next, crate::proofs::Counts::cells_end))]
fn cells_of_arguments(arguments: &[CoreExp], level: u32) -> u32
    requires { level + length arguments.now ≤ 65536 }
    ensures { result ≡ min (cells_of_all (args arguments.now) level) 65537 }
{
    let mut most = 0;
    let mut at = level;
    for argument in arguments {
        most = most.max(cells(argument, at));
        at += 1;
    }
    most
}

/// Whether each offset of the frame that the evaluation of a root uses is at most 65,535. The bodies of its VALOFs don't count.
pub fn offsets_are_words(root: &Root) -> bool
    ensures { result ≡ nat_le (cells_of_root (root_of root.now)) 65536 }
{
    match root {
        Root::Value { level, expression } => cells(expression, *level as u32) <= 65_536,
        Root::Test {
            level,
            expression,
            ..
        } => cells(expression, *level as u32) <= 65_536,
        Root::Assign {
            level,
            value,
            address,
        } => sides(*level as u32, value, address) <= 65_536,
    }
}

/// The number of cells that the sides of an assignment use. Capped at 65,537.
fn sides(level: u32, value: &CoreExp, address: &CoreExp) -> u32
    requires { level ≤ 65535 }
    ensures { result ≡ min (cells_of_root (Assign level (exp value.now) (exp address.now))) 65537 }
{
    match operand(address) {
        Some(_) => cells(value, level).max(cells(address, level)),
        None => (level + 2)
            .max(cells(value, level + 1))
            .max(cells(address, level + 1)),
    }
}
