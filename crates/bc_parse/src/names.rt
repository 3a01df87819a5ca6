//! Lists of names.
ghost use Rattle.std.specs.Prelude.{◌≡◌, length};
ghost use Rattle.bc_parse_defs.specs.Reading.{names_read, name_turn, parameters_read};
ghost use Rattle.bc_parse.specs.Seen.{seen, list_view, read_view, Reads, Takes};
ghost use Rattle.bc_parse.specs.Names.{names_view};

use crate::cursor;
use crate::cursor::Rest;
use crate::fault::ReadFault;
use crate::read::{Read, ReadResult, Step};
use bc_lex_tokens::Symbol;
use std::alloc::Global;

/// Reads one more name, and finds out whether it is the last.
#[tactic(auto, unfolding(bc_parse_defs::specs::Reading::name_turn), using(crate::proofs::Lists::names_view_push))]
fn name_step<'s, 't>(
    list: Read<'s, 't, Vec<&'s [u8]>>,
) -> Result<Step<'s, 't, Vec<&'s [u8]>>, ReadFault>
    ensures { Takes (list_view names_view) result (name_turn (read_view (list_view names_view) list.entry)) }
{
    let height = list.height;
    let mut tree = list.tree;
    let (name, rest) = cursor::name(list.rest)?;
    tree.push(name)?;
    Ok(match cursor::after(Symbol::Comma, rest) {
        None => Step::Last(Read { tree, height, rest }),
        Some(rest) => Step::More(Read { tree, height, rest }),
    })
}

/// One or more names, separated by commas.
#[tactic(auto, unfolding(bc_parse_defs::specs::Reading::names_read))]
pub fn names<'s, 't>(alloc: Global, rest: Rest<'s, 't>) -> ReadResult<'s, 't, Vec<&'s [u8]>>
    ensures { Reads (list_view names_view) result (names_read (seen rest.entry)) }
{
    let mut found = Read {
        tree: Vec::new(alloc),
        height: 0,
        rest,
    };
    for _ in 0..rest.parts.len() + 1 {
        match name_step(found)? {
            Step::Last(list) => return Ok(list),
            Step::More(list) => found = list,
        }
    }
    Err(ReadFault::Expected(found.rest.parts.len()))
}

/// The parameters of a routine, after `(`. The `)` is read too.
#[tactic(auto, unfolding(bc_parse_defs::specs::Reading::parameters_read))]
pub fn parameters<'s, 't>(alloc: Global, rest: Rest<'s, 't>) -> ReadResult<'s, 't, Vec<&'s [u8]>>
    ensures { Reads (list_view names_view) result (parameters_read (seen rest.entry)) }
{
    if let Some(rest) = cursor::after(Symbol::CloseBracket, rest) {
        return Ok(Read {
            tree: Vec::new(alloc),
            height: 0,
            rest,
        });
    }
    let found = names(alloc, rest)?;
    let rest = cursor::expect(Symbol::CloseBracket, found.rest)?;
    Ok(Read {
        tree: found.tree,
        height: 0,
        rest,
    })
}

/// The number of names in a list.
#[tactic(auto, using(crate::proofs::Lists::length_names_view))]
pub fn name_count(list: &Vec<&[u8]>) -> usize
    ensures { result ≡ length (names_view list.now.items) }
{
    list.len()
}
