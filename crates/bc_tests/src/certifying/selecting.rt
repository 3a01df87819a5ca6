//! The selector with allocations that fail.

use bc_core::{CoreExp, Root};
use bc_select::{is_selectable, rows, select};
use bc_word::{Memory, Op};
use std::alloc::Global;

/// The variable at this offset in the frame.
fn at(alloc: Global, offset: u16) -> Result<CoreExp, Memory> {
    Ok(CoreExp::Load(Box::new(alloc, CoreExp::Frame(offset))?))
}

/// A binary operator.
fn bin(alloc: Global, op: Op, left: CoreExp, right: CoreExp) -> Result<CoreExp, Memory> {
    let left = Box::new(alloc, left)?;
    Ok(CoreExp::Bin(op, left, Box::new(alloc, right)?))
}

/// A root that is a value.
fn value(level: u16, expression: CoreExp) -> Root {
    Root::Value { level, expression }
}

/// A binary operator with the variables at these offsets.
fn of_two(alloc: Global, op: Op, left: u16, right: u16) -> Result<CoreExp, Memory> {
    let left = at(alloc, left)?;
    bin(alloc, op, left, at(alloc, right)?)
}

/// `(a + b) * (c - d)` with the variables at the offsets 2 to 5.
fn product(alloc: Global) -> Result<CoreExp, Memory> {
    let sum = of_two(alloc, Op::Add, 2, 3)?;
    let difference = of_two(alloc, Op::Subtract, 4, 5)?;
    bin(alloc, Op::Multiply, sum, difference)
}

/// Whether the root is selectable, and `select` and `rows` together have 22 rows for it. Both can run out of memory.
fn has_rows(alloc: Global, root: &Root) -> Result<bool, Memory> {
    if !is_selectable(root) {
        return Ok(false);
    }
    let selected = select(alloc, root)?;
    let table = rows(alloc, root)?;
    Ok(selected.table.len() + table.len() == 22)
}

/// Whether this holds for the product.
fn is_right(alloc: Global) -> Result<bool, Memory> {
    let root = value(6, product(alloc)?);
    has_rows(alloc, &root)
}

#[test]
fn growth_is_given(rt: HostRuntime) {
    assert_eq!(rt; is_right(rt.alloc()), Ok(true));
}

/// Under `tests/stress/failed-allocations` each allocation fails in turn. The result must be right, or a failed allocation.
#[test]
fn refused_growth_is_memory(rt: HostRuntime) {
    let got = is_right(rt.alloc());
    assert!(rt; got == Ok(true) || got == Err(Memory));
}
