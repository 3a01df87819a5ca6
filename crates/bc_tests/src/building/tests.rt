//! `build` without sources.

use bc_build::{Built, Source, build};
use std::alloc::Global;
use std::test::Fail;

/// Builds without any source. None if that is refused.
fn built_of_nothing(alloc: Global) -> Result<Option<Built>, Fail> {
    let sources: Vec<Source<'_>> = Vec::new(alloc);
    let mains: Vec<usize> = Vec::new(alloc);
    match build(alloc, sources.as_slice(), mains.as_slice()) {
        Ok(built) => Ok(Some(built)),
        Err(_) => Ok(None),
    }
}

/// The address at which the stack begins, or 0 if nothing was built.
fn stack_base(built: &Option<Built>) -> u16 {
    match built {
        Some(built) => built.image.stack_base.get(),
        None => 0,
    }
}

/// Without sources the image consists of the primitives, and the stack begins after them at 546.
#[test]
fn nothing_is_built_of_nothing(rt: HostRuntime) -> Result<(), Fail> {
    let built = built_of_nothing(rt.alloc())?;
    assert_eq!(rt; stack_base(&built), 546);
    Ok(())
}
