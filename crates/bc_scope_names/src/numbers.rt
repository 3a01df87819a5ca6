//! The numbers that a section's places, VALOFs and labels get, and sums that report overflow.
ghost use Rattle.std.specs.Prelude.{◌≡◌, ◌+◌, IfOk};

use bc_word::Memory;

/// The next number of each kind, at one point of a section.
#[derive(Clone, Copy, Debug, PartialEq, Eq)]
pub struct Numbers {
    /// The INTCODE label of the next place: a routine, static, table or string.
    pub place: u64,
    /// The number of the next VALOF.
    pub valof: u64,
    /// The number of the next label of a command list.
    pub label: u64,
}

/// The sum. Fails with `Memory` where it exceeds 64 bits, which counts of a tree that fits into memory never do.
pub fn sum(a: u64, b: u64) -> Result<u64, Memory>
    ensures { IfOk result (λ c. c ≡ a + b) }
{
    match a.checked_add(b) {
        Some(sum) => Ok(sum),
        None => Err(Memory),
    }
}

/// The number as 16 bits. Fails with `Memory` where it is greater than 65,535, which no number of a section without fault is.
pub fn short(n: u64) -> Result<u16, Memory>
    ensures { IfOk result (λ c. c ≡ n) }
{
    match u16::try_from(n) {
        Ok(short) => Ok(short),
        Err(_) => Err(Memory),
    }
}

impl Numbers {
    ghost use Rattle.bc_scope_names.specs.View.{numbers_view};
    ghost use Rattle.bc_scope_defs.specs.Scope.{after_place, after_valof, after_labels};
    ghost use Rattle.bc_scope_defs.specs.Found.{section_start};

    /// The numbers at the start of a section: places count from 1, VALOFs and labels from 0.
    pub fn start() -> Numbers
        ensures { numbers_view result ≡ section_start }
    {
        Numbers {
            place: 1,
            valof: 0,
            label: 0,
        }
    }

    /// The numbers after one place. Fails with `Memory` where a number exceeds 64 bits.
    pub fn after_place(self) -> Result<Numbers, Memory>
        ensures { IfOk result (λ n. numbers_view n ≡ after_place (numbers_view self)) }
    {
        Ok(Numbers {
            place: sum(self.place, 1)?,
            valof: self.valof,
            label: self.label,
        })
    }

    /// The numbers after one VALOF. Fails with `Memory` where a number exceeds 64 bits.
    pub fn after_valof(self) -> Result<Numbers, Memory>
        ensures { IfOk result (λ n. numbers_view n ≡ after_valof (numbers_view self)) }
    {
        Ok(Numbers {
            place: self.place,
            valof: sum(self.valof, 1)?,
            label: self.label,
        })
    }

    /// The numbers after `count` labels. Fails with `Memory` where a number exceeds 64 bits.
    pub fn after_labels(self, count: u64) -> Result<Numbers, Memory>
        ensures { IfOk result (λ n. numbers_view n ≡ after_labels (numbers_view self) count) }
    {
        Ok(Numbers {
            place: self.place,
            valof: self.valof,
            label: sum(self.label, count)?,
        })
    }
}
