//! The number of a global, with its range in the type.

ghost use Rattle.std.specs.Prelude.{◌≡◌, ◌<◌, ◌^◌};
ghost use Rattle.std.specs.Option.{SomeIff};

use std::marker::Model;

/// The number of a cell of the global vector, 0 to 511. In contracts it is that number.
#[derive(Clone, Copy, Debug, Default, PartialEq, Eq, Hash, PartialOrd, Ord)]
pub struct GlobalNumber {
    number: u16,
}

impl Model for GlobalNumber {
    ghost use Rattle.std.specs.Prelude.{ℕ, ◌<◌};

    ghost Value = { ℕ };

    ghost view = { λ g. g.number };

    ghost invariant = { λ g. g.number < 512 };

    ghost inverse = { λ n. record { number = n } };
}

impl GlobalNumber {
    /// The global with this number; `None` if the number is above 511.
    pub fn new(number: u16) -> Option<GlobalNumber>
        ensures { SomeIff result (number < 512) number }
    {
        if number < 512 {
            Some(GlobalNumber { number })
        } else {
            None
        }
    }

    /// The number, 0 to 511.
    pub fn get(self) -> u16
        ensures same { result ≡ self }
        ensures below { self < 512 }
    {
        self.number
    }
}

impl From<GlobalNumber> for u16 {
    ghost from_gives = { λ global number. number ≡ global };

    fn from(global: GlobalNumber) -> u16 {
        global.number
    }
}
