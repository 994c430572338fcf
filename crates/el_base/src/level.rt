ghost use Rattle.std.specs.Prelude.{◌≡◌, ◌↔◌, ◌<◌, ◌≤◌, IfSome, None};
ghost use Rattle.el_base.specs.Levels.{level_limit};

use std::marker::Model;

/// The greatest level of a universe.
pub const LEVEL_LIMIT: u32 = 1_000_000;

/// The level of a universe: `n` of `Set n`. It is at most [`LEVEL_LIMIT`]. Contracts see its number.
#[derive(Clone, Copy, Debug, PartialEq, Eq)]
pub struct Level {
    number: u32,
}

impl Model for Level {
    ghost use Rattle.std.specs.Prelude.{ℕ, ◌≤◌};
    ghost use Rattle.el_base.specs.Levels.{level_limit};

    ghost Value = { ℕ };

    ghost view = { λ l. l.number };

    ghost invariant = { λ l. l.number ≤ level_limit };

    ghost inverse = { λ n. record { number = n } };
}

impl Level {
    /// The level of `Set` alone.
    pub fn zero() -> Level
        ensures { result ≡ 0 }
    {
        Level { number: 0 }
    }

    /// The level with this number, unless the number is greater than the limit.
    pub fn new(number: u32) -> Option<Level>
        ensures level { IfSome result (λ l. l ≡ number) }
        ensures too_great { (result ≡ None) ↔ (level_limit < number) }
    {
        if number <= LEVEL_LIMIT {
            Some(Level { number })
        } else {
            None
        }
    }

    pub fn number(self) -> u32
        ensures number { result ≡ self }
        ensures limit { self ≤ level_limit }
    {
        self.number
    }
}
