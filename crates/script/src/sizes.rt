// Sizes that a script may ask for.
ghost use Rattle.std.specs.Prelude.{◌≡◌, ◌≤◌};
ghost use Rattle.script.specs.Fields.{size_of};
ghost use Rattle.script.specs.Steps.{Answers};

use crate::wrong::Wrong;
use std::marker::Model;

// The greatest capacity, count of records and size of a buffer that a script may ask for.
const LIMIT: usize = 1_000_000;

// A number that is at most the limit.
#[derive(Clone, Copy)]
pub struct Size {
    number: usize,
}

impl Model for Size {
    ghost use Rattle.std.specs.Prelude.{ℕ, ◌≤◌};

    ghost Value = { ℕ };

    ghost view = { λ s. s.number };

    ghost invariant = { λ s. s.number ≤ 1000000 };

    ghost inverse = { λ n. record { number = n } };
}

impl TryFrom<usize> for Size {
    type Error = Wrong;

    ghost try_from_gives = { λ n r. Answers r (size_of n) (λ s. s) };

    fn try_from(number: usize) -> Result<Size, Wrong> {
        if number > LIMIT {
            return Err(Wrong::OverLimit);
        }
        Ok(Size { number })
    }
}

impl Size {
    pub(crate) fn get(self) -> usize
        ensures value { result ≡ self }
        ensures limit { result ≤ 1000000 }
    {
        self.number
    }
}
