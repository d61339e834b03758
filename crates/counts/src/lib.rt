// Counts of bytes, of tokens and of lines: numbers with a unit, so that none is taken where another is due.
#![tactic(auto)]

ghost use Rattle.std.specs.Prelude.{◌≡◌, ◌∷◌, ◌++◌, Some, decimal};
ghost use Rattle.std.specs.Fmt.{styled_decimal};

use std::fmt;
use std::marker::{Model, PhantomData};

// The unit of numbers of bytes, and of places in a text.
#[derive(Clone, Copy, PartialEq, Eq, PartialOrd, Ord, Debug, Default)]
pub struct Bytes;

// The unit of numbers of tokens, and of a token's number in its list.
#[derive(Clone, Copy, PartialEq, Eq, PartialOrd, Ord, Debug, Default)]
pub struct Tokens;

// The unit of numbers of lines, and of a line's number in its list.
#[derive(Clone, Copy, PartialEq, Eq, PartialOrd, Ord, Debug, Default)]
pub struct Lines;

// How many there are of what the unit names, or which of them one is, counted from 0. A contract sees the number.
#[derive(Clone, Copy, PartialEq, Eq, PartialOrd, Ord, Debug, Default)]
pub struct Count<U> {
    pub number: usize,
    pub unit: PhantomData<U>,
}

impl<U> Model for Count<U> {
    ghost use Rattle.std.specs.Prelude.{ℕ};

    ghost Value = { ℕ };

    ghost view = { λ c. c.number };

    ghost inverse = { λ n. record { number = n; unit = record {} } };
}

pub type ByteCount = Count<Bytes>;

pub type TokenCount = Count<Tokens>;

pub type LineCount = Count<Lines>;

impl<U> Count<U> {
    pub fn of(number: usize) -> Count<U>
        ensures { result ≡ number }
    {
        Count {
            number,
            unit: PhantomData,
        }
    }

    pub fn get(self) -> usize
        ensures { result ≡ self }
    {
        self.number
    }
}

// The number alone.
impl<U> fmt::Display for Count<U> {
    ghost output = { λ c. Some (decimal c) };

    ghost styled_output = { λ c s. Some (styled_decimal s c) };

    fn fmt<W: fmt::Write>(&self, f: &mut fmt::Formatter<W>) -> fmt::Result {
        fmt::Display::fmt(&self.number, f)
    }
}

// A refusal as it is told: the layer that refuses (1 the store, 2 the book, 3 the sheet), the number of the question that got a no,
// and the detail that the question names. Numbers, since a host is told them; code goes by the faults' enums.
#[derive(Clone, Copy, PartialEq, Eq, Debug)]
pub struct Refusal {
    pub layer: u8,
    pub number: u8,
    pub detail: usize,
}

// The three numbers, a blank between each and the next.
impl fmt::Display for Refusal {
    ghost output = { λ r. Some (decimal r.layer ++ (32 ∷ decimal r.number ++ (32 ∷ decimal r.detail))) };

    fn fmt<W: fmt::Write>(&self, f: &mut fmt::Formatter<W>) -> fmt::Result {
        write!(f, "{} {} {}", self.layer, self.number, self.detail)
    }
}
