// What can be wrong with a script.
ghost use Rattle.std.specs.Prelude.{◌≡◌, Some};
ghost use Rattle.script.specs.declared.wrong.Stop.TheVariants as stop;
ghost use Rattle.script.specs.Wrongs.{words};

use std::alloc::{AllocError, AllocFailed};
use std::fmt;

#[derive(Clone, Copy, PartialEq, Eq, Debug)]
pub enum Wrong {
    Command,
    Missing,
    Left,
    Number,
    TooLarge,
    OverLimit,
    NoText,
    OpenText,
    Escape,
    Table,
    Store,
    Twice,
    Late,
}

// What is told of a line that breaks the rules so.
impl fmt::Display for Wrong {
    ghost output = { λ w. Some (words w) };

    fn fmt<W: fmt::Write>(&self, f: &mut fmt::Formatter<W>) -> fmt::Result {
        match self {
            Wrong::Command => f.write_str("no such command"),
            Wrong::Missing => f.write_str("a field is missing"),
            Wrong::Left => f.write_str("more than the command takes"),
            Wrong::Number => f.write_str("not a number in base ten"),
            Wrong::TooLarge => f.write_str("a number that does not fit 64 bits"),
            Wrong::OverLimit => f.write_str("a number above 1000000"),
            Wrong::NoText => f.write_str("not a text in double quotes"),
            Wrong::OpenText => f.write_str("a text without its closing quote"),
            Wrong::Escape => f.write_str("no such escape in a text"),
            Wrong::Table => f.write_str("neither pairs of hex digits nor -"),
            Wrong::Store => f.write_str("a store that is neither flat nor gap"),
            Wrong::Twice => f.write_str("a set-up line of this kind came before"),
            Wrong::Late => f.write_str("a set-up line behind a request"),
        }
    }
}

// Why no line or no script was made.
#[derive(Clone, Copy)]
pub enum Stop {
    NoMemory,
    Wrong(Wrong),
}

impl From<AllocError> for Stop {
    ghost from_gives = { λ _ r. r ≡ stop.NoMemory };

    fn from(_error: AllocError) -> Stop {
        Stop::NoMemory
    }
}

impl<T: Drop> From<AllocFailed<T>> for Stop {
    ghost from_gives = { λ _ r. r ≡ stop.NoMemory };

    fn from(_refused: AllocFailed<T>) -> Stop {
        Stop::NoMemory
    }
}

impl From<Wrong> for Stop {
    ghost from_gives = { λ w r. r ≡ stop.Wrong w };

    fn from(wrong: Wrong) -> Stop {
        Stop::Wrong(wrong)
    }
}

// Why a script was not read: no memory, or the first line that breaks the rules, counted from 1.
#[derive(Clone, Copy)]
pub enum Broken {
    NoMemory,
    Line { number: usize, wrong: Wrong },
}
