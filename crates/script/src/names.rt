// The words that commands begin with.
ghost use Rattle.std.specs.Prelude.{◌≡◌};
ghost use Rattle.std.specs.Option.{ok_or};
ghost use Rattle.script.specs.declared.wrong.Wrong.TheVariants.{Command};
ghost use Rattle.script.specs.Names.{name_of};

use crate::wrong::Wrong;

#[derive(Clone, Copy)]
pub enum Name {
    Store,
    Text,
    Memory,
    TokenBook,
    LineBook,
    Correct,
    Token,
    Line,
    Where,
    Time,
    Copy,
    Alike,
}

impl TryFrom<&[u8]> for Name {
    type Error = Wrong;

    ghost try_from_gives = { λ w r. r ≡ ok_or (name_of w.now) Command };

    fn try_from(word: &[u8]) -> Result<Name, Wrong> {
        match word {
            b"store" => Ok(Name::Store),
            b"text" => Ok(Name::Text),
            b"memory" => Ok(Name::Memory),
            b"token-book" => Ok(Name::TokenBook),
            b"line-book" => Ok(Name::LineBook),
            b"correct" => Ok(Name::Correct),
            b"token" => Ok(Name::Token),
            b"line" => Ok(Name::Line),
            b"where" => Ok(Name::Where),
            b"time" => Ok(Name::Time),
            b"copy" => Ok(Name::Copy),
            b"alike" => Ok(Name::Alike),
            _ => Err(Wrong::Command),
        }
    }
}
