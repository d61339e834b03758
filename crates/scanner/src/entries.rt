// The records that a list is kept in.
use counts::{Bytes, Count, Lines, Tokens};
use std::marker::Model;

// An entry of a list: a token, or a line, which is a token of tokens. A contract sees it as the entry of the definitions.
// length and reading count symbols, lookback counts entries, and mode is the mode after it. Kinds are numbers, being codes to the list above.
#[derive(Clone, Copy, PartialEq, Eq, Debug, Default)]
pub struct Entry<L, B> {
    pub length: Count<L>,
    pub reading: Count<L>,
    pub lookback: Count<B>,
    pub kind: u8,
    pub mode: u8,
}

impl<L, B> Model for Entry<L, B> {
    ghost use Rattle.reading.specs.Reading.{Entry as Meant, entry};

    ghost Value = { Meant };

    ghost view = { λ e. entry e.kind e.length e.reading e.mode e.lookback };

    ghost inverse = { λ e. record { length = e.length; reading = e.reading; lookback = e.lookback; kind = e.kind; mode = e.mode } };
}

pub type Token = Entry<Bytes, Tokens>;

pub type Line = Entry<Tokens, Lines>;
