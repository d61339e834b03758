// Texts in double quotes, with their escapes.
ghost use Rattle.std.specs.Prelude.{◌≡◌, IfOk, Some};
ghost use Rattle.script.specs.Quoted.{quoted_text};
ghost use Rattle.script.specs.Steps.{AnswersOrStops};
ghost use Rattle.script.specs.Texts.{letter as letter_of, moves, text_of};

use crate::numbers::pair;
use crate::wrong::{Stop, Wrong};
use std::alloc::Global;

// Where in a text the reader is: between bytes, behind a backslash, behind \x, or behind \x and its first digit.
#[derive(Clone, Copy)]
pub enum Spot {
    Plain,
    Slash,
    Digits,
    Half(u8),
}

// What the next byte of a text does: it closes the text, gives a byte, or leads to another spot.
#[derive(Clone, Copy)]
pub enum Move {
    Close,
    Give(u8),
    Go(Spot),
}

// The byte that a letter behind a backslash stands for.
fn letter(b: u8) -> Option<u8>
    ensures { result ≡ letter_of b }
{
    match b {
        b'n' => Some(b'\n'),
        b'r' => Some(b'\r'),
        b't' => Some(b'\t'),
        b'\\' => Some(b'\\'),
        b'"' => Some(b'"'),
        _ => None,
    }
}

// The move of the next byte, where the escape is one.
fn advance(spot: Spot, b: u8) -> Option<Move>
    ensures { result ≡ moves spot b }
{
    match spot {
        Spot::Plain if b == b'"' => Some(Move::Close),
        Spot::Plain if b == b'\\' => Some(Move::Go(Spot::Slash)),
        Spot::Plain => Some(Move::Give(b)),
        Spot::Slash if b == b'x' => Some(Move::Go(Spot::Digits)),
        Spot::Slash => letter(b).map(Move::Give),
        Spot::Digits => Some(Move::Go(Spot::Half(b))),
        Spot::Half(high) => pair(high, b).map(Move::Give),
    }
}

// Reads a text from behind its opening quote: the text, and the bytes behind its closing quote.
pub(crate) fn text_of(heap: Global, bytes: &[u8]) -> Result<(Vec<u8>, &[u8]), Stop>
    ensures read { IfOk result (λ q. text_of bytes.now ≡ Some (q.0.items, q.1.now)) }
    ensures quoted { AnswersOrStops result (quoted_text bytes.now) (λ q. (q.0.items, q.1.now)) }
{
    let mut text = Vec::new(heap);
    let mut spot = Spot::Plain;
    for (i, b) in bytes.iter().enumerate() {
        match advance(spot, *b).ok_or(Wrong::Escape)? {
            Move::Close => return Ok((text, &bytes[i + 1..])),
            Move::Give(byte) => {
                text.push(byte)?;
                spot = Spot::Plain;
            }
            Move::Go(next) => spot = next,
        }
    }
    Err(Stop::Wrong(Wrong::OpenText))
}
