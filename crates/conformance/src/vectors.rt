// Vectors: for each sheet a line with its bytes in hex, then a line with its tokens as kind:length; `-` stands for nothing.
ghost use Rattle.std.specs.Prelude.{◌≡◌, ◌<◌, IfSome};
ghost use Rattle.conformance.specs.Spans.{span};

use anyhow::{anyhow, bail};
use scanner::Token;
use std::alloc::Global;
use std::str::FromStr;

// What is compared of a token.
#[derive(Clone, Copy, PartialEq)]
pub struct Span {
    pub kind: u8,
    pub length: usize,
}

// The end token's, which no line has.
pub(crate) const END: Span = Span { kind: 1, length: 0 };

impl From<Token> for Span {
    ghost from_gives = { λ t s. s ≡ span t };

    fn from(token: Token) -> Span {
        Span {
            kind: token.kind,
            length: token.length.get(),
        }
    }
}

impl FromStr for Span {
    type Err = anyhow::Error;

    fn from_str(part: &str) -> anyhow::Result<Span> {
        let (kind, length) = part
            .split_once(':')
            .ok_or_else(|| anyhow!("no kind:length"))?;
        Ok(Span {
            kind: kind.parse()?,
            length: length.parse()?,
        })
    }
}

// The value of a digit of hex in lower case. std's and the kit's hex take upper case too.
fn digit(letter: u8) -> Option<u8>
    ensures { IfSome result (λ d. d < 16) }
{
    match letter {
        b'0'..=b'9' => Some(letter - b'0'),
        b'a'..=b'f' => Some(letter - b'a' + 10),
        _ => None,
    }
}

// The bytes of a sheet. A `for`, since behind `try_collect` each byte is a `Result` with room for an error, which takes half the time again.
pub(crate) fn sheet(heap: Global, line: &str) -> anyhow::Result<Vec<u8>> {
    let mut bytes = Vec::new(heap);
    if line == "-" {
        return Ok(bytes);
    }
    for pair in line.as_bytes().chunks(2) {
        let [high, low] = pair else {
            bail!("half a byte");
        };
        let (Some(high), Some(low)) = (digit(*high), digit(*low)) else {
            bail!("no digit of hex");
        };
        bytes.push(16 * high + low)?;
    }
    Ok(bytes)
}

// Kinds and lengths of its tokens, without the end token. A `for` for the same reason.
pub(crate) fn spans(heap: Global, line: &str) -> anyhow::Result<Vec<Span>> {
    let mut all = Vec::new(heap);
    if line == "-" {
        return Ok(all);
    }
    for part in line.split(' ') {
        all.push(part.parse()?)?;
    }
    Ok(all)
}
