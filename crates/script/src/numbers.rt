// Numbers and tables of a script.
ghost use Rattle.std.specs.Prelude.{◌≡◌, ◌+◌, ◌-◌, ◌*◌, ◌%◌, ◌<◌, ◌≢◌, length, IfSome, IfOk, Err, codes, fold};
ghost use Rattle.std.specs.Option.{ok_or};
ghost use Rattle.script.specs.Fields.{number_of, pairs, table_of};
ghost use Rattle.script.specs.Hex.{hex, pair as pair_of};
ghost use Rattle.script.specs.Steps.{AnswersOrStops};

use crate::wrong::{Stop, Wrong};
use std::alloc::Global;

// The number that the digits stand for in base ten. std's parse would take a + before them too.
pub(crate) fn number_of(word: &[u8]) -> Result<usize, Wrong>
    ensures value { IfOk result (λ n. n ≡ fold (λ a b. a * 10 + (b - 48)) 0 word.now) }
    ensures read { result ≡ number_of word.now }
{
    if word.is_empty() {
        return Err(Wrong::Missing);
    }
    let mut number: usize = 0;
    for b in word {
        if !b.is_ascii_digit() {
            return Err(Wrong::Number);
        }
        let digit = usize::from(*b - b'0');
        number = number
            .checked_mul(10)
            .and_then(|tens| tens.checked_add(digit))
            .ok_or(Wrong::TooLarge)?;
    }
    Ok(number)
}

// The value of a hex digit, which may be of either case.
fn hex_digit(b: u8) -> Option<u8>
    ensures value { result ≡ hex b }
    ensures within { IfSome result (λ d. d < 16) }
{
    let digit = char::from(b).to_digit(16)?;
    u8::try_from(digit).ok()
}

// The byte that a pair of hex digits stands for.
pub(crate) fn pair(high: u8, low: u8) -> Option<u8>
    ensures { result ≡ pair_of high low }
{
    Some(16 * hex_digit(high)? + hex_digit(low)?)
}

// The bytes that pairs of hex digits stand for. An odd length is refused before memory is asked for.
#[tactic(auto, using(crate::proofs::Digits::pairs_odd, crate::proofs::Digits::pairs_more, crate::proofs::Digits::pairs_bad, crate::proofs::Digits::even_behind))]
fn pairs_of(heap: Global, word: &[u8]) -> Result<Vec<u8>, Stop>
    ensures read { AnswersOrStops result (ok_or (pairs word.now) Wrong.Table) (λ v. v.items) }
    ensures odd { length word.now % 2 ≡ 1 → result ≡ Err (Stop.Wrong Wrong.Table) }
{
    if word.len() % 2 != 0 {
        return Err(Stop::Wrong(Wrong::Table));
    }
    let mut bytes = Vec::new(heap);
    for digits in word.chunks(2) {
        bytes.push(pair(digits[0], digits[1]).ok_or(Wrong::Table)?)?;
    }
    Ok(bytes)
}

// The bytes of a table: a pair of hex digits for each, or - for none.
pub(crate) fn table_of(heap: Global, word: &[u8]) -> Result<Vec<u8>, Stop>
    ensures read { AnswersOrStops result (table_of word.now) (λ v. v.items) }
    ensures odd { word.now ≢ codes "-" → length word.now % 2 ≡ 1 → result ≡ Err (Stop.Wrong Wrong.Table) }
{
    match word {
        b"" => Err(Stop::Wrong(Wrong::Missing)),
        b"-" => Ok(Vec::new(heap)),
        _ => pairs_of(heap, word),
    }
}
