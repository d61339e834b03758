// Lines compared by the kinds of their tokens.
ghost use Rattle.std.specs.Prelude.{◌≡◌, ◌<◌, ◌≤◌, length, MatchOption};
ghost use Rattle.scanner.specs.Numbers.{kinds_of};
ghost use Rattle.requests.specs.Sheets.{alike_in, kinds_in, same};

use crate::starts::start_of;
use counts::LineCount;
use scanner::{Line, Token};

// The tokens of a line, as many of them as there are; none where the line is not there.
fn tokens_of<'a>(tokens: &'a [Token], lines: &[Line], number: LineCount) -> Option<&'a [Token]>
    ensures { MatchOption result (length lines.now ≤ number) (λ part. (number < length lines.now) × (kinds_of part.now ≡ kinds_in (kinds_of tokens.now) lines.now number)) }
{
    let length = lines.get(number.get())?.length.get();
    let start = start_of(lines, number).get().min(tokens.len());
    let rest = &tokens[start..];
    Some(&rest[..length.min(rest.len())])
}

// Do both have the same kinds in the same order?
fn same_kinds(a: &[Token], b: &[Token]) -> bool
    ensures { result ≡ same (kinds_of a.now) (kinds_of b.now) }
{
    // the lengths first, since `eq` goes over what both have in common before it sees that one is longer
    a.len() == b.len()
        && a.iter()
            .map(|token| token.kind)
            .eq(b.iter().map(|token| token.kind))
}

// Do two lines have the same kinds of tokens in the same order? None where either line is not there.
// The tokens are those before the end token.
#[tactic(auto, unfolding(requests::specs::Sheets::alike_in))]
pub fn alike(tokens: &[Token], lines: &[Line], a: LineCount, b: LineCount) -> Option<bool>
    ensures { result ≡ alike_in (kinds_of tokens.now) lines.now a b }
{
    // the second line too is there before the lengths of any are added up
    lines.get(b.get())?;
    let first = tokens_of(tokens, lines, a)?;
    let second = tokens_of(tokens, lines, b)?;
    Some(same_kinds(first, second))
}
