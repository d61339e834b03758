// The time of a stamp.
ghost use Rattle.std.specs.Prelude.{◌≡◌, ◌+◌, ◌-◌, ◌*◌, ◌<◌, ◌&&◌, length, IfSome, if◌then◌else◌, Some, None, nat_lt};
ghost use Rattle.requests.specs.Sheets.{bytes_of, is_digit, time_of};
ghost use Rattle.questions.specs.Loose.{LiesWithin};

use crate::copies::copy;
use counts::TokenCount;
use scanner::Token;
use text::TextStore;

// The number that two digits write.
fn two_digits(tens: u8, ones: u8) -> Option<usize>
    ensures value { result ≡ (if is_digit tens && is_digit ones then Some (10 * (tens - 48) + (ones - 48)) else None) }
    ensures small { IfSome result (λ n. n < 100) }
{
    match (tens, ones) {
        (b'0'..=b'9', b'0'..=b'9') => Some(
            10 * usize::from(tens - b'0') + usize::from(ones - b'0'),
        ),
        _ => None,
    }
}

// The time that a stamp's bytes name, in hundredths of a second; none where they are no stamp.
#[tactic(auto, unfolding(requests::specs::Sheets::time_of))]
pub fn time(bytes: &[u8]) -> Option<usize>
    ensures { result ≡ time_of bytes.now }
{
    let [b'[', m1, m2, b':', s1, s2, b'.', h1, h2, b']'] = *bytes else {
        return None;
    };
    let minutes = two_digits(m1, m2)?;
    let seconds = two_digits(s1, s2)?;
    let hundredths = two_digits(h1, h2)?;
    Some(minutes * 6000 + seconds * 100 + hundredths)
}

// The time of a token; none where it is not there or is no stamp.
// The answer is so defined where the token lies within the text.
#[tactic(auto, using(crate::proofs::Copied::bytes_copied), unfolding(crate::specs::Loose::copy_from, requests::specs::Sheets::time_of))]
pub fn stamp_time<S: TextStore>(store: &S, tokens: &[Token], number: TokenCount) -> Option<usize>
    ensures { LiesWithin (S.TextStore.text store.now) tokens.now number → result ≡ (if nat_lt number (length tokens.now) then time_of (bytes_of (S.TextStore.text store.now) tokens.now number) else None) }
{
    let mut stamp = [0; 10];
    let length = copy(store, tokens, number, &mut stamp).ok()?;
    time(&stamp[..length.get()])
}
