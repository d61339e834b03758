// The token that a place lies in.
ghost use Rattle.std.specs.Prelude.{◌≡◌};
ghost use Rattle.requests.specs.Sheets.{where_in};

use counts::{ByteCount, Count, TokenCount};
use scanner::Token;

// The number of the token that the place lies in, and the offset there. At the end of the text that is the last token and 0; beyond it none.
#[tactic(auto, using(std::proofs::lemmas::Grind::common_steps, reading::proofs::Lists::start_more, reading::proofs::Split::start_zero))]
pub fn find(tokens: &[Token], place: ByteCount) -> Option<(TokenCount, ByteCount)>
    ensures { result ≡ where_in tokens.now place }
{
    let mut offset = place.get();
    for (number, token) in tokens.iter().enumerate() {
        let length = token.length.get();
        if offset < length {
            return Some((Count::of(number), Count::of(offset)));
        }
        offset -= length;
    }
    if offset == 0 && !tokens.is_empty() {
        Some((Count::of(tokens.len() - 1), Count::of(0)))
    } else {
        None
    }
}
