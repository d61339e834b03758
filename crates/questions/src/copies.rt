// The bytes of a token, copied out of the text.
ghost use Rattle.std.specs.Prelude.{◌≡◌, ◌^◌, ◌<◌, ◌++◌, length, take, drop};
ghost use Rattle.requests.specs.Plain.{copied_as};
ghost use Rattle.requests.specs.Sheets.{copy_of};
ghost use Rattle.questions.specs.Loose.{LiesWithin, copy_from};

use crate::starts::start_of;
use counts::{ByteCount, Count, TokenCount};
use requests::SheetFault;
use scanner::Token;
use text::TextStore;

// Puts the text's bytes from `start` on to the front of the part, as many as there are.
#[tactic(auto, using(crate::proofs::Copied::put_more, crate::proofs::Copied::there))]
fn read_into<S: TextStore>(store: &S, start: ByteCount, part: &mut [u8])
    ensures small { length (S.TextStore.text store.now) < 2 ^ 64 }
    ensures part { part.new ≡ take (length part.old) (drop start (S.TextStore.text store.now)) ++ drop (length (drop start (S.TextStore.text store.now))) part.old }
{
    let there = store.len().get().saturating_sub(start.get());
    // by numbers, since behind an adapter of `iter_mut` nothing is known of what was written
    for offset in 0..there.min(part.len()) {
        if let Some(byte) = store.byte_at(Count::of(start.get() + offset)) {
            part[offset] = byte;
        }
    }
}

// Puts a token's bytes to the front of the buffer, leaves the rest of it alone and answers how many they are.
// A refusal leaves the whole buffer alone.
#[tactic(auto, using(crate::proofs::Copied::front_read), unfolding(crate::specs::Loose::copy_from, requests::specs::Sheets::copy_of))]
pub fn copy<S: TextStore>(
    store: &S,
    tokens: &[Token],
    number: TokenCount,
    buffer: &mut [u8],
) -> Result<ByteCount, SheetFault>
    ensures answer { copied_as result buffer.new ≡ copy_from (S.TextStore.text store.now) tokens.now number buffer.old }
    ensures copied { LiesWithin (S.TextStore.text store.now) tokens.now number → copied_as result buffer.new ≡ copy_of (S.TextStore.text store.now) tokens.now number buffer.old }
{
    let token = tokens.get(number.get()).ok_or(SheetFault::NoToken(number))?;
    let length = token.length;
    // by its length, since behind a slice's `get_mut` nothing is known of what was written
    if buffer.len() < length.get() {
        return Err(SheetFault::ShortBuffer(length));
    }
    read_into(store, start_of(tokens, number), &mut buffer[..length.get()]);
    Ok(length)
}
