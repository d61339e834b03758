// The requests to a sheet.
use counts::{ByteCount, LineCount, TokenCount};

// One request to a sheet.
#[derive(Drop)]
pub enum Request {
    // Cut this many bytes at a place, and insert these.
    Correct {
        place: ByteCount,
        cut: ByteCount,
        inserted: Vec<u8>,
    },
    // The token of this number.
    Token(TokenCount),
    // The line of this number.
    Line(LineCount),
    // The token that a place lies in, and the offset there.
    Where(ByteCount),
    // The time of the stamp of this number.
    Time(TokenCount),
    // The bytes of a token, put to the front of a buffer.
    Copy {
        token: TokenCount,
        buffer: Vec<u8>,
    },
    // Have two lines the same kinds of tokens in the same order?
    Alike(LineCount, LineCount),
}
