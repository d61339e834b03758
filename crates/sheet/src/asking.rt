// What is asked of a sheet.
ghost use Rattle.std.specs.Prelude.{◌≡◌, length, if◌then◌else◌, None, nat_lt};
ghost use Rattle.std.specs.List.{slice_get};
ghost use Rattle.reading.specs.Reading.{kinds};
ghost use Rattle.requests.specs.Plain.{copied_as};
ghost use Rattle.requests.specs.Sheets.{where_in, alike_in, copy_of, bytes_of, time_of};
ghost use Rattle.questions.specs.Loose.{LiesWithin, copy_from};
ghost use Rattle.sheet.specs.Lists.{tokens_of, lines_of};

use crate::sheets::Sheet;
use counts::{ByteCount, LineCount, TokenCount};
use questions::{alike, copy, find, stamp_time};
use requests::SheetFault;
use scanner::{Line, Token};
use text::TextStore;

impl<S> Sheet<S> {
    // The token of a number, or none where there is no such token.
    pub fn token(&self, number: TokenCount) -> Option<Token>
        ensures { result ≡ slice_get (tokens_of self.now) number }
    {
        self.tokens.entry(number)
    }

    // The line of a number, or none where there is no such line.
    pub fn line(&self, number: LineCount) -> Option<Line>
        ensures { result ≡ slice_get (lines_of self.now) number }
    {
        self.lines.entry(number)
    }

    // The list of the tokens, through the end token.
    pub fn token_list(&self) -> &[Token]
        ensures { result.now ≡ tokens_of self.now }
    {
        self.tokens.list()
    }

    // The list of the lines, through the end line.
    pub fn line_list(&self) -> &[Line]
        ensures { result.now ≡ lines_of self.now }
    {
        self.lines.list()
    }

    // The number of the token that a place lies in, and the offset there; the end token and 0 at the end of the text, and none beyond it.
    pub fn find(&self, place: ByteCount) -> Option<(TokenCount, ByteCount)>
        ensures { result ≡ where_in (tokens_of self.now) place }
    {
        find(self.token_list(), place)
    }

    // Do two lines have the same kinds of tokens in the same order? None where either line is not there.
    pub fn alike(&self, a: LineCount, b: LineCount) -> Option<bool>
        ensures { result ≡ alike_in (kinds (tokens_of self.now)) (lines_of self.now) a b }
    {
        alike(self.tokens.kinds().0, self.lines.list(), a, b)
    }
}

impl<S: TextStore> Sheet<S> {
    // The time of a stamp in hundredths of a second; none where there is no such token, or it is no stamp.
    // So it is defined for a token that lies within the text.
    pub fn time(&self, number: TokenCount) -> Option<usize>
        ensures { LiesWithin (S.TextStore.text self.now.store) (tokens_of self.now) number → result ≡ (if nat_lt number (length (tokens_of self.now)) then time_of (bytes_of (S.TextStore.text self.now.store) (tokens_of self.now) number) else None) }
    {
        stamp_time(&self.store, self.token_list(), number)
    }

    // Puts a token's bytes to the front of a buffer and answers how many they are. The rest of the buffer is left alone, and all of it on a refusal.
    pub fn copy(&self, number: TokenCount, buffer: &mut [u8]) -> Result<ByteCount, SheetFault>
        ensures answer { copied_as result buffer.new ≡ copy_from (S.TextStore.text self.now.store) (tokens_of self.now) number buffer.old }
        ensures copied { LiesWithin (S.TextStore.text self.now.store) (tokens_of self.now) number → copied_as result buffer.new ≡ copy_of (S.TextStore.text self.now.store) (tokens_of self.now) number buffer.old }
    {
        copy(&self.store, self.token_list(), number, buffer)
    }
}
