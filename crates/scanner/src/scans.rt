// One scan: the token at a place.
ghost use Rattle.std.specs.Prelude.{◌≡◌, ◌+◌, ◌^◌, ◌<◌, ◌≤◌, false, length, drop, IfSome, MatchOption};
ghost use Rattle.books.specs.Tables.{closed};
ghost use Rattle.books.specs.Meaning.{tables};
ghost use Rattle.reading.specs.Reading.{entry, token};
ghost use Rattle.reading.specs.Laws.{LongestMatch, DependsOnRead};
ghost use Rattle.scanner.specs.Scanned.{found, scanned, Stays};

use crate::entries::Entry;
use crate::symbols::Symbols;
use books::Book;
use counts::Count;

// A text's symbols under a book: what a reading goes over. The number of symbols, the end counted as one, fits 64 bits.
#[derive(Drop)]
pub struct Scanner<'a, S: Symbols> {
    pub book: &'a Book,
    pub symbols: &'a S,
    ghost fits: { length (S.Symbols.codes symbols.now) + 1 < 2 ^ 64 },
}

// The longest match of a scan: its length and its rule.
#[derive(Clone, Copy)]
pub struct Match {
    length: usize,
    rule: u8,
}

// What a scan came to: how many symbols it read, and the longest match, where there is one.
#[derive(Clone, Copy)]
pub struct Found {
    reading: usize,
    longest: Option<Match>,
}

impl<'a, S: Symbols> Scanner<'a, S> {
    // The scanner of a text, or none where there is not a record for each symbol and one more.
    pub fn over(book: &'a Book, symbols: &'a S, records: usize) -> Option<Scanner<'a, S>>
        ensures { MatchOption result (records ≤ length (S.Symbols.codes symbols.now)) (λ s. (length (S.Symbols.codes symbols.now) < records) × (s.book.now ≡ book.now) × (s.symbols.now ≡ symbols.now)) }
    {
        if records <= symbols.count().get() {
            return None;
        }
        Some(Scanner { book, symbols })
    }

    // How many symbols from the place on lead from the state to itself. In a closed state none is looked at.
    // Most symbols of a word, a chorus or a note do, and none of them has to wait for the state that the one before it led to.
    #[inline]
    fn stay(&self, place: usize, state: u8) -> usize
        requires within { place ≤ length (S.Symbols.codes self.now.symbols.now) }
        requires state { state < length (tables self.now.book.now).accepts }
        ensures within { place + result ≤ length (S.Symbols.codes self.now.symbols.now) }
        ensures stays { Stays (tables self.now.book.now) (S.Symbols.codes self.now.symbols.now) state place result }
        ensures moves { 0 < result → closed (tables self.now.book.now) state ≡ false }
    {
        let mut count = 0;
        if self.book.is_closed(state) {
            return count;
        }
        // counted by hand: symbols are asked for by their places, and no source lends a slice of them
        while let Some(code) = self.symbols.code_at(Count::of(place + count)) {
            if self.book.step(state, code) != Some(state) {
                break;
            }
            count += 1;
        }
        count
    }

    // The whole of a scan that starts at `place`. The end counts as a symbol that is read.
    #[inline]
    fn find(&self, place: usize, mode: u8) -> Found
        requires { place ≤ length (S.Symbols.codes self.now.symbols.now) }
        ensures some { IfSome result.longest (λ m. 0 < m.length) }
        ensures token { found (tables self.now.book.now) mode result ≡ token (tables self.now.book.now) mode (drop place (S.Symbols.codes self.now.symbols.now)) }
    {
        let mut state = self.book.start_state(mode);
        let mut longest = None;
        let mut reading = 0;
        // no index: the scan goes from state to state, and its reading is what it answers
        while !self.book.is_closed(state) {
            let symbol = self.symbols.code_at(Count::of(place + reading));
            reading += 1;
            let Some(code) = symbol else { break };
            let Some(next) = self.book.step(state, code) else {
                break;
            };
            state = next;
            reading += self.stay(place + reading, state);
            if let Some(rule) = self.book.accept(state) {
                longest = Some(Match {
                    length: reading,
                    rule,
                });
            }
        }
        Found { reading, longest }
    }

    // The token at a place where a symbol stands, without its lookback. What no rule matches is a fault of one symbol.
    #[inline]
    pub(crate) fn token_at<B>(&self, place: Count<S::Unit>, mode: u8) -> Entry<S::Unit, B>
        requires { place < length (S.Symbols.codes self.now.symbols.now) }
        ensures { result ≡ token (tables self.now.book.now) mode (drop place (S.Symbols.codes self.now.symbols.now)) }
    {
        let found = self.find(place.get(), mode);
        let reading = Count::of(found.reading);
        let lookback = Count::of(0);
        match found.longest {
            Some(Match { length, rule }) => Entry {
                length: Count::of(length),
                reading,
                lookback,
                kind: self.book.kind(rule),
                mode: self.book.next_mode(rule),
            },
            None => Entry {
                length: Count::of(1),
                reading,
                lookback,
                kind: 0,
                mode,
            },
        }
    }

    // A scan at any place in any mode: the token there, or the end token where no symbol is left; without its lookback.
    pub fn scan<B>(&self, place: Count<S::Unit>, mode: u8) -> Entry<S::Unit, B>
        ensures value { result ≡ scanned (tables self.now.book.now) mode (drop place (S.Symbols.codes self.now.symbols.now)) }
        ensures longest { place < length (S.Symbols.codes self.now.symbols.now) → LongestMatch (tables self.now.book.now) mode (drop place (S.Symbols.codes self.now.symbols.now)) result }
        ensures depends { place < length (S.Symbols.codes self.now.symbols.now) → DependsOnRead (tables self.now.book.now) mode (drop place (S.Symbols.codes self.now.symbols.now)) result }
    {
        if place.get() < self.symbols.count().get() {
            self.token_at(place, mode)
        } else {
            end_token(mode)
        }
    }
}

// The end token, without its lookback.
pub(crate) fn end_token<L, B>(mode: u8) -> Entry<L, B>
    ensures { result ≡ entry 1 0 1 mode 0 }
{
    Entry {
        length: Count::of(0),
        reading: Count::of(1),
        lookback: Count::of(0),
        kind: 1,
        mode,
    }
}
