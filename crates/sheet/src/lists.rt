// How a list is read, followed and looked into.
ghost use Rattle.std.specs.Prelude.{◌≡◌, ℕ, ◌<◌, ◌≤◌, List, length, take, vec_len, MatchOption};
ghost use Rattle.std.specs.List.{slice_get};
ghost use Rattle.books.specs.Meaning.{tables};
ghost use Rattle.reading.specs.Reading.{batch, kinds};
ghost use Rattle.scanner.specs.Numbers.{kinds_of};
ghost use Rattle.correction.specs.Promise.{Brought};
ghost use Rattle.correction.specs.Walks.{Met};
ghost use Rattle.sheet.specs.Kept.{entries};

use crate::entries::Entries;
use books::Book;
use correction::{Edit, Report, Reread, reread};
use counts::{Bytes, Count, Tokens};
use scanner::{Entry, Kinds, Symbols, read_all};

impl<L: Copy, B: Copy> Entries<L, B> {
    // The list, through the end entry.
    pub(crate) fn list(&self) -> &[Entry<L, B>]
        ensures { result.now ≡ entries self.now }
    {
        let count = self.count.get();
        &self.memory[..count]
    }

    // The entry of a number, or none where there is no such entry.
    pub(crate) fn entry(&self, number: Count<B>) -> Option<Entry<L, B>>
        ensures { result ≡ slice_get (entries self.now) number }
    {
        self.list().get(number.get()).copied()
    }
}

impl Entries<Bytes, Tokens> {
    // The symbols of the list above: the kinds of the tokens before the end token.
    pub(crate) fn kinds(&self) -> Kinds<'_>
        ensures { kinds_of result.0.now ≡ kinds (entries self.now) }
    {
        let tokens = self.list();
        let before_end = tokens.len().saturating_sub(1);
        Kinds(&tokens[..before_end])
    }
}

// Reads the list of a text into memory, and answers how many entries it has.
pub(crate) fn read<S: Symbols, B: Copy>(
    book: &Book,
    symbols: &S,
    memory: &mut [Entry<S::Unit, B>],
) -> Count<B>
    requires { length (S.Symbols.codes symbols.now) < length memory.old }
    ensures within { result ≤ length memory.new }
    ensures list { take result memory.new ≡ batch (tables book.now) (S.Symbols.codes symbols.now) }
{
    read_all(book, symbols, memory).unwrap()
}

// Takes over what a re-reading answered: the count, and the report. Where it answered none, the count stays, and the report is of nothing: no list of a text is left so.
fn take_over<B: Default>(count: &mut Count<B>, answer: Option<Reread<B>>) -> Report<B>
    ensures count { MatchOption answer (count.new ≡ count.old) (λ reread. count.new ≡ reread.count) }
    ensures report { MatchOption answer ((result.first ≡ 0) × (result.out ≡ 0) × (result.«in» ≡ 0) × (result.tail ≡ 0)) (λ reread. result ≡ reread.report) }
{
    match answer {
        Some(reread) => {
            *count = reread.count;
            reread.report
        }
        None => Report::default(),
    }
}

// Brings a list up to date after the edit that gave the symbols. A list that is not that of the text before may stay as it is, with a report of nothing.
pub(crate) fn follow<S: Symbols, B: Copy + Default>(
    list: &mut Entries<S::Unit, B>,
    symbols: &S,
    edit: Edit<S::Unit>,
) -> Report<B>
    ensures book { list.new.book ≡ list.old.book }
    ensures memory { vec_len list.new.memory ≡ vec_len list.old.memory }
    ensures brought { (xs : List ℕ) → Met (tables list.old.book) edit xs (S.Symbols.codes symbols.now) (entries list.old) (vec_len list.old.memory) → Brought (tables list.old.book) edit xs (S.Symbols.codes symbols.now) list.new.count (entries list.new) result }
{
    let answer = reread(
        &list.book,
        symbols,
        list.memory.as_mut_slice(),
        list.count,
        edit,
    );
    take_over(&mut list.count, answer)
}
