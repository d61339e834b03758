// The list of a whole text.
ghost use Rattle.std.specs.Prelude.{◌≡◌, ◌<◌, ◌≤◌, length, take, drop, IfSome, MatchOption};
ghost use Rattle.books.specs.Meaning.{tables};
ghost use Rattle.reading.specs.Reading.{read, batch};
ghost use Rattle.reading.specs.Laws.{Reads, LooksBack};
ghost use Rattle.scanner.specs.Answer.{answer};

use crate::entries::Entry;
use crate::lookbacks::{Spot, set_lookbacks};
use crate::scans::{Scanner, end_token};
use crate::symbols::Symbols;
use books::Book;
use counts::Count;

// Writes the entries of the whole text to the front of the memory, without their lookbacks, and answers how many there are.
fn write_entries<S: Symbols, B: Copy>(
    scanner: &Scanner<S>,
    memory: &mut [Entry<S::Unit, B>],
) -> usize
    requires { length (S.Symbols.codes scanner.now.symbols.now) < length memory.old }
    ensures within { result ≤ length memory.new }
    ensures written { take result memory.new ≡ read (tables scanner.now.book.now) 0 0 (S.Symbols.codes scanner.now.symbols.now) }
    ensures rest { drop result memory.new ≡ drop result memory.old }
{
    let length = scanner.symbols.count().get();
    let mut place = 0;
    let mut mode = 0;
    let mut entries = 0;
    // counted by hand: places go by the tokens' lengths, and behind an adapter of `iter_mut` nothing is known of what was written
    while place < length {
        let token = scanner.token_at(Count::of(place), mode);
        place += token.length.get();
        mode = token.mode;
        memory[entries] = token;
        entries += 1;
    }
    memory[entries] = end_token(mode);
    entries + 1
}

// Reads the whole text into the memory, from place 0 in mode 0 through the end token, and answers how many entries the list has.
// Answers none, and leaves the memory alone, where it has not a record for each symbol and one more.
pub fn read_all<S: Symbols, B: Copy>(
    book: &Book,
    symbols: &S,
    memory: &mut [Entry<S::Unit, B>],
) -> Option<Count<B>>
    ensures answer { result ≡ answer (length memory.old) (length (S.Symbols.codes symbols.now)) (length (batch (tables book.now) (S.Symbols.codes symbols.now))) }
    ensures memory { MatchOption result (memory.new ≡ memory.old) (λ n. (take n memory.new ≡ batch (tables book.now) (S.Symbols.codes symbols.now)) × (drop n memory.new ≡ drop n memory.old)) }
    ensures within { IfSome result (λ n. (1 ≤ n) × (n ≤ length memory.new)) }
    ensures reads { Reads (tables book.now) (S.Symbols.codes symbols.now) (batch (tables book.now) (S.Symbols.codes symbols.now)) }
    ensures looks_back { LooksBack (batch (tables book.now) (S.Symbols.codes symbols.now)) }
{
    let scanner = Scanner::over(book, symbols, memory.len())?;
    let entries = write_entries(&scanner, memory);
    set_lookbacks(&mut memory[..entries], Spot::first(), Spot::first());
    Some(Count::of(entries))
}
