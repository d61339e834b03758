// Entries that are read again, put in the place of others.
ghost use Rattle.std.specs.Prelude.{◌≡◌, ◌+◌, ◌≤◌, ◌++◌, length, take, drop};
ghost use Rattle.books.specs.Meaning.{tables};
ghost use Rattle.reading.specs.Reading.{read};

use crate::boundaries::Boundary;
use counts::Count;
use scanner::{Entry, Scanner, Symbols};

// Moves `kept` entries that stand from `from` on so that they stand from `to` on. Nothing is moved where they stay.
fn move_kept<L: Copy, B: Copy>(part: &mut [Entry<L, B>], from: usize, to: usize, kept: usize)
    requires old { from + kept ≤ length part.old }
    requires new { to + kept ≤ length part.old }
    ensures { take kept (drop to part.new) ≡ take kept (drop from part.old) }
{
    if from != to {
        part.copy_within(from..from + kept, to);
    }
}

// Reads `added` entries from the boundary on and writes them to the front of the part, without their lookbacks.
fn write_run<S: Symbols, B: Copy>(
    scanner: &Scanner<S>,
    part: &mut [Entry<S::Unit, B>],
    from: &Boundary<S::Unit, B>,
    added: usize,
)
    requires { added ≤ length part.old }
    ensures written { added ≤ length (read (tables scanner.now.book.now) from.now.mode 0 (drop from.now.at.start (S.Symbols.codes scanner.now.symbols.now))) → take added part.new ≡ take added (read (tables scanner.now.book.now) from.now.mode 0 (drop from.now.at.start (S.Symbols.codes scanner.now.symbols.now))) }
    ensures rest { drop added part.new ≡ drop added part.old }
{
    let mut place = from.start();
    let mut mode = from.mode;
    for slot in part[..added].iter_mut() {
        let token = scanner.scan(Count::of(place), mode);
        place += token.length.get();
        mode = token.mode;
        *slot = token;
    }
}

// Puts `added` entries, read from the boundary on, in the place of the first `out` ones; `kept` entries behind those are kept.
pub(crate) fn splice<S: Symbols, B: Copy>(
    scanner: &Scanner<S>,
    part: &mut [Entry<S::Unit, B>],
    from: &Boundary<S::Unit, B>,
    out: usize,
    added: usize,
    kept: usize,
)
    requires old { out + kept ≤ length part.old }
    requires new { added + kept ≤ length part.old }
    ensures { added ≤ length (read (tables scanner.now.book.now) from.now.mode 0 (drop from.now.at.start (S.Symbols.codes scanner.now.symbols.now))) → take (added + kept) part.new ≡ take added (read (tables scanner.now.book.now) from.now.mode 0 (drop from.now.at.start (S.Symbols.codes scanner.now.symbols.now))) ++ take kept (drop out part.old) }
{
    move_kept(part, out, added, kept);
    write_run(scanner, part, from, added);
}
