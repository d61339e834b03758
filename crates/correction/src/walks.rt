// The walk of a correction: new entries are read, and old ones passed, until the two readings meet. Nothing is written.
ghost use Rattle.std.specs.Prelude.{◌≡◌, ℕ, ◌+◌, ◌-◌, ◌^◌, ◌<◌, ◌≤◌, ◌&&◌, List, length, ◌==◌, nat_lt};
ghost use Rattle.books.specs.Meaning.{tables};
ghost use Rattle.reading.specs.Report.{first as earliest};
ghost use Rattle.correction.specs.Boundaries.{Stands};
ghost use Rattle.correction.specs.Walks.{Met, Walked};

use crate::boundaries::{Boundary, Passage, pass};
use crate::edits::Edit;
use counts::Count;
use scanner::{Entry, Scanner, Symbols};

// Where the readings meet: how many new entries come before, which old entry is the first that is kept, and a place in the new text
// that no entry before the meeting reads, old or new.
#[derive(Drop)]
pub(crate) struct Meeting<L, B> {
    pub(crate) added: Count<B>,
    pub(crate) old: Count<B>,
    pub(crate) reach: Count<L>,
}

impl<L: Copy> Edit<L> {
    // Where a place behind what was inserted lay before the edit.
    fn old_place(self, here: usize) -> Count<L>
        ensures { self.place + self.cut + (here - (self.place + self.inserted)) < 2 ^ 64 → result ≡ self.place + self.cut + (here - (self.place + self.inserted)) }
    {
        let place = self.place.get();
        let behind = here.saturating_sub(place.saturating_add(self.inserted.get()));
        Count::of(place.saturating_add(self.cut.get()).saturating_add(behind))
    }

    // Where a place behind what was cut lies after the edit: as far as that fits a number, no place up to there comes to lie further.
    fn new_place(self, there: Count<L>) -> usize
        ensures { (p : ℕ) → p ≤ there → p + self.inserted < 2 ^ 64 + self.cut → p + self.inserted ≤ result + self.cut }
    {
        let cut = self.cut.get();
        let inserted = self.inserted.get();
        let grown = there.get().saturating_add(inserted.saturating_sub(cut));
        grown.saturating_sub(cut.saturating_sub(inserted))
    }
}

// Whether an entry starts at the place and is read in the mode.
fn is_kept<L: Copy, B: Copy>(
    entries: &[Entry<L, B>],
    old: &Boundary<L, B>,
    place: Count<L>,
    mode: u8,
) -> bool
    ensures { result ≡ (nat_lt old.now.at.number (length entries.now) && (old.now.at.start == place && old.now.mode == mode)) }
{
    old.number() < entries.len() && old.start() == place.get() && old.mode == mode
}

// Reads on from a boundary until the readings meet, or through the end token.
pub(crate) fn walk<S: Symbols, B: Copy>(
    scanner: &Scanner<S>,
    entries: &[Entry<S::Unit, B>],
    edit: Edit<S::Unit>,
    from: &Boundary<S::Unit, B>,
) -> Meeting<S::Unit, B>
    requires place { from.now.at.start ≤ length (S.Symbols.codes scanner.now.symbols.now) }
    requires there { from.now.at.number ≤ length entries.now }
    ensures added { result.added ≤ length (S.Symbols.codes scanner.now.symbols.now) + 1 }
    ensures on { from.now.at.number ≤ result.old }
    ensures within { result.old ≤ length entries.now }
    ensures walked { (xs : List ℕ) (room : ℕ) → room < 2 ^ 64 → Met (tables scanner.now.book.now) edit xs (S.Symbols.codes scanner.now.symbols.now) entries.now room → from.now.at.number ≡ earliest entries.now edit.place → Stands entries.now from.now → Walked (tables scanner.now.book.now) edit xs (S.Symbols.codes scanner.now.symbols.now) result.added result.old result.reach }
{
    let length = scanner.symbols.count().get();
    let behind = edit.place.get().saturating_add(edit.inserted.get());
    let mut old = Passage {
        to: *from,
        reach: Count::of(0),
    };
    let mut here = from.start();
    let mut mode = from.mode;
    let mut added = 0;
    let mut reach = 0;
    // no index: two readings go side by side, each by its own lengths
    loop {
        let there = edit.old_place(here);
        old = pass(entries, old, there);
        if behind <= here && is_kept(entries, &old.to, there, mode) {
            return Meeting {
                added: Count::of(added),
                old: Count::of(old.to.number()),
                reach: Count::of(edit.new_place(old.reach).max(reach)),
            };
        }
        added += 1;
        if here >= length {
            return Meeting {
                added: Count::of(added),
                old: Count::of(entries.len()),
                reach: Count::of(reach.max(here + 1)),
            };
        }
        let token: Entry<S::Unit, B> = scanner.scan(Count::of(here), mode);
        reach = reach.max(here + token.reading.get());
        here += token.length.get();
        mode = token.mode;
    }
}
