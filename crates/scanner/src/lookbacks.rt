// The lookbacks of a list, by one pointer that only moves forward: the earliest entry that reads a start never moves back.
ghost use Rattle.std.specs.Prelude.{◌≡◌, ◌+◌, ◌-◌, ◌^◌, ◌<◌, ◌≤◌, ◌++◌, min, length, take, drop};
ghost use Rattle.reading.specs.Reading.{lookback as back, listed};
ghost use Rattle.scanner.specs.Spots.{Stands, Passed, Fit, ReadsStart};

use crate::entries::Entry;
use counts::Count;

// An entry's number in its list, and where that entry starts.
#[derive(Clone, Copy, Debug, Default)]
pub struct Spot<L, B> {
    pub number: Count<B>,
    pub start: Count<L>,
}

// A sum that does not fit its number stops growing: no list of a text has one.
impl<L: Copy, B: Copy> Spot<L, B> {
    // The first entry's.
    pub fn first() -> Spot<L, B>
        ensures number { result.number ≡ 0 }
        ensures start { result.start ≡ 0 }
    {
        Spot {
            number: Count::of(0),
            start: Count::of(0),
        }
    }

    // Where the entry starts.
    pub fn place(&self) -> usize
        ensures { result ≡ self.now.start }
    {
        self.start.get()
    }

    // Where the reading of the entry that stands here ends.
    pub fn reach(&self, entry: &Entry<L, B>) -> usize
        ensures { result ≡ min (self.now.start + entry.now.reading) (2 ^ 64 - 1) }
    {
        self.place().saturating_add(entry.reading.get())
    }

    // The spot behind the entry that stands here.
    pub fn next(&self, entry: &Entry<L, B>) -> Spot<L, B>
        requires { self.now.number + 1 < 2 ^ 64 }
        ensures number { result.number ≡ self.now.number + 1 }
        ensures start { result.start ≡ min (self.now.start + entry.now.length) (2 ^ 64 - 1) }
    {
        Spot {
            number: Count::of(self.number.get() + 1),
            start: Count::of(self.place().saturating_add(entry.length.get())),
        }
    }
}

// Moves `reader` on to the earliest entry that reads the start of `target`, or to `target` itself.
// Where no entry before it reads that start, none that it passes does.
pub fn advance<L: Copy, B: Copy>(
    entries: &[Entry<L, B>],
    reader: Spot<L, B>,
    target: Spot<L, B>,
) -> Spot<L, B>
    requires within { target.number ≤ length entries.now }
    requires behind { reader.number ≤ target.number }
    ensures behind { result.number ≤ target.number }
    ensures follows { Fit entries.now → Stands entries.now reader → Stands entries.now target → Passed entries.now reader.number target.number → Stands entries.now result × ReadsStart entries.now result.number target.number }
    ensures earliest { Fit entries.now → Stands entries.now reader → Stands entries.now target → Passed entries.now reader.number target.number → result.number ≡ target.number - back entries.now target.number }
{
    let from = reader.number.get();
    let to = target.number.get();
    let place = target.start.get();
    let mut spot = reader;
    for entry in &entries[from..to] {
        if place < spot.reach(entry) {
            break;
        }
        spot = spot.next(entry);
    }
    spot
}

// Sets the lookbacks of `first` and of every entry after it.
// No entry before `reader` reads the start of `first`.
pub fn set_lookbacks<L: Copy, B: Copy>(
    entries: &mut [Entry<L, B>],
    reader: Spot<L, B>,
    first: Spot<L, B>,
)
    requires fit { Fit entries.old }
    requires within { first.number ≤ length entries.old }
    requires first { Stands entries.old first }
    requires reader { Stands entries.old reader }
    requires behind { reader.number ≤ first.number }
    requires passed { Passed entries.old reader.number first.number }
    ensures { entries.new ≡ take first.number entries.old ++ listed entries.old (drop first.number entries.old) first.number }
{
    let from = first.number.get();
    let mut reader = reader;
    let mut spot = first;
    // by numbers, since the entries before the one that is written are read
    for number in from..entries.len() {
        reader = advance(entries, reader, spot);
        let entry = &mut entries[number];
        entry.lookback = Count::of(number - reader.number.get());
        spot = spot.next(entry);
    }
}
