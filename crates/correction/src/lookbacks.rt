// Lookbacks given anew from an entry on, by one pointer that only moves forward.
ghost use Rattle.std.specs.Prelude.{◌≡◌, ◌-◌, ◌<◌, ◌≤◌, List, length, take};
ghost use Rattle.reading.specs.Reading.{Entry as Meant, at};
ghost use Rattle.scanner.specs.Spots.{Stands};
ghost use Rattle.correction.specs.Lookbacks.{Awaits, Given};

use crate::boundaries::Boundary;
use counts::Count;
use scanner::{Entry, Spot, advance};

// Goes back from an entry to the one that its lookback leads to.
pub(crate) fn look_back<L: Copy, B: Copy>(
    entries: &[Entry<L, B>],
    from: &Boundary<L, B>,
) -> Spot<L, B>
    requires { from.now.at.number < length entries.now }
    ensures number { result.number ≡ from.now.at.number - (at entries.now from.now.at.number).lookback }
    ensures stands { Stands entries.now from.now.at → Stands entries.now result }
{
    let number = from.number();
    let mut start = from.start();
    let entry = &entries[number];
    let first = number.saturating_sub(entry.lookback.get());
    for entry in &entries[first..number] {
        start = start.saturating_sub(entry.length.get());
    }
    Spot {
        number: Count::of(first),
        start: Count::of(start),
    }
}

// Sets the lookbacks of `first` and of the entries after it, as far as they start before the limit. Answers how many entries there are from
// `kept` on through the last whose lookback changes. `set_lookbacks` stands beside it: that one has no limit, no old lookbacks to compare, and asks that sums fit.
pub(crate) fn give_lookbacks<L: Copy, B: Copy>(
    entries: &mut [Entry<L, B>],
    reader: Spot<L, B>,
    first: Spot<L, B>,
    kept: Count<B>,
    limit: Count<L>,
) -> Count<B>
    requires within { first.number ≤ length entries.old }
    requires behind { reader.number ≤ first.number }
    requires before { first.number ≤ kept }
    ensures head { take first.number entries.new ≡ take first.number entries.old }
    ensures given { (new : List Meant) → Stands entries.old reader → Stands entries.old first → Awaits entries.old new first.number reader.number → Given entries.old new entries.new first.number kept limit result }
{
    let limit = limit.get();
    let from = first.number.get();
    let mut reader = reader;
    let mut spot = first;
    let mut changed = 0;
    // by numbers, since the entries before the one that is written are read
    for number in from..entries.len() {
        let beyond = limit <= spot.start.get();
        if beyond {
            break;
        }
        reader = advance(entries, reader, spot);
        let lookback = number - reader.number.get();
        let entry = &mut entries[number];
        if entry.lookback.get() != lookback {
            changed = number + 1;
        }
        entry.lookback = Count::of(lookback);
        spot = spot.next(entry);
    }
    Count::of(changed.saturating_sub(kept.get()))
}
