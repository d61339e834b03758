// The boundaries of a list's entries, by the sums of their lengths.
ghost use Rattle.std.specs.Prelude.{◌≡◌, ◌≤◌, length};
ghost use Rattle.reading.specs.Report.{first as earliest};
ghost use Rattle.scanner.specs.Spots.{Fit};
ghost use Rattle.correction.specs.Boundaries.{Stands, Passes};

use counts::Count;
use scanner::{Entry, Spot};

// An entry's spot, and the mode in which the entry is read.
#[derive(Clone, Copy)]
pub(crate) struct Boundary<L, B> {
    pub(crate) at: Spot<L, B>,
    pub(crate) mode: u8,
}

impl<L: Copy, B: Copy> Boundary<L, B> {
    pub(crate) fn number(&self) -> usize
        ensures { result ≡ self.now.at.number }
    {
        self.at.number.get()
    }

    pub(crate) fn start(&self) -> usize
        ensures { result ≡ self.now.at.start }
    {
        self.at.place()
    }
}

// The boundary that entries were passed up to, and how far those read.
#[derive(Drop)]
pub(crate) struct Passage<L, B> {
    pub(crate) to: Boundary<L, B>,
    pub(crate) reach: Count<L>,
}

// The first entry that reads the place or a later one, or the end of the list.
pub(crate) fn find_first<L: Copy, B: Copy>(
    entries: &[Entry<L, B>],
    place: Count<L>,
) -> Boundary<L, B>
    ensures within { result.at.number ≤ length entries.now }
    ensures first { Fit entries.now → (result.at.number ≡ earliest entries.now place) × Stands entries.now result }
{
    let place = place.get();
    let mut at = Spot::first();
    let mut mode = 0;
    for entry in entries {
        let far = at.reach(entry);
        if place < far {
            break;
        }
        at = at.next(entry);
        mode = entry.mode;
    }
    Boundary { at, mode }
}

// Goes on over the entries that start before the place. It stops by another test than `find_first`: a closure for the test would be no plainer, its contract being about the closure's answers.
pub(crate) fn pass<L: Copy, B: Copy>(
    entries: &[Entry<L, B>],
    from: Passage<L, B>,
    place: Count<L>,
) -> Passage<L, B>
    requires { from.to.at.number ≤ length entries.now }
    ensures on { from.to.at.number ≤ result.to.at.number }
    ensures within { result.to.at.number ≤ length entries.now }
    ensures passes { Fit entries.now → Stands entries.now from.to → Stands entries.now result.to × Passes entries.now from.to.at.number result.to.at.number place from.reach result.reach }
{
    let place = place.get();
    let Passage { to, reach } = from;
    let number = to.number();
    let mut reach = reach.get();
    let mut at = to.at;
    let mut mode = to.mode;
    for entry in &entries[number..] {
        if place <= at.place() {
            break;
        }
        reach = reach.max(at.reach(entry));
        at = at.next(entry);
        mode = entry.mode;
    }
    Passage {
        to: Boundary { at, mode },
        reach: Count::of(reach),
    }
}
