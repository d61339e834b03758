// A list brought up to date after an edit in its text.
ghost use Rattle.std.specs.Prelude.{◌≡◌, ℕ, ◌<◌, ◌≤◌, List, length, take, IfSome, MatchOption};
ghost use Rattle.books.specs.Meaning.{tables};
ghost use Rattle.reading.specs.Report.{Edit as Change};
ghost use Rattle.correction.specs.Walks.{Met};
ghost use Rattle.correction.specs.Plans.{KeepsWithin, Planned};
ghost use Rattle.correction.specs.Promise.{Brought, Rereads};

use crate::boundaries::{Boundary, find_first};
use crate::edits::{Edit, Report, Reread};
use crate::lookbacks::{give_lookbacks, look_back};
use crate::splices::splice;
use crate::walks::{Meeting, walk};
use books::Book;
use counts::Count;
use scanner::{Entry, Scanner, Spot, Symbols};

// What is to be written: from the first entry that is read again up to where the readings meet; and the entry that the first one's lookback leads to.
#[derive(Drop)]
struct Plan<L, B> {
    first: Boundary<L, B>,
    meeting: Meeting<L, B>,
    reader: Spot<L, B>,
}

// Goes over the list and the text without writing. Answers none where the list has no entry that reads the edit's place, or there is no room for what
// comes of it: no list of a text is so.
fn survey<S: Symbols, B: Copy>(
    scanner: &Scanner<S>,
    memory: &[Entry<S::Unit, B>],
    count: usize,
    edit: Edit<S::Unit>,
) -> Option<Plan<S::Unit, B>>
    requires fit { length (S.Symbols.codes scanner.now.symbols.now) < length memory.now }
    requires count { count ≤ length memory.now }
    ensures within { IfSome result (λ p. KeepsWithin count (length memory.now) p) }
    ensures planned { (xs : List ℕ) → Met (tables scanner.now.book.now) edit xs (S.Symbols.codes scanner.now.symbols.now) (take count memory.now) (length memory.now) → MatchOption result ⊥ (λ p. Planned (tables scanner.now.book.now) edit xs (S.Symbols.codes scanner.now.symbols.now) (take count memory.now) p) }
{
    let entries = &memory[..count];
    let first = find_first(entries, edit.place);
    let number = first.number();
    if count <= number || scanner.symbols.count().get() < first.start() {
        return None;
    }
    let meeting = walk(scanner, entries, edit, &first);
    let kept = count - meeting.old.get();
    if memory.len() - number - kept < meeting.added.get() {
        return None;
    }
    let reader = look_back(entries, &first);
    Some(Plan {
        first,
        meeting,
        reader,
    })
}

// Writes what was read again: the list from the first such entry on is handed on as a part. Then the lookbacks are given anew.
fn rewrite<S: Symbols, B: Copy>(
    scanner: &Scanner<S>,
    memory: &mut [Entry<S::Unit, B>],
    count: usize,
    plan: Plan<S::Unit, B>,
) -> Reread<B>
    requires count { count ≤ length memory.old }
    requires within { KeepsWithin count (length memory.old) plan }
    ensures within { result.count ≤ length memory.new }
    ensures head { take result.report.first memory.new ≡ take result.report.first memory.old }
    ensures brought { (e : Change) (xs : List ℕ) → Met (tables scanner.now.book.now) e xs (S.Symbols.codes scanner.now.symbols.now) (take count memory.old) (length memory.old) → Planned (tables scanner.now.book.now) e xs (S.Symbols.codes scanner.now.symbols.now) (take count memory.old) plan → Brought (tables scanner.now.book.now) e xs (S.Symbols.codes scanner.now.symbols.now) result.count (take result.count memory.new) result.report }
{
    let Plan {
        first,
        meeting,
        reader,
    } = plan;
    let number = first.number();
    let added = meeting.added.get();
    let old = meeting.old.get();
    let out = old - number;
    let kept = count - old;
    splice(scanner, &mut memory[number..], &first, out, added, kept);
    let behind = Count::of(number + added);
    let entries = number + added + kept;
    let tail = give_lookbacks(
        &mut memory[..entries],
        reader,
        first.at,
        behind,
        meeting.reach,
    );
    Reread {
        count: Count::of(entries),
        report: Report {
            first: Count::of(number),
            out: Count::of(out),
            added: Count::of(added),
            tail,
        },
    }
}

// Brings a list up to date after an edit in its text: `count` entries at the front of the memory were the list of the text before the edit, and the
// symbols are those of the text after it. Answers how many entries there are now, and what has changed; none, with the memory left alone, where the
// memory has not a record for each symbol and one more. What it answers and leaves in a memory that held no such list is free.
pub fn reread<S: Symbols, B: Copy>(
    book: &Book,
    symbols: &S,
    memory: &mut [Entry<S::Unit, B>],
    count: Count<B>,
    edit: Edit<S::Unit>,
) -> Option<Reread<B>>
    ensures rereads { Rereads (tables book.now) edit (S.Symbols.codes symbols.now) memory.old count result memory.new }
    ensures head { MatchOption result (memory.new ≡ memory.old) (λ a. take a.report.first memory.new ≡ take a.report.first memory.old) }
    ensures within { IfSome result (λ a. a.count ≤ length memory.new) }
{
    let scanner = Scanner::over(book, symbols, memory.len())?;
    let count = count.get().min(memory.len());
    let plan = survey(&scanner, memory, count, edit)?;
    Some(rewrite(&scanner, memory, count, plan))
}
