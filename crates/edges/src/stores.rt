// The edges of both stores, at one table of replaces.
use counts::{Count, Refusal};
use std::alloc::Global;
use std::process::Abort;
use std::test::Fail;
use text::{FlatStore, GapStore, TextStore};

// A replace's place, cut and inserted bytes, the number of the question that gets a no, if one does, and the text after it.
// A tuple, so that a step stands on one line of its table.
type Step = (usize, usize, &'static str, Option<u8>, &'static str);

static EIGHT: [Step; 8] = [
    (0, 0, "la la la", None, "la la la"),
    (8, 0, "!", Some(13), "la la la"),
    (7, 1, "!", None, "la la l!"),
    (8, 0, "", None, "la la l!"),
    (9, 100, "", Some(11), "la la l!"),
    (7, 2, "", Some(12), "la la l!"),
    (2, 4, " ", None, "la l!"),
    (0, 1, "be", None, "bea l!"),
];

static NONE: [Step; 3] = [
    (0, 0, "", None, ""),
    (0, 0, "a", Some(13), ""),
    (1, 0, "", Some(11), ""),
];

fn refused<S: TextStore>(store: &mut S, place: usize, cut: usize, inserted: &str) -> Option<u8> {
    store
        .replace(Count::of(place), Count::of(cut), inserted.as_bytes())
        .err()
        .map(|fault| Refusal::from(fault).number)
}

fn holds<S: TextStore>(store: &S, text: &str) -> bool {
    let bytes = text.as_bytes();
    let same = |place| store.byte_at(Count::of(place)) == bytes.get(place).copied();
    store.len().get() == bytes.len() && (0..=bytes.len()).all(same)
}

fn run<S: TextStore>(store: &mut S, steps: &[Step]) -> bool {
    steps.iter().all(|(place, cut, inserted, answer, text)| {
        refused(store, *place, *cut, inserted) == *answer && holds(store, text)
    })
}

fn run_both(rt: &impl Abort, heap: Global, memory: &[u8], steps: &[Step]) -> Result<(), Fail> {
    assert!(rt; run(&mut FlatStore::new(memory.to_vec(heap)?), steps));
    assert!(rt; run(&mut GapStore::new(memory.to_vec(heap)?), steps));
    Ok(())
}

#[test]
fn capacity_eight(rt: HostRuntime) -> Result<(), Fail> {
    run_both(&rt, rt.alloc(), b"........", &EIGHT)
}

#[test]
fn capacity_none(rt: HostRuntime) -> Result<(), Fail> {
    run_both(&rt, rt.alloc(), b"", &NONE)
}
