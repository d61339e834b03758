// Measures the reader on a sheet from standard input, over both stores: a fresh reading of tokens and lines and one of the tokens alone, a correction of one byte at the front, in the middle and at the end,
// and a paste of 1000 bytes. Prints what each comes to; with a number of rounds as its argument also how long that many rounds take.
#![tactic(auto)]

mod measures;
mod rounds;

use measures::Meter;
use std::env;
use std::io::Read;
use text::{FlatStore, GapStore, TextStore};

// How many bytes a paste has.
const PASTE: usize = 1000;

// The number of rounds that the first argument names, where there is one; 0 is none.
fn rounds_asked(rt: &HostRuntime) -> anyhow::Result<Option<usize>> {
    let rounds = env::args(rt)?
        .nth(1)
        .map(|word| word.as_str().parse::<usize>())
        .transpose()?;
    Ok(rounds.filter(|rounds| *rounds > 0))
}

fn main(rt: HostRuntime) -> anyhow::Result<()> {
    let heap = rt.alloc();
    let rounds = rounds_asked(&rt)?;
    let mut sheet = Vec::new(heap);
    rt.stdin().take(65536).read_to_end(&mut sheet)?;
    let room = sheet.len().saturating_add(PASTE).min(65535);
    let meter = |name| Meter {
        rt: &rt,
        name,
        rounds,
    };
    meter("flat").measure(FlatStore::new(vec![in heap; 0; room]?), sheet.as_slice())?;
    meter("gap").measure(GapStore::new(vec![in heap; 0; room]?), sheet.as_slice())
}
