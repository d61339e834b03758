// Compares the tokens that the proved reader gives with flex's: standard input has sheets and flex's tokens for each.
#![tactic(auto)]

mod reader;
mod vectors;

use std::io::Read;

// How much was found to agree, the end tokens left out.
#[derive(Clone, Copy, Default)]
struct Tally {
    sheets: usize,
    tokens: usize,
}

fn compare(rt: &HostRuntime, vectors: &str) -> anyhow::Result<Tally> {
    let heap = rt.alloc();
    let mut tally = Tally::default();
    let answers = vectors.lines().skip(1).step_by(2);
    for (hex, answer) in vectors.lines().step_by(2).zip(answers) {
        let sheet = vectors::sheet(heap, hex)?;
        let mut expected = vectors::spans(heap, answer)?;
        let tokens = expected.len();
        expected.push(vectors::END)?;
        if reader::agrees(heap, sheet.as_slice(), expected.as_slice())? {
            tally.sheets = tally.sheets.saturating_add(1);
            tally.tokens = tally.tokens.saturating_add(tokens);
        } else {
            println!(rt; "differs: {hex}")?;
        }
    }
    Ok(tally)
}

fn main(rt: HostRuntime) -> anyhow::Result<()> {
    let mut vectors = String::new(rt.alloc());
    rt.stdin().read_to_string(&mut vectors)?;
    let Tally { sheets, tokens } = compare(&rt, vectors.as_str())?;
    println!(rt; "{sheets} sheets, {tokens} tokens agree")?;
    Ok(())
}
