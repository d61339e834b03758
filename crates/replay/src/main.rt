// Plays a script from standard input: opens a sheet, makes every request of the script in one history, and prints the answers.
#![tactic(auto)]

mod closings;
mod plays;

use plays::play;
use script::{Broken, parse};
use std::io;
use std::io::Read;
use telling::broken_line;

fn main(rt: HostRuntime) -> io::Result<()> {
    let heap = rt.alloc();
    let mut input = Vec::new(heap);
    rt.stdin().read_to_end(&mut input)?;
    match parse(heap, input.as_slice()) {
        Ok(script) => play(&rt, script),
        Err(Broken::Line { number, wrong }) => rt.print(broken_line(heap, number, wrong)?),
        Err(Broken::NoMemory) => rt.print("no memory\n"),
    }
}
