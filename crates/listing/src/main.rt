// Lists the tokens of a song sheet from standard input.
#![tactic(auto)]

use lister::{LIMIT, list};
use std::io;
use std::io::Read;

fn main(rt: HostRuntime) -> io::Result<()> {
    let heap = rt.alloc();
    let mut sheet = Vec::new(heap);
    // one byte more than a sheet may have is enough to know that it is too long
    rt.stdin().take(LIMIT as u64 + 1).read_to_end(&mut sheet)?;
    rt.print(list(heap, sheet.as_slice())?)
}
