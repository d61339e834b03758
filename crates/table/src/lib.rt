// The table that the programs print: a header, then a row of seven numbers for each entry of a list.
#![tactic(auto)]

ghost use Rattle.std.specs.Prelude.{◌≡◌, ◌^◌, ◌<◌, ◌++◌, IfOk, string_bytes, OnOk};
ghost use Rattle.reading.specs.Laws.{total_length};
ghost use Rattle.table.specs.Table.{row, columns, table};

use scanner::Entry;
use std::alloc::{AllocError, Global};
use std::fmt::Write;

const HEADER: &str = "    no  kind start   len  read  mode  back\n";

// Puts the row of an entry behind the text: its seven numbers, each right-justified in a column.
fn push_row<L: Copy, B: Copy>(
    out: &mut String,
    number: usize,
    start: usize,
    entry: &Entry<L, B>,
) -> Result<(), AllocError>
    ensures { OnOk result (string_bytes out.new ≡ string_bytes out.old ++ row (columns number start entry.now)) }
{
    writeln!(
        out,
        "{number:>6}{:>6}{start:>6}{:>6}{:>6}{:>6}{:>6}",
        entry.kind, entry.length, entry.reading, entry.mode, entry.lookback,
    )
}

// The table of a list, as text.
#[tactic(auto, using(reading::proofs::Split::start_zero), unfolding(crate::specs::Table::header, crate::specs::Table::rows, crate::specs::Table::table))]
pub fn tabulate<L: Copy, B: Copy>(
    heap: Global,
    entries: &[Entry<L, B>],
) -> Result<String, AllocError>
    requires { total_length entries.now < 2 ^ 64 }
    ensures { IfOk result (λ s. string_bytes s ≡ table entries.now) }
{
    let mut out = String::from_str(heap, HEADER)?;
    let mut start: usize = 0;
    for (number, entry) in entries.iter().enumerate() {
        push_row(&mut out, number, start, entry)?;
        start += entry.length.get();
    }
    Ok(out)
}
