// What a sheet holds at the end of a history, as it is printed.
ghost use Rattle.std.specs.Prelude.{◌≡◌, ◌^◌, ◌<◌, [], IfOk, string_bytes, codes};
ghost use Rattle.reading.specs.Laws.{total_length};
ghost use Rattle.telling.specs.Lines.{line_with};
ghost use Rattle.sheet.specs.Lists.{tokens_of, lines_of};
ghost use Rattle.table.specs.Table.{table};

use counts::ByteCount;
use sheet::Sheet;
use std::alloc::{AllocError, Global};
use table::tabulate;
use telling::text_line;
use text::TextStore;

// The line of the text, and the tables of the tokens and of the lines.
#[derive(Drop)]
pub(crate) struct Ending {
    pub(crate) text: String,
    pub(crate) tokens: String,
    pub(crate) lines: String,
}

// The bytes of a store.
fn bytes_of<S: TextStore>(heap: Global, store: &S) -> Result<Vec<u8>, AllocError>
    ensures { IfOk result (λ v. v.items ≡ S.TextStore.text store.now) }
{
    (0..store.len().get())
        .filter_map(|place| store.byte_at(ByteCount::of(place)))
        .collect(heap)
}

pub(crate) fn closing<S: TextStore + Drop>(
    heap: Global,
    sheet: Sheet<S>,
) -> Result<Ending, AllocError>
    requires token_total { total_length (tokens_of sheet) < 2 ^ 64 }
    requires line_total { total_length (lines_of sheet) < 2 ^ 64 }
    ensures text { IfOk result (λ e. string_bytes e.text ≡ line_with (codes "text") [] (S.TextStore.text sheet.store)) }
    ensures tokens { IfOk result (λ e. string_bytes e.tokens ≡ table (tokens_of sheet)) }
    ensures lines { IfOk result (λ e. string_bytes e.lines ≡ table (lines_of sheet)) }
{
    let tokens = tabulate(heap, sheet.token_list())?;
    let lines = tabulate(heap, sheet.line_list())?;
    let bytes = bytes_of(heap, &sheet.into_parts().store)?;
    Ok(Ending {
        text: text_line(heap, bytes.as_slice())?,
        tokens,
        lines,
    })
}
