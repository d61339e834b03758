// The measures of one store.
use crate::PASTE;
use crate::rounds::{in_and_out, open, read_again, read_tokens};
use anyhow::bail;
use counts::{ByteCount, Count};
use house::{line_book, token_book};
use requests::Reports;
use scanner::{Line, Token};
use sheet::{Parts, Sheet};
use std::alloc::{AllocError, Global};
use std::io;
use std::time::Instant;
use text::TextStore;

// A store under the house books, with memory for both lists.
fn parts_over<S: TextStore + Drop>(heap: Global, store: S) -> Result<Parts<S>, AllocError> {
    let records = store.capacity().get().saturating_add(1);
    Ok(Parts {
        tokens: vec![in heap; Token::default(); records]?,
        lines: vec![in heap; Line::default(); records]?,
        store,
        token_book: token_book(),
        line_book: line_book(),
    })
}

// A correction that is measured: what is put in, and where.
#[derive(Drop)]
struct Case<'a> {
    name: &'a str,
    place: ByteCount,
    bytes: &'a [u8],
}

// The corrections of a text with this many bytes.
fn cases(bytes: usize, paste: &[u8]) -> [Case<'_>; 4] {
    let case = |name, place, bytes| Case {
        name,
        place: Count::of(place),
        bytes,
    };
    [
        case("front", 0, b"a"),
        case("middle", bytes / 2, b"a"),
        case("end", bytes, b"a"),
        case("paste", bytes / 2, paste),
    ]
}

// What measures one store: it prints the store's name on each line, and times as many rounds as are asked for, if any are.
#[derive(Clone, Copy)]
pub(crate) struct Meter<'a> {
    pub(crate) rt: &'a HostRuntime,
    pub(crate) name: &'a str,
    pub(crate) rounds: Option<usize>,
}

impl Meter<'_> {
    fn print_report(&self, case: &str, reports: Reports) -> io::Result<()> {
        let name = self.name;
        let Reports { tokens, lines } = reports;
        println!(self.rt; "{name} {case} {tokens} {lines}")
    }

    // Has the rounds made, each on what the round before it left, and prints how long they took.
    fn time<T: Drop, F: Fn(T, usize) -> anyhow::Result<T>>(
        &self,
        what: &str,
        on: T,
        rounds_of: F,
    ) -> anyhow::Result<T>
        requires { F.IsAlwaysCallable rounds_of }
    {
        let Some(rounds) = self.rounds else {
            return Ok(on);
        };
        let began = Instant::now(self.rt)?;
        let on = rounds_of(on, rounds)?;
        let nanoseconds = began.elapsed(self.rt)?.as_nanos();
        let name = self.name;
        println!(self.rt; "time {name} {what} {rounds} {nanoseconds}")?;
        Ok(on)
    }

    fn measure_case<S: TextStore>(&self, sheet: &mut Sheet<S>, case: &Case) -> anyhow::Result<()> {
        let reports = in_and_out(sheet, case.place, case.bytes)?;
        self.print_report(case.name, reports)?;
        self.time(case.name, sheet, |sheet, rounds| {
            for _ in 0..rounds {
                in_and_out(sheet, case.place, case.bytes)?;
            }
            Ok(sheet)
        })?;
        Ok(())
    }

    // Times fresh readings, of tokens and lines and of the tokens alone.
    fn measure_readings<S: TextStore + Drop>(&self, sheet: Sheet<S>) -> anyhow::Result<Sheet<S>> {
        let sheet = self.time("read", sheet, read_again)?;
        let Parts {
            store,
            token_book,
            line_book,
            tokens,
            lines,
        } = sheet.into_parts();
        let tokens = self.time("tokens", tokens, |mut tokens, rounds| {
            for _ in 0..rounds {
                read_tokens(&token_book, &store, tokens.as_mut_slice())?;
            }
            Ok(tokens)
        })?;
        open(Parts {
            store,
            token_book,
            line_book,
            tokens,
            lines,
        })
    }

    // Measures the reader on a text, over a store that is empty yet.
    pub(crate) fn measure<S: TextStore + Drop>(
        &self,
        mut store: S,
        text: &[u8],
    ) -> anyhow::Result<()> {
        let heap = self.rt.alloc();
        if store.replace(Count::of(0), Count::of(0), text).is_err() {
            bail!("the sheet is too long");
        }
        let sheet = open(parts_over(heap, store)?)?;
        let name = self.name;
        let bytes = text.len();
        println!(self.rt;
            "{name} {bytes} bytes {} tokens {} lines",
            sheet.token_list().len(),
            sheet.line_list().len(),
        )?;
        let mut sheet = self.measure_readings(sheet)?;
        let paste = vec![in heap; b'a'; PASTE]?;
        for case in &cases(bytes, paste.as_slice()) {
            self.measure_case(&mut sheet, case)?;
        }
        Ok(())
    }
}
