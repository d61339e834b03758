// What a measure does, each time that it is done.
use anyhow::bail;
use books::Book;
use counts::{ByteCount, Count};
use requests::Reports;
use scanner::{StoreBytes, Token, read_all};
use sheet::{Parts, Sheet};
use text::TextStore;

// Reads tokens and lines afresh.
pub(crate) fn open<S: TextStore + Drop>(parts: Parts<S>) -> anyhow::Result<Sheet<S>> {
    let Ok(sheet) = Sheet::open(parts) else {
        bail!("no sheet can be opened on this text");
    };
    Ok(sheet)
}

// The same, this many times. A loop of its own, since a sheet that a closure hands on is copied once more each time.
pub(crate) fn read_again<S: TextStore + Drop>(
    mut sheet: Sheet<S>,
    rounds: usize,
) -> anyhow::Result<Sheet<S>> {
    for _ in 0..rounds {
        sheet = open(sheet.into_parts())?;
    }
    Ok(sheet)
}

// Reads the tokens alone afresh.
pub(crate) fn read_tokens<S: TextStore>(
    book: &Book,
    store: &S,
    tokens: &mut [Token],
) -> anyhow::Result<()> {
    if read_all(book, &StoreBytes(store), tokens).is_none() {
        bail!("there is no room for the tokens");
    }
    Ok(())
}

fn correct<S: TextStore>(
    sheet: &mut Sheet<S>,
    place: ByteCount,
    cut: usize,
    bytes: &[u8],
) -> anyhow::Result<Reports> {
    let Ok(reports) = sheet.correct(place, Count::of(cut), bytes) else {
        bail!("there is no room for a correction");
    };
    Ok(reports)
}

// Puts the bytes in at the place, and takes them out again. Answers what putting them in reports.
pub(crate) fn in_and_out<S: TextStore>(
    sheet: &mut Sheet<S>,
    place: ByteCount,
    bytes: &[u8],
) -> anyhow::Result<Reports> {
    let reports = correct(sheet, place, 0, bytes)?;
    correct(sheet, place, bytes.len(), b"")?;
    Ok(reports)
}
