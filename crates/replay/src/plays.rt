// The run of a script.
ghost use Rattle.std.specs.Prelude.{◌≡◌, length, IfOk, vec_len};
ghost use Rattle.std.specs.Option.{option_copied, option_map};
ghost use Rattle.std.specs.Result.{result_err};
ghost use Rattle.books.specs.Plans.{planned};
ghost use Rattle.house.specs.House.{house_tokens, house_lines};
ghost use Rattle.text.specs.Refused.{refused};
ghost use Rattle.text.specs.Replaced.{replaced};
ghost use Rattle.replay.specs.Chosen.{Chosen, BothChosen};

use crate::closings::closing;
use books::{Book, BookFault};
use counts::{ByteCount, Refusal};
use history::{Reason, perform};
use house_sheet::{Books, house_books};
use requests::{Answer, Request};
use scanner::{Line, Token};
use script::{Plan, Script, StoreKind};
use sheet::Parts;
use std::alloc::{AllocError, Global};
use std::io;
use telling::{answer_line, refusal_line};
use text::{FlatStore, GapStore, StoreFault, TextStore};

// The book of a plan, or the house's where the script has none.
fn book_of(plan: Option<&Plan>, house: Book) -> Result<Book, BookFault>
    ensures { Chosen (option_map planned (option_copied plan.entry)) house result }
{
    match plan {
        Some(plan) => Book::check(plan.lent()),
        None => Ok(house),
    }
}

// The token book and the line book that a script is played with.
fn books_of(script: &Script) -> Result<Books, BookFault>
    ensures { BothChosen (option_map planned script.now.token_book) house_tokens (option_map planned script.now.line_book) house_lines result }
{
    let house = house_books();
    Ok(Books {
        tokens: book_of(script.token_book.as_ref(), house.tokens)?,
        lines: book_of(script.line_book.as_ref(), house.lines)?,
    })
}

// The store with bytes put in front of its text, or its refusal.
fn filled<S: TextStore + Drop>(mut store: S, bytes: &[u8]) -> Result<S, StoreFault>
    ensures answer { result_err result ≡ refused (length (S.TextStore.text store)) (S.TextStore.room store) 0 0 (length bytes.now) }
    ensures text { IfOk result (λ s. S.TextStore.text s ≡ replaced (S.TextStore.text store) 0 0 bytes.now) }
    ensures room { IfOk result (λ s. S.TextStore.room s ≡ S.TextStore.room store) }
{
    store.replace(ByteCount::of(0), ByteCount::of(0), bytes)?;
    Ok(store)
}

// What a sheet is opened with: a store, the books, and the memory that a script asks for.
fn parts_of<S: TextStore + Drop>(
    heap: Global,
    store: S,
    books: Books,
    script: &Script,
) -> Result<Parts<S>, AllocError>
    ensures given { IfOk result (λ p. (p.store ≡ store) × (p.token_book ≡ books.tokens) × (p.line_book ≡ books.lines)) }
    ensures memory { IfOk result (λ p. (vec_len p.tokens ≡ script.now.token_records) × (vec_len p.lines ≡ script.now.line_records)) }
{
    Ok(Parts {
        store,
        token_book: books.tokens,
        line_book: books.lines,
        tokens: vec![in heap; Token::default(); script.token_records]?,
        lines: vec![in heap; Line::default(); script.line_records]?,
    })
}

fn print_refusal(rt: &HostRuntime, refusal: Refusal) -> io::Result<()> {
    rt.print(refusal_line(rt.alloc(), refusal)?)
}

fn print_answers(rt: &HostRuntime, answers: &[Answer]) -> io::Result<()> {
    for answer in answers {
        rt.print(answer_line(rt.alloc(), answer)?)?;
    }
    Ok(())
}

// Plays the script over a store that holds the opening text.
fn play_over<S: TextStore + Drop>(
    rt: &HostRuntime,
    parts: Parts<S>,
    requests: Vec<Request>,
) -> io::Result<()> {
    let heap = rt.alloc();
    match perform(heap, parts, requests) {
        Ok(performed) => {
            print_answers(rt, performed.answers.as_slice())?;
            let end = closing(heap, performed.sheet)?;
            rt.print(end.text)?;
            rt.print("tokens\n")?;
            rt.print(end.tokens)?;
            rt.print("lines\n")?;
            rt.print(end.lines)
        }
        Err(unperformed) => match &unperformed.reason {
            Reason::NoMemory => rt.print("no memory\n"),
            Reason::Fault(fault) => print_refusal(rt, Refusal::from(*fault)),
        },
    }
}

// Puts the opening text into an empty store, and plays the script over it.
fn play_on<S: TextStore + Drop>(
    rt: &HostRuntime,
    store: S,
    books: Books,
    script: Script,
) -> io::Result<()> {
    match filled(store, script.text.as_slice()) {
        Ok(store) => {
            let parts = parts_of(rt.alloc(), store, books, &script)?;
            play_over(rt, parts, script.requests)
        }
        Err(fault) => print_refusal(rt, Refusal::from(fault)),
    }
}

// Plays a script and prints what it comes to.
pub(crate) fn play(rt: &HostRuntime, script: Script) -> io::Result<()> {
    let heap = rt.alloc();
    match books_of(&script) {
        Ok(books) => {
            let memory = vec![in heap; 0; script.capacity]?;
            match script.kind {
                StoreKind::Flat => play_on(rt, FlatStore::new(memory), books, script),
                StoreKind::Gap => play_on(rt, GapStore::new(memory), books, script),
            }
        }
        Err(fault) => print_refusal(rt, Refusal::from(fault)),
    }
}
