// A whole script.
ghost use Rattle.std.specs.Prelude.{◌≡◌, ◌+◌, true, false, [], is_some, Some, None, Ok, vec_items, MatchResult};
ghost use Rattle.std.specs.Option.{option_map, unwrap_or};
ghost use Rattle.script.specs.declared.scripts.StoreKind.TheVariants.{Gap};
ghost use Rattle.script.specs.Laws.{LinesReadBack, ScriptsReadBack};
ghost use Rattle.script.specs.Plain.{instruction, heard, written, broken_at, Breaks};
ghost use Rattle.script.specs.Scripts.{filled, silence, has_asked, taken_in, line_in, script_of, meaning};
ghost use Rattle.script.specs.Steps.{Answers, AnswersOrStops};

use crate::bytes::Lines;
use crate::commands::{Command, command_of};
use crate::plans::Plan;
use crate::sizes::Size;
use crate::wrong::{Broken, Stop, Wrong};
use requests::Request;
use std::alloc::Global;

#[derive(Clone, Copy, PartialEq, Eq, Debug)]
pub enum StoreKind {
    Flat,
    Gap,
}

// A sheet to be opened, and the requests to it.
#[derive(Drop)]
pub struct Script {
    pub kind: StoreKind,
    pub capacity: usize,
    pub text: Vec<u8>,
    // records of token memory, and of line memory
    pub token_records: usize,
    pub line_records: usize,
    // none stands for the house's book
    pub token_book: Option<Plan>,
    pub line_book: Option<Plan>,
    pub requests: Vec<Request>,
}

// What the lines so far said. What is none was not said.
#[derive(Drop)]
pub struct Said {
    store: Option<(StoreKind, Size)>,
    text: Option<Vec<u8>>,
    memory: Option<(Size, Size)>,
    token_book: Option<Plan>,
    line_book: Option<Plan>,
    requests: Vec<Request>,
}

// Puts what a set-up line says into its place, unless something is there.
fn put<T: Drop>(place: &mut Option<T>, value: T) -> Result<(), Wrong>
    ensures placed { MatchResult result (λ _. (place.old ≡ None) × (place.new ≡ Some value)) (λ w. (is_some place.old ≡ true) × (place.new ≡ place.old)) }
    ensures filled { Answers result (filled false place.old value) (λ _. place.new) }
{
    if place.is_some() {
        return Err(Wrong::Twice);
    }
    *place = Some(value);
    Ok(())
}

impl Said {
    fn new(heap: Global) -> Said
        ensures { heard result ≡ silence }
    {
        Said {
            store: None,
            text: None,
            memory: None,
            token_book: None,
            line_book: None,
            requests: Vec::new(heap),
        }
    }

    // The script, with the defaults for what was not said.
    fn script(self, heap: Global) -> Script
        ensures store { (result.kind, result.capacity) ≡ unwrap_or self.store (Gap, 4096) }
        ensures memory { (result.token_records, result.line_records) ≡ unwrap_or self.memory (result.capacity + 1, result.capacity + 1) }
        ensures text { result.text.items ≡ unwrap_or (option_map vec_items self.text) [] }
        ensures rest { (result.token_book ≡ self.token_book) × (result.line_book ≡ self.line_book) × (result.requests ≡ self.requests) }
        ensures written { written result ≡ script_of (heard self) }
    {
        let Said {
            store,
            text,
            memory,
            token_book,
            line_book,
            requests,
        } = self;
        let (kind, capacity) = store.map_or(
            (StoreKind::Gap, 4096),
            |(kind, size)| (kind, size.get()),
        );
        let (token_records, line_records) = memory.map_or(
            (capacity + 1, capacity + 1),
            |(tokens, lines)| (tokens.get(), lines.get()),
        );
        let text = text.unwrap_or_else(|| Vec::new(heap));
        Script {
            kind,
            capacity,
            text,
            token_records,
            line_records,
            token_book,
            line_book,
            requests,
        }
    }

    // Was there a request?
    fn late(&self) -> bool
        ensures { result ≡ has_asked (heard self.now) }
    {
        !self.requests.is_empty()
    }

    // Takes a command in. None but a request comes behind a request.
    fn set(&mut self, command: Command) -> Result<(), Stop>
        ensures { AnswersOrStops result (taken_in (heard self.old) (instruction command)) (λ _. heard self.new) }
    {
        match command {
            Command::Ask(request) => self.requests.push(request)?,
            _ if self.late() => return Err(Stop::Wrong(Wrong::Late)),
            Command::Store(kind, capacity) => put(&mut self.store, (kind, capacity))?,
            Command::Text(text) => put(&mut self.text, text)?,
            Command::Memory(tokens, lines) => put(&mut self.memory, (tokens, lines))?,
            Command::TokenBook(plan) => put(&mut self.token_book, plan)?,
            Command::LineBook(plan) => put(&mut self.line_book, plan)?,
        }
        Ok(())
    }

    // Takes a line in.
    fn take(&mut self, heap: Global, line: &[u8]) -> Result<(), Stop>
        ensures { AnswersOrStops result (line_in (heard self.old) line.now) (λ _. heard self.new) }
    {
        match line {
            [] | [b'#', ..] => Ok(()),
            _ => self.set(command_of(heap, line)?),
        }
    }
}

// A script whose line of this number stops the reading.
fn broken(number: usize, stop: Stop) -> Broken
    ensures { result ≡ broken_at number stop }
{
    match stop {
        Stop::NoMemory => Broken::NoMemory,
        Stop::Wrong(wrong) => Broken::Line { number, wrong },
    }
}

// Reads a script: what it says, or the first line that breaks its rules.
#[tactic(auto, using(crate::proofs::Again::lines_read_back, crate::proofs::Rewritten::scripts_read_back))]
pub fn parse(heap: Global, input: &[u8]) -> Result<Script, Broken>
    ensures lines { LinesReadBack }
    ensures back { ScriptsReadBack }
    ensures script { MatchResult result (λ s. meaning input.now ≡ Ok (written s)) (λ b. Breaks (meaning input.now) b) }
{
    let mut said = Said::new(heap);
    for (i, line) in (Lines { rest: input }).enumerate() {
        said.take(heap, line).map_err(|stop| broken(i + 1, stop))?;
    }
    Ok(said.script(heap))
}
