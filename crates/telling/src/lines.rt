// What is printed of answers, of refusals and of texts: a line each.
ghost use Rattle.std.specs.Prelude.{◌≡◌, List, [], ◌∷◌, ◌++◌, IfOk, Some, Ok, string_bytes, codes, ℕ};
ghost use Rattle.telling.specs.Lines.{line as line_of, line_with, five as five_of, eight as eight_of, copy_line, refusal_line, answer_line, broken_line};
ghost use Rattle.script.specs.Texts.{text_of};
ghost use Rattle.script.specs.Quoted.{quoted_text};
ghost use Rattle.script.specs.Shown.{escaped, quoted as quoted_as};
ghost use Rattle.script.specs.Wrongs.{words};

use crate::quotes::push_quoted;
use counts::{ByteCount, Refusal};
use requests::{Answer, Reports, SheetFault};
use scanner::Entry;
use script::Wrong;
use std::alloc::{AllocError, Global};

// The line of a refusal.
pub fn refusal_line(heap: Global, refusal: Refusal) -> Result<String, AllocError>
    ensures { IfOk result (λ s. string_bytes s ≡ refusal_line refusal) }
{
    format!(in heap; "refused {refusal}\n")
}

// A line that was begun, with a text in quotes behind that, and its end.
fn with_text(mut line: String, text: &[u8]) -> Result<String, AllocError>
    ensures { IfOk result (λ s. string_bytes s ≡ (string_bytes line ++ quoted_as text.now) ++ (10 ∷ [])) }
{
    push_quoted(&mut line, text)?;
    line.push('\n')?;
    Ok(line)
}

// The line of a text. What stands between its quotes is read back as the text.
pub fn text_line(heap: Global, text: &[u8]) -> Result<String, AllocError>
    ensures back { (rest : List ℕ) → text_of (escaped text.now ++ (34 ∷ rest)) ≡ Some (text.now, rest) }
    ensures line { IfOk result (λ s. string_bytes s ≡ line_with (codes "text") [] text.now) }
    ensures quoted { (rest : List ℕ) → quoted_text (escaped text.now ++ (34 ∷ rest)) ≡ Ok (text.now, rest) }
{
    with_text(format!(in heap; "text ")?, text)
}

// The line of an entry: its kind, length, reading, mode and lookback.
fn entry_line<L: Copy, B: Copy>(
    heap: Global,
    name: &str,
    entry: &Entry<L, B>,
) -> Result<String, AllocError>
    ensures { IfOk result (λ s. string_bytes s ≡ line_of name.now (five_of entry.now)) }
{
    format!(in heap;
        "{name} {} {} {} {} {}\n",
        entry.kind, entry.length, entry.reading, entry.mode, entry.lookback
    )
}

// The line of a correction's two reports.
fn report_line(heap: Global, reports: &Reports) -> Result<String, AllocError>
    ensures { IfOk result (λ s. string_bytes s ≡ line_of (codes "report") (eight_of reports.now)) }
{
    let Reports { tokens, lines } = *reports;
    format!(in heap; "report {tokens} {lines}\n")
}

// The line of a copy: how many bytes were copied, or the refusal, and the buffer.
fn copy_line(
    heap: Global,
    count: &Result<ByteCount, SheetFault>,
    buffer: &[u8],
) -> Result<String, AllocError>
    ensures { IfOk result (λ s. string_bytes s ≡ copy_line count.now buffer.now) }
{
    match count {
        Ok(count) => with_text(format!(in heap; "copied {count} ")?, buffer),
        Err(fault) => with_text(
            format!(in heap; "refused {} ", Refusal::from(*fault))?,
            buffer,
        ),
    }
}

// The line that tells an answer.
pub fn answer_line(heap: Global, answer: &Answer) -> Result<String, AllocError>
    ensures { IfOk result (λ s. string_bytes s ≡ answer_line answer.now) }
{
    match answer {
        Answer::Corrected(Ok(reports)) => report_line(heap, reports),
        Answer::Corrected(Err(fault)) => refusal_line(heap, Refusal::from(*fault)),
        Answer::Token(Some(token)) => entry_line(heap, "token", token),
        Answer::Line(Some(line)) => entry_line(heap, "line", line),
        Answer::Where(Some((token, offset))) => format!(in heap; "where {token} {offset}\n"),
        Answer::Time(Some(hundredths)) => format!(in heap; "time {hundredths}\n"),
        Answer::Copied { count, buffer } => copy_line(heap, count, buffer.as_slice()),
        Answer::Alike(Some(true)) => String::from_str(heap, "yes\n"),
        Answer::Alike(Some(false)) => String::from_str(heap, "no\n"),
        Answer::Token(None)
        | Answer::Line(None)
        | Answer::Where(None)
        | Answer::Time(None)
        | Answer::Alike(None) => String::from_str(heap, "none\n"),
    }
}

// The line that tells what is wrong with a script.
pub fn broken_line(heap: Global, number: usize, wrong: Wrong) -> Result<String, AllocError>
    ensures { IfOk result (λ s. string_bytes s ≡ broken_line number (words wrong)) }
{
    format!(in heap; "line {number}: {wrong}\n")
}
