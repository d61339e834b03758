// The history of a sheet: any list of requests, one after the other.
ghost use Rattle.std.specs.Prelude.{◌≡◌, ◌≤◌, [], map, IfOk, None, vec_len, vec_capacity, MatchResult};
ghost use Rattle.books.specs.Meaning.{tables};
ghost use Rattle.requests.specs.Plain.{asked, answered};
ghost use Rattle.requests.specs.Sheets.{History};
ghost use Rattle.sheet.specs.Lists.{tokens_of, lines_of, Right, Keeps, MadeOf};
ghost use Rattle.sheet.specs.Opening.{unopened};
ghost use Rattle.history.specs.Due.{Due};

use crate::making::make;
use crate::outcomes::{Performed, Reason, Unperformed};
use requests::{Answer, Request};
use sheet::{Parts, Sheet, Unopened};
use std::alloc::Global;
use text::TextStore;

// Makes every request in turn. There is room for the answers.
fn make_all<S: TextStore>(
    sheet: Sheet<S>,
    requests: Vec<Request>,
    answers: Vec<Answer>,
) -> Performed<S>
    requires right { Right sheet (S.TextStore.text sheet.store) (S.TextStore.room sheet.store) }
    requires none { answers.items ≡ [] }
    requires enough { vec_len requests ≤ vec_capacity answers }
    ensures history { History (tables sheet.tokens.book) (tables sheet.lines.book) (S.TextStore.room sheet.store) (S.TextStore.text sheet.store) (map asked requests.items) (map answered result.answers.items) (S.TextStore.text result.sheet.store) (tokens_of result.sheet) (lines_of result.sheet) }
    ensures room { S.TextStore.room result.sheet.store ≡ S.TextStore.room sheet.store }
    ensures kept { Keeps sheet result.sheet }
{
    let mut sheet = sheet;
    let mut answers = answers;
    for request in requests {
        let answer = make(&mut sheet, request);
        answers.push_reserved(answer);
    }
    Performed { sheet, answers }
}

// The history of a sheet: opens it, makes every request in turn, and answers the sheet and the answers.
// Nothing is touched where there is no memory for the answers, or where the sheet is not opened: then all is given back.
pub fn perform<S: TextStore>(
    heap: Global,
    parts: Parts<S>,
    requests: Vec<Request>,
) -> Result<Performed<S>, Unperformed<S>>
    ensures answer { MatchResult result (λ _. unopened (S.TextStore.room parts.store) (vec_len parts.tokens) (vec_len parts.lines) ≡ None) (λ u. (u.parts ≡ parts) × (u.requests ≡ requests) × Due (unopened (S.TextStore.room parts.store) (vec_len parts.tokens) (vec_len parts.lines)) u.reason) }
    ensures history { IfOk result (λ p. History (tables parts.token_book) (tables parts.line_book) (S.TextStore.room parts.store) (S.TextStore.text parts.store) (map asked requests.items) (map answered p.answers.items) (S.TextStore.text p.sheet.store) (tokens_of p.sheet) (lines_of p.sheet)) }
    ensures kept { IfOk result (λ p. (S.TextStore.room p.sheet.store ≡ S.TextStore.room parts.store) × MadeOf parts p.sheet) }
{
    let Ok(answers) = Vec::with_capacity(heap, requests.len()) else {
        return Err(Unperformed {
            reason: Reason::NoMemory,
            parts,
            requests,
        });
    };
    match Sheet::open(parts) {
        Ok(sheet) => Ok(make_all(sheet, requests, answers)),
        Err(Unopened { fault, parts }) => Err(Unperformed {
            reason: Reason::Fault(fault),
            parts,
            requests,
        }),
    }
}
