// One request to a sheet.
ghost use Rattle.std.specs.Prelude.{◌≡◌};
ghost use Rattle.requests.specs.Plain.{asked, answered};
ghost use Rattle.sheet.specs.Lists.{Right, Keeps};
ghost use Rattle.history.specs.Made.{Made};

use requests::{Answer, Request};
use sheet::Sheet;
use text::TextStore;

// Makes a request.
pub(crate) fn make<S: TextStore>(sheet: &mut Sheet<S>, request: Request) -> Answer
    ensures room { S.TextStore.room sheet.new.store ≡ S.TextStore.room sheet.old.store }
    ensures kept { Keeps sheet.old sheet.new }
    ensures made { Right sheet.old (S.TextStore.text sheet.old.store) (S.TextStore.room sheet.old.store) → Made sheet.old sheet.new (S.TextStore.text sheet.old.store) (S.TextStore.text sheet.new.store) (S.TextStore.room sheet.old.store) (asked request) (answered result) }
{
    match request {
        Request::Correct {
            place,
            cut,
            inserted,
        } => Answer::Corrected(sheet.correct(place, cut, inserted.as_slice())),
        Request::Token(number) => Answer::Token(sheet.token(number)),
        Request::Line(number) => Answer::Line(sheet.line(number)),
        Request::Where(place) => Answer::Where(sheet.find(place)),
        Request::Time(number) => Answer::Time(sheet.time(number)),
        Request::Copy { token, mut buffer } => {
            let count = sheet.copy(token, buffer.as_mut_slice());
            Answer::Copied { count, buffer }
        }
        Request::Alike(a, b) => Answer::Alike(sheet.alike(a, b)),
    }
}
