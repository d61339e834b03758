// One line of a script.
ghost use Rattle.std.specs.Prelude.{◌≡◌};
ghost use Rattle.requests.specs.Plain.{asked};
ghost use Rattle.script.specs.Commands.{kind_of, store_in, memory_in, correct_in, copy_in, alike_in, fields_in, command_of};
ghost use Rattle.script.specs.Plain.{instruction};
ghost use Rattle.script.specs.Steps.{Answers, AnswersOrStops};

use crate::fields::Fields;
use crate::names::Name;
use crate::plans::{Plan, plan_of};
use crate::scripts::StoreKind;
use crate::sizes::Size;
use crate::wrong::{Stop, Wrong};
use counts::{ByteCount, LineCount, TokenCount};
use requests::Request;
use std::alloc::Global;

// What a line says.
#[derive(Drop)]
pub enum Command {
    Store(StoreKind, Size),
    Text(Vec<u8>),
    Memory(Size, Size),
    TokenBook(Plan),
    LineBook(Plan),
    Ask(Request),
}

impl TryFrom<&[u8]> for StoreKind {
    type Error = Wrong;

    ghost try_from_gives = { λ w r. r ≡ kind_of w.now };

    fn try_from(word: &[u8]) -> Result<StoreKind, Wrong> {
        match word {
            b"flat" => Ok(StoreKind::Flat),
            b"gap" => Ok(StoreKind::Gap),
            b"" => Err(Wrong::Missing),
            _ => Err(Wrong::Store),
        }
    }
}

fn store_of(fields: &mut Fields) -> Result<Command, Wrong>
    ensures { Answers result (store_in fields.old) (λ c. (instruction c, fields.new)) }
{
    fields.blank()?;
    let kind = StoreKind::try_from(fields.word())?;
    let capacity = fields.size()?;
    Ok(Command::Store(kind, capacity))
}

fn memory_of(fields: &mut Fields) -> Result<Command, Wrong>
    ensures { Answers result (memory_in fields.old) (λ c. (instruction c, fields.new)) }
{
    let tokens = fields.size()?;
    let lines = fields.size()?;
    Ok(Command::Memory(tokens, lines))
}

fn correct_of(heap: Global, fields: &mut Fields) -> Result<Request, Stop>
    ensures { AnswersOrStops result (correct_in fields.old) (λ q. (asked q, fields.new)) }
{
    let place = ByteCount::of(fields.number()?);
    let cut = ByteCount::of(fields.number()?);
    let inserted = fields.text(heap)?;
    Ok(Request::Correct {
        place,
        cut,
        inserted,
    })
}

// A request to copy brings a buffer of bytes of 255.
fn copy_of(heap: Global, fields: &mut Fields) -> Result<Request, Stop>
    ensures { AnswersOrStops result (copy_in fields.old) (λ q. (asked q, fields.new)) }
{
    let token = TokenCount::of(fields.number()?);
    let size = fields.size()?;
    let buffer = vec![in heap; 255; size.get()]?;
    Ok(Request::Copy { token, buffer })
}

fn alike_of(fields: &mut Fields) -> Result<Request, Wrong>
    ensures { Answers result (alike_in fields.old) (λ q. (asked q, fields.new)) }
{
    let a = LineCount::of(fields.number()?);
    let b = LineCount::of(fields.number()?);
    Ok(Request::Alike(a, b))
}

// The fields of a command, by its name.
fn fields_of(heap: Global, name: Name, fields: &mut Fields) -> Result<Command, Stop>
    ensures { AnswersOrStops result (fields_in name fields.old) (λ c. (instruction c, fields.new)) }
{
    Ok(match name {
        Name::Store => store_of(fields)?,
        Name::Text => Command::Text(fields.text(heap)?),
        Name::Memory => memory_of(fields)?,
        Name::TokenBook => Command::TokenBook(plan_of(heap, fields)?),
        Name::LineBook => Command::LineBook(plan_of(heap, fields)?),
        Name::Correct => Command::Ask(correct_of(heap, fields)?),
        Name::Token => Command::Ask(Request::Token(TokenCount::of(fields.number()?))),
        Name::Line => Command::Ask(Request::Line(LineCount::of(fields.number()?))),
        Name::Where => Command::Ask(Request::Where(ByteCount::of(fields.number()?))),
        Name::Time => Command::Ask(Request::Time(TokenCount::of(fields.number()?))),
        Name::Copy => Command::Ask(copy_of(heap, fields)?),
        Name::Alike => Command::Ask(alike_of(fields)?),
    })
}

// The command of a line, which ends behind the last field.
pub(crate) fn command_of(heap: Global, line: &[u8]) -> Result<Command, Stop>
    ensures { AnswersOrStops result (command_of line.now) instruction }
{
    let mut fields = Fields { rest: line };
    let name = Name::try_from(fields.word())?;
    let command = fields_of(heap, name, &mut fields)?;
    fields.end()?;
    Ok(command)
}
