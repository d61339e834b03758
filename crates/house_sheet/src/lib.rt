// The two house books as a sheet has them, with worked sheets and corrections.
#![tactic(auto)]

ghost use Rattle.std.specs.Prelude.{◌≡◌};
ghost use Rattle.books.specs.Meaning.{tables};
ghost use Rattle.house.specs.House.{house_tokens, house_lines};
ghost use Rattle.house_sheet.specs.Worked.{Worked};

use books::Book;
use house::{line_book, token_book};

// The books that a sheet is read by.
#[derive(Clone, Copy)]
pub struct Books {
    pub tokens: Book,
    pub lines: Book,
}

// The house books.
pub fn house_books() -> Books
    ensures tokens { tables result.tokens ≡ house_tokens }
    ensures lines { tables result.lines ≡ house_lines }
    ensures worked { Worked (tables result.tokens) (tables result.lines) }
{
    Books {
        tokens: token_book(),
        lines: line_book(),
    }
}
