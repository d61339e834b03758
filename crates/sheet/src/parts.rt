// What a sheet is made of.
ghost use Rattle.std.specs.Prelude.{◌≡◌};

use crate::entries::Entries;
use crate::sheets::Sheet;
use books::Book;
use requests::SheetFault;
use scanner::{Line, Token};

// A store with the text that it holds, two books, and memory for each list: as many records as each is long.
#[derive(Drop)]
pub struct Parts<S> {
    pub store: S,
    pub token_book: Book,
    pub line_book: Book,
    pub tokens: Vec<Token>,
    pub lines: Vec<Line>,
}

// Why no sheet was opened, and all that it was to be made of.
#[derive(Drop)]
pub struct Unopened<S> {
    pub fault: SheetFault,
    pub parts: Parts<S>,
}

impl<S> Sheet<S> {
    // Gives back what the sheet was made of.
    pub fn into_parts(self) -> Parts<S>
        ensures store { result.store ≡ self.store }
        ensures books { (result.token_book ≡ self.tokens.book) × (result.line_book ≡ self.lines.book) }
        ensures memory { (result.tokens ≡ self.tokens.memory) × (result.lines ≡ self.lines.memory) }
    {
        let Sheet {
            store,
            tokens,
            lines,
        } = self;
        let Entries {
            book: token_book,
            memory: tokens,
            ..
        } = tokens;
        let Entries {
            book: line_book,
            memory: lines,
            ..
        } = lines;
        Parts {
            store,
            token_book,
            line_book,
            tokens,
            lines,
        }
    }
}
