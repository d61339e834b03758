// The check that makes a book of a draft.
ghost use Rattle.std.specs.Prelude.{◌≡◌, Some, None, MatchResult};
ghost use Rattle.books.specs.Check.{fault};
ghost use Rattle.books.specs.Plans.{plan};
ghost use Rattle.books.specs.Sound.{Sound};
ghost use Rattle.books.specs.Meaning.{tables};

use crate::book::Book;
use crate::draft::Draft;
use crate::fault::{BookFault, yes_or};

impl Book {
    // The book of a draft's tables, or the first question that gets a no.
    pub fn check(draft: Draft<&[u8]>) -> Result<Book, BookFault>
        ensures { MatchResult result (λ b. (fault (plan draft.entry) ≡ None) × (tables b ≡ (plan draft.entry).tables) × Sound (tables b)) (λ f. fault (plan draft.entry) ≡ Some f) }
    {
        let measured = draft.measured()?;
        yes_or(measured.wrong_class(), BookFault::Class)?;
        yes_or(measured.wrong_step(), BookFault::Step)?;
        yes_or(measured.wrong_accept(), BookFault::Accept)?;
        yes_or(measured.wrong_rule(), BookFault::Rule)?;
        yes_or(measured.wrong_start(), BookFault::Start)?;
        Ok(Book {
            copies: measured.copied(),
            flags: measured.closed_states(),
        })
    }
}
