// A book whose tables are known to be sound.
ghost use Rattle.std.specs.Prelude.{◌≡◌, None};
ghost use Rattle.books.specs.Check.{fault};
ghost use Rattle.books.specs.Plans.{plan};
ghost use Rattle.books.specs.Meaning.{tables};

use books::{Book, Draft};

// The book of a draft without a fault, to which the check never says no.
pub(crate) fn sound(draft: Draft<&[u8]>) -> Book
    requires { fault (plan draft) ≡ None }
    ensures { tables result ≡ (plan draft.entry).tables }
{
    Book::check(draft).unwrap()
}
