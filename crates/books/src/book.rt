// A book: counts and tables without a fault.
mod check;
mod lookup;

ghost use Rattle.std.specs.Prelude.{◌≡◌, ℕ, ◌<◌, false, IsNone, slice_index_or};
ghost use Rattle.books.specs.Tables.{closed};
ghost use Rattle.books.specs.Check.{fault};
ghost use Rattle.books.specs.Plans.{held};

use crate::copies::Copies;

#[derive(Clone, Copy)]
pub struct Book {
    copies: Copies,
    // for each state whether it is closed, so that a scan never looks through a row
    flags: [bool; 128],
    ghost sound: { IsNone (fault (held copies)) },
    ghost flagged: { (s : ℕ) → s < 128 → slice_index_or flags s false ≡ closed (held copies).tables s },
}
