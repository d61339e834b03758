// A draft that has passed the first two questions.
ghost use Rattle.std.specs.Prelude.{IsNone};
ghost use Rattle.books.specs.Check.{count_fault, length_fault};
ghost use Rattle.books.specs.Plans.{plan};

use crate::draft::Draft;

// A draft whose counts are within their bounds, and whose tables are as long as the counts say.
#[derive(Clone, Copy)]
pub struct Measured<'a> {
    pub draft: Draft<&'a [u8]>,
    ghost counted: { IsNone (count_fault (plan draft)) },
    ghost long: { IsNone (length_fault (plan draft)) },
}
