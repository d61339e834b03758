// A list with the book that it is read by, in the memory that was handed over for it.
ghost use Rattle.std.specs.Prelude.{◌≤◌, vec_len};

use books::Book;
use counts::Count;
use scanner::Entry;

// The list stands at the front of the memory, which is given back in the end with as many records as it had.
#[derive(Drop)]
pub struct Entries<L, B> {
    pub(crate) book: Book,
    pub(crate) memory: Vec<Entry<L, B>>,
    pub(crate) count: Count<B>,
    ghost within: { count ≤ vec_len memory },
}
