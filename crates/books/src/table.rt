// A table of bytes that holds its own.
ghost use Rattle.std.specs.Prelude.{◌≡◌, ◌<◌, ◌≤◌, length, slice_index};

// At most N bytes, at the front of an array that has room for N: a book needs no heap, and borrowing would ask of callers that they keep their tables.
#[derive(Clone, Copy)]
pub struct Table<const N: usize> {
    bytes: [u8; N],
    len: usize,
    ghost within: { len ≤ N },
}

impl<const N: usize> Table<N> {
    ghost use Rattle.books.specs.Items.{items};

    pub(crate) fn of(bytes: &[u8]) -> Table<N>
        requires { length bytes.now ≤ N }
        ensures { items result ≡ bytes.now }
    {
        let mut room = [0; N];
        room[..bytes.len()].copy_from_slice(bytes);
        Table {
            bytes: room,
            len: bytes.len(),
        }
    }

    // The byte at a place of the table.
    #[inline]
    pub(crate) fn at(&self, place: usize) -> u8
        requires { place < length (items self.now) }
        ensures { result ≡ slice_index (items self.now) place }
    {
        self.bytes[place]
    }

    // The byte at a place, or 0 past the end.
    pub(crate) fn entry(&self, place: usize) -> u8
        ensures { result ≡ slice_index (items self.now) place }
    {
        if place < self.len { self.at(place) } else { 0 }
    }
}
