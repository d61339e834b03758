// Bytes at the front of others.
ghost use Rattle.std.specs.Prelude.{◌≡◌};
ghost use Rattle.std.specs.Iterator.{YieldsFirstRef, item_count};
ghost use Rattle.script.specs.Fields.{front, onward};
ghost use Rattle.script.specs.Scripts.{lines_of};

// The bytes before the first one that is this, and those from it on.
pub(crate) fn split_before(bytes: &[u8], end: u8) -> (&[u8], &[u8])
    ensures before { result.0.now ≡ front end bytes.now }
    ensures behind { result.1.now ≡ onward end bytes.now }
{
    let n = bytes.iter().position(|b| *b == end).unwrap_or(bytes.len());
    bytes.split_at(n)
}

// The lines of a script, one after the other. std's split gives one more behind a last newline, an empty one, which is no line.
#[derive(Drop)]
pub(crate) struct Lines<'a> {
    pub(crate) rest: &'a [u8],
}

impl<'a> Iterator for Lines<'a> {
    type Item = &'a [u8];

    ghost next_gives = { YieldsFirstRef (λ s. lines_of s.rest.now) };

    // no more lines than bytes
    ghost remaining = { item_count (λ s. s.rest.now) };

    fn next(&mut self) -> Option<&'a [u8]> {
        if self.rest.is_empty() {
            return None;
        }
        let (line, behind) = split_before(self.rest, b'\n');
        self.rest = behind.get(1..).unwrap_or(&[]);
        Some(line)
    }
}
