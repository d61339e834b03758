// What the gap store does.
ghost use Rattle.std.specs.Prelude.{◌≡◌, ◌+◌, ◌-◌, ◌≤◌, [], length, vec_len, MatchResult, OnOk};
ghost use Rattle.std.specs.Result.{result_err};
ghost use Rattle.text.specs.Layout.{around, gap_text};
ghost use Rattle.text.specs.Refused.{refused};
ghost use Rattle.text.specs.Replaced.{replaced};
ghost use Rattle.std.proofs.Common.{arith, length-append, length-take, length-drop};

use super::GapStore;
use crate::fault::StoreFault;
use crate::moves::{put, slide};
use crate::store::TextStore;
use counts::ByteCount;

impl GapStore {
    // An empty text, all memory being the gap; the memory's length is the capacity.
    pub fn new(memory: Vec<u8>) -> GapStore
        ensures memory { result.memory ≡ memory }
        ensures empty { gap_text result ≡ [] }
        ensures gap { result.gap ≡ 0 }
    {
        GapStore {
            gap: 0,
            free: memory.len(),
            memory,
        }
    }

    // The memory as it stands, with the text around its gap.
    pub fn into_memory(self) -> Vec<u8>
        ensures memory { result ≡ self.memory }
        ensures around { around self.gap (vec_len result - length (gap_text self)) result.items ≡ gap_text self }
    {
        let GapStore { memory, .. } = self;
        memory
    }
}

impl TextStore for GapStore {
    ghost text = { gap_text };

    ghost room = { λ s. vec_len s.memory };

    ghost fits = { λ s. simp (length-append, length-take, length-drop) (omega arith) };

    fn capacity(&self) -> ByteCount {
        ByteCount::of(self.memory.len())
    }

    fn len(&self) -> ByteCount
        ensures text { result ≡ length (gap_text self.now) }
        ensures used { result ≡ vec_len self.now.memory - self.now.free }
    {
        ByteCount::of(self.memory.len() - self.free)
    }

    fn byte_at(&self, place: ByteCount) -> Option<u8> {
        // behind the gap a byte is `free` bytes further
        let part = if place.get() < self.gap {
            &self.memory[..self.gap]
        } else {
            &self.memory[self.free..]
        };
        part.get(place.get()).copied()
    }

    // After a taken replace the gap starts at the end of the change.
    fn replace(
        &mut self,
        place: ByteCount,
        cut: ByteCount,
        inserted: &[u8],
    ) -> Result<(), StoreFault>
        ensures answer { result_err result ≡ refused (length (gap_text self.old)) (vec_len self.old.memory) place cut (length inserted.now) }
        ensures after { MatchResult result (λ _. gap_text self.new ≡ replaced (gap_text self.old) place cut inserted.now) (λ _. self.new ≡ self.old) }
        ensures capacity { vec_len self.new.memory ≡ vec_len self.old.memory }
        ensures gap { OnOk result (self.new.gap ≡ place + length inserted.now) }
    {
        self.check(place, cut, ByteCount::of(inserted.len()))?;
        let (place, cut) = (place.get(), cut.get());
        let memory = self.memory.as_mut_slice();
        move_gap(memory, self.gap, self.free, place);
        put(memory, place, inserted);
        self.gap = place + inserted.len();
        self.free = self.free + cut - inserted.len();
        Ok(())
    }
}

// Moves a gap of `free` bytes from `gap` to `place`. Costs the bytes between the two.
fn move_gap(memory: &mut [u8], gap: usize, free: usize, place: usize)
    requires { (gap + free ≤ length memory.old) × (place + free ≤ length memory.old) }
    ensures { around place free memory.new ≡ around gap free memory.old }
{
    if place < gap {
        slide(memory, place, gap, place + free);
    } else {
        slide(memory, gap + free, place + free, gap);
    }
}
