// What the flat store does.
ghost use Rattle.std.specs.Prelude.{◌≡◌, ◌+◌, ◌-◌, ◌≤◌, [], length, vec_len, MatchResult};
ghost use Rattle.std.specs.Result.{result_err};
ghost use Rattle.text.specs.Layout.{front, flat_text};
ghost use Rattle.text.specs.Refused.{refused};
ghost use Rattle.text.specs.Replaced.{replaced};
ghost use Rattle.std.proofs.Common.{arith, length-take};

use super::FlatStore;
use crate::fault::StoreFault;
use crate::moves::{put, slide};
use crate::store::TextStore;
use counts::ByteCount;

impl FlatStore {
    // An empty text; the memory's length is the capacity.
    pub fn new(memory: Vec<u8>) -> FlatStore
        ensures memory { result.memory ≡ memory }
        ensures empty { flat_text result ≡ [] }
    {
        FlatStore { memory, len: 0 }
    }

    // The memory as it stands, with the text at its front.
    pub fn into_memory(self) -> Vec<u8>
        ensures memory { result ≡ self.memory }
        ensures front { front (length (flat_text self)) result.items ≡ flat_text self }
    {
        let FlatStore { memory, .. } = self;
        memory
    }
}

impl TextStore for FlatStore {
    ghost text = { flat_text };

    ghost room = { λ s. vec_len s.memory };

    ghost fits = { λ s. simp length-take (omega arith) };

    fn capacity(&self) -> ByteCount {
        ByteCount::of(self.memory.len())
    }

    fn len(&self) -> ByteCount {
        ByteCount::of(self.len)
    }

    fn byte_at(&self, place: ByteCount) -> Option<u8> {
        self.memory[..self.len].get(place.get()).copied()
    }

    // After every replace, taken or refused, the text is at the front of the memory.
    fn replace(
        &mut self,
        place: ByteCount,
        cut: ByteCount,
        inserted: &[u8],
    ) -> Result<(), StoreFault>
        ensures answer { result_err result ≡ refused (length (flat_text self.old)) (vec_len self.old.memory) place cut (length inserted.now) }
        ensures after { MatchResult result (λ _. flat_text self.new ≡ replaced (flat_text self.old) place cut inserted.now) (λ _. self.new ≡ self.old) }
        ensures capacity { vec_len self.new.memory ≡ vec_len self.old.memory }
        ensures front { front (length (flat_text self.new)) self.new.memory.items ≡ flat_text self.new }
    {
        self.check(place, cut, ByteCount::of(inserted.len()))?;
        let (place, cut) = (place.get(), cut.get());
        let memory = self.memory.as_mut_slice();
        slide(memory, place + cut, self.len, place + inserted.len());
        put(memory, place, inserted);
        self.len = self.len - cut + inserted.len();
        Ok(())
    }
}
