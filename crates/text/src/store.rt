// What every text store promises.
ghost use Rattle.std.specs.Prelude.{◌≡◌, ℕ, ◌≤◌, List, length, MatchResult};
ghost use Rattle.std.specs.Result.{result_err};
ghost use Rattle.std.specs.List.{slice_get};
ghost use Rattle.text.specs.Refused.{refused};
ghost use Rattle.text.specs.Replaced.{replaced};

use crate::fault::StoreFault;
use counts::ByteCount;

// A byte string and a capacity, which never changes; the string is never longer.
pub trait TextStore {
    ghost text: { Self → List ℕ };

    ghost room: { Self → ℕ };

    fn capacity(&self) -> ByteCount
        ensures { result ≡ room self.now };

    fn len(&self) -> ByteCount
        ensures { result ≡ length (text self.now) };

    // The byte at a place, or none at the length and beyond.
    fn byte_at(&self, place: ByteCount) -> Option<u8>
        ensures { result ≡ slice_get (text self.now) place };

    // Whether a replace would be refused: the three questions, in their order.
    fn check(&self, place: ByteCount, cut: ByteCount, inserted: ByteCount) -> Result<(), StoreFault>
        ensures { result_err result ≡ refused (length (text self.now)) (room self.now) place cut inserted }
    {
        let len = self.len();
        if len < place {
            return Err(StoreFault::PlaceBeyond(place));
        }
        if len.get() - place.get() < cut.get() {
            return Err(StoreFault::CutBeyond(cut));
        }
        if self.capacity().get() - (len.get() - cut.get()) < inserted.get() {
            return Err(StoreFault::NoRoom(inserted));
        }
        Ok(())
    }

    // Puts the inserted bytes where the cut ones were. A refusal leaves the whole store as it was.
    fn replace(
        &mut self,
        place: ByteCount,
        cut: ByteCount,
        inserted: &[u8],
    ) -> Result<(), StoreFault>
        ensures answer { result_err result ≡ refused (length (text self.old)) (room self.old) place cut (length inserted.now) }
        ensures after { MatchResult result (λ _. text self.new ≡ replaced (text self.old) place cut inserted.now) (λ _. self.new ≡ self.old) }
        ensures capacity { room self.new ≡ room self.old };

    ghost fits: { (s : Self) → length (text s) ≤ room s };
}
