// Why a store refuses a replace.
ghost use Rattle.std.specs.Prelude.{◌≡◌};
ghost use Rattle.text.specs.Refused.{told};

use counts::{ByteCount, Refusal};

// One case for each question to a replace, with the detail that the question names.
#[derive(Clone, Copy, PartialEq, Eq, Debug)]
pub enum StoreFault {
    // The place is beyond the text's length.
    PlaceBeyond(ByteCount),
    // The cut is longer than the text from the place on.
    CutBeyond(ByteCount),
    // The text would be longer than the capacity; the detail is the inserted count.
    NoRoom(ByteCount),
}

// The fault as it is told: the layer, the number of the question, and the detail.
impl From<StoreFault> for Refusal {
    ghost from_gives = { λ f r. r ≡ told f };

    fn from(fault: StoreFault) -> Refusal {
        let (number, detail) = match fault {
            StoreFault::PlaceBeyond(place) => (11, place),
            StoreFault::CutBeyond(cut) => (12, cut),
            StoreFault::NoRoom(inserted) => (13, inserted),
        };
        Refusal {
            layer: 1,
            number,
            detail: detail.get(),
        }
    }
}
