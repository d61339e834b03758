// The refusals of a sheet, and how they are told.
ghost use Rattle.std.specs.Prelude.{◌≡◌};
ghost use Rattle.requests.specs.declared.faults.SheetFault.TheVariants.{Store};
ghost use Rattle.requests.specs.Told.{told};

use counts::{ByteCount, LineCount, Refusal, TokenCount};
use text::StoreFault;

// Why a sheet refuses. The store's fault is held whole.
#[derive(Clone, Copy, PartialEq, Eq, Debug)]
pub enum SheetFault {
    Store(StoreFault),
    // the capacity is above 65535
    Capacity(ByteCount),
    // the token memory has fewer than capacity + 1 records: this many
    TokenMemory(TokenCount),
    // the line memory has fewer than capacity + 1 records: this many
    LineMemory(LineCount),
    // there is no token of this number
    NoToken(TokenCount),
    // the buffer is shorter than the token, which has this length
    ShortBuffer(ByteCount),
}

impl From<StoreFault> for SheetFault {
    ghost from_gives = { λ f r. r ≡ Store f };

    fn from(fault: StoreFault) -> SheetFault {
        SheetFault::Store(fault)
    }
}

// The fault as it is told: the layer, the number of the question, and the detail.
impl From<SheetFault> for Refusal {
    ghost from_gives = { λ f r. r ≡ told f };

    fn from(fault: SheetFault) -> Refusal {
        let (number, detail) = match fault {
            SheetFault::Store(fault) => return Refusal::from(fault),
            SheetFault::Capacity(capacity) => (8, capacity.get()),
            SheetFault::TokenMemory(records) => (9, records.get()),
            SheetFault::LineMemory(records) => (10, records.get()),
            SheetFault::NoToken(token) => (14, token.get()),
            SheetFault::ShortBuffer(length) => (15, length.get()),
        };
        Refusal {
            layer: 3,
            number,
            detail,
        }
    }
}
