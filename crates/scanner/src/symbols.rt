// Where symbols come from.
ghost use Rattle.std.specs.Prelude.{◌≡◌, ℕ, List, length};
ghost use Rattle.std.specs.List.{slice_get};
ghost use Rattle.scanner.specs.Numbers.{kinds_of};

use crate::entries::Token;
use counts::{ByteCount, Bytes, Count, TokenCount, Tokens};
use text::TextStore;

// A string of symbols, known by their codes.
pub trait Symbols {
    // what these symbols are counted in
    type Unit: Copy;

    ghost codes: { Self → List ℕ };

    // How many symbols there are.
    fn count(&self) -> Count<Self::Unit>
        ensures { result ≡ length (codes self.now) };

    // The code at a place, or none at the end and beyond.
    fn code_at(&self, place: Count<Self::Unit>) -> Option<u8>
        ensures { result ≡ slice_get (codes self.now) place };
}

// The bytes of a text store: a byte's code is the byte.
#[derive_where(Clone, Copy)]
pub struct StoreBytes<'a, S>(pub &'a S);

impl<'a, S: TextStore> Symbols for StoreBytes<'a, S> {
    type Unit = Bytes;

    ghost codes = { λ s. S.TextStore.text s.0.now };

    fn count(&self) -> ByteCount {
        self.0.len()
    }

    fn code_at(&self, place: ByteCount) -> Option<u8>
        ensures { result ≡ slice_get (S.TextStore.text self.now.0.now) place }
    {
        self.0.byte_at(place)
    }
}

// Tokens: a token's code is its kind.
#[derive(Clone, Copy)]
pub struct Kinds<'a>(pub &'a [Token]);

impl<'a> Symbols for Kinds<'a> {
    type Unit = Tokens;

    ghost codes = { λ s. kinds_of s.0.now };

    fn count(&self) -> TokenCount {
        Count::of(self.0.len())
    }

    fn code_at(&self, place: TokenCount) -> Option<u8>
        ensures { result ≡ slice_get (kinds_of self.now.0.now) place }
    {
        self.0.get(place.get()).map(|token| token.kind)
    }
}
