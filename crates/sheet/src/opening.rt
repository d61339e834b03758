// Opening a sheet.
ghost use Rattle.std.specs.Prelude.{◌≡◌, vec_len, IfOk, MatchResult};
ghost use Rattle.std.specs.Option.{option_map};
ghost use Rattle.std.specs.Result.{result_err};
ghost use Rattle.sheet.specs.Lists.{Right, MadeOf};
ghost use Rattle.sheet.specs.Opening.{unopened};

use crate::entries::Entries;
use crate::lists::read;
use crate::parts::{Parts, Unopened};
use crate::sheets::Sheet;
use counts::Count;
use requests::SheetFault;
use scanner::StoreBytes;
use text::TextStore;

// The most bytes that a store of a sheet may have room for.
pub const LIMIT: usize = 65535;

impl<S: TextStore> Parts<S> {
    // The three questions, in their order.
    fn check(&self) -> Result<(), SheetFault>
        ensures { result_err result ≡ unopened (S.TextStore.room self.now.store) (vec_len self.now.tokens) (vec_len self.now.lines) }
    {
        let capacity = self.store.capacity();
        let room = capacity.get();
        if room > LIMIT {
            return Err(SheetFault::Capacity(capacity));
        }
        if self.tokens.len() <= room {
            return Err(SheetFault::TokenMemory(Count::of(self.tokens.len())));
        }
        if self.lines.len() <= room {
            return Err(SheetFault::LineMemory(Count::of(self.lines.len())));
        }
        Ok(())
    }
}

impl<S: TextStore> Sheet<S> {
    // Makes a sheet of the text that the store holds.
    pub fn open(parts: Parts<S>) -> Result<Sheet<S>, Unopened<S>>
        ensures answer { option_map (λ u. u.fault) (result_err result) ≡ unopened (S.TextStore.room parts.store) (vec_len parts.tokens) (vec_len parts.lines) }
        ensures parts { MatchResult result (λ h. (h.store ≡ parts.store) × MadeOf parts h) (λ u. u.parts ≡ parts) }
        ensures right { IfOk result (λ h. Right h (S.TextStore.text parts.store) (S.TextStore.room parts.store)) }
    {
        if let Err(fault) = parts.check() {
            return Err(Unopened { fault, parts });
        }
        let Parts {
            store,
            token_book,
            line_book,
            mut tokens,
            mut lines,
        } = parts;
        let tokens = Entries {
            count: read(&token_book, &StoreBytes(&store), tokens.as_mut_slice()),
            book: token_book,
            memory: tokens,
        };
        let lines = Entries {
            count: read(&line_book, &tokens.kinds(), lines.as_mut_slice()),
            book: line_book,
            memory: lines,
        };
        Ok(Sheet {
            store,
            tokens,
            lines,
        })
    }
}
