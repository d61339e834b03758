// Corrections: the text is changed in the store, and both lists follow.
ghost use Rattle.std.specs.Prelude.{◌≡◌, List, length, IfOk, MatchResult};
ghost use Rattle.std.specs.Option.{option_map};
ghost use Rattle.std.specs.Result.{result_err};
ghost use Rattle.text.specs.Refused.{refused};
ghost use Rattle.text.specs.Replaced.{replaced};
ghost use Rattle.books.specs.Meaning.{tables};
ghost use Rattle.reading.specs.Reading.{Entry as Meant};
ghost use Rattle.reading.specs.Report.{edit as edited, edit_above};
ghost use Rattle.requests.specs.declared.faults.SheetFault.TheVariants.{Store};
ghost use Rattle.requests.specs.Sheets.{reports};
ghost use Rattle.sheet.specs.Lists.{Right, Keeps};

use crate::lists::follow;
use crate::sheets::Sheet;
use correction::{Edit, Report};
use counts::{ByteCount, Count, TokenCount, Tokens};
use requests::{Reports, SheetFault};
use scanner::StoreBytes;
use text::TextStore;

// The edit that a report is for the list above, where the list has `count` entries now: end tokens do not count there.
fn edit_above(report: Report<Tokens>, count: TokenCount) -> Edit<Tokens>
    ensures { (new : List Meant) → length new ≡ count → result ≡ edit_above new report }
{
    let Report {
        first,
        out,
        added,
        ..
    } = report;
    let last = first.get().checked_add(added.get());
    // one end token, where the report runs through it
    let through = usize::from(last == Some(count.get()));
    Edit {
        place: first,
        cut: Count::of(out.get().saturating_sub(through)),
        inserted: Count::of(added.get().saturating_sub(through)),
    }
}

impl<S: TextStore> Sheet<S> {
    // Cuts bytes at a place and inserts others there, and has both lists follow. The store's refusal leaves the whole sheet as it was.
    pub fn correct(
        &mut self,
        place: ByteCount,
        cut: ByteCount,
        inserted: &[u8],
    ) -> Result<Reports, SheetFault>
        ensures answer { result_err result ≡ option_map Store (refused (length (S.TextStore.text self.old.store)) (S.TextStore.room self.old.store) place cut (length inserted.now)) }
        ensures after { MatchResult result (λ _. S.TextStore.text self.new.store ≡ replaced (S.TextStore.text self.old.store) place cut inserted.now) (λ _. self.new ≡ self.old) }
        ensures room { S.TextStore.room self.new.store ≡ S.TextStore.room self.old.store }
        ensures kept { Keeps self.old self.new }
        ensures right { Right self.old (S.TextStore.text self.old.store) (S.TextStore.room self.old.store) → IfOk result (λ p. Right self.new (S.TextStore.text self.new.store) (S.TextStore.room self.new.store) × (p ≡ reports (tables self.old.tokens.book) (tables self.old.lines.book) (S.TextStore.text self.old.store) (S.TextStore.text self.new.store) (edited place cut (length inserted.now)))) }
    {
        self.store.replace(place, cut, inserted)?;
        let edit = Edit {
            place,
            cut,
            inserted: Count::of(inserted.len()),
        };
        let tokens = follow(&mut self.tokens, &StoreBytes(&self.store), edit);
        let above = edit_above(tokens, self.tokens.count);
        let lines = follow(&mut self.lines, &self.tokens.kinds(), above);
        Ok(Reports { tokens, lines })
    }
}
