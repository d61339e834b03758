// A draft's tables, copied.
ghost use Rattle.std.specs.Prelude.{◌≡◌};
ghost use Rattle.books.specs.Plans.{plan, held};

use crate::copies::Copies;
use crate::draft::measured::Measured;
use crate::table::Table;

impl Measured<'_> {
    pub(crate) fn copied(&self) -> Copies
        ensures { held result ≡ plan self.now.draft }
    {
        let mut class_table = [0; 256];
        class_table.copy_from_slice(self.draft.class_table);
        Copies {
            classes: self.draft.classes,
            class_table,
            step_table: Table::of(self.draft.step_table),
            accept_table: Table::of(self.draft.accept_table),
            rule_table: Table::of(self.draft.rule_table),
            start_table: Table::of(self.draft.start_table),
        }
    }
}
