// The counts and tables of a book that a script gives.
ghost use Rattle.std.specs.Prelude.{◌≡◌};
ghost use Rattle.books.specs.Plans.{planned};
ghost use Rattle.script.specs.Commands.{plan_in};
ghost use Rattle.script.specs.Steps.{AnswersOrStops};

use crate::fields::Fields;
use crate::wrong::Stop;
use books::Draft;
use std::alloc::Global;

// A draft of a book with tables of its own.
pub type Plan = Draft<Vec<u8>>;

// Reads four counts and five tables.
pub(crate) fn plan_of(heap: Global, fields: &mut Fields) -> Result<Plan, Stop>
    ensures { AnswersOrStops result (plan_in fields.old) (λ p. (planned p, fields.new)) }
{
    let states = fields.number()?;
    let classes = fields.number()?;
    let modes = fields.number()?;
    let rules = fields.number()?;
    let class_table = fields.table(heap)?;
    let step_table = fields.table(heap)?;
    let accept_table = fields.table(heap)?;
    let rule_table = fields.table(heap)?;
    let start_table = fields.table(heap)?;
    Ok(Draft {
        states,
        classes,
        modes,
        rules,
        class_table,
        step_table,
        accept_table,
        rule_table,
        start_table,
    })
}
