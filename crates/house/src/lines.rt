// The house line book: it reads the kinds of tokens.
ghost use Rattle.std.specs.Prelude.{◌≡◌};
ghost use Rattle.books.specs.Meaning.{tables};
ghost use Rattle.house.specs.House.{house_lines};
ghost use Rattle.house.specs.Meaning.{LinesRight};

use crate::sound::sound;
use books::{Book, Draft};

// The class of each kind: 1 a newline token, 2 a stamp, 0 every other.
const CLASSES: [u8; 256] = [
    0, 0, 0, 0, 2, 1, 0, 0, 0, 0, 0, 0, 0, 0, 0, 0, 0, 0, 0, 0, 0, 0, 0, 0, 0, 0, 0, 0, 0, 0, 0, 0,
    0, 0, 0, 0, 0, 0, 0, 0, 0, 0, 0, 0, 0, 0, 0, 0, 0, 0, 0, 0, 0, 0, 0, 0, 0, 0, 0, 0, 0, 0, 0, 0,
    0, 0, 0, 0, 0, 0, 0, 0, 0, 0, 0, 0, 0, 0, 0, 0, 0, 0, 0, 0, 0, 0, 0, 0, 0, 0, 0, 0, 0, 0, 0, 0,
    0, 0, 0, 0, 0, 0, 0, 0, 0, 0, 0, 0, 0, 0, 0, 0, 0, 0, 0, 0, 0, 0, 0, 0, 0, 0, 0, 0, 0, 0, 0, 0,
    0, 0, 0, 0, 0, 0, 0, 0, 0, 0, 0, 0, 0, 0, 0, 0, 0, 0, 0, 0, 0, 0, 0, 0, 0, 0, 0, 0, 0, 0, 0, 0,
    0, 0, 0, 0, 0, 0, 0, 0, 0, 0, 0, 0, 0, 0, 0, 0, 0, 0, 0, 0, 0, 0, 0, 0, 0, 0, 0, 0, 0, 0, 0, 0,
    0, 0, 0, 0, 0, 0, 0, 0, 0, 0, 0, 0, 0, 0, 0, 0, 0, 0, 0, 0, 0, 0, 0, 0, 0, 0, 0, 0, 0, 0, 0, 0,
    0, 0, 0, 0, 0, 0, 0, 0, 0, 0, 0, 0, 0, 0, 0, 0, 0, 0, 0, 0, 0, 0, 0, 0, 0, 0, 0, 0, 0, 0, 0, 0,
];

// A row for each state, in it an entry for each class: the next state, or 255 for no step.
const STEPS: [u8; 15] = [
    // 0: the start
    1, 3, 2,
    // 1: in a line
    1, 3, 1,
    // 2: in a line that began with a stamp
    2, 4, 2,
    // 3: behind the newline token of a line
    255, 255, 255,
    // 4: behind that of a line that began with a stamp
    255, 255, 255,
];

// The rule that each state accepts, or 255 for none.
const ACCEPTS: [u8; 5] = [255, 1, 0, 1, 0];

// Kind and next mode of each rule: a line that begins with a stamp, and any other.
const RULES: [u8; 4] = [2, 0, 3, 0];

// The state in which the one mode begins.
const STARTS: [u8; 1] = [0];

// The line book of song sheets. Its tables are sound, so the check never says no.
pub fn line_book() -> Book
    ensures value { tables result ≡ house_lines }
    ensures lines { LinesRight (tables result) }
{
    sound(Draft {
        states: 5,
        classes: 3,
        modes: 1,
        rules: 2,
        class_table: &CLASSES,
        step_table: &STEPS,
        accept_table: &ACCEPTS,
        rule_table: &RULES,
        start_table: &STARTS,
    })
}
