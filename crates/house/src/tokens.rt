// The house token book.
ghost use Rattle.std.specs.Prelude.{◌≡◌};
ghost use Rattle.books.specs.Meaning.{tables};
ghost use Rattle.house.specs.House.{house_tokens};
ghost use Rattle.house.specs.Meaning.{ClassesRight, RulesApart, TokensByRules, StepsWhileMatching};
ghost use Rattle.house.specs.Sheets.{WorkedSheets};

use crate::sound::sound;
use books::{Book, Draft};

// The class of each byte: 1 blank, 2 newline, 3 [, 4 ], 5 digit, 6 :, 7 ., 8 {, 9 }, 10 <, 11 >, 12 *, 0 every other.
const CLASSES: [u8; 256] = [
    // bytes from 0: the tab, the newline and the return
    0, 0, 0, 0, 0, 0, 0, 0, 0, 1, 2, 0, 0, 1, 0, 0,
    // from 16
    0, 0, 0, 0, 0, 0, 0, 0, 0, 0, 0, 0, 0, 0, 0, 0,
    // from 32: the blank, the star and the dot
    1, 0, 0, 0, 0, 0, 0, 0, 0, 0, 12, 0, 0, 0, 7, 0,
    // from 48: the digits, the colon and the angle brackets
    5, 5, 5, 5, 5, 5, 5, 5, 5, 5, 6, 0, 10, 0, 11, 0,
    // from 64
    0, 0, 0, 0, 0, 0, 0, 0, 0, 0, 0, 0, 0, 0, 0, 0,
    // from 80: the square brackets
    0, 0, 0, 0, 0, 0, 0, 0, 0, 0, 0, 3, 0, 4, 0, 0,
    // from 96
    0, 0, 0, 0, 0, 0, 0, 0, 0, 0, 0, 0, 0, 0, 0, 0,
    // from 112: the braces
    0, 0, 0, 0, 0, 0, 0, 0, 0, 0, 0, 8, 0, 9, 0, 0,
    // from 128
    0, 0, 0, 0, 0, 0, 0, 0, 0, 0, 0, 0, 0, 0, 0, 0, 0, 0, 0, 0, 0, 0, 0, 0, 0, 0, 0, 0, 0, 0, 0, 0,
    0, 0, 0, 0, 0, 0, 0, 0, 0, 0, 0, 0, 0, 0, 0, 0, 0, 0, 0, 0, 0, 0, 0, 0, 0, 0, 0, 0, 0, 0, 0, 0,
    0, 0, 0, 0, 0, 0, 0, 0, 0, 0, 0, 0, 0, 0, 0, 0, 0, 0, 0, 0, 0, 0, 0, 0, 0, 0, 0, 0, 0, 0, 0, 0,
    0, 0, 0, 0, 0, 0, 0, 0, 0, 0, 0, 0, 0, 0, 0, 0, 0, 0, 0, 0, 0, 0, 0, 0, 0, 0, 0, 0, 0, 0, 0, 0,
];

// A row for each state, in it an entry for each class: the next state, or 255 for no step.
const STEPS: [u8; 286] = [
    // 0: mode 0 begins
    2, 1, 3, 5, 255, 2, 2, 2, 4, 255, 15, 255, 255,
    // 1: blanks
    255, 1, 255, 255, 255, 255, 255, 255, 255, 255, 255, 255, 255,
    // 2: a word
    2, 255, 255, 255, 255, 2, 2, 2, 255, 255, 255, 255, 255,
    // 3: a newline
    255, 255, 255, 255, 255, 255, 255, 255, 255, 255, 255, 255, 255,
    // 4: an opening brace
    255, 255, 255, 255, 255, 255, 255, 255, 255, 255, 255, 255, 255,
    // 5: a stamp, byte by byte: behind [
    255, 255, 255, 255, 255, 6, 255, 255, 255, 255, 255, 255, 255,
    // 6: behind a digit of the minutes
    255, 255, 255, 255, 255, 7, 255, 255, 255, 255, 255, 255, 255,
    // 7: behind both
    255, 255, 255, 255, 255, 255, 8, 255, 255, 255, 255, 255, 255,
    // 8: behind :
    255, 255, 255, 255, 255, 9, 255, 255, 255, 255, 255, 255, 255,
    // 9: behind a digit of the seconds
    255, 255, 255, 255, 255, 10, 255, 255, 255, 255, 255, 255, 255,
    // 10: behind both
    255, 255, 255, 255, 255, 255, 255, 11, 255, 255, 255, 255, 255,
    // 11: behind .
    255, 255, 255, 255, 255, 12, 255, 255, 255, 255, 255, 255, 255,
    // 12: behind a digit of the hundredths
    255, 255, 255, 255, 255, 13, 255, 255, 255, 255, 255, 255, 255,
    // 13: behind both
    255, 255, 255, 255, 14, 255, 255, 255, 255, 255, 255, 255, 255,
    // 14: a stamp
    255, 255, 255, 255, 255, 255, 255, 255, 255, 255, 255, 255, 255,
    // 15: inside a chorus
    15, 15, 15, 15, 15, 15, 15, 15, 15, 15, 15, 16, 15,
    // 16: a chorus
    255, 17, 17, 255, 255, 255, 255, 255, 255, 255, 255, 255, 18,
    // 17: blanks and newlines after it
    255, 17, 17, 255, 255, 255, 255, 255, 255, 255, 255, 255, 18,
    // 18: a starred chorus
    255, 255, 255, 255, 255, 255, 255, 255, 255, 255, 255, 255, 255,
    // 19: mode 1 begins
    20, 20, 20, 20, 20, 20, 20, 20, 20, 21, 20, 20, 20,
    // 20: inside braces
    20, 20, 20, 20, 20, 20, 20, 20, 20, 255, 20, 20, 20,
    // 21: a closing brace
    255, 255, 255, 255, 255, 255, 255, 255, 255, 255, 255, 255, 255,
];

// The rule that each state accepts, or 255 for none.
const ACCEPTS: [u8; 22] = [
    255, 0, 1, 3, 4, 255, 255, 255, 255, 255, 255, 255, 255, 255, 2, 255, 5, 255, 6, 255, 7, 8,
];

// Kind and next mode of each rule.
const RULES: [u8; 18] = [2, 0, 3, 0, 4, 0, 5, 0, 6, 1, 7, 0, 8, 0, 9, 1, 10, 0];

// The state in which each mode begins.
const STARTS: [u8; 2] = [0, 19];

// The token book of song sheets. Its tables are sound, so the check never says no.
pub fn token_book() -> Book
    ensures value { tables result ≡ house_tokens }
    ensures classes { ClassesRight (tables result) }
    ensures apart { RulesApart }
    ensures tokens { TokensByRules (tables result) }
    ensures steps { StepsWhileMatching (tables result) }
    ensures sheets { WorkedSheets (tables result) }
{
    sound(Draft {
        states: 22,
        classes: 13,
        modes: 2,
        rules: 9,
        class_table: &CLASSES,
        step_table: &STEPS,
        accept_table: &ACCEPTS,
        rule_table: &RULES,
        start_table: &STARTS,
    })
}
