// Four counts and five tables, of any numbers and lengths: what a book is made of, before the check.
mod copied;
mod measured;
mod questions;

ghost use Rattle.std.specs.Prelude.{◌≡◌};
ghost use Rattle.books.specs.Plans.{plan, plan_of};

use std::convert::AsSlice;

// The tables are slices, or whatever else lends one. A host gives their kinds, modes, states and rules as bytes, in any form, so bytes they stay.
#[derive(Clone, Copy, Drop)]
pub struct Draft<T> {
    pub states: usize,
    pub classes: usize,
    pub modes: usize,
    pub rules: usize,
    // the class of each code
    pub class_table: T,
    // a row for each state, in it for each class the next state, or 255 for none
    pub step_table: T,
    // for each state the rule that it accepts, or 255 for none
    pub accept_table: T,
    // for each rule its kind and the mode after it
    pub rule_table: T,
    // the state in which each mode starts
    pub start_table: T,
}

impl<T: AsSlice<u8>> Draft<T> {
    // The same counts and tables, lent.
    pub fn lent(&self) -> Draft<&[u8]>
        ensures counts { (result.states ≡ self.now.states) × (result.classes ≡ self.now.classes) × (result.modes ≡ self.now.modes) × (result.rules ≡ self.now.rules) }
        ensures tables { (result.class_table.now ≡ T.items self.now.class_table) × (result.step_table.now ≡ T.items self.now.step_table) × (result.accept_table.now ≡ T.items self.now.accept_table) × (result.rule_table.now ≡ T.items self.now.rule_table) × (result.start_table.now ≡ T.items self.now.start_table) }
        ensures plan { plan result ≡ plan_of T.items self.now }
    {
        Draft {
            states: self.states,
            classes: self.classes,
            modes: self.modes,
            rules: self.rules,
            class_table: self.class_table.as_slice(),
            step_table: self.step_table.as_slice(),
            accept_table: self.accept_table.as_slice(),
            rule_table: self.rule_table.as_slice(),
            start_table: self.start_table.as_slice(),
        }
    }
}
