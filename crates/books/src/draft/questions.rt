// The questions that a draft has to pass, one function each: it answers the first detail that gets a no.
ghost use Rattle.std.specs.Prelude.{◌≡◌, ℕ, ◌<◌, false, Some, IsNone, MatchResult, slice_index_or};
ghost use Rattle.books.specs.Tables.{closed};
ghost use Rattle.books.specs.Sound.{below_or_none};
ghost use Rattle.books.specs.Check.{counted, kind_and_mode_right, wrong_count, wrong_length, class_fault, wrong_class, wrong_step, wrong_accept, wrong_rule, wrong_start, start_right, count_fault, fault};
ghost use Rattle.books.specs.Plans.{plan};

use crate::draft::Draft;
use crate::draft::measured::Measured;
use crate::fault::{BookFault, yes_or};
use std::array;

fn from_one(count: usize, most: usize) -> bool
    ensures { result ≡ counted count most }
{
    (1..=most).contains(&count)
}

fn below_or_none(count: usize, byte: u8) -> bool
    ensures { result ≡ below_or_none count byte }
{
    (byte as usize) < count || byte == 255
}

impl<'a> Draft<&'a [u8]> {
    fn wrong_count(self) -> Option<usize>
        ensures { result ≡ wrong_count (plan self.entry) }
    {
        let answers = [
            from_one(self.states, 128),
            from_one(self.classes, 32),
            from_one(self.modes, 16),
            from_one(self.rules, 64),
        ];
        answers.iter().position(|yes| !*yes)
    }

    fn wrong_length(self) -> Option<usize>
        requires { IsNone (count_fault (plan self)) }
        ensures { result ≡ wrong_length (plan self.entry) }
    {
        let answers = [
            self.class_table.len() == 256,
            self.step_table.len() == self.states * self.classes,
            self.accept_table.len() == self.states,
            self.rule_table.len() == 2 * self.rules,
            self.start_table.len() == self.modes,
        ];
        answers.iter().position(|yes| !*yes)
    }

    // The draft with its counts and lengths known, or the first of them that is wrong.
    pub(crate) fn measured(self) -> Result<Measured<'a>, BookFault>
        ensures { MatchResult result (λ m. m.draft ≡ self.entry) (λ f. fault (plan self.entry) ≡ Some f) }
    {
        yes_or(self.wrong_count(), BookFault::Count)?;
        yes_or(self.wrong_length(), BookFault::Length)?;
        Ok(Measured { draft: self })
    }
}

impl Measured<'_> {
    pub(crate) fn wrong_class(&self) -> Option<usize>
        ensures { result ≡ wrong_class (plan self.now.draft) }
    {
        self.draft
            .class_table
            .iter()
            .position(|class| *class as usize >= self.draft.classes)
    }

    pub(crate) fn wrong_step(&self) -> Option<usize>
        ensures { result ≡ wrong_step (plan self.now.draft) }
    {
        self.draft
            .step_table
            .iter()
            .position(|next| !below_or_none(self.draft.states, *next))
    }

    pub(crate) fn wrong_accept(&self) -> Option<usize>
        ensures { result ≡ wrong_accept (plan self.now.draft) }
    {
        self.draft
            .accept_table
            .iter()
            .position(|rule| !below_or_none(self.draft.rules, *rule))
    }

    // Whether a rule may give a kind and a mode: no kind below 2, and a mode that there is.
    fn is_rule(&self, kind: u8, mode: u8) -> bool
        ensures { result ≡ kind_and_mode_right (plan self.now.draft) kind mode }
    {
        2 <= kind && (mode as usize) < self.draft.modes
    }

    pub(crate) fn wrong_rule(&self) -> Option<usize>
        ensures { result ≡ wrong_rule (plan self.now.draft) }
    {
        let (rules, _) = self.draft.rule_table.as_chunks::<2>();
        rules
            .iter()
            .position(|[kind, mode]| !self.is_rule(*kind, *mode))
    }

    // Whether no code has a step in a state. A row without a step needs no look at the codes, and past the draft's states there is no row.
    fn is_closed(&self, state: usize) -> bool
        requires { IsNone (class_fault (plan self.now.draft)) }
        ensures { result ≡ closed (plan self.now.draft).tables state }
    {
        if state >= self.draft.states {
            return true;
        }
        let first = state * self.draft.classes;
        let row = &self.draft.step_table[first..first + self.draft.classes];
        row.iter().all(|next| *next == 255)
            || self
                .draft
                .class_table
                .iter()
                .all(|class| row[*class as usize] == 255)
    }

    // Whether a mode may start in a state: one that there is and that is not closed.
    fn is_start(&self, state: u8) -> bool
        requires { IsNone (class_fault (plan self.now.draft)) }
        ensures { result ≡ start_right (plan self.now.draft) state }
    {
        (state as usize) < self.draft.states && !self.is_closed(state as usize)
    }

    pub(crate) fn wrong_start(&self) -> Option<usize>
        requires { IsNone (class_fault (plan self.now.draft)) }
        ensures { result ≡ wrong_start (plan self.now.draft) }
    {
        self.draft
            .start_table
            .iter()
            .position(|state| !self.is_start(*state))
    }

    // For each state whether it is closed.
    pub(crate) fn closed_states(&self) -> [bool; 128]
        requires { IsNone (class_fault (plan self.now.draft)) }
        ensures { (s : ℕ) → s < 128 → slice_index_or result s false ≡ closed (plan self.now.draft).tables s }
    {
        array::from_fn(|state| self.is_closed(state))
    }
}
