// What a scan asks of a book.
ghost use Rattle.std.specs.Prelude.{◌≡◌, ◌<◌, length, IfSome};
ghost use Rattle.books.specs.Tables.{start_state, closed, step, accept, kind_of, next_mode, present};
ghost use Rattle.books.specs.Meaning.{tables};

use crate::book::Book;

// What a table's byte names: nothing where it is 255.
#[inline]
fn present(byte: u8) -> Option<u8>
    ensures { result ≡ present byte }
{
    if byte == 255 { None } else { Some(byte) }
}

impl Book {
    // The state in which a mode starts; a mode that the book has not starts in state 0.
    pub fn start_state(&self, mode: u8) -> u8
        ensures value { result ≡ start_state (tables self.now) mode }
        ensures within { result < length (tables self.now).accepts }
    {
        self.copies.start_table.entry(mode as usize)
    }

    // Whether no code has a step in a state.
    pub fn is_closed(&self, state: u8) -> bool
        requires { state < length (tables self.now).accepts }
        ensures { result ≡ closed (tables self.now) state }
    {
        self.flags[state as usize]
    }

    // The next state at a code.
    #[inline]
    pub fn step(&self, state: u8, code: u8) -> Option<u8>
        requires { state < length (tables self.now).accepts }
        ensures value { result ≡ present (step (tables self.now) state code) }
        ensures within { IfSome result (λ s. s < length (tables self.now).accepts) }
    {
        let class = self.copies.class_table[code as usize];
        let place = state as usize * self.copies.classes + class as usize;
        present(self.copies.step_table.at(place))
    }

    // The rule that a state accepts.
    #[inline]
    pub fn accept(&self, state: u8) -> Option<u8>
        requires { state < length (tables self.now).accepts }
        ensures { result ≡ present (accept (tables self.now) state) }
    {
        present(self.copies.accept_table.at(state as usize))
    }

    // The kind that a rule gives; 0 for a rule that the book has not.
    pub fn kind(&self, rule: u8) -> u8
        ensures { result ≡ kind_of (tables self.now) rule }
    {
        self.copies.rule_table.entry(2 * rule as usize)
    }

    // The mode after a rule; 0 for a rule that the book has not.
    pub fn next_mode(&self, rule: u8) -> u8
        ensures { result ≡ next_mode (tables self.now) rule }
    {
        self.copies.rule_table.entry(2 * rule as usize + 1)
    }
}
