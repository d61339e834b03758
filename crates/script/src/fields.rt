// The fields of a line, one behind the other.
ghost use Rattle.std.specs.Prelude.{◌≡◌, ℕ, ◌≤◌, List, [], IfOk};
ghost use Rattle.script.specs.Fields.{front, onward, past_blank, number_in, size_in, table_in, text_in, at_end};
ghost use Rattle.script.specs.Steps.{Answers, AnswersOrStops};

use crate::bytes::split_before;
use crate::numbers::{number_of, table_of};
use crate::sizes::Size;
use crate::texts::text_of;
use crate::wrong::{Stop, Wrong};
use std::alloc::Global;
use std::marker::Model;

// What is left of a line.
#[derive(Drop)]
pub(crate) struct Fields<'a> {
    pub(crate) rest: &'a [u8],
}

impl<'a> Model for Fields<'a> {
    ghost Value = { List ℕ };

    ghost view = { λ f. f.rest.now };
}

impl<'a> Fields<'a> {
    // The bytes up to the next blank or the end.
    pub(crate) fn word(&mut self) -> &'a [u8]
        ensures before { result.now ≡ front 32 self.old }
        ensures behind { self.new ≡ onward 32 self.old }
    {
        let (word, rest) = split_before(self.rest, b' ');
        self.rest = rest;
        word
    }

    // Goes over the one blank before a field.
    pub(crate) fn blank(&mut self) -> Result<(), Wrong>
        ensures { Answers result (past_blank self.old) (λ _. self.new) }
    {
        match self.rest {
            [b' ', rest @ ..] => {
                self.rest = rest;
                Ok(())
            }
            [] => Err(Wrong::Missing),
            _ => Err(Wrong::Left),
        }
    }

    pub(crate) fn number(&mut self) -> Result<usize, Wrong>
        ensures { Answers result (number_in self.old) (λ n. (n, self.new)) }
    {
        self.blank()?;
        number_of(self.word())
    }

    pub(crate) fn size(&mut self) -> Result<Size, Wrong>
        ensures { Answers result (size_in self.old) (λ n. (n, self.new)) }
    {
        Size::try_from(self.number()?)
    }

    pub(crate) fn table(&mut self, heap: Global) -> Result<Vec<u8>, Stop>
        ensures { AnswersOrStops result (table_in self.old) (λ v. (v.items, self.new)) }
    {
        self.blank()?;
        table_of(heap, self.word())
    }

    pub(crate) fn text(&mut self, heap: Global) -> Result<Vec<u8>, Stop>
        ensures { AnswersOrStops result (text_in self.old) (λ v. (v.items, self.new)) }
    {
        self.blank()?;
        let [b'"', bytes @ ..] = self.rest else {
            return Err(Stop::Wrong(Wrong::NoText));
        };
        let (text, rest) = text_of(heap, bytes)?;
        self.rest = rest;
        Ok(text)
    }

    // Is the line at its end?
    pub(crate) fn end(&self) -> Result<(), Wrong>
        ensures { Answers result (at_end self.now) (λ _. []) }
    {
        if self.rest.is_empty() {
            Ok(())
        } else {
            Err(Wrong::Left)
        }
    }
}
