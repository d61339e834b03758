// A correction, and what it reports. A contract sees both as those of the definitions.
ghost use Rattle.std.specs.Prelude.{◌∷◌, ◌++◌, Some, decimal};

use counts::Count;
use std::fmt;
use std::marker::Model;

// `cut` symbols at `place` give way to `inserted` ones.
#[derive(Clone, Copy, PartialEq, Eq, Debug)]
pub struct Edit<L> {
    pub place: Count<L>,
    pub cut: Count<L>,
    pub inserted: Count<L>,
}

impl<L> Model for Edit<L> {
    ghost use Rattle.reading.specs.Report.{Edit as Meant, edit};

    ghost Value = { Meant };

    ghost view = { λ e. edit e.place e.cut e.inserted };

    ghost inverse = { λ e. record { place = e.place; cut = e.cut; inserted = e.inserted } };
}

// `first` is the first entry that is read again; `out` old entries give way to `added` new ones, and `tail` counts the kept entries behind
// them through the last whose lookback changes. Nothing is read again by the default.
#[derive(Clone, Copy, PartialEq, Eq, Debug, Default)]
pub struct Report<B> {
    pub first: Count<B>,
    pub out: Count<B>,
    pub added: Count<B>,
    pub tail: Count<B>,
}

impl<B> Model for Report<B> {
    ghost use Rattle.reading.specs.Report.{Report as Meant};

    ghost Value = { Meant };

    ghost view = { λ r. record { first = r.first; out = r.out; «in» = r.added; tail = r.tail } };

    ghost inverse = { λ r. record { first = r.first; out = r.out; added = r.«in»; tail = r.tail } };
}

// The four numbers, a blank between each and the next.
impl<B> fmt::Display for Report<B> {
    ghost output = { λ r. Some (decimal r.first ++ (32 ∷ decimal r.out ++ (32 ∷ decimal r.«in» ++ (32 ∷ decimal r.tail)))) };

    fn fmt<W: fmt::Write>(&self, f: &mut fmt::Formatter<W>) -> fmt::Result {
        write!(
            f,
            "{} {} {} {}",
            self.first, self.out, self.added, self.tail
        )
    }
}

// What a re-reading answers: how many entries the list has now, and the report.
#[derive(Drop)]
pub struct Reread<B> {
    pub count: Count<B>,
    pub report: Report<B>,
}
