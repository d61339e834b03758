// Why a draft is no book.
ghost use Rattle.std.specs.Prelude.{◌≡◌, IsErrAnd, MatchOption};
ghost use Rattle.books.specs.Refusals.{refusal_of};

use counts::Refusal;

// The question that got the first no, with the detail that it names, a number in any question since it is told as one.
#[derive(Clone, Copy, PartialEq, Eq, Debug)]
pub enum BookFault {
    // which of the counts of states, classes, modes and rules is out of its bounds
    Count(usize),
    // which of the tables of classes, steps, accepts, rules and starts is not as long as the counts say
    Length(usize),
    // a code whose class is none of the classes
    Class(usize),
    // an entry of the step table that is neither a state nor 255
    Step(usize),
    // a state that accepts neither a rule nor nothing
    Accept(usize),
    // a rule whose kind is below 2 or whose mode is none of the modes
    Rule(usize),
    // a mode that starts in no state or in a closed one
    Start(usize),
}

// The fault as it is told: the layer, the number of the question, and the detail.
impl From<BookFault> for Refusal {
    ghost from_gives = { λ f r. r ≡ refusal_of f };

    fn from(fault: BookFault) -> Refusal {
        let (number, detail) = match fault {
            BookFault::Count(detail) => (1, detail),
            BookFault::Length(detail) => (2, detail),
            BookFault::Class(detail) => (3, detail),
            BookFault::Step(detail) => (4, detail),
            BookFault::Accept(detail) => (5, detail),
            BookFault::Rule(detail) => (6, detail),
            BookFault::Start(detail) => (7, detail),
        };
        Refusal {
            layer: 2,
            number,
            detail,
        }
    }
}

// What a question answers: yes, or the fault at the first detail that got a no.
pub(crate) fn yes_or<F: FnOnce(usize) -> BookFault>(
    no: Option<usize>,
    fault: F,
) -> Result<(), BookFault>
    requires { F.IsAlwaysCallable fault }
    ensures { MatchOption no (result ≡ Ok tt) (λ place. IsErrAnd result (F.post fault place)) }
{
    no.map_or(Ok(()), |place| Err(fault(place)))
}
