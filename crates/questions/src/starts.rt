// Where an entry of a list starts.
ghost use Rattle.std.specs.Prelude.{◌≡◌, ◌-◌, ◌^◌, ◌≤◌, min, length};
ghost use Rattle.reading.specs.Reading.{start};

use counts::Count;
use scanner::Entry;

// The sum of the lengths before an entry. A sum that does not fit its number stops growing: no list of a text has one.
#[tactic(auto, using(std::proofs::lemmas::Grind::common_steps, reading::proofs::Lists::start_more, reading::proofs::Split::start_zero))]
pub(crate) fn start_of<L: Copy, B: Copy>(entries: &[Entry<L, B>], number: Count<B>) -> Count<L>
    requires { number ≤ length entries.now }
    ensures { result ≡ min (start entries.now number) (2 ^ 64 - 1) }
{
    let mut sum: usize = 0;
    for entry in &entries[..number.get()] {
        sum = sum.saturating_add(entry.length.get());
    }
    Count::of(sum)
}
