// Counters: first the pair number, and calls by the refusal's number, 0 done, 1 to 5 refused; then words, coded bits and payload bits by
// their kinds. No call of a run is refused with 6 or more.
ghost use Rattle.std.specs.Prelude.{◌≡◌, ◌<◌, length};
ghost use Rattle.calls.specs.Answers.{refusal_of};
ghost use Rattle.loopback_core.specs.Tally.{tally_sum, answered};

use calls::Answer;

// By number, as the definitions of `Tally` speak of them, and in the order in which they are printed.
pub type Counts = [u32; 41];

// Adds to the counter at a place.
pub fn add(counts: &mut [u32], at: usize, n: u32)
    requires { at < length counts.old }
    ensures { counts.new ≡ tally_sum at n counts.old }
{
    counts[at] = counts[at].wrapping_add(n);
}

// Counts a call by its answer.
pub fn answered(counts: &mut Counts, a: Answer)
    requires { refusal_of a < 6 }
    ensures { counts.new ≡ answered a counts.old }
{
    add(counts, 1 + calls::refusal_of(a) as usize, 1);
}
