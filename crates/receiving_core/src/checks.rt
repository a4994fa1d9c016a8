// The checks of a pair: those of its two rows, brought together.
ghost use Rattle.std.specs.Prelude.{◌*◌, ◌≡◌, length};
ghost use Rattle.gathering_spec.specs.Sums.{Gathered, Parities};
ghost use Rattle.pair_spec.specs.History.{depth};
ghost use Rattle.rows_core.specs.Held.{halves_word};

use gathering_core::lanes;
use mending_core::checks::Checks;
use syndromes_core::gather_row;

// Those of both rows.
pub fn gather(history: &[u8], halves: &[u16; 256], pair: u32) -> Checks
    requires { length history.now ≡ 512 * depth }
    ensures { Gathered (halves_word history.now pair halves.now) result.sums × Parities (halves_word history.now pair halves.now) result.odd }
{
    let a = gather_row(history, halves, pair, 0);
    let b = gather_row(history, halves, pair, 1);
    Checks {
        sums: lanes::levels(&a.sums, &b.sums),
        odd: lanes::join(a.odd, b.odd),
    }
}
