// Workers: what is gathered of the sixteen words of a row, whose front halves a history holds: S1 and S3 block by block, and parities,
// side by side. Over `rows_core` and `gathering_core`; pairs are encoded and received with it.
#![tactic(auto)]

ghost use Rattle.std.specs.Prelude.{◌≡◌, ◌*◌, ◌<◌, length};
ghost use Rattle.pair_spec.specs.History.{depth};
ghost use Rattle.syndromes_core.specs.RowChecks.{RowChecked};

use gathering_core::lanes;
use rows_core::rows;

// The sums of the eight blocks of a row, and its parities: of each sum, and of the parities, bit r is that of word r.
#[derive(Clone, Copy)]
pub struct RowChecks {
    pub sums: [u16; 128],
    pub odd: u16,
}

// Those of row s of the words with these back halves, whose front halves a history holds. Bit 255, which stands in number 127, counts in
// the parities alone.
pub fn gather_row(history: &[u8], halves: &[u16; 256], pair: u32, s: usize) -> RowChecks
    requires { (length history.now ≡ 512 * depth) × (s < 2) }
    ensures { RowChecked history.now pair halves.now s result.sums result.odd }
{
    let x = rows::fronts(history, pair, s);
    let mut y = rows::backs(halves, s);
    let odd = lanes::row_parities(&x, &y);
    y[127] = 0;
    let sums = lanes::by_eight(&x, &y);
    RowChecks { sums, odd }
}
