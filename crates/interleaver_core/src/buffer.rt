// The four block rows in which the same bit rows of the four subsets stand, side by side: word x of that of a subset is number 4x+subset.
ghost use Rattle.std.specs.Prelude.{◌≡◌, ◌+◌, ◌*◌, ◌<◌, length};
ghost use Rattle.bits.specs.Lists.{tabulate};
ghost use Rattle.interleaver_spec.specs.BlockBuffer.{joined_word, joined, subset_word};

use bits::parts::fill_parts;
use interleaver_spec::SubsetBitRow;

// Word x of each of four block rows. (By `copy_from_slice`, and `side_by_side` by `fill_parts` or `array::from_fn`, it is slower: see
// `joining::reordered_row`.)
fn put_four(rows: &[[u16; 128]; 4], x: usize, words: &mut [u16])
    requires { (x < 128) × (length words.old ≡ 4) }
    ensures { words.new ≡ tabulate 4 (λ s. joined_word rows.now (x * 4 + s)) }
{
    for subset in 0..4 {
        words[subset] = rows[subset][x];
    }
}

// Four block rows side by side.
pub fn side_by_side(rows: &[[u16; 128]; 4]) -> [u16; 512]
    ensures { result ≡ joined rows.now }
{
    let mut words = [0u16; 512];
    for x in 0..128 {
        let a = x * 4;
        let e = a + 4;
        put_four(rows, x, &mut words[a..e]);
    }
    words
}

// Word x of the block row of a subset in which its bit row q stands.
pub fn subset_word(rows: &[[u16; 512]; 21], subset: usize, q: SubsetBitRow, x: usize) -> u16
    requires { (subset < 4) × (q.0 < 336) × (x < 128) }
    ensures { result ≡ subset_word rows.now subset q x }
{
    rows[q.0 / 16][4 * x + subset]
}
