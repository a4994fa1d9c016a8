// From the pairs of two encoders to the bits of a buffer, block row by block row.
ghost use Rattle.std.specs.Prelude.{◌≡◌, ◌+◌, ◌*◌, ◌<◌, length};
ghost use Rattle.bits.specs.Bits.{pack};
ghost use Rattle.bits.specs.Lists.{tabulate};
ghost use Rattle.blocks.specs.SideBySide.{laid};
ghost use Rattle.interleaver_spec.specs.BlockBuffer.{pairs_words, sent_words, reordered_in, subset_row_at, joined_row, output_bit, column_byte};

use crate::buffer::{side_by_side, subset_word};
use crate::rows::{block_row_of, pairs_byte};
use bits::parts::fill_parts;
use block_core::block::reorder;
use blocks::laying::laid_by;
use blocks::{block_in, lay, read_word};
use interleaver_spec::{BitRow, BlockRow, SubsetBitRow};
use std::array;

// The words of a block row from its encoder's pairs, the second byte of a word the upper: so the compiler reads eight words at once.
fn pairs_words(pairs: &[u8], k: BlockRow) -> [u16; 128]
    requires { (length pairs.now ≡ 10752) × (k.0 < 84) }
    ensures { result ≡ pairs_words pairs.now k }
{
    let begin = pairs_byte(k, 0, BitRow(0));
    array::from_fn(|x| read_word(pairs, begin + 2 * x))
}

// The same by its encoder.
fn sent_words(pairs0: &[u8], pairs1: &[u8], k: BlockRow) -> [u16; 128]
    requires { (length pairs0.now ≡ 10752) × (length pairs1.now ≡ 10752) × (k.0 < 84) }
    ensures { result ≡ sent_words pairs0.now pairs1.now k }
{
    if k.0 % 2 == 0 {
        return pairs_words(pairs0, k);
    }
    pairs_words(pairs1, k)
}

// The reordered blocks of a block row, by columns. (With this function, `sent_words`, `subset_rows`, `put_rows` and those of `buffer` by
// `laid_by`, `array::from_fn`, `iter_mut` and copies, `reordered_rows` took three to four times as long.)
fn reordered_row(words: &[u16; 128]) -> [u16; 128]
    ensures { result ≡ laid (reordered_in words.now) }
{
    let mut row = [0u16; 128];
    for block in 0..8 {
        lay(&mut row, block, reorder(block_in(words, block)));
    }
    row
}

// The block rows in which bit rows 16x to 16x+15 of the four subsets stand, reordered.
fn subset_rows(pairs0: &[u8], pairs1: &[u8], x: usize) -> [[u16; 128]; 4]
    requires { (length pairs0.now ≡ 10752) × (length pairs1.now ≡ 10752) × (x < 21) }
    ensures { result ≡ tabulate 4 (subset_row_at pairs0.now pairs1.now x) }
{
    let none = [0u16; 128];
    let mut rows = [none; 4];
    for subset in 0..4 {
        let words = sent_words(pairs0, pairs1, block_row_of(subset, SubsetBitRow(16 * x)));
        rows[subset] = reordered_row(&words);
    }
    rows
}

// Puts all block rows, reordered, those of the four subsets side by side. Not compiled into its callers: its own arrays would then need
// stack beside theirs.
#[inline(never)]
fn put_rows(pairs0: &[u8], pairs1: &[u8], rows: &mut [[u16; 512]; 21])
    requires { (length pairs0.now ≡ 10752) × (length pairs1.now ≡ 10752) }
    ensures { rows.new ≡ tabulate 21 (joined_row pairs0.now pairs1.now) }
{
    for x in 0..21 {
        let four = subset_rows(pairs0, pairs1, x);
        rows[x] = side_by_side(&four);
    }
}

// All block rows, reordered, those of the four subsets side by side.
pub fn reordered_rows(pairs0: &[u8], pairs1: &[u8]) -> [[u16; 512]; 21]
    requires { (length pairs0.now ≡ 10752) × (length pairs1.now ≡ 10752) }
    ensures { result ≡ tabulate 21 (joined_row pairs0.now pairs1.now) }
{
    let none = [0u16; 512];
    let mut rows = [none; 21];
    put_rows(pairs0, pairs1, &mut rows);
    rows
}

// Bit rows 16x to 16x+15 of each subset at a column: t = 2x of subsets 0 to 3, then t = 2x+1.
fn write_eight(rows: &[[u16; 512]; 21], column: usize, x: usize, out: &mut [u8])
    requires { (column < 128) × (x < 21) × (length out.old ≡ 8) }
    ensures { out.new ≡ tabulate 8 (λ y. column_byte rows.now column (x * 8 + y)) }
{
    let q = SubsetBitRow(16 * x);
    let word = 8 * (column % 16) + column / 16;
    for (y, byte) in out.iter_mut().enumerate() {
        let w = subset_word(rows, y % 4, q, word);
        *byte = ((w >> (8 - 8 * (y / 4))) % 256) as u8;
    }
}

// The output bits of a column.
fn write_column(rows: &[[u16; 512]; 21], column: usize, out: &mut [u8])
    requires { (column < 128) × (length out.old ≡ 168) }
    ensures { out.new ≡ tabulate 168 (column_byte rows.now column) }
{
    fill_parts(out, 8, |x, eight| write_eight(rows, column, x, eight));
}

// The bits of a buffer of reordered block rows.
pub fn write_bits(rows: &[[u16; 512]; 21], bits: &mut [u8])
    requires { length bits.old ≡ 21504 }
    ensures { bits.new ≡ pack 21504 (output_bit rows.now) }
{
    fill_parts(bits, 168, |column, out| write_column(rows, column, out));
}
