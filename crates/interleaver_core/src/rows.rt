// Block rows, bit rows of a block row and bit rows of a subset, each from the others, and where each begins in the pairs and in the bits.
ghost use Rattle.std.specs.Prelude.{◌≡◌, ◌+◌, ◌*◌, ◌<◌, ◌≤◌};
ghost use Rattle.interleaver_spec.specs.Rows.{row_in, block_row_of};
ghost use Rattle.interleaver_spec.specs.SubsetLaws.{subset_in, bit_row_in};
ghost use Rattle.interleaver_spec.specs.PositionLaws.{output_at};
ghost use Rattle.interleaver_spec.specs.Interleaving.{pairs_bit};

use interleaver_spec::{BitRow, BlockRow, SubsetBitRow};

// The block row in which bit row q of a subset stands: subsets 0 and 1 are in block rows 0 to 41, subsets 2 and 3 in 42 to 83.
pub fn block_row_of(subset: usize, q: SubsetBitRow) -> BlockRow
    requires { (subset < 4) × (q.0 < 336) }
    ensures { (result ≡ block_row_of subset q) × (result.0 < 84) }
{
    BlockRow(subset / 2 * 42 + subset % 2 + 2 * (q.0 / 16))
}

// The subset of a block row, and the bit row of the subset that bit row i of the block row is.
fn subset_of(k: BlockRow) -> usize
    requires { k.0 < 84 }
    ensures { (result ≡ subset_in k) × (result < 4) }
{
    k.0 / 42 * 2 + k.0 % 2
}

fn bit_row_of(k: BlockRow, i: BitRow) -> SubsetBitRow
    requires { i.0 < 16 }
    ensures { (result ≡ bit_row_in k i) × (result.0 ≤ 320 + i.0) }
{
    SubsetBitRow(k.0 % 42 / 2 * 16 + i.0)
}

// The byte of the output bits of bit rows 0 to 7 of a block row at a column; those of 8 to 15 are four
// bytes on. A column has 1,344 output bits, 168 bytes.
pub fn output_byte(k: BlockRow, column: usize) -> usize
    requires { (k.0 < 84) × (column < 128) }
    ensures { (result * 8 ≡ output_at k (record { 0 = 0 }) column) × (result + 4 < 21504) }
{
    let q = bit_row_of(k, BitRow(0));
    168 * column + 4 * (q.0 / 8) + subset_of(k)
}

// The byte of its encoder's pairs at which bit row i of block C of a block row begins: 256 bytes a row, 16 a bit row, two a block.
pub fn pairs_byte(k: BlockRow, block: usize, i: BitRow) -> usize
    requires { (k.0 < 84) × (block < 8) × (i.0 < 16) }
    ensures { (result * 8 ≡ pairs_bit (row_in k) block i.0 0) × (result + 1 < 10752) × (result ≤ 10496 + 16 * i.0 + 2 * block) }
{
    256 * (k.0 / 2) + 16 * i.0 + 2 * block
}
