// From the bits of a buffer to the pairs of two encoders, block row by block row.
ghost use Rattle.std.specs.Prelude.{◌≡◌, ◌+◌, ◌*◌, ◌<◌, length};
ghost use Rattle.blocks.specs.Block.{row_word};
ghost use Rattle.interleaver_spec.specs.BlockBuffer.{line_column, line_columns, restored_row, restored_block};
ghost use Rattle.interleaver_spec.specs.Interleaving.{apart};

use crate::rows::output_byte;
use bits::parts::fill_parts;
use block_core::block::restore;
use blocks::laying::laid_by;
use blocks::write_row;
use interleaver_spec::BlockRow;
use std::array;

// Column j of block C of a block row, as the bits have it: bit rows 0 to 7 are one byte, 8 to 15 are four bytes on.
fn line_word(bits: &[u8], k: BlockRow, block: usize, j: usize) -> u16
    requires { (length bits.now ≡ 21504) × (k.0 < 84) × (block < 8) × (j < 16) }
    ensures { result ≡ row_word (line_column bits.now k block) j }
{
    let at = output_byte(k, 16 * block + j);
    u16::from_be_bytes([bits[at], bits[at + 4]])
}

// That block by columns.
fn line_block(bits: &[u8], k: BlockRow, block: usize) -> [u16; 16]
    requires { (length bits.now ≡ 21504) × (k.0 < 84) × (block < 8) }
    ensures { result ≡ line_columns bits.now k block }
{
    array::from_fn(|j| line_word(bits, k, block, j))
}

// The restored blocks of a block row.
fn restored_row(bits: &[u8], k: BlockRow) -> [u16; 128]
    requires { (length bits.now ≡ 21504) × (k.0 < 84) }
    ensures { result ≡ restored_row bits.now k.0 }
{
    laid_by(
        |block| -> [u16; 16]
            requires { (length bits.now ≡ 21504) × (k.0 < 84) × (block < 8) }
            ensures { result ≡ restored_block bits.entry.now k block }
        { restore(line_block(bits, k, block)) },
    )
}

// An encoder's pairs of a buffer of bits.
pub fn write_pairs(bits: &[u8], encoder: usize, pairs: &mut [u8])
    requires { (length bits.now ≡ 21504) × (encoder < 2) × (length pairs.old ≡ 10752) }
    ensures { pairs.new ≡ apart bits.now encoder }
{
    fill_parts(pairs, 256, |r, row| {
        write_row(&restored_row(bits, BlockRow(2 * r + encoder)), row)
    });
}
