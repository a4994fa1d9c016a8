// Rows as words of sixteen bits, eight blocks side by side: read in byte order, and with the words of a pair put in order. A history is a
// slice of bytes, as the C interface lends it (`ofec_receive_pair`), so its length stands in the contracts; s is a row's number in its pair.
ghost use Rattle.std.specs.Prelude.{◌≡◌, ◌+◌, ◌*◌, ◌<◌, ◌≤◌, length};
ghost use Rattle.bits.specs.Lists.{tabulate};
ghost use Rattle.blocks.specs.Exchanges.{rows_exchanged, columns_exchanged};
ghost use Rattle.blocks.specs.Moves.{transposed};
ghost use Rattle.blocks.specs.SideBySide.{row_block, words_block};
ghost use Rattle.pair_spec.specs.History.{depth};
ghost use Rattle.rows_core.specs.Held.{Fronts, Backs};
ghost use Rattle.rows_core.specs.RowWords.{row_words, front_block, front_words, fronts_in, backs_in, coded_half, coded_halves, half_block, turned_rows, columns_of};

use bits::parts::fill_parts;
use blocks::laying::laid_by;
use blocks::{block_in, block_of, read_word};
use permutation_core::{exchange_columns, exchange_rows, transpose};
use std::array;

// The words of the row that starts at a byte.
fn row_words(s: &[u8], from: usize) -> [u16; 128]
    requires { from + 256 ≤ length s.now }
    ensures { result ≡ row_words s.now from }
{
    array::from_fn(|x| read_word(s, from + 2 * x))
}

// Block C of the front halves: from pair C, and from the row that starts at a byte of its pair.
fn front_block(history: &[u8], from: usize, block: usize) -> [u16; 16]
    requires { (length history.now ≡ 512 * depth) × (from ≤ 256) × (block < 8) }
    ensures { result ≡ front_block history.now from block }
{
    array::from_fn(|i| read_word(history, 514 * block + 16 * i + from))
}

// The words of the front halves.
fn front_words(history: &[u8], from: usize) -> [u16; 128]
    requires { (length history.now ≡ 512 * depth) × (from ≤ 256) }
    ensures { result ≡ front_words history.now from }
{
    laid_by(
        |block| -> [u16; 16]
            requires { (length history.now ≡ 512 * depth) × (from ≤ 256) × (block < 8) }
            ensures { result ≡ front_block history.entry.now from block }
        { front_block(history, from, block) },
    )
}

// The bit rows of each block exchanged: bit r of number 8j+C is bit 16C+j of the front half of word r.
fn fronts_in(words: &[u16; 128]) -> [u16; 128]
    ensures { result ≡ fronts_in words.now }
{
    laid_by(
        |block| -> [u16; 16]
            requires { block < 8 }
            ensures { result ≡ rows_exchanged (words_block words.entry.now block) }
        { exchange_rows(block_in(words, block)) },
    )
}

// The columns of each block exchanged: number 8r+C holds bits 16C to 16C+15 of the back half of word r, as two bytes lie in memory.
fn backs_in(words: &[u16; 128]) -> [u16; 128]
    ensures { result ≡ backs_in words.now }
{
    laid_by(
        |block| -> [u16; 16]
            requires { block < 8 }
            ensures { result ≡ columns_exchanged (row_block words.entry.now block) }
        { exchange_columns(block_of(words, block)) },
    )
}

// The same of row s of a coded pair.
fn coded_row(coded: &[u8], s: usize) -> [u16; 128]
    requires { (length coded.now ≡ 512) × (s < 2) }
    ensures { result ≡ tabulate 128 (λ i. coded_half coded.now (s * 128 + i)) }
{
    let words = row_words(coded, 256 * s);
    backs_in(&words)
}

// The back halves of the 32 words of a coded pair.
pub fn put_halves(coded: &[u8], halves: &mut [u16])
    requires { (length coded.now ≡ 512) × (length halves.old ≡ 256) }
    ensures { halves.new ≡ coded_halves coded.now }
{
    fill_parts(
        halves,
        128,
        |s, half| half.copy_from_slice(&coded_row(coded, s)),
    );
}

// Block C of row s of the halves.
fn half_block(halves: &[u16; 256], s: usize, block: usize) -> [u16; 16]
    requires { (s < 2) × (block < 8) }
    ensures { result ≡ half_block halves.now s block }
{
    array::from_fn(|r| halves[128 * s + 8 * r + block])
}

// The rows of a block turned by eight.
fn turned_rows(b: [u16; 16]) -> [u16; 16]
    ensures { result ≡ turned_rows b }
{
    array::from_fn(|i| b[(i + 8) % 16])
}

// The columns of row s of the halves, which turns them back: bit r of number 8j+C is bit 16C+j of the back half of word 16s+r.
fn columns_of(halves: &[u16; 256], s: usize) -> [u16; 128]
    requires { s < 2 }
    ensures { result ≡ columns_of halves.now s }
{
    laid_by(
        |block| -> [u16; 16]
            requires { (s < 2) × (block < 8) }
            ensures { result ≡ turned_rows (transposed (half_block halves.entry.now s block)) }
        { turned_rows(transpose(half_block(halves, s, block))) },
    )
}

// The front halves of the words of row s of a pair as a history holds them, side by side; zeros before pair 10.
pub fn fronts(history: &[u8], pair: u32, s: usize) -> [u16; 128]
    requires { (length history.now ≡ 512 * depth) × (s < 2) }
    ensures { Fronts history.now pair s result }
{
    if pair < 10 {
        return [0u16; 128];
    }
    let words = front_words(history, 256 - 256 * s);
    fronts_in(&words)
}

// Their back halves, side by side.
pub fn backs(halves: &[u16; 256], s: usize) -> [u16; 128]
    requires { s < 2 }
    ensures { Backs halves.now s result }
{
    columns_of(halves, s)
}
