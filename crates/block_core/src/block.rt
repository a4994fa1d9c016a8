// A block of sixteen 16-bit rows, by value, reordered and restored by whole rows. The place (i, j) of a reordered block takes its bit
// from (r, c), i = c - r and j = r + 2i + d, so each row is turned left by its number, which brings the bit to column i, and then
// column i is moved down by 2i + d rows: what results is the reordered block by columns.
ghost use Rattle.std.specs.Prelude.{◌≡◌, ◌<◌};
ghost use Rattle.blocks.specs.Block.{block};
ghost use Rattle.interleaver_spec.specs.Block.{reordered, restored};
ghost use Rattle.blocks.specs.Moves.{transposed};
ghost use Rattle.interleaver_spec.specs.Moves.{turned_bit, moved_bit};

use blocks::{choose, turn};
use std::array;

// The columns i, column 0 the most significant bit, for which 2i + d has 8, 4, 2 and 1 in it.
const BY_8: u16 = 0x0F0F;

const BY_4: u16 = 0x3333;

const BY_2: u16 = 0x5555;

const BY_1: u16 = 0x00FF;

// Each row turned left by n times its number.
fn turn_rows(b: [u16; 16], n: usize) -> [u16; 16]
    requires { n < 16 }
    ensures { result ≡ block (turned_bit n b) }
{
    array::from_fn(|i| turn(b[i], n * i % 16))
}

// Each column of m moved up by n rows, the first coming after the last.
fn move_columns(b: [u16; 16], n: usize, m: u16) -> [u16; 16]
    requires { n < 16 }
    ensures { result ≡ block (moved_bit n m b) }
{
    array::from_fn(|i| choose(m, b[(i + n) % 16], b[i]))
}

// The reordered block, by columns: down by 8, 4, 2 and 1 is up by 8, 12, 14 and 15.
pub fn reorder(b: [u16; 16]) -> [u16; 16]
    ensures { result ≡ transposed (reordered b) }
{
    let t = turn_rows(b, 1);
    let u = move_columns(t, 8, BY_8);
    let v = move_columns(u, 12, BY_4);
    let w = move_columns(v, 14, BY_2);
    move_columns(w, 15, BY_1)
}

// The block that was reordered to the one whose columns are given. Turned left by 15 times its number, a row is turned right by it.
pub fn restore(b: [u16; 16]) -> [u16; 16]
    ensures { result ≡ restored (transposed b) }
{
    let t = move_columns(b, 8, BY_8);
    let u = move_columns(t, 4, BY_4);
    let v = move_columns(u, 2, BY_2);
    let w = move_columns(v, 1, BY_1);
    turn_rows(w, 15)
}
