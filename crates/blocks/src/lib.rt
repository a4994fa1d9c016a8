// Blocks of sixteen 16-bit rows, by value, and the eight blocks of a row side by side, word i of block C being number 8i+C: functions,
// definitions and laws. Over `bits`; pairs and interleaver use it.
#![tactic(auto)]

pub mod laying;

ghost use Rattle.std.specs.Prelude.{◌≡◌, ◌+◌, ◌*◌, ◌<◌, [], ◌∷◌, length, get_or, EachIndex};
ghost use Rattle.bits.specs.Lists.{tabulate};
ghost use Rattle.blocks.specs.Moves.{chosen, turned};
ghost use Rattle.blocks.specs.SideBySide.{laid_in, read_word, row_block, words_block, row_byte, word_byte};

use laying::put_lane;
use std::array;

// Bytes j and j+1, the second the upper: so the compiler reads them as they lie in memory.
pub fn read_word(s: &[u8], j: usize) -> u16
    requires { j + 1 < length s.now }
    ensures { result ≡ read_word s.now j }
{
    u16::from_le_bytes([s[j], s[j + 1]])
}

// A row turned left by n columns.
#[tactic(auto, using(crate::specs::MoveLaws::rotated_is))]
pub fn turn(x: u16, n: usize) -> u16
    requires { n < 16 }
    ensures { result ≡ turned x n }
{
    x.rotate_left(n as u32)
}

// The columns of m from x, the others from y.
#[tactic(auto, using(crate::specs::MoveLaws::choose_is))]
pub fn choose(m: u16, x: u16, y: u16) -> u16
    ensures { result ≡ chosen m x y }
{
    y ^ ((x ^ y) & m)
}

// Block C of a row.
pub fn block_of(row: &[u16], block: usize) -> [u16; 16]
    requires { (length row.now ≡ 128) × (block < 8) }
    ensures { result ≡ row_block row.now block }
{
    array::from_fn(|r| row[8 * r + block])
}

// Block C of words whose bytes stand the other way round: they are exchanged.
pub fn block_in(words: &[u16; 128], block: usize) -> [u16; 16]
    requires { block < 8 }
    ensures { result ≡ words_block words.now block }
{
    array::from_fn(|r| turn(words[8 * r + block], 8))
}

// Puts the words of block C into a row.
pub fn lay(row: &mut [u16], block: usize, b: [u16; 16])
    requires { (length row.old ≡ 128) × (block < 8) }
    ensures { row.new ≡ laid_in row.old block b }
{
    put_lane(row, block, &b);
}

// Puts two bytes for each word: those that `bytes` makes of it. Each at its place: so the compiler puts eight words at once, which it does
// not where two are copied together.
fn put_words<F: Fn(u16) -> [u8; 2]>(words: &[u16; 128], out: &mut [u8], bytes: F)
    requires room { length out.old ≡ 256 }
    requires callable { F.IsAlwaysCallable bytes }
    ensures { EachIndex words.now (λ x. F.post bytes (get_or words.now x 0) (get_or out.new (2 * x) 0 ∷ get_or out.new (2 * x + 1) 0 ∷ [])) }
{
    for (x, word) in words.iter().enumerate() {
        let [first, second] = bytes(*word);
        out[2 * x] = first;
        out[2 * x + 1] = second;
    }
}

// The bytes of a row, two a word.
pub fn write_row(row: &[u16; 128], out: &mut [u8])
    requires { length out.old ≡ 256 }
    ensures { out.new ≡ tabulate 256 (row_byte row.now) }
{
    put_words(row, out, u16::to_be_bytes);
}

// The bytes of a row of words whose bytes stand the other way round: of each the lower first, as they lie in memory.
pub fn write_words(words: &[u16; 128], out: &mut [u8])
    requires { length out.old ≡ 256 }
    ensures { out.new ≡ tabulate 256 (word_byte words.now) }
{
    put_words(words, out, u16::to_le_bytes);
}
