// Workers: from the back halves of a pair's 32 words in numbers of sixteen bits, number 8w+C of block C of word w, to its payload. Over
// `pair_words_core` and `riffle_core`, below `receiving_core`.
#![tactic(auto)]

ghost use Rattle.std.specs.Prelude.{◌≡◌, ◌+◌, ◌*◌, ◌^◌, ◌<◌, ◌≤◌, length};
ghost use Rattle.bits.specs.Bits.{bit_of, from_bits, pack};
ghost use Rattle.bits.specs.Lists.{tabulate};
ghost use Rattle.pair_words_core.specs.Halves.{payload_in};
ghost use Rattle.payload_core.specs.NumberBits.{behind};
ghost use Rattle.payload_core.specs.PayloadParts.{last_bit};
ghost use Rattle.payload_core.specs.RowBytes.{row_of_halves, row_by_blocks, half_byte, block_byte, blocks_byte};

use bits::parts::fill_parts;
use blocks::turn;
use riffle_core::by_blocks;
use std::array;

// The numbers of a row's sixteen words.
fn row_of_halves(halves: &[u16; 256], s: usize) -> [u16; 128]
    requires { s < 2 }
    ensures { result ≡ row_of_halves halves.now s }
{
    array::from_fn(|n| halves[128 * s + n])
}

// These in order by blocks: number 16C+r is of block C of the row's word r.
fn row_by_blocks(halves: &[u16; 256], s: usize) -> [u16; 128]
    requires { s < 2 }
    ensures { result ≡ row_by_blocks halves.now s }
{
    by_blocks(row_of_halves(halves, s))
}

// Block C of a row by blocks, two bytes a number, the lower byte first, as they lie in memory. (`blocks::write_words` writes a whole row.)
fn put_half(row: &[u16; 128], block: usize, out: &mut [u8])
    requires { (length out.old ≡ 32) × (block < 6) }
    ensures { out.new ≡ tabulate 32 (half_byte row.now block) }
{
    fill_parts(out, 2, |r, bytes| {
        bytes.copy_from_slice(&row[16 * block + r].to_le_bytes())
    });
}

// Block C of both rows.
fn put_block(first: &[u16; 128], second: &[u16; 128], block: usize, out: &mut [u8])
    requires { (length out.old ≡ 64) × (block < 6) }
    ensures { out.new ≡ tabulate 64 (block_byte first.now second.now block) }
{
    put_half(first, block, &mut out[0..32]);
    put_half(second, block, &mut out[32..64]);
}

// Six blocks, one after the other.
fn put_blocks(first: &[u16; 128], second: &[u16; 128], out: &mut [u8])
    requires { length out.old ≡ 384 }
    ensures { out.new ≡ tabulate 384 (blocks_byte first.now second.now) }
{
    fill_parts(out, 64, |c, part| put_block(first, second, c, part));
}

// The last fifteen payload bits of a word: block 6 without its last bit, after its two bytes were exchanged.
fn last_fifteen(halves: &[u16; 256], w: usize) -> u64
    requires { w < 32 }
    ensures { (result ≡ from_bits 15 (behind (w * 15) (last_bit halves.now))) × (result < 2 ^ 15) }
{
    u64::from(turn(halves[8 * w + 6], 8) / 2)
}

// Those of four words, from word w on. (A `fold` leaves the proof without a bound of v.)
fn last_sixty(halves: &[u16; 256], w: usize) -> u64
    requires { w + 4 ≤ 32 }
    ensures { (result ≡ from_bits 60 (behind (w * 15) (last_bit halves.now))) × (result < 2 ^ 60) }
{
    let mut v = 0;
    for i in 0..4 {
        v = v * 32768 + last_fifteen(halves, w + i);
    }
    v
}

// The eight bytes of a number. (`to_be_bytes` takes an eighth longer for the whole payload.)
fn number_bytes(v: u64) -> [u8; 8]
    ensures { result ≡ pack 8 (bit_of 64 v) }
{
    array::from_fn(|j| ((v >> (56 - 8 * j)) % 256) as u8)
}

// The last payload bits of eight words, fifteen bytes, as two numbers of eight bytes that share the byte in the middle.
fn put_fifteen(halves: &[u16; 256], group: usize, out: &mut [u8])
    requires { (length out.old ≡ 15) × (group < 4) }
    ensures { out.new ≡ pack 15 (behind (group * 120) (last_bit halves.now)) }
{
    let first = last_sixty(halves, group * 8);
    let second = last_sixty(halves, group * 8 + 4);
    out[0..8].copy_from_slice(&number_bytes(first * 16 + (second >> 56)));
    out[7..15].copy_from_slice(&number_bytes(first % 16 * (1 << 60) + second));
}

// The last payload bits of all words.
fn put_last(halves: &[u16; 256], out: &mut [u8])
    requires { length out.old ≡ 60 }
    ensures { out.new ≡ pack 60 (last_bit halves.now) }
{
    fill_parts(out, 15, |g, part| put_fifteen(halves, g, part));
}

// The payload: six blocks of each word, then what is left of block 6.
pub fn put_payload(halves: &[u16; 256], payload: &mut [u8])
    requires { length payload.old ≡ 444 }
    ensures { payload.new ≡ payload_in halves.now }
{
    let first = row_by_blocks(halves, 0);
    let second = row_by_blocks(halves, 1);
    put_blocks(&first, &second, &mut payload[0..384]);
    put_last(halves, &mut payload[384..444]);
}
