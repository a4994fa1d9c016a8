// Workers: from the payload of a pair to the back halves of its 32 words before their completion, in numbers of sixteen bits, number 8w+C
// of block C of word w, their bytes exchanged, with zeros where the check bits will be. Over `riffle_core` and
// `payload_core`.
#![tactic(auto)]

ghost use Rattle.std.specs.Prelude.{◌≡◌, ◌+◌, ◌*◌, ◌<◌, ◌≤◌, length, get_or};
ghost use Rattle.bits.specs.Filling.{Filling};
ghost use Rattle.bits.specs.Lists.{tabulate};
ghost use Rattle.payload_rows_core.specs.PayloadRows.{open_number, row_number, fifteen_of, last_number};

use bits::parts::fill_parts;
use blocks::{read_word, turn};
use riffle_core::by_words;
use std::array;

// Block C of row s: sixteen words, two bytes each, as they lie in memory.
fn block_words(payload: &[u8], s: usize, block: usize) -> [u16; 16]
    requires { (length payload.now ≡ 444) × (s < 2) × (block < 6) }
    ensures { result ≡ tabulate 16 (λ i. row_number payload.now s (block * 16 + i)) }
{
    array::from_fn(|r| read_word(payload, 64 * block + 32 * s + 2 * r))
}

// Six blocks of row s, one after the other.
fn put_blocks(payload: &[u8], s: usize, out: &mut [u16])
    requires { (length payload.now ≡ 444) × (s < 2) × (length out.old ≡ 96) }
    ensures { out.new ≡ tabulate 96 (row_number payload.now s) }
{
    fill_parts(out, 16, |c, part| {
        part.copy_from_slice(&block_words(payload, s, c))
    });
}

// The last sixteen bytes of the payload, and two more that `fifteen` reads without using a bit of them.
fn end_of(payload: &[u8]) -> [u8; 18]
    requires { length payload.now ≡ 444 }
    ensures { Filling (λ i. get_or payload.now (428 + i) 0) 18 16 result }
{
    let mut end = [0u8; 18];
    end[0..16].copy_from_slice(&payload[428..444]);
    end
}

// Word n of eight whose fifteen bytes begin behind byte `at`: fifteen bits and a zero, as they lie in memory.
fn fifteen(bytes: &[u8], at: usize, n: usize) -> u16
    requires { (n < 8) × (at + 2 * n + 3 < length bytes.now) }
    ensures { result ≡ fifteen_of bytes.now (8 * at + 8 + 15 * n) }
{
    let x = turn(read_word(bytes, at + 2 * n), 8);
    let y = turn(read_word(bytes, at + 2 * n + 2), 8);
    let z = (x << (8 - n)) | (y >> (8 + n));
    turn((z >> 1) << 1, 8)
}

// Block 6 of all words, eight words a group. A turn makes word n of each of the four groups: so the compiler makes the eight turns
// one. (A group at a time by `array::from_fn` takes half as long again for the whole payload.)
fn lasts(payload: &[u8]) -> [u16; 32]
    requires { length payload.now ≡ 444 }
    ensures { result ≡ tabulate 32 (last_number payload.now) }
{
    let end = end_of(payload);
    let mut out = [0u16; 32];
    for n in 0..8 {
        out[n] = fifteen(payload, 383, n);
        out[8 + n] = fifteen(payload, 398, n);
        out[16 + n] = fifteen(payload, 413, n);
        out[24 + n] = fifteen(&end, 0, n);
    }
    out
}

// Row s by blocks: number 16C+r is of block C of the row's word r. Block 7 has zeros.
fn payload_row(payload: &[u8], last: &[u16; 32], s: usize) -> [u16; 128]
    requires { (length payload.now ≡ 444) × (last.now ≡ tabulate 32 (last_number payload.now)) × (s < 2) }
    ensures { result ≡ tabulate 128 (row_number payload.now s) }
{
    let mut x = [0u16; 128];
    put_blocks(payload, s, &mut x[0..96]);
    x[96..112].copy_from_slice(&last[16 * s..16 * s + 16]);
    x
}

// Row s by words.
fn put_row(payload: &[u8], last: &[u16; 32], s: usize, out: &mut [u16])
    requires { (length payload.now ≡ 444) × (last.now ≡ tabulate 32 (last_number payload.now)) × (s < 2) × (length out.old ≡ 128) }
    ensures { out.new ≡ tabulate 128 (λ i. open_number payload.now (s * 128 + i)) }
{
    out.copy_from_slice(&by_words(payload_row(payload, last, s)));
}

// The back halves of the 32 words of a pair before their completion.
pub fn put_rows(payload: &[u8], halves: &mut [u16])
    requires { (length payload.now ≡ 444) × (length halves.old ≡ 256) }
    ensures { halves.new ≡ tabulate 256 (open_number payload.now) }
{
    let last = lasts(payload);
    fill_parts(halves, 128, |s, row| put_row(payload, &last, s, row));
}
