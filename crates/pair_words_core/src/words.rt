// The words of a pair, gathered from the history and what is lent: the front half bit by bit from the columns of blocks, the back
// half byte by byte.
ghost use Rattle.std.specs.Prelude.{◌≡◌, ℕ, ◌+◌, ◌*◌, ◌<◌, ◌≤◌, length};
ghost use Rattle.bits.specs.Bits.{bit, byte_of, pack};
ghost use Rattle.bits.specs.Lists.{tabulate};
ghost use Rattle.bits.specs.Xor.{◌⊕◌};
ghost use Rattle.word_spec.specs.Completion.{first_bits};
ghost use Rattle.pair_spec.specs.History.{depth};
ghost use Rattle.pair_spec.specs.Encoding.{open_word};
ghost use Rattle.pair_spec.specs.Receiving.{held_word};
ghost use Rattle.pair_words_core.specs.BackHalves.{coded_source};
ghost use Rattle.pair_words_core.specs.WordBits.{front_held};
ghost use Rattle.pair_words_core.specs.WordBytes.{front_stored, own_bit};

use crate::bytes::byte_from;
use crate::columns::coded_byte;
use bits::parts::fill_parts;
use std::array;

// Exclusive or of two columns or bit rows.
pub fn xor16(a: usize, b: usize) -> usize
    requires { (a < 16) × (b < 16) }
    ensures { (result ≡ a ⊕ b) × (result < 16) }
{
    a ^ b
}

// Bit k of the front half of word w, where it stands in the history: column w mod 16 of block C = k div 16. With each C it comes from a
// pair 512 bytes further on in the history and stands two bytes further on in its bit row, 514 together; a row has 256 bytes, a bit row
// 16, and it is the other row of its pair, R^1.
fn front_bit(history: &[u8], w: usize, k: usize) -> u8
    requires { (length history.now ≡ 512 * depth) × (w < 32) × (k < 128) }
    ensures { (result ≡ front_stored history.now w k) × (result < 2) }
{
    let a = xor16(k % 16, w % 16);
    let j = k / 16 * 514 + (1 - w / 16) * 256 + a * 16 + w % 16 / 8;
    (history[j] >> (7 - w % 8)) % 2
}

// Byte j of the front half of word w, where it stands in the history.
fn front_byte(history: &[u8], w: usize, j: usize) -> u8
    requires { (length history.now ≡ 512 * depth) × (w < 32) × (j < 16) }
    ensures { result ≡ byte_of (front_stored history.now w) j }
{
    byte_from(|k| front_bit(history, w, j * 8 + k))
}

// Its two bytes of block C.
fn put_front_block(history: &[u8], w: usize, block: usize, out: &mut [u8])
    requires { (length history.now ≡ 512 * depth) × (w < 32) × (block < 8) × (length out.old ≡ 2) }
    ensures { out.new ≡ tabulate 2 (λ i. byte_of (front_stored history.now w) (block * 2 + i)) }
{
    out[0] = front_byte(history, w, block * 2);
    out[1] = front_byte(history, w, block * 2 + 1);
}

// The front half of word w; zeros before pair 10. (Byte by byte, by `array::from_fn`, a word takes half as long again or more: the places
// of a block's bits are then worked out for each byte, and not once.)
fn front_half(history: &[u8], pair: u32, w: usize) -> [u8; 16]
    requires { (length history.now ≡ 512 * depth) × (w < 32) }
    ensures { result ≡ pack 16 (front_held depth history.now pair w) }
{
    if pair < 10 {
        return [0; 16];
    }
    let mut front = [0; 16];
    fill_parts(
        &mut front,
        2,
        |block, out| put_front_block(history, w, block, out),
    );
    front
}

// The back half of word w as received.
fn coded_half(coded: &[u8], w: usize) -> [u8; 16]
    requires { (length coded.now ≡ 512) × (w < 32) }
    ensures { result ≡ tabulate 16 (λ j. byte_of (λ i. bit coded.now (coded_source i)) (w * 16 + j)) }
{
    array::from_fn(|j| coded_byte(coded, w * 16 + j))
}

// A word of its halves. (By one `array::from_fn`, which asks of each byte which half it is in, a word takes two to four times as long.)
fn joined(front: &[u8; 16], back: &[u8; 16]) -> [u8; 32]
    ensures { (f : ℕ → ℕ) → front.now ≡ tabulate 16 f → back.now ≡ tabulate 16 (λ j. f (16 + j)) → result ≡ tabulate 32 f }
{
    let mut word = [0; 32];
    word[..16].copy_from_slice(front);
    word[16..].copy_from_slice(back);
    word
}

// Word w as the receiver holds it: the front as held, the back as received.
pub fn held_word(history: &[u8], coded: &[u8], pair: u32, w: usize) -> [u8; 32]
    requires { (length history.now ≡ 512 * depth) × (length coded.now ≡ 512) × (w < 32) }
    ensures { result ≡ pack 32 (held_word depth history.now pair coded.now w) }
{
    joined(&front_half(history, pair, w), &coded_half(coded, w))
}

// Bit k of the last payload bits of word w, and zeros.
fn last_bit(payload: &[u8], w: usize, k: usize) -> u8
    requires { (length payload.now ≡ 444) × (w < 32) × (224 ≤ k) × (k < 256) }
    ensures { (result ≡ own_bit payload.now w k) × (result < 2) }
{
    // 01's payload bit of k - 128, which is 96 to 110: 15w + 512 * 6 + (k - 128 - 96), and 3072 - 224 is 2848.
    if k < 239 {
        bits::bit(payload, w * 15 + k + 2848)
    } else {
        0
    }
}

// Byte j of word w: two bytes of the payload for each of six blocks, 512 bits or 64 bytes apart, then bits.
fn own_byte(payload: &[u8], w: usize, j: usize) -> u8
    requires { (length payload.now ≡ 444) × (w < 32) × (16 ≤ j) × (j < 32) }
    ensures { result ≡ byte_of (own_bit payload.now w) j }
{
    if j < 28 {
        return payload[w * 2 + (j - 16) / 2 * 64 + j % 2];
    }
    byte_from(|k| last_bit(payload, w, j * 8 + k))
}

// The back half of word w before its completion: the payload, and zeros.
fn own_half(payload: &[u8], w: usize) -> [u8; 16]
    requires { (length payload.now ≡ 444) × (w < 32) }
    ensures { result ≡ tabulate 16 (λ j. byte_of (own_bit payload.now w) (16 + j)) }
{
    array::from_fn(|j| own_byte(payload, w, 16 + j))
}

// Word w before its completion: the front as held, the payload, and zeros.
pub fn open_word(history: &[u8], payload: &[u8], pair: u32, w: usize) -> [u8; 32]
    requires { (length history.now ≡ 512 * depth) × (length payload.now ≡ 444) × (w < 32) }
    ensures { result ≡ pack 32 (first_bits (open_word depth history.now pair payload.now w)) }
{
    joined(&front_half(history, pair, w), &own_half(payload, w))
}
