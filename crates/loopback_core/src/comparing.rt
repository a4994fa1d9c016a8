// What a receiver made of a word, compared with what was sent.
ghost use Rattle.std.specs.Prelude.{◌≡◌, ◌<◌, ◌≤◌, ◌==◌, not};
ghost use Rattle.bits.specs.Bits.{bit};
ghost use Rattle.bits.specs.Count.{distance};
ghost use Rattle.word_spec.specs.Marks.{lost_in};
ghost use Rattle.loopback_core.specs.Tally.{tallied, word_kind, bit_kind};

use crate::counts::{Counts, add};

// A word, gathered from the pairs by `pair_words_core`.
pub type Word = [u8; 32];

// Whether bit k of two words differs.
fn differs(a: &Word, b: &Word, k: usize) -> bool
    requires { k < 256 }
    ensures { result ≡ not (bit a.now k == bit b.now k) }
{
    bits::bit(a, k) != bits::bit(b, k)
}

// In how many bits two words differ.
fn distance(a: &Word, b: &Word) -> usize
    ensures { result ≡ distance 256 (bit a.now) (bit b.now) }
{
    // A loop: `(0..256).filter(..).count()` was tried, and its proof did not close.
    let mut n = 0;
    for k in 0..256 {
        n += usize::from(differs(a, b, k));
    }
    n
}

// 1 for the mark of a lost word: a number, as `lost_in` is, since the kinds are counted on by it.
pub fn lost(mark: u8) -> usize
    ensures { (result ≡ lost_in mark) × (result < 2) }
{
    marks::lost_in(mark) as usize
}

// The kind of a word.
pub fn word_kind(sent: &Word, got: &Word, mark: u8) -> usize
    ensures { (result ≡ word_kind sent.now got.now mark) × (result < 27) }
{
    7 + distance(sent, got).min(4) * 4 + usize::from(mark % 4)
}

// The kind of bit i of a back half. Word as sent, as received and as kept: `bit_kind`, the definition, takes the three lists apart, and a
// struct of them would be built for each of the two calls of `count_bits` and taken apart again here.
fn bit_kind(from: usize, sent: &Word, got: &Word, kept: &Word, i: usize) -> usize
    requires { (from < 38) × (i < 128) }
    ensures { (result ≡ bit_kind from sent.now got.now kept.now i) × (result < 41) }
{
    let received_wrong = usize::from(differs(sent, got, 128 + i));
    let kept_wrong = usize::from(differs(sent, kept, 128 + i));
    from + received_wrong + kept_wrong * 2
}

// Counts the first n bits of a back half.
pub fn count_bits(n: usize, from: usize, sent: &Word, got: &Word, kept: &Word, counts: &mut Counts)
    requires { (n ≤ 128) × (from < 38) }
    ensures { counts.new ≡ tallied n (bit_kind from sent.now got.now kept.now) counts.old }
{
    // By number: a bit's number is what the turn is about. It is read from three words, at 128 + i, and bit by bit no list has it.
    for i in 0..n {
        add(counts, bit_kind(from, sent, got, kept, i), 1);
    }
}
