// Workers: the check bits of the words of a pair, from what was gathered of them, as blocks 6 and 7 of the words. Over `check_sums_core`,
// `permutation_core` and `riffle_core`; `encoding_core` encodes pairs with them.
#![tactic(auto)]

ghost use Rattle.std.specs.Prelude.{◌≡◌, ◌<◌, get_or};
ghost use Rattle.bits.specs.Lists.{tabulate};
ghost use Rattle.bits.specs.Xor.{xor_sum};
ghost use Rattle.networks_spec.specs.Networks.{network, check_columns};
ghost use Rattle.permutation_core.specs.Stages.{two_transposed};
ghost use Rattle.riffle_core.specs.Riffles.{by_words};
ghost use Rattle.completing_core.specs.Completing.{half_of, check_numbers, own_number, last_number, check_row};

use check_sums_core::check_bits;
use permutation_core::transpose_two;
use riffle_core::by_words;
use std::array;

// The check bits of the 32 words of a pair. The upper half of number r has block 7 of word r, its lower half that of word 16+r; bit w of
// `own` is bit 239 of word w, the last of block 6.
#[derive(Clone, Copy)]
pub struct CheckBits {
    pub last: [u32; 16],
    pub own: u32,
}

// The sum of sixteen numbers.
fn total(b: &[u32; 16]) -> u32
    ensures { result ≡ xor_sum 16 (λ i. get_or b.now i 0) }
{
    b.iter().fold(0, |sum, x| sum ^ *x)
}

// From S1 and S3 of the words and their parities.
pub fn from_sums(sums: &[u32; 16], odd: u32) -> CheckBits
    ensures { (result.last ≡ two_transposed (check_numbers sums.now odd)) × (result.own ≡ get_or (network check_columns sums.now) 7 0) }
{
    let mut b = check_bits(sums);
    let own = b[7];
    b[7] = odd ^ total(&b);
    CheckBits {
        last: transpose_two(b),
        own,
    }
}

// The half of a number that is of row s.
fn half(x: u32, s: usize) -> u16
    requires { s < 2 }
    ensures { result ≡ half_of s x }
{
    ((x >> (16 - 16 * s)) % 65536) as u16
}

// Block 6 of the row's words, of which bit 239 alone is set where it is.
fn own_numbers(own: u16) -> [u16; 16]
    ensures { result ≡ tabulate 16 (own_number own) }
{
    array::from_fn(|r| (own >> (15 - r)) % 2 * 256)
}

// Block 7 of them.
fn last_numbers(last: &[u32; 16], s: usize) -> [u16; 16]
    requires { s < 2 }
    ensures { result ≡ tabulate 16 (last_number last.now s) }
{
    array::from_fn(|r| half(last[r], s))
}

// Both in a row by blocks that has zeros in the others: number 16C+r is of block C of word r.
fn check_row(checks: &CheckBits, s: usize) -> [u16; 128]
    requires { s < 2 }
    ensures { result ≡ check_row checks.now.last checks.now.own s }
{
    let mut x = [0u16; 128];
    x[96..112].copy_from_slice(&own_numbers(half(checks.own, s)));
    x[112..128].copy_from_slice(&last_numbers(&checks.last, s));
    x
}

// The same by words: number 8r+C is of block C of word r.
pub fn row_checks(checks: &CheckBits, s: usize) -> [u16; 128]
    requires { s < 2 }
    ensures { result ≡ by_words (check_row checks.now.last checks.now.own s) }
{
    by_words(check_row(checks, s))
}
