// The columns of a bit row exchanged: column c of bit row r changes places with column c^r of its block, two bytes.
ghost use Rattle.std.specs.Prelude.{◌≡◌, ◌<◌, length};
ghost use Rattle.bits.specs.Bits.{bit, bit_of, from_bits, byte_of};
ghost use Rattle.bits.specs.Xor.{◌⊕◌};
ghost use Rattle.pair_words_core.specs.BackHalves.{coded_source};

use crate::bytes::byte_from;

// A byte whose bit i is bit i^l of x.
fn exchanged(x: u8, l: usize) -> u8
    requires { l < 8 }
    ensures { result ≡ from_bits 8 (λ i. bit_of 8 x (i ⊕ l)) }
{
    byte_from(|i| (x >> (7 - (i ^ l))) % 2)
}

// Byte j of a pair's 32 bit rows of 16 bytes, with the columns exchanged: bit row r is j div 16 mod 16.
pub fn coded_byte(rows: &[u8], j: usize) -> u8
    requires { (length rows.now ≡ 512) × (j < 512) }
    ensures { result ≡ byte_of (λ i. bit rows.now (coded_source i)) j }
{
    let x = rows[j / 2 * 2 + (j + j / 128) % 2];
    exchanged(x, j / 16 % 8)
}
