// Bits of byte buffers, most significant bit first: functions, definitions and laws. At the bottom, with `calls`; every crate above uses
// it.
#![tactic(auto)]

pub mod lanes;
pub mod numbers;
pub mod parts;

ghost use Rattle.std.specs.Prelude.{◌≡◌, ◌+◌, ◌*◌, ◌%◌, ◌<◌, length};
ghost use Rattle.bits.specs.Bits.{bit, pack, flipped};

// Bit i of a buffer.
#[tactic(auto, unfolding(crate::specs::Bits::bit, crate::specs::Bits::bit_of))]
pub fn bit(s: &[u8], i: usize) -> u8
    requires { i < length s.now * 8 }
    ensures { (result ≡ bit s.now i) × (result < 2) }
{
    (s[i / 8] >> (7 - i % 8)) % 2
}

// Flips bit i of a buffer.
pub fn flip(s: &mut [u8], i: usize)
    requires { i < length s.old * 8 }
    ensures { s.new ≡ pack (length s.old) (flipped i (bit s.old)) }
{
    s[i / 8] ^= 1 << (7 - i % 8);
}

// A byte as an index.
pub fn widen(x: u8) -> usize
    ensures { (result ≡ x) × (result < 256) }
{
    usize::from(x)
}

// Two numbers of 32 bits in one of 64.
pub fn pair_up(a: u32, b: u32) -> u64
    ensures { result ≡ a * 4294967296 + b % 4294967296 }
{
    (u64::from(a) << 32) + u64::from(b)
}
