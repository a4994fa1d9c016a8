// Bytes made of bits.
ghost use Rattle.std.specs.Prelude.{◌≡◌, ◌<◌, ℕ};
ghost use Rattle.bits.specs.Bits.{from_bits};
ghost use Rattle.pair_words_core.specs.BitCalls.{GivesBits};

// The byte whose bits `bit` gives, the most significant first. (`fold` would ask `bit` for every number, where it has an answer below 8.)
pub fn byte_from<F: Fn(usize) -> u8>(bit: F) -> u8
    requires { (i : ℕ) → i < 8 → F.pre bit i }
    ensures { (f : ℕ → ℕ) → GivesBits F.Fn bit f → result ≡ from_bits 8 f }
{
    let mut byte = 0;
    for i in 0..8 {
        byte = byte * 2 + bit(i) % 2;
    }
    byte
}
