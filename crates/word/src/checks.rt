// The 17 check bits of a word: what must be added in bits 239 to 255 to make it a code word. A sum over its bits, from a table.
ghost use Rattle.std.specs.Prelude.{◌≡◌, ◌*◌, ◌-◌, ◌<◌, length, get_or};
ghost use Rattle.bits.specs.Bits.{bit};
ghost use Rattle.word_spec.specs.Checks.{checks, check};

use crate::tables::CHECKS;

// What bit k adds: its entry of the table, where it is set.
fn term(w: &[u8], k: usize) -> u32
    requires { (length w.now ≡ 32) × (k < 256) }
    ensures { result ≡ bit w.now k * get_or checks (255 - k) 0 }
{
    if bits::bit(w, k) == 1 {
        CHECKS[255 - k]
    } else {
        0
    }
}

// The check bits of a word of 32 bytes.
pub fn check_of(w: &[u8]) -> u32
    requires { length w.now ≡ 32 }
    ensures { (result ≡ check (bit w.now)) × (result < 131072) }
{
    (0..256).fold(0, |sum, k| sum ^ term(w, k))
}
