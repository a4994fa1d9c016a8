// The syndromes of a word, from the table of powers.
ghost use Rattle.std.specs.Prelude.{◌≡◌, ◌<◌};
ghost use Rattle.word_spec.specs.Syndromes.{locator, syndromes_of};
ghost use Rattle.word_spec.specs.Checks.{tail};

use word_spec::Syndromes;

// The element of GF(256) that stands for a place.
#[tactic(auto, using(word_spec::proofs::SyndromeLaws::locator_entry, word_spec::proofs::SyndromeLaws::locator_end))]
fn locator(k: usize) -> u8
    requires { k < 256 }
    ensures { result ≡ locator k }
{
    if k < 255 { gf256::power(254 - k) } else { 0 }
}

// The syndromes of a word that has check bits v alone, which are those of every word with these check bits.
pub fn tail_syndromes(v: u32) -> Syndromes
    ensures { result ≡ syndromes_of (tail v) }
{
    let mut s = Syndromes {
        s1: 0,
        s3: 0,
        parity: 0,
    };
    for k in 239..256 {
        if (v >> (255 - k)) % 2 == 1 {
            let x = locator(k);
            s.s1 ^= x;
            s.s3 ^= gf256::cube(x);
            s.parity ^= 1;
        }
    }
    s
}
