// What the repairs of a pair go by.
ghost use Rattle.std.specs.Prelude.{◌≡◌, ◌<◌};
ghost use Rattle.gathering_spec.specs.Collecting.{syndromes_in};
ghost use Rattle.locating_core.specs.Telling.{Told, Inside};

use locating_core::locating;
use word_spec::{Repair, Syndromes};

// S1 and S3 word by word (`Checks::by_words`), the parities, and whether flips may fall in the front half.
#[derive(Clone, Copy)]
pub struct Guide {
    pub numbers: [u64; 8],
    pub odd: u32,
    pub front: bool,
}

impl Guide {
    // The syndromes of word w.
    fn syndromes(&self, w: usize) -> Syndromes
        requires { w < 32 }
        ensures { result ≡ syndromes_in self.now.numbers self.now.odd w }
    {
        let bytes = self.numbers[w % 8].to_be_bytes();
        Syndromes {
            s1: bytes[w / 8],
            s3: bytes[w / 8 + 4],
            parity: ((self.odd >> (31 - w)) % 2) as u8,
        }
    }

    // The repair of word w.
    pub fn repair(&self, w: usize) -> Repair
        requires { w < 32 }
        ensures { Told self.now.front (syndromes_in self.now.numbers self.now.odd w) result × Inside result }
    {
        locating::repair_told(self.syndromes(w), self.front)
    }
}
