// What is gathered of the 32 words of a pair: S1, S3 and parities, side by side; which of the words are no code words.
ghost use Rattle.std.specs.Prelude.{◌≡◌};
ghost use Rattle.gathering_spec.specs.Collecting.{ByWords};
ghost use Rattle.gathering_spec.specs.Dirty.{Joining};

use bits::pair_up;
use permutation_core::transpose_eight;
use std::array;

// Number i of the sums has digit i of S1, number 8+i digit i of S3; bit w of each, and of the parities, is that of word w, word 0 the
// most significant.
#[derive(Clone, Copy)]
pub struct Checks {
    pub sums: [u32; 16],
    pub odd: u32,
}

impl Checks {
    // The words that are no code words, a bit each.
    pub fn dirty(&self) -> u32
        ensures { Joining self.now.odd self.now.sums 16 result }
    {
        self.sums.iter().fold(self.odd, |dirty, sum| dirty | *sum)
    }

    // S1 and S3 word by word: those of word w are bytes w div 8 and w div 8 + 4 of number w mod 8.
    pub fn by_words(&self) -> [u64; 8]
        ensures { ByWords self.now.sums result }
    {
        let sums = &self.sums;
        transpose_eight(array::from_fn(|i| pair_up(sums[7 - i], sums[15 - i])))
    }
}
