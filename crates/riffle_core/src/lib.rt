// Workers: the 128 numbers of a row, eight blocks of sixteen words, brought from the order of words into that of blocks and back. A riffle
// shuffles the two halves of a row into each other, as of a pack of cards. Over `blocks`.
#![tactic(auto)]

ghost use Rattle.std.specs.Prelude.{◌≡◌};
ghost use Rattle.riffle_core.specs.Riffles.{riffled, by_blocks, by_words};

// Number after number, one of each half: so the compiler moves eight at a time, which it does not in a closure that gives number m of the
// shuffled row.
fn riffle(x: [u16; 128]) -> [u16; 128]
    ensures { result ≡ riffled x }
{
    let mut y = [0u16; 128];
    let (first, second) = x.split_at(64);
    for (n, number) in first.iter().enumerate() {
        y[2 * n] = *number;
        y[2 * n + 1] = second[n];
    }
    y
}

// Number 8r+C comes to place 16C+r.
#[tactic(auto, unfolding(crate::specs::Riffles::by_blocks))]
pub fn by_blocks(x: [u16; 128]) -> [u16; 128]
    ensures { result ≡ by_blocks x }
{
    riffle(riffle(riffle(riffle(x))))
}

// Number 16C+r comes to place 8r+C.
#[tactic(auto, unfolding(crate::specs::Riffles::by_words))]
pub fn by_words(x: [u16; 128]) -> [u16; 128]
    ensures { result ≡ by_words x }
{
    riffle(riffle(riffle(x)))
}
