// The repairs of the words of a pair, by syndromes that were gathered before: back halves and coded pair mended, and marks.
ghost use Rattle.std.specs.Prelude.{◌≡◌, ◌*◌, ◌<◌, length};
ghost use Rattle.locating_core.specs.Telling.{Inside};
ghost use Rattle.mending_core.specs.Mending.{flipped_back, flipped_coded, mended_by, Handled, HandledSet, HandledAll};

use crate::checks::Checks;
use crate::guide::Guide;
use crate::words::Words;
use word_spec::Repair;

// Flips bit k of word w in back halves and coded pair, if it is one of the back half: in the halves it stands eight columns further on. A
// branch on where the bit falls would go either way as often.
fn flip(halves: &mut [u16; 256], coded: &mut [u8], w: usize, k: usize)
    requires { (length coded.old ≡ 512) × (w < 32) × (k < 256) }
    ensures { (halves.new ≡ flipped_back w k halves.old) × (coded.new ≡ flipped_coded w k coded.old) }
{
    let back = k / 128;
    let block = k % 128 / 16;
    halves[8 * w + block] ^= (back as u16) << (15 - (k + 8) % 16);
    let i = 128 * w + 16 * block + (k % 16 ^ w % 16);
    coded[i / 8] ^= (back as u8) << (7 - i % 8);
}

// Flips the places of a repair of word w in both.
fn mend(halves: &mut [u16; 256], coded: &mut [u8], w: usize, r: Repair)
    requires { (length coded.old ≡ 512) × (w < 32) × Inside r }
    ensures { (halves.new ≡ mended_by (flipped_back w) r halves.old) × (coded.new ≡ mended_by (flipped_coded w) r coded.old) × (length coded.new ≡ 512) }
{
    match r {
        Repair::Sound | Repair::Lost => {}
        Repair::One(i) => flip(halves, coded, w, i),
        Repair::Two(i, j) => {
            flip(halves, coded, w, j);
            flip(halves, coded, w, i);
        }
    }
}

// Repairs word w, and gives its mark.
fn repair_word(halves: &mut [u16; 256], coded: &mut [u8], w: usize, guide: &Guide) -> u8
    requires { (length coded.old ≡ 512) × (w < 32) }
    ensures { Handled guide.now.numbers guide.now.odd guide.now.front w halves.old coded.old result halves.new coded.new × (length coded.new ≡ 512) }
{
    let r = guide.repair(w);
    mend(halves, coded, w, r);
    word::mark_of(r)
}

// Repairs the words of a set, whose bits are set in a number, and puts their marks.
fn repair_set(halves: &mut [u16; 256], coded: &mut [u8], marks: &mut [u8], set: u32, guide: &Guide)
    requires { (length coded.old ≡ 512) × (length marks.old ≡ 32) }
    ensures { HandledSet guide.now.numbers guide.now.odd guide.now.front set halves.old coded.old marks.old halves.new coded.new marks.new × (length coded.new ≡ 512) × (length marks.new ≡ 32) }
{
    for w in Words(set) {
        marks[w] = repair_word(halves, coded, w, guide);
    }
}

// Repairs the words that are no code words, and puts the marks of all 32: first the words of odd parity, which can have one flip, and then
// those that can have two, so that a branch goes the same way as for the word before.
pub fn repair_words(
    halves: &mut [u16; 256],
    coded: &mut [u8],
    marks: &mut [u8],
    checks: &Checks,
    dirty: u32,
    front: bool,
)
    requires { (length coded.old ≡ 512) × (length marks.old ≡ 32) }
    ensures { HandledAll checks.now.sums checks.now.odd dirty front halves.old coded.old marks.new halves.new coded.new }
{
    let odd = checks.odd;
    let guide = Guide {
        numbers: checks.by_words(),
        odd,
        front,
    };
    marks.fill(0);
    repair_set(halves, coded, marks, odd, &guide);
    repair_set(halves, coded, marks, dirty ^ odd, &guide);
}
