// Check words in bytes, the workers and the call `repair_word`. Over `word_spec` and `locating_core`, below `mending_core`.
// 01, "Code words": "A word lent by itself is 32 bytes, bit 0 first".
#![tactic(auto)]

pub mod checks;
pub mod syndrome;
pub mod tables;

ghost use Rattle.std.specs.Prelude.{◌≡◌, ◌<◌, length};
ghost use Rattle.bits.specs.Bits.{bit, pack};
ghost use Rattle.word_spec.specs.Repair.{repair, repaired, mark};
ghost use Rattle.word_spec.specs.Checks.{check};
ghost use Rattle.locating_core.specs.Telling.{Inside};
ghost use Rattle.word_spec.specs.Calls.{repair_call};
ghost use Rattle.calls.specs.Calls.{after};

use calls::{Answer, Refusal};
use locating_core::locating;
use word_spec::Repair;

// Flips the places of a repair.
fn apply(w: &mut [u8], r: Repair)
    requires { (length w.old ≡ 32) × Inside r }
    ensures { w.new ≡ pack 32 (repaired r (bit w.old)) }
{
    match r {
        Repair::Sound | Repair::Lost => {}
        Repair::One(i) => bits::flip(w, i),
        Repair::Two(i, j) => {
            bits::flip(w, j);
            bits::flip(w, i);
        }
    }
}

// Repairs a word of 32 bytes that has these check bits, and says what it flipped; `front` says whether flips may fall in the front half.
// A word whose check bits are all zero needs no repair.
fn repair_in_place(w: &mut [u8], v: u32, front: bool) -> Repair
    requires { (length w.old ≡ 32) × ((v ≡ check (bit w.old)) × (v < 131072)) }
    ensures { (result ≡ repair front (bit w.old)) × (w.new ≡ pack 32 (repaired (repair front (bit w.old)) (bit w.old))) }
{
    if v == 0 {
        return Repair::Sound;
    }
    let r = locating::repair_told(syndrome::tail_syndromes(v), front);
    apply(w, r);
    r
}

// The number of a repair: its flips, or 3 for lost. (A `From` would have to stand in `word_spec`, whose two types have no functions.)
#[tactic(auto, using(word_spec::proofs::CallLaws::marking))]
pub fn mark_of(r: Repair) -> u8
    ensures { (result ≡ mark r) × (result < 4) }
{
    match r {
        Repair::Sound => 0,
        Repair::One(_) => 1,
        Repair::Two(_, _) => 2,
        Repair::Lost => 3,
    }
}

// Repairs a lent word in place: the number of flips, 0 to 2; or 3, and the word is lost and unaltered.
#[tactic(auto, using(calls::proofs::CallLaws::cases, word_spec::proofs::CallLaws::repair_done))]
pub fn repair_word(word: &mut [u8], front: bool) -> Answer
    ensures { after result word.new ≡ repair_call word.old front }
{
    if word.len() != 32 {
        return Err(Refusal::Misfit);
    }
    let v = checks::check_of(word);
    let r = repair_in_place(word, v, front);
    Ok(u32::from(mark_of(r)))
}
