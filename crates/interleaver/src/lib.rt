// The calls `interleave` and `deinterleave`: 21 pairs of each encoder to the bits of a buffer, and back (01, "Interleaver"). Over
// `interleaver_core`, by the definitions of `interleaver_spec`.
#![tactic(auto)]

ghost use Rattle.std.specs.Prelude.{◌≡◌};
ghost use Rattle.calls.specs.Calls.{after};
ghost use Rattle.interleaver_spec.specs.Calls.{interleave_call, after_deinterleave, deinterleave_call};

use calls::{Answer, Refusal};
use interleaver_core::joining::{reordered_rows, write_bits};
use interleaver_core::taking_apart::write_pairs;

// Interleaves 21 pairs of each encoder, 10,752 bytes each, to 21,504 bytes.
pub fn interleave(pairs0: &[u8], pairs1: &[u8], bits: &mut [u8]) -> Answer
    ensures { after result bits.new ≡ interleave_call pairs0.now pairs1.now bits.old }
{
    if pairs0.len() != 10752 {
        return Err(Refusal::Misfit);
    }
    if pairs1.len() != 10752 {
        return Err(Refusal::Misfit);
    }
    if bits.len() != 21504 {
        return Err(Refusal::Misfit);
    }
    let rows = reordered_rows(pairs0, pairs1);
    write_bits(&rows, bits);
    Ok(0)
}

// Takes 21,504 bytes apart to 21 pairs of each encoder.
pub fn deinterleave(bits: &[u8], pairs0: &mut [u8], pairs1: &mut [u8]) -> Answer
    ensures { after_deinterleave result pairs0.new pairs1.new ≡ deinterleave_call bits.now pairs0.old pairs1.old }
{
    if bits.len() != 21504 {
        return Err(Refusal::Misfit);
    }
    if pairs0.len() != 10752 {
        return Err(Refusal::Misfit);
    }
    if pairs1.len() != 10752 {
        return Err(Refusal::Misfit);
    }
    write_pairs(bits, 0, pairs0);
    write_pairs(bits, 1, pairs1);
    Ok(0)
}
