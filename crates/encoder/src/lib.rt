// The call `encode_pair`: 01, "Rows and pairs", and 02, E2. Over `encoding_core` and `history_core`, by the definitions of `pair_spec`.
#![tactic(auto)]

ghost use Rattle.std.specs.Prelude.{◌≡◌};
ghost use Rattle.pair_spec.specs.Calls.{after_encode, encode_call};

use calls::{Answer, Refusal};
use encoding_core::encode_into;
use history_core::SPENT;

// Encodes a pair, payload 444 bytes: its coded 512, the history of 5,128 with the pair shifted in and the next pair number in front, and
// that number.
pub fn encode_pair(
    payload: &[u8],
    coded: &mut [u8],
    history: &mut [u8],
    encoder: u32,
    pair: u32,
) -> Answer
    ensures { after_encode result coded.new history.new ≡ encode_call payload.now coded.old history.old encoder pair }
{
    if payload.len() != 444 {
        return Err(Refusal::Misfit);
    }
    if coded.len() != 512 {
        return Err(Refusal::Misfit);
    }
    if history.len() != 5128 {
        return Err(Refusal::Misfit);
    }
    if history_core::stray(history, encoder, pair) {
        return Err(Refusal::StrayHistory);
    }
    if pair == SPENT {
        return Err(Refusal::CountSpent);
    }
    encode_into(payload, coded, &mut history[8..], pair);
    history_core::put(encoder, pair + 1, &mut history[0..8]);
    Ok(pair + 1)
}
