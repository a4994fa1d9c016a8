// The call `receive_pair`: 01, "Rows and pairs", and 02, E2. Over `receiving_core` and `history_core`, by the definitions of `pair_spec`.
#![tactic(auto)]

ghost use Rattle.std.specs.Prelude.{◌≡◌};
ghost use Rattle.pair_spec.specs.Calls.{after_receive, receive_call};

use calls::{Answer, Refusal};
use history_core::SPENT;
use receiving_core::receiving::receive_into;

// Receives a pair, coded 512 bytes: payload 444 and 32 marks, the history of 5,128 with the pair shifted in and the next pair number in
// front, and that number.
pub fn receive_pair(
    coded: &[u8],
    payload: &mut [u8],
    marks: &mut [u8],
    history: &mut [u8],
    encoder: u32,
    pair: u32,
) -> Answer
    ensures { after_receive result payload.new marks.new history.new ≡ receive_call coded.now payload.old marks.old history.old encoder pair }
{
    if coded.len() != 512 {
        return Err(Refusal::Misfit);
    }
    if payload.len() != 444 {
        return Err(Refusal::Misfit);
    }
    if marks.len() != 32 {
        return Err(Refusal::Misfit);
    }
    if history.len() != 5128 {
        return Err(Refusal::Misfit);
    }
    if history_core::stray(history, encoder, pair) {
        return Err(Refusal::StrayHistory);
    }
    if pair == SPENT {
        return Err(Refusal::CountSpent);
    }
    receive_into(coded, payload, marks, &mut history[8..], pair);
    history_core::put(encoder, pair + 1, &mut history[0..8]);
    Ok(pair + 1)
}
