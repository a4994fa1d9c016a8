// Workers: a history and its front, the encoder number and the next pair number. Over `bits`, by the definitions of `pair_spec`; the calls
// are in `encoder` and `receiver`.
#![tactic(auto)]

ghost use Rattle.std.specs.Prelude.{◌≡◌, [], ◌∷◌, ◌≤◌, length};
ghost use Rattle.bits.specs.Numbers32.{bytes32};
ghost use Rattle.calls.specs.Calls.{stray_history};
ghost use Rattle.pair_spec.specs.Front.{encoder_of, next_pair, fresh_history};

use bits::numbers::{number, put_numbers};

// The pair number at which the count is spent.
pub const SPENT: u32 = u32::MAX;

// A history: the encoder's number, the next pair number, and ten pairs.
type History = [u8; 5128];

// Whether a history is stray: its front shows another encoder or pair number than the call names, or the encoder is above 1.
pub fn stray(history: &[u8], encoder: u32, pair: u32) -> bool
    requires { 8 ≤ length history.now }
    ensures { result ≡ (stray_history (encoder_of history.now) (next_pair history.now) encoder pair).refuses }
{
    number(history, 0) != encoder as usize || number(history, 1) != pair as usize || 1 < encoder
}

// Writes a front.
pub fn put(encoder: u32, pair: u32, front: &mut [u8])
    requires { length front.old ≡ 8 }
    ensures { front.new ≡ bytes32 (encoder ∷ pair ∷ []) }
{
    put_numbers(&[encoder, pair], front);
}

// A fresh history of an encoder.
pub fn fresh(encoder: u32) -> History
    ensures { result ≡ fresh_history encoder }
{
    let mut history = [0u8; 5128];
    put(encoder, 0, &mut history[0..8]);
    history
}
