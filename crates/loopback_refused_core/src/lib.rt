// Workers of `loopback`: refused calls among the others. Some are lent an encoder's or a receiver's own history, and leave it as it was.
// Over `encoder`, `receiver` and `frame`; `loopback_core` counts them.
#![tactic(auto)]

ghost use Rattle.std.specs.Prelude.{◌≡◌, Err};
ghost use Rattle.calls.specs.declared.Refusal.TheVariants.{Misfit, CountSpent, NoSuchFrame, OffGrid};
ghost use Rattle.pair_spec.specs.Front.{BeforePair};
ghost use Rattle.loopback_core.specs.Steps.{each_step};
ghost use Rattle.loopback_core.specs.Tally.{answered, refused_two};

use calls::Answer;
use history_core::SPENT;
use loopback_core::counts::{Counts, answered};
use profile::Profile;

// A call of encoding with a byte too few. `receive_short` is its like, and `receive_spent` that of `encode_spent`: each is one call, of another
// function, with other buffers and another number of them, so that one form for both would hold no more than the call.
fn encode_short(history: &mut [u8]) -> Answer
    ensures { (result ≡ Err Misfit) × (history.new ≡ history.old) }
{
    encoder::encode_pair(&[0; 443], &mut [0; 512], history, 0, 0)
}

// A history: the encoder's number, the next pair number, and ten pairs.
type History = [u8; 5128];

// One that shows the pair number that no call takes.
fn spent() -> History
    ensures { BeforePair 0 4294967295 result }
{
    let mut history = [0; 5128];
    history_core::put(0, SPENT, &mut history[0..8]);
    history
}

// A call with that number and such a history.
fn encode_spent() -> Answer
    ensures { result ≡ Err CountSpent }
{
    encoder::encode_pair(&[0; 444], &mut [0; 512], &mut spent(), 0, SPENT)
}

// Both, for each of 168 pairs.
pub fn refuse_encodings(history: &mut [u8], counts: &mut Counts)
    ensures { (history.new ≡ history.old) × (counts.new ≡ each_step 168 (λ k. refused_two) counts.old) }
{
    for _ in 0..168usize {
        answered(counts, encode_short(history));
        answered(counts, encode_spent());
    }
}

// A call of receiving with a byte too few.
fn receive_short(history: &mut [u8]) -> Answer
    ensures { (result ≡ Err Misfit) × (history.new ≡ history.old) }
{
    receiver::receive_pair(&[0; 511], &mut [0; 444], &mut [0; 32], history, 0, 0)
}

// One with the pair number that no call takes, and a history that shows it.
fn receive_spent() -> Answer
    ensures { result ≡ Err CountSpent }
{
    receiver::receive_pair(
        &[0; 512],
        &mut [0; 444],
        &mut [0; 32],
        &mut spent(),
        0,
        SPENT,
    )
}

// Both.
pub fn refuse_receiving(history: &mut [u8], counts: &mut Counts)
    ensures { (history.new ≡ history.old) × (counts.new ≡ refused_two counts.old) }
{
    answered(counts, receive_short(history));
    answered(counts, receive_spent());
}

// A call of framing for a sub-frame that there is not.
fn frame_beyond(profile: Profile) -> Answer
    ensures { result ≡ Err NoSuchFrame }
{
    let list = [0; 12288];
    frame::frame(profile, 48, &list, &list, &mut [0; 7424])
}

// One with an illegal overhead list.
fn frame_off_grid(profile: Profile) -> Answer
    ensures { result ≡ Err (OffGrid 0) }
{
    let list = [16; 12288];
    frame::frame(profile, 0, &list[..6980], &list, &mut [0; 7424])
}

// Both. Not compiled into its caller, which would then hold a frame beside the line's arrays.
#[inline(never)]
pub fn refuse_framing(profile: Profile, counts: &mut Counts)
    ensures { counts.new ≡ answered (Err (OffGrid 0)) (answered (Err NoSuchFrame) counts.old) }
{
    answered(counts, frame_beyond(profile));
    answered(counts, frame_off_grid(profile));
}
