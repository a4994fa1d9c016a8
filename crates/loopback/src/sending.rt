// Sending: the pairs of an encoder, in two halves of 168.
ghost use Rattle.std.specs.Prelude.{◌≡◌, ◌+◌, ◌-◌, ◌*◌, ◌<◌, length};
ghost use Rattle.bits.specs.Parts.{end_to_end};
ghost use Rattle.profiles_spec.specs.Profiles.{modulation};
ghost use Rattle.pair_spec.specs.Front.{held_pairs, history_of, BeforePair};
ghost use Rattle.pair_spec.specs.Stream.{pair_encoder, coded_of, history_over};
ghost use Rattle.loopback_core.specs.Noise.{superframes_of};
ghost use Rattle.loopback_core.specs.Random.{payload_in};
ghost use Rattle.loopback_core.specs.Steps.{each_step};
ghost use Rattle.loopback.specs.Sent.{sent_in, sent_part, half_sent};

use crate::printing::print_encoder;
use bits::parts::fill_parts;
use loopback_core::counts::{Counts, add};
use loopback_core::random;
use loopback_refused_core::refuse_encodings;
use profile::Profile;

// One of the two encoders, by the number that the calls take.
#[derive(Clone, Copy)]
pub struct Encoder {
    pub number: u32,
    ghost one_of_two: { number < 2 },
}

impl Encoder {
    // The other encoder.
    pub fn other(self) -> Encoder
        ensures { result.number ≡ 1 - self.number }
    {
        Encoder {
            number: 1 - self.number,
        }
    }
}

// The 336 coded pairs of an encoder.
pub type Coded = [u8; 172032];

// The payload of an encoder in a half.
type Payload = [u8; 74592];

// Draws that of half q.
fn draw(encoder: Encoder, q: u32, payload: &mut Payload)
    requires { q < 2 }
    ensures { payload.new ≡ payload_in encoder.number q }
{
    fill_parts(payload, 444, |k, part| {
        random::fill(part, (q * 168 + k as u32) * 2 + encoder.number, 1)
    });
}

// Its coded pairs.
fn encode_next(encoder: Encoder, q: u32, history: &mut [u8], coded: &mut [u8])
    requires { (q < 2) × BeforePair encoder.number (168 * q) history.old × (length coded.old ≡ 86016) }
    ensures { (coded.new ≡ coded_of 168 (held_pairs history.old) (168 * q) (payload_in encoder.number q)) × (history.new ≡ history_of encoder.number (168 * q + 168) (history_over pair_encoder 168 (held_pairs history.old) (168 * q) (payload_in encoder.number q))) }
{
    let mut payload = [0; 74592];
    draw(encoder, q, &mut payload);
    pair_stream::encode(168, &payload, encoder.number, 168 * q, history, coded);
}

// The coded pairs of both halves, each after refused calls.
fn encode_both(encoder: Encoder, coded: &mut Coded, counts: &mut Counts)
    ensures { (coded.new ≡ end_to_end 2 86016 (sent_in encoder.number)) × (counts.new ≡ each_step 2 (λ q. half_sent) counts.old) }
{
    let mut history = history_core::fresh(encoder.number);
    // By number, and not by `fill_parts`: the history changes from half to half.
    for q in 0..2 {
        let at = q * 86016;
        refuse_encodings(&mut history, counts);
        encode_next(encoder, q as u32, &mut history, &mut coded[at..at + 86016]);
    }
}

// The same without the counts, where the pairs are needed again;
pub fn encode_again(encoder: Encoder, coded: &mut Coded)
    ensures { coded.new ≡ end_to_end 2 86016 (sent_in encoder.number) }
{
    encode_both(encoder, coded, &mut [0; 41]);
}

// those of super-frame q alone, not compiled into its caller, which would then hold its array all along;
#[inline(never)]
pub fn encode_part(profile: Profile, encoder: Encoder, q: usize, pairs: &mut [u8])
    requires { (q < superframes_of (modulation profile)) × (length pairs.old ≡ (modulation profile).bits * 10752) }
    ensures { pairs.new ≡ sent_part profile encoder.number q }
{
    let mut coded = [0; 172032];
    encode_again(encoder, &mut coded);
    let n = pairs.len();
    let a = q * n;
    pairs.copy_from_slice(&coded[a..a + n]);
}

// and all, with a print of what was done.
pub fn encode<R: Print + Eprint>(rt: &R, encoder: Encoder, coded: &mut Coded)
    ensures { coded.new ≡ end_to_end 2 86016 (sent_in encoder.number) }
{
    let mut counts = [0; 41];
    encode_both(encoder, coded, &mut counts);
    // The step refuses none of its calls, as its contract says.
    add(&mut counts, 0, 336);
    add(&mut counts, 1, 336);
    print_encoder(rt, &counts);
}
