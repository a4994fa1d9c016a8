// Super-frames of the line, for either profile: the coded pairs of both encoders made into frames, by the calls of interleaving, cells
// and framing for every buffer and sub-frame; and the way back, from frames to coded pairs. `pair_stream` has the step between payload
// and coded pairs. Over `cells_core`, `superframe_buffers_core` and `superframe_core`; by the definitions of `superframe_spec`.
#![tactic(auto)]

ghost use Rattle.std.specs.Prelude.{◌≡◌, Ok};
ghost use Rattle.profiles_spec.specs.Profiles.{modulation};
ghost use Rattle.interleaver_spec.specs.Calls.{after_deinterleave};
ghost use Rattle.superframe_spec.specs.Superframe.{superframe};
ghost use Rattle.superframe_spec.specs.Apart.{taken_apart, take_apart};
ghost use Rattle.superframe_spec.specs.Lent.{PairsToFrames, LegalFrames, FramesToPairs};

use calls::{Answer, Refusal};
use cells_core::legal::first_illegal;
use profile::Profile;

// The bytes of a super-frame's payload: 172,032 cells of two bytes.
const PAYLOAD: usize = 344064;

// The frames of a super-frame, end to end. Not compiled into its callers, which hold large arrays of their own.
#[inline(never)]
pub fn make(profile: Profile, pairs0: &[u8], pairs1: &[u8], overhead: &[u8], line: &mut [u8])
    requires { PairsToFrames (modulation profile) pairs0.now pairs1.now overhead.now line.old }
    ensures { line.new ≡ superframe (modulation profile) pairs0.now pairs1.now overhead.now }
{
    let mut payload = [0; PAYLOAD];
    superframe_buffers_core::join(profile, pairs0, pairs1, &mut payload);
    superframe_core::frame_all(profile, &payload, overhead, line);
}

// The coded pairs of both encoders from legal frames, and the number of overhead cells that differ from the list.
fn take(profile: Profile, line: &[u8], overhead: &[u8], pairs0: &mut [u8], pairs1: &mut [u8]) -> u32
    requires { LegalFrames (modulation profile) line.now overhead.now × FramesToPairs (modulation profile) line.now overhead.now pairs0.old pairs1.old }
    ensures { after_deinterleave (Ok result) pairs0.new pairs1.new ≡ taken_apart (modulation profile) line.now overhead.now }
{
    let mut payload = [0; PAYLOAD];
    let differing = superframe_core::unframe_all(profile, line, overhead, &mut payload);
    superframe_buffers_core::part(profile, &payload, pairs0, pairs1);
    differing
}

// The same from any frames, all of which must be legal, as the list must be. Not compiled into its callers either.
#[inline(never)]
pub fn take_apart(
    profile: Profile,
    line: &[u8],
    overhead: &[u8],
    pairs0: &mut [u8],
    pairs1: &mut [u8],
) -> Answer
    requires { FramesToPairs (modulation profile) line.now overhead.now pairs0.old pairs1.old }
    ensures { after_deinterleave result pairs0.new pairs1.new ≡ take_apart (modulation profile) line.now overhead.now pairs0.old pairs1.old }
{
    if let Some(list) = first_illegal(overhead) {
        return Err(Refusal::OffGrid(list));
    }
    if let Some(at) = superframe_core::first_illegal(profile, line) {
        return Err(Refusal::OffGrid(at));
    }
    Ok(take(profile, line, overhead, pairs0, pairs1))
}
