// The calls `frame` and `unframe`, by sub_frame_lem and for either profile: 01, "Super-frame", and 02, E1. Over `frame_core` and
// `frame_legal_core`, by the definitions of `frame_spec`.
#![tactic(auto)]

ghost use Rattle.std.specs.Prelude.{◌≡◌};
ghost use Rattle.calls.specs.Calls.{after, verdict};
ghost use Rattle.profiles_spec.specs.Profiles.{modulation};
ghost use Rattle.frame_spec.specs.Calls.{sub_frame_tests, frame_call, unframe_call};

use calls::{Answer, Refusal};
use cells_core::legal::{first_illegal, first_illegal_payload};
use frame_core::{comparing, layout, placing};
use profile::Profile;

// The bytes of the overhead list: 6,144 cells.
const OVERHEAD: usize = 12288;

// The bytes of a sub-frame: 3,712 cells.
const FRAME: usize = 7424;

// The last sub-frame of a super-frame.
const LAST: u32 = 47;

// What both calls test first, in the order of the table.
fn judge(number: u32, overhead: &[u8], frame: &[u8], payload: &[u8]) -> Answer
    ensures { result ≡ verdict (sub_frame_tests number overhead.now frame.now payload.now) }
{
    if overhead.len() != OVERHEAD {
        return Err(Refusal::Misfit);
    }
    if frame.len() != FRAME {
        return Err(Refusal::Misfit);
    }
    // The payload of a number above 47 is not measured.
    if LAST < number {
        return Err(Refusal::NoSuchFrame);
    }
    if payload.len() != layout::payload_cells(number) * 2 {
        return Err(Refusal::Misfit);
    }
    let own = layout::own_overhead(number, overhead);
    if let Some(at) = first_illegal(own) {
        return Err(Refusal::OffGrid(layout::overhead_start(number) * 2 + at));
    }
    Ok(0)
}

// A sub-frame, of its payload and its part of the overhead list.
pub fn frame(
    profile: Profile,
    number: u32,
    payload: &[u8],
    overhead: &[u8],
    frame: &mut [u8],
) -> Answer
    ensures { after result frame.new ≡ frame_call (modulation profile) number payload.now overhead.now frame.old }
{
    judge(number, overhead, frame, payload)?;
    if let Some(at) = first_illegal_payload(profile, payload) {
        return Err(Refusal::OffGrid(at));
    }
    placing::place(
        number,
        payload,
        layout::own_overhead(number, overhead),
        frame,
    );
    Ok(0)
}

// The payload of a sub-frame, and the number of its overhead cells that differ from the overhead list.
pub fn unframe(
    profile: Profile,
    number: u32,
    frame: &[u8],
    overhead: &[u8],
    payload: &mut [u8],
) -> Answer
    ensures { after result payload.new ≡ unframe_call (modulation profile) number frame.now overhead.now payload.old }
{
    judge(number, overhead, frame, payload)?;
    if let Some(at) = frame_legal_core::first_illegal(profile, number, frame) {
        return Err(Refusal::OffGrid(at));
    }
    placing::extract(number, frame, payload);
    let own = layout::own_overhead(number, overhead);
    Ok(comparing::differing(number, frame, own))
}
