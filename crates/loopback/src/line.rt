// The line: coded pairs to the frames of a line file, which are damaged, and back.
ghost use Rattle.std.specs.Prelude.{◌≡◌, ◌*◌, ◌<◌, length, Err};
ghost use Rattle.calls.specs.declared.Refusal.TheVariants.{NoSuchFrame, OffGrid};
ghost use Rattle.profiles_spec.specs.Profiles.{modulation};
ghost use Rattle.cells_spec.specs.Cells.{overhead_rule, Legal};
ghost use Rattle.superframe_spec.specs.Apart.{differing_all};
ghost use Rattle.loopback_core.specs.Noise.{superframes_of};
ghost use Rattle.loopback_core.specs.Random.{drawn_list};
ghost use Rattle.loopback_core.specs.Tally.{answered};
ghost use Rattle.loopback.specs.Line.{damaged_line, pairs_off, Taken, line_in, all_off, all_counted};
ghost use Rattle.loopback.specs.Sent.{sent_part};

use crate::sending::{Coded, Encoder, encode_part};
use cells_core::sizes::buffers;
use loopback_core::counts::{Counts, add};
use loopback_core::file::{Frames, OverheadList};
use loopback_core::noise::{damage, superframes};
use loopback_core::{file, random};
use loopback_refused_core::refuse_framing;
use profile::Profile;

// Draws an overhead list.
fn draw_list(list: &mut OverheadList)
    ensures { (list.new ≡ drawn_list) × Legal overhead_rule list.new }
{
    random::fill(list, 4294967295, 16);
}

// The frames of super-frame q, damaged.
fn send(
    profile: Profile,
    q: usize,
    list: &OverheadList,
    coded0: &[u8],
    coded1: &[u8],
    frames: &mut Frames,
)
    requires { (q < superframes_of (modulation profile)) × Legal overhead_rule list.now × (length coded0.now ≡ (modulation profile).bits * 10752) × (length coded1.now ≡ (modulation profile).bits * 10752) }
    ensures { frames.new ≡ damaged_line profile list.now q coded0.now coded1.now }
{
    superframe::make(profile, coded0, coded1, list, frames);
    damage(profile, q, frames);
}

// Sends the pairs of both encoders in super-frame q over the line, and puts in their place what is taken off it: the number of overhead
// cells that differ. None of the steps is compiled into this function: their arrays would then need stack at the same time.
fn transmit(
    profile: Profile,
    q: usize,
    list: &OverheadList,
    coded0: &mut [u8],
    coded1: &mut [u8],
) -> u32
    requires { (q < superframes_of (modulation profile)) × Legal overhead_rule list.now × (length coded0.old ≡ (modulation profile).bits * 10752) × (length coded1.old ≡ (modulation profile).bits * 10752) × (coded0.old ≡ sent_part profile 0 q) × (coded1.old ≡ sent_part profile 1 q) }
    ensures { Taken profile (line_in profile list.now q) list.now result coded0.new coded1.new }
{
    let mut frames = [0; 356352];
    send(profile, q, list, coded0, coded1, &mut frames);
    file::pass(list, &mut frames);
    superframe::take_apart(profile, &frames, list, coded0, coded1).unwrap_or(0)
}

// The pairs of an encoder that come off the line in super-frame q, and the number of overhead cells that differ; the other encoder's pairs
// are lent room.
fn carry_both(
    profile: Profile,
    encoder: Encoder,
    q: usize,
    list: &OverheadList,
    own: &mut [u8],
    other: &mut [u8],
) -> u32
    requires { (q < superframes_of (modulation profile)) × Legal overhead_rule list.now × (length own.old ≡ (modulation profile).bits * 10752) × (length other.old ≡ (modulation profile).bits * 10752) }
    ensures { (result ≡ differing_all (line_in profile list.now q) list.now) × (own.new ≡ pairs_off profile (line_in profile list.now q) encoder.number) }
{
    encode_part(profile, encoder, q, own);
    encode_part(profile, encoder.other(), q, other);
    if encoder.number == 0 {
        transmit(profile, q, list, own, other)
    } else {
        transmit(profile, q, list, other, own)
    }
}

// The same with the room: all of it in 16-QAM, half of it in QPSK.
fn carry_next(
    profile: Profile,
    encoder: Encoder,
    q: usize,
    list: &OverheadList,
    pairs: &mut [u8],
) -> u32
    requires { (q < superframes_of (modulation profile)) × Legal overhead_rule list.now × (length pairs.old ≡ (modulation profile).bits * 10752) }
    ensures { (result ≡ differing_all (line_in profile list.now q) list.now) × (pairs.new ≡ pairs_off profile (line_in profile list.now q) encoder.number) }
{
    let mut room = [0; 86016];
    let n = pairs.len();
    carry_both(profile, encoder, q, list, pairs, &mut room[0..n])
}

// Carries the super-frames of a run.
fn carry_all(
    profile: Profile,
    encoder: Encoder,
    list: &OverheadList,
    got: &mut Coded,
    counts: &mut Counts,
)
    requires { Legal overhead_rule list.now }
    ensures { (got.new ≡ all_off profile list.now encoder.number) × (counts.new ≡ all_counted profile list.now counts.old) }
{
    let n = buffers(profile) * 10752;
    // By number, and not by `fill_parts`: the counters change from super-frame to super-frame.
    for q in 0..superframes(profile) {
        let a = q * n;
        let differing = carry_next(profile, encoder, q, list, &mut got[a..a + n]);
        add(counts, 7, differing);
    }
}

// The same with a list that is drawn, after refused calls.
pub fn carry(profile: Profile, encoder: Encoder, got: &mut Coded, counts: &mut Counts)
    ensures { (got.new ≡ all_off profile drawn_list encoder.number) × (counts.new ≡ all_counted profile drawn_list (answered (Err (OffGrid 0)) (answered (Err NoSuchFrame) counts.old))) }
{
    let mut list = [0; 12288];
    draw_list(&mut list);
    refuse_framing(profile, counts);
    carry_all(profile, encoder, &list, got, counts);
}
