// Workers: the first illegal byte of a frame, each byte by the rule of its cell, so that only payload cells are narrowed by the profile.
// Over `frame_spec`, `cells_core` and `frame_core`; the calls are in `frame`.
#![tactic(auto)]

ghost use Rattle.std.specs.Prelude.{◌≡◌, ◌*◌, length};
ghost use Rattle.cells_spec.specs.Cells.{payload_rule, first_illegal, found};
ghost use Rattle.profiles_spec.specs.Profiles.{qpsk, modulation};
ghost use Rattle.frame_spec.specs.Frames.{is_overhead, payload_cells, cell_rule, frame_rule, unframed};

use cells_core::legal::{first_outer, is_outer};
use frame_core::layout::{edge, payload_cells};
use frame_core::placing::extract;
use profile::Profile;

// Whether cell m of a sub-frame is overhead.
fn is_overhead(number: u32, m: usize) -> bool
    ensures { result ≡ is_overhead number m }
{
    m % 32 == 0 || m < edge(number)
}

// Whether a byte is illegal in cell m of a sub-frame of QPSK.
fn is_illegal(number: u32, m: usize, v: u8) -> bool
    ensures { result ≡ cell_rule qpsk number m v }
{
    if is_overhead(number, m) {
        16 <= v
    } else {
        is_outer(v)
    }
}

// The first illegal byte, looked for cell by cell.
fn search(number: u32, frame: &[u8]) -> Option<usize>
    ensures { result ≡ found (length frame.now) (first_illegal (frame_rule qpsk number) frame.now) }
{
    for (j, v) in frame.iter().enumerate() {
        if is_illegal(number, j / 2, *v) {
            return Some(j);
        }
    }
    None
}

// The first illegal byte of the payload, which is taken out.
fn first_in_payload(number: u32, frame: &[u8]) -> Option<usize>
    requires { length frame.now ≡ 7424 }
    ensures { result ≡ found (payload_cells number * 2) (first_illegal (payload_rule qpsk) (unframed number frame.now)) }
{
    let mut buffer = [0u8; 7424];
    let payload = &mut buffer[..payload_cells(number) * 2];
    extract(number, frame, payload);
    first_outer(payload)
}

// The first illegal byte of a frame of QPSK: searched only where one is illegal.
fn first_illegal_qpsk(number: u32, frame: &[u8]) -> Option<usize>
    requires { length frame.now ≡ 7424 }
    ensures { result ≡ found (length frame.now) (first_illegal (frame_rule qpsk number) frame.now) }
{
    if cells_core::legal::first_illegal(frame).is_none()
        && first_in_payload(number, frame).is_none()
    {
        return None;
    }
    search(number, frame)
}

// The index of the first illegal byte.
pub fn first_illegal(profile: Profile, number: u32, frame: &[u8]) -> Option<usize>
    requires { length frame.now ≡ 7424 }
    ensures { result ≡ found (length frame.now) (first_illegal (frame_rule (modulation profile) number) frame.now) }
{
    match profile {
        Profile::Qam16 => cells_core::legal::first_illegal(frame),
        Profile::Qpsk => first_illegal_qpsk(number, frame),
    }
}
