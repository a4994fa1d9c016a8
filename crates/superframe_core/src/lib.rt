// Workers: the frames of a super-frame, from its payload and back, by the calls for each sub-frame, and their first illegal byte. Over
// `superframe_spec`, `frame` and `frame_legal_core`; `superframe_buffers_core` has the payload, and the steps are in `superframe`.
#![tactic(auto)]

ghost use Rattle.std.specs.Prelude.{◌≡◌, ◌≤◌, ◌<◌, ◌*◌, length};
ghost use Rattle.bits.specs.Parts.{part_of};
ghost use Rattle.cells_spec.specs.Cells.{first_illegal, found};
ghost use Rattle.profiles_spec.specs.Profiles.{modulation};
ghost use Rattle.frame_spec.specs.Frames.{payload_cells, payload_start, unframed};
ghost use Rattle.superframe_spec.specs.Superframe.{frames_end_to_end, sub_frame};
ghost use Rattle.superframe_spec.specs.Apart.{taken_cells, differing_in, differing_all, line_rule};
ghost use Rattle.superframe_spec.specs.Lent.{CellsToFrames, FramesToCells};

use bits::parts::fill_parts;
use profile::Profile;

// The first payload byte of a sub-frame: sub-frame 0 has 6,980, and each other 7,172, which is 192 more.
fn start(s: usize) -> usize
    requires { s ≤ 48 }
    ensures { result ≡ payload_start s * 2 }
{
    if s == 0 { 0 } else { s * 7172 - 192 }
}

// Sub-frame s.
fn sub_frame(profile: Profile, s: usize, cells: &[u8], overhead: &[u8], frame: &mut [u8])
    requires { (s < 48) × CellsToFrames (modulation profile) 7424 cells.now overhead.now frame.old }
    ensures { frame.new ≡ sub_frame cells.now overhead.now s }
{
    let own = &cells[start(s)..start(s + 1)];
    let _ = frame::frame(profile, s as u32, own, overhead, frame);
}

// All of them, end to end.
pub fn frame_all(profile: Profile, cells: &[u8], overhead: &[u8], line: &mut [u8])
    requires { CellsToFrames (modulation profile) 356352 cells.now overhead.now line.old }
    ensures { line.new ≡ frames_end_to_end cells.now overhead.now }
{
    fill_parts(
        line,
        7424,
        |s, frame| sub_frame(profile, s, cells, overhead, frame),
    );
}

// The payload of sub-frame s, and the number of its overhead cells that differ.
fn unframe_next(profile: Profile, s: usize, line: &[u8], overhead: &[u8], cells: &mut [u8]) -> u32
    requires { (s < 48) × FramesToCells (modulation profile) (payload_cells s * 2) line.now overhead.now cells.old }
    ensures { (cells.new ≡ unframed s (part_of 7424 line.now s)) × (result ≡ differing_in line.now overhead.now s) }
{
    let at = s * 7424;
    let own = &line[at..at + 7424];
    frame::unframe(profile, s as u32, own, overhead, cells).unwrap_or(0)
}

// That of all of them, end to end, and the number of their overhead cells that differ.
pub fn unframe_all(profile: Profile, line: &[u8], overhead: &[u8], cells: &mut [u8]) -> u32
    requires { FramesToCells (modulation profile) 344064 line.now overhead.now cells.old }
    ensures { (cells.new ≡ taken_cells line.now) × (result ≡ differing_all line.now overhead.now) }
{
    let mut n = 0;
    // By number, and not by `fill_parts`: the parts are of two sizes, and the count changes from part to part.
    for s in 0..48 {
        let own = &mut cells[start(s)..start(s + 1)];
        n += unframe_next(profile, s, line, overhead, own);
    }
    n
}

// The index of the first illegal byte of all frames. (By the number of the sub-frame, by which each has its own rule.)
pub fn first_illegal(profile: Profile, line: &[u8]) -> Option<usize>
    requires { length line.now ≡ 356352 }
    ensures { result ≡ found (length line.now) (first_illegal (line_rule (modulation profile)) line.now) }
{
    for s in 0..48 {
        let start = s * 7424;
        let own = &line[start..start + 7424];
        if let Some(at) = frame_legal_core::first_illegal(profile, s as u32, own) {
            return Some(start + at);
        }
    }
    None
}
