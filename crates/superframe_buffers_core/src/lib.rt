// Workers: the payload of a super-frame, from coded pairs and back, by the calls for each buffer: the cells of its buffers, eight or four,
// each of 21 pairs of either encoder: 10,752 bytes of each, 21,504 bytes of bits. Over `superframe_spec`, `interleaver`, `cells_core` and
// `cells`; `superframe_core` has the frames, and the steps are in `superframe`.
#![tactic(auto)]

ghost use Rattle.std.specs.Prelude.{◌≡◌, ◌*◌, ◌<◌};
ghost use Rattle.cells_spec.specs.Modulation.{cells_per_buffer};
ghost use Rattle.profiles_spec.specs.Profiles.{modulation};
ghost use Rattle.superframe_spec.specs.Superframe.{buffer_cells, payload_of_pairs};
ghost use Rattle.superframe_spec.specs.Apart.{buffer_pairs, taken_pairs};
ghost use Rattle.superframe_spec.specs.Lent.{PairsToCells, CellsToPairs};

use bits::parts::fill_parts;
use cells_core::sizes::{buffers, cell_bytes};
use profile::Profile;

// The cells of buffer b.
fn buffer(profile: Profile, b: usize, pairs0: &[u8], pairs1: &[u8], cells: &mut [u8])
    requires { (b < (modulation profile).bits) × PairsToCells (modulation profile) (cells_per_buffer (modulation profile) * 2) pairs0.now pairs1.now cells.old }
    ensures { cells.new ≡ buffer_cells (modulation profile) pairs0.now pairs1.now b }
{
    let a = b * 10752;
    let mut bits = [0u8; 21504];
    let _ = interleaver::interleave(&pairs0[a..a + 10752], &pairs1[a..a + 10752], &mut bits);
    let _ = cells::bits_to_cells(profile, &bits, cells);
}

// The cells of all.
pub fn join(profile: Profile, pairs0: &[u8], pairs1: &[u8], cells: &mut [u8])
    requires { PairsToCells (modulation profile) 344064 pairs0.now pairs1.now cells.old }
    ensures { cells.new ≡ payload_of_pairs (modulation profile) pairs0.now pairs1.now }
{
    fill_parts(
        cells,
        cell_bytes(profile),
        |b, own| buffer(profile, b, pairs0, pairs1, own),
    );
}

// The pairs of buffer b.
fn part_buffer(profile: Profile, b: usize, cells: &[u8], pairs0: &mut [u8], pairs1: &mut [u8])
    requires { (b < (modulation profile).bits) × CellsToPairs (modulation profile) 10752 cells.now pairs0.old pairs1.old }
    ensures { (pairs0.new ≡ buffer_pairs (modulation profile) cells.now 0 b) × (pairs1.new ≡ buffer_pairs (modulation profile) cells.now 1 b) }
{
    let n = cell_bytes(profile);
    let a = b * n;
    let mut bits = [0u8; 21504];
    let _ = cells::cells_to_bits(profile, &cells[a..a + n], &mut bits);
    let _ = interleaver::deinterleave(&bits, pairs0, pairs1);
}

// The pairs of all.
pub fn part(profile: Profile, cells: &[u8], pairs0: &mut [u8], pairs1: &mut [u8])
    requires { CellsToPairs (modulation profile) ((modulation profile).bits * 10752) cells.now pairs0.old pairs1.old }
    ensures { (pairs0.new ≡ taken_pairs (modulation profile) cells.now 0) × (pairs1.new ≡ taken_pairs (modulation profile) cells.now 1) }
{
    // By number, and not by `fill_parts`: one turn fills parts of two buffers.
    for b in 0..buffers(profile) {
        let at = b * 10752;
        part_buffer(
            profile,
            b,
            cells,
            &mut pairs0[at..at + 10752],
            &mut pairs1[at..at + 10752],
        );
    }
}
