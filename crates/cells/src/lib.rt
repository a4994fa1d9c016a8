// The calls `bits_to_cells` and `cells_to_bits`, for either profile: 01, "Cells", and 02, E1. Over `mapping_core` and `cells_core`, by
// the definitions of `cells_spec`.
#![tactic(auto)]

ghost use Rattle.std.specs.Prelude.{◌≡◌};
ghost use Rattle.calls.specs.Calls.{after};
ghost use Rattle.cells_spec.specs.Calls.{map_call, demap_call};
ghost use Rattle.profiles_spec.specs.Profiles.{modulation};

use calls::{Answer, Refusal};
use cells_core::legal::first_illegal_in_buffer;
use cells_core::sizes::cell_bytes;
use profile::Profile;

// A buffer of bits: 172,032 of them.
const BITS: usize = 21504;

// The cells of a buffer of bits.
pub fn bits_to_cells(profile: Profile, bits: &[u8], cells: &mut [u8]) -> Answer
    ensures { after result cells.new ≡ map_call (modulation profile) bits.now cells.old }
{
    if bits.len() != BITS {
        return Err(Refusal::Misfit);
    }
    if cells.len() != cell_bytes(profile) {
        return Err(Refusal::Misfit);
    }
    mapping_core::map(profile, bits, cells);
    Ok(0)
}

// The bits of a buffer of cells, all of which must be legal.
pub fn cells_to_bits(profile: Profile, cells: &[u8], bits: &mut [u8]) -> Answer
    ensures { after result bits.new ≡ demap_call (modulation profile) cells.now bits.old }
{
    if cells.len() != cell_bytes(profile) {
        return Err(Refusal::Misfit);
    }
    if bits.len() != BITS {
        return Err(Refusal::Misfit);
    }
    if let Some(at) = first_illegal_in_buffer(profile, cells) {
        return Err(Refusal::OffGrid(at));
    }
    mapping_core::demap(profile, cells, bits);
    Ok(0)
}
