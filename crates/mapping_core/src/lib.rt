// Workers: bits to cells and back, for 16-QAM and for either profile. Over `levels_core` and `mapping_qpsk_core`, by the definitions of
// `cells_spec`; the calls are in `cells`.
#![tactic(auto)]

pub mod qam16;

ghost use Rattle.std.specs.Prelude.{◌≡◌, ◌*◌, length};
ghost use Rattle.cells_spec.specs.Modulation.{cells_per_buffer};
ghost use Rattle.cells_spec.specs.Cells.{payload_rule, Legal, to_cells, to_bits};
ghost use Rattle.profiles_spec.specs.Profiles.{modulation};

use profile::Profile;

// The cells of a buffer of bits.
pub fn map(profile: Profile, bits: &[u8], cells: &mut [u8])
    requires { (length bits.now ≡ 21504) × (length cells.old ≡ cells_per_buffer (modulation profile) * 2) }
    ensures { cells.new ≡ to_cells (modulation profile) bits.now }
{
    match profile {
        Profile::Qam16 => qam16::map(bits, cells),
        Profile::Qpsk => mapping_qpsk_core::map(bits, cells),
    }
}

// The bits of a buffer of legal cells.
pub fn demap(profile: Profile, cells: &[u8], bits: &mut [u8])
    requires { (length bits.old ≡ 21504) × (length cells.now ≡ cells_per_buffer (modulation profile) * 2) × Legal (payload_rule (modulation profile)) cells.now }
    ensures { bits.new ≡ to_bits (modulation profile) cells.now }
{
    match profile {
        Profile::Qam16 => qam16::demap(cells, bits),
        Profile::Qpsk => mapping_qpsk_core::demap(cells, bits),
    }
}
