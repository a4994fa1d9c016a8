// Sizes that differ from profile to profile.
ghost use Rattle.std.specs.Prelude.{◌≡◌, ◌*◌, ◌≤◌, ◌<◌};
ghost use Rattle.cells_spec.specs.Modulation.{cells_per_buffer, pairs_in};
ghost use Rattle.profiles_spec.specs.Profiles.{modulation};

use profile::Profile;

// The bits of a buffer, which are the cells of a super-frame too.
const BITS: usize = 172032;

// The buffers of a super-frame: as many as a symbol has bits.
pub fn buffers(profile: Profile) -> usize
    ensures { (result ≡ (modulation profile).bits) × (4 ≤ result) × (result ≤ 8) }
{
    match profile {
        Profile::Qam16 => 8,
        Profile::Qpsk => 4,
    }
}

// The bytes of a buffer's cells: two a symbol.
pub fn cell_bytes(profile: Profile) -> usize
    ensures { result ≡ cells_per_buffer (modulation profile) * 2 }
{
    BITS / buffers(profile) * 2
}

// The pairs of each encoder in a super-frame: 21 a buffer.
pub fn pairs(profile: Profile) -> usize
    ensures { (result ≡ (modulation profile).bits * 21) × (84 ≤ result) × (result ≤ 168) }
{
    buffers(profile) * 21
}

// The number of the first pair of super-frame q, of the 64 that a line file has at most.
pub fn first_pair(profile: Profile, q: u32) -> u32
    requires { q ≤ 64 }
    ensures { (result ≡ pairs_in (modulation profile) q) × (result < 65536) }
{
    q * pairs(profile) as u32
}
