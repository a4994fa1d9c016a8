// Legal cells (01: "A byte of 16 or more is illegal"; 02, E1: "A payload cell with a level of −3 or 3 is illegal in this profile").
ghost use Rattle.std.specs.Prelude.{◌≡◌, ◌*◌, ℕ, leb, length};
ghost use Rattle.cells_spec.specs.Modulation.{cells_per_buffer};
ghost use Rattle.cells_spec.specs.Cells.{overhead_rule, payload_rule, first_illegal, found};
ghost use Rattle.profiles_spec.specs.Profiles.{qpsk, modulation};

use profile::Profile;

// The index of the first byte whose height, a number that is made of the byte alone, is a limit or more. The greatest height is looked
// for first, with no branch a byte; the bytes are searched only where it is.
fn first_reaching<F: Fn(u8) -> u8>(cells: &[u8], limit: u8, height: F) -> Option<usize>
    requires { F.IsAlwaysCallable height }
    ensures { (h : ℕ → ℕ) → ((v r : ℕ) → F.post height v r → r ≡ h v) → result ≡ found (length cells.now) (first_illegal (λ j v. leb limit (h v)) cells.now) }
{
    let highest = cells.iter().fold(0, |top, v| height(*v).max(top));
    if highest < limit {
        return None;
    }
    for i in 0..cells.len() {
        if limit <= height(cells[i]) {
            return Some(i);
        }
    }
    None
}

// The index of the first byte that is illegal in overhead cells.
pub fn first_illegal(cells: &[u8]) -> Option<usize>
    ensures { result ≡ found (length cells.now) (first_illegal overhead_rule cells.now) }
{
    first_reaching(cells, 16, |v| v)
}

// Whether a byte is illegal in payload cells of QPSK: (I+3)/2 and (Q+3)/2 must be 1 or 2.
pub fn is_outer(v: u8) -> bool
    ensures { result ≡ qpsk.illegal v }
{
    (v / 4 + 1) / 2 != 1 || (v % 4 + 1) / 2 != 1
}

// The index of the first such byte.
pub fn first_outer(cells: &[u8]) -> Option<usize>
    ensures { result ≡ found (length cells.now) (first_illegal (payload_rule qpsk) cells.now) }
{
    first_reaching(cells, 1, |v| u8::from(is_outer(v)))
}

// The index of the first byte that is illegal in payload cells.
pub fn first_illegal_payload(profile: Profile, cells: &[u8]) -> Option<usize>
    ensures { result ≡ found (length cells.now) (first_illegal (payload_rule (modulation profile)) cells.now) }
{
    match profile {
        Profile::Qam16 => first_illegal(cells),
        Profile::Qpsk => first_outer(cells),
    }
}

// The same of a buffer's cells, whose number the compiler then knows.
pub fn first_illegal_in_buffer(profile: Profile, cells: &[u8]) -> Option<usize>
    requires { length cells.now ≡ cells_per_buffer (modulation profile) * 2 }
    ensures { result ≡ found (length cells.now) (first_illegal (payload_rule (modulation profile)) cells.now) }
{
    match profile {
        Profile::Qam16 => first_illegal(&cells[0..43008]),
        Profile::Qpsk => first_outer(&cells[0..86016]),
    }
}
