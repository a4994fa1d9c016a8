// The repair that the syndromes of a word tell: its places by their exponents, two of them by a root.
ghost use Rattle.std.specs.Prelude.{◌≡◌, ◌<◌};
ghost use Rattle.word_spec.specs.Syndromes.{locator};
ghost use Rattle.word_spec.specs.Locating.{Located, confined};
ghost use Rattle.locating_core.specs.Telling.{Told, Inside};

use crate::root;
use word_spec::{Repair, Syndromes};

// The place that an element of GF(256) stands for.
#[tactic(auto, using(crate::proofs::Finding::placing))]
fn place_of(x: u8) -> usize
    ensures { (result < 256) × (locator result ≡ x) }
{
    if x == 0 { 255 } else { 254 - gf256::log(x) }
}

// The two places of an even word whose S1 is not 0: their locators add up to S1 and the cubes of these to S3. With the locators x and
// x + S1, where x = S1 y, the cubes add up to S1^3 (y y + y) + S1^3: so y is a root for S3 + S1^3 over S1^3.
fn locate_two(s: Syndromes) -> Repair
    requires { (s.parity ≡ 0) × (0 < s.s1) }
    ensures { Located s result }
{
    let q = gf256::cube(s.s1);
    let Some(y) = root(gf256::over(s.s3 ^ q, q)) else {
        return Repair::Lost;
    };
    let x = gf256::times(s.s1, y);
    let i = place_of(x);
    let j = place_of(x ^ s.s1);
    Repair::Two(i.min(j), i.max(j))
}

// The places that the syndromes tell: one of an odd word, none or two of an even one.
#[tactic(auto, using(crate::proofs::Finding::even_none))]
fn locate(s: Syndromes) -> Repair
    ensures { Located s result }
{
    match s.parity {
        1 if gf256::cube(s.s1) == s.s3 => Repair::One(place_of(s.s1)),
        0 if s.s1 != 0 => locate_two(s),
        0 if s.s3 == 0 => Repair::Sound,
        _ => Repair::Lost,
    }
}

// Lost where a place falls in the front half and may not.
fn confine(r: Repair, front: bool) -> Repair
    ensures { result ≡ confined front r }
{
    match r {
        Repair::Sound | Repair::Lost => r,
        Repair::One(i) | Repair::Two(i, _) => { if front || 128 <= i { r } else { Repair::Lost } }
    }
}

// The repair of a word that has these syndromes; `front` says whether flips may fall in the front half.
pub fn repair_told(s: Syndromes, front: bool) -> Repair
    ensures { Told front s result × Inside result }
{
    confine(locate(s), front)
}
