// The repair that the syndromes of a word tell, and the table of roots that it reads beside those of `gf256`. Over `word_spec`, below `word`
// and `mending_core`.
#![tactic(auto)]

pub mod locating;
mod tables;

ghost use Rattle.std.specs.Prelude.{◌≡◌, ◌<◌, MatchOption};
ghost use Rattle.locating_core.specs.Roots.{rooted};
ghost use Rattle.locating_core.specs.RootLaws.{Root};

// The table of roots.
pub fn roots() -> [u8; 256]
    ensures { result ≡ rooted }
{
    tables::ROOTS
}

// A root of y y + y = c that is not 0, if there is one.
fn root(c: u8) -> Option<u8>
    ensures { MatchOption result (Root c 0) (λ y. Root c y × (0 < y)) }
{
    let y = tables::ROOTS[usize::from(c)];
    if y == 0 { None } else { Some(y) }
}
