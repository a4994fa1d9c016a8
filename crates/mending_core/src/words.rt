// Sets of words, as numbers of 32 bits: bit w is set where word w is in the set.
ghost use Rattle.std.specs.Prelude.{◌≡◌, ◌<◌, MatchOption};
ghost use Rattle.std.specs.Iterator.{at_most};
ghost use Rattle.mending_core.specs.Sets.{First, Removed};

// The words of a set, first word first.
#[derive(Drop)]
pub struct Words(pub u32);

impl Iterator for Words {
    type Item = usize;

    ghost next_gives = { λ s r t. MatchOption r (s.0 ≡ 0) (λ w. First s.0 w × (w < 32) × Removed s.0 w t.0) };

    ghost remaining = { λ s. at_most s.0 };

    fn next(&mut self) -> Option<usize> {
        if self.0 == 0 {
            return None;
        }
        let w = self.0.leading_zeros() as usize;
        self.0 -= 1 << (31 - w);
        Some(w)
    }
}
