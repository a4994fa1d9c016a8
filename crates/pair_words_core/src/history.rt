// The history: ten pairs of 512 bytes, oldest first.
ghost use Rattle.std.specs.Prelude.{◌≡◌, ◌+◌, ◌≤◌, length};
ghost use Rattle.pair_spec.specs.History.{shift};
ghost use Rattle.pair_words_core.specs.Shifting.{Moving};

// Brings each of the bytes of a part 512 bytes down to its place, from the pair behind; the others stand.
pub fn move_part(history: &mut [u8], from: usize, to: usize)
    requires { (from ≤ to) × (to + 512 ≤ length history.old) }
    ensures { Moving 512 history.old from to to history.new }
{
    history.copy_within(from + 512..to + 512, from);
}

// Copies a buffer into one of the same length. (The crates above call `copy_from_slice` itself.)
pub fn copy(from: &[u8], to: &mut [u8])
    requires { length to.old ≡ length from.now }
    ensures { to.new ≡ from.now }
{
    to.copy_from_slice(from);
}

// The oldest pair goes, and the newest comes in behind the others.
pub fn shift_in(history: &mut [u8], newest: &[u8])
    requires { (512 ≤ length history.old) × (length newest.now ≡ 512) }
    ensures { history.new ≡ shift history.old newest.now }
{
    let n = history.len() - 512;
    move_part(history, 0, n);
    history[n..].copy_from_slice(newest);
}
