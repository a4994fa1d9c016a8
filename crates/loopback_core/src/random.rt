// Pseudo-random bytes.
ghost use Rattle.std.specs.Prelude.{◌≡◌, ◌<◌, length};
ghost use Rattle.bits.specs.Lists.{tabulate};
ghost use Rattle.loopback_core.specs.Random.{drawn};

// The seed of everything that is drawn.
const SEED: u64 = 20251115;

// Fills a buffer with the numbers of a stream, each divided by d.
pub fn fill(buffer: &mut [u8], stream: u32, d: u8)
    requires { 0 < d }
    ensures { buffer.new ≡ tabulate (length buffer.old) (drawn stream d) }
{
    let mut state = SEED + u64::from(stream);
    for byte in buffer.iter_mut() {
        state = (state * 1103515245 + 12345) % 2147483648;
        *byte = (state / 65536 % 256) as u8 / d;
    }
}
