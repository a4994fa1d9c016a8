// The rules of the header, in one worker over the first sixteen bytes and the length of a file.
ghost use Rattle.std.specs.Prelude.{◌≡◌, ◌^◌, ◌<◌, ◌≤◌, length};
ghost use Rattle.line_file_spec.specs.Header.{rules_hold, judged};

use bits::numbers::number;
use calls::Refusal;
use line_file_spec::Header;

// Whether the numbers n, o, f and total of a header keep the rules, in a file of so many bytes: an overhead list has 12,288, and a
// super-frame 356,352, 48 sub-frames of 7,424.
fn rules_hold(n: usize, o: usize, f: usize, total: usize, size: usize) -> bool
    requires { (o < 2 ^ 32) × (f < 2 ^ 32) }
    ensures { result ≡ rules_hold n o f total size }
{
    if n < 1 {
        return false;
    }
    if 64 < n {
        return false;
    }
    if o < 16 {
        return false;
    }
    if f < o + 12288 {
        return false;
    }
    if total != f + 356352 * n {
        return false;
    }
    total == size
}

// Judges the header in the first sixteen bytes of a file of so many bytes.
pub fn judge(first: &[u8], size: usize) -> Result<Header, Refusal>
    requires { 16 ≤ length first.now }
    ensures { result ≡ judged first.now size }
{
    if size < 16 {
        return Err(Refusal::Misfit);
    }
    let n = number(first, 0);
    let o = number(first, 1);
    let f = number(first, 2);
    let total = number(first, 3);
    if !rules_hold(n, o, f, total, size) {
        return Err(Refusal::BadHeader);
    }
    Ok(Header {
        superframes: n as u32,
        overhead: o as u32,
        frames: f as u32,
        total: total as u32,
    })
}
