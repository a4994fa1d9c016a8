// The overhead cells of a sub-frame that differ from the overhead list.
ghost use Rattle.std.specs.Prelude.{◌≡◌, ◌+◌, ◌*◌, ◌<◌, length};
ghost use Rattle.bits.specs.Count.{count};
ghost use Rattle.frame_spec.specs.Frames.{overhead_cells, cell_differs, overhead_differs, differing};
ghost use Rattle.frame_spec.specs.Layout.{edge};

use crate::layout::{edge, first_whole, gap};

// 1 where cell i of one buffer and cell k of another differ, and 0 otherwise.
fn cell_differs(a: &[u8], i: usize, b: &[u8], k: usize) -> u32
    requires { (i * 2 + 1 < length a.now) × (k * 2 + 1 < length b.now) }
    ensures { result ≡ cell_differs a.now i b.now k }
{
    if a[i * 2] == b[k * 2] && a[i * 2 + 1] == b[k * 2 + 1] {
        0
    } else {
        1
    }
}

// How many of the cells below the edge differ. The number of a cell is its place in both buffers.
fn differing_below(number: u32, frame: &[u8], own: &[u8]) -> u32
    requires { (length frame.now ≡ 7424) × (length own.now ≡ overhead_cells number * 2) }
    ensures { result ≡ count (edge number) (overhead_differs number frame.now own.now) }
{
    let mut n = 0;
    for m in 0..edge(number) {
        n += cell_differs(frame, m, own, m);
    }
    n
}

// How many overhead cells differ: of those below the edge, and of the pilots past it, each of which has another place in either buffer.
pub fn differing(number: u32, frame: &[u8], own: &[u8]) -> u32
    requires { (length frame.now ≡ 7424) × (length own.now ≡ overhead_cells number * 2) }
    ensures { result ≡ differing number frame.now own.now }
{
    let g = gap(number);
    let mut n = differing_below(number, frame, own);
    for i in first_whole(number)..116 {
        n += cell_differs(frame, i * 32, own, i + g);
    }
    n
}
