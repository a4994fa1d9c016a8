// The layout of a sub-frame: which cells are overhead, how many there are, and where its part of the overhead list stands.
ghost use Rattle.std.specs.Prelude.{◌≡◌, ◌+◌, ◌*◌, ◌<◌, ◌≤◌, length};
ghost use Rattle.frame_spec.specs.Frames.{overhead_cells, payload_cells, overhead_start, own_overhead};
ghost use Rattle.frame_spec.specs.Layout.{edge, gap};

// The training cells are those below this one; in sub-frame 0 the overhead runs on.
const TRAINING: usize = 11;

const FIRST_OVERHEAD: usize = 110;

// All cells of a sub-frame below this one are overhead, and of the others the pilots alone.
pub fn edge(number: u32) -> usize
    ensures { (result ≡ edge number) × (result ≤ overhead_cells number) × (result ≤ 110) }
{
    if number == 0 {
        FIRST_OVERHEAD
    } else {
        TRAINING
    }
}

// How many of the cells below the edge are no pilots: of 110 all but 4, of 11 all but 1. The pilots of a sub-frame are 3712 / 32 = 116.
pub fn gap(number: u32) -> usize
    ensures { (result ≡ gap number) × (result + 116 ≡ overhead_cells number) × (result + 116 + payload_cells number ≡ 3712) }
{
    if number == 0 { 106 } else { 10 }
}

// The first of its groups of 32 cells that stands past the edge.
pub fn first_whole(number: u32) -> usize
    ensures { (result + gap number ≡ edge number) × (edge number ≤ result * 32) × (result ≤ 4) }
{
    if number == 0 { 4 } else { 1 }
}

// The overhead cells of a sub-frame.
fn overhead_cells(number: u32) -> usize
    ensures { result ≡ overhead_cells number }
{
    if number == 0 { 222 } else { 126 }
}

// The payload cells of a sub-frame.
pub fn payload_cells(number: u32) -> usize
    ensures { (result ≡ payload_cells number) × (result < 3712) }
{
    if number == 0 { 3490 } else { 3586 }
}

// The overhead cells of the sub-frames before this one: sub-frame 0 has 222, and each other 126, which is 96 fewer.
pub fn overhead_start(number: u32) -> usize
    requires { number ≤ 47 }
    ensures { (result ≡ overhead_start number) × (result + overhead_cells number ≤ 6144) }
{
    if number == 0 {
        0
    } else {
        number as usize * 126 + 96
    }
}

// The sub-frame's own part of the overhead list.
pub fn own_overhead(number: u32, overhead: &[u8]) -> &[u8]
    requires { (number ≤ 47) × (length overhead.now ≡ 12288) }
    ensures { (result.now ≡ own_overhead number overhead.now) × (length result.now ≡ overhead_cells number * 2) }
{
    let a = overhead_start(number) * 2;
    let e = a + overhead_cells(number) * 2;
    &overhead[a..e]
}
