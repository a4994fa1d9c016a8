// Errors on the line: cells replaced by legal cells. A payload cell carries eight bits of one block, in eight bit rows and eight
// columns; in QPSK it carries four, and the cell with the first four of the eight is replaced.
// - In the first pair of a buffer, the first row of each encoder has three cells replaced: the same place of three blocks, so that a
//   word has at most three wrong bits in its back half.
// - In the eleventh pair, the second row has two.
// A bit of block C is also in the front half of a word 10 - C pairs later, of the bit row that is its column; a cell gives such a
// word one bit at most. So words of a buffer's first pair have no wrong bit in front, those of its eleventh have at most one, of its
// first, and others have at most one, and none in the back half. No word has more than three.
ghost use Rattle.std.specs.Prelude.{◌≡◌, ◌*◌, ◌<◌, ◌≤◌};
ghost use Rattle.profiles_spec.specs.Profiles.{modulation};
ghost use Rattle.loopback_core.specs.Noise.{superframes_of, legal_byte, replaced, struck_byte, struck, carrier, strike_one, strike, strike_cell, damaged};
ghost use Rattle.loopback_core.specs.Steps.{each_step};

use crate::file::Frames;
use cells_core::sizes::buffers;
use profile::Profile;

// The super-frames of a run, which has 16 buffers.
pub fn superframes(profile: Profile) -> usize
    ensures { result ≡ superframes_of (modulation profile) }
{
    match profile {
        Profile::Qam16 => 2,
        Profile::Qpsk => 4,
    }
}

// A byte that is legal in every cell.
fn legal_byte(profile: Profile, y: usize) -> u8
    ensures { result ≡ legal_byte profile y }
{
    match profile {
        Profile::Qam16 => (y % 16) as u8,
        Profile::Qpsk => (5 + y / 2 % 2 * 4 + y % 2) as u8,
    }
}

// The byte of a buffer's bits that is struck: number i of five for an encoder in buffer b of 16.
fn struck_byte(b: usize, encoder: usize, i: usize) -> usize
    requires { (b < 16) × (encoder < 2) × (i < 5) }
    ensures { (result ≡ struck_byte b encoder i) × (result < 21504) }
{
    ((b + encoder + i) % 8 * 16 + b) * 168 + i / 3 * 2 + encoder
}

// The payload cell of the super-frame that has its first bit.
fn struck(profile: Profile, b: usize, encoder: usize, i: usize) -> usize
    requires { (b < 16) × (encoder < 2) × (i < 5) }
    ensures { (result ≡ struck (modulation profile) b encoder i) × (result < 172032) }
{
    let x = struck_byte(b, encoder, i);
    match profile {
        Profile::Qam16 => b % 8 * 21504 + x,
        Profile::Qpsk => b % 4 * 43008 + x * 2,
    }
}

// The cell that carries payload cell x of a super-frame. A sub-frame has 10 cells before its payload and 3,586 after them, pilots not
// counted; in sub-frame 0 the first 96 of these are overhead.
fn carrier(x: usize) -> usize
    requires { x < 172032 }
    ensures { (result ≡ carrier x) × (result < 178176) }
{
    let k = (x + 96) % 3586 + 10;
    (x + 96) / 3586 * 3712 + k / 31 * 32 + 1 + k % 31
}

// Replaces a cell by another: X turned round, Y any.
fn replace(profile: Profile, line: &mut Frames, cell: usize, y: usize)
    requires { cell < 178176 }
    ensures { line.new ≡ replaced profile cell y line.old }
{
    let a = cell * 2;
    line[a] = 15 - line[a] % 16;
    line[a + 1] = legal_byte(profile, y);
}

// Strikes payload cell u of the 160 of a run, ten to a buffer.
fn strike_one(profile: Profile, u: usize, line: &mut Frames)
    requires { u < 160 }
    ensures { line.new ≡ strike_one profile u line.old }
{
    let cell = carrier(struck(profile, u / 10, u % 2, u / 2 % 5));
    replace(profile, line, cell, u * 7);
}

// Strikes those of super-frame q.
fn strike(profile: Profile, q: usize, line: &mut Frames)
    requires { q < superframes_of (modulation profile) }
    ensures { line.new ≡ each_step ((modulation profile).bits * 10) (strike profile q) line.old }
{
    let n = buffers(profile) * 10;
    // By number: the number of a struck cell says where it lies, and no list is read by it.
    for v in 0..n {
        strike_one(profile, q * n + v, line);
    }
}

// Strikes a cell of the first n sub-frames.
fn strike_cell(profile: Profile, cell: usize, n: usize, line: &mut Frames)
    requires { (cell < 3712) × (n ≤ 48) }
    ensures { line.new ≡ each_step n (strike_cell profile cell) line.old }
{
    // By number: the number of the sub-frame gives the place and the byte put there; n of the 48 have one.
    for s in 0..n {
        replace(profile, line, s * 3712 + cell, s);
    }
}

// All that is struck in super-frame q: training cells and pilots too.
pub fn damage(profile: Profile, q: usize, line: &mut Frames)
    requires { q < superframes_of (modulation profile) }
    ensures { line.new ≡ damaged profile q line.old }
{
    strike(profile, q, line);
    strike_cell(profile, 0, 48, line);
    strike_cell(profile, 128, 48, line);
    strike_cell(profile, 1, 48 - q % 2 * 32, line);
    strike_cell(profile, 160, 48 - q % 2 * 32, line);
}
