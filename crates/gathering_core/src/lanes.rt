// S1 and S3 of the words side by side: of each block, for the sixteen words of a row; then, for the 32 of both rows, of two blocks, of
// four and of all eight. A lane is one of eight columns of sixteen numbers, number 8i+C in lane C. Two lanes do not fill a vector: from
// four lanes on, two go together in numbers of 64 bits, and each operation serves both.
ghost use Rattle.std.specs.Prelude.{◌≡◌, ℕ, ◌+◌, ◌*◌, ◌%◌, ◌<◌, length, get_or};
ghost use Rattle.bits.specs.Lists.{tabulate};
ghost use Rattle.bits.specs.Xor.{◌⊕◌, xor_sum};
ghost use Rattle.blocks.specs.Laying.{Laid};
ghost use Rattle.gathering_spec.specs.Sums.{halves_lane, lane64, paired_lanes, lanes32, lane16, joined_rows};
ghost use Rattle.gathering_core.specs.Lanes.{Levelled};

use bits::pair_up;
use blocks::laying::{laid_by, put_lane};
use std::array;
use std::ops::BitXor;

// ---- lanes

// Lane C of eight side by side.
fn lane<T: Copy>(x: &[T; 128], c: usize) -> [T; 16]
    requires { c < 8 }
    ensures { (z : T) → result ≡ tabulate 16 (λ i. get_or x.now (8 * i + c) z) }
{
    array::from_fn(
        |i| -> T
            requires { 8 * i + c < 128 }
            ensures { result ≡ get_or x.entry.now (8 * i + c) result }
        { x[8 * i + c] },
    )
}

// Two lanes summed.
fn added<T: Copy + BitXor<T, Output = T>>(a: &[T; 16], b: &[T; 16]) -> [T; 16]
    requires { (x y : T) → T.can_bitxor x y }
    ensures { (z : T) (i : ℕ) → i < 16 → T.bitxor_gives (get_or a.now i z) (get_or b.now i z) (get_or result i z) }
{
    array::from_fn(
        |i| -> T
            requires { (i < 16) × ((x y : T) → T.can_bitxor x y) }
            ensures { (z : T) → T.bitxor_gives (get_or a.entry.now i z) (get_or b.entry.now i z) result }
        { a[i] ^ b[i] },
    )
}

// ---- the words of a row

// The sums of block C of both halves.
fn halves_lane(x: &[u16; 128], y: &[u16; 128], c: usize) -> [u16; 16]
    requires { c < 8 }
    ensures { result ≡ halves_lane x.now y.now c }
{
    let f = lane(x, c);
    let b = lane(y, c);
    let s = block_sums_core::front(&f);
    let t = block_sums_core::back(&b);
    added(&s, &t)
}

// Those of all eight blocks, of the words whose front halves are x and back halves y.
pub fn by_eight(x: &[u16; 128], y: &[u16; 128]) -> [u16; 128]
    ensures { Laid (halves_lane x.now y.now) 8 result }
{
    laid_by(
        |c| -> [u16; 16]
            requires { c < 8 }
            ensures { result ≡ halves_lane x.entry.now y.entry.now c }
        { halves_lane(x, y, c) },
    )
}

// Their parities.
pub fn row_parities(x: &[u16; 128], y: &[u16; 128]) -> u16
    ensures { result ≡ xor_sum 128 (λ n. get_or x.now n 0 ⊕ get_or y.now n 0) }
{
    x.iter().zip(y).fold(0, |p, (a, b)| p ^ (*a ^ *b))
}

// ---- the words of both rows

// Two numbers of sixteen bits in one of 32, as `bits::pair_up` those of 32 in one of 64: a line each, shorter than a trait over both.
pub fn join(a: u16, b: u16) -> u32
    ensures { result ≡ a * 65536 + b % 65536 }
{
    u32::from(a) * 65536 + u32::from(b)
}

// Two rows in one.
fn join_rows(a: &[u16; 128], b: &[u16; 128]) -> [u32; 128]
    ensures { result ≡ joined_rows a.now b.now }
{
    array::from_fn(|n| join(a[n], b[n]))
}

// The sums of blocks that lie 64 places apart.
fn lane_64(z: &[u32; 128], c: usize) -> [u32; 16]
    requires { c < 4 }
    ensures { result ≡ lane64 z.now c }
{
    let f = lane(z, c);
    let b = lane(z, c + 4);
    let s = moved_sums_core::up64(&f);
    added(&s, &b)
}

// Of eight sums four. In a loop that puts each number beside those of the other lanes the compiler forms all four at once; with the lanes
// as the elements of an array it does not, and takes twice as long.
fn by_four(x: &[u32; 128]) -> [u32; 128]
    ensures { Laid (lane64 x.now) 4 result }
{
    let mut z = [0u32; 128];
    for c in 0..4 {
        put_lane(&mut z, c, &lane_64(x, c));
    }
    z
}

// ---- two lanes in numbers of 64 bits

// Lanes C and C + 1, the second in the upper halves: two numbers that lie side by side in memory are then read as one.
fn two_lanes(z: &[u32; 128], c: usize) -> [u64; 16]
    requires { c < 7 }
    ensures { result ≡ paired_lanes z.now c }
{
    array::from_fn(|i| pair_up(z[8 * i + c + 1], z[8 * i + c]))
}

// Of four sums two, both at once: those of blocks that lie 32 places apart.
fn by_two(z: &[u32; 128]) -> [u64; 16]
    ensures { result ≡ lanes32 z.now }
{
    let f = two_lanes(z, 0);
    let b = two_lanes(z, 2);
    let s = moved_sums_core::up32(&f);
    added(&s, &b)
}

// Of these two one: those of blocks that lie sixteen places apart.
fn lane_16(two: &[u64; 16]) -> [u32; 16]
    ensures { result ≡ lane16 two.now }
{
    let lower = two.map(|x| (x % 4294967296) as u32);
    let upper = two.map(|x| (x / 4294967296) as u32);
    let s = moved_sums_core::up16(&lower);
    added(&s, &upper)
}

// ---- all levels

// S1 and S3 of both rows' words, from those of each row block by block.
pub fn levels(a: &[u16; 128], b: &[u16; 128]) -> [u32; 16]
    ensures { Levelled a.now b.now result }
{
    let eight = join_rows(a, b);
    let four = by_four(&eight);
    let two = by_two(&four);
    lane_16(&two)
}
