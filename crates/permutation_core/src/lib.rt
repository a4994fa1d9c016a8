// The permutations of a block, each in four stages of one shape: bit rows k and k+8 give bit rows 2k and 2k+1. Over `blocks`; the words
// of a row are put in order with them, and S1 and S3 of the words are taken one by one from the sums of all.
#![tactic(auto, using(crate::specs::StageLaws::permuting))]

ghost use Rattle.std.specs.Prelude.{◌≡◌, ◌/◌, ◌%◌, ◌<◌, length, map};
ghost use Rattle.blocks.specs.Block.{row_word, block};
ghost use Rattle.blocks.specs.Moves.{chosen, transposed};
ghost use Rattle.blocks.specs.Exchanges.{rows_exchanged, columns_exchanged};
ghost use Rattle.permutation_core.specs.Stages.{rows_stage, columns_stage, crossed_first, crossed_second, cross_word, cross_stage, eight_transposed, two_transposed};
ghost use Rattle.permutation_core.specs.StageLaws.{Mask};

use bits::lanes::Lanes;
use blocks::choose;
use std::array;

// The columns of a mask, and those `by` before them: what changes places in a stage.
#[derive(Drop)]
struct Columns<T: Lanes> {
    mask: T,
    by: u32,
    ghost apart: { Mask T.width (T.number mask) by × (by < T.width) },
}

impl<T: Lanes> Columns<T> {
    fn new(mask: T, by: u32) -> Columns<T>
        requires { Mask T.width (T.number mask) by × (by < T.width) }
        ensures { (result.mask ≡ mask) × (result.by ≡ by) }
    {
        Columns { mask, by }
    }
}

// Bit row i after two exchange the columns of m.
fn rows_word(b: &[u16; 16], m: u16, i: usize) -> u16
    requires { i < 16 }
    ensures { result ≡ row_word (rows_stage m b.now) i }
{
    let (x, y) = (b[i / 2], b[8 + i / 2]);
    if i % 2 == 0 {
        choose(m, y, x)
    } else {
        choose(m, x, y)
    }
}

fn rows_stage(b: [u16; 16], m: u16) -> [u16; 16]
    ensures { result ≡ block (rows_stage m b) }
{
    array::from_fn(|i| rows_word(&b, m, i))
}

// Bit row i after the second of two exchanges columns with those before them.
fn columns_word(b: &[u16; 16], columns: &Columns<u16>, i: usize) -> u16
    requires { i < 16 }
    ensures { result ≡ row_word (columns_stage columns.now.mask columns.now.by b.now) i }
{
    let (x, y) = (b[i / 2], b[8 + i / 2]);
    if i % 2 == 0 {
        x
    } else {
        choose(columns.mask, y >> columns.by, y << columns.by)
    }
}

fn columns_stage(b: [u16; 16], columns: &Columns<u16>) -> [u16; 16]
    ensures { result ≡ block (columns_stage columns.now.mask columns.now.by b) }
{
    array::from_fn(|i| columns_word(&b, columns, i))
}

// The columns of the first change places with those before them of the second.
fn crossed<T: Lanes>(x: T, y: T, columns: &Columns<T>) -> (T, T)
    ensures first { T.number result.0 ≡ crossed_first T.width (T.number columns.now.mask) columns.now.by (T.number x) (T.number y) }
    ensures second { T.number result.1 ≡ crossed_second T.width (T.number columns.now.mask) columns.now.by (T.number x) (T.number y) }
{
    let d = x.xor(y >> columns.by) & columns.mask;
    (x.xor(d), y.xor(d << columns.by))
}

// Number i of 2R after a stage: numbers k and R+k exchange columns so, and give numbers 2k and 2k+1.
fn cross_word<T: Lanes>(b: &[T], columns: &Columns<T>, i: usize) -> T
    requires { (length b.now % 2 ≡ 0) × (i < length b.now) }
    ensures { T.number result ≡ cross_word (length b.now / 2) T.width (T.number columns.now.mask) columns.now.by (map T.number b.now) i }
{
    let (x, y) = crossed(b[i / 2], b[b.len() / 2 + i / 2], columns);
    if i % 2 == 0 { x } else { y }
}

// All of them. Of sixteen u16 it is a stage of a block, of sixteen u32 one of two blocks side by side, and of eight u64 one of eight blocks
// of 8 by 8 bits.
fn cross_stage<T: Lanes, const N: usize>(b: [T; N], columns: &Columns<T>) -> [T; N]
    requires { N % 2 ≡ 0 }
    ensures { map T.number result ≡ cross_stage (N / 2) T.width (T.number columns.now.mask) columns.now.by (map T.number b) }
{
    array::from_fn(
        |i: usize| -> T
            requires { (N % 2 ≡ 0) × (i < N) }
            ensures { T.number result ≡ cross_word (N / 2) T.width (T.number columns.entry.now.mask) columns.entry.now.by (map T.number b) i }
        { cross_word(&b, columns, i) },
    )
}

// In column c, bit row i changes places with bit row i^c.
pub fn exchange_rows(b: [u16; 16]) -> [u16; 16]
    ensures { result ≡ rows_exchanged b }
{
    let t = rows_stage(b, 0x00FF);
    let u = rows_stage(t, 0x0F0F);
    let v = rows_stage(u, 0x3333);
    rows_stage(v, 0x5555)
}

// In bit row i, column c changes places with column c^i.
pub fn exchange_columns(b: [u16; 16]) -> [u16; 16]
    ensures { result ≡ columns_exchanged b }
{
    let t = columns_stage(b, &Columns::new(0x00FF, 8));
    let u = columns_stage(t, &Columns::new(0x0F0F, 4));
    let v = columns_stage(u, &Columns::new(0x3333, 2));
    columns_stage(v, &Columns::new(0x5555, 1))
}

// Bit row i, column c changes places with bit row c, column i.
pub fn transpose(b: [u16; 16]) -> [u16; 16]
    ensures { result ≡ transposed b }
{
    let t = cross_stage(b, &Columns::new(0x00FF, 8));
    let u = cross_stage(t, &Columns::new(0x0F0F, 4));
    let v = cross_stage(u, &Columns::new(0x3333, 2));
    cross_stage(v, &Columns::new(0x5555, 1))
}

// Two blocks side by side, each transposed.
pub fn transpose_two(b: [u32; 16]) -> [u32; 16]
    ensures { result ≡ two_transposed b }
{
    let t = cross_stage(b, &Columns::new(0x00FF00FF, 8));
    let u = cross_stage(t, &Columns::new(0x0F0F0F0F, 4));
    let v = cross_stage(u, &Columns::new(0x33333333, 2));
    cross_stage(v, &Columns::new(0x55555555, 1))
}

// Eight blocks of 8 by 8 bits side by side, each transposed.
pub fn transpose_eight(b: [u64; 8]) -> [u64; 8]
    ensures { result ≡ eight_transposed b }
{
    let u = cross_stage(b, &Columns::new(0x0F0F0F0F0F0F0F0F, 4));
    let v = cross_stage(u, &Columns::new(0x3333333333333333, 2));
    cross_stage(v, &Columns::new(0x5555555555555555, 1))
}
