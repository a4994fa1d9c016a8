// Workers: the levels of a bit pair, by a table, and its inverse (01: "A bit pair gives the level: 00 is −3"), and the level of a bit
// (02, E1: "0 is level −1 and 1 is level 1"). Over `cells_spec`; `mapping_core` makes cells of levels.
#![tactic(auto)]

ghost use Rattle.std.specs.Prelude.{◌≡◌, ◌/◌, ◌%◌, ◌<◌};
ghost use Rattle.cells_spec.specs.Levels.{Level, level, ordinal, rails};
ghost use Rattle.cells_spec.specs.Qpsk.{bit_level};
ghost use Rattle.cells_spec.specs.Qam16Inverse.{level_at, first_bit, second_bit};

// The level of each bit pair: of 00, 01, 10, 11.
const LEVELS: [i8; 4] = [-3, -1, 3, 1];

// The bit pair of each level, as a number of two bits: of -3, -1, 1, 3.
const PAIRS: [u8; 4] = [0, 1, 3, 2];

// The level of the bit pair (a, b).
pub fn level(a: u8, b: u8) -> i8
    requires { (a < 2) × (b < 2) }
    ensures { (result ≡ level a b) × Level result }
{
    LEVELS[usize::from(a * 2 + b)]
}

// The level of a bit.
pub fn bit_level(b: u8) -> i8
    ensures { (result ≡ bit_level b) × Level result }
{
    if b == 0 { -1 } else { 1 }
}

// (l + 3) / 2 of a level l.
pub fn ordinal(l: i8) -> u8
    requires { Level l }
    ensures { (result ≡ ordinal l) × (result < 4) }
{
    (l + 3) as u8 / 2
}

// The byte 4×(I+3)/2 + (Q+3)/2 of two levels.
pub fn rails(i: i8, q: i8) -> u8
    requires { Level i × Level q }
    ensures { result ≡ rails i q }
{
    4 * ordinal(i) + ordinal(q)
}

// The bit pair of the level whose ordinal is k.
pub fn bit_pair(k: u8) -> u8
    requires { k < 4 }
    ensures { (result / 2 ≡ first_bit (level_at k)) × (result % 2 ≡ second_bit (level_at k)) × (result < 4) }
{
    PAIRS[usize::from(k)]
}
