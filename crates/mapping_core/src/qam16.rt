// 16-QAM: a symbol's byte to its cell and back, and the same for buffers of any number of symbols.
ghost use Rattle.std.specs.Prelude.{◌≡◌, ◌+◌, ◌*◌, ◌<◌, length};
ghost use Rattle.cells_spec.specs.Cells.{payload_rule, Legal, to_cells, to_bits};
ghost use Rattle.cells_spec.specs.Qam16.{cell_byte};
ghost use Rattle.cells_spec.specs.Qam16Inverse.{level_at, first_bit, second_bit, byte_of_cell};
ghost use Rattle.cells_spec.specs.Qam16Tables.{cell_bytes, symbol_cells, cell_symbols};
ghost use Rattle.profiles_spec.specs.Profiles.{qam16};

use levels_core::{bit_pair, level, rails};
use std::array;

// The X byte of a symbol's cell.
fn x_byte(b: u8) -> u8
    ensures { result ≡ cell_byte b 0 }
{
    rails(level(b / 128 % 2, b / 32 % 2), level(b / 8 % 2, b / 2 % 2))
}

// The Y byte.
fn y_byte(b: u8) -> u8
    ensures { result ≡ cell_byte b 1 }
{
    rails(level(b / 64 % 2, b / 16 % 2), level(b / 4 % 2, b % 2))
}

// Four bits of a symbol: the pairs of an X level and of a Y level, by their ordinals, woven.
fn weave(x: u8, y: u8) -> u8
    requires { (x < 4) × (y < 4) }
    ensures { (result ≡ first_bit (level_at x) * 8 + first_bit (level_at y) * 4 + second_bit (level_at x) * 2 + second_bit (level_at y)) × (result < 16) }
{
    let p = bit_pair(x);
    let q = bit_pair(y);
    p / 2 * 8 + q / 2 * 4 + p % 2 * 2 + q % 2
}

// The symbol's byte of a legal cell.
fn byte_of(x: u8, y: u8) -> u8
    requires { (x < 16) × (y < 16) }
    ensures { result ≡ byte_of_cell x y }
{
    weave(x / 4, y / 4) * 16 + weave(x % 4, y % 4)
}

// X and Y of a symbol's cell as one number, X in the lower half.
fn cell_bytes(b: u8) -> u16
    ensures { result ≡ cell_bytes b }
{
    u16::from_le_bytes([x_byte(b), y_byte(b)])
}

// The cell of every symbol.
fn symbol_cells() -> [u16; 256]
    ensures { result ≡ symbol_cells }
{
    array::from_fn(|b| cell_bytes(b as u8))
}

// The cells of a buffer of symbols.
pub fn map(bits: &[u8], cells: &mut [u8])
    requires { length cells.old ≡ length bits.now * 2 }
    ensures { cells.new ≡ to_cells qam16 bits.now }
{
    let table = symbol_cells();
    for (i, b) in bits.iter().enumerate() {
        cells[i * 2..i * 2 + 2].copy_from_slice(&table[usize::from(*b)].to_le_bytes());
    }
}

// The symbol of every legal cell, X before Y.
fn cell_symbols() -> [u8; 256]
    ensures { result ≡ cell_symbols }
{
    array::from_fn(|k| byte_of((k / 16) as u8, (k % 16) as u8))
}

// The symbols of a buffer of legal cells.
pub fn demap(cells: &[u8], bits: &mut [u8])
    requires { (length cells.now ≡ length bits.old * 2) × Legal (payload_rule qam16) cells.now }
    ensures { bits.new ≡ to_bits qam16 cells.now }
{
    let table = cell_symbols();
    for (i, b) in bits.iter_mut().enumerate() {
        let (x, y) = (cells[i * 2], cells[i * 2 + 1]);
        *b = table[usize::from(x * 16 + y)];
    }
}
