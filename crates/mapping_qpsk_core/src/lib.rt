// Workers for QPSK: a byte's two symbols to their cells and back, and the same for buffers of any number of bytes. Over `levels_core`,
// by the definitions of `cells_spec`; `mapping_core` has 16-QAM and either profile.
#![tactic(auto)]

ghost use Rattle.std.specs.Prelude.{◌≡◌, ◌*◌, ◌<◌, length};
ghost use Rattle.bits.specs.Lists.{tabulate};
ghost use Rattle.cells_spec.specs.Cells.{payload_rule, Legal, to_cells, to_bits};
ghost use Rattle.cells_spec.specs.Qpsk.{cell_byte};
ghost use Rattle.cells_spec.specs.QpskLaws.{symbol_of_cell};
ghost use Rattle.cells_spec.specs.QpskBytes.{quarter};
ghost use Rattle.profiles_spec.specs.Profiles.{qpsk};

use levels_core::{bit_level, rails};

// The X byte of a symbol's cell.
fn x_byte(s: u8) -> u8
    ensures { result ≡ cell_byte s 0 }
{
    rails(bit_level(s / 8 % 2), bit_level(s / 2 % 2))
}

// The Y byte.
fn y_byte(s: u8) -> u8
    ensures { result ≡ cell_byte s 1 }
{
    rails(bit_level(s / 4 % 2), bit_level(s % 2))
}

// The four bytes of a byte's cells: its upper half is its first symbol, its lower half the second.
fn quarters(b: u8) -> [u8; 4]
    ensures { result ≡ tabulate 4 (quarter b) }
{
    let (upper, lower) = (b / 16, b % 16);
    [x_byte(upper), y_byte(upper), x_byte(lower), y_byte(lower)]
}

// The cells of a buffer of bits.
pub fn map(bits: &[u8], cells: &mut [u8])
    requires { length cells.old ≡ length bits.now * 4 }
    ensures { cells.new ≡ to_cells qpsk bits.now }
{
    // By index: with `cells[i * 4..i * 4 + 4].copy_from_slice(..)` the compiled loop takes four times as long, and what std's chunk iterator
    // lends out leaves a proof with nothing about the buffer.
    for (i, b) in bits.iter().enumerate() {
        let [upper_x, upper_y, lower_x, lower_y] = quarters(*b);
        cells[i * 4] = upper_x;
        cells[i * 4 + 1] = upper_y;
        cells[i * 4 + 2] = lower_x;
        cells[i * 4 + 3] = lower_y;
    }
}

// The symbol of a legal cell.
fn symbol_of(x: u8, y: u8) -> u8
    requires { (x < 16) × (y < 16) }
    ensures { (result ≡ symbol_of_cell x y) × (result < 16) }
{
    x / 8 * 8 + y / 8 * 4 + x % 4 / 2 * 2 + y % 4 / 2
}

// The bits of a buffer of legal cells.
pub fn demap(cells: &[u8], bits: &mut [u8])
    requires { (length cells.now ≡ length bits.old * 4) × Legal (payload_rule qpsk) cells.now }
    ensures { bits.new ≡ to_bits qpsk cells.now }
{
    for (i, b) in bits.iter_mut().enumerate() {
        let upper = symbol_of(cells[i * 4], cells[i * 4 + 1]);
        let lower = symbol_of(cells[i * 4 + 2], cells[i * 4 + 3]);
        *b = upper * 16 + lower;
    }
}
