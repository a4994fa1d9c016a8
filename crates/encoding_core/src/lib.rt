// Workers: a pair encoded by rows, given buffers that fit: payload into rows, syndromes gathered side by side, check bits from them, coded
// bytes. Over `payload_rows_core`, `syndromes_core`, `completing_core` and `permutation_core`; the call is in `encoder`.
#![tactic(auto)]

ghost use Rattle.std.specs.Prelude.{◌≡◌, ◌+◌, ◌*◌, ◌<◌, length};
ghost use Rattle.bits.specs.Lists.{tabulate};
ghost use Rattle.blocks.specs.Exchanges.{columns_exchanged};
ghost use Rattle.blocks.specs.SideBySide.{row_block};
ghost use Rattle.pair_spec.specs.Calls.{encode_buffers, encode_pair};
ghost use Rattle.pair_spec.specs.History.{depth};
ghost use Rattle.pair_words_core.specs.Shifting.{Moving};
ghost use Rattle.rows_core.specs.RowWords.{backs_in};
ghost use Rattle.encoding_core.specs.CodedPairs.{Checked, row_with, coded_byte};

use bits::parts::fill_parts;
use blocks::laying::laid_by;
use blocks::write_words;
use completing_core::{CheckBits, from_sums, row_checks};
use gathering_core::lanes;
use pair_words_core::history::move_part;
use payload_rows_core::put_rows;
use permutation_core::exchange_columns;
use std::array;
use syndromes_core::gather_row;

// What is gathered of the words of a pair before their completion, and from it their check bits. The history moves down meanwhile, in
// parts, once its pairs are read: the processor stores each part while it goes on with the next step.
fn check_words(history: &mut [u8], halves: &[u16; 256], pair: u32) -> CheckBits
    requires { length history.old ≡ 512 * depth }
    ensures { Checked history.old pair halves.now result.last result.own × Moving 512 history.old 0 4608 4608 history.new }
{
    let first = gather_row(history, halves, pair, 0);
    let second = gather_row(history, halves, pair, 1);
    move_part(history, 0, 1536);
    let sums = lanes::levels(&first.sums, &second.sums);
    move_part(history, 1536, 3072);
    let checks = from_sums(&sums, lanes::join(first.odd, second.odd));
    move_part(history, 3072, 4608);
    checks
}

// Block C of row s of the halves, with its check bits.
fn completed_block(halves: &[u16; 256], checks: &[u16; 128], s: usize, block: usize) -> [u16; 16]
    requires { (s < 2) × (block < 8) }
    ensures { result ≡ row_block (row_with checks.now halves.now s) block }
{
    array::from_fn(|r| halves[128 * s + 8 * r + block] ^ checks[8 * r + block])
}

// The words of row s of the coded pair: those of the halves with their check bits, their columns exchanged.
fn coded_words(halves: &[u16; 256], checks: &[u16; 128], s: usize) -> [u16; 128]
    requires { s < 2 }
    ensures { result ≡ backs_in (row_with checks.now halves.now s) }
{
    laid_by(
        |block| -> [u16; 16]
            requires { (s < 2) × (block < 8) }
            ensures { result ≡ columns_exchanged (row_block (row_with checks.entry.now halves.entry.now s) block) }
        { exchange_columns(completed_block(halves, checks, s, block)) },
    )
}

// Its bytes.
fn put_row(checks: &CheckBits, halves: &[u16; 256], s: usize, out: &mut [u8])
    requires { (s < 2) × (length out.old ≡ 256) }
    ensures { out.new ≡ tabulate 256 (λ j. coded_byte checks.now.last checks.now.own halves.now (s * 256 + j)) }
{
    let row = coded_words(halves, &row_checks(checks, s), s);
    write_words(&row, out);
}

// Both rows.
fn put_coded(checks: &CheckBits, halves: &[u16; 256], coded: &mut [u8])
    requires { length coded.old ≡ 512 }
    ensures { coded.new ≡ tabulate 512 (coded_byte checks.now.last checks.now.own halves.now) }
{
    fill_parts(coded, 256, |s, row| put_row(checks, halves, s, row));
}

// The coded pair, and its history.
pub fn encode_into(payload: &[u8], coded: &mut [u8], history: &mut [u8], pair: u32)
    requires { (length payload.now ≡ 444) × (length coded.old ≡ 512) × (length history.old ≡ 512 * depth) }
    ensures { encode_buffers coded.new history.new ≡ encode_pair history.old pair payload.now }
{
    let mut halves = [0u16; 256];
    put_rows(payload, &mut halves);
    let checks = check_words(history, &halves, pair);
    put_coded(&checks, &halves, coded);
    history[4608..5120].copy_from_slice(coded);
}
