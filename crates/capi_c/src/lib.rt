// The exports: each function of `capi` under the same name for C and Rust, buffers as pointer and length, with the same contract. See
// include/ofec.h. The library is built from this crate, since a crate that C links is used by no other. The functions of the two profiles
// differ in the profile alone: the C interface has a name for each.
#![tactic(auto)]

ghost use Rattle.std.specs.Prelude.{◌≡◌};
ghost use Rattle.word_spec.specs.Calls.{repair_call};
ghost use Rattle.pair_spec.specs.Calls.{encode_buffers, encode_call, receive_buffers, receive_call};
ghost use Rattle.interleaver_spec.specs.Calls.{interleave_call, pair_buffers, deinterleave_call};
ghost use Rattle.cells_spec.specs.Calls.{map_call, demap_call};
ghost use Rattle.profiles_spec.specs.Profiles.{qam16, qpsk};
ghost use Rattle.frame_spec.specs.Calls.{frame_call, unframe_call};
ghost use Rattle.line_file_spec.specs.Opening.{header_of};
ghost use Rattle.line_file_spec.specs.Reading.{read_refusal};
ghost use Rattle.line_file_spec.specs.Writing.{write_call};
ghost use Rattle.capi.specs.Outcomes.{flag, line_of, stretch_of};
ghost use Rattle.capi.specs.Exports.{exported, in_numbers};

use capi::{Line, Outcome};

// Repairs a word of 32 bytes in place; front 0: flips may fall in the back half only. value: flips 0 to 2, or 3 for lost.
#[unsafe(no_mangle)]
pub extern "C" fn ofec_repair_word(word: &mut [u8], front: u32) -> Outcome
    ensures { exported result word.new ≡ in_numbers 0 (repair_call word.old (flag front)) }
{
    capi::ofec_repair_word(word, front)
}

// Encodes a pair. value: the next pair number, or the one lent in a refusal.
#[unsafe(no_mangle)]
pub extern "C" fn ofec_encode_pair(
    payload: &[u8],
    coded: &mut [u8],
    history: &mut [u8],
    encoder: u32,
    pair: u32,
) -> Outcome
    ensures { exported result (encode_buffers coded.new history.new) ≡ in_numbers pair (encode_call payload.now coded.old history.old encoder pair) }
{
    capi::ofec_encode_pair(payload, coded, history, encoder, pair)
}

// Receives a pair. value: the next pair number, or the one lent in a refusal.
#[unsafe(no_mangle)]
pub extern "C" fn ofec_receive_pair(
    coded: &[u8],
    payload: &mut [u8],
    marks: &mut [u8],
    history: &mut [u8],
    encoder: u32,
    pair: u32,
) -> Outcome
    ensures { exported result (receive_buffers payload.new marks.new history.new) ≡ in_numbers pair (receive_call coded.now payload.old marks.old history.old encoder pair) }
{
    capi::ofec_receive_pair(coded, payload, marks, history, encoder, pair)
}

// Interleaves a buffer: 21 pairs of each encoder.
#[unsafe(no_mangle)]
pub extern "C" fn ofec_interleave(pairs0: &[u8], pairs1: &[u8], bits: &mut [u8]) -> Outcome
    ensures { exported result bits.new ≡ in_numbers 0 (interleave_call pairs0.now pairs1.now bits.old) }
{
    capi::ofec_interleave(pairs0, pairs1, bits)
}

// Takes a buffer apart.
#[unsafe(no_mangle)]
pub extern "C" fn ofec_deinterleave(bits: &[u8], pairs0: &mut [u8], pairs1: &mut [u8]) -> Outcome
    ensures { exported result (pair_buffers pairs0.new pairs1.new) ≡ in_numbers 0 (deinterleave_call bits.now pairs0.old pairs1.old) }
{
    capi::ofec_deinterleave(bits, pairs0, pairs1)
}

// Maps a buffer's bits to cells.
#[unsafe(no_mangle)]
pub extern "C" fn ofec_bits_to_cells(bits: &[u8], cells: &mut [u8]) -> Outcome
    ensures { exported result cells.new ≡ in_numbers 0 (map_call qam16 bits.now cells.old) }
{
    capi::ofec_bits_to_cells(bits, cells)
}

// Maps a buffer's cells back to bits.
#[unsafe(no_mangle)]
pub extern "C" fn ofec_cells_to_bits(cells: &[u8], bits: &mut [u8]) -> Outcome
    ensures { exported result bits.new ≡ in_numbers 0 (demap_call qam16 cells.now bits.old) }
{
    capi::ofec_cells_to_bits(cells, bits)
}

// Frames a sub-frame.
#[unsafe(no_mangle)]
pub extern "C" fn ofec_frame(
    number: u32,
    payload: &[u8],
    overhead: &[u8],
    frame: &mut [u8],
) -> Outcome
    ensures { exported result frame.new ≡ in_numbers 0 (frame_call qam16 number payload.now overhead.now frame.old) }
{
    capi::ofec_frame(number, payload, overhead, frame)
}

// Unframes a sub-frame. value: the number of overhead cells that differ from the lent list.
#[unsafe(no_mangle)]
pub extern "C" fn ofec_unframe(
    number: u32,
    frame: &[u8],
    overhead: &[u8],
    payload: &mut [u8],
) -> Outcome
    ensures { exported result payload.new ≡ in_numbers 0 (unframe_call qam16 number frame.now overhead.now payload.old) }
{
    capi::ofec_unframe(number, frame, overhead, payload)
}

// Maps a buffer's bits to the cells of QPSK.
#[unsafe(no_mangle)]
pub extern "C" fn ofec_bits_to_cells_qpsk(bits: &[u8], cells: &mut [u8]) -> Outcome
    ensures { exported result cells.new ≡ in_numbers 0 (map_call qpsk bits.now cells.old) }
{
    capi::ofec_bits_to_cells_qpsk(bits, cells)
}

// Maps a buffer's cells of QPSK back to bits.
#[unsafe(no_mangle)]
pub extern "C" fn ofec_cells_to_bits_qpsk(cells: &[u8], bits: &mut [u8]) -> Outcome
    ensures { exported result bits.new ≡ in_numbers 0 (demap_call qpsk cells.now bits.old) }
{
    capi::ofec_cells_to_bits_qpsk(cells, bits)
}

// Frames a sub-frame of QPSK.
#[unsafe(no_mangle)]
pub extern "C" fn ofec_frame_qpsk(
    number: u32,
    payload: &[u8],
    overhead: &[u8],
    frame: &mut [u8],
) -> Outcome
    ensures { exported result frame.new ≡ in_numbers 0 (frame_call qpsk number payload.now overhead.now frame.old) }
{
    capi::ofec_frame_qpsk(number, payload, overhead, frame)
}

// Unframes a sub-frame of QPSK. value: the number of overhead cells that differ from the lent list.
#[unsafe(no_mangle)]
pub extern "C" fn ofec_unframe_qpsk(
    number: u32,
    frame: &[u8],
    overhead: &[u8],
    payload: &mut [u8],
) -> Outcome
    ensures { exported result payload.new ≡ in_numbers 0 (unframe_call qpsk number frame.now overhead.now payload.old) }
{
    capi::ofec_unframe_qpsk(number, frame, overhead, payload)
}

// Opens a line file: its header's numbers, or zeros in a refusal.
#[unsafe(no_mangle)]
pub extern "C" fn ofec_open_line(file: &[u8]) -> Line
    ensures { result ≡ line_of (header_of file.now) }
{
    capi::ofec_open_line(file)
}

// Where a sub-frame of an open line file stands. index: where its stretch starts; value: the length of the part that the reader hands
// back, 7,424 bytes; both 0 in a refusal.
#[unsafe(no_mangle)]
pub extern "C" fn ofec_read_line(
    file: &[u8],
    superframes: u32,
    overhead: u32,
    frames: u32,
    superframe: u32,
    subframe: u32,
) -> Outcome
    ensures { result ≡ stretch_of (read_refusal file.now superframes overhead frames superframe subframe) frames superframe subframe }
{
    capi::ofec_read_line(file, superframes, overhead, frames, superframe, subframe)
}

// Writes a line file's header of 16 bytes.
#[unsafe(no_mangle)]
pub extern "C" fn ofec_write_header(superframes: u32, header: &mut [u8]) -> Outcome
    ensures { exported result header.new ≡ in_numbers 0 (write_call superframes header.old) }
{
    capi::ofec_write_header(superframes, header)
}
