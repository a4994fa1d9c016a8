// The library for C and Rust: one function for each entry point, over the crates of calls (`word`, `encoder`, `receiver`, `interleaver`,
// `cells`, `frame`, `line_file`). `capi_c` exports each under the same name, buffers as pointer and length. See include/ofec.h.
#![tactic(auto)]

ghost use Rattle.std.specs.Prelude.{◌≡◌};
ghost use Rattle.word_spec.specs.Calls.{repair_call};
ghost use Rattle.pair_spec.specs.Calls.{encode_buffers, encode_call, receive_buffers, receive_call};
ghost use Rattle.interleaver_spec.specs.Calls.{interleave_call, pair_buffers, deinterleave_call};
ghost use Rattle.cells_spec.specs.Calls.{map_call, demap_call};
ghost use Rattle.profiles_spec.specs.Profiles.{qam16, qpsk};
ghost use Rattle.frame_spec.specs.Calls.{frame_call, unframe_call};
ghost use Rattle.line_file_spec.specs.Opening.{header_of};
ghost use Rattle.line_file_spec.specs.Reading.{read_refusal};
ghost use Rattle.line_file_spec.specs.Writing.{write_call};
ghost use Rattle.capi.specs.Outcomes.{outcome_of, flag, line_of, stretch_of};
ghost use Rattle.capi.specs.Exports.{exported, in_numbers};

use calls::Answer;
use profile::Profile;

// What an exported call answers: the refusal's number or 0, the call's own number, and the index of refusal 5. C has no `Result`, so that
// this and `Line` are numbers side by side, as include/ofec.h declares them.
#[repr(C)]
#[derive(Clone, Copy)]
pub struct Outcome {
    pub refusal: u32,
    pub value: u32,
    pub index: u64,
}

// What opening a line file answers: the refusal's number or 0, and the header's numbers.
#[repr(C)]
#[derive(Clone, Copy)]
pub struct Line {
    pub refusal: u32,
    pub superframes: u32,
    pub overhead: u32,
    pub frames: u32,
}

// An answer in numbers; `refused` is the value that a refused call gives.
fn outcome_of(a: Answer, refused: u32) -> Outcome
    ensures { result ≡ outcome_of a refused }
{
    Outcome {
        refusal: calls::refusal_of(a),
        value: a.unwrap_or(refused),
        index: calls::index_of(a) as u64,
    }
}

// Repairs a word of 32 bytes in place; front 0: flips may fall in the back half only. value: flips 0 to 2, or 3 for lost.
pub fn ofec_repair_word(word: &mut [u8], front: u32) -> Outcome
    ensures { exported result word.new ≡ in_numbers 0 (repair_call word.old (flag front)) }
{
    outcome_of(word::repair_word(word, front != 0), 0)
}

// Encodes a pair. value: the next pair number, or the one lent in a refusal.
pub fn ofec_encode_pair(
    payload: &[u8],
    coded: &mut [u8],
    history: &mut [u8],
    encoder: u32,
    pair: u32,
) -> Outcome
    ensures { exported result (encode_buffers coded.new history.new) ≡ in_numbers pair (encode_call payload.now coded.old history.old encoder pair) }
{
    let encoded = encoder::encode_pair(payload, coded, history, encoder, pair);
    outcome_of(encoded, pair)
}

// Receives a pair. value: the next pair number, or the one lent in a refusal.
pub fn ofec_receive_pair(
    coded: &[u8],
    payload: &mut [u8],
    marks: &mut [u8],
    history: &mut [u8],
    encoder: u32,
    pair: u32,
) -> Outcome
    ensures { exported result (receive_buffers payload.new marks.new history.new) ≡ in_numbers pair (receive_call coded.now payload.old marks.old history.old encoder pair) }
{
    let received = receiver::receive_pair(coded, payload, marks, history, encoder, pair);
    outcome_of(received, pair)
}

// Interleaves a buffer: 21 pairs of each encoder.
pub fn ofec_interleave(pairs0: &[u8], pairs1: &[u8], bits: &mut [u8]) -> Outcome
    ensures { exported result bits.new ≡ in_numbers 0 (interleave_call pairs0.now pairs1.now bits.old) }
{
    outcome_of(interleaver::interleave(pairs0, pairs1, bits), 0)
}

// Takes a buffer apart.
pub fn ofec_deinterleave(bits: &[u8], pairs0: &mut [u8], pairs1: &mut [u8]) -> Outcome
    ensures { exported result (pair_buffers pairs0.new pairs1.new) ≡ in_numbers 0 (deinterleave_call bits.now pairs0.old pairs1.old) }
{
    outcome_of(interleaver::deinterleave(bits, pairs0, pairs1), 0)
}

// Maps a buffer's bits to cells.
pub fn ofec_bits_to_cells(bits: &[u8], cells: &mut [u8]) -> Outcome
    ensures { exported result cells.new ≡ in_numbers 0 (map_call qam16 bits.now cells.old) }
{
    outcome_of(cells::bits_to_cells(Profile::Qam16, bits, cells), 0)
}

// Maps a buffer's cells back to bits.
pub fn ofec_cells_to_bits(cells: &[u8], bits: &mut [u8]) -> Outcome
    ensures { exported result bits.new ≡ in_numbers 0 (demap_call qam16 cells.now bits.old) }
{
    outcome_of(cells::cells_to_bits(Profile::Qam16, cells, bits), 0)
}

// Frames a sub-frame.
pub fn ofec_frame(number: u32, payload: &[u8], overhead: &[u8], frame: &mut [u8]) -> Outcome
    ensures { exported result frame.new ≡ in_numbers 0 (frame_call qam16 number payload.now overhead.now frame.old) }
{
    outcome_of(
        frame::frame(Profile::Qam16, number, payload, overhead, frame),
        0,
    )
}

// Unframes a sub-frame. value: the number of overhead cells that differ from the lent list.
pub fn ofec_unframe(number: u32, frame: &[u8], overhead: &[u8], payload: &mut [u8]) -> Outcome
    ensures { exported result payload.new ≡ in_numbers 0 (unframe_call qam16 number frame.now overhead.now payload.old) }
{
    outcome_of(
        frame::unframe(Profile::Qam16, number, frame, overhead, payload),
        0,
    )
}

// The same four for QPSK. They differ from the others in the profile alone: the C interface has a name for each.

// Maps a buffer's bits to the cells of QPSK.
pub fn ofec_bits_to_cells_qpsk(bits: &[u8], cells: &mut [u8]) -> Outcome
    ensures { exported result cells.new ≡ in_numbers 0 (map_call qpsk bits.now cells.old) }
{
    outcome_of(cells::bits_to_cells(Profile::Qpsk, bits, cells), 0)
}

// Maps a buffer's cells of QPSK back to bits.
pub fn ofec_cells_to_bits_qpsk(cells: &[u8], bits: &mut [u8]) -> Outcome
    ensures { exported result bits.new ≡ in_numbers 0 (demap_call qpsk cells.now bits.old) }
{
    outcome_of(cells::cells_to_bits(Profile::Qpsk, cells, bits), 0)
}

// Frames a sub-frame of QPSK.
pub fn ofec_frame_qpsk(number: u32, payload: &[u8], overhead: &[u8], frame: &mut [u8]) -> Outcome
    ensures { exported result frame.new ≡ in_numbers 0 (frame_call qpsk number payload.now overhead.now frame.old) }
{
    outcome_of(
        frame::frame(Profile::Qpsk, number, payload, overhead, frame),
        0,
    )
}

// Unframes a sub-frame of QPSK. value: the number of overhead cells that differ from the lent list.
pub fn ofec_unframe_qpsk(number: u32, frame: &[u8], overhead: &[u8], payload: &mut [u8]) -> Outcome
    ensures { exported result payload.new ≡ in_numbers 0 (unframe_call qpsk number frame.now overhead.now payload.old) }
{
    outcome_of(
        frame::unframe(Profile::Qpsk, number, frame, overhead, payload),
        0,
    )
}

// Opens a line file: its header's numbers, or zeros in a refusal.
pub fn ofec_open_line(file: &[u8]) -> Line
    ensures { result ≡ line_of (header_of file.now) }
{
    match line_file::open_header(file) {
        Ok(header) => Line {
            refusal: 0,
            superframes: header.superframes,
            overhead: header.overhead,
            frames: header.frames,
        },
        Err(_) => Line {
            refusal: line_file::open_refusal(file),
            superframes: 0,
            overhead: 0,
            frames: 0,
        },
    }
}

// Where a sub-frame of an open line file stands. index: where its stretch starts; value: the length of the part that the reader hands
// back, 7,424 bytes; both 0 in a refusal.
pub fn ofec_read_line(
    file: &[u8],
    superframes: u32,
    overhead: u32,
    frames: u32,
    superframe: u32,
    subframe: u32,
) -> Outcome
    ensures { result ≡ stretch_of (read_refusal file.now superframes overhead frames superframe subframe) frames superframe subframe }
{
    let n = line_file::read_refusal_at(file, superframes, overhead, frames, superframe, subframe);
    if n != 0 {
        return Outcome {
            refusal: n,
            value: 0,
            index: 0,
        };
    }
    let part = line_file::read_at(file, superframes, overhead, frames, superframe, subframe);
    Outcome {
        refusal: 0,
        value: part.len() as u32,
        index: line_file::start(frames, superframe, subframe) as u64,
    }
}

// Writes a line file's header of 16 bytes.
pub fn ofec_write_header(superframes: u32, header: &mut [u8]) -> Outcome
    ensures { exported result header.new ≡ in_numbers 0 (write_call superframes header.old) }
{
    outcome_of(line_file::write_header(superframes, header), 0)
}
