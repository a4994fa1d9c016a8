// Reading a sub-frame of a file whose header numbers are given.
ghost use Rattle.std.specs.Prelude.{◌≡◌, ◌+◌, ◌≤◌, length, take, drop};
ghost use Rattle.line_file_spec.specs.Reading.{start_of, read_answer, read_refusal, read_part};

use calls::{Answer, Refusal};
use opening_core::open_header;

// Where a sub-frame's stretch of the file starts: 7,424 bytes a sub-frame, 48 of these a super-frame.
pub fn start(frames: u32, superframe: u32, subframe: u32) -> usize
    ensures { result ≡ start_of frames superframe subframe }
{
    frames as usize + 356352 * superframe as usize + 7424 * subframe as usize
}

// What the reader answers: done, or the refusal. An open file's numbers come one by one, here and below, as the C interface lends them.
pub fn read_answer(
    file: &[u8],
    superframes: u32,
    overhead: u32,
    frames: u32,
    superframe: u32,
    subframe: u32,
) -> Answer
    ensures { result ≡ read_answer file.now superframes overhead frames superframe subframe }
{
    let header = open_header(file)?;
    if superframes != header.superframes {
        return Err(Refusal::BadHeader);
    }
    if overhead != header.overhead {
        return Err(Refusal::BadHeader);
    }
    if frames != header.frames {
        return Err(Refusal::BadHeader);
    }
    if 47 < subframe {
        return Err(Refusal::NoSuchFrame);
    }
    if superframes <= superframe {
        return Err(Refusal::NoSuchFrame);
    }
    Ok(0)
}

// The reader's companion: the refusal number, or 0.
pub fn read_refusal_at(
    file: &[u8],
    superframes: u32,
    overhead: u32,
    frames: u32,
    superframe: u32,
    subframe: u32,
) -> u32
    ensures { result ≡ read_refusal file.now superframes overhead frames superframe subframe }
{
    calls::refusal_of(read_answer(file, superframes, overhead, frames, superframe, subframe))
}

// A sub-frame's bytes from there on.
fn stretch(file: &[u8], at: usize) -> &[u8]
    requires { at + 7424 ≤ length file.now }
    ensures { result.now ≡ take 7424 (drop at file.now) }
{
    &file[at..at + 7424]
}

// The reader: the sub-frame's own stretch of the lent file, or the empty part where it is refused.
pub fn read_at(
    file: &[u8],
    superframes: u32,
    overhead: u32,
    frames: u32,
    superframe: u32,
    subframe: u32,
) -> &[u8]
    ensures { result.now ≡ read_part file.now superframes overhead frames superframe subframe }
{
    match read_answer(file, superframes, overhead, frames, superframe, subframe) {
        Ok(_) => stretch(file, start(frames, superframe, subframe)),
        Err(_) => &file[..0],
    }
}
