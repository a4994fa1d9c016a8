// An open line file as one thing: the lent file with its header numbers. Each function takes it apart, or puts it together,
// and leaves the work to one with plain parameters.
ghost use Rattle.std.specs.Prelude.{◌≡◌};
ghost use Rattle.line_file_spec.specs.Opening.{open_file, open_call};
ghost use Rattle.line_file_spec.specs.Reading.{read_refusal_in, read_part_in};

use line_file_core::reading::{read_at, read_refusal_at};
use opening_core::open_header;

#[derive(Clone, Copy)]
pub struct LineFile<'a> {
    pub file: &'a [u8],
    pub superframes: u32,
    pub overhead: u32,
    pub frames: u32,
}

// Opens a lent file. `open_refusal` is its companion.
pub fn open<'a>(file: &'a [u8]) -> LineFile<'a>
    ensures { open_file result.file.now result.superframes result.overhead result.frames ≡ open_call file.now }
{
    match open_header(file) {
        Ok(header) => LineFile {
            file,
            superframes: header.superframes,
            overhead: header.overhead,
            frames: header.frames,
        },
        Err(_) => LineFile {
            file: &file[..0],
            superframes: 0,
            overhead: 0,
            frames: 0,
        },
    }
}

// The reader.
pub fn read<'a>(line: LineFile<'a>, superframe: u32, subframe: u32) -> &'a [u8]
    ensures { result.now ≡ read_part_in (open_file line.entry.file.now line.entry.superframes line.entry.overhead line.entry.frames) superframe subframe }
{
    read_at(
        line.file,
        line.superframes,
        line.overhead,
        line.frames,
        superframe,
        subframe,
    )
}

// The reader's companion: the refusal number, or 0.
pub fn read_refusal<'a>(line: LineFile<'a>, superframe: u32, subframe: u32) -> u32
    ensures { result ≡ read_refusal_in (open_file line.entry.file.now line.entry.superframes line.entry.overhead line.entry.frames) superframe subframe }
{
    read_refusal_at(
        line.file,
        line.superframes,
        line.overhead,
        line.frames,
        superframe,
        subframe,
    )
}

// A lent file opened and read: the sub-frame's own stretch of it, or the empty part where either is refused.
pub fn frame_of<'a>(file: &'a [u8], superframe: u32, subframe: u32) -> &'a [u8]
    ensures { result.now ≡ read_part_in (open_call file.now) superframe subframe }
{
    read(open(file), superframe, subframe)
}

// Its companion: the refusal number, or 0.
pub fn refusal_of_frame<'a>(file: &'a [u8], superframe: u32, subframe: u32) -> u32
    ensures { result ≡ read_refusal_in (open_call file.now) superframe subframe }
{
    read_refusal(open(file), superframe, subframe)
}
