// The files that are read: the line file, for its overhead list, and the capture, for its frames.
ghost use Rattle.std.specs.Prelude.{◌≡◌, ◌≤◌};

use crate::failure::Failure;
use crate::say;
use calls::Refusal;
use files::{Input, Said};
use line_file_spec::Header;
use std::fs::OpenFile;
use std::io::{Read, Seek, SeekFrom};
use std::rt::{Env, Files};

// Their arguments.
pub const LINE: usize = 1;

pub const CAPTURE: usize = 2;

// An open file with its header.
#[derive(Drop)]
pub struct Headed<F> {
    pub input: Input<F>,
    pub header: Header,
    ghost few: { header.superframes ≤ 64 },
}

// Both, which have as many super-frames.
#[derive(Drop)]
pub struct Inputs<F> {
    pub line: Headed<F>,
    pub capture: Headed<F>,
}

// Judges the header of an open file; or says why it is refused.
fn judge<R: Env + Eprint, F: Read + Seek + OpenFile + Drop>(
    rt: &R,
    mut input: Input<F>,
) -> Result<Headed<F>, Refusal> {
    let size = input.size();
    let mut first = [0u8; 16];
    let _ = input.file.read_exact(&mut first);
    match header_core::rules::judge(&first, size) {
        Ok(header) => Ok(Headed { input, header }),
        Err(refusal) => {
            say::header(rt, &input, &first, size);
            Err(refusal)
        }
    }
}

// Opens both files; or says of the first that cannot be opened, or whose header is refused, why, or that they do not fit together.
pub fn open<R: Files + Env + Eprint>(rt: &R) -> Result<Inputs<R::File>, Failure> {
    let line = judge(rt, files::open(rt, LINE)?)?;
    let capture = judge(rt, files::open(rt, CAPTURE)?)?;
    if line.header.superframes != capture.header.superframes {
        say::unequal(rt, line.header.superframes, capture.header.superframes);
        return Err(Failure::Unequal);
    }
    Ok(Inputs { line, capture })
}

// Goes to a place of an open file.
fn seek<F: Seek>(file: &mut F, offset: u32) {
    let _ = file.seek(SeekFrom::Start(u64::from(offset)));
}

// Reads the overhead list of the line file; or says that the file has not all of it.
pub fn read_list<R: Env + Eprint, F: Read + Seek + OpenFile + Drop>(
    rt: &R,
    line: &mut Headed<F>,
    list: &mut [u8; 12288],
) -> Result<(), Said> {
    seek(&mut line.input.file, line.header.overhead);
    line.input.read(rt, list, "it ended early")
}

// Goes to the frames of the capture.
pub fn seek_frames<F: Seek>(capture: &mut Headed<F>)
    ensures { capture.new.header.superframes ≡ capture.old.header.superframes }
{
    seek(&mut capture.input.file, capture.header.frames);
}

// Reads the next super-frame of the capture; or says that the file has not all of it.
pub fn read_frames<R: Env + Eprint, F: Read + Seek + OpenFile + Drop>(
    rt: &R,
    capture: &mut Headed<F>,
    frames: &mut [u8; 356352],
) -> Result<(), Said> {
    capture.input.read(rt, frames, "it ended early")
}
