// The line file of one super-frame, 368,656 bytes: header at byte 0, overhead list at 16, frames at 12,304. Frames are written to it and
// read from it.
ghost use Rattle.std.specs.Prelude.{◌≡◌, length, drop};
ghost use Rattle.line_file_spec.specs.Opening.{open_call};
ghost use Rattle.line_file_spec.specs.Reading.{read_refusal_in, read_part_in};
ghost use Rattle.loopback_core.specs.File.{line_file, OneSuperframe, frames_in, taken_when};

use bits::parts::fill_parts;

// The whole file, its overhead list and its frames.
type File = [u8; 368656];

pub type OverheadList = [u8; 12288];

pub type Frames = [u8; 356352];

// Writes header and overhead list.
fn begin(list: &OverheadList, file: &mut File)
    ensures { file.new ≡ line_file list.now (drop 12304 file.old) }
{
    file[16..12304].copy_from_slice(list);
    let _ = line_file::write_header(1, &mut file[0..16]);
}

// Writes the whole file.
fn write(list: &OverheadList, frames: &Frames, file: &mut File)
    ensures { file.new ≡ line_file list.now frames.now }
{
    file[12304..].copy_from_slice(frames);
    begin(list, file);
}

// Reads sub-frame s of super-frame 0, if it is not refused.
fn read_frame(file: &[u8], s: u32, frame: &mut [u8])
    requires { length frame.old ≡ 7424 }
    ensures { frame.new ≡ taken_when (read_refusal_in (open_call file.now) 0 s) (read_part_in (open_call file.now) 0 s) frame.old }
{
    // By the companion's number, 0 for none: `read_refusal_in`, by which it is defined, is that of the C interface.
    if line_file::refusal_of_frame(file, 0, s) == 0 {
        frame.copy_from_slice(line_file::frame_of(file, 0, s));
    }
}

// Reads the frames, sub-frame by sub-frame.
fn read_frames(file: &File, frames: &mut Frames)
    requires { OneSuperframe file.now }
    ensures { frames.new ≡ frames_in file.now }
{
    fill_parts(frames, 7424, |s, frame| read_frame(file, s as u32, frame));
}

// Writes frames to a file and reads them from it: they are what they were.
#[inline(never)]
pub fn pass(list: &OverheadList, frames: &mut Frames)
    ensures { frames.new ≡ frames.old }
{
    let mut file = [0; 368656];
    write(list, frames, &mut file);
    read_frames(&file, frames);
}
