// What is said on standard error, in one line each.
use crate::inputs::{CAPTURE, LINE};
use files::{Input, Name, message};
use profile::Profile;
use std::fs::OpenFile;
use std::rt::Env;

// Two files whose numbers of super-frames differ.
pub fn unequal<R: Env + Eprint>(rt: &R, line: u32, capture: u32) {
    message::begin(rt, LINE);
    message::number(rt, line as usize);
    message::text(rt, b" super-frames, ");
    message::line_of(rt, CAPTURE, capture);
}

// The illegal byte of the list, by its index in the line file.
pub fn illegal<R: Env + Eprint>(rt: &R, index: usize) {
    message::line_with(rt, LINE, b"a byte of 16 or more at index ", index);
}

// The illegal byte of the capture's frames: of 16 or more, or, in QPSK, a payload cell's that the profile has not.
pub fn illegal_cell<R: Env + Eprint>(rt: &R, profile: Profile, index: usize) {
    let what = match profile {
        Profile::Qam16 => "a byte of 16 or more at index ",
        Profile::Qpsk => "not a cell of the profile at index ",
    };
    message::line_with(rt, CAPTURE, what.as_bytes(), index);
}

// Why the header of an open file is refused.
pub fn header<R: Env + Eprint, F: OpenFile>(
    rt: &R,
    input: &Input<F>,
    first: &[u8; 16],
    size: usize,
) {
    if !files::is_regular(&input.file) {
        message::line(rt, input.argument, b"not a regular file");
        return;
    }
    let name = Name::of_argument(rt, input.argument).unwrap_or(Name::new());
    report::explain_header(rt, name.as_bytes(), first, size);
}
