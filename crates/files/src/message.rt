// Lines on standard error: why a program refuses, which begins with the name of the file, and how far it is. What standard error does not
// take is lost.
use calls::Refusal;
use filenames::Name;
use filestatus::is_regular;
use std::fmt::Display;
use std::fs::OpenFile;
use std::io;
use std::rt::Env;

// That something failed, and why was said.
#[derive(Clone, Copy)]
pub struct Said(());

// A file that cannot be opened, read or written, or has the wrong size, is a misfit.
impl From<Said> for Refusal {
    fn from(_said: Said) -> Refusal {
        Refusal::Misfit
    }
}

pub fn text<R: Eprint>(rt: &R, words: &[u8]) {
    report::words(rt, words);
}

pub fn number<R: Eprint>(rt: &R, n: usize) {
    let _ = rt.eprint(n);
}

// Ends a line.
pub fn end<R: Eprint>(rt: &R) -> Said {
    text(rt, b"\n");
    Said(())
}

// A whole line that begins with this name.
pub fn of<R: Eprint>(rt: &R, name: &[u8], words: &[u8]) -> Said {
    text(rt, name);
    text(rt, b": ");
    text(rt, words);
    end(rt)
}

// Why the system refused a call on the file of this name.
pub fn fail<R: Eprint>(rt: &R, name: &[u8], error: io::Error) -> Said {
    report::fail(rt, name, error);
    Said(())
}

// Begins a line with the name that an argument gives, or with the argument's number where it gives none. It is not inlined, so that the name
// is off the stack of what calls it.
#[inline(never)]
pub fn begin<R: Env + Eprint>(rt: &R, argument: usize) {
    let name = Name::of_argument(rt, argument).unwrap_or(Name::new());
    if name.as_bytes().is_empty() {
        text(rt, b"argument ");
        number(rt, argument);
    }
    text(rt, name.as_bytes());
    text(rt, b": ");
}

// A whole line.
pub fn line<R: Env + Eprint>(rt: &R, argument: usize, words: &[u8]) -> Said {
    begin(rt, argument);
    text(rt, words);
    end(rt)
}

// A whole line of what can be shown as text.
pub fn line_of<R: Env + Eprint, D: Display + Drop>(rt: &R, argument: usize, words: D) -> Said {
    begin(rt, argument);
    let _ = rt.eprint(words);
    end(rt)
}

// A whole line that ends with a number.
pub fn line_with<R: Env + Eprint>(rt: &R, argument: usize, words: &[u8], n: usize) -> Said {
    begin(rt, argument);
    text(rt, words);
    number(rt, n);
    end(rt)
}

// How many super-frames are done, of how many.
pub fn progress<R: Eprint>(rt: &R, done: u32, of: u32) {
    let _ = eprintln!(rt; "super-frame {done} of {of}");
}

// A file has the wrong size, or is none that has a size.
pub fn size<R: Env + Eprint, F: OpenFile>(
    rt: &R,
    argument: usize,
    file: &F,
    bytes: usize,
    expected: &[u8],
    n: usize,
) -> Said {
    if !is_regular(file) {
        return line(rt, argument, b"not a regular file");
    }
    begin(rt, argument);
    number(rt, bytes);
    text(rt, b" bytes, expected ");
    text(rt, expected);
    number(rt, n);
    end(rt)
}
