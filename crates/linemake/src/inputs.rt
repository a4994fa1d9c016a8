// The files that are read. They stay open to the end, so that the line file's descriptor is none of the standard ones, even where
// the program was started without these.
ghost use Rattle.std.specs.Prelude.{◌<◌, ◌≤◌, IfOk};

use cells_core::sizes::pairs;
use files::{Input, Name, Said, message};
use profile::Profile;
use std::fs::OpenFile;
use std::io::{Read, Seek};
use std::rt::{Env, Files};

// The arguments.
pub const PAYLOAD0: usize = 1;

pub const PAYLOAD1: usize = 2;

pub const OVERHEAD: usize = 3;

pub const LINE: usize = 4;

// The last argument, where there is one.
pub const PROFILE: usize = 5;

// The bytes of a pair's payload.
const PAIR: usize = 444;

// The bytes of the overhead list.
const LIST: usize = 12288;

// The most super-frames of a line file.
const MOST: usize = 64;

// The payload files of both encoders, and the overhead list. The payload files stand in no array: the proof of its drop would need the size
// of a file.
#[derive(Drop)]
pub struct Inputs<F> {
    pub payload0: Input<F>,
    pub payload1: Input<F>,
    pub overhead: Input<F>,
}

// The bytes of a payload file for a super-frame.
fn payload_bytes(profile: Profile) -> usize
    ensures { 0 < result }
{
    pairs(profile) * PAIR
}

// Opens the files, or says of the first that it cannot open why.
pub fn open<R: Files + Env + Eprint>(rt: &R) -> Result<Inputs<R::File>, Said> {
    let payload0 = files::open(rt, PAYLOAD0)?;
    let payload1 = files::open(rt, PAYLOAD1)?;
    let overhead = files::open(rt, OVERHEAD)?;
    Ok(Inputs {
        payload0,
        payload1,
        overhead,
    })
}

// How many super-frames the payload files hold, with one above the most for any more; or says which file's size does not fit the others'.
pub fn superframes<R: Env + Eprint, F: Read + Seek + OpenFile>(
    rt: &R,
    profile: Profile,
    inputs: &mut Inputs<F>,
) -> Result<u8, Said>
    ensures { IfOk result (λ n. n ≤ 65) }
{
    let Inputs {
        payload0,
        payload1,
        overhead,
    } = inputs;
    let unit = payload_bytes(profile);
    let bytes = payload0.size();
    if bytes < unit {
        return Err(payload0.misfit(rt, bytes, b"at least ", unit));
    }
    if bytes % unit != 0 {
        return Err(payload0.misfit(rt, bytes, b"a multiple of ", unit));
    }
    let others = payload1.size();
    if others != bytes {
        let expected = b"as many as the other payload file has, ";
        return Err(payload1.misfit(rt, others, expected, bytes));
    }
    let list = overhead.size();
    if list != LIST {
        return Err(overhead.misfit(rt, list, b"", LIST));
    }
    Ok((bytes / unit).min(MOST + 1) as u8)
}

// Says how many super-frames the payload files hold, more than a line file has.
pub fn say_too_many<R: Env + Eprint, F: Read + Seek>(
    rt: &R,
    profile: Profile,
    inputs: &mut Inputs<F>,
) -> Said {
    message::begin(rt, PAYLOAD0);
    message::number(rt, inputs.payload0.size() / payload_bytes(profile));
    message::text(rt, b" super-frames, expected at most ");
    message::number(rt, MOST);
    message::end(rt)
}

// Says which of these the line file's name leads to, where it leads to one.
pub fn spare<R: Files + Env + Eprint>(
    rt: &R,
    inputs: &Inputs<R::File>,
    name: &Name,
) -> Result<(), Said> {
    let Inputs {
        payload0,
        payload1,
        overhead,
    } = inputs;
    for (input, words) in [
        (payload0, "the same file as PAYLOAD0"),
        (payload1, "the same file as PAYLOAD1"),
        (overhead, "the same file as OVERHEAD"),
    ] {
        if files::leads_to(rt, name.as_bytes(), &input.file) {
            return Err(message::line_of(rt, LINE, words));
        }
    }
    Ok(())
}
