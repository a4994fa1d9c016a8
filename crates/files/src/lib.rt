// The files of a program: opened by argument and measured, or made under a name that they take when they are whole; and what is
// said of them on standard error.
// Over `report`, `filestatus` and `filenames`, below the programs.
#![tactic(auto)]

ghost use Rattle.std.specs.Prelude.{◌^◌, ◌<◌};

mod making;
pub mod message;
mod naming;
mod places;
mod reading;

pub use filenames::{Name, name_beside};
pub use filestatus::{is_regular, same};
pub use making::{close, create, discard, finish, leads_to, remove, take_name};
pub use message::Said;
pub use naming::target;
pub use places::collide;
use profile::Profile;
pub use reading::{Input, length, open, size};
use std::env::FillError;
use std::os::fd::AsRawFd;
use std::rt::{Env, Files};
use std::{array, fs};

// Whether the program was started with so many arguments, its own name not counted.
pub fn has_argument<R: Env>(rt: &R, argument: usize) -> bool {
    !matches!(rt.arg(argument, &mut [0]), Err(FillError::NotPresent))
}

// Whether an argument is this word. One that is none, or longer than 4,096 bytes, is judged as an empty one.
pub fn is_word<R: Env>(rt: &R, argument: usize, word: &[u8]) -> bool {
    let text = Name::of_argument(rt, argument).unwrap_or(Name::new());
    text.as_bytes() == word
}

// The profile that the arguments name, where there are as many as there must be: 16-QAM, or where there is one more, `qpsk`, at this place,
// that.
pub fn profile_at<R: Env>(rt: &R, argument: usize) -> Option<Profile>
    requires { (0 < argument) × (argument < 2 ^ 32) }
{
    if !has_argument(rt, argument) {
        return has_argument(rt, argument - 1).then_some(Profile::Qam16);
    }
    if has_argument(rt, argument + 1) {
        return None;
    }
    is_word(rt, argument, b"qpsk").then_some(Profile::Qpsk)
}

// The standard descriptors that were closed, taken up as long as this lasts.
#[derive(Drop)]
pub struct Held<F> {
    files: [Option<F>; 3],
}

// Takes up a standard descriptor that is closed.
fn hold<R: Files>(rt: &R) -> Option<R::File>
where
    R::File: AsRawFd,
{
    let file = fs::open(rt, "/dev/null").ok()?;
    if 2 < file.as_raw_fd() {
        return None;
    }
    Some(file)
}

// Takes up the standard descriptors that are closed, so that none of them becomes a file's.
pub fn hold_standard<R: Files>(rt: &R) -> Held<R::File>
where
    R::File: AsRawFd,
{
    Held {
        files: array::from_fn(|_| hold(rt)),
    }
}
