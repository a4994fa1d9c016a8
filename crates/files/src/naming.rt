// The names of files: the one that an argument gives, and the one of the file that it names for writing.
use crate::message;
use crate::message::Said;
use crate::places::open_update;
use filenames::Name;
use std::io::ErrorKind;
use std::rt::{Env, Files};
use std::{io, str};

// Why an argument's bytes are no name, where they are none.
fn flaw(name: &[u8]) -> Option<&'static str> {
    if name.is_empty() {
        return Some("the name is empty");
    }
    if str::from_utf8(name).is_err() {
        return Some("the name is no UTF-8 text");
    }
    None
}

// The name that an argument gives; or says why it gives none.
pub fn name_of<R: Env + Eprint>(rt: &R, argument: usize) -> Result<Name, Said> {
    let Some(name) = Name::of_argument(rt, argument) else {
        return Err(message::line(rt, argument, b"the name is too long"));
    };
    match flaw(name.as_bytes()) {
        Some(words) => Err(message::line_of(rt, argument, words)),
        None => Ok(name),
    }
}

// Says why the file that a link leads to cannot be written, where it cannot.
fn writable<R: Files + Env + Eprint>(rt: &R, argument: usize, name: &[u8]) -> Result<(), Said> {
    match open_update(rt, name) {
        Ok(_) => Ok(()),
        Err(error) if error.kind() == ErrorKind::NotFound => Err(message::line(
            rt,
            argument,
            b"a symbolic link to a file that is not there",
        )),
        Err(error) => Err(message::fail(rt, name, error)),
    }
}

// Puts the name of the file that a symbolic link leads to in the place of the link's, and answers whether the name was a link's.
fn follow<R: Files + Alloc>(rt: &R, name: &mut Name) -> io::Result<bool> {
    let is_link = name.follow(rt)?;
    if is_link {
        name.follow_all(rt)?;
    }
    Ok(is_link)
}

// The name of the file that an argument names for writing: its own, or where it is a symbolic link, the name of the file that it leads to;
// or says why it names none.
pub fn target<R: Files + Alloc + Env + Eprint>(rt: &R, argument: usize) -> Result<Name, Said> {
    let mut name = name_of(rt, argument)?;
    match follow(rt, &mut name) {
        Ok(true) => writable(rt, argument, name.as_bytes())?,
        Ok(false) => {}
        Err(_) => {
            return Err(message::line(rt, argument, b"a symbolic link that cannot be followed"));
        }
    }
    Ok(name)
}
