// A file that is made: written at a path beside its name, which it takes when it is whole. So no half-written file has the name,
// and a file that had it before is as it was until then.
use crate::message;
use crate::message::Said;
use crate::places::open_update;
use filenames::path as path_of;
use filestatus::{is_regular, mode, same};
use std::fs::{OpenFile, OpenOptions, Permissions};
use std::io::ErrorKind;
use std::os::unix::fs::PermissionsExt;
use std::random::RandomSource;
use std::rt::Files;
use std::{fs, io};

// What the last six bytes of a path become.
const LETTERS: [u8; 62] = *b"abcdefghijklmnopqrstuvwxyzABCDEFGHIJKLMNOPQRSTUVWXYZ0123456789";

// The system's number for a path that is there already.
const EXISTS: i32 = 17;

// How many paths are tried, as in the C library: a number of turns, and no index.
const TRIES: usize = 238328;

// The system's number for what no path has, as one of fewer than six bytes.
const INVALID: i32 = 22;

// Whether the name leads to the open file.
pub fn leads_to<R: Files>(rt: &R, name: &[u8], file: &R::File) -> bool {
    open_update(rt, name).is_ok_and(|old| same(&old, file))
}

// Puts letters and digits in the place of the last six bytes of a path.
fn draw<R: RandomSource>(rt: &R, path: &mut [u8]) -> io::Result<()> {
    let Some(end) = path.last_chunk_mut::<6>() else {
        return Err(io::Error::from_raw_os_error(INVALID));
    };
    let mut drawn = [0u8; 6];
    rt.fill_bytes(&mut drawn)?;
    *end = drawn.map(|byte| LETTERS[usize::from(byte % 62)]);
    Ok(())
}

// Makes a new file at a path that is free.
fn create_free<R: Files>(rt: &R, path: &[u8]) -> io::Result<R::File> {
    let mut options = OpenOptions::new();
    options.write(true).create_new(true);
    options.open(rt, path_of(path)?)
}

// Makes a new file at path, whose last six bytes are replaced.
fn create_at<R: Files + RandomSource>(rt: &R, path: &mut [u8]) -> io::Result<R::File> {
    for _ in 0..TRIES {
        draw(rt, path)?;
        match create_free(rt, path) {
            Err(error) if error.kind() == ErrorKind::AlreadyExists => {}
            made => return made,
        }
    }
    Err(io::Error::from_raw_os_error(EXISTS))
}

// The same for this name; or says why it cannot.
fn create_new<R: Files + RandomSource + Eprint>(
    rt: &R,
    name: &[u8],
    path: &mut [u8],
) -> Result<R::File, Said> {
    create_at(rt, path).map_err(|error| message::fail(rt, name, error))
}

// The same with the mode of the file that has the name, which is open; a pipe or a device is not replaced.
fn create_like<R: Files + RandomSource + Eprint>(
    rt: &R,
    old: &R::File,
    name: &[u8],
    path: &mut [u8],
) -> Result<R::File, Said> {
    if !is_regular(old) {
        return Err(message::of(rt, name, b"not a regular file"));
    }
    let file = create_new(rt, name, path)?;
    let _ = file.set_permissions(Permissions::from_mode(mode(old)));
    Ok(file)
}

// Makes a new file at path, whose last six bytes are replaced by letters and digits, for this name; or says why it cannot. The name is
// free, or a regular file has it that can be written.
pub fn create<R: Files + RandomSource + Eprint>(
    rt: &R,
    name: &[u8],
    path: &mut [u8],
) -> Result<R::File, Said> {
    match open_update(rt, name) {
        Ok(old) => create_like(rt, &old, name, path),
        Err(error) if error.kind() == ErrorKind::NotFound => create_new(rt, name, path),
        Err(error) => Err(message::fail(rt, name, error)),
    }
}

// Whether an error only says that a file of this kind cannot be brought to the disk at once.
fn is_idle(error: &io::Error) -> bool {
    matches!(
        error.kind(),
        ErrorKind::InvalidInput | ErrorKind::Unsupported
    )
}

// Closes the file for this name once its bytes are on the disk, or says why they are not: what fails in closing itself is not known, so the
// bytes are brought there before.
pub fn close<R: Eprint, F: OpenFile + Drop>(rt: &R, file: F, name: &[u8]) -> Result<(), Said> {
    match file.sync_data() {
        Err(error) if !is_idle(&error) => Err(message::fail(rt, name, error)),
        _ => Ok(()),
    }
}

// Removes the file at path.
pub fn remove<R: Files>(rt: &R, path: &[u8]) {
    if let Ok(text) = path_of(path) {
        let _ = fs::remove_file(rt, text);
    }
}

// Gives the file at path its name.
fn rename<R: Files>(rt: &R, path: &[u8], name: &[u8]) -> io::Result<()> {
    fs::rename(rt, path_of(path)?, path_of(name)?)
}

// Gives the file at path its name; or says why not, and removes the file.
pub fn take_name<R: Files + Eprint>(rt: &R, path: &[u8], name: &[u8]) -> Result<(), Said> {
    if let Err(error) = rename(rt, path, name) {
        let said = message::fail(rt, name, error);
        remove(rt, path);
        return Err(said);
    }
    Ok(())
}

// Closes the file at path, which is whole, and gives it its name; or says why not, and removes it.
pub fn finish<R: Files + Eprint>(
    rt: &R,
    file: R::File,
    path: &[u8],
    name: &[u8],
) -> Result<(), Said> {
    if let Err(said) = close(rt, file, name) {
        remove(rt, path);
        return Err(said);
    }
    take_name(rt, path, name)
}

// Closes the file at path, which is not whole, and removes it.
pub fn discard<R: Files>(rt: &R, file: R::File, path: &[u8]) {
    drop(file);
    remove(rt, path);
}
