// Names that are opened, and whether two names to write are one file's.
use crate::making::leads_to;
use filenames::{folder, path};
use filestatus::same;
use std::fs::OpenOptions;
use std::rt::Files;
use std::{fs, io};

// Opens the file of this name for reading.
pub fn open_read<R: Files>(rt: &R, name: &[u8]) -> io::Result<R::File> {
    fs::open(rt, path(name)?)
}

// Opens the file of this name for reading and writing, and leaves its bytes as they are.
pub fn open_update<R: Files>(rt: &R, name: &[u8]) -> io::Result<R::File> {
    let mut options = OpenOptions::new();
    options.read(true).write(true);
    options.open(rt, path(name)?)
}

// Opens the folder of a name.
fn open_folder<R: Files>(rt: &R, name: &[u8]) -> io::Result<R::File> {
    let end = folder(name);
    if end == 0 {
        return open_read(rt, b".");
    }
    open_read(rt, &name[..end])
}

// Whether two names lie in the same folder.
fn in_one_folder<R: Files>(rt: &R, a: &[u8], b: &[u8]) -> bool {
    match (open_folder(rt, a), open_folder(rt, b)) {
        (Ok(first), Ok(second)) => same(&first, &second),
        _ => false,
    }
}

// Whether a file that is made under the one name has the other too: both lead to one file, or no file has them yet and they are one name in
// one folder.
pub fn collide<R: Files>(rt: &R, a: &[u8], b: &[u8]) -> bool {
    if let Ok(file) = open_update(rt, a) {
        return leads_to(rt, b, &file);
    }
    if in_one_folder(rt, a, b) {
        return a[folder(a)..] == b[folder(b)..];
    }
    false
}
